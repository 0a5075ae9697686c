//! The walk through two diagrams, in the order of the cells from the least on.

ghost use Rattle.std.specs.Prelude.{◌≡◌, ◌+◌, ◌-◌, ◌^◌, ◌≤◌, ◌<◌, ◌==◌, ◌&&◌, min, ℕ, length, slice_set, IfOk, OnOk, IfSome, IsTrue};
ghost use Rattle.std.specs.List.{All, Contains};
ghost use Rattle.rules_diagrams.specs.CellNumbers.{octets_number};
ghost use Rattle.rules_diagrams.specs.inner.Values.{IsWithin};
ghost use Rattle.rules_diagrams.specs.inner.Meetings.{AreMeetings};
ghost use Rattle.rules_diagrams.specs.inner.Pairs.{ArePairs};
ghost use Rattle.rules_diagrams.specs.inner.Store.{above};
ghost use Rattle.rules_diagrams.specs.inner.Walks.{AreSeen, IsClearFrom, IsWalked, both_top, with_meeting};
ghost use Rattle.rules_diagrams.specs.declared.diagram.Diagram.{Diagram as Kind};

use crate::diagram::Diagram;
use crate::fault::Undecided;
use crate::meeting::{Both, Meeting, Pair};
use crate::store::{Diagrams, TABLE, code_of, place_of};
use std::alloc::Global;
use std::collections::BTreeSet;
use upc_cell::{CELL_OCTETS, Cell};

/// The largest number of steps of a walk.
pub const MOST_STEPS: u32 = 4_194_304;

/// The largest number of meetings.
pub const MOST_MEETINGS: usize = 65536;

/// A walk.
#[derive(Drop)]
struct Walk {
    /// The meetings so far.
    met: Vec<Meeting>,
    /// The numbers of the meetings so far.
    pairs: BTreeSet<(u32, u32)>,
    /// Pairs of diagrams that were walked through, in a hash table. Each place has the last pair that belongs there, if there is one.
    seen: Vec<Option<Both>>,
    /// How many steps may follow.
    left: u32,
}

/// The numbers of two diagrams that are leaves.
fn leaves(both: Both) -> Option<Pair>
    ensures leaves { IfSome result (λ pair. both ≡ record { one = Kind.Leaf pair.one; other = Kind.Leaf pair.other }) }
    ensures open { result ≡ None → min (above both.one) (above both.other) ≡ 416 }
{
    match both.one {
        Diagram::Inner(_) => None,
        Diagram::Leaf(one) => match both.other {
            Diagram::Inner(_) => None,
            Diagram::Leaf(other) => Some(Pair { one, other }),
        },
    }
}

/// The first bit that one of two diagrams asks for.
fn first_bit(one: &Diagrams, other: &Diagrams, both: Both) -> u16
    requires one { IsWithin one.now both.one }
    requires other { IsWithin other.now both.other }
    requires open { min (above both.one) (above both.other) ≡ 416 }
    ensures first { result ≡ both_top one.now other.now both }
    ensures bit { result < 416 }
{
    one.top(both.one).min(other.top(both.other))
}

/// Whether two pairs of diagrams are the same.
fn is_same_pair(one: Option<Both>, other: Both) -> bool
    ensures { IsTrue result → one ≡ Some other }
{
    match one {
        None => false,
        Some(one) => one == other,
    }
}

/// The cell with this bit set too. In `cell` neither it nor a later bit is set.
fn with_bit(cell: Cell, bit: u16) -> Cell
    requires bit { bit < 416 }
    requires clear { IsClearFrom bit cell }
    ensures clear { IsClearFrom (bit + 1) result }
    ensures number { octets_number result ≡ octets_number cell + 2 ^ (415 - bit) }
{
    let mut octets = *cell.bytes();
    octets[usize::from(bit / 8)] += 1 << (7 - bit % 8);
    Cell::from(octets)
}

/// The place of two diagrams in the table.
fn place_of_both(both: Both) -> usize
    ensures { result < 65536 }
{
    place_of(code_of(both.one), code_of(both.other), 0)
}

/// A table in which nothing was seen.
fn nothing_seen(alloc: Global, size: usize) -> Result<Vec<Option<Both>>, Undecided>
    ensures length { IfOk result (λ seen. length seen.items ≡ size) }
    ensures none { IfOk result (λ seen. All (λ place. place ≡ None) seen.items) }
{
    Ok(vec![in alloc; None; size]?)
}

impl Walk {
    /// Whether these diagrams were walked through.
    fn is_seen(&self, both: Both) -> bool
        requires { length self.now.seen.items ≡ 65536 }
        ensures { IsTrue result → Contains self.now.seen.items (Some both) }
    {
        is_same_pair(self.seen[place_of_both(both)], both)
    }

    /// Keeps that these diagrams were walked through.
    fn keep(&mut self, both: Both)
        requires { length self.old.seen.items ≡ 65536 }
        ensures met { self.new.met ≡ self.old.met }
        ensures pairs { self.new.pairs ≡ self.old.pairs }
        ensures seen { (place : ℕ) × (self.new.seen.items ≡ slice_set self.old.seen.items place (Some both)) }
    {
        let place = place_of_both(both);
        self.seen[place] = Some(both);
    }

    /// Adds a meeting, if its numbers aren't among those so far.
    fn meet(&mut self, meeting: Meeting) -> Result<(), Undecided>
        requires { ArePairs self.old.pairs self.old.met.items }
        ensures met { OnOk result (self.new.met.items ≡ with_meeting self.old.met.items meeting) }
        ensures pairs { OnOk result (ArePairs self.new.pairs self.new.met.items) }
        ensures seen { self.new.seen ≡ self.old.seen }
    {
        if !self.pairs.insert((meeting.one, meeting.other))? {
            return Ok(());
        }
        if self.met.len() >= MOST_MEETINGS {
            return Err(Undecided::TooLarge);
        }
        self.met.push(meeting)?;
        Ok(())
    }

    /// Walks through two diagrams. `cell` is the least cell that leads to both.
    fn go(
        &mut self,
        one: &Diagrams,
        other: &Diagrams,
        both: Both,
        cell: Cell,
    ) -> Result<(), Undecided>
        requires one { IsWithin one.now both.one }
        requires other { IsWithin other.now both.other }
        requires seen { AreSeen one.now other.now self.old.met.items self.old.seen.items }
        requires cell { IsClearFrom (both_top one.now other.now both) cell }
        requires pairs { ArePairs self.old.pairs self.old.met.items }
        ensures walked { OnOk result (IsWalked one.now other.now self.old.met.items self.new.met.items self.new.seen.items both (octets_number cell)) }
        ensures pairs { OnOk result (ArePairs self.new.pairs self.new.met.items) }
    {
        if self.is_seen(both) {
            return Ok(());
        }
        if self.left == 0 {
            return Err(Undecided::TooLarge);
        }
        self.left -= 1;
        if let Some(pair) = leaves(both) {
            self.meet(Meeting {
                one: pair.one,
                other: pair.other,
                cell,
            })?;
            self.keep(both);
            return Ok(());
        }
        let bit = first_bit(one, other, both);
        let first = one.sides(both.one, bit);
        let second = other.sides(both.other, bit);
        let low = Both {
            one: first.low,
            other: second.low,
        };
        let high = Both {
            one: first.high,
            other: second.high,
        };
        self.go(one, other, low, cell)?;
        self.go(one, other, high, with_bit(cell, bit))?;
        self.keep(both);
        Ok(())
    }
}

/// The cell of which no bit is set.
fn zero_cell() -> Cell
    ensures clear { (bit : ℕ) → IsClearFrom bit result }
    ensures number { octets_number result ≡ 0 }
{
    Cell::from([0; CELL_OCTETS])
}

/// The pairs of numbers that two diagrams give a cell, each with its least cell, in the order of these cells.
///
/// # Errors
///
/// `TooLarge` if more than [`MOST_STEPS`] steps or [`MOST_MEETINGS`] pairs were needed; `NoMemory` if an allocation failed.
pub(crate) fn meetings(
    alloc: Global,
    one: &Diagrams,
    other: &Diagrams,
    both: Both,
) -> Result<Vec<Meeting>, Undecided>
    requires one { IsWithin one.now both.one }
    requires other { IsWithin other.now both.other }
    ensures { IfOk result (λ meetings. AreMeetings one.now other.now both meetings.items) }
{
    let mut walk = Walk {
        met: Vec::new(alloc),
        pairs: BTreeSet::new(alloc),
        seen: nothing_seen(alloc, TABLE)?,
        left: MOST_STEPS,
    };
    walk.go(one, other, both, zero_cell())?;
    Ok(walk.met)
}

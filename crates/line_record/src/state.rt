//! The state of a line between two cells.

use crate::entry::Entry;
use crate::equality::same_levels;
use crate::named_contract::judge_named;
use crate::tally::Tally;
use arrayvec::ArrayVec;
use gen_arena::Id;
use leaky::{Contract, Levels, Verdict};

/// The state of a line between two cells.
#[derive(Debug, PartialEq, Eq, Drop)]
pub struct State {
    /// The moment of the connection's last judged cell, in ticks, or 0 if there was none.
    pub last: u64,
    /// The counts of the verdicts on the line, including those for earlier connections.
    pub counts: Tally,
    /// The levels of each contract, in the order of the contracts.
    pub levels: ArrayVec<Levels, 4>,
}

impl State {
    ghost use Rattle.std.specs.Prelude.{◌≡◌, ◌↔◌, ◌^◌, ◌<◌, ◌≤◌, [], ◌∷◌, length, None, IsTrue};
    ghost use Rattle.line_record.specs.Tally.{cells_in};
    ghost use Rattle.line_record.specs.History.{named_cell_of, numbered};
    ghost use Rattle.line_record.specs.JournalRun.{IsJournalRun};
    ghost use Rattle.line_record.specs.Line.{resting, IsOpening};

    /// Returns the state of a line without contracts.
    pub(crate) fn resting(counts: Tally) -> Self
        ensures { result ≡ resting counts }
    {
        State {
            levels: ArrayVec::new(),
            last: 0,
            counts,
        }
    }

    /// Returns the state of a connection under these contracts before its first cell.
    pub(crate) fn opening(contracts: &[Contract], counts: Tally) -> Self
        requires { length contracts.now ≤ 4 }
        ensures { IsOpening contracts.now counts result }
    {
        let mut levels = ArrayVec::from([Levels::new(); 4]);
        levels.truncate(contracts.len());
        State {
            levels,
            last: 0,
            counts,
        }
    }

    /// Returns a copy of the state. Doesn't allocate.
    pub fn copied(&self) -> Self
        ensures { result ≡ self.now }
    {
        let mut levels = ArrayVec::new();
        match levels.try_extend_from_slice(self.levels.as_slice()) {
            Ok(()) => State {
                levels,
                last: self.last,
                counts: self.counts,
            },
            Err(_) => unreachable!(),
        }
    }

    /// Returns whether both states are the same. The result is that of `==`; the contract is one that other crates can
    /// use.
    pub fn is_same(&self, other: &State) -> bool
        ensures { IsTrue result ↔ (self.now ≡ other.now) }
    {
        same_levels(self.levels.as_slice(), other.levels.as_slice())
            && self.last == other.last
            && self.counts == other.counts
    }

    /// Judges a cell by the contract of the number `value`, counted from 1, and updates the state.
    #[inline(always)]
    pub(crate) fn judge(
        &mut self,
        contracts: &[Contract],
        moment: u64,
        clp: bool,
        value: u32,
        program: Id,
    ) -> Entry
        requires one_each { length self.old.levels.items ≡ length contracts.now }
        requires later { self.old.last ≤ moment }
        requires in_time { moment ≤ 2 ^ 62 }
        requires room { cells_in self.old.counts < 2 ^ 62 }
        ensures cell { named_cell_of result
            ≡ record { moment = moment; clp = clp; value = value; program = program } }
        ensures run { IsJournalRun contracts.now self.old (result ∷ []) self.new }
        ensures unnamed { numbered contracts.now value ≡ None → result.verdict ≡ Verdict.Refuse }
    {
        let verdict = judge_named(contracts, &mut self.levels, clp, moment, value);
        self.last = moment;
        self.counts.count(verdict);
        Entry {
            moment,
            clp,
            value,
            program,
            verdict,
        }
    }
}

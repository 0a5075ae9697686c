//! The connections of a directory with their seatings.

ghost use Rattle.std.specs.Prelude.{◌≡◌, ◌<◌, Some, None, IfSome, length, replicate, slice_get};
ghost use Rattle.std.specs.List.{list_any};
ghost use Rattle.upc_cell.specs.declared.vc.Vc.{Vc as Connection};
ghost use Rattle.line_record.specs.inner.Seats.{names_program};

use crate::directory::Seating;
use gen_arena::Id;
use std::alloc::Global;
use std::marker::Model;
use upc_cell::Vc;
use vc_table::{TableFault, VcLines};

/// For each line, the connection that has it, with its seating. Every cell causes a look-up here. A look-up reads three numbers of the
/// table and the seat of the line, whichever connections are set up. In a hash map with a fixed seed look-ups would be slow
/// for connections that were chosen because they have the same hash.
#[derive(Debug, Drop)]
pub(crate) struct Seats {
    /// The line of each connection.
    table: VcLines,
    /// The seat of each line.
    seats: Vec<Option<(Vc, Seating)>>,
}

impl Model for Seats {
    ghost use Rattle.line_record.specs.inner.SeatsView.{SeatsView};

    ghost Value = { SeatsView };

    ghost use Rattle.std.specs.Prelude.{length};
    ghost use Rattle.line_record.specs.inner.Seats.{seated, KeepsSeats};

    ghost view = { λ s. record { seatings = seated s.seats.items; lines = length s.seats.items } };

    ghost invariant = { λ s. KeepsSeats s.table s.seats.items };
}

impl Seats {
    ghost use Rattle.std.specs.Prelude.{◌≡◌, ◌≢◌, ◌<◌, [], None, Some, IfSome, IfNone, OnOk, OnErr, IsTrue, ◌↔◌, option_map};
    ghost use Rattle.line_record.specs.Seatings.{seating_in};
    ghost use Rattle.line_record.specs.inner.SeatingChanges.{ChangesAt, HasNamed};

    /// Makes seats for this number of lines, all free. Returns None if an allocation fails.
    pub(crate) fn new(alloc: Global, lines: u16) -> Option<Self>
        ensures { IfSome result (λ seats. seats ≡ (record { seatings = []; lines = lines })) }
    {
        let table = VcLines::new(alloc)?;
        let seats = free_seats(alloc, lines)?;
        Some(Seats { table, seats })
    }

    /// Returns the seating of the connection, if it has one.
    #[inline]
    pub(crate) fn find(&self, vc: Vc) -> Option<Seating>
        ensures { result ≡ seating_in self.now.seatings vc }
    {
        let line = self.table.find(vc)?;
        seating_at(&self.seats, line)
    }

    /// Gives the connection a free line. At most 65,534 others have lines, so the table is never full.
    pub(crate) fn insert(&mut self, vc: Vc, seating: Seating) -> Result<(), TableFault>
        requires absent { seating_in self.old.seatings vc ≡ None }
        requires within { seating.line < self.old.lines }
        requires free { (other : Connection) (another : Seating) → seating_in self.old.seatings other ≡ Some another
            → another.line ≢ seating.line }
        ensures changes { OnOk result (ChangesAt self.old.seatings self.new.seatings vc (Some seating)) }
        ensures lines { self.new.lines ≡ self.old.lines }
        ensures unchanged { OnErr result (self.new ≡ self.old) }
    {
        match self.table.put(vc, seating.line) {
            Ok(()) => {
                self.seats[usize::from(seating.line)] = Some((vc, seating));
                Ok(())
            }
            Err(fault) => Err(fault),
        }
    }

    /// Writes another program into the seating of the connection. Returns the earlier one.
    pub(crate) fn reprogram(&mut self, vc: Vc, program: Id) -> Option<Id>
        ensures before { result ≡ option_map (λ seating. seating.program) (seating_in self.old.seatings vc) }
        ensures moved { IfSome (seating_in self.old.seatings vc) (λ seating.
            ChangesAt self.old.seatings self.new.seatings vc (Some (record seating { program = program }))) }
        ensures lines { self.new.lines ≡ self.old.lines }
        ensures unchanged { IfNone result (self.new ≡ self.old) }
    {
        let seating = self.find(vc)?;
        self.seats[usize::from(seating.line)] = Some((vc, Seating { program, ..seating }));
        Some(seating.program)
    }

    /// Removes the connection and returns its seating.
    pub(crate) fn remove(&mut self, vc: Vc) -> Option<Seating>
        ensures before { result ≡ seating_in self.old.seatings vc }
        ensures changes { ChangesAt self.old.seatings self.new.seatings vc None }
        ensures lines { self.new.lines ≡ self.old.lines }
        ensures unchanged { IfNone result (self.new ≡ self.old) }
    {
        let seating = self.find(vc)?;
        let _ = self.table.remove(vc);
        self.seats[usize::from(seating.line)] = None;
        Some(seating)
    }

    /// Returns whether the seating of some connection names the program.
    pub(crate) fn names(&self, program: Id) -> bool
        ensures { IsTrue result ↔ HasNamed self.now.seatings program }
    {
        is_any_named(&self.seats, program)
    }
}

/// Returns this number of seats without connections, or None if an allocation fails.
fn free_seats(alloc: Global, lines: u16) -> Option<Vec<Option<(Vc, Seating)>>>
    ensures { IfSome result (λ seats. seats.items ≡ replicate lines None) }
{
    vec![in alloc; None; usize::from(lines)].ok()
}

/// Returns the seating of the connection that has this line, if there is one.
#[inline]
fn seating_at(seats: &[Option<(Vc, Seating)>], line: u16) -> Option<Seating>
    requires { line < length seats.now }
    ensures { (vc : Connection) (seating : Seating) → slice_get seats.now line ≡ Some (Some (vc, seating))
        → result ≡ Some seating }
{
    match seats[usize::from(line)] {
        Some((_, seating)) => Some(seating),
        None => None,
    }
}

/// Returns whether some seating names the program.
fn is_any_named(seats: &[Option<(Vc, Seating)>], program: Id) -> bool
    ensures { result ≡ list_any (names_program program) seats.now }
{
    seats.iter().any(|seat| does_name(seat, program))
}

/// Returns whether there is a seating that names the program.
fn does_name(seat: &Option<(Vc, Seating)>, program: Id) -> bool
    ensures { result ≡ names_program program seat.now }
{
    match seat {
        Some((_, seating)) => seating.program == program,
        None => false,
    }
}

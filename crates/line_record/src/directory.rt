//! The line of each connection.

use crate::fault::DirFault;
use crate::held_lines::HeldLines;
use crate::program_uses::ProgramUses;
use crate::seats::Seats;
use gen_arena::Id;
use std::alloc::Global;
use std::marker::Model;
use upc_cell::Vc;

/// The last incarnation that a directory gives: 2^62.
pub const LAST_INCARNATION: u64 = 4611686018427387904;

/// The line, the incarnation and the program of a connection.
#[derive(Clone, Copy, Debug, PartialEq, Eq)]
pub struct Seating {
    /// The number of its line, from 0.
    pub line: u16,
    /// The number of this setup, from 1, among all setups of the directory. No two setups have the same number.
    pub incarnation: u64,
    /// The program that names the contracts for its cells.
    pub program: Id,
}

/// The seating of each connection of a card: its line, its incarnation and its program. No two connections have the same line, and no
/// incarnation is given twice.
#[derive(Debug, Drop)]
pub struct Directory {
    /// The seating of each connection. Every cell causes a look-up here.
    seats: Seats,
    /// The number of lines.
    lines: u16,
    /// The number of incarnations given so far.
    used: u64,
    /// For each line, whether some connection has it.
    held: HeldLines,
    /// Counts of the connections that name a program. If a program's count is 0, `names` has no seating to read.
    uses: ProgramUses,
}

impl Model for Directory {
    ghost use Rattle.line_record.specs.Directory.{DirectoryView};
    ghost use Rattle.line_record.specs.inner.DirectoryFields.{directory_of, KeepsDirectory};

    ghost Value = { DirectoryView };

    ghost view = { λ d. directory_of d.seats.seatings d.lines d.used };

    ghost invariant = { λ d. KeepsDirectory (directory_of d.seats.seatings d.lines d.used) d.seats.lines d.held d.uses };
}

impl Directory {
    ghost use Rattle.std.specs.Prelude.{◌≡◌, ℕ, ◌+◌, ◌^◌, ◌<◌, ◌≤◌, ◌⊎◌, ◌↔◌, Some, None, IsTrue, IsErrOf, IfOk, IfErr, IfSome, OnOk, OnErr, IfNone, MatchOption, option_map};
    ghost use Rattle.line_record.specs.Directory.{seating_at, IsOpenLine, IsTakenLine, IsNamed, Sits, IsEmpty, IsDirectory};

    /// Makes a directory of `lines` lines without connections. It gives the incarnation `first` next.
    ///
    /// # Errors
    ///
    /// `NoLines` if `lines` is 0; otherwise `BadFirst` if `first` is 0 or above 2^62; otherwise `NoMemory` if an
    /// allocation fails.
    pub fn new(alloc: Global, lines: u16, first: u64) -> Result<Self, DirFault>
        ensures made { IfOk result (λ directory. IsEmpty directory lines first) }
        ensures no_lines { IsErrOf result DirFault.NoLines ↔ (lines ≡ 0) }
        ensures bad_first { IsErrOf result DirFault.BadFirst
            ↔ ((0 < lines) × ((first ≡ 0) ⊎ (2 ^ 62 < first))) }
    {
        if lines == 0 {
            return Err(DirFault::NoLines);
        }
        if first == 0 || first > LAST_INCARNATION {
            return Err(DirFault::BadFirst);
        }
        Directory::empty(alloc, lines, first - 1).ok_or(DirFault::NoMemory)
    }

    /// Makes a directory without connections that has given this number of incarnations. Returns None if an allocation
    /// fails.
    fn empty(alloc: Global, lines: u16, used: u64) -> Option<Self>
        requires some { 0 < lines }
        requires most { used ≤ 2 ^ 62 }
        ensures { IfSome result (λ directory. IsEmpty directory lines (used + 1)) }
    {
        let held = HeldLines::new(alloc, lines)?;
        let uses = ProgramUses::new(alloc, lines)?;
        let seats = Seats::new(alloc, lines)?;
        Some(Directory {
            seats,
            lines,
            used,
            held,
            uses,
        })
    }

    /// Returns the seating of the connection, if it has one. Doesn't allocate.
    #[inline]
    pub fn find(&self, vc: Vc) -> Option<Seating>
        ensures seating { result ≡ seating_at self.now vc }
        ensures directory { IsDirectory self.now }
    {
        self.seats.find(vc)
    }

    /// Gives the connection a free line and the next incarnation. Returns the incarnation.
    ///
    /// # Errors
    ///
    /// `NoMemory` if an allocation fails.
    pub fn put(&mut self, vc: Vc, line: u16, program: Id) -> Result<u64, DirFault>
        requires absent { seating_at self.old vc ≡ None }
        requires line { line < self.old.lines }
        requires free { IsOpenLine self.old line }
        requires unworn { self.old.used < 2 ^ 62 }
        ensures incarnation { IfOk result (λ incarnation. incarnation ≡ self.old.used + 1) }
        ensures seating { IfOk result (λ incarnation. Sits self.old vc
            (Some (record { line = line; incarnation = incarnation; program = program })) self.new) }
        ensures used { OnOk result (self.new.used ≡ self.old.used + 1) }
        ensures lines { self.new.lines ≡ self.old.lines }
        ensures no_memory { IfErr result (λ fault. fault ≡ DirFault.NoMemory) }
        ensures unchanged { OnErr result (self.new ≡ self.old) }
    {
        let incarnation = self.used + 1;
        let seating = Seating {
            line,
            incarnation,
            program,
        };
        match self.seats.insert(vc, seating) {
            Ok(()) => {
                self.used = incarnation;
                self.held.hold(line);
                self.uses.add(seating.program);
                Ok(incarnation)
            }
            Err(_) => Err(DirFault::NoMemory),
        }
    }

    /// Gives the connection another program and returns the earlier one. If there is no such connection, returns None
    /// and changes nothing. Doesn't allocate.
    pub fn move_to(&mut self, vc: Vc, program: Id) -> Option<Id>
        ensures before { result ≡ option_map (λ seating. seating.program) (seating_at self.old vc) }
        ensures moved { IfSome (seating_at self.old vc)
            (λ seating. Sits self.old vc (Some (record seating { program = program })) self.new) }
        ensures unchanged { IfNone result (self.new ≡ self.old) }
        ensures used { self.new.used ≡ self.old.used }
        ensures lines { self.new.lines ≡ self.old.lines }
    {
        let before = self.seats.reprogram(vc, program);
        if let Some(named) = before {
            self.uses.remove(named);
            self.uses.add(program);
        }
        before
    }

    /// Removes the connection and returns its seating. Doesn't allocate.
    pub fn take(&mut self, vc: Vc) -> Option<Seating>
        ensures before { result ≡ seating_at self.old vc }
        ensures gone { Sits self.old vc None self.new }
        ensures used { self.new.used ≡ self.old.used }
        ensures lines { self.new.lines ≡ self.old.lines }
        ensures unchanged { IfNone result (self.new ≡ self.old) }
    {
        let seating = self.seats.remove(vc)?;
        self.held.free(seating.line);
        self.uses.remove(seating.program);
        Some(seating)
    }

    /// Returns whether some connection names the program. Doesn't allocate.
    pub fn names(&self, program: Id) -> bool
        ensures { IsTrue result ↔ IsNamed self.now program }
    {
        !self.uses.is_unused(program) && self.seats.names(program)
    }

    /// Returns a line that no connection has, if there is one. No clause says which one. Doesn't allocate.
    pub fn free_line(&self) -> Option<u16>
        ensures { MatchOption result
            ((line : ℕ) → line < self.now.lines → IsTakenLine self.now line)
            (λ line. (line < self.now.lines) × IsOpenLine self.now line) }
    {
        self.held.lowest_free()
    }

    /// Returns whether the last incarnation was given.
    pub fn worn(&self) -> bool
        ensures worn { IsTrue result ↔ (self.now.used ≡ 2 ^ 62) }
        ensures directory { IsDirectory self.now }
    {
        self.used >= LAST_INCARNATION
    }
}

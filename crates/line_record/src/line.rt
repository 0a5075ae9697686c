//! A line of the card: its connection, its journal, and the policing of cells.

ghost use Rattle.std.specs.Prelude.{◌≡◌};

use crate::entry::Entry;
use crate::fault::LineFault;
use crate::owner::Owner;
use crate::piece::Piece;
use crate::state::State;
use crate::tally::Tally;
use arrayvec::ArrayVec;
use gen_arena::Id;
use leaky::{Contract, LAST_MOMENT, Verdict};
use std::alloc::Global;
use std::marker::Model;
use std::mem;

/// The greatest number of cells judged on one line: 2^62.
pub const MOST_CELLS: u64 = 4611686018427387904;

/// The greatest number of entries of a journal: 65,536.
pub const MOST_ENTRIES: u32 = 65536;

/// A line of the card: the connection that it serves, if any, with its contracts and their state, and the journal of
/// the cells that were judged since it began: at the setup, at the last cut, or when the journal was last dropped.
///
/// The entries of the journal are a run from the state at its beginning to the present state. The counts are those of
/// all cells ever judged on the line.
#[derive(Debug, Drop)]
pub struct Line {
    // The fields that every cell uses come first, next to each other.
    owner: Option<Owner>,
    /// The greatest number of entries of the journal.
    journal: u32,
    /// The entries of the journal. While the line serves a connection, they have capacity for a full journal.
    entries: Vec<Entry>,
    /// The state after the last judged cell.
    state: State,
    /// The contracts of the connection. A free line has none.
    contracts: ArrayVec<Contract, 4>,
    /// The state at the beginning of the journal, from which the entries lead to `state`.
    start: State,
}

impl Model for Line {
    ghost use Rattle.std.specs.Prelude.{vec_capacity};
    ghost use Rattle.line_record.specs.Line.{LineView};
    ghost use Rattle.line_record.specs.inner.LineFields.{view_of, KeepsRoom};

    ghost Value = { LineView };

    ghost view = { λ l. view_of l.owner l.contracts.items l.journal l.start
        l.entries.items l.state (vec_capacity l.entries) };

    ghost invariant = { λ l. KeepsRoom
        (view_of l.owner l.contracts.items l.journal l.start
        l.entries.items l.state (vec_capacity l.entries))
        (vec_capacity l.entries) };
}

impl Line {
    ghost use Rattle.std.specs.Prelude.{◌≡◌, ℕ, ◌^◌, ◌<◌, ◌≤◌, ◌↔◌, List, [], ◌∷◌, ◌++◌, length, true, false, Some, None, IsTrue, IsOk, IfOk, IfErr, OnOk, OnErr, MatchResult, IsSome};
    ghost use Rattle.line_record.specs.Tally.{nothing, counted, cells_in};
    ghost use Rattle.line_record.specs.History.{NamedCell, named_cell_of, empty_buckets, verdict_after, IsNoNumber};
    ghost use Rattle.line_record.specs.StateAfter.{IsStateAfter};
    ghost use Rattle.line_record.specs.Line.{free_line, is_long, line_refusal, IsHeld, Gains, OpensLine, IsLine};
    ghost use Rattle.line_record.specs.Piece.{IsJournalOf, IsPiece};

    /// Makes a free line that has judged no cell. Its journals have at most `journal` entries (1 to 65536).
    ///
    /// # Errors
    ///
    /// The contract allows `NoMemory`. The body allocates nothing: [`Line::prepare`] and [`Line::open`] allocate the journal.
    pub fn new(alloc: Global, journal: u32) -> Result<Self, LineFault>
        requires some { 1 ≤ journal }
        requires most { journal ≤ MOST_ENTRIES }
        ensures made { IfOk result (λ line. line ≡ free_line journal nothing false) }
        ensures no_memory { IfErr result (λ fault. fault ≡ LineFault.NoMemory) }
    {
        Ok(Line::free(alloc, journal, Tally::new()))
    }

    /// Makes a free line with these counts.
    fn free(alloc: Global, journal: u32, counts: Tally) -> Self
        requires some { 1 ≤ journal }
        requires most { journal ≤ MOST_ENTRIES }
        requires cells { cells_in counts ≤ 2 ^ 62 }
        ensures { result ≡ free_line journal counts false }
    {
        Line {
            owner: None,
            contracts: ArrayVec::new(),
            journal,
            start: State::resting(counts),
            entries: Vec::new(alloc),
            state: State::resting(counts),
        }
    }

    /// Returns whether the line serves no connection.
    pub fn is_free(&self) -> bool
        ensures free { IsTrue result ↔ (self.now.owner ≡ None) }
        ensures line { IsLine self.now }
    {
        self.owner.is_none()
    }

    /// Returns whether the line is free and has space reserved for its next journal.
    pub fn is_ready(&self) -> bool
        ensures { result ≡ self.now.ready }
    {
        self.is_free() && self.entries.capacity() >= self.journal as usize
    }

    /// Returns the connection that the line serves.
    pub fn owner(&self) -> Option<Owner>
        ensures owner { result ≡ self.now.owner }
        ensures line { IsLine self.now }
    {
        self.owner
    }

    /// Returns the contracts of the connection that the line serves; none if the line is free.
    pub fn contracts(&self) -> &[Contract]
        ensures contracts { result.now ≡ self.now.contracts }
        ensures few { length self.now.contracts ≤ 4 }
        ensures line { IsLine self.now }
    {
        self.contracts.as_slice()
    }

    /// Returns the state of the connection that the line serves: the moment of its last judged cell, the counts of the
    /// line, and the levels of each contract. Without a connection it has no levels and the moment 0.
    pub fn state(&self) -> &State
        ensures state { result.now ≡ self.now.state }
        ensures line { IsLine self.now }
    {
        &self.state
    }

    /// Returns a copy of the contracts of the connection that the line serves; none if the line is free.
    pub fn contracts_copied(&self) -> ArrayVec<Contract, 4>
        ensures { result.items ≡ self.now.contracts }
    {
        copied(&self.contracts)
    }

    /// Returns the counts of the verdicts on all cells ever judged on the line.
    pub fn counts(&self) -> Tally
        ensures counts { result ≡ self.now.state.counts }
        ensures bounded { cells_in result ≤ 2 ^ 62 }
    {
        self.state.counts
    }

    /// Returns the moment of the connection's last judged cell, in ticks, or 0 if there was none.
    pub fn last(&self) -> u64
        ensures last { result ≡ self.now.state.last }
        ensures bounded { result ≤ 2 ^ 62 }
    {
        self.state.last
    }

    /// Returns the journal: the cells judged since it began.
    pub fn entries(&self) -> &[Entry]
        ensures entries { result.now ≡ self.now.entries }
        ensures line { IsLine self.now }
    {
        self.entries.as_slice()
    }

    /// Reserves space for the next journal of a free line, so that `open` doesn't allocate.
    ///
    /// # Errors
    ///
    /// `NoMemory` if an allocation fails.
    pub fn prepare(&mut self) -> Result<(), LineFault>
        requires { self.old.owner ≡ None }
        ensures ready { OnOk result (self.new ≡ record self.old { ready = true }) }
        ensures no_memory { IfErr result (λ fault. fault ≡ LineFault.NoMemory) }
        ensures was_ready { IsTrue self.old.ready → IsOk result }
        ensures unchanged { OnErr result (self.new ≡ self.old) }
        ensures counts { self.new.state.counts ≡ self.old.state.counts }
    {
        let journal = self.journal as usize;
        if self.entries.reserve_exact(journal).is_err() {
            return Err(LineFault::NoMemory);
        }
        Ok(())
    }

    /// Starts to serve a connection under its contracts, of which there is at least one. The buckets and the journal
    /// are empty, and the last moment is 0.
    ///
    /// # Errors
    ///
    /// `NoMemory` with the contracts if the allocation for the journal fails. A line that is ready never returns it.
    pub fn open(
        &mut self,
        owner: Owner,
        contracts: ArrayVec<Contract, 4>,
    ) -> Result<(), (LineFault, ArrayVec<Contract, 4>)>
        requires free { self.old.owner ≡ None }
        requires some { 0 < length contracts.items }
        ensures opened { OnOk result (OpensLine self.old owner contracts.items self.new) }
        ensures history { OnOk result (IsStateAfter contracts.items [] self.new.state) }

        // It fails only if the allocation fails, and then nothing changes.
        ensures was_ready { IsTrue self.old.ready → IsOk result }
        ensures no_memory { IfErr result (λ refused. refused.0 ≡ LineFault.NoMemory) }
        ensures returned { IfErr result (λ refused. refused.1 ≡ contracts) }
        ensures unchanged { OnErr result (self.new ≡ self.old) }

        ensures counts { self.new.state.counts ≡ self.old.state.counts }
    {
        let room = self.journal as usize;
        if self.entries.reserve_exact(room).is_err() {
            return Err((LineFault::NoMemory, contracts));
        }
        let state = State::opening(contracts.as_slice(), self.state.counts);
        self.start = state.copied();
        self.state = state;
        self.contracts = contracts;
        self.owner = Some(owner);
        Ok(())
    }

    /// Returns why a cell of this moment can't be judged, or None if it can.
    #[inline(always)]
    fn refusal(&self, moment: u64) -> Option<LineFault>
        ensures { result ≡ line_refusal self.now moment }
    {
        if moment > LAST_MOMENT {
            Some(LineFault::TooLate)
        } else if moment < self.state.last {
            Some(LineFault::Back(self.state.last))
        } else if self.entries.len() >= self.journal as usize {
            Some(LineFault::Full)
        } else if self.state.counts.cells() >= MOST_CELLS {
            Some(LineFault::Full)
        } else {
            None
        }
    }

    /// Judges a cell of the connection by the contract with the number `value`, counted from 1, and appends it to the
    /// journal. If there is no such contract, the verdict is Refuse. Doesn't allocate.
    ///
    /// # Errors
    ///
    /// `TooLate` if the moment is above 2^62; otherwise `Back` if it is before that of the connection's last judged
    /// cell; otherwise `Full` if the journal is full or 2^62 cells were judged on the line. An error changes nothing.
    /// `NoMemory` is never returned.
    #[inline(always)]
    pub fn judge(
        &mut self,
        moment: u64,
        clp: bool,
        value: u32,
        program: Id,
    ) -> Result<Entry, LineFault>
        requires { IsHeld self.old }

        // It returns exactly the error of the line, if there is one.
        ensures refused { MatchResult result
            (λ _. line_refusal self.old moment ≡ None)
            (λ fault. line_refusal self.old moment ≡ Some fault) }
        ensures unchanged { OnErr result (self.new ≡ self.old) }

        ensures owner { self.new.owner ≡ self.old.owner }

        ensures cell { IfOk result (λ entry. named_cell_of entry
            ≡ record { moment = moment; clp = clp; value = value; program = program }) }
        ensures gained { IfOk result (λ entry. Gains self.old entry self.new) }

        // A line has at most four contracts, so 0 and any number above 4 name none.
        ensures unnamed { IfOk result (λ entry. IsNoNumber value → entry.verdict ≡ Verdict.Refuse) }

        // For any history that the line's state agrees with, the verdict is that of the history, and the new state
        // agrees with the history and the cell.
        ensures verdict { IfOk result (λ entry. (history : List NamedCell)
            → IsStateAfter self.old.contracts history self.old.state
            → entry.verdict ≡ verdict_after self.old.contracts empty_buckets history (named_cell_of entry)) }
        ensures history { IfOk result (λ entry. (history : List NamedCell)
            → IsStateAfter self.old.contracts history self.old.state
            → IsStateAfter self.new.contracts (history ++ named_cell_of entry ∷ []) self.new.state) }

        ensures counts { IfOk result
            (λ entry. self.new.state.counts ≡ counted self.old.state.counts entry.verdict) }
        ensures counts_kept { OnErr result (self.new.state.counts ≡ self.old.state.counts) }
    {
        if let Some(fault) = self.refusal(moment) {
            return Err(fault);
        }
        let entry = self
            .state
            .judge(self.contracts.as_slice(), moment, clp, value, program);
        self.entries.push_reserved(entry);
        Ok(entry)
    }

    /// Takes the journal out as a piece and begins a new one at the present state. Allocates the new one first.
    ///
    /// # Errors
    ///
    /// `NoMemory` if that allocation fails.
    pub fn cut(&mut self) -> Result<Piece, LineFault>
        requires { IsHeld self.old }
        ensures piece { IfOk result (λ piece. IsJournalOf self.old piece) }
        ensures run { IfOk result (λ piece. IsPiece piece) }
        ensures begun { OnOk result
            (self.new ≡ record self.old { start = self.old.state; entries = [] }) }
        ensures no_memory { IfErr result (λ fault. fault ≡ LineFault.NoMemory) }
        ensures unchanged { OnErr result (self.new ≡ self.old) }
        ensures owner { self.new.owner ≡ self.old.owner }
        ensures counts { self.new.state.counts ≡ self.old.state.counts }
    {
        let Some(owner) = self.owner else {
            unreachable!()
        };
        let alloc = *self.entries.allocator();
        let Ok(next) = Vec::with_capacity(alloc, self.journal as usize) else {
            return Err(LineFault::NoMemory);
        };
        let contracts = copied(&self.contracts);
        let end = self.state.copied();
        let start = mem::replace(&mut self.start, self.state.copied());
        let entries = mem::replace(&mut self.entries, next);
        Ok(Piece::new(owner, contracts, start, entries, end))
    }

    /// Returns whether the journal is full, or has `most` entries or more.
    #[inline(always)]
    pub fn is_long(&self, most: usize) -> bool
        ensures long { result ≡ is_long most self.now }
        ensures line { IsLine self.now }
    {
        self.entries.len() >= most.min(self.journal as usize)
    }

    /// Begins a new journal at the present state, in the memory of the old one, and drops the old entries. Doesn't
    /// allocate. It replaces [`Line::cut`] for callers that keep no pieces.
    pub fn drop_journal(&mut self)
        requires { IsHeld self.old }
        ensures begun { self.new ≡ record self.old { start = self.old.state; entries = [] } }
        ensures owner { self.new.owner ≡ self.old.owner }
        ensures counts { self.new.state.counts ≡ self.old.state.counts }
    {
        self.start = self.state.copied();
        self.entries.clear();
    }

    /// Takes the journal out as a piece and frees the line. Doesn't allocate.
    pub fn close(&mut self) -> Piece
        requires { IsHeld self.old }
        ensures piece { IsJournalOf self.old result }
        ensures run { IsPiece result }
        ensures freed { self.new ≡ free_line self.old.journal self.old.state.counts false }
        ensures counts { self.new.state.counts ≡ self.old.state.counts }
    {
        let alloc = *self.entries.allocator();
        let free = Line::free(alloc, self.journal, self.state.counts);
        let Line {
            owner,
            contracts,
            journal: _,
            start,
            entries,
            state,
        } = mem::replace(self, free);
        let Some(owner) = owner else { unreachable!() };
        Piece::new(owner, contracts, start, entries, state)
    }
}

/// Returns a copy of the contracts.
fn copied(contracts: &ArrayVec<Contract, 4>) -> ArrayVec<Contract, 4>
    ensures { result ≡ contracts.now }
{
    let mut copy = ArrayVec::new();
    match copy.try_extend_from_slice(contracts.as_slice()) {
        Ok(()) => copy,
        Err(_) => unreachable!(),
    }
}

//! Journals that were taken out of lines, and how they continue each other.

ghost use Rattle.std.specs.Prelude.{◌≡◌, ◌↔◌, IsOk, IfErr, OnOk};
ghost use Rattle.line_record.specs.Piece.{IsChain, BreaksAt, AreOneRun};

use crate::entry::Entry;
use crate::equality::{same_contracts, same_owner};
use crate::owner::Owner;
use crate::state::State;
use arrayvec::ArrayVec;
use leaky::Contract;
use std::marker::Model;

/// A journal that was taken out of its line: the cells of one connection that were judged from one state of the line to
/// another.
#[derive(Debug, Drop)]
pub struct Piece {
    owner: Owner,
    start: State,
    entries: Vec<Entry>,
    end: State,
    // The contracts come last. With them after the owner the compiler clears more and copies longer blocks when a
    // piece is passed on: some 110 instructions more for each cut.
    contracts: ArrayVec<Contract, 4>,
}

impl Model for Piece {
    ghost use Rattle.line_record.specs.Piece.{PieceView};
    ghost use Rattle.line_record.specs.JournalRun.{IsJournalRun};

    ghost Value = { PieceView };

    ghost view = { λ p. record {
      owner = p.owner;
      contracts = p.contracts.items;
      start = p.start;
      entries = p.entries.items;
      end = p.end;
    } };

    ghost invariant = { λ p. IsJournalRun p.contracts.items p.start p.entries.items p.end };
}

impl Piece {
    ghost use Rattle.std.specs.Prelude.{◌≡◌, ◌↔◌, IsTrue};
    ghost use Rattle.line_record.specs.JournalRun.{IsJournalRun};
    ghost use Rattle.line_record.specs.Piece.{IsPiece, GoesOnFrom};

    /// Makes the piece of these parts.
    pub(crate) fn new(
        owner: Owner,
        contracts: ArrayVec<Contract, 4>,
        start: State,
        entries: Vec<Entry>,
        end: State,
    ) -> Self
        requires { IsJournalRun contracts.items start entries.items end }
        ensures { result ≡ record {
          owner = owner;
          contracts = contracts.items;
          start = start;
          entries = entries.items;
          end = end;
        } }
    {
        Piece {
            owner,
            contracts,
            start,
            entries,
            end,
        }
    }

    /// Returns the connection of the cells.
    pub fn owner(&self) -> Owner
        ensures { result ≡ self.now.owner }
    {
        self.owner
    }

    /// Returns the contracts that judged the cells.
    pub fn contracts(&self) -> &[Contract]
        ensures { result.now ≡ self.now.contracts }
    {
        self.contracts.as_slice()
    }

    /// Returns the state before the first cell.
    pub fn start(&self) -> &State
        ensures { result.now ≡ self.now.start }
    {
        &self.start
    }

    /// Returns the cells with their verdicts, in order: a run from the start to the end.
    pub fn entries(&self) -> &[Entry]
        ensures entries { result.now ≡ self.now.entries }
        ensures run { IsPiece self.now }
    {
        self.entries.as_slice()
    }

    /// Returns the state after the last cell.
    pub fn end(&self) -> &State
        ensures { result.now ≡ self.now.end }
    {
        &self.end
    }

    /// Returns whether this piece continues the earlier one.
    fn goes_on_from(&self, earlier: &Piece) -> bool
        ensures { IsTrue result ↔ GoesOnFrom earlier.now self.now }
    {
        same_owner(self.owner, earlier.owner)
            && same_contracts(self.contracts.as_slice(), earlier.contracts.as_slice())
            && self.start.is_same(&earlier.end)
    }
}

/// Checks that the pieces, in order, are a chain: each has the owner and the contracts of the piece before it, and starts
/// in the state in which that ends. All their entries are then one run. No piece or one piece is always a chain. Doesn't
/// allocate.
///
/// # Errors
///
/// The place, from 0, of the first piece that doesn't continue the one before it.
pub fn chain(pieces: &[Piece]) -> Result<(), usize>
    ensures chain { IsOk result ↔ IsChain pieces.now }
    ensures broken { IfErr result (λ place. BreaksAt pieces.now place) }
    ensures run { OnOk result (AreOneRun pieces.now) }
{
    for place in 0..pieces.len() {
        let piece = &pieces[place];
        // Reads each piece, also the first: its invariant is that its entries are a run.
        let _ = &piece.entries;
        if place > 0 && !piece.goes_on_from(&pieces[place - 1]) {
            return Err(place);
        }
    }
    Ok(())
}

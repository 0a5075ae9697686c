//! The desk of a running card.

use crate::card::Card;
use crate::ledgers::Ledgers;
use bpf_verify::Program;
use card_core::{Ask, DeskFault, Store, load};
use gen_arena::Id;
use line_record::{Owner, Piece};
use std::marker::PhantomData;
use std::sync::Wait;
use upc_cell::Vc;

/// The desk of a card. Its owner may load and retire programs, and set up, reload, release and cut connections. It
/// can't be copied.
#[derive(Drop)]
pub struct Desk<S: Ledgers> {
    of: PhantomData<S>,
}

impl<S: Ledgers> Desk<S> {
    ghost use Rattle.std.specs.Prelude.{◌≡◌, IfOk, IfErr};
    ghost use Rattle.bpf_verify.specs.Accepted.{IsAccepted};
    ghost use Rattle.line_record.specs.Piece.{IsPiece};
    ghost use Rattle.port_card.specs.Answers.{IsOfSetup, IsOfRetirement, IsOfReload, IsOfRelease, IsOfCut};

    /// The desk of a new card. Each card has only one.
    pub(crate) fn new() -> Self {
        Desk { of: PhantomData }
    }

    /// Loads a program into a free slot, under an id that was never given before. Waits until no cell is between its
    /// look-up and its judgement. Doesn't allocate.
    ///
    /// # Errors
    ///
    /// `ProgramsFull` with the program, if no slot is free.
    pub fn load<R: Wait>(
        &mut self,
        rt: &R,
        card: &Card<S>,
        program: Program,
    ) -> Result<Id, (DeskFault, Program)>
        ensures accepted { IsAccepted program }
        ensures refused { IfErr result (λ refused. refused.0 ≡ DeskFault.ProgramsFull) }
        ensures returned { IfErr result (λ refused. refused.1 ≡ program) }
    {
        put(&mut card.store.write(rt), program)
    }

    /// Retires a program that no connection names. Waits until no cell is between its look-up and its judgement.
    /// Doesn't allocate.
    ///
    /// # Errors
    ///
    /// `NoProgram` if the id isn't live; otherwise `InUse` if some connection names it.
    pub fn retire<R: Wait>(&mut self, rt: &R, card: &Card<S>, id: Id) -> Result<Program, DeskFault>
        ensures accepted { IfOk result (λ program. IsAccepted program) }
        ensures refused { IfErr result IsOfRetirement }
    {
        let mut store = card.store.write(rt);
        card.seatings.lock(rt).retire(&mut store, id)
    }

    /// Sets up a connection on a free line. No clause says which one.
    ///
    /// # Errors
    ///
    /// The first that applies, with `ask`: `NoProgram` if the program isn't live; `Taken` if the connection is set up
    /// already; `BadContracts` if there is no contract; `NoLine` if every line has a connection;
    /// `Exhausted` if the last incarnation was used; `Stale` if the line isn't free; `NoMemory` if an allocation
    /// fails.
    pub fn setup<R: Wait>(
        &mut self,
        rt: &R,
        card: &Card<S>,
        ask: Ask,
    ) -> Result<Owner, (DeskFault, Ask)>
        ensures owner { IfOk result (λ owner. owner.vc ≡ ask.vc) }
        ensures refused { IfErr result (λ refused. IsOfSetup refused.0) }
        ensures returned { IfErr result (λ refused. refused.1 ≡ ask) }
    {
        let store = card.store.read(rt);
        let mut guard = card.seatings.lock(rt);
        let seatings = &mut *guard;
        let number = match seatings.admit(&store, &ask) {
            Ok(number) => number,
            Err(fault) => return Err((fault, ask)),
        };
        let mut counted_line = card.counted_lines[usize::from(number)].lock(rt);
        counted_line.setup(seatings, number, ask)
    }

    /// Gives a connection another program and returns the earlier one. Its buckets and its journal are unchanged.
    /// Doesn't allocate.
    ///
    /// # Errors
    ///
    /// `NoProgram` if the program isn't live; otherwise `NoConnection` if there is no connection.
    pub fn reload<R: Wait>(
        &mut self,
        rt: &R,
        card: &Card<S>,
        vc: Vc,
        program: Id,
    ) -> Result<Id, DeskFault>
        ensures { IfErr result IsOfReload }
    {
        let store = card.store.read(rt);
        card.seatings.lock(rt).reload(&store, vc, program)
    }

    /// Releases a connection and returns its last journal. Doesn't allocate.
    ///
    /// # Errors
    ///
    /// `NoConnection` if there is none; otherwise `Stale` if its line doesn't serve it. Nothing changes.
    pub fn release<R: Wait>(&mut self, rt: &R, card: &Card<S>, vc: Vc) -> Result<Piece, DeskFault>
        ensures piece { IfOk result (λ piece. piece.owner.vc ≡ vc) }
        ensures run { IfOk result (λ piece. IsPiece piece) }
        ensures refused { IfErr result IsOfRelease }
    {
        let mut guard = card.seatings.lock(rt);
        let seatings = &mut *guard;
        let Some(seating) = seatings.find(vc) else {
            return Err(DeskFault::NoConnection);
        };
        let mut counted_line = card.counted_lines[usize::from(seating.line)].lock(rt);
        counted_line.release(seatings, vc, &seating)
    }

    /// Returns a connection's journal and begins a new one. Allocates the new one first.
    ///
    /// # Errors
    ///
    /// `NoConnection` if there is none; otherwise `Stale` if its line doesn't serve it; otherwise
    /// `NoMemory` if an allocation fails. Nothing changes.
    pub fn cut<R: Wait>(&mut self, rt: &R, card: &Card<S>, vc: Vc) -> Result<Piece, DeskFault>
        ensures piece { IfOk result (λ piece. piece.owner.vc ≡ vc) }
        ensures run { IfOk result (λ piece. IsPiece piece) }
        ensures refused { IfErr result IsOfCut }
    {
        let seatings = card.seatings.lock(rt);
        let Some(seating) = seatings.find(vc) else {
            return Err(DeskFault::NoConnection);
        };
        card.counted_lines[usize::from(seating.line)]
            .lock(rt)
            .cut(vc, &seating)
    }
}

ghost use Rattle.std.specs.Prelude.{◌≡◌, ◌↔◌, Some, IsErr, IfOk, IfErr, OnErr};
ghost use Rattle.bpf_verify.specs.Accepted.{IsAccepted};
ghost use Rattle.gen_arena.specs.Free.{free_slots, NoneIsFree};
ghost use Rattle.gen_arena.specs.Insert.{Inserts};
ghost use Rattle.gen_arena.specs.Live.{live_value};
ghost use Rattle.gen_arena.specs.Past.{KeepsPast};

/// Loads a program into a free slot of this store, as `load` of `card_core` does. Its contract says what [`Desk::load`] does behind the
/// lock.
fn put(store: &mut Store, program: Program) -> Result<Id, (DeskFault, Program)>
    // As the locked section of `card_core`, on this store.
    ensures loaded { IfOk result (λ id. Inserts store.old store.new id program) }
    ensures live { IfOk result (λ id. live_value store.new id ≡ Some program) }
    ensures full { IsErr result ↔ (free_slots store.old ≡ 0) }
    ensures none_is_free { OnErr result (NoneIsFree store.old) }
    ensures unchanged { OnErr result (store.new ≡ store.old) }
    ensures past { KeepsPast store.old store.new }

    ensures accepted { IsAccepted program }
    ensures refused { IfErr result (λ refused. refused.0 ≡ DeskFault.ProgramsFull) }
    ensures returned { IfErr result (λ refused. refused.1 ≡ program) }
{
    load(store, program)
}

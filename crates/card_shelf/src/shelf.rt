//! The shelf: cards that share nothing.

ghost use Rattle.std.specs.Prelude.{◌≡◌, ℕ};

use crate::arrival::{Arrival, Decision};
use crate::card::Card;
use crate::dealing::card_of;
use crate::fault::{NoRoom, ProgramFault, ShelfFault};
use crate::gate::{Gate, NoWait};
use crate::loading::load_all;
use crate::retiring::retire_all;
use crate::room::Room;
use crate::running::{police_all, step_on};
use crate::sums::totals_of;
use bpf_verify::Program;
use card_core::{Ask, CardFault, Core, Reply, Shape, Step, Totals};
use gen_arena::Id;
use std::alloc::{AllocError, Global};
use std::marker::Model;
use std::thread::Threads;
use upc_cell::Vc;

/// The largest number of cards of a shelf.
pub const MOST_CARDS: usize = 64;

/// Cards of one shape that share nothing. Each connection has its card, by its path and channel.
#[derive(Drop)]
pub struct Shelf {
    shape: Shape,
    cards: Vec<Card>,
}

impl Model for Shelf {
    ghost use Rattle.card_shelf.specs.Shelf.{ShelfView};
    ghost use Rattle.card_shelf.specs.inner.Cards.{cores_of, IsShelf};

    ghost Value = { ShelfView };

    ghost view = { λ s. record { shape = s.shape; cards = cores_of s.cards.items } };

    ghost invariant = { λ s. IsShelf s.cards.items };
}

impl Shelf {
    ghost use Rattle.std.specs.Prelude.{◌≡◌, ◌⊎◌, ◌<◌, ◌≤◌, ◌↔◌, ℕ, length, None, Some, Err, IsOk, IsSome, IfOk, IfErr, IfSome, IfNone, OnOk, OnErr, MatchResult, slice_get};
    ghost use Rattle.card_core.specs.Agreement.{CoreAgrees};
    ghost use Rattle.card_core.specs.World.{opening_world};
    ghost use Rattle.card_shelf.specs.Dealing.{card_of};
    ghost use Rattle.card_shelf.specs.Shelf.{shelf_fault, ChangesCard, TakesStep};
    ghost use Rattle.card_shelf.specs.inner.Rest.{IsOfDesk};
    ghost use Rattle.card_shelf.specs.Own.{PolicesBatch};
    ghost use Rattle.card_shelf.specs.OneCard.{DecidesAsOneCard};
    ghost use Rattle.card_shelf.specs.Room.{IsNoRoom};
    ghost use Rattle.card_shelf.specs.Programs.{LoadsEach, IsLoadRefusal, RetiresEach, IsRetireRefusal};
    ghost use Rattle.card_shelf.specs.Sums.{totals_of_cards};

    /// A shelf of this number of cards, each of this shape and without programs and connections.
    ///
    /// # Errors
    ///
    /// `Cards`, if the number of cards is 0 or more than 64. Else the first number of the shape that is out of its limits.
    /// Else `NoMemory`, if an allocation fails.
    pub fn new(alloc: Global, shape: Shape, cards: usize) -> Result<Shelf, ShelfFault>
        ensures shape { IfOk result (λ shelf. shelf.shape ≡ shape) }
        ensures cards { IfOk result (λ shelf. length shelf.cards ≡ cards) }
        ensures agrees { IfOk result (λ shelf. (number : ℕ) (card : _) → slice_get shelf.cards number ≡ Some card
            → CoreAgrees card (opening_world shape)) }
        ensures refused { MatchResult result
            (λ _. shelf_fault shape cards ≡ None)
            (λ fault. (shelf_fault shape cards ≡ Some fault)
            ⊎ ((shelf_fault shape cards ≡ None) × (fault ≡ ShelfFault.Card CardFault.NoMemory))) }
    {
        if cards == 0 || cards > MOST_CARDS {
            return Err(ShelfFault::Cards);
        }
        if let Some(fault) = shape.fault() {
            return Err(ShelfFault::Card(fault));
        }
        let Some(cards) = new_cards(alloc, shape, cards) else {
            return Err(ShelfFault::Card(CardFault::NoMemory));
        };
        Ok(Shelf { shape, cards })
    }

    /// The shape of each card.
    pub fn shape(&self) -> Shape
        ensures { result ≡ self.now.shape }
    {
        self.shape
    }

    /// The number of cards, 1 to 64.
    pub fn cards(&self) -> usize
        ensures { result ≡ length self.now.cards }
    {
        self.cards.len()
    }

    /// For each verdict the sum of what the lines of all cards have counted since the shelf was made.
    pub fn totals(&self) -> Totals
        ensures { result ≡ totals_of_cards self.now.cards }
    {
        totals_of(&self.cards)
    }

    /// The number, from 0, of the card that serves a virtual connection.
    pub fn card_of(&self, vc: Vc) -> usize
        ensures card { result ≡ card_of vc (length self.now.cards) }
        ensures within { result < length self.now.cards }
    {
        card_of(vc, self.cards.len())
    }

    /// Sets up a connection on its card: the step `Setup`, with its reply.
    pub fn setup(&mut self, ask: Ask) -> Reply
        ensures taken { ChangesCard self.old.cards (card_of ask.vc (length self.old.cards))
            (TakesStep (Step.Setup ask) result) self.new.cards }
        ensures shape { self.new.shape ≡ self.old.shape }
    {
        let number = self.card_of(ask.vc);
        self.take(number, Step::Setup(ask))
    }

    /// Gives a connection another program of its card: the step `Reload`, with its reply.
    pub fn reload(&mut self, vc: Vc, program: Id) -> Reply
        ensures taken { ChangesCard self.old.cards (card_of vc (length self.old.cards))
            (TakesStep (Step.Reload vc program) result) self.new.cards }
        ensures shape { self.new.shape ≡ self.old.shape }
    {
        let number = self.card_of(vc);
        self.take(number, Step::Reload { vc, program })
    }

    /// Ends a connection on its card: the step `Release`, with its reply.
    pub fn release(&mut self, vc: Vc) -> Reply
        ensures taken { ChangesCard self.old.cards (card_of vc (length self.old.cards))
            (TakesStep (Step.Release vc) result) self.new.cards }
        ensures shape { self.new.shape ≡ self.old.shape }
    {
        let number = self.card_of(vc);
        self.take(number, Step::Release(vc))
    }

    /// Hands out a connection's journal on its card: the step `Cut`, with its reply.
    pub fn cut(&mut self, vc: Vc) -> Reply
        ensures taken { ChangesCard self.old.cards (card_of vc (length self.old.cards))
            (TakesStep (Step.Cut vc) result) self.new.cards }
        ensures shape { self.new.shape ≡ self.old.shape }
    {
        let number = self.card_of(vc);
        self.take(number, Step::Cut(vc))
    }

    /// Loads a program on every card: each takes the step `Load` with this code. The ids are in the order of the cards, and
    /// the list of them names the program. If the call fails, no card has changed. All memory is allocated before a card
    /// changes.
    ///
    /// # Errors
    ///
    /// With the program, and nothing has changed: `Card` with the first card that has a reason to refuse it, and the reason.
    /// Else `NoMemory`, if an allocation fails.
    pub fn load(
        &mut self,
        alloc: Global,
        program: Program,
    ) -> Result<Vec<Id>, (ProgramFault, Program)>
        ensures loaded { IfOk result (λ ids. LoadsEach self.old.cards program ids.items self.new.cards) }
        ensures refused { IfErr result (λ refused. IsLoadRefusal self.old.cards refused.0) }
        ensures returned { IfErr result (λ refused. refused.1 ≡ program) }
        ensures unchanged { OnErr result (self.new ≡ self.old) }
        ensures shape { self.new.shape ≡ self.old.shape }
    {
        load_all(alloc, self.cards.as_mut_slice(), program)
    }

    /// Retires a program from every card: each takes the step `Retire` of the id at its place. If the call fails, no card
    /// has changed.
    ///
    /// # Errors
    ///
    /// Nothing has changed: `Ids`, if the list does not have one id for each card. Else `Card` with the first card that has a
    /// reason to keep the program of its id, and the reason.
    pub fn retire(&mut self, ids: &[Id]) -> Result<(), ProgramFault>
        ensures retired { OnOk result (RetiresEach self.old.cards ids.now self.new.cards) }
        ensures refused { IfErr result (λ fault. IsRetireRefusal self.old.cards ids.now fault) }
        ensures unchanged { OnErr result (self.new ≡ self.old) }
        ensures shape { self.new.shape ≡ self.old.shape }
    {
        retire_all(self.cards.as_mut_slice(), ids)
    }

    /// Loads a program on one card: the step `Load`, with its reply. The id in the reply belongs to that card alone, and only
    /// connections of that card can name it.
    ///
    /// # Errors
    ///
    /// The program, with nothing changed, exactly if there is no such card.
    pub fn load_on(&mut self, number: usize, program: Program) -> Result<Reply, Program>
        ensures which { IsOk result ↔ (number < length self.old.cards) }
        ensures taken { IfOk result (λ reply. ChangesCard self.old.cards number
            (TakesStep (Step.Load program) reply) self.new.cards) }
        ensures returned { IfErr result (λ returned. returned ≡ program) }
        ensures unchanged { OnErr result (self.new ≡ self.old) }
        ensures shape { self.new.shape ≡ self.old.shape }
    {
        if number >= self.cards() {
            return Err(program);
        }
        Ok(self.take(number, Step::Load(program)))
    }

    /// Retires a program from one card: the step `Retire`, with its reply. None, with nothing changed, exactly if there is
    /// no such card.
    pub fn retire_on(&mut self, number: usize, id: Id) -> Option<Reply>
        ensures which { IsSome result ↔ (number < length self.old.cards) }
        ensures taken { IfSome result (λ reply. ChangesCard self.old.cards number
            (TakesStep (Step.Retire id) reply) self.new.cards) }
        ensures unchanged { IfNone result (self.new ≡ self.old) }
        ensures shape { self.new.shape ≡ self.old.shape }
    {
        if number >= self.cards() {
            return None;
        }
        Some(self.take(number, Step::Retire(id)))
    }

    /// A card takes a step of the desk.
    fn take(&mut self, number: usize, step: Step) -> Reply
        requires within { number < length self.old.cards }
        requires desk { IsOfDesk step }
        ensures taken { ChangesCard self.old.cards number (TakesStep step result) self.new.cards }
        ensures shape { self.new.shape ≡ self.old.shape }
    {
        step_on(self.cards.as_mut_slice(), number, step)
    }

    /// Polices arrivals, and returns the answer to each, in their order. The answers, and the cards afterwards, are those of
    /// policing the arrivals one after another, each on its card. An arrival that is not judged changes nothing. Each card
    /// polices its own arrivals, on at most this number of threads (one if the number is 0). The cards share nothing.
    ///
    /// # Errors
    ///
    /// An allocation failed, and nothing has changed.
    pub fn police<R: Threads + Sync>(
        &mut self,
        rt: &R,
        alloc: Global,
        arrivals: &[Arrival],
        threads: usize,
    ) -> Result<Vec<Decision>, AllocError>
        ensures batch { IfOk result (λ decisions.
            PolicesBatch self.old.shape.side self.old.cards arrivals.now decisions.items self.new.cards) }
        ensures as_one { IfOk result (λ decisions.
            DecidesAsOneCard self.old.shape self.old.cards arrivals.now decisions.items self.new.cards) }
        ensures shape { self.new.shape ≡ self.old.shape }
        ensures unchanged { OnErr result (self.new ≡ self.old) }
    {
        self.police_at(rt, alloc, arrivals, threads, &NoWait)
    }

    /// Polices arrivals as [`Shelf::police`] does, with a gate before the arrivals of each card.
    ///
    /// # Errors
    ///
    /// An allocation failed, and nothing has changed.
    pub fn police_at<R: Threads + Sync, G: Gate + Sync>(
        &mut self,
        rt: &R,
        alloc: Global,
        arrivals: &[Arrival],
        threads: usize,
        gate: &G,
    ) -> Result<Vec<Decision>, AllocError>
        ensures batch { IfOk result (λ decisions.
            PolicesBatch self.old.shape.side self.old.cards arrivals.now decisions.items self.new.cards) }
        ensures as_one { IfOk result (λ decisions.
            DecidesAsOneCard self.old.shape self.old.cards arrivals.now decisions.items self.new.cards) }
        ensures shape { self.new.shape ≡ self.old.shape }
        ensures unchanged { OnErr result (self.new ≡ self.old) }
    {
        let side = self.shape.side;
        let cards = self.cards.as_mut_slice();
        police_all(rt, alloc, side, cards, arrivals, threads, gate)
    }

    /// Polices arrivals as [`Shelf::police`] does, in room that the caller lends. The answers are in the room afterwards, in
    /// place of those to the last batch. Nothing is allocated. It is proved that the call fails only if the batch or the
    /// shelf is too large for the room. That it allocates nothing was checked by reading. The stacks of the threads are the
    /// system's.
    ///
    /// # Errors
    ///
    /// Nothing has changed: `Arrivals`, if the room is for fewer arrivals. Then `Cards`, if it is for fewer cards.
    pub fn police_in<R: Threads + Sync>(
        &mut self,
        rt: &R,
        room: &mut Room,
        arrivals: &[Arrival],
        threads: usize,
    ) -> Result<(), NoRoom>
        ensures fits { IsOk result ↔ ((length arrivals.now ≤ room.old.most) × (length self.old.cards ≤ room.old.cards)) }
        ensures refused { IfErr result (IsNoRoom room.old (length arrivals.now) (length self.old.cards)) }
        ensures batch { OnOk result
            (PolicesBatch self.old.shape.side self.old.cards arrivals.now room.new.decisions self.new.cards) }
        ensures as_one { OnOk result
            (DecidesAsOneCard self.old.shape self.old.cards arrivals.now room.new.decisions self.new.cards) }
        ensures shape { self.new.shape ≡ self.old.shape }
        ensures most { room.new.most ≡ room.old.most }
        ensures cards { room.new.cards ≡ room.old.cards }
        ensures unchanged { OnErr result ((self.new ≡ self.old) × (room.new ≡ room.old)) }
    {
        self.police_in_at(rt, room, arrivals, threads, &NoWait)
    }

    /// Polices arrivals in a room as [`Shelf::police_in`] does, with a gate before the arrivals of each card.
    ///
    /// # Errors
    ///
    /// Nothing has changed: `Arrivals`, if the room is for fewer arrivals. Then `Cards`, if it is for fewer cards.
    pub fn police_in_at<R: Threads + Sync, G: Gate + Sync>(
        &mut self,
        rt: &R,
        room: &mut Room,
        arrivals: &[Arrival],
        threads: usize,
        gate: &G,
    ) -> Result<(), NoRoom>
        ensures fits { IsOk result ↔ ((length arrivals.now ≤ room.old.most) × (length self.old.cards ≤ room.old.cards)) }
        ensures refused { IfErr result (IsNoRoom room.old (length arrivals.now) (length self.old.cards)) }
        ensures batch { OnOk result
            (PolicesBatch self.old.shape.side self.old.cards arrivals.now room.new.decisions self.new.cards) }
        ensures as_one { OnOk result
            (DecidesAsOneCard self.old.shape self.old.cards arrivals.now room.new.decisions self.new.cards) }
        ensures shape { self.new.shape ≡ self.old.shape }
        ensures most { room.new.most ≡ room.old.most }
        ensures cards { room.new.cards ≡ room.old.cards }
        ensures unchanged { OnErr result ((self.new ≡ self.old) × (room.new ≡ room.old)) }
    {
        if arrivals.len() > room.most() {
            return Err(NoRoom::Arrivals);
        }
        if self.cards() > room.cards() {
            return Err(NoRoom::Cards);
        }
        let side = self.shape().side;
        room.police(rt, side, self.cards.as_mut_slice(), arrivals, threads, gate);
        Ok(())
    }
}

ghost use Rattle.std.specs.Prelude.{Some, IfSome, length, slice_get};
ghost use Rattle.card_core.specs.Agreement.{CoreAgrees};
ghost use Rattle.card_core.specs.Shapes.{IsShape};
ghost use Rattle.card_core.specs.World.{opening_world};
ghost use Rattle.card_shelf.specs.inner.Cards.{cores_of, AreAtRest};

/// This number of cards of this shape.
fn new_cards(alloc: Global, shape: Shape, many: usize) -> Option<Vec<Card>>
    requires { IsShape shape }
    ensures many { IfSome result (λ cards. length cards.items ≡ many) }
    ensures agrees { IfSome result (λ cards. (number : ℕ) (core : _) → slice_get (cores_of cards.items) number ≡ Some core
        → CoreAgrees core (opening_world shape)) }
    ensures rest { IfSome result (λ cards. AreAtRest (cores_of cards.items)) }
{
    let Ok(mut cards) = Vec::with_capacity(alloc, many) else {
        return None;
    };
    for _ in 0..many {
        let Ok(core) = Core::new(alloc, shape) else {
            return None;
        };
        cards.push_reserved(Card {
            core,
            decisions: Vec::new(alloc),
        });
    }
    Some(cards)
}

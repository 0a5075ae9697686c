//! Room that a caller lends to a shelf for one batch after another.

ghost use Rattle.std.specs.Prelude.{◌≡◌};

use crate::arrival::{Arrival, Decision};
use crate::batch::{Batch, empty_decision_lists};
use crate::card::Card;
use crate::gate::Gate;
use crate::running::police_lent;
use std::alloc::{AllocError, Global};
use std::marker::Model;
use std::thread::Threads;
use upc_cell::Side;

/// Room for batches of arrivals on a shelf. It is made once, and lent for one batch after another. It keeps the answers to
/// the last batch.
#[derive(Drop)]
pub struct Room {
    most: usize,
    /// For each card the list that its answers go to first.
    decision_lists: Vec<Vec<Decision>>,
    batch: Batch,
}

impl Model for Room {
    ghost use Rattle.std.specs.Prelude.{length};
    ghost use Rattle.card_shelf.specs.Room.{RoomView};
    ghost use Rattle.card_shelf.specs.inner.Rooms.{IsRoom};

    ghost Value = { RoomView };

    ghost view = { λ r. record { cards = length r.decision_lists.items; most = r.most; decisions = r.batch.decisions.items } };

    ghost invariant = { λ r. IsRoom r.most r.decision_lists.items r.batch };
}

impl Room {
    ghost use Rattle.std.specs.Prelude.{◌≡◌, ◌<◌, ◌≤◌, [], IfOk, length};
    ghost use Rattle.card_shelf.specs.Own.{PolicesBatch};
    ghost use Rattle.card_shelf.specs.inner.Cards.{cores_of, AreAtRest};

    /// Room for batches of at most `most` arrivals, on a shelf of at most `cards` cards. For each card it takes memory for
    /// `most` places and `most` answers, since all arrivals of a batch may be of one card.
    ///
    /// # Errors
    ///
    /// An allocation failed.
    pub fn new(alloc: Global, cards: usize, most: usize) -> Result<Room, AllocError>
        ensures cards { IfOk result (λ room. room.cards ≡ cards) }
        ensures most { IfOk result (λ room. room.most ≡ most) }
        ensures decisions { IfOk result (λ room. room.decisions ≡ []) }
    {
        let decision_lists = empty_decision_lists(alloc, cards, most)?;
        let batch = Batch::new(alloc, cards, most)?;
        Ok(Room {
            most,
            decision_lists,
            batch,
        })
    }

    /// The largest number of arrivals of a batch.
    pub fn most(&self) -> usize
        ensures { result ≡ self.now.most }
    {
        self.most
    }

    /// The largest number of cards of a shelf.
    pub fn cards(&self) -> usize
        ensures { result ≡ self.now.cards }
    {
        self.decision_lists.len()
    }

    /// The answers to the last batch, in the order of its arrivals. There are none before the first batch.
    pub fn decisions(&self) -> &[Decision]
        ensures { result.now ≡ self.now.decisions }
    {
        self.batch.decisions.as_slice()
    }

    /// The cards police these arrivals in this room.
    pub(crate) fn police<R: Threads + Sync, G: Gate + Sync>(
        &mut self,
        rt: &R,
        side: Side,
        cards: &mut [Card],
        arrivals: &[Arrival],
        threads: usize,
        gate: &G,
    )
        requires some { 0 < length cards.old }
        requires limit { length cards.old ≤ 64 }
        requires cards { length cards.old ≤ self.old.cards }
        requires arrivals { length arrivals.now ≤ self.old.most }
        requires rest { AreAtRest (cores_of cards.old) }
        ensures batch { PolicesBatch side (cores_of cards.old) arrivals.now self.new.decisions (cores_of cards.new) }
        ensures rest { AreAtRest (cores_of cards.new) }
        ensures cards { self.new.cards ≡ self.old.cards }
        ensures most { self.new.most ≡ self.old.most }
    {
        police_lent(
            rt,
            side,
            cards,
            self.decision_lists.as_mut_slice(),
            &mut self.batch,
            arrivals,
            threads,
            gate,
        );
    }
}

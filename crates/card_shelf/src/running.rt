//! The cards police their own arrivals, each by itself.

ghost use Rattle.std.specs.Prelude.{◌≡◌, ◌<◌, ◌≤◌, ℕ, All, IfOk, IsOk, OnOk, OnErr, Some, length, slice_get, vec_capacity};
ghost use Rattle.card_shelf.specs.Own.{ServesAll, PolicesBatch};
ghost use Rattle.card_shelf.specs.inner.Cards.{cores_of, AreAtRest, IsReady};
ghost use Rattle.card_shelf.specs.inner.Places.{picked};
ghost use Rattle.card_shelf.specs.inner.Rest.{IsAtRest, IsOfDesk};
ghost use Rattle.card_shelf.specs.inner.Rooms.{AreShort, ListsHaveRoom, CardsRoom, BatchHasRoom, IsRoom};
ghost use Rattle.card_shelf.specs.Shelf.{ChangesCard, TakesStep};

use crate::arrival::{Arrival, Decision};
use crate::batch::Batch;
use crate::card::Card;
use crate::dealing::deal;
use crate::gate::Gate;
use crate::gathering::gather;
use card_core::{Reply, Step};
use std::alloc::{AllocError, Global};
use std::thread::Threads;
use std::{mem, thread};
use upc_cell::Side;

/// The cards police these arrivals, each its own, on at most this number of threads. All memory is allocated before
/// any card moves.
pub(crate) fn police_all<R: Threads + Sync, G: Gate + Sync>(
    rt: &R,
    alloc: Global,
    side: Side,
    cards: &mut [Card],
    arrivals: &[Arrival],
    threads: usize,
    gate: &G,
) -> Result<Vec<Decision>, AllocError>
    requires some { 0 < length cards.old }
    requires limit { length cards.old ≤ 64 }
    requires rest { AreAtRest (cores_of cards.old) }
    ensures batch { IfOk result (λ decisions.
        PolicesBatch side (cores_of cards.old) arrivals.now decisions.items (cores_of cards.new)) }
    ensures unchanged { OnErr result (cores_of cards.new ≡ cores_of cards.old) }
    ensures rest { AreAtRest (cores_of cards.new) }
{
    let mut batch = Batch::new(alloc, cards.len(), 0)?;
    police_batch(rt, side, cards, &mut batch, arrivals, threads, gate)?;
    Ok(batch.decisions)
}

/// The same in room that is lent: the lists of the batch, and for each card a list of answers.
pub(crate) fn police_lent<R: Threads + Sync, G: Gate + Sync>(
    rt: &R,
    side: Side,
    cards: &mut [Card],
    decision_lists: &mut [Vec<Decision>],
    batch: &mut Batch,
    arrivals: &[Arrival],
    threads: usize,
    gate: &G,
)
    requires some { 0 < length cards.old }
    requires limit { length cards.old ≤ 64 }
    requires sized { length cards.old ≤ length decision_lists.old }
    requires room { (most : ℕ) × IsRoom most decision_lists.old batch.old × (length arrivals.now ≤ most) }
    requires rest { AreAtRest (cores_of cards.old) }
    ensures batch { PolicesBatch side (cores_of cards.old) arrivals.now batch.new.decisions.items (cores_of cards.new) }
    ensures rest { AreAtRest (cores_of cards.new) }
    ensures room { (most : ℕ) → IsRoom most decision_lists.old batch.old → IsRoom most decision_lists.new batch.new }
{
    swap_lists(cards, decision_lists);
    let done = police_batch(rt, side, cards, batch, arrivals, threads, gate);
    swap_lists(cards, decision_lists);
    match done {
        Ok(()) => {}
        Err(_) => unreachable!(),
    }
}

/// The same in the lists of this batch. They grow if they have too little room, before any card moves.
fn police_batch<R: Threads + Sync, G: Gate + Sync>(
    rt: &R,
    side: Side,
    cards: &mut [Card],
    batch: &mut Batch,
    arrivals: &[Arrival],
    threads: usize,
    gate: &G,
) -> Result<(), AllocError>
    requires some { 0 < length cards.old }
    requires limit { length cards.old ≤ 64 }
    requires sized { length cards.old ≤ length batch.old.dealt.items }
    requires rest { AreAtRest (cores_of cards.old) }
    ensures batch { OnOk result
        (PolicesBatch side (cores_of cards.old) arrivals.now batch.new.decisions.items (cores_of cards.new)) }
    ensures unchanged { OnErr result (cores_of cards.new ≡ cores_of cards.old) }
    ensures rest { AreAtRest (cores_of cards.new) }
    ensures succeeds { (count : ℕ) → BatchHasRoom count (length arrivals.now) batch.old
        → CardsRoom (length arrivals.now) cards.old → IsOk result }
    ensures room { (count most : ℕ) → BatchHasRoom count most batch.old → BatchHasRoom count most batch.new }
    ensures cards_room { (most : ℕ) → CardsRoom most cards.old → CardsRoom most cards.new }
{
    deal(
        side,
        cards.len(),
        arrivals,
        batch.dealt.as_mut_slice(),
        &mut batch.numbers,
    )?;
    batch.decisions.clear();
    batch.decisions.reserve(arrivals.len())?;
    make_room(cards, batch.dealt.as_slice())?;
    police_each(rt, cards, arrivals, batch.dealt.as_slice(), threads, gate);
    gather(
        cards,
        side,
        arrivals,
        batch.numbers.as_slice(),
        &mut batch.decisions,
    );
    Ok(())
}

/// Swaps the lists of answers of the cards with the first of these lists.
fn swap_lists(cards: &mut [Card], decision_lists: &mut [Vec<Decision>])
    requires { length cards.old ≤ length decision_lists.old }
    ensures cores { cores_of cards.new ≡ cores_of cards.old }
    ensures lent { (most : ℕ) → ListsHaveRoom 0 most decision_lists.old → CardsRoom most cards.new }
    ensures later { (most : ℕ) → ListsHaveRoom (length cards.old) most decision_lists.old → ListsHaveRoom (length cards.old) most decision_lists.new }
    ensures back { (most : ℕ) → CardsRoom most cards.old → ListsHaveRoom (length cards.old) most decision_lists.old
        → ListsHaveRoom 0 most decision_lists.new }
{
    for number in 0..cards.len() {
        mem::swap(&mut cards[number].decisions, &mut decision_lists[number]);
    }
}

/// Makes room in each card for the answers to as many arrivals as it has places.
fn make_room(cards: &mut [Card], dealt: &[Vec<usize>]) -> Result<(), AllocError>
    requires { length cards.old ≤ length dealt.now }
    ensures cores { cores_of cards.new ≡ cores_of cards.old }
    ensures ready { OnOk result ((number : ℕ) (card : _) (places : _) → slice_get cards.new number ≡ Some card
        → slice_get dealt.now number ≡ Some places → IsReady card (length places.items)) }
    ensures kept { (most : ℕ) → CardsRoom most cards.old → CardsRoom most cards.new }
    ensures succeeds { (most : ℕ) → CardsRoom most cards.old → AreShort most dealt.now → IsOk result }
{
    for number in 0..cards.len() {
        cards[number].make_room(dealt[number].len())?;
    }
    Ok(())
}

/// Each card polices the arrivals at its places, on at most this number of threads, after it has passed the gate.
fn police_each<R: Threads + Sync, G: Gate + Sync>(
    rt: &R,
    cards: &mut [Card],
    arrivals: &[Arrival],
    dealt: &[Vec<usize>],
    threads: usize,
    gate: &G,
)
    requires sized { length cards.old ≤ length dealt.now }
    requires within { (number : ℕ) (places : _) → slice_get dealt.now number ≡ Some places
        → All (λ place. place < length arrivals.now) places.items }
    requires ready { (number : ℕ) (card : _) (places : _) → slice_get cards.old number ≡ Some card
        → slice_get dealt.now number ≡ Some places → IsReady card (length places.items) }
    requires rest { (number : ℕ) (card : _) → slice_get cards.old number ≡ Some card → IsAtRest card.core }
    ensures served { (number : ℕ) (card next : _) (places : _) → slice_get cards.old number ≡ Some card
        → slice_get cards.new number ≡ Some next → slice_get dealt.now number ≡ Some places
        → ServesAll card.core (picked arrivals.now places.items) next.decisions.items next.core }
    ensures rest { (number : ℕ) (card : _) → slice_get cards.new number ≡ Some card → IsAtRest card.core }
    ensures capacity { (number : ℕ) (card next : _) → slice_get cards.old number ≡ Some card
        → slice_get cards.new number ≡ Some next → vec_capacity next.decisions ≡ vec_capacity card.decisions }
{
    thread::for_each_mut(
        rt,
        cards,
        threads.max(1),
        &|number, card|
            requires { (number < length dealt.now)
                × ((places : _) → slice_get dealt.now number ≡ Some places
                → All (λ place. place < length arrivals.now) places.items × IsReady card.now (length places.items))
                × IsAtRest card.now.core }
        { card.police(gate, arrivals, dealt[number].as_slice()) },
    );
}

/// One of the cards takes a step of the desk.
pub(crate) fn step_on(cards: &mut [Card], number: usize, step: Step) -> Reply
    requires within { number < length cards.old }
    requires desk { IsOfDesk step }
    requires rest { AreAtRest (cores_of cards.old) }
    ensures taken { ChangesCard (cores_of cards.old) number (TakesStep step result) (cores_of cards.new) }
    ensures rest { AreAtRest (cores_of cards.new) }
{
    let card = &mut cards[number];
    card.core.step(step)
}

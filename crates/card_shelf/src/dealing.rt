//! Which card serves a connection, and which arrivals each card gets.

ghost use Rattle.std.specs.Prelude.{◌≡◌, ◌<◌, ◌≤◌, ℕ, [], All, Some, IsOk, OnOk, length, map, slice_get, vec_capacity};
ghost use Rattle.card_shelf.specs.Dealing.{card_of, card_for};
ghost use Rattle.card_shelf.specs.Own.{own_arrivals};
ghost use Rattle.card_shelf.specs.inner.Places.{picked};
ghost use Rattle.card_shelf.specs.inner.Rooms.{HaveRoom, AreShort};

use crate::arrival::Arrival;
use std::alloc::AllocError;
use upc_cell::{Side, Vc};

/// The number of the card, from 0, that serves a virtual connection, among this number of cards.
pub(crate) fn card_of(vc: Vc, cards: usize) -> usize
    requires { 0 < cards }
    ensures card { result ≡ card_of vc cards }
    ensures within { result < cards }
{
    (usize::from(vc.vpi) * 65536 + usize::from(vc.vci)) % cards
}

/// Writes down the number of the card of each arrival, and for each card the places of its arrivals, in their order.
pub(crate) fn deal(
    side: Side,
    cards: usize,
    arrivals: &[Arrival],
    dealt: &mut [Vec<usize>],
    numbers: &mut Vec<u8>,
) -> Result<(), AllocError>
    requires some { 0 < cards }
    requires limit { cards ≤ 64 }
    requires sized { cards ≤ length dealt.old }
    ensures numbers { OnOk result (numbers.new.items ≡ map (card_for side cards) arrivals.now) }
    ensures own { OnOk result ((number : ℕ) (places : _) → slice_get dealt.new number ≡ Some places
        → picked arrivals.now places.items ≡ own_arrivals side cards number arrivals.now) }
    ensures within { OnOk result ((number : ℕ) (places : _) → slice_get dealt.new number ≡ Some places
        → All (λ place. place < length arrivals.now) places.items) }
    ensures short { OnOk result (AreShort (length arrivals.now) dealt.new) }
    ensures kept { (most : ℕ) → HaveRoom most dealt.old → HaveRoom most dealt.new }
    ensures grown { vec_capacity numbers.old ≤ vec_capacity numbers.new }
    ensures succeeds { HaveRoom (length arrivals.now) dealt.old → length arrivals.now ≤ vec_capacity numbers.old
        → IsOk result }
{
    clear_all(dealt);
    numbers.clear();
    numbers.reserve(arrivals.len())?;
    for place in 0..arrivals.len() {
        let number = card_of(arrivals[place].cell.vc_at(side), cards);
        dealt[number].push(place)?;
        numbers.push_reserved(number as u8);
    }
    Ok(())
}

/// Empties each of these lists, which keep their room.
fn clear_all(lists: &mut [Vec<usize>])
    ensures empty { (number : ℕ) (places : _) → slice_get lists.new number ≡ Some places → places.items ≡ [] }
    ensures kept { (most : ℕ) → HaveRoom most lists.old → HaveRoom most lists.new }
{
    for number in 0..lists.len() {
        lists[number].clear();
    }
}

//! The answers of the cards, in the order of all arrivals.

ghost use Rattle.std.specs.Prelude.{◌≡◌, ◌<◌, ◌≤◌, [], length, map, vec_capacity};
ghost use Rattle.card_shelf.specs.Dealing.{card_for};
ghost use Rattle.card_shelf.specs.inner.Cards.{decisions_of};
ghost use Rattle.card_shelf.specs.inner.Gathered.{HasOwnDecisions, HaveOneEach};

use crate::arrival::{Arrival, Decision};
use crate::card::Card;
use upc_cell::Side;

/// Adds the answers to these arrivals to `decisions`, each from its card, in the order of the arrivals. `numbers` has the number
/// of the card of each arrival, and `decisions` has room for all answers, so that nothing is allocated after cards have moved.
pub(crate) fn gather(
    cards: &[Card],
    side: Side,
    arrivals: &[Arrival],
    numbers: &[u8],
    decisions: &mut Vec<Decision>,
)
    requires some { 0 < length cards.now }
    requires limit { length cards.now ≤ 64 }
    requires numbers { numbers.now ≡ map (card_for side (length cards.now)) arrivals.now }
    requires each { HaveOneEach side (length cards.now) arrivals.now (decisions_of cards.now) }
    requires empty { decisions.old.items ≡ [] }
    requires room { length arrivals.now ≤ vec_capacity decisions.old }
    ensures own { HasOwnDecisions side (length cards.now) arrivals.now decisions.new.items (decisions_of cards.now) }
    ensures one_each { length decisions.new.items ≡ length arrivals.now }
    ensures capacity { vec_capacity decisions.new ≡ vec_capacity decisions.old }
{
    let mut next = [0usize; 64];
    for number in numbers {
        let card = usize::from(*number);
        let place = next[card];
        decisions.push_reserved(cards[card].decisions[place]);
        next[card] = place + 1;
    }
}

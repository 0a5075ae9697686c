//! The sums of the counts of a shelf's cards.

ghost use Rattle.std.specs.Prelude.{◌≡◌, ◌≤◌, length};
ghost use Rattle.card_shelf.specs.Sums.{totals_of_cards};
ghost use Rattle.card_shelf.specs.inner.Cards.{cores_of};

use crate::card::Card;
use card_core::Totals;

/// The sums over these cards.
pub(crate) fn totals_of(cards: &[Card]) -> Totals
    requires { length cards.now ≤ 64 }
    ensures { result ≡ totals_of_cards (cores_of cards.now) }
{
    let mut passed = 0u128;
    let mut tagged = 0u128;
    let mut discarded = 0u128;
    let mut refused = 0u128;
    for card in cards {
        let totals = card.core.totals();
        passed += totals.passed;
        tagged += totals.tagged;
        discarded += totals.discarded;
        refused += totals.refused;
    }
    Totals {
        passed,
        tagged,
        discarded,
        refused,
    }
}

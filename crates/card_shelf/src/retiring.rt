//! Retires a program from every card, or from none.

ghost use Rattle.std.specs.Prelude.{◌≡◌, ℕ, Some, None, IfOk, IfErr, OnErr, IfSome, IfNone, OnOk, length, slice_get};
ghost use Rattle.card_core.specs.Inspection.{IsRetireFault};
ghost use Rattle.card_shelf.specs.Programs.{RetiresOn, RetiresEach, IsFirstRetireFault, IsRetireRefusal};
ghost use Rattle.card_shelf.specs.inner.Retiring.{EachMayRetire};
ghost use Rattle.card_shelf.specs.inner.Cards.{cores_of, AreAtRest};

use crate::card::Card;
use crate::fault::ProgramFault;
use card_core::DeskFault;
use gen_arena::Id;

/// Retires a program from every card, or from none: on each card the program of the id at its place. It asks all cards
/// first.
pub(crate) fn retire_all(cards: &mut [Card], ids: &[Id]) -> Result<(), ProgramFault>
    requires rest { AreAtRest (cores_of cards.old) }
    ensures retired { OnOk result (RetiresEach (cores_of cards.old) ids.now (cores_of cards.new)) }
    ensures refused { IfErr result (λ fault. IsRetireRefusal (cores_of cards.old) ids.now fault) }
    ensures unchanged { OnErr result (cores_of cards.new ≡ cores_of cards.old) }
    ensures rest { AreAtRest (cores_of cards.new) }
{
    if ids.len() != cards.len() {
        return Err(ProgramFault::Ids);
    }
    if let Some((number, fault)) = retire_fault(cards, ids) {
        return Err(ProgramFault::Card(number, fault));
    }
    retire_each(cards, ids);
    Ok(())
}

/// The first card that has a reason to keep the program of the id at its place, and its reason.
fn retire_fault(cards: &[Card], ids: &[Id]) -> Option<(usize, DeskFault)>
    requires { length ids.now ≡ length cards.now }
    ensures some { IfSome result (λ first. IsFirstRetireFault (cores_of cards.now) ids.now first.0 first.1) }
    ensures none { IfNone result (EachMayRetire (cores_of cards.now) ids.now) }
{
    for first in 0..cards.len() {
        if let Some(fault) = cards[first].core.retire_fault(ids[first]) {
            return Some((first, fault));
        }
    }
    None
}

/// Retires from every card the program of the id at its place.
fn retire_each(cards: &mut [Card], ids: &[Id])
    requires one_each { length ids.now ≡ length cards.old }
    requires free { (number : ℕ) (card : _) (id : _) → slice_get cards.old number ≡ Some card
        → slice_get ids.now number ≡ Some id → IsRetireFault card.core id None }
    ensures retired { (number : ℕ) (card next : _) (id : _) → slice_get cards.old number ≡ Some card
        → slice_get cards.new number ≡ Some next → slice_get ids.now number ≡ Some id
        → RetiresOn id card.core next.core }
{
    for number in 0..cards.len() {
        cards[number].retire(ids[number]);
    }
}

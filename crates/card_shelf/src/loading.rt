//! Loads a program on every card, or on none.

ghost use Rattle.std.specs.Prelude.{◌≡◌, ◌≤◌, ℕ, [], All, Some, None, IfOk, IfErr, OnErr, IfSome, IfNone, length, slice_get, vec_capacity};
ghost use Rattle.card_core.specs.Inspection.{load_fault_of};
ghost use Rattle.card_shelf.specs.Programs.{LoadsOn, LoadsEach, EachHasRoom, IsFirstLoadFault, IsLoadRefusal};
ghost use Rattle.card_shelf.specs.inner.Cards.{cores_of, AreAtRest};

use crate::card::Card;
use crate::copying::copies_of;
use crate::fault::ProgramFault;
use bpf_verify::Program;
use card_core::DeskFault;
use gen_arena::Id;
use std::alloc::Global;

/// Loads a program on every card, or on none. It asks all cards first, and allocates all memory before a card changes.
pub(crate) fn load_all(
    alloc: Global,
    cards: &mut [Card],
    program: Program,
) -> Result<Vec<Id>, (ProgramFault, Program)>
    requires rest { AreAtRest (cores_of cards.old) }
    ensures loaded { IfOk result (λ ids. LoadsEach (cores_of cards.old) program ids.items (cores_of cards.new)) }
    ensures refused { IfErr result (λ refused. IsLoadRefusal (cores_of cards.old) refused.0) }
    ensures returned { IfErr result (λ refused. refused.1 ≡ program) }
    ensures unchanged { OnErr result (cores_of cards.new ≡ cores_of cards.old) }
    ensures rest { AreAtRest (cores_of cards.new) }
{
    if let Some((number, fault)) = load_fault(cards) {
        return Err((ProgramFault::Card(number, fault), program));
    }
    let Some(copies) = copies_of(alloc, &program, cards.len()) else {
        return Err((ProgramFault::NoMemory, program));
    };
    let Ok(ids) = Vec::with_capacity(alloc, cards.len()) else {
        return Err((ProgramFault::NoMemory, program));
    };
    Ok(load_each(cards, copies, ids, &program))
}

/// The first card that has a reason to refuse a program, and its reason.
fn load_fault(cards: &[Card]) -> Option<(usize, DeskFault)>
    ensures some { IfSome result (λ first. IsFirstLoadFault (cores_of cards.now) first.0 first.1) }
    ensures none { IfNone result (EachHasRoom (cores_of cards.now)) }
{
    for first in 0..cards.len() {
        if let Some(fault) = cards[first].core.load_fault() {
            return Some((first, fault));
        }
    }
    None
}

/// Loads one of the copies on every card. The ids are in the order of the cards; `ids` has room for them.
fn load_each(
    cards: &mut [Card],
    mut copies: Vec<Program>,
    mut ids: Vec<Id>,
    code: &Program,
) -> Vec<Id>
    requires many { length copies.items ≡ length cards.old }
    requires same { All (λ copy. copy ≡ code.now) copies.items }
    requires empty { ids.items ≡ [] }
    requires room { length cards.old ≤ vec_capacity ids }
    requires free { (number : ℕ) (card : _) → slice_get cards.old number ≡ Some card → load_fault_of card.core ≡ None }
    ensures one_each { length result.items ≡ length cards.old }
    ensures loaded { (number : ℕ) (card next : _) (id : _) → slice_get cards.old number ≡ Some card
        → slice_get cards.new number ≡ Some next → slice_get result.items number ≡ Some id
        → LoadsOn code.now id card.core next.core }
{
    for number in 0..cards.len() {
        let Some(copy) = copies.pop() else {
            unreachable!()
        };
        ids.push_reserved(cards[number].load(copy));
    }
    ids
}

//! The core of a card that C has, taken out for a call and put back.

ghost use Rattle.std.specs.Fn.{FnOnceReturnsAtMut};
ghost use Rattle.std.specs.Prelude.{◌≡◌, None, Some, IfNone, IfSome, IfOk, IfErr, OnErr};
ghost use Rattle.upc_c.specs.CardHandle.{IsShapeIn, card_in, card_missing};
ghost use Rattle.upc_c.specs.inner.Numbered.{IsNumbered};
ghost use Rattle.upc_c.specs.inner.ReachedCore.{IsReachedCore};
ghost use Rattle.upc_c.specs.inner.WithCore.{IsCalledOn, KeepsReached};

use crate::card::UpcCard;
use crate::fault::{ForC, card_missing};
use crate::hidden::{Hidden, HiddenCard};
use card_core::{Core, Shape};
use std::alloc::Global;
use std::mem::replace;

/// Takes the core out, if there is a card. The card then has none.
pub(crate) fn take_core(alloc: Global, card: &mut UpcCard) -> Option<Box<Core>>
    ensures core { IfSome result (λ core. card_in card.old ≡ Some core.value) }
    ensures reached { IfSome result (λ core. IsReachedCore core.value) }
    ensures gone { IfSome result (λ _. card_in card.new ≡ None) }
    ensures none { IfNone result (card_in card.old ≡ None) }
    ensures left { IfNone result (card.new ≡ card.old) }
{
    if card.live == 0 {
        return None;
    }
    let old = replace(
        card,
        UpcCard {
            live: 0,
            inner: HiddenCard::of(Hidden::none(alloc)),
        },
    );
    let UpcCard { live: _, inner } = old;
    Some(inner.into_hidden().into_box())
}

/// Puts the core back.
pub(crate) fn put_core(card: &mut UpcCard, core: Box<Core>)
    requires { IsReachedCore core.value }
    ensures { card_in card.new ≡ Some core.value }
{
    *card = UpcCard {
        live: 1,
        inner: HiddenCard::of(Hidden::of(core)),
    };
}

/// Calls a function with the core of the card taken out, and puts the core back. Returns what the function returns, or
/// the error that there is no card.
pub(crate) fn with_core<R, F: FnOnce(&mut Core) -> R>(
    alloc: Global,
    card: &mut UpcCard,
    call: F,
) -> ForC<R>
    requires callable { F.IsAlwaysCallable call }
    requires reached { KeepsReached (λ old answer new. FnOnceReturnsAtMut F.FnOnce call old answer new) }
    ensures called { IfOk result (λ answer.
        IsCalledOn card.old card.new (λ old new. FnOnceReturnsAtMut F.FnOnce call old answer new)) }
    ensures none { IfErr result (λ _. card_in card.old ≡ None) }
    ensures fault { IfErr result (λ fault. fault ≡ card_missing) }
    ensures left { OnErr result (card_in card.new ≡ card_in card.old) }
    ensures numbered { IfErr result IsNumbered }
{
    let Some(mut core) = take_core(alloc, card) else {
        return Err(card_missing());
    };
    let answer = call(&mut core);
    put_core(card, core);
    Ok(answer)
}

/// Returns the shape of the card, or the error that there is no card.
pub(crate) fn shape_on(alloc: Global, card: &mut UpcCard) -> ForC<Shape>
    ensures shape { IfOk result (IsShapeIn card.old) }
    ensures none { IfErr result (λ _. card_in card.old ≡ None) }
    ensures fault { IfErr result (λ fault. fault ≡ card_missing) }
    ensures kept { card_in card.new ≡ card_in card.old }
    ensures numbered { IfErr result IsNumbered }
{
    with_core(alloc, card, |core| core.shape())
}

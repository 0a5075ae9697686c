//! Cards that C makes and frees.

ghost use Rattle.std.specs.Prelude.{◌≡◌, ◌≢◌, Some, None, IfOk, IfErr};
ghost use Rattle.card_core.specs.Agreement.{CoreView};
ghost use Rattle.upc_c.specs.CardHandle.{card_in, card_there};
ghost use Rattle.upc_c.specs.CardMaking.{IsEmptyCard, IsNoCard, card_fault_for_c};
ghost use Rattle.upc_c.specs.Faults.{AnswersCall};
ghost use Rattle.upc_c.specs.inner.ReachedCore.{IsReachedCore};
ghost use Rattle.upc_c.specs.inner.Numbered.{IsNumbered};

use crate::card::UpcCard;
use crate::fault::{
    OF_A_SHAPE, OF_THE_CALL, UpcFault, fault_at, out_of_memory, report, report_success,
};
use crate::shape::{UpcShape, shape_of};
use crate::stepping::{put_core, take_core};
use card_core::{CardFault, Core};
use std::alloc::Global;

/// Returns the error for C of a card that can't be made.
fn card_fault_for_c(found: CardFault) -> UpcFault
    ensures fault { result ≡ card_fault_for_c found }
    ensures numbered { IsNumbered result }
{
    match found {
        CardFault::Programs => fault_at(OF_A_SHAPE, 1, 0),
        CardFault::Lines => fault_at(OF_A_SHAPE, 2, 0),
        CardFault::Ports => fault_at(OF_A_SHAPE, 3, 0),
        CardFault::Journal => fault_at(OF_A_SHAPE, 4, 0),
        CardFault::NoMemory => out_of_memory(),
    }
}

/// Makes the core of an empty card with these numbers, in a box.
fn empty_core(alloc: Global, given: &UpcShape) -> Result<Box<Core>, UpcFault>
    ensures empty { IfOk result (λ core. IsEmptyCard given.now core.value) }
    ensures reached { IfOk result (λ core. IsReachedCore core.value) }
    ensures fault { IfErr result (IsNoCard given.now) }
    ensures numbered { IfErr result IsNumbered }
{
    let shape = shape_of(given)?;
    match Core::new(alloc, shape) {
        Ok(core) => match Box::new(alloc, core) {
            Ok(boxed) => Ok(boxed),
            Err(_) => Err(out_of_memory()),
        },
        Err(found) => Err(card_fault_for_c(found)),
    }
}

/// Makes an empty card, if there is none. Returns the result of the error, or 0.
#[unsafe(no_mangle)]
pub extern "C" fn upc_card_new(
    alloc: Global,
    shape: &UpcShape,
    card: &mut UpcCard,
    fault: &mut UpcFault,
) -> u32
    ensures answers { AnswersCall result fault.new }
    ensures made { result ≡ 0 → (card_in card.old ≡ None)
        × ((core : CoreView) × IsEmptyCard shape.now core × (card_in card.new ≡ Some core)) }
    ensures there { card_in card.old ≢ None → fault.new ≡ card_there }
    ensures refused { result ≢ 0 → card_in card.old ≡ None → IsNoCard shape.now fault.new }
    ensures left { result ≢ 0 → card.new ≡ card.old }
{
    if card.live != 0 {
        return report(fault, fault_at(OF_THE_CALL, 8, 0));
    }
    match empty_core(alloc, shape) {
        Ok(core) => {
            put_core(card, core);
            report_success(fault)
        }
        Err(found) => report(fault, found),
    }
}

/// Frees the card, with its programs and connections. Without a card it does nothing.
#[unsafe(no_mangle)]
pub extern "C" fn upc_card_free(alloc: Global, card: &mut UpcCard)
    ensures { card_in card.new ≡ None }
{
    drop(take_core(alloc, card));
}

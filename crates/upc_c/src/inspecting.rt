//! Reads of a card, without a step.

ghost use Rattle.std.specs.Prelude.{◌≡◌, ◌≢◌, None};
ghost use Rattle.upc_c.specs.CardHandle.{card_in, card_missing};
ghost use Rattle.upc_c.specs.CardInspection.{HasCounted, HasInJournal, HasShape, IsLookUpFault};
ghost use Rattle.upc_c.specs.Faults.{AnswersCall};

use crate::card::UpcCard;
use crate::counts::{UpcCounts, counts_for_c};
use crate::fault::{UpcFault, report, report_success};
use crate::shape::{UpcShape, shape_for_c};
use crate::state::state_on;
use crate::stepping::shape_on;
use std::alloc::Global;

/// Writes the size of the card. Returns the result of the error, or 0.
#[unsafe(no_mangle)]
pub extern "C" fn upc_card_shape(
    alloc: Global,
    card: &mut UpcCard,
    shape: &mut UpcShape,
    fault: &mut UpcFault,
) -> u32
    ensures answers { AnswersCall result fault.new }
    ensures shape { result ≡ 0 → HasShape card.old shape.new }
    ensures refused { result ≢ 0 → (card_in card.old ≡ None) × (fault.new ≡ card_missing) }
    ensures kept { card_in card.new ≡ card_in card.old }
    ensures left { result ≢ 0 → shape.new ≡ shape.old }
{
    match shape_on(alloc, card) {
        Ok(found) => {
            *shape = shape_for_c(found);
            report_success(fault)
        }
        Err(found) => report(fault, found),
    }
}

/// Writes the number of cells in the journal of the connection on this path and channel. A cut or a release writes as
/// many entries. Returns the result of the error, or 0.
#[unsafe(no_mangle)]
pub extern "C" fn upc_card_journal(
    alloc: Global,
    card: &mut UpcCard,
    path: u16,
    channel: u16,
    cells: &mut usize,
    fault: &mut UpcFault,
) -> u32
    ensures answers { AnswersCall result fault.new }
    ensures cells { result ≡ 0 → HasInJournal card.old path channel cells.new }
    ensures refused { result ≢ 0 → IsLookUpFault card.old path channel fault.new }
    ensures kept { card_in card.new ≡ card_in card.old }
    ensures left { result ≢ 0 → cells.new ≡ cells.old }
{
    match state_on(alloc, card, path, channel) {
        Ok(state) => {
            *cells = state.entries;
            report_success(fault)
        }
        Err(found) => report(fault, found),
    }
}

/// Writes the counts of the line that serves the connection on this path and channel. Returns the result of the error,
/// or 0.
#[unsafe(no_mangle)]
pub extern "C" fn upc_card_counts(
    alloc: Global,
    card: &mut UpcCard,
    path: u16,
    channel: u16,
    counts: &mut UpcCounts,
    fault: &mut UpcFault,
) -> u32
    ensures answers { AnswersCall result fault.new }
    ensures counts { result ≡ 0 → HasCounted card.old path channel counts.new }
    ensures refused { result ≢ 0 → IsLookUpFault card.old path channel fault.new }
    ensures kept { card_in card.new ≡ card_in card.old }
    ensures left { result ≢ 0 → counts.new ≡ counts.old }
{
    match state_on(alloc, card, path, channel) {
        Ok(state) => {
            *counts = counts_for_c(state.state.counts);
            report_success(fault)
        }
        Err(found) => report(fault, found),
    }
}

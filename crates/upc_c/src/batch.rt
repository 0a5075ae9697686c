//! Several cells that arrive at a card in one call.

ghost use Rattle.std.specs.Prelude.{◌≡◌, ◌≢◌, ◌⊎◌, ◌<◌, ◌≤◌, ◌+◌, ◌*◌, length, min, IfOk, IfErr, OnErr, OnOk};
ghost use Rattle.upc_c.specs.CardBatch.{ArePoliced, IsBatchFault, IsNextRefused, cell_in};
ghost use Rattle.upc_c.specs.CardHandle.{card_missing};
ghost use Rattle.upc_c.specs.CellHeader.{IsCellFault};
ghost use Rattle.upc_c.specs.Faults.{AnswersCall, out_of_memory};
ghost use Rattle.upc_c.specs.inner.CellsOnCore.{PolicesFirst, PolicesNumber, RefusesNext, RefusesOn};
ghost use Rattle.upc_c.specs.inner.ReachedCore.{IsReachedCore};
ghost use Rattle.upc_c.specs.inner.Numbered.{IsNumbered};

use crate::arrival::{UpcAnswer, fault_without_card, police};
use crate::card::UpcCard;
use crate::fault::{ForC, OF_THE_CALL, UpcFault, fault_at, report, report_success};
use crate::stepping::{put_core, take_core};
use card_core::Core;
use std::alloc::Global;
use upc_cell::CELL_OCTETS;

/// Returns where the cell with this number begins and ends in a buffer of `length` octets in which a cell begins every
/// `stride` octets. A cell that goes beyond the end of the buffer ends there.
#[inline(always)]
fn bounds_of(number: usize, stride: usize, length: usize) -> (usize, usize)
    ensures start { result.0 ≡ min (number * stride) length }
    ensures end { result.1 ≡ min (number * stride + 52) length }
    ensures ordered { result.0 ≤ result.1 }
    ensures within { result.1 ≤ length }
{
    let start = match number.checked_mul(stride) {
        Some(place) => place.min(length),
        None => length,
    };
    if length - start < CELL_OCTETS {
        return (start, length);
    }
    (start, start + CELL_OCTETS)
}

/// Judges the cell with this number in the buffer on the core.
#[inline(always)]
fn police_number(
    core: &mut Core,
    octets: &mut [u8],
    stride: usize,
    number: usize,
    moment: u64,
) -> ForC<UpcAnswer>
    requires { IsReachedCore core.old }
    ensures policed { IfOk result (PolicesNumber core.old core.new octets.old octets.new stride number moment) }
    ensures refused { IfErr result (RefusesOn core.old (cell_in octets.old stride number) moment) }
    ensures reached { IsReachedCore core.new }
    ensures left { OnErr result (core.new ≡ core.old) }
    ensures octets_left { OnErr result (octets.new ≡ octets.old) }
    ensures memory { IfErr result (λ fault. fault ≢ out_of_memory) }
    ensures numbered { IfErr result IsNumbered }
{
    let (start, end) = bounds_of(number, stride, octets.len());
    police(core, &mut octets[start..end], moment)
}

/// Judges the cells in the buffer in order on the core, up to the first that the core refuses. Writes the number of judged
/// cells to `done`.
fn police_each(
    core: &mut Core,
    octets: &mut [u8],
    stride: usize,
    moments: &[u64],
    answers: &mut [UpcAnswer],
    done: &mut usize,
) -> ForC<()>
    requires reached { IsReachedCore core.old }
    requires fits { length moments.now ≤ length answers.old }
    ensures policed { PolicesFirst core.old core.new octets.old octets.new stride moments.now
        answers.old answers.new done.new }
    ensures all { OnOk result (done.new ≡ length moments.now) }
    ensures refused { IfErr result (RefusesNext core.new octets.new stride moments.now done.new) }
    ensures reached { IsReachedCore core.new }
    ensures memory { IfErr result (λ fault. fault ≢ out_of_memory) }
    ensures numbered { IfErr result IsNumbered }
{
    for (number, moment) in moments.iter().enumerate() {
        match police_number(core, octets, stride, number, *moment) {
            Ok(answer) => answers[number] = answer,
            Err(found) => {
                *done = number;
                return Err(found);
            }
        }
    }
    *done = moments.len();
    Ok(())
}

/// Returns the error of the first cell in the buffer if there is no card.
fn first_without_card(octets: &[u8], stride: usize) -> UpcFault
    ensures fault { IsCellFault (cell_in octets.now stride 0) result
        ⊎ ((length (cell_in octets.now stride 0) ≡ 52) × (result ≡ card_missing)) }
    ensures memory { result ≢ out_of_memory }
    ensures numbered { IsNumbered result }
{
    let (start, end) = bounds_of(0, stride, octets.len());
    fault_without_card(&octets[start..end])
}

/// Judges one or more cells in the buffer on the card.
fn police_on(
    alloc: Global,
    card: &mut UpcCard,
    octets: &mut [u8],
    stride: usize,
    moments: &[u64],
    answers: &mut [UpcAnswer],
    done: &mut usize,
) -> ForC<()>
    requires some { 0 < length moments.now }
    requires fits { length moments.now ≤ length answers.old }
    ensures policed { ArePoliced card.old card.new octets.old octets.new stride moments.now
        answers.old answers.new done.new }
    ensures all { OnOk result (done.new ≡ length moments.now) }
    ensures refused { IfErr result (IsNextRefused card.new octets.new stride moments.now done.new) }
    ensures memory { IfErr result (λ fault. fault ≢ out_of_memory) }
    ensures numbered { IfErr result IsNumbered }
{
    let Some(mut core) = take_core(alloc, card) else {
        *done = 0;
        return Err(first_without_card(octets, stride));
    };
    let policed = police_each(&mut core, octets, stride, moments, answers, done);
    put_core(card, core);
    policed
}

/// Judges a cell for each of the moments, one after another, as that many calls of `upc_card_arrive` do: a cell begins
/// every `stride` octets, the first at the front of the buffer, and its answer has the place of its moment. Stops at the
/// first cell that can't be judged; a cell with the verdict Refuse is judged. Writes the number of judged cells to `done`.
/// Returns the result of the error, or 0.
#[unsafe(no_mangle)]
pub extern "C" fn upc_card_arrive_many(
    alloc: Global,
    card: &mut UpcCard,
    octets: &mut [u8],
    stride: usize,
    moments: &[u64],
    answers: &mut [UpcAnswer],
    done: &mut usize,
    fault: &mut UpcFault,
) -> u32
    ensures answers { AnswersCall result fault.new }
    ensures judged { ArePoliced card.old card.new octets.old octets.new stride moments.now
        answers.old answers.new done.new }
    ensures all { result ≡ 0 → done.new ≡ length moments.now }
    ensures refused { result ≢ 0 → IsBatchFault card.new octets.new stride moments.now answers.old
        done.new fault.new }
    ensures memory { fault.new ≢ out_of_memory }
{
    if answers.len() < moments.len() {
        *done = 0;
        return report(fault, fault_at(OF_THE_CALL, 2, moments.len()));
    }
    if moments.is_empty() {
        *done = 0;
        return report_success(fault);
    }
    match police_on(alloc, card, octets, stride, moments, answers, done) {
        Ok(()) => report_success(fault),
        Err(found) => report(fault, found),
    }
}

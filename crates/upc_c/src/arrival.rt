//! Cells that arrive at a card that C has.

ghost use Rattle.std.specs.Prelude.{◌≡◌, ◌≢◌, ◌⊎◌, length, None, Some, IfOk, IfErr, OnErr};
ghost use Rattle.card_core.specs.Arrival.{AnswersArrival};
ghost use Rattle.card_core.specs.Sections.{answer_to, unjudged_answer};
ghost use Rattle.card_core.specs.Steps.{cell_after};
ghost use Rattle.card_core.specs.declared.answer.Answer.TheVariants.{NoMemory};
ghost use Rattle.upc_c.specs.CardArrival.{IsArrivalFault, IsPolicedCell, reason_of_answer};
ghost use Rattle.upc_c.specs.CardHandle.{card_in, card_missing};
ghost use Rattle.upc_c.specs.CellHeader.{IsCellFault};
ghost use Rattle.upc_c.specs.Faults.{AnswersCall, out_of_memory};
ghost use Rattle.upc_c.specs.inner.CellsOnCore.{PolicesOn, RefusesOn};
ghost use Rattle.upc_c.specs.inner.ReachedCore.{IsReachedCore};
ghost use Rattle.upc_c.specs.inner.Numbered.{IsNumbered};

use crate::card::UpcCard;
use crate::cell::cell_of;
use crate::fault::{
    ForC, OF_AN_ARRIVAL, UpcFault, card_missing, fault_at, out_of_memory, report, report_success,
};
use crate::id::{UpcId, id_for_c};
use crate::meter::number_of_verdict;
use crate::stepping::{put_core, take_core};
use card_core::{Core, Judgement, Unjudged};
use leaky::Verdict;
use line_record::LineFault;
use std::alloc::Global;
use upc_cell::Cell;

/// The answer to a judged cell.
#[repr(C)]
#[derive(Clone, Copy, Debug)]
pub struct UpcAnswer {
    /// 0 for a cell that passes, 1 for one that was tagged, 2 for one that is discarded, 3 for one that is refused,
    /// since its program named no contract.
    pub verdict: u32,
    /// The number that the program gave: that of a contract, from 1, or any other, which names none.
    pub value: u32,
    /// The number of cells with this verdict that were judged on the line, this one included.
    pub number: u64,
    /// The moment of arrival, in ticks.
    pub moment: u64,
    /// The program that gave the number.
    pub program: UpcId,
    /// The number of the line, from 0.
    pub line: u16,
}

/// Returns the error for C of a cell that isn't judged for this reason.
fn unjudged_fault_for_c(reason: Unjudged) -> UpcFault
    ensures fault { reason_of_answer (unjudged_answer reason) ≡ Some result }
    ensures numbered { IsNumbered result }
{
    match reason {
        Unjudged::NoConnection => fault_at(OF_AN_ARRIVAL, 1, 0),
        Unjudged::Released => fault_at(OF_AN_ARRIVAL, 2, 0),
        Unjudged::Stale => fault_at(OF_AN_ARRIVAL, 3, 0),
        Unjudged::LineFault(LineFault::Back(last)) => fault_at(OF_AN_ARRIVAL, 4, last as usize),
        Unjudged::LineFault(LineFault::TooLate) => fault_at(OF_AN_ARRIVAL, 5, 0),
        Unjudged::LineFault(LineFault::Full) => fault_at(OF_AN_ARRIVAL, 6, 0),
        Unjudged::LineFault(LineFault::NoMemory) => out_of_memory(),
    }
}

/// Takes all steps of a cell at port 0 of a core.
#[inline(always)]
fn arrive_at(core: &mut Core, cell: &Cell, moment: u64) -> Result<Judgement, Unjudged>
    requires { IsReachedCore core.old }
    ensures answers { AnswersArrival core.old 0 cell.now moment (answer_to cell.now result) core.new }
    ensures reached { IsReachedCore core.new }
    ensures left { OnErr result (core.new ≡ core.old) }
    ensures memory { answer_to cell.now result ≢ NoMemory }
{
    match core.arrive(0, cell, moment) {
        Some(answered) => answered,
        // Port 0 has no cell between two calls (`IsReachedCore`).
        None => unreachable!(),
    }
}

/// Writes the octets of the leaving cell.
#[inline(always)]
fn write_leaving_cell(octets: &mut [u8], cell: &Cell, verdict: Verdict)
    requires { octets.old ≡ cell.now }
    ensures { octets.new ≡ cell_after verdict cell.now }
{
    if verdict == Verdict::Tag {
        octets.copy_from_slice(cell.tagged().bytes());
    }
}

/// Judges the cell of these octets on the core. If the verdict is Tag, the octets become the tagged cell.
#[inline(always)]
pub(crate) fn police(core: &mut Core, octets: &mut [u8], moment: u64) -> ForC<UpcAnswer>
    requires { IsReachedCore core.old }
    ensures policed { IfOk result (λ answer.
        PolicesOn core.old core.new octets.old moment answer octets.new) }
    ensures refused { IfErr result (RefusesOn core.old octets.old moment) }
    ensures reached { IsReachedCore core.new }
    ensures left { OnErr result (core.new ≡ core.old) }
    ensures octets_left { OnErr result (octets.new ≡ octets.old) }
    ensures memory { IfErr result (λ fault. fault ≢ out_of_memory) }
    ensures numbered { IfErr result IsNumbered }
{
    let cell = match cell_of(octets) {
        Ok(cell) => cell,
        Err(found) => return Err(found),
    };
    let judgement = match arrive_at(core, &cell, moment) {
        Ok(judgement) => judgement,
        Err(reason) => return Err(unjudged_fault_for_c(reason)),
    };
    write_leaving_cell(octets, &cell, judgement.verdict);
    Ok(UpcAnswer {
        verdict: number_of_verdict(judgement.verdict),
        value: judgement.value,
        number: judgement.number,
        moment: judgement.moment,
        program: id_for_c(judgement.program),
        line: judgement.line,
    })
}

/// Returns the error of an arrival without a card: the octets are no cell, or there is no card.
pub(crate) fn fault_without_card(octets: &[u8]) -> UpcFault
    ensures fault { IsCellFault octets.now result ⊎ ((length octets.now ≡ 52) × (result ≡ card_missing)) }
    ensures memory { result ≢ out_of_memory }
    ensures numbered { IsNumbered result }
{
    match cell_of(octets) {
        Ok(_) => card_missing(),
        Err(found) => found,
    }
}

/// Judges the cell of 52 octets that arrived at this moment, on the connection in its header, and writes the answer. If
/// the verdict is Tag, the octets become the tagged cell. Returns the result of the error, or 0.
#[unsafe(no_mangle)]
pub extern "C" fn upc_card_arrive(
    alloc: Global,
    card: &mut UpcCard,
    octets: &mut [u8],
    moment: u64,
    answer: &mut UpcAnswer,
    fault: &mut UpcFault,
) -> u32
    ensures answers { AnswersCall result fault.new }
    ensures judged { result ≡ 0 → IsPolicedCell card.old card.new octets.old moment answer.new octets.new }
    ensures refused { result ≢ 0 → IsArrivalFault card.old card.new octets.old moment fault.new }
    ensures memory { fault.new ≢ out_of_memory }
    ensures left { result ≢ 0 → card_in card.new ≡ card_in card.old }
    ensures octets_left { result ≢ 0 → octets.new ≡ octets.old }
    ensures answer_left { result ≢ 0 → answer.new ≡ answer.old }
{
    let Some(mut core) = take_core(alloc, card) else {
        return report(fault, fault_without_card(octets));
    };
    let policed = police(&mut core, octets, moment);
    put_core(card, core);
    match policed {
        Ok(found) => {
            *answer = found;
            report_success(fault)
        }
        Err(found) => report(fault, found),
    }
}

//! The answers of ports and desk, in the script's order.

ghost use Rattle.std.specs.Prelude.{◌≡◌, OnOk};
ghost use Rattle.text_io.specs.Devices.{Adds};
ghost use Rattle.cmd_ports.specs.inner.InOrder.{AllPrint, IsTextOfAnswerer, after_answerer};
ghost use Rattle.cmd_ports.specs.inner.Rest.{unprinted};
ghost use Rattle.text_card.specs.AddsSome.{AddsSome};
ghost use Rattle.text_card.specs.Replies.{answer_text};
ghost use Rattle.upc_cell.specs.Connection.{vc_of};
ghost use Rattle.cmd_ports.specs.inner.Answered.{answer_kept, shown_cell};

use crate::answered::{AnsweredCell, judgement_of, shown_cell};
use crate::waiting_answers::Rest;
use text_card::{add_judged, add_unjudged};
use text_io::Added;
use text_script::{Answerer, Names};
use text_words::{add_bad_hex, add_bad_line, add_wrong_length};
use upc_cell::Side;

/// Adds the answer to a cell.
#[tactic(auto, using(crate::proofs::InOrderLemmas::unjudged_unnumbered))]
fn add_arrival(side: Side, names: &Names, arrival: &AnsweredCell, answers: &mut Vec<u8>) -> Added
    ensures { OnOk result (AddsSome
        (answer_text side names.now (vc_of side (shown_cell arrival.now.header)) (answer_kept (shown_cell arrival.now.header) arrival.now.decision))
        answers.old.items answers.new.items) }
{
    let cell = shown_cell(&arrival.header);
    let vc = cell.vc_at(side);
    match &arrival.decision {
        Ok(ruling) => {
            let number = names.number_of(ruling.program) as u64;
            add_judged(answers, side, number, vc, &cell, &judgement_of(ruling))
        }
        Err(reason) => add_unjudged(answers, side, vc, *reason),
    }
}

/// Adds the next answer of one answerer.
fn add_from(
    side: Side,
    answerer: Answerer,
    names: &Names,
    rest: &mut Rest<'_>,
    answers: &mut Vec<u8>,
) -> Added
    ensures text { OnOk result (Adds (IsTextOfAnswerer side names.now (unprinted rest.old) answerer)
        answers.old.items answers.new.items) }
    ensures rest { unprinted rest.new ≡ after_answerer answerer (unprinted rest.old) }
{
    match answerer {
        Answerer::Port(number) => match rest.next_cell(number) {
            Some(arrival) => add_arrival(side, names, arrival, answers),
            None => Ok(()),
        },
        Answerer::Desk => answers.extend_from_slice(rest.next_text()),
        Answerer::BadLine => add_bad_line(answers),
        Answerer::BadHex => add_bad_hex(answers),
        Answerer::WrongLength => add_wrong_length(answers, rest.next_length()),
    }
}

/// Adds all answers, in the script's order.
pub fn add_in_order(
    side: Side,
    order: &[Answerer],
    names: &Names,
    rest: Rest<'_>,
    answers: &mut Vec<u8>,
) -> Added
    ensures { OnOk result (Adds (AllPrint side names.now (unprinted rest.entry) order.now)
        answers.old.items answers.new.items) }
{
    let mut rest = rest;
    for answerer in order {
        add_from(side, *answerer, names, &mut rest, answers)?;
    }
    Ok(())
}

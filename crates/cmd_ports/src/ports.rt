//! `upc ports`: a script whose cells arrive at ports that are threads of their own.

ghost use Rattle.std.specs.Prelude.{◌≡◌, ◌≢◌, ◌<◌, ◌++◌, ℕ, List, [], All, Err, IfOk, OnErr, length};
ghost use Rattle.line_record.specs.Tally.{nothing};
ghost use Rattle.text_io.specs.Devices.{Adds};
ghost use Rattle.text_io.specs.Failures.{write_failures};
ghost use Rattle.text_io.specs.Printing.{IsFront};
ghost use Rattle.text_io.specs.Serving.{IsServed};
ghost use Rattle.port_card.specs.Closing.{seats_total};
ghost use Rattle.port_card.specs.Names.{AreFor};
ghost use Rattle.port_card.specs.Seats.{tally_of_seat};
ghost use Rattle.cmd_ports.specs.PortsText.{IsCardText, IsPortsText};
ghost use Rattle.cmd_ports.specs.inner.Script.{AnswersFirst, AnswersLater, IsScriptClosed, OfLines};

use crate::at_once::{AtOnce, run_at_once};
use crate::busy_ports::seats_of;
use crate::closing_lines::{add_closing, done_after};
use crate::in_order::add_in_order;
use crate::script::Script;
use crate::script_desk::ScriptDesk;
use crate::waiting_answers::all_unprinted;
use port_card::{Blanks, Card, Closing, Gate, Ledgers, NoWait, PortSeat};
use std::alloc::{AllocError, Global};
use std::marker::Brand;
use std::sync::Wait;
use std::thread::Threads;
use text_io::{Done, Ending, Input, Output, RunFault, answer_lines, give_last};
use text_script::{Deal, Names, add_ready, deal_lines, first_line, is_cell_line};

/// Answers the lines before the first cell line, and returns the lines from there on.
fn answer_first<'a, S: Ledgers, R: Wait>(
    rt: &R,
    card: &Card<S>,
    desk: &mut ScriptDesk<S>,
    lines: &'a [u8],
    answers: &mut Vec<u8>,
) -> Result<&'a [u8], AllocError>
    ensures { IfOk result (λ later. Adds
        (λ text. OfLines lines.now (λ each. AnswersFirst card.now.side each later.now desk.old.names desk.new.names text))
        answers.old.items answers.new.items) }
{
    let mut rest = lines;
    while let Some((line, later)) = first_line(rest) {
        if is_cell_line(line) {
            return Ok(rest);
        }
        desk.answer(rt, card, line, answers)?;
        rest = later;
    }
    Ok(rest)
}

/// Answers the lines from the first cell line on, and returns the seats. They have counted exactly the cells that the
/// answers say are judged.
fn answer_later<S: Ledgers + Send + Sync, G: Gate + Sync, R: Threads + Wait + Sync>(
    rt: &R,
    card: &Card<S>,
    seats: Vec<PortSeat<S>>,
    desk: ScriptDesk<S>,
    lines: &[u8],
    gate: &G,
    answers: &mut Vec<u8>,
) -> Result<Vec<PortSeat<S>>, AllocError>
    requires some { 0 < length seats.items }
    requires unused { All (λ seat. tally_of_seat seat ≡ nothing) seats.items }
    ensures { IfOk result (λ used. Adds
        (λ text. OfLines lines.now (λ each. AnswersLater card.now.side each desk.names text (seats_total used.items)))
        answers.old.items answers.new.items) }
{
    let alloc = desk.alloc;
    let side = card.side();
    let Deal {
        order,
        desk: desk_lines,
        arrivals,
        lengths,
    } = deal_lines(alloc, side, lines, seats.len())?;
    let AtOnce {
        ports,
        desk_texts,
        desk,
    } = run_at_once(rt, alloc, card, gate, seats, &arrivals, desk, &desk_lines)?;
    let rest = all_unprinted(alloc, &ports, &desk_texts, &lengths)?;
    add_in_order(side, &order, &desk.names, rest, answers)?;
    seats_of(alloc, ports)
}

/// A card that was opened for a script.
#[derive(Drop)]
struct Opened<S: Ledgers> {
    card: Card<S>,
    seats: Vec<PortSeat<S>>,
    desk: ScriptDesk<S>,
}

/// Opens the card that the script asks for. Nothing is loaded on it, and its seats have counted no cell.
fn open_card<S: Ledgers>(
    alloc: Global,
    script: &Script,
    blanks: Blanks,
) -> Result<Opened<S>, AllocError>
    requires names { blanks ≡ S.names }
    requires for_shape { AreFor script.now.shape S.names }
    ensures shape { IfOk result (λ opened. opened.card ≡ script.now.shape) }
    ensures one_each { IfOk result (λ opened. length opened.seats.items ≡ script.now.shape.ports) }
    ensures some { IfOk result (λ opened. 0 < length opened.seats.items) }
    ensures unused { IfOk result (λ opened. All (λ seat. tally_of_seat seat ≡ nothing) opened.seats.items) }
    ensures unnamed { IfOk result (λ opened. opened.desk.names ≡ []) }
{
    let Ok((card, seats, desk)) = Card::<S>::new(alloc, script.shape, blanks) else {
        return Err(AllocError);
    };
    let desk = ScriptDesk {
        desk,
        names: Names::new(alloc, script.shape.programs as usize)?,
        alloc,
    };
    Ok(Opened { card, seats, desk })
}

/// Answers a whole script, and closes its card. The lines of the closed card have counted exactly the cells that the
/// answers say are judged.
fn answer_script<S: Ledgers + Send + Sync, G: Gate + Sync, R: Threads + Wait + Sync>(
    rt: &R,
    alloc: Global,
    script: &Script,
    blanks: Blanks,
    gate: &G,
    answers: &mut Vec<u8>,
) -> Result<Closing, AllocError>
    requires names { blanks ≡ S.names }
    requires for_shape { AreFor script.now.shape S.names }
    ensures { IfOk result (λ closing. IsScriptClosed script.now.shape script.now.lines.items
        answers.old.items answers.new.items closing.lines.items closing.uneven) }
{
    let Opened {
        card,
        seats,
        mut desk,
    } = open_card::<S>(alloc, script, blanks)?;
    add_ready(answers)?;
    let later = answer_first(rt, &card, &mut desk, &script.lines, answers)?;
    let seats = answer_later(rt, &card, seats, desk, later, gate, answers)?;
    match card.close(alloc, seats) {
        Ok(closing) => Ok(closing),
        Err(_) => Err(AllocError),
    }
}

/// Answers a whole script as `answer_script` does, with ledgers that no other card has.
fn answer_with_own_ledgers<G: Gate + Sync, R: Threads + Wait + Sync>(
    rt: &R,
    alloc: Global,
    script: &Script,
    gate: &G,
    answers: &mut Vec<u8>,
) -> Result<Closing, AllocError>
    ensures { IfOk result (λ closing. IsScriptClosed script.now.shape script.now.lines.items
        answers.old.items answers.new.items closing.lines.items closing.uneven) }
{
    let blanks = Blanks::new(script.shape.lines, script.shape.ports);
    answer_script::<Brand, G, R>(rt, alloc, script, blanks, gate, answers)
}

/// Runs a script that was read, and writes its text. Returns how the run ended.
fn run_lines<G: Gate + Sync, R: Threads + Wait + Sync, O: Output>(
    rt: &R,
    alloc: Global,
    script: &Script,
    output: &mut O,
    gate: &G,
) -> Ending
    ensures text { IfOk result (λ done. (text : List ℕ)
        × (O.is_known → O.held output.new ≡ O.held output.old ++ text)
        × OfLines script.now.lines.items (λ lines. IsCardText script.now.shape lines text done)) }
    ensures front { O.is_known → OnErr result
        (OfLines script.now.lines.items (λ lines.
        Adds (IsFront (IsCardText script.now.shape lines)) (O.held output.old) (O.held output.new))) }
    ensures fault { result ≢ Err RunFault.ReadFailed }
    ensures writing { O.failures output.new ≡ write_failures result (O.failures output.old) }
{
    let mut answers = Vec::new(alloc);
    let Ok(closing) = answer_with_own_ledgers(rt, alloc, script, gate, &mut answers) else {
        return Err(RunFault::NoMemory);
    };
    if add_closing(&mut answers, &closing).is_err() {
        return Err(RunFault::NoMemory);
    }
    give_last(output, &mut answers, done_after(&closing))
}

/// Runs a script with a thread for each port and without a gate. See [`run_ports_with`].
pub fn run_ports<R: Threads + Wait + Sync, I: Input, O: Output>(
    rt: &R,
    alloc: Global,
    input: &mut I,
    output: &mut O,
) -> Ending
    ensures { IsServed IsPortsText I.Input input.old input.new O.Output output.old output.new result }
{
    run_ports_with(rt, alloc, input, output, &NoWait)
}

/// Runs a script with a thread for each port. Each port waits at this gate between the look-up and the judgement of
/// each cell.
///
/// The lines before the first cell line are answered one by one. From there on each port takes its cells, in the
/// script's order, while the desk answers all other lines, in the script's order too. When all have ended, the
/// answers are written in the script's order. After them come the totals of the verdicts, over all lines of the card
/// for their whole life.
///
/// # Errors
///
/// See [`RunFault`]. It is returned after every thread that was started has ended.
pub fn run_ports_with<G: Gate + Sync, R: Threads + Wait + Sync, I: Input, O: Output>(
    rt: &R,
    alloc: Global,
    input: &mut I,
    output: &mut O,
    gate: &G,
) -> Ending
    // Each line has one answer. Which of the answers that it may have is left open.
    ensures { IsServed IsPortsText I.Input input.old input.new O.Output output.old output.new result }
{
    let mut script = Script::new(alloc);
    // This reads the script: `Script` stores each line, and answers only if the script can't run.
    match answer_lines(alloc, input, output, &mut script) {
        Ok(Done::Whole) => run_lines(rt, alloc, &script, output, gate),
        Ok(Done::Ended) => Ok(Done::Ended),
        Err(fault) => Err(fault),
    }
}

//! The driver: runs a machine over the lines of an input.

ghost use Rattle.std.specs.Prelude.{◌≡◌, ◌≢◌, ℕ, ◌+◌, ◌<◌, ◌≤◌, ◌++◌, ◌||◌, List, [], true, Ok, Err, length, slice_index, nat_le, nat_lt, IfOk, OnOk, OnErr};
ghost use Rattle.text_io.specs.Answering.{OfEach};
ghost use Rattle.text_io.specs.Devices.{Adds, IsPart, TakesEnough};
ghost use Rattle.text_io.specs.Limits.{most_ahead, most_input_lines, most_line_octets};
ghost use Rattle.text_io.specs.Lines.{lines_of};
ghost use Rattle.text_io.specs.Printing.{Prints, EndsAt, IsFront};
ghost use Rattle.text_io.specs.Failures.{read_failures, write_failures};
ghost use Rattle.text_io.specs.inner.Progress.{Concludes, Passes};
ghost use Rattle.text_io.specs.declared.ending.Done.{Done as TheDone};

use crate::delivery::{give_if_enough, give_last};
use crate::device::{Input, Output};
use crate::ending::{Answered, Done, Ending, RunFault};
use crate::line_ends::{before_return, first_feed};
use crate::machine::{Machine, Turn};
use crate::refilling::refill;
use crate::window::Window;
use std::alloc::{AllocError, Global};

/// The maximum number of lines of an input.
const MOST_INPUT_LINES: u32 = 1000000;

/// The maximum number of octets of a line, with its carriage return and without its line feed.
const MOST_LINE_OCTETS: usize = 70000;

/// The room of the window, in octets. It is larger than the longest line.
const WINDOW_ROOM: usize = 131072;

/// Whether a line of this length, after `met` lines, is over the limits.
fn is_over_limits(met: u32, octets: usize) -> bool
    ensures { result ≡ (nat_le most_input_lines met || nat_lt most_line_octets octets) }
{
    met >= MOST_INPUT_LINES || octets > MOST_LINE_OCTETS
}

/// Answers a line that ended with a line feed.
fn answer_line<M: Machine>(
    machine: &mut M,
    met: u32,
    octets: &[u8],
    answers: &mut Vec<u8>,
) -> Result<Turn, AllocError>
    ensures passes { IfOk result (λ turn. Passes M.rules met (M.shows machine.old)
        (record { octets = octets.now; ended = true }) turn (M.shows machine.new) answers.old.items answers.new.items) }
    ensures within { IfOk result (λ turn. turn ≡ Turn.GoesOn → (met < most_input_lines) × (length octets.now ≤ most_line_octets)) }
{
    // A carriage return counts for the length, although it isn't part of the content.
    let counted = octets.len();
    if is_over_limits(met, counted) {
        machine.refuse(answers)?;
        return Ok(Turn::Ends);
    }
    machine.answer(before_return(octets), answers)
}

/// Answers the octets after the last line feed, if there are any, and the end of the input.
fn answer_end<M: Machine>(
    machine: &mut M,
    met: u32,
    octets: &[u8],
    answers: &mut Vec<u8>,
) -> Answered
    requires { (k : ℕ) → k < length octets.now → slice_index octets.now k ≢ 10 }
    ensures { IfOk result (λ done. (here : List ℕ) × (answers.new.items ≡ answers.old.items ++ here)
        × OfEach M.rules (M.shows machine.old)
        (λ before. Concludes M.rules met (M.shows machine.new) octets.now before here done)) }
{
    if octets.is_empty() {
        return machine.close(answers);
    }
    if is_over_limits(met, octets.len()) {
        machine.refuse(answers)?;
        return Ok(Done::Ended);
    }
    // A carriage return that no line feed follows belongs to the content of the line.
    match machine.answer(octets, answers)? {
        Turn::Ends => Ok(Done::Ended),
        Turn::GoesOn => machine.close(answers),
    }
}

/// Ends a run at a line over the limits.
fn end_too_long<O: Output, M: Machine>(output: &mut O, machine: &M, answers: &mut Vec<u8>) -> Ending
    ensures done { IfOk result (λ done. done ≡ Done.Ended) }
    ensures given { O.is_known → OnOk result
        (O.held output.new ≡ O.held output.old ++ (answers.old.items ++ M.rules.too_long)) }
    ensures front { O.is_known → OnErr result
        (IsPart (O.held output.old) (O.held output.new) (answers.old.items ++ M.rules.too_long)) }
    ensures fault { result ≢ Err RunFault.ReadFailed }
    ensures writing { O.failures output.new ≡ write_failures result (O.failures output.old) }
{
    match machine.refuse(answers) {
        Err(_) => Err(RunFault::NoMemory),
        Ok(()) => give_last(output, answers, Done::Ended),
    }
}

/// Answers the octets that wait at the end of the input, and writes the last answers.
fn finish<O: Output, M: Machine>(
    output: &mut O,
    machine: &mut M,
    met: u32,
    octets: &[u8],
    answers: &mut Vec<u8>,
) -> Ending
    requires { (k : ℕ) → k < length octets.now → slice_index octets.now k ≢ 10 }
    ensures given { IfOk result (λ done. (here : List ℕ)
        × (O.is_known → O.held output.new ≡ O.held output.old ++ (answers.old.items ++ here))
        × OfEach M.rules (M.shows machine.old)
        (λ before. Concludes M.rules met (M.shows machine.new) octets.now before here done)) }
    ensures front { O.is_known → OnErr result
        (OfEach M.rules (M.shows machine.old) (λ before. (here : List ℕ) × (done : TheDone)
        × IsPart (O.held output.old) (O.held output.new) (answers.old.items ++ here)
        × Prints M.rules met before (lines_of octets.now) here done)) }
    ensures fault { result ≢ Err RunFault.ReadFailed }
    ensures writing { O.failures output.new ≡ write_failures result (O.failures output.old) }
{
    match answer_end(machine, met, octets, answers) {
        Err(_) => Err(RunFault::NoMemory),
        Ok(done) => give_last(output, answers, done),
    }
}

/// Runs a machine over the lines of an input. Answers are collected and written in large pieces. All of them are
/// written before more input is read.
///
/// # Errors
///
/// See [`RunFault`].
pub fn answer_lines<I: Input, O: Output, M: Machine>(
    alloc: Global,
    input: &mut I,
    output: &mut O,
    machine: &mut M,
) -> Ending
    // The output is an answer to the lines of the whole input, or a prefix of one.
    ensures text { I.is_known → O.is_known → IfOk result (λ done.
        OfEach M.rules (M.shows machine.old) (λ start.
        Adds (λ text. Prints M.rules 0 start (lines_of (I.rest input.old)) text done) (O.held output.old) (O.held output.new))) }
    ensures front { I.is_known → O.is_known → OnErr result
        (OfEach M.rules (M.shows machine.old) (λ start.
        Adds (IsFront (Prints M.rules 0 start (lines_of (I.rest input.old)))) (O.held output.old) (O.held output.new))) }

    // After Whole the machine shows a world to which the lines lead, with the text that was written.
    ensures world { I.is_known → result ≡ Ok Done.Whole → OfEach M.rules (M.shows machine.old) (λ start.
        (text : List ℕ) × (last : M.World) × M.shows machine.new last
        × EndsAt M.rules 0 start (lines_of (I.rest input.old)) text last
        × (O.is_known → O.held output.new ≡ O.held output.old ++ text)) }

    // The run reads what it answers, and at most as many octets more as the window has room for.
    ensures left { I.is_known → IfOk result (λ done. OfEach M.rules (M.shows machine.old) (λ start.
        TakesEnough (λ octets. (text : List ℕ) × Prints M.rules 0 start (lines_of octets) text done) most_ahead
        (I.rest input.old) (I.rest input.new))) }
    ensures whole { I.is_known → result ≡ Ok Done.Whole → I.rest input.new ≡ [] }

    ensures reading { I.failures input.new ≡ read_failures result (I.failures input.old) }
    ensures writing { O.failures output.new ≡ write_failures result (O.failures output.old) }
{
    let Ok(mut window) = Window::<WINDOW_ROOM>::new(alloc) else {
        return Err(RunFault::NoMemory);
    };
    let mut answers = Vec::new(alloc);
    // How many lines were answered.
    let mut met: u32 = 0;
    // How many of the waiting octets were searched; none of them is a line feed.
    let mut looked = 0;
    loop {
        let waiting = window.octets();
        match first_feed(waiting, looked) {
            Some(count) => {
                match answer_line(machine, met, &waiting[..count], &mut answers) {
                    Err(_) => return Err(RunFault::NoMemory),
                    Ok(Turn::Ends) => return give_last(output, &mut answers, Done::Ended),
                    Ok(Turn::GoesOn) => {}
                }
                window.skip(count + 1);
                looked = 0;
                met += 1;
                if give_if_enough(output, &mut answers).is_err() {
                    return Err(RunFault::WriteFailed);
                }
            }
            None => {
                looked = waiting.len();
                if looked > 0 && is_over_limits(met, looked) {
                    return end_too_long(output, machine, &mut answers);
                }
                match refill(&mut window, WINDOW_ROOM, input, output, &mut answers) {
                    Err(fault) => return Err(fault),
                    Ok(0) => return finish(output, machine, met, window.octets(), &mut answers),
                    Ok(_) => {}
                }
            }
        }
    }
}

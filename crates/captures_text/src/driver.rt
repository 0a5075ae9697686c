//! The driver: runs a follower over the cells of a capture that count.

ghost use Rattle.std.specs.Prelude.{◌≡◌, ◌≢◌, ◌+◌, ◌<◌, ◌≤◌, ◌++◌, List, ℕ, [], None, Ok, Err, length, take, true, IfOk, OnErr, OnOk};
ghost use Rattle.captures.specs.Frames.{first_frame};
ghost use Rattle.captures_text.specs.CaptureText.{done_at as ends_at};
ghost use Rattle.captures_text.specs.CellFollowing.{OfEachWorld};
ghost use Rattle.captures_text.specs.inner.Ahead.{IsQueuedText};
ghost use Rattle.captures_text.specs.inner.Progress.{HasRead};
ghost use Rattle.text_io.specs.Devices.{Adds, IsPart};
ghost use Rattle.text_io.specs.Failures.{read_failures, write_failures};
ghost use Rattle.text_io.specs.Printing.{IsFront};
ghost use Rattle.text_io.specs.declared.ending.Done.{Done as TheDone};

use crate::answering::{StepOutcome, advance, leaves_cells};
use crate::follower::{CellFollower, answers_each_cell};
use crate::queue::Queue;
use crate::reading_ahead::{READING_OCTETS, ReadingAhead, WINDOW_ROOM};
use crate::two_threads::give_and_go_ahead;
use captures::Fault;
use std::alloc::Global;
use std::thread::Threads;
use text_io::{Done, Ending, Input, Output, RunFault, give_if_enough, give_last, refill};

/// Returns how a run ends when its capture ends: `Ended` at a fault, otherwise `Whole`.
pub fn done_at(ending: Option<Fault>) -> Done
    ensures { result ≡ ends_at ending }
{
    match ending {
        None => Done::Whole,
        Some(_) => Done::Ended,
    }
}

/// Answers the end of the input, and writes the last answers. If octets still wait, they are no whole frame: the capture was cut off.
fn finish<O: Output, F: CellFollower>(
    output: &mut O,
    follower: &F,
    reading: &ReadingAhead,
    answers: &mut Vec<u8>,
) -> Ending
    requires { first_frame reading.now.reader.format reading.now.reader.at reading.now.window ≡ None }
    ensures given { O.is_known → IfOk result (λ done. OfEachWorld F.rules (F.shows follower.now) (λ world. (here : List ℕ)
        × (O.held output.new ≡ O.held output.old ++ (answers.old.items ++ here))
        × IsQueuedText F.rules reading.now [] world reading.now.window here done)) }
    ensures front { O.is_known → OnErr result (OfEachWorld F.rules (F.shows follower.now) (λ world. (here : List ℕ) × (done : TheDone)
        × IsPart (O.held output.old) (O.held output.new) (answers.old.items ++ here)
        × IsQueuedText F.rules reading.now [] world reading.now.window here done)) }
    ensures text { IfOk result (λ done. OfEachWorld F.rules (F.shows follower.now) (λ world.
        (here : List ℕ) × IsQueuedText F.rules reading.now [] world reading.now.window here done)) }
    ensures fault { result ≢ Err RunFault.ReadFailed }
    ensures writing { O.failures output.new ≡ write_failures result (O.failures output.old) }
{
    let ending = reading.reader.end(reading.window.octets());
    let done = done_at(ending);
    match follower.close(&reading.filter.summary(), ending, answers) {
        Err(_) => Err(RunFault::NoMemory),
        Ok(()) => give_last(output, answers, done),
    }
}

/// Returns whether fewer octets wait than the longest frame has, so that the window has room to read ahead. A window that the last reading
/// filled has this room too, once most of its records were read.
fn has_room_to_read(reading: &ReadingAhead) -> bool
    ensures { result ≡ true → length reading.now.window < 131072 }
{
    reading.window.octets().len() < 131_072
}

/// Runs a follower over the cells of a capture that count, from here on: those of the octets that wait, and then those of the input.
pub(crate) fn follow_on<R: Threads, I: Input + Send, O: Output, F: CellFollower + Send>(
    rt: &R,
    with_two_threads: bool,
    alloc: Global,
    input: &mut I,
    output: &mut O,
    follower: &mut F,
    mut reading: ReadingAhead,
) -> Ending
    requires { length reading.window ≤ 524288 }
    ensures text { I.is_known → O.is_known → IfOk result (λ done. OfEachWorld F.rules (F.shows follower.old) (λ first.
        Adds (λ text. IsQueuedText F.rules reading [] first (reading.window ++ I.rest input.old) text done)
        (O.held output.old) (O.held output.new))) }
    ensures front { I.is_known → O.is_known → OnErr result (OfEachWorld F.rules (F.shows follower.old) (λ first.
        Adds (IsFront (IsQueuedText F.rules reading [] first (reading.window ++ I.rest input.old)))
        (O.held output.old) (O.held output.new))) }
    ensures left { I.is_known → IfOk result (λ done. OfEachWorld F.rules (F.shows follower.old) (λ first.
        HasRead (IsQueuedText F.rules reading [] first) reading.window (I.rest input.old) (I.rest input.new) done)) }
    ensures whole { I.is_known → result ≡ Ok Done.Whole → I.rest input.new ≡ [] }
    ensures read { I.failures input.new ≡ read_failures result (I.failures input.old) }
    ensures written { O.failures output.new ≡ write_failures result (O.failures output.old) }
{
    answers_each_cell(follower);
    // With two threads a reading may fill the window: the second thread is used only after one that did.
    let most = if with_two_threads {
        WINDOW_ROOM
    } else {
        READING_OCTETS
    };
    let mut queue = Queue::new(alloc);
    let mut answers = Vec::new(alloc);
    loop {
        if leaves_cells(with_two_threads, &reading, &queue) && has_room_to_read(&reading) {
            match give_and_go_ahead(
                rt,
                input,
                output,
                &mut reading,
                &mut queue,
                follower,
                &mut answers,
            ) {
                Err(fault) => return Err(fault),
                Ok(StepOutcome::Ended) => return give_last(output, &mut answers, Done::Ended),
                Ok(StepOutcome::GoesOn) => {}
                // The input has ended and no cell waits, so the next round goes on below, where `refill` finds the end again.
                Ok(StepOutcome::NeedsOctets) => {}
            }
        } else {
            match advance(
                with_two_threads,
                &mut reading,
                &mut queue,
                follower,
                &mut answers,
            ) {
                Err(_) => return Err(RunFault::NoMemory),
                Ok(StepOutcome::Ended) => return give_last(output, &mut answers, Done::Ended),
                Ok(StepOutcome::GoesOn) => {
                    if give_if_enough(output, &mut answers).is_err() {
                        return Err(RunFault::WriteFailed);
                    }
                }
                Ok(StepOutcome::NeedsOctets) => match refill(
                    &mut reading.window,
                    most,
                    input,
                    output,
                    &mut answers,
                ) {
                    Err(fault) => return Err(fault),
                    Ok(0) => return finish(output, follower, &reading, &mut answers),
                    Ok(_) => {}
                },
            }
        }
    }
}

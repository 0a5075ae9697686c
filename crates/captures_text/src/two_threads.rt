//! One step of a run on two threads: more octets are read on one, while the cells that were read before are answered on the other.

ghost use Rattle.std.specs.Prelude.{◌≡◌, ◌≢◌, ◌<◌, ◌++◌, Err, IfOk, OnErr, OnOk, [], length};
ghost use Rattle.captures_text.specs.inner.Ahead.{FillsAhead, FillsAndReads};
ghost use Rattle.captures_text.specs.inner.Answered.{AnswersCells};
ghost use Rattle.text_io.specs.Devices.{IsPart};
ghost use Rattle.text_io.specs.Failures.{read_failures, write_failures};

use crate::answering::{StepOutcome, answer_read};
use crate::captured_cell::CapturedCell;
use crate::follower::{CellFollower, answer_cells};
use crate::queue::Queue;
use crate::reading_ahead::{ReadingAhead, StopReason};
use std::alloc::AllocError;
use std::thread::{Threads, join_mut};
use text_io::{Input, Output, RunFault, Turn, give_answers};

/// Reads more octets and the frames among them on one thread, and answers cells that were read before on another. Returns why the reading
/// stopped, or None at the end of the input, and whether the run goes on after the cells that were answered.
fn read_beside<R: Threads, I: Input + Send, F: CellFollower + Send>(
    rt: &R,
    input: &mut I,
    reading: &mut ReadingAhead,
    fresh: &mut Vec<CapturedCell>,
    follower: &mut F,
    cells: &[CapturedCell],
    answers: &mut Vec<u8>,
) -> Result<(Option<StopReason>, Turn), RunFault>
    requires { length reading.old.window < 131072 }
    ensures filled { IfOk result (λ found. FillsAndReads I.is_known (I.rest input.old) (I.rest input.new)
        reading.old found.0 reading.new fresh.old.items fresh.new.items) }
    ensures answered { IfOk result (λ found. AnswersCells F.rules (F.shows follower.old) cells.now found.1 (F.shows follower.new)
        answers.old.items answers.new.items) }
    ensures fault { result ≢ Err RunFault.WriteFailed }
    ensures reading { I.failures input.new ≡ read_failures result (I.failures input.old) }
{
    let (filled, answered) = join_mut(
        rt,
        &mut || -> Result<Option<StopReason>, RunFault>
            requires { length reading.now.window < 131072 }
            ensures filled { IfOk result (λ stop. FillsAndReads I.is_known (I.rest input.entry.now) (I.rest input.exit.now)
                reading.entry.now stop reading.exit.now fresh.entry.now.items fresh.exit.now.items) }
            ensures fault { result ≢ Err RunFault.WriteFailed }
            ensures reading { I.failures input.exit.now ≡ read_failures result (I.failures input.entry.now) }
        { reading.fill_and_read::<I>(input, fresh) },
        &mut || -> Result<Turn, AllocError>
            ensures { IfOk result (λ turn. AnswersCells F.rules (F.shows follower.entry.now) cells.entry.now turn (F.shows follower.exit.now)
                answers.entry.now.items answers.exit.now.items) }
        { answer_cells(follower, cells, answers) },
    );
    let stop = filled?;
    match answered {
        Ok(turn) => Ok((stop, turn)),
        Err(_) => Err(RunFault::NoMemory),
    }
}

/// Reads more octets and their records while the cells that were read before are answered. Returns `NeedsOctets` at the end
/// of the input: no cell waits then.
fn go_ahead<R: Threads, I: Input + Send, F: CellFollower + Send>(
    rt: &R,
    input: &mut I,
    reading: &mut ReadingAhead,
    queue: &mut Queue,
    follower: &mut F,
    answers: &mut Vec<u8>,
) -> Result<StepOutcome, RunFault>
    requires short { length reading.old.window < 131072 }
    requires spare { queue.old.spare.items ≡ [] }
    ensures spare { OnOk result (queue.new.spare.items ≡ []) }
    ensures ahead { IfOk result (λ outcome. FillsAhead F.rules (F.shows follower.old) (F.shows follower.new) I.is_known (I.rest input.old) (I.rest input.new)
        reading.old queue.old.cells.items outcome reading.new queue.new.cells.items answers.old.items answers.new.items) }
    ensures fault { result ≢ Err RunFault.WriteFailed }
    ensures reading { I.failures input.new ≡ read_failures result (I.failures input.old) }
{
    let (stop, turn) = read_beside(
        rt,
        input,
        reading,
        &mut queue.spare,
        follower,
        &queue.cells,
        answers,
    )?;
    queue.take_next_cells();
    match turn {
        Turn::Ends => return Ok(StepOutcome::Ended),
        Turn::GoesOn => {}
    }
    let Some(stop) = stop else {
        return Ok(StepOutcome::NeedsOctets);
    };
    match stop {
        StopReason::NeedsOctets => Ok(StepOutcome::GoesOn),
        StopReason::Enough => Ok(StepOutcome::GoesOn),
        StopReason::SecondLink(_, _) | StopReason::Broken(_) => {
            match answer_read(follower, reading, stop, &mut queue.cells, answers) {
                Ok(_) => Ok(StepOutcome::Ended),
                Err(_) => Err(RunFault::NoMemory),
            }
        }
    }
}

/// Writes the collected answers, and then reads ahead while the cells that were read before are answered.
pub(crate) fn give_and_go_ahead<R: Threads, I: Input + Send, O: Output, F: CellFollower + Send>(
    rt: &R,
    input: &mut I,
    output: &mut O,
    reading: &mut ReadingAhead,
    queue: &mut Queue,
    follower: &mut F,
    answers: &mut Vec<u8>,
) -> Result<StepOutcome, RunFault>
    requires short { length reading.old.window < 131072 }
    requires spare { queue.old.spare.items ≡ [] }
    ensures spare { OnOk result (queue.new.spare.items ≡ []) }
    ensures given { O.is_known → OnOk result (O.held output.new ≡ O.held output.old ++ answers.old.items) }
    ensures front { O.is_known → OnErr result (IsPart (O.held output.old) (O.held output.new) answers.old.items) }
    ensures ahead { IfOk result (λ outcome. FillsAhead F.rules (F.shows follower.old) (F.shows follower.new) I.is_known (I.rest input.old) (I.rest input.new)
        reading.old queue.old.cells.items outcome reading.new queue.new.cells.items [] answers.new.items) }
    ensures reading { I.failures input.new ≡ read_failures result (I.failures input.old) }
    ensures writing { O.failures output.new ≡ write_failures result (O.failures output.old) }
{
    if give_answers(output, answers).is_err() {
        return Err(RunFault::WriteFailed);
    }
    go_ahead(rt, input, reading, queue, follower, answers)
}

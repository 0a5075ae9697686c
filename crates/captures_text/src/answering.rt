//! One step of a run: waiting octets are read, and their cells are answered. With two threads, these cells may wait for the second one.

ghost use Rattle.std.specs.Prelude.{◌≡◌, ◌≢◌, IfOk, OnOk, Some, [], true};
ghost use Rattle.captures_text.specs.CellFilter.{filter_state};
ghost use Rattle.captures_text.specs.CellFollowing.{ClosesCells, OfEachWorld};
ghost use Rattle.captures_text.specs.inner.Answered.{AnswersCells};
ghost use Rattle.captures_text.specs.inner.Ahead.{Advances, AdvancesToEnd, CameSoFar, EndsAfter, GoesBy, ReadsCells};

use crate::captured_cell::CapturedCell;
use crate::follower::{CellFollower, answer_cells};
use crate::queue::Queue;
use crate::reading_ahead::{ReadingAhead, StopReason};
use crate::run_lines::add_several;
use captures::Fault;
use std::alloc::AllocError;
use text_io::Turn;

/// On one thread cells are answered after this number of them is read: those stay in the cache that is nearest to the processor.
const FEW: usize = 256;

/// How a run goes on after a step.
#[derive(Clone, Copy)]
pub(crate) enum StepOutcome {
    /// The run goes on: there may be whole frames among the octets that wait.
    GoesOn,
    /// More octets have to be read first.
    NeedsOctets,
    /// The run ended.
    Ended,
}

/// Answers a fault of the capture.
fn close_at<F: CellFollower>(
    follower: &F,
    reading: &ReadingAhead,
    fault: Fault,
    answers: &mut Vec<u8>,
) -> Result<(), AllocError>
    ensures { OnOk result (ClosesCells F.rules (F.shows follower.now) (filter_state reading.now.filter).summary (Some fault)
        answers.old.items answers.new.items) }
{
    follower.close(&reading.filter.summary(), Some(fault), answers)
}

/// Answers the cells that were read and forgets them. If `stop` ends the run, answers that too.
pub(crate) fn answer_read<F: CellFollower>(
    follower: &mut F,
    reading: &ReadingAhead,
    stop: StopReason,
    cells: &mut Vec<CapturedCell>,
    answers: &mut Vec<u8>,
) -> Result<StepOutcome, AllocError>
    ensures goes_on { IfOk result (λ outcome. outcome ≢ StepOutcome.Ended
        → AnswersCells F.rules (F.shows follower.old) cells.old.items Turn.GoesOn (F.shows follower.new) answers.old.items answers.new.items) }
    ensures none { IfOk result (λ outcome. outcome ≢ StepOutcome.Ended → cells.new.items ≡ []) }
    ensures ends { IfOk result (λ outcome. outcome ≡ StepOutcome.Ended → OfEachWorld F.rules (F.shows follower.old) (λ world.
        EndsAfter F.rules reading.now stop cells.old.items world answers.old.items answers.new.items)) }
    ensures by { IfOk result (λ outcome. GoesBy outcome stop) }
{
    match answer_cells(follower, cells, answers)? {
        Turn::Ends => return Ok(StepOutcome::Ended),
        Turn::GoesOn => {}
    }
    cells.clear();
    match stop {
        StopReason::NeedsOctets => Ok(StepOutcome::NeedsOctets),
        StopReason::Enough => Ok(StepOutcome::GoesOn),
        StopReason::SecondLink(one, other) => {
            add_several(answers, one, other)?;
            Ok(StepOutcome::Ended)
        }
        StopReason::Broken(fault) => {
            close_at(follower, reading, fault, answers)?;
            Ok(StepOutcome::Ended)
        }
    }
}

/// Returns whether the cells that were read wait for the second thread: if two threads may work, there are such cells, and the last reading
/// filled the window. The next reading is then likely to find many octets.
pub(crate) fn leaves_cells(with_two_threads: bool, reading: &ReadingAhead, queue: &Queue) -> bool
    ensures { result ≡ true → queue.now.cells.items ≢ [] }
{
    with_two_threads && reading.window.is_full() && !queue.cells.is_empty()
}

/// Answers the cells that were read before, and reads the waiting octets. Then the cells that were read now are
/// answered too, unless they are left to the second thread (`leaves_cells`).
pub(crate) fn advance<F: CellFollower>(
    with_two_threads: bool,
    reading: &mut ReadingAhead,
    queue: &mut Queue,
    follower: &mut F,
    answers: &mut Vec<u8>,
) -> Result<StepOutcome, AllocError>
    requires { queue.old.spare.items ≡ [] }
    ensures spare { OnOk result (queue.new.spare.items ≡ []) }
    ensures goes_on { IfOk result (λ outcome. outcome ≢ StepOutcome.Ended → OfEachWorld F.rules (F.shows follower.old) (λ world.
        Advances F.rules reading.old queue.old.cells.items world reading.new queue.new.cells.items (F.shows follower.new) answers.old.items answers.new.items)) }
    ensures ends { IfOk result (λ outcome. outcome ≡ StepOutcome.Ended → OfEachWorld F.rules (F.shows follower.old) (λ world.
        AdvancesToEnd F.rules reading.old queue.old.cells.items world answers.old.items answers.new.items)) }
    ensures came { IfOk result (λ outcome. CameSoFar outcome reading.old reading.new queue.new.cells.items) }
{
    match answer_cells(follower, &queue.cells, answers)? {
        Turn::Ends => return Ok(StepOutcome::Ended),
        Turn::GoesOn => {}
    }
    let most = if with_two_threads { usize::MAX } else { FEW };
    let stop = reading.read(&mut queue.spare, most)?;
    queue.take_next_cells();
    if leaves_cells(with_two_threads, reading, queue) {
        match stop {
            // At `NeedsOctets` the driver would read more at once. At `GoesOn` it reads while these cells are answered (`give_and_go_ahead`).
            StopReason::NeedsOctets => return Ok(StepOutcome::GoesOn),
            _ => {}
        }
    }
    answer_read(follower, reading, stop, &mut queue.cells, answers)
}

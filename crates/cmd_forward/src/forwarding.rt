//! The records of a whole capture that go on.

ghost use Rattle.cmd_forward.specs.Forwarding.{ForwardsCapture, forward_start};
ghost use Rattle.cmd_forward.specs.JudgeRules.{OfEachJudgeWorld};
ghost use Rattle.cmd_forward.specs.Reporting.{IsServedWithReport};

use crate::driver::forward_on;
use crate::judge::{CellJudge, judges_each_cell};
use crate::others::Others;
use crate::stepping::ForwardReading;
use captures::{Link, Opening, Reader, Tick, TimeSource};
use captures_text::{CellFilter, WINDOW_ROOM, add_file_fault, find_opening, short_fault};
use std::alloc::Global;
use text_io::{Done, Ending, Input, Output, RunFault, Window};

/// Writes the records of a capture that go on, in order, each as it was received, or with its cell tagged, and appends
/// to the report what is to be said at the end. Records whose cells count go on as `judge` says, and all others as
/// `others` says.
///
/// Memory is bounded: a buffer of 524,288 octets, another one of this size, and what waits to be written, 131,072
/// octets at most. What was read is answered before more is read.
///
/// # Errors
///
/// See [`RunFault`]. The report then has no meaning.
pub fn forward_cells<I: Input, O: Output, J: CellJudge>(
    alloc: Global,
    others: Others,
    tick: Tick,
    link: Option<Link>,
    input: &mut I,
    output: &mut O,
    judge: &mut J,
    report: &mut Vec<u8>,
) -> Ending
    ensures { OfEachJudgeWorld J.rules (J.shows judge.old) (λ world.
        IsServedWithReport (ForwardsCapture J.rules others (forward_start tick.nanoseconds link world))
        I.Input input.old input.new O.Output output.old output.new report.old.items report.new.items result) }
{
    judges_each_cell(judge);
    let filter = CellFilter::new(tick, link, TimeSource::Record);
    let Ok(mut window) = Window::<WINDOW_ROOM>::new(alloc) else {
        return Err(RunFault::NoMemory);
    };
    match find_opening(&mut window, input) {
        Err(_) => Err(RunFault::ReadFailed),
        Ok(Opening::Refused(fault)) => match add_file_fault(report, fault) {
            Err(_) => Err(RunFault::NoMemory),
            Ok(()) => Ok(Done::Ended),
        },
        Ok(Opening::Undecided) => {
            let fault = short_fault(window.octets());
            match judge.close(&filter.summary(), Some(fault), report) {
                Err(_) => Err(RunFault::NoMemory),
                Ok(()) => Ok(Done::Ended),
            }
        }
        Ok(Opening::Opened(format)) => {
            window.skip(format.start());
            let reading = ForwardReading {
                window,
                reader: Reader::new(format),
                filter,
            };
            forward_on(alloc, others, input, output, judge, reading, report)
        }
    }
}

//! One step of a run: a frame is read, and its record written if it goes on.

ghost use Rattle.std.specs.Prelude.{◌≡◌, ◌≢◌, ◌≤◌, List, ℕ, Ok, IfOk, OnOk, Some, length};
ghost use Rattle.captures.specs.RecordContent.{IsContent};
ghost use Rattle.captures_text.specs.CellFilter.{filter_state};
ghost use Rattle.cmd_forward.specs.JudgeRules.{ClosesReport, OfEachJudgeWorld};
ghost use Rattle.cmd_forward.specs.inner.ForwardSteps.{ForwardsOn, ForwardsToEnd, ForwardedSoFar, TurnsAtRecord};

use crate::judge::{CellJudge, judges_each_cell};
use crate::others::Others;
use crate::record_writing::{add_cell_record, add_other_record};
use captures::{Fault, Next, Reader, Record};
use captures_text::{CapturedCell, CellFilter, Filtered, WINDOW_ROOM, add_several};
use std::alloc::AllocError;
use text_io::{Turn, Window};

/// What a run does after a step.
#[derive(Clone, Copy)]
pub(crate) enum StepOutcome {
    /// It takes the next step: the window may have another whole frame.
    GoesOn,
    /// It reads more octets first: the window has no whole frame.
    NeedsOctets,
    /// The run ended.
    Ended,
}

/// What reads the records of a capture.
#[derive(Drop)]
pub(crate) struct ForwardReading {
    /// The octets that were read from the input and are not used yet.
    pub(crate) window: Window<WINDOW_ROOM>,
    pub(crate) reader: Reader,
    pub(crate) filter: CellFilter,
}

/// Writes a record, which has these octets, if it goes on. A cell of a second link ends the run.
fn forward_record<J: CellJudge>(
    others: Others,
    judge: &mut J,
    filter: &mut CellFilter,
    record_read: &Record<'_>,
    octets: &[u8],
    written: &mut Vec<u8>,
    report: &mut Vec<u8>,
) -> Result<Turn, AllocError>
    requires headed { 16 ≤ length octets.now }
    requires content { IsContent octets.now record_read.now.content }
    ensures { IfOk result (λ turn. TurnsAtRecord J.rules others (J.shows judge.old) (filter_state filter.old) record_read.now octets.now
        turn (filter_state filter.new) (J.shows judge.new) written.old.items written.new.items report.old.items report.new.items) }
{
    match filter.read(record_read) {
        Filtered::Skipped => {
            add_other_record(written, others, octets)?;
            Ok(Turn::GoesOn)
        }
        Filtered::SecondLink(one, other) => {
            add_several(report, one, other)?;
            Ok(Turn::Ends)
        }
        Filtered::Counts(moment, cell) => {
            let captured = CapturedCell {
                number: record_read.number,
                moment,
                cell: cell.cell(),
            };
            let onward = judge.judge_cell(&captured)?;
            add_cell_record(written, onward, octets)?;
            Ok(Turn::GoesOn)
        }
    }
}

/// Reports a fault of the capture. It is a function of its own, not inlined, so that the step for a record keeps no stack space for the
/// summary of what was passed over.
#[inline(never)]
fn close_at<J: CellJudge>(
    judge: &J,
    filter: &CellFilter,
    fault: Fault,
    report: &mut Vec<u8>,
) -> Result<(), AllocError>
    ensures { OnOk result (ClosesReport J.rules (J.shows judge.now) (filter_state filter.now).summary (Some fault) report.old.items report.new.items) }
{
    judge.close(&filter.summary(), Some(fault), report)
}

impl ForwardReading {
    /// Reads the next frame of the octets that wait, and writes its record if it goes on.
    pub(crate) fn step<J: CellJudge>(
        &mut self,
        others: Others,
        judge: &mut J,
        written: &mut Vec<u8>,
        report: &mut Vec<u8>,
    ) -> Result<StepOutcome, AllocError>
        ensures goes_on { IfOk result (λ outcome. outcome ≢ StepOutcome.Ended → OfEachJudgeWorld J.rules (J.shows judge.old) (λ world.
            ForwardsOn J.rules others self.old world self.new (J.shows judge.new) written.old.items written.new.items)) }
        ensures silent { IfOk result (λ outcome. outcome ≢ StepOutcome.Ended → report.new.items ≡ report.old.items) }
        ensures ends { IfOk result (λ outcome. outcome ≡ StepOutcome.Ended → OfEachJudgeWorld J.rules (J.shows judge.old) (λ world.
            ForwardsToEnd J.rules others self.old world report.old.items report.new.items)) }
        ensures same { IfOk result (λ outcome. outcome ≡ StepOutcome.Ended → written.new.items ≡ written.old.items) }
        ensures came { IfOk result (λ outcome. ForwardedSoFar outcome self.old self.new) }
    {
        judges_each_cell(judge);
        let octets = self.window.octets();
        let whole = self.reader.record_octets(octets);
        match self.reader.next(octets) {
            Next::Unfinished => Ok(StepOutcome::NeedsOctets),
            Next::Broken(fault) => {
                close_at(judge, &self.filter, fault, report)?;
                Ok(StepOutcome::Ended)
            }
            Next::Skipped(block, own) => {
                self.filter.skip_block(block);
                self.window.skip(own);
                Ok(StepOutcome::GoesOn)
            }
            Next::Taken(record_read, own) => {
                match forward_record(
                    others,
                    judge,
                    &mut self.filter,
                    &record_read,
                    whole,
                    written,
                    report,
                )? {
                    Turn::Ends => Ok(StepOutcome::Ended),
                    Turn::GoesOn => {
                        self.window.skip(own);
                        Ok(StepOutcome::GoesOn)
                    }
                }
            }
        }
    }
}

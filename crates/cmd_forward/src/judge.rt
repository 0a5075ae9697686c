//! Judges: types that say which cells go on.

ghost use Rattle.std.specs.Prelude.{IfOk, OnOk};
ghost use Rattle.cmd_forward.specs.JudgeRules.{ClosesReport, JudgeRules, JudgesCell, JudgesEachCell};

use crate::onward::Onward;
use captures::Fault;
use captures_text::{CapturedCell, ReadingSummary};
use std::alloc::AllocError;
use text_io::Added;

/// A judge gets the cells of a capture that count, one after another, and says of each whether and how it goes on.
///
/// Its rules say which answers are allowed, as steps from world to world. A world is a state in the specification. A judge may store
/// less: it `shows` the worlds that its fields stand for, and its answer must be allowed from each of them.
pub trait CellJudge {
    ghost World: { Type 0 };

    ghost shows: { Self → World → Type 0 };

    ghost rules: { JudgeRules World };

    /// Returns how a cell goes on.
    fn judge_cell(&mut self, captured: &CapturedCell) -> Result<Onward, AllocError>
        ensures { IfOk result (λ onward. JudgesCell rules (shows self.old) captured.now onward (shows self.new)) };

    /// Appends the report about the run at the end of the capture, or at its fault. These records were passed over.
    fn close(&self, summary: &ReadingSummary, end: Option<Fault>, report: &mut Vec<u8>) -> Added
        ensures { OnOk result (ClosesReport rules (shows self.now) summary.now end report.old.items report.new.items) };

    ghost is_total: { JudgesEachCell rules };
}

/// Does nothing at run time. Its contract repeats a fact of the trait.
pub(crate) fn judges_each_cell<J: CellJudge>(_: &J)
    ensures { JudgesEachCell J.rules }
{}

//! What answers the cells of a capture that count.

ghost use Rattle.std.specs.Prelude.{IfOk, OnOk};
ghost use Rattle.captures_text.specs.CellFollowing.{ClosesCells, FollowsCell};
ghost use Rattle.captures_text.specs.inner.Answered.{AnswersCells};
ghost use Rattle.captures_text.specs.CellRules.{AnswersEachCell, CellRules};

use crate::captured_cell::CapturedCell;
use crate::reading_summary::ReadingSummary;
use captures::Fault;
use std::alloc::AllocError;
use text_io::{Added, Turn};

/// Whether the run goes on after a cell, or after several. The error is that memory is short.
pub type Followed = Result<Turn, AllocError>;

/// A follower gets the cells of a capture that count, one after another, and answers each.
///
/// Its `rules` say which answers are right. They depend on a state of the specification, the world. A follower may store less than a world:
/// its answer must be right for each world that it `shows`.
pub trait CellFollower {
    ghost World: { Type 0 };

    ghost shows: { Self → World → Type 0 };

    ghost rules: { CellRules World };

    /// Appends the answer to a cell to the answers.
    fn follow_cell(&mut self, captured: &CapturedCell, answers: &mut Vec<u8>) -> Followed
        ensures { IfOk result (λ turn.
            FollowsCell rules (shows self.old) captured.now turn (shows self.new) answers.old.items answers.new.items) };

    /// Appends the answer to the end of the capture, or to its fault, to the answers. The summary says what was passed over.
    fn close(&self, summary: &ReadingSummary, end: Option<Fault>, answers: &mut Vec<u8>) -> Added
        ensures { OnOk result (ClosesCells rules (shows self.now) summary.now end answers.old.items answers.new.items) };

    ghost is_total: { AnswersEachCell rules };
}

/// Does nothing at run time. Its contract repeats a fact of the trait, for callers that move the follower to another thread.
pub(crate) fn answers_each_cell<F: CellFollower>(_: &F)
    ensures { AnswersEachCell F.rules }
{}

/// Answers cells in order, up to one that ends the run.
pub(crate) fn answer_cells<F: CellFollower>(
    follower: &mut F,
    cells: &[CapturedCell],
    answers: &mut Vec<u8>,
) -> Followed
    ensures { IfOk result (λ turn.
        AnswersCells F.rules (F.shows follower.old) cells.now turn (F.shows follower.new) answers.old.items answers.new.items) }
{
    for captured in cells {
        match follower.follow_cell(captured, answers)? {
            Turn::GoesOn => {}
            Turn::Ends => return Ok(Turn::Ends),
        }
    }
    Ok(Turn::GoesOn)
}

//! The comments about a whole run. Each function appends to the answers.

ghost use Rattle.std.specs.Prelude.{◌≡◌, ◌++◌, OnOk};
ghost use Rattle.cmd_setups.specs.RunComments.{loss_comment, run_comments, tick_comment};

use captures::Tick;
use captures_text::{CountAndFirst, ReadingSummary};
use std::alloc::AllocError;
use text_words::{add_number, add_text};

/// Appends how long a tick is, in nanoseconds.
#[tactic(auto, using(std::proofs::lemmas::List::append_assoc))]
fn add_tick(answers: &mut Vec<u8>, nanoseconds: u64) -> Result<(), AllocError>
    ensures { OnOk result (answers.new.items ≡ answers.old.items ++ tick_comment nanoseconds) }
{
    add_text(answers, b"# a tick is ")?;
    add_number(answers, nanoseconds)?;
    add_text(answers, b" ns\n")
}

/// Appends from which record on verdicts may be wrong, if records were lost.
#[tactic(auto, using(std::proofs::lemmas::List::append_assoc))]
fn add_losses(answers: &mut Vec<u8>, losses: CountAndFirst) -> Result<(), AllocError>
    ensures { OnOk result (answers.new.items ≡ answers.old.items ++ loss_comment losses) }
{
    if losses.count == 0 {
        return Ok(());
    }
    add_text(answers, b"# verdicts from record ")?;
    add_number(answers, losses.first)?;
    add_text(answers, b" on may be wrong: cells before it may be lost\n")
}

/// Appends the comments about a run.
///
/// # Errors
///
/// `AllocError` if an allocation failed.
#[tactic(auto, using(std::proofs::lemmas::List::append_assoc))]
pub fn add_run_comments(
    answers: &mut Vec<u8>,
    tick: Tick,
    summary: &ReadingSummary,
) -> Result<(), AllocError>
    ensures { OnOk result (answers.new.items ≡ answers.old.items ++ run_comments tick.nanoseconds summary.now) }
{
    add_tick(answers, tick.nanoseconds)?;
    add_losses(answers, summary.marks.losses)
}

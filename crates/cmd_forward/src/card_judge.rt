//! The card of a setup script says which cells go on.

ghost use Rattle.std.specs.Prelude.{◌≡◌};
ghost use Rattle.cmd_forward.specs.ForwardText.{onward_by as by_verdict};

use crate::judge::CellJudge;
use crate::onward::Onward;
use captures::Fault;
use captures_text::{CapturedCell, ReadingSummary};
use cmd_police::PolicedCard;
use leaky::Verdict;
use std::alloc::AllocError;
use text_io::Added;

/// Returns how a cell with this verdict goes on.
fn onward_by(verdict: Option<Verdict>) -> Onward
    ensures { result ≡ by_verdict verdict }
{
    match verdict {
        Some(Verdict::Pass) => Onward::Unchanged,
        Some(Verdict::Tag) => Onward::Tagged,
        Some(Verdict::Discard | Verdict::Refuse) | None => Onward::Stays,
    }
}

impl CellJudge for PolicedCard {
    ghost use Rattle.cmd_police.specs.PolicedCards.{PolicedWorld, ShowsPoliced};
    ghost use Rattle.cmd_forward.specs.ForwardText.{forward_rules};
    ghost use Rattle.cmd_forward.specs.inner.ForwardTotal.{forward-total};

    ghost World = { PolicedWorld };

    ghost shows = { ShowsPoliced };

    ghost rules = { forward_rules };

    fn judge_cell(&mut self, captured: &CapturedCell) -> Result<Onward, AllocError> {
        let verdict = self.judge(captured)?;
        Ok(onward_by(verdict))
    }

    fn close(&self, summary: &ReadingSummary, end: Option<Fault>, report: &mut Vec<u8>) -> Added {
        self.add_report(report, summary, end)
    }

    ghost is_total = { forward-total };
}

//! Cells that were not judged.

ghost use Rattle.std.specs.Prelude.{◌≡◌, ◌++◌, List, ℕ, OnOk};
ghost use Rattle.card_core.specs.Sections.{answer_to, unjudged_answer};
ghost use Rattle.cmd_setups.specs.NotJudgedCells.{all_judged, not_judged_after, not_judged_line, not_judged_lines};

use captures_text::CountAndFirst;
use card_core::{Judgement, Unjudged};
use line_record::LineFault;
use text_io::Added;
use text_words::{add_number, add_text};

/// The cells that were not judged, by reason.
#[derive(Clone, Copy)]
pub struct NotJudged {
    /// They belong to no connection.
    pub no_connection: CountAndFirst,
    /// Their moment is before that of their connection's last judged cell.
    pub back: CountAndFirst,
    /// Their moment is above 2^62.
    pub late: CountAndFirst,
    /// The journal of their connection is full, even after a cut: 2^62 cells were judged on its line.
    pub full: CountAndFirst,
}

impl NotJudged {
    /// The counts before any cell.
    pub fn none() -> NotJudged
        ensures { result ≡ all_judged }
    {
        let none = CountAndFirst::none();
        NotJudged {
            no_connection: none,
            back: none,
            late: none,
            full: none,
        }
    }

    /// Counts a cell with this answer, whose record has this number, if it wasn't judged.
    pub fn count(&mut self, number: u64, decision: &Result<Judgement, Unjudged>)
        ensures { (cell : List ℕ) → self.new ≡ not_judged_after self.old number (answer_to cell decision.now) }
    {
        if let Err(reason) = decision {
            self.count_for(number, *reason);
        }
    }

    /// Counts a cell that wasn't judged for this reason.
    fn count_for(&mut self, number: u64, reason: Unjudged)
        ensures { self.new ≡ not_judged_after self.old number (unjudged_answer reason) }
    {
        match reason {
            Unjudged::NoConnection => self.no_connection = self.no_connection.with(number),
            Unjudged::LineFault(LineFault::Back(_)) => self.back = self.back.with(number),
            Unjudged::LineFault(LineFault::TooLate) => self.late = self.late.with(number),
            Unjudged::LineFault(LineFault::Full) => self.full = self.full.with(number),
            Unjudged::Released | Unjudged::Stale | Unjudged::LineFault(LineFault::NoMemory) => {}
        }
    }
}

/// Appends a comment about cells that were not judged, if there are any.
#[tactic(auto, using(std::proofs::lemmas::List::append_assoc))]
fn add_not_judged_line(answers: &mut Vec<u8>, tally: CountAndFirst, why: &[u8]) -> Added
    ensures { OnOk result (answers.new.items ≡ answers.old.items ++ not_judged_line tally why.now) }
{
    if tally.count == 0 {
        return Ok(());
    }
    add_text(answers, b"# ")?;
    add_number(answers, tally.count)?;
    add_text(answers, b" not judged: ")?;
    add_text(answers, why)?;
    add_text(answers, b"; first record ")?;
    add_number(answers, tally.first)?;
    answers.push(b'\n')?;
    Ok(())
}

/// Appends a comment for each reason why cells were not judged.
///
/// # Errors
///
/// `AllocError` if an allocation failed.
#[tactic(auto, using(std::proofs::lemmas::List::append_assoc))]
pub fn add_not_judged(answers: &mut Vec<u8>, cells: &NotJudged) -> Added
    ensures { OnOk result (answers.new.items ≡ answers.old.items ++ not_judged_lines cells.now) }
{
    add_not_judged_line(answers, cells.no_connection, b"no connection")?;
    add_not_judged_line(
        answers,
        cells.back,
        b"a moment before the last one of its connection",
    )?;
    add_not_judged_line(answers, cells.late, b"a moment above 2^62")?;
    add_not_judged_line(answers, cells.full, b"a full journal")
}

//! Which cells have a line, and the heading of these lines.

ghost use Rattle.std.specs.Prelude.{◌≡◌, ◌++◌, ℕ, List, [], OnOk, if◌then◌else◌};
ghost use Rattle.card_core.specs.Sections.{answer_to};
ghost use Rattle.cmd_police.specs.PoliceLines.{has_line, is_pass_answer, verdict_heading};
ghost use Rattle.cmd_police.specs.StoredRules.{shown_stored};

use crate::program_rules::LoadedRules;
use crate::rule_column::end_heading;
use captures_text::LineChoice;
use card_core::{Judgement, Unjudged};
use leaky::Verdict;
use text_io::Added;
use text_words::add_text;

/// Appends the heading, where lines show these rules.
#[tactic(auto, using(std::proofs::lemmas::List::append_assoc))]
fn add_verdict_heading(answers: &mut Vec<u8>, rules: &Option<LoadedRules>) -> Added
    ensures { OnOk result (answers.new.items ≡ answers.old.items ++ verdict_heading (shown_stored rules.now)) }
{
    add_text(
        answers,
        b"record\tmoment\tvpi\tvci\tclp\tvalue\tverdict\tbucket\texcess",
    )?;
    end_heading(answers, rules)
}

/// Appends the heading, if it isn't written yet.
pub(crate) fn add_heading_once(
    answers: &mut Vec<u8>,
    has_heading: bool,
    rules: &Option<LoadedRules>,
) -> Added
    ensures { OnOk result (answers.new.items ≡ answers.old.items ++ (if has_heading then [] else verdict_heading (shown_stored rules.now))) }
{
    if has_heading {
        return Ok(());
    }
    add_verdict_heading(answers, rules)
}

/// Returns whether a cell with this result has a line.
pub(crate) fn has_line(lines: LineChoice, decision: &Result<Judgement, Unjudged>) -> bool
    ensures { (cell : List ℕ) → result ≡ has_line lines (answer_to cell decision.now) }
{
    match lines {
        LineChoice::All => true,
        LineChoice::Nothing => false,
        LineChoice::NotPassed => !is_pass_answer(decision),
    }
}

/// Returns whether the cell passes.
fn is_pass_answer(decision: &Result<Judgement, Unjudged>) -> bool
    ensures { (cell : List ℕ) → result ≡ is_pass_answer (answer_to cell decision.now) }
{
    match decision {
        Ok(judged) => judged.verdict == Verdict::Pass,
        Err(_) => false,
    }
}

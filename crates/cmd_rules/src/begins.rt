//! Prints where lines of rules begin.

ghost use Rattle.std.specs.Prelude.{◌≡◌, ◌++◌, OnOk};
ghost use Rattle.cmd_rules.specs.CountText.{decider_text};
ghost use Rattle.cmd_rules.specs.RuleBegins.{begin_at, begin_text, column_text};

use rules_text::RulePlace;
use std::alloc::AllocError;
use text_words::{add_number, add_text};

/// Returns where the line of rules with index `place` begins. `begins` has this for each line of rules of the text. If there is no such
/// line, the answer is source line 0.
pub fn begin_at(begins: &[RulePlace], place: usize) -> RulePlace
    ensures { result ≡ begin_at begins.now place }
{
    match begins.get(place) {
        Some(begin) => *begin,
        None => RulePlace {
            line: 0,
            column: None,
        },
    }
}

/// Appends the column of a line of rules, if it has one.
#[tactic(auto, using(std::proofs::lemmas::List::append_assoc))]
fn add_column(answers: &mut Vec<u8>, column: Option<usize>) -> Result<(), AllocError>
    ensures { OnOk result (answers.new.items ≡ answers.old.items ++ column_text column) }
{
    match column {
        None => Ok(()),
        Some(column) => {
            add_text(answers, b":")?;
            add_number(answers, column as u64)
        }
    }
}

/// Appends where a line of rules begins: the number of its source line, and its column if it has one.
///
/// # Errors
///
/// `AllocError` if an allocation fails.
#[tactic(auto, using(std::proofs::lemmas::List::append_assoc))]
pub fn add_begin(answers: &mut Vec<u8>, begin: RulePlace) -> Result<(), AllocError>
    ensures { OnOk result (answers.new.items ≡ answers.old.items ++ begin_text begin) }
{
    add_number(answers, begin.line as u64)?;
    add_column(answers, begin.column)
}

/// Appends `line ` and where the rule that decides begins, or `otherwise`. `line` is the index of the rule among the lines of rules.
///
/// # Errors
///
/// `AllocError` if an allocation fails.
#[tactic(auto, using(std::proofs::lemmas::List::append_assoc))]
pub fn add_decider(
    answers: &mut Vec<u8>,
    begins: &[RulePlace],
    line: Option<usize>,
) -> Result<(), AllocError>
    ensures { OnOk result (answers.new.items ≡ answers.old.items ++ decider_text begins.now line) }
{
    match line {
        None => add_text(answers, b"otherwise"),
        Some(place) => {
            add_text(answers, b"line ")?;
            add_begin(answers, begin_at(begins, place))
        }
    }
}

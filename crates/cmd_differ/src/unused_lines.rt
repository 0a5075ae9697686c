//! The lines that `upc-lab unused` prints, one for each rule that decides no cell.

ghost use Rattle.std.specs.Prelude.{◌≡◌, ◌++◌, Some, OnOk};
ghost use Rattle.cmd_differ.specs.UnusedText.{more_rules_text, rule_text, taken_by_text, takers_text, unused_line, unused_lines, unused_text};

use cmd_rules::add_decider;
use rules_diagrams::Unused;
use rules_text::RulePlace;
use std::alloc::AllocError;
use text_words::add_text;

/// Appends where the rule at a place begins.
fn add_rule(answers: &mut Vec<u8>, begins: &[RulePlace], place: usize) -> Result<(), AllocError>
    ensures { OnOk result (answers.new.items ≡ answers.old.items ++ rule_text begins.now place) }
{
    add_decider(answers, begins, Some(place))
}

/// Appends where the rules after the first begin.
#[tactic(auto, using(std::proofs::lemmas::List::append_assoc))]
fn add_more_rules(
    answers: &mut Vec<u8>,
    begins: &[RulePlace],
    places: &[usize],
) -> Result<(), AllocError>
    ensures { OnOk result (answers.new.items ≡ answers.old.items ++ more_rules_text begins.now places.now) }
{
    for place in places {
        add_text(answers, b", ")?;
        add_rule(answers, begins, *place)?;
    }
    Ok(())
}

/// Appends the rules that decide the cells of a rule, of which there is a first.
fn add_taken_by(
    answers: &mut Vec<u8>,
    begins: &[RulePlace],
    first: usize,
    more: &[usize],
) -> Result<(), AllocError>
    ensures { OnOk result (answers.new.items ≡ answers.old.items ++ taken_by_text begins.now first more.now) }
{
    add_text(answers, b" decides no cell: taken by ")?;
    add_rule(answers, begins, first)?;
    add_more_rules(answers, begins, more)?;
    Ok(())
}

/// Appends the rules that decide the cells of a rule, if it holds of any.
fn add_takers(
    answers: &mut Vec<u8>,
    begins: &[RulePlace],
    takers: &[usize],
) -> Result<(), AllocError>
    ensures { OnOk result (answers.new.items ≡ answers.old.items ++ takers_text begins.now takers.now) }
{
    match takers {
        [] => add_text(answers, b" decides no cell: it holds of none"),
        [first, more @ ..] => add_taken_by(answers, begins, *first, more),
    }
}

/// Appends the line of a rule that decides no cell.
#[tactic(auto, using(std::proofs::lemmas::List::append_assoc))]
fn add_unused(
    answers: &mut Vec<u8>,
    begins: &[RulePlace],
    unused: &Unused,
) -> Result<(), AllocError>
    ensures { OnOk result (answers.new.items ≡ answers.old.items ++ unused_line begins.now unused.now.place unused.now.takers.items) }
{
    add_rule(answers, begins, unused.place)?;
    add_takers(answers, begins, &unused.takers)?;
    answers.push(b'\n')?;
    Ok(())
}

/// Appends the lines of rules that decide no cell.
fn add_unused_lines(
    answers: &mut Vec<u8>,
    begins: &[RulePlace],
    unused: &[Unused],
) -> Result<(), AllocError>
    ensures { OnOk result (answers.new.items ≡ answers.old.items ++ unused_lines begins.now unused.now) }
{
    for one in unused {
        add_unused(answers, begins, one)?;
    }
    Ok(())
}

/// Appends the lines of rules that decide no cell, or that there is none.
pub(crate) fn add_unused_text(
    answers: &mut Vec<u8>,
    begins: &[RulePlace],
    unused: &[Unused],
) -> Result<(), AllocError>
    ensures { OnOk result (answers.new.items ≡ answers.old.items ++ unused_text begins.now unused.now) }
{
    match unused {
        [] => add_text(answers, b"every rule decides some cell\n"),
        [_, ..] => add_unused_lines(answers, begins, unused),
    }
}

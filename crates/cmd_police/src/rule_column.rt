//! The column that says which rule gave a cell its value. Each function that adds a text appends it to the answers.

ghost use Rattle.std.specs.Prelude.{◌≡◌, ◌++◌, ℕ, List, Some, OnOk, option_map};
ghost use Rattle.card_core.specs.Sections.{answer_to};
ghost use Rattle.text_card.specs.Replies.{number_of_judging};
ghost use Rattle.cmd_police.specs.RuleColumn.{deciding_rule, heading_end, line_end, rule_begin, rule_shown, rules_numbered};
ghost use Rattle.cmd_police.specs.StoredRules.{all_rules_stored, rules_stored, shown_stored};

use crate::program_rules::{LoadedRules, ProgramRules};
use card_core::{Judgement, Unjudged};
use cmd_rules::{add_begin, begin_at};
use cmd_run::ScriptCard;
use rules_text::RulePlace;
use text_io::Added;
use text_words::add_text;
use upc_cell::Cell;

/// Ends the heading.
pub(crate) fn end_heading(answers: &mut Vec<u8>, rules: &Option<LoadedRules>) -> Added
    ensures { OnOk result (answers.new.items ≡ answers.old.items ++ heading_end (shown_stored rules.now)) }
{
    match rules {
        Some(_) => add_text(answers, b"\trule\n"),
        None => add_text(answers, b"\n"),
    }
}

/// Returns the rules of the program with this number, counted from 1, if it has some.
fn rules_numbered(loaded: &LoadedRules, number: usize) -> Option<&ProgramRules>
    ensures { option_map (λ rules. rules_stored rules.now) result ≡ rules_numbered (all_rules_stored loaded.now) number }
{
    if number == 0 {
        return None;
    }
    match loaded.programs.get(number - 1) {
        Some(rules) => rules.as_ref(),
        None => None,
    }
}

/// Appends where the line of rules at a place begins, or `otherwise`.
fn add_rule_begin(answers: &mut Vec<u8>, begins: &[RulePlace], line: Option<usize>) -> Added
    ensures { OnOk result (answers.new.items ≡ answers.old.items ++ rule_begin begins.now line) }
{
    match line {
        Some(place) => add_begin(answers, begin_at(begins, place)),
        None => add_text(answers, b"otherwise"),
    }
}

/// Appends the rule of these that decides a cell.
#[tactic(auto, using(std::proofs::lemmas::List::append_assoc))]
fn add_deciding_rule(answers: &mut Vec<u8>, rules: &ProgramRules, cell: &Cell) -> Added
    ensures { OnOk result (answers.new.items ≡ answers.old.items ++ deciding_rule (rules_stored rules.now) cell.now) }
{
    let decision = rules.decider.decide(cell);
    add_text(answers, &rules.name)?;
    answers.push(b':')?;
    add_rule_begin(answers, &rules.decider.placed_rules.begins, decision.line)
}

/// Appends the rule of these that decides a cell, or a minus sign if there are no rules.
fn add_rule_shown(answers: &mut Vec<u8>, rules: Option<&ProgramRules>, cell: &Cell) -> Added
    ensures { OnOk result (answers.new.items ≡ answers.old.items ++ rule_shown (option_map (λ it. rules_stored it.now) rules.entry) cell.now) }
{
    match rules {
        Some(rules) => add_deciding_rule(answers, rules, cell),
        None => add_text(answers, b"-"),
    }
}

/// Returns the number of the program that gave a cell its value, or 0 if the cell wasn't judged.
fn number_of_judging(card: &ScriptCard, decision: &Result<Judgement, Unjudged>) -> usize
    ensures { (cell : List ℕ) → result ≡ number_of_judging card.now.names (answer_to cell decision.now) }
{
    match decision {
        Ok(judged) => card.number_of(judged.program),
        Err(_) => 0,
    }
}

/// Ends the line of a cell with the rule that gave it its value, or with a minus sign if its program has no rules.
#[tactic(auto, using(std::proofs::lemmas::List::append_assoc))]
fn end_with_rule(answers: &mut Vec<u8>, loaded: &LoadedRules, number: usize, cell: &Cell) -> Added
    ensures { OnOk result (answers.new.items ≡ answers.old.items ++ line_end (Some (all_rules_stored loaded.now)) number cell.now) }
{
    answers.push(b'\t')?;
    add_rule_shown(answers, rules_numbered(loaded, number), cell)?;
    answers.push(b'\n')?;
    Ok(())
}

/// Ends the line of a cell. If rules are shown, the line has the rule that gave the cell its value.
pub(crate) fn end_line(
    answers: &mut Vec<u8>,
    rules: &Option<LoadedRules>,
    card: &ScriptCard,
    decision: &Result<Judgement, Unjudged>,
    cell: &Cell,
) -> Added
    ensures { OnOk result (answers.new.items ≡ answers.old.items
        ++ line_end (shown_stored rules.now) (number_of_judging card.now.names (answer_to cell.now decision.now)) cell.now) }
{
    match rules {
        Some(loaded) => end_with_rule(answers, loaded, number_of_judging(card, decision), cell),
        None => add_text(answers, b"\n"),
    }
}

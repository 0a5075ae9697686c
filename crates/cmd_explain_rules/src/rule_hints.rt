//! The hints about rules that decide no cell.

ghost use Rattle.std.specs.Prelude.{◌≡◌, ◌++◌, OnOk};
ghost use Rattle.rules_diagrams.specs.UnusedRules.{AreUnused};
ghost use Rattle.rules_text.specs.RulesInMemory.{placed_rules_read};
ghost use Rattle.text_io.specs.Devices.{Adds};
ghost use Rattle.cmd_explain_rules.specs.RuleHints.{AreAllHints, AreRuleHints, rule_list, hint_sentence, left_out, rules_after_first, rule_hint, rule_hints, rule_line_words, separator, takes_words, decides_no_cell_words, undecided_hint};

use cmd_explain_script::add_place;
use cmd_rules::{add_decider, begin_at};
use rules_diagrams::{Undecided, Unused, unused_rules};
use rules_text::{PlacedRules, RulePlace};
use std::alloc::{AllocError, Global};
use text_words::{add_number, add_text};

/// The most rules that a hint names after the first.
const MOST_NAMED: usize = 7;

/// Appends where the rule at a place begins.
fn add_rule_name(
    answers: &mut Vec<u8>,
    begins: &[RulePlace],
    place: usize,
) -> Result<(), AllocError>
    ensures { OnOk result (answers.new.items ≡ answers.old.items ++ rule_line_words begins.now place) }
{
    add_decider(answers, begins, Some(place))
}

/// Returns what comes before a rule of a list that these follow: ` and ` before the last, otherwise a comma.
fn separator(more: &[usize]) -> &'static [u8]
    ensures { result.now ≡ separator more.now }
{
    match more {
        [] => b" and ",
        [_, ..] => b", ",
    }
}

/// Appends how many rules aren't named.
#[tactic(auto, using(std::proofs::lemmas::List::append_assoc))]
fn add_left_out(answers: &mut Vec<u8>, count: usize) -> Result<(), AllocError>
    ensures { OnOk result (answers.new.items ≡ answers.old.items ++ left_out count) }
{
    add_text(answers, b" and ")?;
    add_number(answers, count as u64)?;
    add_text(answers, b" more")
}

/// Appends where a rule after the first begins, with the comma or `and` before it; these rules follow.
#[tactic(auto, using(std::proofs::lemmas::List::append_assoc))]
fn add_separated_rule(
    answers: &mut Vec<u8>,
    begins: &[RulePlace],
    place: usize,
    more: &[usize],
) -> Result<(), AllocError>
    ensures { OnOk result (answers.new.items ≡ answers.old.items ++ (separator more.now ++ rule_line_words begins.now place)) }
{
    add_text(answers, separator(more))?;
    add_rule_name(answers, begins, place)
}

/// Appends where the rules after the first begin, each with the comma or `and` before it.
#[tactic(auto, using(std::proofs::lemmas::List::append_assoc))]
fn add_rules_after_first(
    answers: &mut Vec<u8>,
    begins: &[RulePlace],
    takers: &[usize],
) -> Result<(), AllocError>
    ensures { OnOk result (answers.new.items ≡ answers.old.items ++ rules_after_first begins.now 7 takers.now) }
{
    let mut left = takers;
    let mut room = MOST_NAMED;
    while let [place, more @ ..] = left {
        if room == 0 {
            return add_left_out(answers, left.len());
        }
        add_separated_rule(answers, begins, *place, more)?;
        room -= 1;
        left = more;
    }
    Ok(())
}

/// Returns that one rule takes the cells, or that several do. `more` are the rules after the first.
fn takes_words(more: &[usize]) -> &'static [u8]
    ensures { result.now ≡ takes_words more.now }
{
    match more {
        [] => b" takes its cells",
        [_, ..] => b" take its cells",
    }
}

/// Appends where the rules begin that take the cells of a rule: the first, and the others.
#[tactic(auto, using(std::proofs::lemmas::List::append_assoc))]
fn add_rule_list(
    answers: &mut Vec<u8>,
    begins: &[RulePlace],
    first: usize,
    more: &[usize],
) -> Result<(), AllocError>
    ensures { OnOk result (answers.new.items ≡ answers.old.items ++ rule_list begins.now first more.now) }
{
    add_rule_name(answers, begins, first)?;
    add_rules_after_first(answers, begins, more)
}

/// Appends that a rule decides no cell, and that these rules take its cells.
#[tactic(auto, using(std::proofs::lemmas::List::append_assoc))]
fn add_decides_no_cell(
    answers: &mut Vec<u8>,
    begins: &[RulePlace],
    first: usize,
    more: &[usize],
) -> Result<(), AllocError>
    ensures { OnOk result (answers.new.items ≡ answers.old.items ++ decides_no_cell_words begins.now first more.now) }
{
    add_text(answers, b"this rule decides no cell; ")?;
    add_rule_list(answers, begins, first, more)?;
    add_text(answers, takes_words(more))?;
    Ok(())
}

/// Appends the sentence about a rule that decides no cell, by the rules that take its cells.
fn add_hint_sentence(
    answers: &mut Vec<u8>,
    begins: &[RulePlace],
    takers: &[usize],
) -> Result<(), AllocError>
    ensures { OnOk result (answers.new.items ≡ answers.old.items ++ hint_sentence begins.now takers.now) }
{
    match takers {
        [] => add_text(answers, b"this rule holds of no cell"),
        [first, more @ ..] => add_decides_no_cell(answers, begins, *first, more),
    }
}

/// Appends the hint about a rule that decides no cell.
#[tactic(auto, using(std::proofs::lemmas::List::append_assoc))]
fn add_rule_hint(
    answers: &mut Vec<u8>,
    begins: &[RulePlace],
    place: usize,
    takers: &[usize],
) -> Result<(), AllocError>
    ensures { OnOk result (answers.new.items ≡ answers.old.items ++ rule_hint begins.now place takers.now) }
{
    add_text(answers, b"hint ")?;
    let begin = begin_at(begins, place);
    add_place(answers, begin.line, begin.column)?;
    add_hint_sentence(answers, begins, takers)?;
    answers.push(b'\n')?;
    Ok(())
}

/// Appends a hint about one of the rules that decide no cell, after these octets.
#[tactic(auto, using(std::proofs::lemmas::List::append_assoc))]
fn add_hint_after(
    answers: &mut Vec<u8>,
    front: &[u8],
    begins: &[RulePlace],
    unused: &Unused,
) -> Result<(), AllocError>
    ensures { OnOk result (answers.new.items ≡ answers.old.items ++ (front.now ++ rule_hint begins.now unused.now.place unused.now.takers.items)) }
{
    add_text(answers, front)?;
    add_rule_hint(answers, begins, unused.place, &unused.takers)
}

/// Appends the hints about rules that decide no cell, each after these octets.
#[tactic(auto, using(std::proofs::lemmas::List::append_assoc))]
fn add_all_hints(
    answers: &mut Vec<u8>,
    front: &[u8],
    begins: &[RulePlace],
    unused: &[Unused],
) -> Result<(), AllocError>
    ensures { OnOk result (answers.new.items ≡ answers.old.items ++ rule_hints front.now begins.now unused.now) }
{
    for one in unused {
        add_hint_after(answers, front, begins, one)?;
    }
    Ok(())
}

/// Appends the hints about rules of which these decide no cell, each after these octets.
fn add_searched(
    answers: &mut Vec<u8>,
    front: &[u8],
    placed_rules: &PlacedRules,
    unused: &[Unused],
) -> Result<(), AllocError>
    requires { AreUnused placed_rules.now.rules unused.now }
    ensures { OnOk result (Adds (AreAllHints front.now (placed_rules_read placed_rules.now)) answers.old.items answers.new.items) }
{
    add_all_hints(answers, front, &placed_rules.begins, unused)?;
    Ok(())
}

/// Appends that nothing is decided, after these octets.
#[tactic(auto, using(std::proofs::lemmas::List::append_assoc))]
fn add_undecided(answers: &mut Vec<u8>, front: &[u8]) -> Result<(), AllocError>
    ensures { OnOk result (answers.new.items ≡ answers.old.items ++ (front.now ++ undecided_hint)) }
{
    add_text(answers, front)?;
    add_text(answers, b"hint: not decided: too many cases\n")
}

/// Appends the hints about rules, each after these octets, or that nothing is decided.
pub(crate) fn add_rule_hints(
    alloc: Global,
    answers: &mut Vec<u8>,
    front: &[u8],
    placed_rules: &PlacedRules,
) -> Result<(), AllocError>
    ensures { OnOk result (Adds (AreRuleHints front.now (placed_rules_read placed_rules.now)) answers.old.items answers.new.items) }
{
    match unused_rules(alloc, &placed_rules.rules) {
        Ok(unused) => add_searched(answers, front, placed_rules, &unused),
        Err(Undecided::TooLarge) => {
            add_undecided(answers, front)?;
            Ok(())
        }
        Err(Undecided::NoMemory) => Err(AllocError),
    }
}

//! A text of rules, explained.

ghost use Rattle.std.specs.Prelude.{◌≡◌, ◌++◌, map, IfOk, OnOk};
ghost use Rattle.rules_text.specs.RulesInMemory.{HasPlacedRules, placed_rules_read};
ghost use Rattle.rules_text.specs.RulesRead.{line_read};
ghost use Rattle.text_io.specs.Devices.{Adds};
ghost use Rattle.text_io.specs.Serving.{IsServed};
ghost use Rattle.cmd_explain_rules.specs.RulesExplained.{ExplainsRules, HasNoFault, IsFaultOfText, IsRulesExplained, MayBeRulesExplained, no_fault_text, rules_count, rules_words};

use crate::rule_faults::add_rule_explanation;
use crate::rule_hints::add_rule_hints;
use cmd_rules::{MOST_RULES_OCTETS, add_rule_fault};
use rules_cells::{CodeFault, RuleLine, compile};
use rules_text::{PlacedRules, RuleFault, RuleFaultKind, read_with_places};
use std::alloc::{AllocError, Global};
use text_io::{Answered, Answerer, Done, Ending, Input, Output, answer_whole};
use text_words::{TOO_LONG, add_number, add_text};

/// Returns how many of these lines are rules.
fn rules_count(lines: &[RuleLine]) -> usize
    ensures { result ≡ rules_count (map line_read lines.now) }
{
    let mut left = lines;
    let mut count = 0;
    while let [line, rest @ ..] = left {
        if matches!(line, RuleLine::Rule { .. }) {
            count += 1;
        }
        left = rest;
    }
    count
}

/// Appends a number of rules, in words.
#[tactic(auto, using(std::proofs::lemmas::List::append_assoc))]
fn add_rules_count(answers: &mut Vec<u8>, count: usize) -> Result<(), AllocError>
    ensures { OnOk result (answers.new.items ≡ answers.old.items ++ rules_words count) }
{
    if count == 1 {
        return add_text(answers, b"1 rule");
    }
    add_number(answers, count as u64)?;
    add_text(answers, b" rules")
}

/// Appends that rules have no fault.
#[tactic(auto, using(std::proofs::lemmas::List::append_assoc))]
fn add_no_fault(answers: &mut Vec<u8>, placed_rules: &PlacedRules) -> Result<(), AllocError>
    ensures { OnOk result (answers.new.items ≡ answers.old.items ++ no_fault_text (placed_rules_read placed_rules.now)) }
{
    add_text(answers, b"no fault in ")?;
    add_rules_count(answers, rules_count(&placed_rules.rules.lines))?;
    answers.push(b'\n')?;
    Ok(())
}

/// Answers a text with these rules, which has no fault: how many rules it has, and hints about them.
fn explain_accepted(
    alloc: Global,
    text: &[u8],
    placed_rules: &PlacedRules,
    answers: &mut Vec<u8>,
) -> Result<Done, AllocError>
    requires { HasNoFault text.now (placed_rules_read placed_rules.now) }
    ensures { IfOk result (λ done. Adds (λ answer. ExplainsRules text.now answer done) answers.old.items answers.new.items) }
{
    add_no_fault(answers, placed_rules)?;
    add_rule_hints(alloc, answers, b"", placed_rules)?;
    Ok(Done::Whole)
}

/// Answers a text with this fault.
#[tactic(auto, using(std::proofs::lemmas::List::append_assoc))]
fn explain_fault(
    alloc: Global,
    text: &[u8],
    fault: RuleFault,
    answers: &mut Vec<u8>,
) -> Result<Done, AllocError>
    requires { IsFaultOfText text.now fault }
    ensures { IfOk result (λ done. Adds (λ answer. ExplainsRules text.now answer done) answers.old.items answers.new.items) }
{
    add_rule_fault(answers, fault)?;
    add_rule_explanation(alloc, answers, text, fault)?;
    Ok(Done::Ended)
}

/// Answers a text with these rules.
fn explain_placed_rules(
    alloc: Global,
    text: &[u8],
    placed_rules: &PlacedRules,
    answers: &mut Vec<u8>,
) -> Result<Done, AllocError>
    requires { HasPlacedRules text.now placed_rules.now }
    ensures { IfOk result (λ done. Adds (λ answer. ExplainsRules text.now answer done) answers.old.items answers.new.items) }
{
    match compile(alloc, &placed_rules.rules) {
        Ok(_) => explain_accepted(alloc, text, placed_rules, answers),
        Err(CodeFault::TooLong) => explain_fault(
            alloc,
            text,
            RuleFault {
                line: 0,
                column: 0,
                kind: RuleFaultKind::TooLong,
            },
            answers,
        ),
        Err(CodeFault::NoMemory) => Err(AllocError),
    }
}

/// Answers a text of rules: its first fault, or how many rules it has.
pub(crate) fn explain_text(
    alloc: Global,
    text: &[u8],
    answers: &mut Vec<u8>,
) -> Result<Done, AllocError>
    ensures { IfOk result (λ done. Adds (λ answer. ExplainsRules text.now answer done) answers.old.items answers.new.items) }
{
    match read_with_places(alloc, text) {
        Ok(placed_rules) => explain_placed_rules(alloc, text, &placed_rules, answers),
        Err(
            RuleFault {
                kind: RuleFaultKind::NoMemory,
                ..
            },
        ) => Err(AllocError),
        Err(fault) => explain_fault(alloc, text, fault, answers),
    }
}

/// The answerer that explains a text of rules.
struct Rules;

impl Answerer for Rules {
    ghost use Rattle.std.proofs.Common.{inl};
    ghost use Rattle.cmd_explain_rules.specs.RulesExplained.{ExplainsRules, MayExplain};
    ghost use Rattle.cmd_explain_rules.specs.inner.SomeAnswer.{may-explain};

    ghost prints = { λ rules. ExplainsRules };

    ghost allows = { λ rules. MayExplain };

    fn answer(&self, alloc: Global, octets: &[u8], answers: &mut Vec<u8>) -> Answered {
        explain_text(alloc, octets, answers)
    }

    ghost is_wider = { λ rules text answer done prints. inl prints };

    ghost is_total = { λ rules text. may-explain text };
}

/// Answers a text of rules, the whole input: the fault line of `upc-lab rules`, or that there is no fault. docs/LAB.md has the format.
///
/// # Errors
///
/// See [`text_io::RunFault`].
pub fn explain_rules<I: Input, O: Output>(alloc: Global, input: &mut I, output: &mut O) -> Ending
    ensures served { IsServed MayBeRulesExplained I.Input input.old input.new O.Output output.old output.new result }
    ensures printed { I.is_known → O.is_known → IfOk result (λ done.
        Adds (λ answer. IsRulesExplained (I.rest input.old) answer done) (O.held output.old) (O.held output.new)) }
{
    answer_whole(alloc, input, output, MOST_RULES_OCTETS, TOO_LONG, &Rules)
}

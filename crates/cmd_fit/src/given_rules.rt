//! The rules that are given.

ghost use Rattle.std.specs.Prelude.{◌≡◌, ◌++◌, IfOk, option_map};
ghost use Rattle.cmd_fit.specs.RulesGiven.{read_from, rules_given, rules_mark};
ghost use Rattle.cmd_fit.specs.inner.RulesHeld.{rules_kept};
ghost use Rattle.cmd_rules.specs.RuleFaults.{rule_fault};
ghost use Rattle.rules_text.specs.TextOfRules.{rules_in};
ghost use Rattle.text_words.specs.FaultLines.{too_long};

use crate::cell_values::CellValues;
use cmd_rules::{MOST_RULES_OCTETS, add_rule_fault};
use rules_text::{RuleFault, RuleFaultKind, read_rules};
use std::alloc::{AllocError, Global};
use text_words::{add_text, add_too_long};

/// What was read of the rules that are given.
#[derive(Drop)]
pub(crate) enum GivenRules {
    /// The rules, if any are given.
    Held(Option<CellValues>),
    /// The answer to a text with a fault.
    Faulty(Vec<u8>),
}

/// Returns the answer to a text with this fault.
#[tactic(auto, using(std::proofs::lemmas::List::append_assoc))]
fn fault_answer(alloc: Global, fault: RuleFault) -> Result<Vec<u8>, AllocError>
    ensures { IfOk result (λ answer. answer.items ≡ rules_mark ++ rule_fault fault) }
{
    let mut answer = Vec::new(alloc);
    add_text(&mut answer, b"rules: ")?;
    add_rule_fault(&mut answer, fault)?;
    Ok(answer)
}

/// Returns the answer to a text that is over the limit.
#[tactic(auto, using(std::proofs::lemmas::List::append_assoc))]
fn too_long_answer(alloc: Global) -> Result<Vec<u8>, AllocError>
    ensures { IfOk result (λ answer. answer.items ≡ rules_mark ++ too_long) }
{
    let mut answer = Vec::new(alloc);
    add_text(&mut answer, b"rules: ")?;
    add_too_long(&mut answer)?;
    Ok(answer)
}

/// Reads a text of rules.
fn read_text(alloc: Global, text: &[u8]) -> Result<GivenRules, AllocError>
    ensures { IfOk result (λ given. rules_kept given ≡ read_from (rules_in text.now)) }
{
    match read_rules(alloc, text) {
        Ok(rules) => {
            let values = CellValues::new(alloc, rules)?;
            Ok(GivenRules::Held(Some(values)))
        }
        Err(
            RuleFault {
                kind: RuleFaultKind::NoMemory,
                ..
            },
        ) => Err(AllocError),
        Err(fault) => {
            let answer = fault_answer(alloc, fault)?;
            Ok(GivenRules::Faulty(answer))
        }
    }
}

/// Reads the rules in the octets of a file, if one is given.
pub(crate) fn read_given(alloc: Global, octets: Option<&[u8]>) -> Result<GivenRules, AllocError>
    ensures { IfOk result (λ given. rules_kept given ≡ rules_given (option_map (λ text. text.now) octets.entry)) }
{
    let Some(text) = octets else {
        return Ok(GivenRules::Held(None));
    };
    if text.len() > MOST_RULES_OCTETS as usize {
        let answer = too_long_answer(alloc)?;
        Ok(GivenRules::Faulty(answer))
    } else {
        read_text(alloc, text)
    }
}

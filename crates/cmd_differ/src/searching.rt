//! `upc-lab unused`: names the rules of a text that decide no cell.

ghost use Rattle.std.specs.Prelude.{◌≡◌, IfOk, option_map};
ghost use Rattle.rules_diagrams.specs.UnusedRules.{AreUnused};
ghost use Rattle.rules_text.specs.RulesInMemory.{placed_rules_read};
ghost use Rattle.text_io.specs.Devices.{Adds};
ghost use Rattle.text_io.specs.Serving.{IsServed};
ghost use Rattle.cmd_differ.specs.Findings.{ended_by};
ghost use Rattle.cmd_differ.specs.UnusedText.{IsSearched, IsUnusedAnswer, IsUnusedText, PrintsSearch, PrintsUnused, unused_finding};

use crate::finding::Finding;
use crate::giving::give_finding;
use crate::reading::{Which, read_found};
use crate::unused_lines::add_unused_text;
use cmd_rules::MOST_RULES_OCTETS;
use rules_diagrams::{Undecided, Unused, unused_rules};
use rules_text::PlacedRules;
use std::alloc::{AllocError, Global};
use text_io::{Input, Output, RunFault, gather};
use text_words::add_text;

/// Returns whether some rule decides no cell.
fn finding_of(unused: &[Unused]) -> Finding
    ensures { result ≡ unused_finding unused.now }
{
    match unused {
        [] => Finding::Nothing,
        [_, ..] => Finding::Something,
    }
}

/// Appends the rules that decide no cell, or that there is none.
fn add_searched(
    answers: &mut Vec<u8>,
    placed_rules: &PlacedRules,
    unused: &[Unused],
) -> Result<Finding, AllocError>
    requires { AreUnused placed_rules.now.rules unused.now }
    ensures { IfOk result (λ finding. Adds (λ answer. IsSearched (placed_rules_read placed_rules.now) answer finding) answers.old.items answers.new.items) }
{
    add_unused_text(answers, &placed_rules.begins, unused)?;
    Ok(finding_of(unused))
}

/// Appends the rules that decide no cell, or that there is none, or that nothing is decided.
fn add_search(
    alloc: Global,
    answers: &mut Vec<u8>,
    placed_rules: &PlacedRules,
) -> Result<Finding, AllocError>
    ensures { IfOk result (λ finding. Adds (λ answer. PrintsSearch (placed_rules_read placed_rules.now) answer finding) answers.old.items answers.new.items) }
{
    match unused_rules(alloc, &placed_rules.rules) {
        Ok(unused) => add_searched(answers, placed_rules, &unused),
        Err(Undecided::TooLarge) => {
            add_text(answers, b"not decided: too many cases\n")?;
            Ok(Finding::Undecided)
        }
        Err(Undecided::NoMemory) => Err(AllocError),
    }
}

/// Appends the answer to a text: its fault, or the rules that decide no cell.
fn add_unused_of(
    alloc: Global,
    found: Option<Vec<u8>>,
    answers: &mut Vec<u8>,
) -> Result<Finding, AllocError>
    ensures { IfOk result (λ finding. Adds (λ answer. PrintsUnused (option_map (λ text. text.items) found) answer finding) answers.old.items answers.new.items) }
{
    let Some(placed_rules) = read_found(alloc, Which::Only, found, answers)? else {
        return Ok(Finding::Faulty);
    };
    add_search(alloc, answers, &placed_rules)
}

/// Finds the rules of a text, the whole input, that decide no cell. The answer has a line for each, with the rules before it that decide
/// the cells of which it holds, or says that there is none. A text with a fault is answered by the fault. docs/RULES.md has the format.
///
/// # Errors
///
/// See [`RunFault`].
pub fn unused_in_text<I: Input, O: Output>(
    alloc: Global,
    input: &mut I,
    output: &mut O,
) -> Result<Finding, RunFault>
    ensures served { IsServed IsUnusedAnswer I.Input input.old input.new O.Output output.old output.new (ended_by result) }
    ensures printed { I.is_known → O.is_known → IfOk result (λ finding.
        Adds (λ answer. IsUnusedText (I.rest input.old) answer finding) (O.held output.old) (O.held output.new)) }
{
    let found = match gather(alloc, input, MOST_RULES_OCTETS) {
        Ok(found) => found,
        Err(fault) => return Err(fault),
    };
    let mut answers = Vec::new(alloc);
    match add_unused_of(alloc, found, &mut answers) {
        Err(_) => Err(RunFault::NoMemory),
        Ok(finding) => give_finding(output, &mut answers, finding),
    }
}

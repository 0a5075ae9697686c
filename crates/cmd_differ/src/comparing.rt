//! `upc-lab differ`: compares two texts, each of rules or with a program.

ghost use Rattle.std.specs.Prelude.{◌≡◌, ◌++◌, IfOk, OnOk, option_map};
ghost use Rattle.cmd_rules.specs.RulesAnswers.{most_rules_octets};
ghost use Rattle.text_io.specs.Devices.{Adds};
ghost use Rattle.text_io.specs.Gathered.{gathered};
ghost use Rattle.text_io.specs.Serving.{IsServed};
ghost use Rattle.cmd_differ.specs.DifferText.{AreSideCases, IsDecided, IsDifferAnswer, IsDifferText, PrintsComparison, PrintsDiffer, not_followed};
ghost use Rattle.cmd_differ.specs.Findings.{ended_by};
ghost use Rattle.cmd_differ.specs.inner.Readings.{which_mark};
ghost use Rattle.cmd_differ.specs.inner.SidesRead.{side_read};

use crate::change_lines::add_cases;
use crate::finding::Finding;
use crate::giving::give_finding;
use crate::kinds::TextKinds;
use crate::reading::{Which, add_which, read_new, read_old};
use crate::sides::{SideText, side_cases};
use cmd_rules::MOST_RULES_OCTETS;
use rules_diagrams::{Case, Uncompared, Undecided, give_same};
use std::alloc::{AllocError, Global};
use text_io::{Input, Output, RunFault, gather};
use text_words::{add_numbered, add_text};

/// Appends the comparison of two sides, by all cases.
#[tactic(auto, using(std::proofs::lemmas::List::append_assoc))]
fn add_decided(
    answers: &mut Vec<u8>,
    lines: bool,
    old: &SideText,
    new: &SideText,
    cases: &[Case],
) -> Result<Finding, AllocError>
    requires { AreSideCases (side_read old.now) (side_read new.now) cases.now }
    ensures { IfOk result (λ finding.
        Adds (λ answer. IsDecided lines (side_read old.now) (side_read new.now) answer finding) answers.old.items answers.new.items) }
{
    if give_same(cases) {
        add_text(answers, b"same on every cell\n")?;
        add_cases(answers, lines, old, new, cases)?;
        Ok(Finding::Nothing)
    } else {
        add_cases(answers, lines, old, new, cases)?;
        Ok(Finding::Something)
    }
}

/// Appends that a program isn't followed at the instruction at this place.
#[tactic(auto, using(std::proofs::lemmas::List::append_assoc))]
fn add_not_followed(answers: &mut Vec<u8>, which: Which, place: usize) -> Result<(), AllocError>
    ensures { OnOk result (answers.new.items ≡ answers.old.items ++ (which_mark which ++ not_followed place)) }
{
    add_which(answers, which)?;
    add_numbered(answers, b"not decided at instruction ", place)
}

/// Appends the comparison of two sides, or that it isn't decided.
fn add_comparison(
    alloc: Global,
    answers: &mut Vec<u8>,
    lines: bool,
    old: &SideText,
    new: &SideText,
) -> Result<Finding, AllocError>
    ensures { IfOk result (λ finding.
        Adds (λ answer. PrintsComparison lines (side_read old.now) (side_read new.now) answer finding) answers.old.items answers.new.items) }
{
    match side_cases(alloc, old, new) {
        Ok(cases) => return add_decided(answers, lines, old, new, &cases),
        Err(Uncompared::Old(place)) => add_not_followed(answers, Which::Old, place)?,
        Err(Uncompared::New(place)) => add_not_followed(answers, Which::New, place)?,
        Err(Uncompared::Undecided(Undecided::TooLarge)) => {
            add_text(answers, b"not decided: too many cases\n")?;
        }
        Err(Uncompared::Undecided(Undecided::NoMemory)) => return Err(AllocError),
    }
    Ok(Finding::Undecided)
}

/// Appends the answer to two texts: the fault of one, or their comparison.
fn add_differ(
    alloc: Global,
    kinds: TextKinds,
    lines: bool,
    old: &[u8],
    new: Option<Vec<u8>>,
    answers: &mut Vec<u8>,
) -> Result<Finding, AllocError>
    ensures { IfOk result (λ finding.
        Adds (λ answer. PrintsDiffer kinds lines (gathered most_rules_octets old.now) (option_map (λ text. text.items) new) answer finding)
        answers.old.items answers.new.items) }
{
    let Some(was) = read_old(alloc, kinds.old, old, answers)? else {
        return Ok(Finding::Faulty);
    };
    let Some(changed) = read_new(alloc, kinds.new, new, answers)? else {
        return Ok(Finding::Faulty);
    };
    add_comparison(alloc, answers, lines, &was, &changed)
}

/// Compares two texts: the old one, and the new one, which is the whole input. Each is rules or a program in hexadecimal, by its kind. The
/// answer says that both give each cell the same value; or it lists each pair of decisions with different values that some cell gets, with
/// the least such cell, in the order of these cells. A decision is a line of rules or `otherwise`, or a value of a program. With `lines` the
/// answer also lists pairs whose values agree, unless both are lines of rules that begin at one place, or both are `otherwise`. The answer
/// to a text with a fault is the fault. If a program can't be followed, the answer is the place of the instruction at which that fails. docs/RULES.md has the format.
///
/// # Errors
///
/// See [`RunFault`].
pub fn compare_texts<I: Input, O: Output>(
    alloc: Global,
    kinds: TextKinds,
    old: &[u8],
    lines: bool,
    input: &mut I,
    output: &mut O,
) -> Result<Finding, RunFault>
    ensures served { IsServed (IsDifferAnswer kinds lines old.now) I.Input input.old input.new O.Output output.old output.new (ended_by result) }
    ensures printed { I.is_known → O.is_known → IfOk result (λ finding.
        Adds (λ answer. IsDifferText kinds lines old.now (I.rest input.old) answer finding) (O.held output.old) (O.held output.new)) }
{
    let found = match gather(alloc, input, MOST_RULES_OCTETS) {
        Ok(found) => found,
        Err(fault) => return Err(fault),
    };
    let mut answers = Vec::new(alloc);
    match add_differ(alloc, kinds, lines, old, found, &mut answers) {
        Err(_) => Err(RunFault::NoMemory),
        Ok(finding) => give_finding(output, &mut answers, finding),
    }
}

//! Reads the texts that are compared or searched, or appends their faults.

ghost use Rattle.std.specs.Prelude.{◌≡◌, ◌++◌, IfOk, None, OnOk, Some, option_map};
ghost use Rattle.text_io.specs.Gathered.{gathered};
ghost use Rattle.cmd_rules.specs.RulesAnswers.{most_rules_octets};
ghost use Rattle.text_words.specs.FaultLines.{too_long};
ghost use Rattle.cmd_differ.specs.declared.kinds.TextKind.TheVariants.{Program};
ghost use Rattle.cmd_differ.specs.inner.Readings.{ReadsSide, ReadsText, which_mark};

use crate::kinds::TextKind;
use crate::program_text::program_in;
use crate::sides::SideText;
use cmd_rules::{MOST_RULES_OCTETS, add_rule_fault};
use rules_text::{PlacedRules, RuleFault, RuleFaultKind, read_with_places};
use std::alloc::{AllocError, Global};
use text_words::{add_text, add_too_long};

/// One of two texts, or the only one.
#[derive(Clone, Copy)]
pub(crate) enum Which {
    /// The text before the change.
    Old,
    /// The text after it.
    New,
    /// The only text.
    Only,
}

/// Appends the mark before an answer about one of two texts: `old: ` or `new: `. The only text of `unused` has none.
pub(crate) fn add_which(answers: &mut Vec<u8>, which: Which) -> Result<(), AllocError>
    ensures { OnOk result (answers.new.items ≡ answers.old.items ++ which_mark which) }
{
    match which {
        Which::Old => add_text(answers, b"old: "),
        Which::New => add_text(answers, b"new: "),
        Which::Only => Ok(()),
    }
}

/// Reads a text of rules, or appends its fault.
#[tactic(auto, using(std::proofs::lemmas::List::append_assoc))]
fn read_text(
    alloc: Global,
    which: Which,
    text: &[u8],
    answers: &mut Vec<u8>,
) -> Result<Option<PlacedRules>, AllocError>
    ensures { IfOk result (ReadsText which (Some text.now) answers.old.items answers.new.items) }
{
    match read_with_places(alloc, text) {
        Ok(placed_rules) => Ok(Some(placed_rules)),
        Err(
            RuleFault {
                kind: RuleFaultKind::NoMemory,
                ..
            },
        ) => Err(AllocError),
        Err(fault) => {
            add_which(answers, which)?;
            add_rule_fault(answers, fault)?;
            Ok(None)
        }
    }
}

/// Appends that a text is over the limit.
#[tactic(auto, using(std::proofs::lemmas::List::append_assoc))]
fn add_too_long_of(answers: &mut Vec<u8>, which: Which) -> Result<(), AllocError>
    ensures { OnOk result (answers.new.items ≡ answers.old.items ++ (which_mark which ++ too_long)) }
{
    add_which(answers, which)?;
    add_too_long(answers)
}

/// Reads a text of the input, or appends its fault. `found` is None if the text is over the limit.
pub(crate) fn read_found(
    alloc: Global,
    which: Which,
    found: Option<Vec<u8>>,
    answers: &mut Vec<u8>,
) -> Result<Option<PlacedRules>, AllocError>
    ensures { IfOk result (ReadsText which (option_map (λ text. text.items) found) answers.old.items answers.new.items) }
{
    match found {
        Some(text) => read_text(alloc, which, &text, answers),
        None => {
            add_too_long_of(answers, which)?;
            Ok(None)
        }
    }
}

/// Reads a text with a program, or appends its fault.
#[tactic(auto, using(std::proofs::lemmas::List::append_assoc))]
fn read_program(
    alloc: Global,
    which: Which,
    text: &[u8],
    answers: &mut Vec<u8>,
) -> Result<Option<SideText>, AllocError>
    ensures { IfOk result (ReadsSide Program which (Some text.now) answers.old.items answers.new.items) }
{
    let mut fault = Vec::new(alloc);
    match program_in(alloc, text, &mut fault)? {
        Some(code) => Ok(Some(SideText::Program(code))),
        None => {
            add_which(answers, which)?;
            add_text(answers, &fault)?;
            Ok(None)
        }
    }
}

/// Reads a text of this kind, or appends its fault.
fn read_side(
    alloc: Global,
    kind: TextKind,
    which: Which,
    text: &[u8],
    answers: &mut Vec<u8>,
) -> Result<Option<SideText>, AllocError>
    ensures { IfOk result (ReadsSide kind which (Some text.now) answers.old.items answers.new.items) }
{
    match kind {
        TextKind::Program => read_program(alloc, which, text, answers),
        TextKind::Rules => match read_text(alloc, which, text, answers)? {
            Some(placed_rules) => Ok(Some(SideText::Rules(placed_rules))),
            None => Ok(None),
        },
    }
}

/// Appends that the text of a side is over the limit.
fn add_too_long_side(
    answers: &mut Vec<u8>,
    kind: TextKind,
    which: Which,
) -> Result<Option<SideText>, AllocError>
    ensures { IfOk result (ReadsSide kind which None answers.old.items answers.new.items) }
{
    // Both kinds have the same answer. The contract is defined by cases of the kind, so the proof needs the cases.
    match kind {
        TextKind::Program | TextKind::Rules => {
            add_too_long_of(answers, which)?;
            Ok(None)
        }
    }
}

/// Reads the old text, or appends its fault.
pub(crate) fn read_old(
    alloc: Global,
    kind: TextKind,
    text: &[u8],
    answers: &mut Vec<u8>,
) -> Result<Option<SideText>, AllocError>
    ensures { IfOk result (ReadsSide kind Which.Old (gathered most_rules_octets text.now) answers.old.items answers.new.items) }
{
    if text.len() > MOST_RULES_OCTETS as usize {
        add_too_long_side(answers, kind, Which::Old)
    } else {
        read_side(alloc, kind, Which::Old, text, answers)
    }
}

/// Reads the new text, or appends its fault. `found` is None if the text is over the limit.
pub(crate) fn read_new(
    alloc: Global,
    kind: TextKind,
    found: Option<Vec<u8>>,
    answers: &mut Vec<u8>,
) -> Result<Option<SideText>, AllocError>
    ensures { IfOk result (ReadsSide kind Which.New (option_map (λ text. text.items) found) answers.old.items answers.new.items) }
{
    match found {
        Some(text) => read_side(alloc, kind, Which::New, &text, answers),
        None => add_too_long_side(answers, kind, Which::New),
    }
}

//! A setup script with the programs of its files of rules.

ghost use Rattle.std.specs.Prelude.{◌≡◌, ◌++◌, IfOk, OnOk};
ghost use Rattle.cmd_police.specs.FaultyRules.{rules_place};
ghost use Rattle.cmd_police.specs.RulesFiles.{later_texts, next_text};
ghost use Rattle.cmd_setups.specs.SharedTexts.{octets_of_texts};
ghost use Rattle.cmd_police.specs.inner.Expansion.{ExpandsTo};

use crate::compiling::{ToldFault, add_program_of};
use cmd_explain_script::{add_place, add_quoted};
use cmd_setups::{SharedText, has_rules, name_within, next_line};
use std::alloc::{AllocError, Global};
use text_io::Added;
use text_words::add_text;

/// What compiling the rules that a setup script names leads to.
#[derive(Drop)]
pub(crate) enum Expanded {
    /// The script itself, which names no rules.
    Itself,
    /// The script with the programs of its rules.
    Replaced(Vec<u8>),
    /// Rules with a fault, and the text about them.
    Faulty(Vec<u8>),
}

/// Returns the first of the texts that are left, or an empty one if none is.
pub(crate) fn next_text(texts: &[SharedText]) -> &[u8]
    ensures { result.now ≡ next_text (octets_of_texts texts.now) }
{
    match texts {
        [text, ..] => text.as_slice(),
        [] => &[],
    }
}

/// Returns the texts that are left after the first of them.
pub(crate) fn later_texts(texts: &[SharedText]) -> &[SharedText]
    ensures { octets_of_texts result.now ≡ later_texts (octets_of_texts texts.now) }
{
    match texts {
        [_, rest @ ..] => rest,
        [] => texts,
    }
}

/// Appends the line that says which line of the script names the rules, and what is wrong in them.
#[tactic(auto, using(std::proofs::lemmas::List::append_assoc))]
fn add_rules_place(answers: &mut Vec<u8>, number: usize, name: &[u8], reason: &[u8]) -> Added
    ensures { OnOk result (answers.new.items ≡ answers.old.items ++ rules_place number name.now reason.now) }
{
    add_place(answers, number, None)?;
    add_text(answers, b"in the rules of ")?;
    add_quoted(answers, name)?;
    add_text(answers, b": ")?;
    add_text(answers, reason)
}

/// Returns the report about rules that the line of this number names.
fn faulty_text(told: ToldFault, number: usize, name: &[u8]) -> Result<Vec<u8>, AllocError>
    ensures { IfOk result (λ text. text.items ≡ told.line.items ++ rules_place number name.now told.reason.items) }
{
    let mut text = told.line;
    add_rules_place(&mut text, number, name, &told.reason)?;
    Ok(text)
}

/// Returns a script with the line that loads a program of its text in place of each line `rules NAME`. If a text has a fault, it returns
/// the report about the first such text.
fn replaced(alloc: Global, script: &[u8], texts: &[SharedText]) -> Result<Expanded, AllocError>
    ensures { IfOk result (ExpandsTo script.now (octets_of_texts texts.now)) }
{
    let mut made = Vec::new(alloc);
    let mut left = script;
    let mut texts_left = texts;
    let mut number = 0;
    while let Some((line, size, octets, rest)) = next_line(left) {
        number += 1;
        match name_within(line, size) {
            None => add_text(&mut made, octets)?,
            Some(name) => {
                if let Some(told) = add_program_of(alloc, &mut made, next_text(texts_left))? {
                    return Ok(Expanded::Faulty(faulty_text(told, number, name)?));
                }
                texts_left = later_texts(texts_left);
            }
        }
        left = rest;
    }
    Ok(Expanded::Replaced(made))
}

/// Compiles the rules that a setup script names, and puts the programs into the script. A script that names none isn't copied.
pub(crate) fn expand_setup(
    alloc: Global,
    script: &[u8],
    texts: &[SharedText],
) -> Result<Expanded, AllocError>
    ensures { IfOk result (ExpandsTo script.now (octets_of_texts texts.now)) }
{
    if !has_rules(script) {
        return Ok(Expanded::Itself);
    }
    replaced(alloc, script, texts)
}

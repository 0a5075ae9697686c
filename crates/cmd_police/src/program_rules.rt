//! The rules from which the programs of a setup script are compiled.

ghost use Rattle.std.specs.Prelude.{◌≡◌, IfOk, option_map};
ghost use Rattle.rules_text.specs.TextOfRules.{placed_rules_in};
ghost use Rattle.text_io.specs.Lines.{lines_of};
ghost use Rattle.cmd_police.specs.LoadedRules.{is_load_line, loaded_rules, rules_of_file, shown_rules};
ghost use Rattle.cmd_setups.specs.SharedTexts.{octets_of_texts};
ghost use Rattle.cmd_police.specs.StoredRules.{all_rules_stored, rules_stored, shown_stored};

use crate::expanding::{later_texts, next_text};
use cmd_rules::Decider;
use cmd_setups::{SharedText, add_escaped_name, name_within, next_line};
use rules_text::{RuleFault, RuleFaultKind};
use std::alloc::{AllocError, Global};
use text_io::first_word;

/// The rules of a program.
#[derive(Drop)]
pub struct ProgramRules {
    /// The name of their file, as it is printed.
    pub name: Vec<u8>,
    /// Which of their lines decides a cell.
    pub decider: Decider,
}

/// The rules of a script's programs.
#[derive(Drop)]
pub struct LoadedRules {
    /// Those of each program, in the order in which they are loaded. One that wasn't compiled from a file of rules has none.
    pub programs: Vec<Option<ProgramRules>>,
}

/// Returns whether the first word of a line is `load`.
#[tactic(auto, unfolding(crate::specs::LoadedRules::is_load_line))]
fn is_load_line(line: &[u8]) -> bool
    ensures { result ≡ is_load_line line.now }
{
    match first_word(line) {
        Some((word, _)) => word == b"load".as_slice(),
        None => false,
    }
}

/// Reads the rules of a file with this name. A text with a fault has none.
fn rules_of_file(
    alloc: Global,
    name: &[u8],
    text: &[u8],
) -> Result<Option<ProgramRules>, AllocError>
    ensures { IfOk result (λ found. option_map rules_stored found ≡ rules_of_file name.now (placed_rules_in text.now)) }
{
    match Decider::read(alloc, text) {
        Ok(decider) => {
            let mut printed = Vec::new(alloc);
            add_escaped_name(alloc, &mut printed, name)?;
            Ok(Some(ProgramRules {
                name: printed,
                decider,
            }))
        }
        Err(
            RuleFault {
                kind: RuleFaultKind::NoMemory,
                ..
            },
        ) => Err(AllocError),
        Err(_) => Ok(None),
    }
}

/// Reads the rules of each program that a script loads, whose lines name the files of these texts.
fn loaded_rules(
    alloc: Global,
    script: &[u8],
    texts: &[SharedText],
) -> Result<LoadedRules, AllocError>
    ensures { IfOk result (λ made. all_rules_stored made ≡ loaded_rules (lines_of script.now) (octets_of_texts texts.now)) }
{
    let mut programs = Vec::new(alloc);
    let mut left = script;
    let mut texts_left = texts;
    while let Some((line, size, _, rest)) = next_line(left) {
        match name_within(line, size) {
            Some(name) => {
                programs.push(rules_of_file(alloc, name, next_text(texts_left))?)?;
                texts_left = later_texts(texts_left);
            }
            None => {
                if is_load_line(line) {
                    programs.push(None)?;
                }
            }
        }
        left = rest;
    }
    Ok(LoadedRules { programs })
}

/// Reads the rules that lines about cells show, if they are asked for.
pub(crate) fn shown_rules(
    alloc: Global,
    why: bool,
    script: &[u8],
    texts: &[SharedText],
) -> Result<Option<LoadedRules>, AllocError>
    ensures { IfOk result (λ made. shown_stored made ≡ shown_rules why script.now (octets_of_texts texts.now)) }
{
    if !why {
        return Ok(None);
    }
    Ok(Some(loaded_rules(alloc, script, texts)?))
}

//! The program of a text of rules.

ghost use Rattle.std.specs.Prelude.{◌≡◌, ◌++◌, IfOk, OnOk, MatchOption};
ghost use Rattle.std.specs.String.{string_bytes};
ghost use Rattle.hex.specs.Hex.{IsBytes, encode_lower};
ghost use Rattle.cmd_explain_rules.specs.RuleReasons.{rule_explanation};
ghost use Rattle.cmd_rules.specs.RuleFaults.{rule_fault};
ghost use Rattle.text_words.specs.FaultLines.{too_long};
ghost use Rattle.cmd_police.specs.RulesFiles.{IsFaultOfRules, IsReadAgain, program_digits, too_large_text};
ghost use Rattle.cmd_police.specs.SetupPrograms.{load_line};
ghost use Rattle.cmd_police.specs.inner.Expansion.{CompilesTo, GrowsByProgram};

use bpf_code::{Instr, encode};
use cmd_explain_rules::add_rule_explanation;
use cmd_rules::add_rule_fault;
use rules_text::{RuleFault, RuleFaultKind, compile_text};
use std::alloc::{AllocError, Global};
use text_words::{add_text, add_too_long};

/// The maximum number of octets of a text of rules, as `upc-lab rules` has it.
const MOST_RULES_OCTETS: usize = 1048576;

/// The lines about a fault of rules.
#[derive(Drop)]
pub(crate) struct ToldFault {
    /// The fault line.
    pub line: Vec<u8>,
    /// Its explanation.
    pub reason: Vec<u8>,
}

/// What a text of rules leads to.
#[derive(Drop)]
pub(crate) enum Compiled {
    /// A program.
    Program(Vec<Instr>),
    /// A fault.
    Faulty(ToldFault),
}

/// Returns the lines about a fault of a text.
fn told_fault(alloc: Global, text: &[u8], fault: RuleFault) -> Result<ToldFault, AllocError>
    ensures line { IfOk result (λ told. told.line.items ≡ rule_fault fault) }
    ensures reason { IfOk result (λ told. told.reason.items ≡ rule_explanation text.now fault) }
{
    let mut line = Vec::new(alloc);
    add_rule_fault(&mut line, fault)?;
    let mut reason = Vec::new(alloc);
    add_rule_explanation(alloc, &mut reason, text, fault)?;
    Ok(ToldFault { line, reason })
}

/// Returns the lines about a text over the limit.
fn told_too_large(alloc: Global) -> Result<ToldFault, AllocError>
    ensures line { IfOk result (λ told. told.line.items ≡ too_long) }
    ensures reason { IfOk result (λ told. told.reason.items ≡ too_large_text) }
{
    let mut line = Vec::new(alloc);
    add_too_long(&mut line)?;
    let mut reason = Vec::new(alloc);
    add_text(&mut reason, b"a text of rules has at most 1048576 octets\n")?;
    Ok(ToldFault { line, reason })
}

/// Compiles a text of rules.
fn program_or_fault(alloc: Global, text: &[u8]) -> Result<Compiled, AllocError>
    ensures { IfOk result (CompilesTo text.now) }
{
    if text.len() > MOST_RULES_OCTETS {
        return Ok(Compiled::Faulty(told_too_large(alloc)?));
    }
    match compile_text(alloc, text) {
        Ok(code) => Ok(Compiled::Program(code)),
        Err(
            RuleFault {
                kind: RuleFaultKind::NoMemory,
                ..
            },
        ) => Err(AllocError),
        Err(fault) => Ok(Compiled::Faulty(told_fault(alloc, text, fault)?)),
    }
}

/// Returns octets in lower case hexadecimal digits.
fn digits_of(alloc: Global, octets: &[u8]) -> Result<String, AllocError>
    ensures digits { IfOk result (λ digits. string_bytes digits ≡ encode_lower octets.now) }
    ensures octets { IsBytes octets.now }
{
    Ok(hex::encode(alloc, octets)?)
}

/// Returns the octets of a code in hexadecimal digits, from which the code is read again when the line is carried out.
fn program_digits(alloc: Global, code: &[Instr]) -> Result<String, AllocError>
    ensures digits { IfOk result (λ digits. string_bytes digits ≡ program_digits code.now) }
    ensures read_again { OnOk result (IsReadAgain code.now) }
{
    match encode(alloc, code) {
        Ok(octets) => digits_of(alloc, &octets),
        Err(_) => Err(AllocError),
    }
}

/// Appends the line that loads a code.
#[tactic(auto, using(std::proofs::lemmas::List::append_assoc))]
fn add_load(alloc: Global, script: &mut Vec<u8>, code: &[Instr]) -> Result<(), AllocError>
    ensures line { OnOk result (script.new.items ≡ script.old.items ++ load_line code.now) }
    ensures read_again { OnOk result (IsReadAgain code.now) }
{
    let digits = program_digits(alloc, code)?;
    add_text(script, b"load ")?;
    add_text(script, digits.as_bytes())?;
    add_text(script, b"\n")
}

/// Compiles a text of rules, and appends the line that loads its program. Returns the lines about the fault
/// if the text has one.
pub(crate) fn add_program_of(
    alloc: Global,
    script: &mut Vec<u8>,
    text: &[u8],
) -> Result<Option<ToldFault>, AllocError>
    ensures { IfOk result (λ told. MatchOption told (GrowsByProgram text.now script.old.items script.new.items)
        (λ told. IsFaultOfRules text.now told.line.items told.reason.items)) }
{
    match program_or_fault(alloc, text)? {
        Compiled::Program(code) => {
            add_load(alloc, script, &code)?;
            Ok(None)
        }
        Compiled::Faulty(told) => Ok(Some(told)),
    }
}

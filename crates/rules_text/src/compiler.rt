//! The compiler from text to code.

ghost use Rattle.std.specs.Prelude.{List, IfOk, IfErr};
ghost use Rattle.bpf_verify.specs.Accepted.{IsAccepted};
ghost use Rattle.rules_cells.specs.Promise.{FollowsRules};
ghost use Rattle.rules_cells.specs.declared.rules.Rules.{Rules};
ghost use Rattle.rules_text.specs.PlacesOfText.{IsCodeWithPlaces};
ghost use Rattle.rules_text.specs.CodeOfText.{IsCodeOfText};
ghost use Rattle.rules_text.specs.RulesInMemory.{HasRules};
ghost use Rattle.rules_text.specs.TextFaults.{IsCompilingFault};
ghost use Rattle.rules_text.specs.ValuesRead.{FollowsText};

use crate::fault::{RuleFault, RuleFaultKind, fault_at};
use crate::place::RulePlace;
use crate::reader::{read_rules, read_with_places};
use bpf_code::Instr;
use rules_cells::{CodeFault, PlacedCode, compile, compile_placed};
use std::alloc::Global;

/// Compiles a text of rules: returns a code that gives each cell the value of the rules.
///
/// # Errors
///
/// The first fault of the text, as [`read_rules`] returns it. If the text has none, `TooLong` with line and column 0 if the code has more
/// than 4096 instructions. `NoMemory`, with line and column 0, if an allocation failed.
#[tactic(auto, using(crate::proofs::Values::follows_text))]
pub fn compile_text(alloc: Global, text: &[u8]) -> Result<Vec<Instr>, RuleFault>
    ensures accepted { IfOk result (λ code. IsAccepted code.items) }
    ensures value { IfOk result (λ code. (rules : Rules) × HasRules text.now rules × FollowsRules rules code.items) }
    ensures text { IfOk result (λ code. FollowsText text.now code.items) }
    ensures code { IfOk result (λ code. IsCodeOfText text.now code.items) }
    ensures fault { IfErr result (IsCompilingFault text.now) }
{
    let rules = read_rules(alloc, text)?;
    match compile(alloc, &rules) {
        Ok(code) => Ok(code),
        Err(CodeFault::TooLong) => Err(fault_at(RuleFaultKind::TooLong, 0, 0)),
        Err(CodeFault::NoMemory) => Err(fault_at(RuleFaultKind::NoMemory, 0, 0)),
    }
}

/// The code of a text of rules, and for each line of rules where its code begins and where the line begins in the text.
#[derive(Drop)]
pub struct CodeWithPlaces {
    /// The code, and where the code of each line of rules begins.
    pub placed: PlacedCode,
    /// Where each line of rules begins in the text, in the order of the lines.
    pub begins: Vec<RulePlace>,
}

/// Compiles a text of rules: returns a code that gives each cell the value of the rules, and for each line of rules where its code begins
/// and where the line begins in the text.
///
/// # Errors
///
/// Those of [`compile_text`].
pub fn compile_with_places(alloc: Global, text: &[u8]) -> Result<CodeWithPlaces, RuleFault>
    ensures accepted { IfOk result (λ made. IsAccepted made.placed.code.items) }
    ensures text { IfOk result (λ made. FollowsText text.now made.placed.code.items) }
    ensures places { IfOk result (IsCodeWithPlaces text.now) }
    ensures fault { IfErr result (IsCompilingFault text.now) }
{
    let placed_rules = read_with_places(alloc, text)?;
    match compile_placed(alloc, &placed_rules.rules) {
        Ok(placed) => Ok(CodeWithPlaces {
            placed,
            begins: placed_rules.begins,
        }),
        Err(CodeFault::TooLong) => Err(fault_at(RuleFaultKind::TooLong, 0, 0)),
        Err(CodeFault::NoMemory) => Err(fault_at(RuleFaultKind::NoMemory, 0, 0)),
    }
}

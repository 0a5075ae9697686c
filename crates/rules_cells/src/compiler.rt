//! The compiler of rules.

ghost use Rattle.std.specs.Prelude.{◌≡◌, ◌<◌, ◌≤◌, List, length, Err, IfOk};
ghost use Rattle.bpf_verify.specs.Accepted.{IsAccepted};
ghost use Rattle.rules_code.specs.LineCode.{lines_code};
ghost use Rattle.rules_code.specs.LinePlaces.{line_starts_from_end};
ghost use Rattle.rules_code.specs.declared.lines.Line.{Line};
ghost use Rattle.rules_cells.specs.Promise.{FollowsRules};
ghost use Rattle.rules_cells.specs.PlainOf.{ArePlainLines};

use crate::plain::line_of;
use crate::rules::{RuleLine, Rules};
use bpf_code::Instr;
use rules_code::{CodeFault, Line, PlacedCode, generate, generate_placed};
use std::alloc::{AllocError, Global};
use upc_cell::Side;

/// The lines of tests on octets that lines of rules become.
fn lines_of(alloc: Global, side: Side, lines: &[RuleLine]) -> Result<Vec<Line>, AllocError>
    ensures { IfOk result (λ plain. ArePlainLines side lines.now plain.items) }
{
    let mut plain = Vec::new(alloc);
    for line in lines {
        plain.push(line_of(alloc, side, line)?)?;
    }
    Ok(plain)
}

/// Compiles rules: returns a code that gives each cell their value.
///
/// # Errors
///
/// `NoMemory` if an allocation failed. Otherwise `TooLong` exactly if the code that is defined for the rules has more than
/// 4096 instructions: the code of the lines that they become (`ArePlainLines`, `lines_code`).
pub fn compile(alloc: Global, rules: &Rules) -> Result<Vec<Instr>, CodeFault>
    ensures accepted { IfOk result (λ code. IsAccepted code.items) }
    ensures value { IfOk result (λ code. FollowsRules rules.now code.items) }
    ensures code { IfOk result (λ code. (lines : List Line) × ArePlainLines rules.now.side rules.now.lines.items lines
        × (code.items ≡ lines_code lines rules.now.otherwise)) }
    ensures too_long { result ≡ Err CodeFault.TooLong → (lines : List Line)
        × ArePlainLines rules.now.side rules.now.lines.items lines × (4096 < length (lines_code lines rules.now.otherwise)) }
{
    match lines_of(alloc, rules.side, &rules.lines) {
        Ok(lines) => generate(alloc, &lines, rules.otherwise),
        Err(_) => Err(CodeFault::NoMemory),
    }
}

/// Compiles rules: returns a code that gives each cell their value, and where the code of each of their lines begins.
///
/// # Errors
///
/// Those of [`compile`].
pub fn compile_placed(alloc: Global, rules: &Rules) -> Result<PlacedCode, CodeFault>
    ensures accepted { IfOk result (λ placed. IsAccepted placed.code.items) }
    ensures value { IfOk result (λ placed. FollowsRules rules.now placed.code.items) }
    ensures code { IfOk result (λ placed. (lines : List Line) × ArePlainLines rules.now.side rules.now.lines.items lines
        × (placed.code.items ≡ lines_code lines rules.now.otherwise)
        × (placed.starts_from_end.items ≡ line_starts_from_end lines rules.now.otherwise)) }
    ensures too_long { result ≡ Err CodeFault.TooLong → (lines : List Line)
        × ArePlainLines rules.now.side rules.now.lines.items lines × (4096 < length (lines_code lines rules.now.otherwise)) }
{
    match lines_of(alloc, rules.side, &rules.lines) {
        Ok(lines) => generate_placed(alloc, &lines, rules.otherwise),
        Err(_) => Err(CodeFault::NoMemory),
    }
}

//! What an operation makes of what is known of a machine.

ghost use Rattle.std.specs.Prelude.{◌≤◌, IfOk, IfSome};
ghost use Rattle.bpf_code.specs.declared.instr.Instr.{Instr as Written};
ghost use Rattle.rules_diagrams.specs.inner.Following.{AreOperand, IsComputed, IsPutInto, IsOperand};
ghost use Rattle.rules_diagrams.specs.inner.Words.{IsBitwise};
ghost use Rattle.rules_diagrams.specs.declared.contents.Contents.{Contents as Known};
ghost use Rattle.rules_diagrams.specs.declared.contents.Register.{Register as Into};

use crate::contents::{Contents, Made};
use crate::word::{Bit, constant, constant_of, shifted_left, shifted_right};
use crate::word_results::bitwise;
use bpf_code::{By, Op};
use std::alloc::{AllocError, Global};

/// The operand, if it is a constant.
pub(crate) fn operand_constant(by: By, contents: &Contents) -> Option<u32>
    ensures { IfSome result (IsOperand by contents.now) }
{
    match by {
        By::Imm(k) => Some(k),
        By::X => constant_of(&contents.x),
    }
}

/// The bits of the operand.
fn operand(alloc: Global, by: By, contents: &Contents) -> Result<Vec<Bit>, AllocError>
    ensures { IfOk result (λ bits. AreOperand by contents.now bits.items) }
{
    match by {
        By::Imm(k) => constant(alloc, k, 32),
        By::X => contents.x.to_vec(alloc),
    }
}

/// A bitwise operation.
fn bits_operated(alloc: Global, op: Op, by: By, contents: &Contents) -> Result<Made, AllocError>
    requires { IsBitwise op }
    ensures { IfOk result (IsPutInto Into.A (Written.Alu op by) contents.now) }
{
    let other = operand(alloc, by, contents)?;
    match bitwise(alloc, op, &contents.a, &other)? {
        None => Ok(Made::Unknown),
        Some(bits) => Ok(Made::from_bits(bits)),
    }
}

/// A shift by 32 or more. The check of programs refuses such a constant, so in an accepted program the operand is X.
fn shifted_out(
    alloc: Global,
    op: Op,
    by: By,
    k: u32,
    contents: &Contents,
) -> Result<Made, AllocError>
    requires far { 32 ≤ k }
    requires operand { IsOperand by contents.now k }
    ensures { IfOk result (IsPutInto Into.A (Written.Alu op by) contents.now) }
{
    match by {
        By::Imm(_) => Ok(Made::Unknown),
        By::X => match op {
            Op::Lsh => Ok(Made::from_bits(constant(alloc, 0, 32)?)),
            Op::Rsh => Ok(Made::from_bits(constant(alloc, 0, 32)?)),
            Op::Add | Op::Sub | Op::Mul | Op::Div | Op::Or | Op::And | Op::Mod | Op::Xor => {
                Ok(Made::Unknown)
            }
        },
    }
}

/// A shift by a constant.
fn shifted(alloc: Global, op: Op, by: By, contents: &Contents) -> Result<Made, AllocError>
    ensures { IfOk result (IsPutInto Into.A (Written.Alu op by) contents.now) }
{
    let Some(k) = operand_constant(by, contents) else {
        return Ok(Made::Unknown);
    };
    if k >= 32 {
        return shifted_out(alloc, op, by, k, contents);
    }
    match op {
        Op::Lsh => Ok(Made::from_bits(shifted_left(alloc, &contents.a, k, 32)?)),
        Op::Rsh => Ok(Made::from_bits(shifted_right(alloc, &contents.a, k, k)?)),
        Op::Add | Op::Sub | Op::Mul | Op::Div | Op::Or | Op::And | Op::Mod | Op::Xor => {
            Ok(Made::Unknown)
        }
    }
}

/// The result of an operation on two constants. A division by 0 has none.
fn computed(op: Op, a: u32, k: u32) -> Option<u32>
    ensures { IfSome result (λ number. IsComputed op a k number) }
{
    match op {
        Op::Add => Some(a.wrapping_add(k)),
        Op::Sub => Some(a.wrapping_sub(k)),
        Op::Mul => Some(a.wrapping_mul(k)),
        Op::Div => a.checked_div(k),
        Op::Mod => a.checked_rem(k),
        Op::Or | Op::And | Op::Lsh | Op::Rsh | Op::Xor => None,
    }
}

/// A division by an X of 0 ends the program with 0.
fn divided_by_none(op: Op, by: By, k: u32) -> Made
    ensures { (contents : Known) → IsOperand by contents k → IsPutInto Into.A (Written.Alu op by) contents result }
{
    if k > 0 {
        return Made::Unknown;
    }
    match by {
        By::Imm(_) => Made::Unknown,
        By::X => match op {
            Op::Div | Op::Mod => Made::Ends(0),
            Op::Add | Op::Sub | Op::Mul | Op::Or | Op::And | Op::Lsh | Op::Rsh | Op::Xor => {
                Made::Unknown
            }
        },
    }
}

/// An operation on two constants.
fn calculated(alloc: Global, op: Op, by: By, contents: &Contents) -> Result<Made, AllocError>
    ensures { IfOk result (IsPutInto Into.A (Written.Alu op by) contents.now) }
{
    let Some(a) = constant_of(&contents.a) else {
        return Ok(Made::Unknown);
    };
    let Some(k) = operand_constant(by, contents) else {
        return Ok(Made::Unknown);
    };
    match computed(op, a, k) {
        None => Ok(divided_by_none(op, by, k)),
        Some(number) => Ok(Made::from_bits(constant(alloc, number, 32)?)),
    }
}

/// What an operation makes of A.
pub(crate) fn operated(
    alloc: Global,
    op: Op,
    by: By,
    contents: &Contents,
) -> Result<Made, AllocError>
    ensures { IfOk result (IsPutInto Into.A (Written.Alu op by) contents.now) }
{
    match op {
        Op::And | Op::Or | Op::Xor => bits_operated(alloc, op, by, contents),
        Op::Lsh | Op::Rsh => shifted(alloc, op, by, contents),
        Op::Add | Op::Sub | Op::Mul | Op::Div | Op::Mod => calculated(alloc, op, by, contents),
    }
}

//! Operations on two numbers, bit by bit.

ghost use Rattle.std.specs.Prelude.{IfOk, IfSome};
ghost use Rattle.rules_diagrams.specs.inner.Words.{AreResult, IsBitResult};

use crate::word::{Bit, before};
use bpf_code::Op;
use std::alloc::{AllocError, Global};

/// `one and other`, if that is a constant or one of the two.
fn anded(one: Bit, other: Bit) -> Option<Bit>
    ensures { IfSome result (IsBitResult Op.And one other) }
{
    match one {
        Bit::Zero => Some(Bit::Zero),
        Bit::One => Some(other),
        Bit::Of(_) => match other {
            Bit::Zero => Some(Bit::Zero),
            Bit::One => Some(one),
            Bit::Of(_) => { if one == other { Some(one) } else { None } }
        },
    }
}

/// `one or other`, if that is a constant or one of the two.
fn ored(one: Bit, other: Bit) -> Option<Bit>
    ensures { IfSome result (IsBitResult Op.Or one other) }
{
    match one {
        Bit::Zero => Some(other),
        Bit::One => Some(Bit::One),
        Bit::Of(_) => match other {
            Bit::Zero => Some(one),
            Bit::One => Some(Bit::One),
            Bit::Of(_) => { if one == other { Some(one) } else { None } }
        },
    }
}

/// `one xor other`, if that is a constant or one of the two.
fn xored(one: Bit, other: Bit) -> Option<Bit>
    ensures { IfSome result (IsBitResult Op.Xor one other) }
{
    match one {
        Bit::Zero => Some(other),
        Bit::One => match other {
            Bit::Zero => Some(Bit::One),
            Bit::One => Some(Bit::Zero),
            Bit::Of(_) => None,
        },
        Bit::Of(_) => match other {
            Bit::Zero => Some(one),
            Bit::One => None,
            Bit::Of(_) => { if one == other { Some(Bit::Zero) } else { None } }
        },
    }
}

/// The result of a bitwise operation on two bits, if it is a constant or a bit of the cell.
fn bit_result(op: Op, one: Bit, other: Bit) -> Option<Bit>
    ensures { IfSome result (IsBitResult op one other) }
{
    match op {
        Op::And => anded(one, other),
        Op::Or => ored(one, other),
        Op::Xor => xored(one, other),
        Op::Add | Op::Sub | Op::Mul | Op::Div | Op::Lsh | Op::Rsh | Op::Mod => None,
    }
}

/// The result of a bitwise operation on two words of the same length, if each of its bits is a constant or a bit of the cell.
pub(crate) fn bitwise(
    alloc: Global,
    op: Op,
    one: &[Bit],
    other: &[Bit],
) -> Result<Option<Vec<Bit>>, AllocError>
    ensures { IfOk result (λ found. IfSome found (λ bits. AreResult op one.now other.now bits.items)) }
{
    match one {
        [] => {
            if other.is_empty() {
                Ok(Some(Vec::new(alloc)))
            } else {
                Ok(None)
            }
        }
        [first, more @ ..] => match other {
            [] => Ok(None),
            [second, rest @ ..] => {
                let Some(bit) = bit_result(op, *first, *second) else {
                    return Ok(None);
                };
                match bitwise(alloc, op, more, rest)? {
                    None => Ok(None),
                    Some(bits) => Ok(Some(before(bit, bits)?)),
                }
            }
        },
    }
}

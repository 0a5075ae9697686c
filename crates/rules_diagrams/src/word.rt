//! Numbers of which each bit is 0, 1 or a bit of the cell. A number is the list of its bits, the lowest first.

ghost use Rattle.std.specs.Prelude.{◌≡◌, ◌<◌, ◌≤◌, ◌+◌, ◌*◌, ◌/◌, ◌%◌, ◌^◌, ℕ, ◌∷◌, List, length, IfOk, IfSome, IsTrue};
ghost use Rattle.rules_diagrams.specs.inner.Spans.{bits_number};
ghost use Rattle.rules_diagrams.specs.inner.Words.{word_number};

use std::alloc::{AllocError, Global};

/// A bit of a number.
#[derive(Clone, Copy, PartialEq, Eq)]
pub(crate) enum Bit {
    /// 0 for every cell.
    Zero,
    /// 1 for every cell.
    One,
    /// The bit of the cell. Bit 0 is the highest bit of the first octet, bit 415 the lowest bit of the last.
    Of(u16),
}

/// Bits with one more below them, which is the new lowest.
pub(crate) fn before(bit: Bit, mut bits: Vec<Bit>) -> Result<Vec<Bit>, AllocError>
    ensures { IfOk result (λ all. all.items ≡ bit ∷ bits.items) }
{
    bits.insert(0, bit)?;
    Ok(bits)
}

/// This many bits that are 0.
pub(crate) fn zeros(alloc: Global, many: u32) -> Result<Vec<Bit>, AllocError>
    ensures { IfOk result (λ bits. (cell : ℕ) → word_number bits.items cell ≡ 0) }
{
    if many == 0 {
        return Ok(Vec::new(alloc));
    }
    before(Bit::Zero, zeros(alloc, many - 1)?)
}

/// The bits of a constant.
pub(crate) fn constant(alloc: Global, k: u32, width: u32) -> Result<Vec<Bit>, AllocError>
    requires { k < 2 ^ width }
    ensures { IfOk result (λ bits. (cell : ℕ) → word_number bits.items cell ≡ k) }
{
    if width == 0 {
        return Ok(Vec::new(alloc));
    }
    let bit = if k % 2 == 1 { Bit::One } else { Bit::Zero };
    before(bit, constant(alloc, k / 2, width - 1)?)
}

/// The number that `many` bits of the cell spell, from bit `first` on, the first highest, with `above` bits that are 0 on top.
pub(crate) fn spelled(
    alloc: Global,
    first: u16,
    many: u16,
    above: u32,
) -> Result<Vec<Bit>, AllocError>
    requires { first + many ≤ 416 }
    ensures { IfOk result (λ bits. (cell : ℕ) → word_number bits.items cell ≡ bits_number cell first many) }
{
    if many == 0 {
        return zeros(alloc, above);
    }
    before(
        Bit::Of(first + (many - 1)),
        spelled(alloc, first, many - 1, above)?,
    )
}

/// The number that bits are for every cell, if it is one.
pub(crate) fn constant_of(bits: &[Bit]) -> Option<u32>
    ensures { IfSome result (λ k. (cell : ℕ) → word_number bits.now cell ≡ k) }
{
    match bits {
        [] => Some(0),
        [bit, more @ ..] => {
            let half = constant_of(more)?.checked_mul(2)?;
            match bit {
                Bit::Zero => Some(half),
                Bit::One => half.checked_add(1),
                Bit::Of(_) => None,
            }
        }
    }
}

/// The number, shifted left by this many places and cut to its lowest `width` bits.
pub(crate) fn shifted_left(
    alloc: Global,
    bits: &[Bit],
    places: u32,
    width: u32,
) -> Result<Vec<Bit>, AllocError>
    ensures { IfOk result (λ made. (cell : ℕ) → word_number made.items cell ≡ (word_number bits.now cell * 2 ^ places) % 2 ^ width) }
{
    if width == 0 {
        return Ok(Vec::new(alloc));
    }
    if places > 0 {
        return before(Bit::Zero, shifted_left(alloc, bits, places - 1, width - 1)?);
    }
    match bits {
        [] => zeros(alloc, width),
        [bit, more @ ..] => before(*bit, shifted_left(alloc, more, 0, width - 1)?),
    }
}

/// The number, shifted right by this many places, with `above` bits that are 0 on top.
pub(crate) fn shifted_right(
    alloc: Global,
    bits: &[Bit],
    places: u32,
    above: u32,
) -> Result<Vec<Bit>, AllocError>
    ensures { IfOk result (λ made. (cell : ℕ) → word_number made.items cell ≡ word_number bits.now cell / 2 ^ places) }
{
    match bits {
        [] => zeros(alloc, above),
        [bit, more @ ..] => {
            if places > 0 {
                shifted_right(alloc, more, places - 1, above)
            } else {
                before(*bit, shifted_right(alloc, more, 0, above)?)
            }
        }
    }
}

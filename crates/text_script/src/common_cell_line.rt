//! The line of a cell in the common form, which programs write: one space between its words, and nothing before or
//! after them. A line of another form is read word by word.

ghost use Rattle.std.specs.Prelude.{◌≡◌, ◌∷◌, ◌++◌, ℕ, List, codes, length, IfSome, IfNone};
ghost use Rattle.text_script.specs.CommonLine.{IsCommonLine};

use crate::script_words::number;
use text_words::{CELL_DIGITS, HEADER_DIGITS, cell_of_digits};
use upc_cell::Cell;

/// A cell of a script, and the moment when it arrives, in ticks.
#[derive(Clone, Copy)]
pub struct Arrival {
    pub moment: u64,
    pub cell: Cell,
}

/// Returns the text after `cell` and a space. None if the line doesn't begin with them.
#[inline(always)]
pub fn text_after_cell(line: &[u8]) -> Option<&[u8]>
    ensures rest { IfSome result (λ rest. line.now ≡ codes "cell " ++ rest.now) }
    ensures none { IfNone result ((rest : List ℕ) → line.now ≡ codes "cell " ++ rest → ⊥) }
{
    match line {
        [b'c', b'e', b'l', b'l', b' ', rest @ ..] => Some(rest),
        _ => None,
    }
}

/// Returns the text before a space, and the last `count` octets, which follow the space. None if there is no space
/// before them.
#[inline(always)]
fn split_last_word(text: &[u8], count: usize) -> Option<(&[u8], &[u8])>
    ensures parts { IfSome result (λ parts. (text.now ≡ parts.0.now ++ 32 ∷ parts.1.now) × (length parts.1.now ≡ count)) }
    ensures none { IfNone result ((before last : List ℕ) → text.now ≡ before ++ 32 ∷ last → length last ≡ count → ⊥) }
{
    if text.len() < count {
        return None;
    }
    let (front, last) = text.split_at(text.len() - count);
    match front {
        [before @ .., b' '] => Some((before, last)),
        _ => None,
    }
}

/// Returns the cell of a line of the common form, and its moment. None if the line has another form. The word of a cell has 8 or 104
/// digits, so a space stands before the last 8 octets or before the last 104.
#[inline(always)]
pub fn read_common_cell(line: &[u8]) -> Option<Arrival>
    ensures cell { IfSome result (λ found. IsCommonLine line.now found.moment found.cell) }
    ensures none { IfNone result ((moment : ℕ) → (cell : List ℕ) → IsCommonLine line.now moment cell → ⊥) }
{
    let rest = text_after_cell(line)?;
    let parts = match split_last_word(rest, HEADER_DIGITS) {
        Some(parts) => parts,
        None => split_last_word(rest, CELL_DIGITS)?,
    };
    let moment = number(parts.0)?;
    let cell = cell_of_digits(parts.1)?;
    Some(Arrival { moment, cell })
}

//! Hexadecimal words as octets and as cells.

ghost use Rattle.std.specs.Prelude.{◌≡◌, ◌⊎◌, ◌++◌, length, IfOk, OnOk};
ghost use Rattle.std.specs.Option.{option_map};
ghost use Rattle.hex.specs.Hex.{encode_lower};
ghost use Rattle.text_words.specs.Hexadecimal.{octets_of_digits};
ghost use Rattle.text_words.specs.CellWord.{IsCellWord};

use crate::answer_texts::add_text;
use crate::digits::{CELL_DIGITS, HEADER_DIGITS, cell_of_digits};
use hex::FromHexError;
use std::alloc::{AllocError, Global};
use text_io::Added;
use upc_cell::{CELL_OCTETS, Cell};

/// What the last word of a cell line spells.
pub enum CellWord {
    /// A cell.
    OfCell(Cell),
    /// This number of octets, which isn't 52.
    OfOthers(usize),
    /// Not hexadecimal: an odd number of characters, or one that isn't a digit.
    NoDigits,
}

/// The octets of a hexadecimal word, or none if the word isn't hexadecimal.
pub fn octets_of_word(alloc: Global, word: &[u8]) -> Result<Option<Vec<u8>>, AllocError>
    ensures { IfOk result (λ found. octets_of_digits word.now ≡ option_map (λ octets. octets.items) found) }
{
    match hex::decode(alloc, word) {
        Ok(octets) => Ok(Some(octets)),
        Err(FromHexError::OutOfMemory) => Err(AllocError),
        Err(_) => Ok(None),
    }
}

/// Appends the octets of a cell in hexadecimal digits.
pub fn add_cell_octets(answers: &mut Vec<u8>, cell: &Cell) -> Added
    ensures { OnOk result (answers.new.items ≡ answers.old.items ++ encode_lower cell.now) }
{
    let mut digits = [0; CELL_DIGITS];
    if hex::encode_to_slice(&cell.bytes()[..CELL_OCTETS], &mut digits).is_err() {
        unreachable!();
    }
    add_text(answers, &digits)
}

/// Reads a word of a cell line. Allocates only if the word has neither 104 nor eight characters.
pub fn cell_of_word(alloc: Global, word: &[u8]) -> Result<CellWord, AllocError>
    ensures { IfOk result (IsCellWord word.now) }
{
    if word.len() == CELL_DIGITS || word.len() == HEADER_DIGITS {
        return Ok(word_of_digits(word));
    }
    match octets_of_word(alloc, word)? {
        Some(octets) => Ok(CellWord::OfOthers(octets.len())),
        None => Ok(CellWord::NoDigits),
    }
}

/// Reads a word of 104 or eight characters.
fn word_of_digits(word: &[u8]) -> CellWord
    requires { (length word.now ≡ CELL_DIGITS) ⊎ (length word.now ≡ HEADER_DIGITS) }
    ensures { IsCellWord word.now result }
{
    match cell_of_digits(word) {
        Some(cell) => CellWord::OfCell(cell),
        None => CellWord::NoDigits,
    }
}

//! Cells of hexadecimal digits, without allocation.

ghost use Rattle.std.specs.Prelude.{◌≡◌, ◌*◌, ◌<◌, ◌++◌, ◌↔◌, ℕ, List, Some, IsSome, IfSome, IfNone, IsTrue, length, replicate, slice_index};
ghost use Rattle.hex.specs.Hex.{hex_digit_value};
ghost use Rattle.text_words.specs.CellWord.{IsCellWord};
ghost use Rattle.text_words.specs.inner.DigitNumbers.{AreDigits, AreDigitsOf, AreJoined, AreNumbers};
ghost use Rattle.text_words.specs.declared.hexadecimal.CellWord.TheVariants.{OfCell};

use upc_cell::{CELL_OCTETS, Cell};

/// The number of digits of a whole cell.
pub const CELL_DIGITS: usize = 2 * CELL_OCTETS;

/// The number of digits of a header.
pub const HEADER_DIGITS: usize = 8;

/// The value of a digit, or 255 if the octet isn't a digit.
#[inline(always)]
fn number_of(octet: u8) -> u8
    ensures number { result < 16 → hex_digit_value octet ≡ Some result }
    ensures digit { IsSome (hex_digit_value octet) → result < 16 }
{
    let figure = octet.wrapping_sub(b'0');
    if figure < 10 {
        return figure;
    }
    // Lower and upper case letters differ in one bit.
    let letter = (octet | 32).wrapping_sub(b'a');
    if letter < 6 { letter + 10 } else { 255 }
}

/// Writes the value of each digit, and returns the bitwise or of all values, which is below 16 exactly if all octets of
/// the word are digits. No step depends on an earlier octet, so the compiler can process sixteen at once.
#[inline(always)]
fn read_digits(word: &[u8], numbers: &mut [u8]) -> u8
    requires { length numbers.old ≡ length word.now }
    ensures numbers { result < 16 → AreNumbers word.now numbers.new }
    ensures digits { AreDigits word.now → result < 16 }
{
    let mut seen = 0;
    for at in 0..word.len() {
        let number = number_of(word[at]);
        seen = seen | number;
        numbers[at] = number;
    }
    seen
}

/// Writes the octet of each pair of values.
#[inline(always)]
fn join(numbers: &[u8], octets: &mut [u8])
    requires twice { length numbers.now ≡ 2 * length octets.old }
    requires small { (k : ℕ) → k < length numbers.now → slice_index numbers.now k < 16 }
    ensures { AreJoined numbers.now octets.new }
{
    for at in 0..octets.len() {
        octets[at] = 16 * numbers[2 * at] + numbers[2 * at + 1];
    }
}

/// Writes the cell of 104 digits. Returns false if one isn't a digit.
#[inline(always)]
fn read_whole(word: &[u8], octets: &mut [u8; CELL_OCTETS]) -> bool
    requires { length word.now ≡ CELL_DIGITS }
    ensures cell { IsTrue result → IsCellWord word.now (OfCell octets.new) }
    ensures digits { AreDigits word.now → IsTrue result }
{
    let mut numbers = [0; CELL_DIGITS];
    if read_digits(word, &mut numbers) > 15 {
        return false;
    }
    join(&numbers, octets);
    true
}

/// The value of each digit, and 256 for every other octet. For the eight digits of a header this table is faster than
/// [`read_digits`].
static NUMBERS: [u16; 256] = [
    256, 256, 256, 256, 256, 256, 256, 256, 256, 256, 256, 256, 256, 256, 256, 256, 256, 256, 256,
    256, 256, 256, 256, 256, 256, 256, 256, 256, 256, 256, 256, 256, 256, 256, 256, 256, 256, 256,
    256, 256, 256, 256, 256, 256, 256, 256, 256, 256, 0, 1, 2, 3, 4, 5, 6, 7, 8, 9, 256, 256, 256,
    256, 256, 256, 256, 10, 11, 12, 13, 14, 15, 256, 256, 256, 256, 256, 256, 256, 256, 256, 256,
    256, 256, 256, 256, 256, 256, 256, 256, 256, 256, 256, 256, 256, 256, 256, 256, 10, 11, 12, 13,
    14, 15, 256, 256, 256, 256, 256, 256, 256, 256, 256, 256, 256, 256, 256, 256, 256, 256, 256,
    256, 256, 256, 256, 256, 256, 256, 256, 256, 256, 256, 256, 256, 256, 256, 256, 256, 256, 256,
    256, 256, 256, 256, 256, 256, 256, 256, 256, 256, 256, 256, 256, 256, 256, 256, 256, 256, 256,
    256, 256, 256, 256, 256, 256, 256, 256, 256, 256, 256, 256, 256, 256, 256, 256, 256, 256, 256,
    256, 256, 256, 256, 256, 256, 256, 256, 256, 256, 256, 256, 256, 256, 256, 256, 256, 256, 256,
    256, 256, 256, 256, 256, 256, 256, 256, 256, 256, 256, 256, 256, 256, 256, 256, 256, 256, 256,
    256, 256, 256, 256, 256, 256, 256, 256, 256, 256, 256, 256, 256, 256, 256, 256, 256, 256, 256,
    256, 256, 256, 256, 256, 256, 256, 256, 256, 256, 256, 256, 256, 256, 256, 256, 256, 256, 256,
    256, 256, 256,
];

/// The octet of two digits. If one isn't a digit, the result is 256 or more.
#[inline(always)]
fn octet_of(high: u8, low: u8) -> u16
    ensures octet { result < 256 → AreDigitsOf high low result }
    ensures digits { IsSome (hex_digit_value high) → IsSome (hex_digit_value low) → result < 256 }
{
    16 * NUMBERS[high as usize] + NUMBERS[low as usize]
}

/// Whether all four numbers are octets.
#[inline(always)]
fn are_octets(first: u16, second: u16, third: u16, fourth: u16) -> bool
    ensures { IsTrue result ↔ ((first < 256) × (second < 256) × (third < 256) × (fourth < 256)) }
{
    first | second | third | fourth < 256
}

/// Writes the header of eight digits. Returns false if one isn't a digit.
#[inline(always)]
fn read_header(word: &[u8], octets: &mut [u8; CELL_OCTETS]) -> bool
    requires digits { length word.now ≡ HEADER_DIGITS }
    requires payload { octets.old ≡ replicate CELL_OCTETS 0 }
    ensures cell { IsTrue result → IsCellWord word.now (OfCell octets.new) }
    ensures digits { AreDigits word.now → IsTrue result }
{
    let first = octet_of(word[0], word[1]);
    let second = octet_of(word[2], word[3]);
    let third = octet_of(word[4], word[5]);
    let fourth = octet_of(word[6], word[7]);
    if !are_octets(first, second, third, fourth) {
        return false;
    }
    // Built as one number, because `Cell::vc_at` reads the header as one number next.
    let header = 16777216 * u32::from(first)
        + 65536 * u32::from(second)
        + 256 * u32::from(third)
        + u32::from(fourth);
    let [first, second, third, fourth] = header.to_be_bytes();
    octets[0] = first;
    octets[1] = second;
    octets[2] = third;
    octets[3] = fourth;
    true
}

/// The cell of a word of hexadecimal digits: 104 for a whole cell, or eight for a header, whose payload is zeros. None for any
/// other word.
#[inline(always)]
pub fn cell_of_digits(word: &[u8]) -> Option<Cell>
    ensures cell { IfSome result (λ cell. IsCellWord word.now (OfCell cell)) }
    ensures none { IfNone result ((cell : List ℕ) → IsCellWord word.now (OfCell cell) → ⊥) }
{
    let mut octets = [0; CELL_OCTETS];
    let read = match word.len() {
        CELL_DIGITS => read_whole(word, &mut octets),
        HEADER_DIGITS => read_header(word, &mut octets),
        _ => false,
    };
    if read { Some(Cell::from(octets)) } else { None }
}

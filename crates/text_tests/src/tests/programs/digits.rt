//! Cell words compared with the library's reading.

ghost use Rattle.std.specs.Prelude.{◌≤◌};

use std::process::Abort;
use text_words::cell_of_digits;
use upc_cell::Cell;

/// Expects that a word is read as the library reads it: these octets, or nothing.
fn expect_as(rt: &impl Abort, word: &[u8], read: bool, octets: [u8; 52]) {
    match cell_of_digits(word) {
        Some(cell) => {
            assert!(rt; read);
            assert_eq!(rt; cell, Cell::from(octets));
        }
        None => assert!(rt; !read),
    }
}

/// Expects that words of this digit for so many octets are read as the library reads them, whatever pair of octets stands at a place.
fn expect_pairs(rt: &impl Abort, digit: u8, size: usize)
    requires some { 1 ≤ size }
    requires most { size ≤ 52 }
{
    for high in 0..=255u8 {
        for low in 0..=255u8 {
            let place = (usize::from(high) + 3 * usize::from(low)) % size;
            let mut digits = [digit; 104];
            let (word, _) = digits.split_at_mut(2 * size);
            word[2 * place] = high;
            word[2 * place + 1] = low;
            let mut octets = [0; 52];
            let read = hex::decode_to_slice(&*word, &mut octets[..size]).is_ok();
            expect_as(rt, word, read, octets);
        }
    }
}

#[test]
fn each_pair_of_octets_in_a_cell_is_read_as_by_the_library(rt: HostRuntime) {
    expect_pairs(&rt, b'7', 52);
}

#[test]
fn each_pair_of_octets_in_a_header_is_read_as_by_the_library(rt: HostRuntime) {
    expect_pairs(&rt, b'C', 4);
}

//! The line that opens a card.

ghost use Rattle.std.specs.Prelude.{◌≡◌};
ghost use Rattle.text_io.specs.Words.{words_of};
ghost use Rattle.text_card.specs.CardLine.{card_line_shape, shape_of, side_of, side_of_words, sized_shape, with_paths};

use card_core::Shape;
use text_io::first_word;
use text_script::number;
use upc_cell::Side;

/// Returns the side that a word names.
pub fn named_side(word: &[u8]) -> Option<Side>
    ensures { result ≡ side_of word.now }
{
    if word == b"uni".as_slice() {
        Some(Side::Uni)
    } else if word == b"nni".as_slice() {
        Some(Side::Nni)
    } else {
        None
    }
}

/// Returns this side where connections are virtual paths.
fn with_paths(side: Side) -> Side
    ensures { result ≡ with_paths side }
{
    match side {
        Side::Uni => Side::UniPaths,
        Side::Nni => Side::NniPaths,
        Side::UniPaths => Side::UniPaths,
        Side::NniPaths => Side::NniPaths,
    }
}

/// Returns the side of the words after the numbers of a card: no word, which means `uni`, an interface, or an interface and
/// `paths`.
fn side_of_words(line: &[u8]) -> Option<Side>
    ensures { result ≡ side_of_words (words_of line.now) }
{
    let Some((word, rest)) = first_word(line) else {
        return Some(Side::Uni);
    };
    let Some((paths, rest)) = first_word(rest) else {
        return named_side(word);
    };
    if first_word(rest).is_some() || paths != b"paths".as_slice() {
        return None;
    }
    match named_side(word) {
        Some(side) => Some(with_paths(side)),
        None => None,
    }
}

/// Returns the shape of four words and a side.
fn sized(programs: &[u8], lines: &[u8], ports: &[u8], journal: &[u8], side: Side) -> Option<Shape>
    ensures { result ≡ sized_shape programs.now lines.now ports.now journal.now side }
{
    let Some(programs) = number(programs) else {
        return None;
    };
    let Some(lines) = number(lines) else {
        return None;
    };
    let Some(ports) = number(ports) else {
        return None;
    };
    let Some(journal) = number(journal) else {
        return None;
    };
    Some(Shape {
        programs,
        lines,
        ports,
        journal,
        side,
    })
}

/// Returns the shape of the words after `card`.
fn shape_after(line: &[u8]) -> Option<Shape>
    ensures { result ≡ shape_of (words_of line.now) }
{
    let Some((programs, rest)) = first_word(line) else {
        return None;
    };
    let Some((lines, rest)) = first_word(rest) else {
        return None;
    };
    let Some((ports, rest)) = first_word(rest) else {
        return None;
    };
    let Some((journal, rest)) = first_word(rest) else {
        return None;
    };
    match side_of_words(rest) {
        Some(side) => sized(programs, lines, ports, journal, side),
        None => None,
    }
}

/// Returns the shape that a line's words request. None if the line doesn't open a card.
pub fn read_card(line: &[u8]) -> Option<Shape>
    ensures { result ≡ card_line_shape (words_of line.now) }
{
    let Some((name, rest)) = first_word(line) else {
        return None;
    };
    if name == b"card".as_slice() {
        shape_after(rest)
    } else {
        None
    }
}

//! The words after the program's name, in a form that a terminal can show.

ghost use Rattle.std.specs.Prelude.{◌≡◌, ◌<◌, IfOk, OnOk, length, map, option_map, slice_get};
ghost use Rattle.std.specs.String.{string_bytes};
ghost use Rattle.text_command_line.specs.ShownWords.{most_words, shown_character, shown_text, shown_word, shown_words};

use crate::word_sources::CommandLine;
use std::alloc::{AllocError, Global};
use std::env::FillError;

/// The greatest length of a word, in octets. Every word that the program knows is shorter. A longer word is wrong and isn't read.
const ROOM: usize = 1024;

/// Returns the character as it is shown: U+FFFD if it is a control character.
fn shown_character(character: char) -> char
    ensures { result ≡ shown_character character }
{
    if character.is_control() {
        '\u{fffd}'
    } else {
        character
    }
}

/// Returns the text with U+FFFD instead of each control character and of octets that aren't UTF-8. No word that the
/// program knows has one of these, so a wrong word stays wrong, and a message that quotes it can't control the
/// terminal.
fn shown(alloc: Global, octets: &[u8]) -> Result<String, AllocError>
    ensures { IfOk result (λ word. string_bytes word ≡ shown_text octets.now) }
{
    let text = String::from_utf8_lossy(alloc, octets)?;
    let mut word = String::new(alloc);
    for character in text.chars() {
        word.push(shown_character(character))?;
    }
    Ok(word)
}

/// Returns the word of this number as it is shown, or None if there is no such word. A word over [`ROOM`] octets is shown
/// as U+FFFD.
fn word_at<C: CommandLine>(
    alloc: Global,
    line: &C,
    number: usize,
) -> Result<Option<String>, AllocError>
    ensures shown { C.is_known → IfOk result (λ word. option_map string_bytes word
        ≡ option_map shown_word (slice_get (C.words line.now) number)) }
    ensures few { C.is_known → OnOk result (length (C.words line.now) < most_words) }
{
    let mut room = [0; ROOM];
    match line.word(number, &mut room) {
        Ok(length) => Ok(Some(shown(alloc, &room[..length])?)),
        // 0xff isn't UTF-8, so the word is shown as U+FFFD.
        Err(FillError::TooLong) => Ok(Some(shown(alloc, b"\xff")?)),
        Err(FillError::NotPresent) => Ok(None),
    }
}

/// Returns the words after the program's name as they are shown: one for each, in order.
///
/// # Errors
///
/// `AllocError` if an allocation failed.
pub fn words_after_name<C: CommandLine>(alloc: Global, line: &C) -> Result<Vec<String>, AllocError>
    ensures { C.is_known → IfOk result (λ words. map string_bytes words.items ≡ shown_words (C.words line.now)) }
{
    let mut words = Vec::new(alloc);
    let mut number = 1;
    while number < usize::MAX {
        let Some(word) = word_at(alloc, line, number)? else {
            break;
        };
        words.push(word)?;
        number += 1;
    }
    Ok(words)
}

//! The names of files: as the words of the command line give them, and as messages show them.

ghost use Rattle.std.specs.Prelude.{◌≡◌, ◌++◌, IfOk, IfSome, IsTrue, OnOk, chars, map};
ghost use Rattle.std.specs.Char.{is_control};
ghost use Rattle.std.specs.List.{list_any};
ghost use Rattle.std.specs.Str.{bytes_eq};
ghost use Rattle.std.specs.String.{string_bytes};
ghost use Rattle.text_command_line.specs.ShownWords.{shown_word};
ghost use Rattle.upc_lab.specs.NamedFiles.{IsGivenAs};
ghost use Rattle.upc_lab.specs.ShownNames.{is_terminal_text, shown_name};
ghost use Rattle.upc_lab.specs.inner.OnlyWord.{is_only};

use cmd_setups::add_escaped_name;
use std::alloc::{AllocError, Global};
use std::env::FillError;
use std::str;
use text_command_line::{CommandLine, InMemory, words_after_name};
use text_io::Added;

/// The length limit of a name, in octets, above that of any name that the system takes.
const ROOM: usize = 4096;

/// Returns whether there is exactly one word, and it is this one.
fn is_only(words: &[String], shown: &str) -> bool
    ensures { result ≡ is_only shown.now (map string_bytes words.now) }
{
    match words {
        [only] => only.as_bytes() == shown.as_bytes(),
        _ => false,
    }
}

/// Returns whether a word of the command line is shown as this.
fn is_shown_as(alloc: Global, word: &[u8], shown: &str) -> Result<bool, AllocError>
    ensures { IfOk result (λ is. is ≡ bytes_eq (shown_word word.now) shown.now) }
{
    let words = words_after_name(alloc, &InMemory(&[b"", word]))?;
    Ok(is_only(words.as_slice(), shown))
}

/// Returns the first word of the command line that is shown as this, if one with at most 4096 octets is.
fn word_shown_as<C: CommandLine>(
    alloc: Global,
    line: &C,
    shown: &str,
) -> Result<Option<Vec<u8>>, AllocError>
    ensures { IfOk result (λ found. IfSome found (λ word. IsTrue (bytes_eq (shown_word word.items) shown.now))) }
{
    let mut room = [0; ROOM];
    let mut number = 1;
    while number < usize::MAX {
        match line.word(number, &mut room) {
            Ok(length) => {
                if is_shown_as(alloc, &room[..length], shown)? {
                    return Ok(Some(Vec::from_slice(alloc, &room[..length])?));
                }
            }
            Err(FillError::TooLong) => {}
            Err(FillError::NotPresent) => return Ok(None),
        }
        number += 1;
    }
    Ok(None)
}

/// Returns the name of the file that a word gives, as the command line has it. `shown` is the word as it is shown: with U+FFFD in place of
/// what is no text for a terminal, so that the name of another file could be shown alike. None if the word is too long for a name.
///
/// # Errors
///
/// `AllocError` if an allocation failed.
pub(crate) fn name_given<C: CommandLine>(
    alloc: Global,
    line: &C,
    shown: &str,
) -> Result<Option<Vec<u8>>, AllocError>
    ensures { IfOk result (λ found. IfSome found (λ name. IsGivenAs name.items shown.now)) }
{
    if !shown.contains('\u{fffd}') {
        return Ok(Some(Vec::from_slice(alloc, shown.as_bytes())?));
    }
    word_shown_as(alloc, line, shown)
}

/// Returns whether a text has a control character.
fn has_control(text: &str) -> bool
    ensures { result ≡ list_any is_control (chars text.now) }
{
    text.chars().any(|character| character.is_control())
}

/// Returns whether a name is a text for a terminal: UTF-8 without control characters.
fn is_terminal_text(name: &[u8]) -> bool
    ensures { result ≡ is_terminal_text name.now }
{
    match str::from_utf8(name) {
        Ok(text) => !has_control(text),
        Err(_) => false,
    }
}

/// Appends a name as messages show it: as it is, or escaped if it isn't a text for a terminal.
pub(crate) fn add_shown_name(alloc: Global, text: &mut Vec<u8>, name: &[u8]) -> Added
    ensures { OnOk result (text.new.items ≡ text.old.items ++ shown_name name.now) }
{
    if is_terminal_text(name) {
        text.extend_from_slice(name)?;
        return Ok(());
    }
    add_escaped_name(alloc, text, name)
}

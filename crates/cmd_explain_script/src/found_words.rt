//! The words of a line, with their columns.

ghost use Rattle.std.specs.Prelude.{◌≡◌, ◌++◌, take, drop, not, IfOk, OnOk};
ghost use Rattle.text_io.specs.Words.{is_blank};
ghost use Rattle.cmd_explain_script.specs.FoundWords.{begins_word, column_of, found_words, word_here, word_octets, word_size};

use std::alloc::{AllocError, Global};
use text_io::Added;

/// A word of a line, or a token.
#[derive(Clone, Copy)]
pub struct FoundWord {
    /// The column of its first octet, counted from 1.
    pub column: usize,
    /// How many octets it has.
    pub size: usize,
}

/// Returns whether an octet is a space or a tab.
fn blank(octet: u8) -> bool
    ensures { result ≡ is_blank octet }
{
    octet == b' ' || octet == b'\t'
}

/// Returns how many octets the word at the beginning of a text has.
fn word_size(text: &[u8]) -> usize
    ensures { result ≡ word_size text.now }
{
    let mut left = text;
    let mut size = 0;
    while let [octet, rest @ ..] = left {
        if blank(*octet) {
            return size;
        }
        size += 1;
        left = rest;
    }
    size
}

/// Adds the word that begins with the first octet of a text, if one does. `inside` says that the octet before the text belongs to a word.
fn add_word(words: &mut Vec<FoundWord>, column: usize, inside: bool, text: &[u8]) -> Added
    ensures { OnOk result (words.new.items ≡ words.old.items ++ word_here column inside text.now) }
{
    match text {
        [] => Ok(()),
        [octet, ..] => {
            if !inside && !blank(*octet) {
                let size = word_size(text);
                words.push(FoundWord { column, size })?;
            }
            Ok(())
        }
    }
}

/// Returns the words of a line.
#[tactic(auto, unfolding(crate::specs::FoundWords::found_words))]
pub(crate) fn words_of(alloc: Global, line: &[u8]) -> Result<Vec<FoundWord>, AllocError>
    ensures { IfOk result (λ words. words.items ≡ found_words line.now) }
{
    let mut words = Vec::new(alloc);
    let mut inside = false;
    let mut at = 0;
    let mut left = line;
    while let [octet, rest @ ..] = left {
        add_word(&mut words, at + 1, inside, left)?;
        inside = !blank(*octet);
        at += 1;
        left = rest;
    }
    Ok(words)
}

/// Returns the first octets of a text, at most this many.
pub fn front(text: &[u8], size: usize) -> &[u8]
    ensures { result.now ≡ take size text.now }
{
    if size < text.len() {
        &text[..size]
    } else {
        text
    }
}

/// Returns what follows this many of the items.
pub fn after<T>(items: &[T], count: usize) -> &[T]
    ensures { result.now ≡ drop count items.now }
{
    if count < items.len() {
        &items[count..]
    } else {
        &items[items.len()..]
    }
}

/// Returns the octets of a word of a line.
pub fn word_octets(line: &[u8], word: FoundWord) -> &[u8]
    ensures { result.now ≡ word_octets line.now word }
{
    front(after(line, word.column.saturating_sub(1)), word.size)
}

/// Returns the column of a word, if there is one.
pub fn column_of(word: Option<FoundWord>) -> Option<usize>
    ensures { result ≡ column_of word }
{
    match word {
        Some(word) => Some(word.column),
        None => None,
    }
}

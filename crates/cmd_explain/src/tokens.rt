//! The tokens of a source line, with their columns.

ghost use Rattle.std.specs.Prelude.{◌≡◌, ◌++◌, ◌-◌, ◌∷◌, [], IfOk, OnOk, MatchOption, None};
ghost use Rattle.bpf_asm.specs.SourceLines.{without_comment};
ghost use Rattle.bpf_asm.specs.Tokens.{is_word};
ghost use Rattle.text_io.specs.Words.{is_blank, is_digit};
ghost use Rattle.cmd_explain.specs.FoundTokens.{after_label, begins_token, found_tokens, is_label, is_name, label_of, run_size, token_here, token_size};
ghost use Rattle.cmd_explain.specs.LinesFound.{is_same_label};

use cmd_explain_rules::{digit, word_octet};
use cmd_explain_script::{FoundWord, word_octets};
use std::alloc::{AllocError, Global};
use text_io::Added;

/// Returns how many octets of a word a text begins with.
fn run_size(text: &[u8]) -> usize
    ensures { result ≡ run_size text.now }
{
    let mut left = text;
    let mut size = 0;
    while let [octet, rest @ ..] = left {
        if !word_octet(*octet) {
            return size;
        }
        size += 1;
        left = rest;
    }
    size
}

/// Returns the line before its comment, which begins at the first `;`.
pub(crate) fn before_comment(line: &[u8]) -> &[u8]
    ensures { result.now ≡ without_comment line.now }
{
    let mut left = line;
    let mut size = 0;
    while let [octet, rest @ ..] = left {
        if *octet == b';' {
            return &line[..size];
        }
        size += 1;
        left = rest;
    }
    line
}

/// Returns whether a token begins with an octet. `inside` says that the octet before it belongs to a word.
fn begins_token(inside: bool, octet: u8) -> bool
    ensures { result ≡ begins_token inside octet }
{
    if word_octet(octet) {
        !inside
    } else {
        octet != b' ' && octet != b'\t'
    }
}

/// Returns how many octets the token has that a text begins with.
fn token_size(text: &[u8]) -> usize
    ensures { result ≡ token_size text.now }
{
    match text {
        [] => 0,
        [octet, ..] => {
            if word_octet(*octet) {
                run_size(text)
            } else {
                1
            }
        }
    }
}

/// Adds the token that begins with the first octet of a text, if one does.
fn add_token(tokens: &mut Vec<FoundWord>, column: usize, inside: bool, text: &[u8]) -> Added
    ensures { OnOk result (tokens.new.items ≡ tokens.old.items ++ token_here column inside text.now) }
{
    match text {
        [] => Ok(()),
        [octet, ..] => {
            if begins_token(inside, *octet) {
                let size = token_size(text);
                tokens.push(FoundWord { column, size })?;
            }
            Ok(())
        }
    }
}

/// Returns the tokens of a line, or of what is before its comment.
#[tactic(auto, unfolding(crate::specs::FoundTokens::found_tokens))]
pub(crate) fn tokens_of(alloc: Global, text: &[u8]) -> Result<Vec<FoundWord>, AllocError>
    ensures { IfOk result (λ tokens. tokens.items ≡ found_tokens text.now) }
{
    let mut tokens = Vec::new(alloc);
    let mut inside = false;
    let mut at = 0;
    let mut left = text;
    while let [octet, rest @ ..] = left {
        add_token(&mut tokens, at + 1, inside, left)?;
        inside = word_octet(*octet);
        at += 1;
        left = rest;
    }
    Ok(tokens)
}

/// Returns whether octets are a word that does not begin with a digit.
pub(crate) fn is_name(octets: &[u8]) -> bool
    ensures { result ≡ is_name octets.now }
{
    match octets {
        [] => false,
        [octet, ..] => word_octet(*octet) && !digit(*octet),
    }
}

/// Returns whether two tokens are a label: a name, and `:`.
fn is_label(text: &[u8], first: FoundWord, second: FoundWord) -> bool
    ensures { result ≡ is_label text.now first second }
{
    is_name(word_octets(text, first)) && word_octets(text, second) == b":".as_slice()
}

/// Returns the tokens after the label of a line, if it has one.
pub(crate) fn after_label<'a>(text: &[u8], tokens: &'a [FoundWord]) -> &'a [FoundWord]
    ensures { result.now ≡ after_label text.now tokens.entry.now }
{
    match tokens {
        [first, second, rest @ ..] => {
            if is_label(text, *first, *second) {
                rest
            } else {
                tokens
            }
        }
        _ => tokens,
    }
}

/// Returns whether a line has this label.
pub(crate) fn has_label(text: &[u8], tokens: &[FoundWord], label: &[u8]) -> bool
    ensures { result ≡ is_same_label label.now (label_of text.now tokens.now) }
{
    match tokens {
        [first, second, ..] => {
            is_label(text, *first, *second) && word_octets(text, *first) == label
        }
        _ => false,
    }
}

//! Operands and their parts, taken from the front of a text. Each function `after_..` returns the rest of the text, or None if the text
//! doesn't begin with that part.

ghost use Rattle.std.specs.Prelude.{◌≡◌, ◌≢◌, ◌-◌, ◌%◌, ◌^◌, ℕ, true, MatchOption};
ghost use Rattle.bpf_asm.specs.inner.Reading.{cut_constant, cut_length, cut_mark, cut_name, cut_number, cut_operand, cut_target, cut_value, cut_word, is_ended};
ghost use Rattle.bpf_asm.specs.Tokens.{mark, signed_after, tokens_in};
ghost use Rattle.bpf_asm.specs.inner.WordRuns.{is_mark};

use crate::token::{digit, is_spent, next_mark, next_word, number};
use bpf_code::By;

/// Takes this octet, which is not `#`.
#[inline(always)]
pub(crate) fn after_mark(text: &[u8], octet: u8) -> Option<&[u8]>
    requires other { octet ≢ 35 }
    requires mark { is_mark octet ≡ true }
    ensures { MatchOption result (cut_mark octet (tokens_in text.now) ≡ None)
        (λ rest. cut_mark octet (tokens_in text.now) ≡ Some (tokens_in rest.now)) }
{
    let rest = next_mark(text, octet)?;
    Some(rest)
}

/// Takes a number.
pub(crate) fn after_number(text: &[u8]) -> Option<(u32, &[u8])>
    ensures { MatchOption result (cut_number (tokens_in text.now) ≡ None)
        (λ found. cut_number (tokens_in text.now) ≡ Some (found.0, tokens_in found.1.now)) }
{
    let (word, rest) = next_word(text)?;
    if digit(word[0]) {
        let value = number(word)?;
        Some((value, rest))
    } else {
        None
    }
}

/// Takes a name.
pub(crate) fn after_name(text: &[u8]) -> Option<(&[u8], &[u8])>
    ensures { MatchOption result (cut_name (tokens_in text.now) ≡ None)
        (λ found. cut_name (tokens_in text.now) ≡ Some (found.0.now, tokens_in found.1.now)) }
{
    let (word, rest) = next_word(text)?;
    if digit(word[0]) {
        None
    } else {
        Some((word, rest))
    }
}

/// Takes `#`, whatever follows it.
fn after_hash(text: &[u8]) -> Option<&[u8]>
    ensures { MatchOption result (cut_mark 35 (tokens_in text.now) ≡ None)
        (λ rest. tokens_in text.now ≡ signed_after (mark 35) (tokens_in rest.now)) }
{
    let rest = next_mark(text, b'#')?;
    Some(rest)
}

/// Takes `#k` or `#-n`.
pub(crate) fn after_constant(text: &[u8]) -> Option<(u32, &[u8])>
    ensures { MatchOption result (cut_constant (tokens_in text.now) ≡ None)
        (λ found. cut_constant (tokens_in text.now) ≡ Some (found.0, tokens_in found.1.now)) }
{
    let text = after_hash(text)?;
    match after_mark(text, b'-') {
        Some(text) => {
            let (value, rest) = after_number(text)?;
            Some((negated(value), rest))
        }
        None => after_number(text),
    }
}

/// Returns 2^32 less a number, modulo 2^32.
fn negated(value: u32) -> u32
    ensures { result ≡ (2 ^ 32 - value) % 2 ^ 32 }
{
    if value == 0 { 0 } else { u32::MAX - value + 1 }
}

/// Takes this word.
pub(crate) fn after_word<'a>(text: &'a [u8], word: &[u8]) -> Option<&'a [u8]>
    ensures { MatchOption result (cut_word word.now (tokens_in text.entry.now) ≡ None)
        (λ rest. cut_word word.now (tokens_in text.entry.now) ≡ Some (tokens_in rest.now)) }
{
    let (name, rest) = after_name(text)?;
    if name == word { Some(rest) } else { None }
}

/// Takes `#len`.
pub(crate) fn after_length(text: &[u8]) -> Option<&[u8]>
    ensures { MatchOption result (cut_length (tokens_in text.now) ≡ None)
        (λ rest. cut_length (tokens_in text.now) ≡ Some (tokens_in rest.now)) }
{
    after_word(after_hash(text)?, b"len")
}

/// Takes a number of this value.
pub(crate) fn after_value(text: &[u8], value: u32) -> Option<&[u8]>
    ensures { MatchOption result (cut_value value (tokens_in text.now) ≡ None)
        (λ rest. cut_value value (tokens_in text.now) ≡ Some (tokens_in rest.now)) }
{
    let (found, rest) = after_number(text)?;
    if found == value { Some(rest) } else { None }
}

/// Returns whether no token is left.
pub(crate) fn at_end(text: &[u8]) -> bool
    ensures { result ≡ is_ended (tokens_in text.now) }
{
    is_spent(text)
}

/// Takes an operand of arithmetic or of a branch.
pub(crate) fn after_operand(text: &[u8]) -> Option<(By, &[u8])>
    ensures { MatchOption result (cut_operand (tokens_in text.now) ≡ None)
        (λ found. cut_operand (tokens_in text.now) ≡ Some (found.0, tokens_in found.1.now)) }
{
    match after_constant(text) {
        Some((k, rest)) => Some((By::Imm(k), rest)),
        None => {
            let rest = after_word(text, b"x")?;
            Some((By::X, rest))
        }
    }
}

/// Takes `, label`.
pub(crate) fn after_target(text: &[u8]) -> Option<(&[u8], &[u8])>
    ensures { MatchOption result (cut_target (tokens_in text.now) ≡ None)
        (λ found. cut_target (tokens_in text.now) ≡ Some (found.0.now, tokens_in found.1.now)) }
{
    after_name(after_mark(text, b',')?)
}

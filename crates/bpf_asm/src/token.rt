//! The tokens of a line, up to its comment.

ghost use Rattle.std.specs.Prelude.{◌≡◌, ◌==◌, ◌≤◌, ◌<◌, ℕ, List, [], ◌∷◌, true, false, length, take, drop, slice_index, IfSome, IsTrue, MatchOption, None};
ghost use Rattle.bpf_asm.specs.inner.Reading.{HasNoWord, cut_mark, is_ended};
ghost use Rattle.bpf_asm.specs.Numbers.{digit_of, is_hexadecimal, number_of_word, value_in, within_word};
ghost use Rattle.bpf_asm.specs.inner.Seen.{token_seen};
ghost use Rattle.bpf_asm.specs.Tokens.{is_run, is_word, mark, tokens_in, word_token};
ghost use Rattle.bpf_asm.specs.inner.LineTokens.{line_tokens};
ghost use Rattle.bpf_asm.specs.inner.WordRuns.{all_word, is_mark};
ghost use Rattle.text_io.specs.Words.{is_blank, is_digit};

/// A token. A name borrows its octets from the line.
#[derive(Clone, Copy)]
pub(crate) enum LentToken<'a> {
    /// A word that does not begin with a digit.
    Name(&'a [u8]),
    /// The value of a number.
    Number(u32),
    /// A word that begins with a digit but is no number.
    Faulty,
    /// Any other octet.
    Mark(u8),
}

/// Returns whether the octet is an ASCII digit.
#[inline(always)]
pub(crate) fn digit(octet: u8) -> bool
    ensures { result ≡ is_digit octet }
{
    b'0' <= octet && octet <= b'9'
}

// The entry of an octet is 1 if it belongs to words, else 0.
#[rattlefmt::skip]
static WORD_OCTETS: [u8; 256] = [
    0, 0, 0, 0, 0, 0, 0, 0, 0, 0, 0, 0, 0, 0, 0, 0,
    0, 0, 0, 0, 0, 0, 0, 0, 0, 0, 0, 0, 0, 0, 0, 0,
    0, 0, 0, 0, 0, 0, 0, 0, 0, 0, 0, 0, 0, 0, 0, 0,
    1, 1, 1, 1, 1, 1, 1, 1, 1, 1, 0, 0, 0, 0, 0, 0,
    0, 1, 1, 1, 1, 1, 1, 1, 1, 1, 1, 1, 1, 1, 1, 1,
    1, 1, 1, 1, 1, 1, 1, 1, 1, 1, 1, 0, 0, 0, 0, 1,
    0, 1, 1, 1, 1, 1, 1, 1, 1, 1, 1, 1, 1, 1, 1, 1,
    1, 1, 1, 1, 1, 1, 1, 1, 1, 1, 1, 0, 0, 0, 0, 0,
    0, 0, 0, 0, 0, 0, 0, 0, 0, 0, 0, 0, 0, 0, 0, 0,
    0, 0, 0, 0, 0, 0, 0, 0, 0, 0, 0, 0, 0, 0, 0, 0,
    0, 0, 0, 0, 0, 0, 0, 0, 0, 0, 0, 0, 0, 0, 0, 0,
    0, 0, 0, 0, 0, 0, 0, 0, 0, 0, 0, 0, 0, 0, 0, 0,
    0, 0, 0, 0, 0, 0, 0, 0, 0, 0, 0, 0, 0, 0, 0, 0,
    0, 0, 0, 0, 0, 0, 0, 0, 0, 0, 0, 0, 0, 0, 0, 0,
    0, 0, 0, 0, 0, 0, 0, 0, 0, 0, 0, 0, 0, 0, 0, 0,
    0, 0, 0, 0, 0, 0, 0, 0, 0, 0, 0, 0, 0, 0, 0, 0,
];

/// Returns whether the octet belongs to words.
#[inline(always)]
fn word_octet(octet: u8) -> bool
    ensures { result ≡ is_word octet }
{
    WORD_OCTETS[usize::from(octet)] == 1
}

/// Returns whether the octet is a space or a tab.
fn blank(octet: u8) -> bool
    ensures { result ≡ is_blank octet }
{
    octet == b' ' || octet == b'\t'
}

/// The largest number of a source, which has 32 bits.
const MOST_NUMBER: u64 = 4294967295;

/// Returns the value of a digit of base 16, and 16 for any other octet.
fn digit_value(octet: u8) -> u8
    ensures { result ≡ digit_of octet }
{
    match octet {
        b'0'..=b'9' => octet - b'0',
        b'a'..=b'f' => octet - b'a' + 10,
        b'A'..=b'F' => octet - b'A' + 10,
        _ => 16,
    }
}

/// Returns the number that digits of a base spell, if it is at most 4294967295.
fn value(base: u8, digits: &[u8]) -> Option<u32>
    requires low { 1 ≤ base }
    requires high { base ≤ 16 }
    ensures { result ≡ within_word (value_in base digits.now) }
{
    if digits.is_empty() {
        return None;
    }
    let mut value = 0u64;
    for octet in digits {
        let digit = digit_value(*octet);
        if digit >= base {
            return None;
        }
        value = value * u64::from(base) + u64::from(digit);
        if value > MOST_NUMBER {
            return None;
        }
    }
    Some(value as u32)
}

/// Returns whether a word begins with `0x` or `0X`.
fn hexadecimal(word: &[u8]) -> bool
    ensures long { IsTrue result → 2 ≤ length word.now }
    ensures value { result ≡ is_hexadecimal word.now }
{
    word.len() >= 2 && word[0] == b'0' && (word[1] == b'x' || word[1] == b'X')
}

/// Returns the number that a word spells.
#[tactic(auto, unfolding(crate::specs::Numbers::number_of_word))]
pub fn number(word: &[u8]) -> Option<u32>
    ensures { result ≡ number_of_word word.now }
{
    if hexadecimal(word) {
        value(16, &word[2..])
    } else {
        value(10, word)
    }
}

/// Returns the token of a word.
fn token_of_word(word: &[u8]) -> LentToken<'_>
    requires { 0 < length word.now }
    ensures { token_seen result ≡ word_token word.now }
{
    if digit(word[0]) {
        match number(word) {
            Some(value) => LentToken::Number(value),
            None => LentToken::Faulty,
        }
    } else {
        LentToken::Name(word)
    }
}

/// Returns the length of the word that a text begins with.
#[inline(always)]
fn word_len(text: &[u8]) -> usize
    ensures within { result ≤ length text.now }
    ensures word { all_word (take result text.now) ≡ true }
    ensures longest { is_run (drop result text.now) ≡ false }
{
    for (at, octet) in text.iter().enumerate() {
        if !word_octet(*octet) {
            return at;
        }
    }
    text.len()
}

/// Returns whether a comment begins at the octet.
fn begins_comment(octet: u8) -> bool
    ensures { result ≡ (octet == 59) }
{
    octet == b';'
}

/// Returns the text after its leading blanks.
fn skip_blanks(text: &[u8]) -> &[u8]
    ensures tokens { line_tokens result.now ≡ line_tokens text.now }
    ensures within { length result.now ≤ length text.now }
    ensures begins { 0 < length result.now → is_blank (slice_index result.now 0) ≡ false }
{
    for (at, octet) in text.iter().enumerate() {
        if !blank(*octet) {
            return &text[at..];
        }
    }
    &text[text.len()..]
}

/// Takes this octet, which is a token by itself, if a text begins with it after blanks. Returns the rest.
#[inline(always)]
pub(crate) fn next_mark(text: &[u8], octet: u8) -> Option<&[u8]>
    requires { is_mark octet ≡ true }
    ensures { MatchOption result (cut_mark octet (tokens_in text.now) ≡ None)
        (λ rest. line_tokens text.now ≡ mark octet ∷ line_tokens rest.now) }
{
    let left = skip_blanks(text);
    if left.is_empty() {
        return None;
    }
    if left[0] == octet {
        Some(&left[1..])
    } else {
        None
    }
}

/// Takes the word that a text begins with after blanks. Returns it and the rest.
#[inline(always)]
pub(crate) fn next_word(text: &[u8]) -> Option<(&[u8], &[u8])>
    ensures { MatchOption result (HasNoWord (tokens_in text.now))
        (λ found. (0 < length found.0.now) × (line_tokens text.now ≡ word_token found.0.now ∷ line_tokens found.1.now)) }
{
    let left = skip_blanks(text);
    if left.is_empty() {
        return None;
    }
    if word_octet(left[0]) {
        Some(left.split_at(word_len(left)))
    } else {
        None
    }
}

/// Returns whether a text has no tokens.
#[inline(always)]
pub(crate) fn is_spent(text: &[u8]) -> bool
    ensures { result ≡ is_ended (tokens_in text.now) }
{
    let left = skip_blanks(text);
    if left.is_empty() {
        return true;
    }
    begins_comment(left[0])
}

/// Takes the first token of a text. Returns it and the rest.
pub(crate) fn next_token(text: &[u8]) -> Option<(LentToken<'_>, &[u8])>
    ensures tokens { MatchOption result (line_tokens text.now ≡ [])
        (λ found. line_tokens text.now ≡ token_seen found.0 ∷ line_tokens found.1.now) }
    ensures shorter { IfSome result (λ found. length found.1.now < length text.now) }
{
    let text = skip_blanks(text);
    if text.is_empty() {
        return None;
    }
    if word_octet(text[0]) {
        let (word, rest) = text.split_at(word_len(text));
        return Some((token_of_word(word), rest));
    }
    if begins_comment(text[0]) {
        return None;
    }
    Some((LentToken::Mark(text[0]), &text[1..]))
}

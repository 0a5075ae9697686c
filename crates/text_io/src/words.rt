//! The words of a line.

ghost use Rattle.std.specs.Prelude.{◌≡◌, ◌<◌, ◌∷◌, [], length, slice_index, false, MatchOption};
ghost use Rattle.text_io.specs.LineWords.{IsLineWords};
ghost use Rattle.text_io.specs.Words.{words_of, is_blank};

use memchr::memchr2;

/// The line without the spaces and tabs at its start.
fn after_blanks(line: &[u8]) -> &[u8]
    ensures same { words_of result.now ≡ words_of line.now }
    ensures begins { 0 < length result.now → is_blank (slice_index result.now 0) ≡ false }
{
    let mut rest = line;
    while let [b' ' | b'\t', after @ ..] = rest {
        rest = after;
    }
    rest
}

/// The first word of a line, and what follows the word and one blank. None if the line has no words.
pub fn first_word(line: &[u8]) -> Option<(&[u8], &[u8])>
    ensures { MatchOption result
        (words_of line.now ≡ [])
        (λ found. words_of line.now ≡ found.0.now ∷ words_of found.1.now) }
{
    let line = after_blanks(line);
    if line.is_empty() {
        return None;
    }
    match memchr2(b' ', b'\t', line) {
        Some(end) => Some((&line[..end], &line[end + 1..])),
        None => Some((line, &[])),
    }
}

/// How many words a line has: none, one or more. A comment counts as a line without words.
pub enum LineWords<'a> {
    /// The line has no words or is a comment.
    Silent,
    /// One word.
    One(&'a [u8]),
    /// More than one word.
    Several,
}

/// Returns whether a line has no words, one word or several. A comment counts as a line without words.
pub fn line_words(line: &[u8]) -> LineWords<'_>
    ensures { IsLineWords (words_of line.now) result }
{
    let Some((word, rest)) = first_word(line) else {
        return LineWords::Silent;
    };
    if let [b'#', ..] = word {
        return LineWords::Silent;
    }
    match first_word(rest) {
        None => LineWords::One(word),
        Some(_) => LineWords::Several,
    }
}

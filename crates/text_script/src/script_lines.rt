//! The lines of a script that was read.

ghost use Rattle.std.specs.Prelude.{◌≡◌, ◌≢◌, ℕ, ◌<◌, ◌∷◌, ◌++◌, length, slice_index, IfSome, IfNone};
ghost use Rattle.text_io.specs.Words.{words_of};
ghost use Rattle.text_script.specs.Dealing.{is_cell_line};

use memchr::memchr;
use text_io::first_word;

/// Returns the first line without its line feed, and the rest. None if there is no line feed.
pub fn first_line(lines: &[u8]) -> Option<(&[u8], &[u8])>
    ensures cut { IfSome result (λ found. lines.now ≡ found.0.now ++ 10 ∷ found.1.now) }
    ensures before { IfSome result (λ found. (k : ℕ) → k < length found.0.now → slice_index lines.now k ≢ 10) }
    ensures none { IfNone result ((k : ℕ) → k < length lines.now → slice_index lines.now k ≢ 10) }
    ensures shorter { IfSome result (λ found. length found.1.now < length lines.now) }
{
    match memchr(b'\n', lines) {
        Some(end) => Some((&lines[..end], &lines[end + 1..])),
        None => None,
    }
}

/// Returns whether the line is a cell line: its first word is `cell`.
pub fn is_cell_line(line: &[u8]) -> bool
    ensures { result ≡ is_cell_line (words_of line.now) }
{
    match first_word(line) {
        Some((name, _)) => name == b"cell".as_slice(),
        None => false,
    }
}

//! The lines of a source.

ghost use Rattle.std.specs.Prelude.{◌≡◌, ◌<◌, ◌≤◌, [], ◌∷◌, true, length, slice_index, take, IfSome, MatchOption};
ghost use Rattle.bpf_asm.specs.SourceLines.{source_lines};
ghost use Rattle.bpf_asm.specs.inner.Feeds.{no_feed};

use text_io::{before_return, first_feed};

/// Returns the number of octets before the first line feed, or of all octets if there is none.
#[inline(always)]
fn line_len(text: &[u8]) -> usize
    ensures within { result ≤ length text.now }
    ensures line { no_feed (take result text.now) ≡ true }
    ensures feed { result < length text.now → slice_index text.now result ≡ 10 }
{
    match first_feed(text, 0) {
        Some(at) => at,
        None => text.len(),
    }
}

/// Returns the first line of a text, without its end, and the rest of the text. None if the text is empty.
pub fn next_line(text: &[u8]) -> Option<(&[u8], &[u8])>
    ensures lines { MatchOption result (source_lines text.now ≡ [])
        (λ found. source_lines text.now ≡ found.0.now ∷ source_lines found.1.now) }
    ensures shorter { IfSome result (λ found. length found.1.now < length text.now) }
{
    if text.is_empty() {
        return None;
    }
    let at = line_len(text);
    if at == text.len() {
        return Some((text, &text[at..]));
    }
    Some((before_return(&text[..at]), &text[at + 1..]))
}

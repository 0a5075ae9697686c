//! The lines of a script.

ghost use Rattle.std.specs.Prelude.{◌≡◌, ◌<◌, ◌++◌, [], length, IfSome, MatchOption};
ghost use Rattle.text_io.specs.Lines.{lines_of};
ghost use Rattle.cmd_setups.specs.ScriptLine.{BeginsWithLine};

use text_io::{before_return, first_feed};

/// Returns the content of the first line of a text, the number of its octets without its line feed, its octets with it, and the rest.
pub fn next_line(text: &[u8]) -> Option<(&[u8], usize, &[u8], &[u8])>
    ensures lines { MatchOption result (lines_of text.now ≡ []) (λ found. BeginsWithLine text.now found.0.now found.1 found.2.now found.3.now) }
    ensures whole { IfSome result (λ found. found.2.now ++ found.3.now ≡ text.now) }
    ensures shorter { IfSome result (λ found. length found.3.now < length text.now) }
{
    if text.is_empty() {
        return None;
    }
    match first_feed(text, 0) {
        Some(at) => Some((
            before_return(&text[..at]),
            at,
            &text[..at + 1],
            &text[at + 1..],
        )),
        None => Some((text, text.len(), text, &text[text.len()..])),
    }
}

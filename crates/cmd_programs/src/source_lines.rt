//! The lines of a source, one after another.

ghost use Rattle.std.specs.Prelude.{◌≡◌, [], get_or, drop};
ghost use Rattle.bpf_asm.specs.SourceLines.{source_lines};

use bpf_asm::next_line;

/// Returns the first line of a text, or no octets if the text is empty.
pub fn first_line(text: &[u8]) -> &[u8]
    ensures { result.now ≡ get_or (source_lines text.now) 0 [] }
{
    match next_line(text) {
        Some((line, _)) => line,
        None => &[],
    }
}

/// Returns the text after its first line. An empty text stays empty.
fn after_line(text: &[u8]) -> &[u8]
    ensures { source_lines result.now ≡ drop 1 (source_lines text.now) }
{
    match next_line(text) {
        Some((_, rest)) => rest,
        None => text,
    }
}

/// Returns the text after this many lines.
pub fn lines_after(text: &[u8], count: usize) -> &[u8]
    ensures { source_lines result.now ≡ drop count (source_lines text.now) }
{
    let mut left = text;
    for _ in 0..count {
        left = after_line(left);
    }
    left
}

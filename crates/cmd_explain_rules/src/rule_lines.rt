//! The lines of a text of rules.

ghost use Rattle.std.specs.Prelude.{◌≡◌, ◌≤◌, ◌<◌, ◌+◌, ◌^◌, length, IfOk};
ghost use Rattle.rules_text.specs.ContinuedLines.{line_begin, rule_lines};
ghost use Rattle.cmd_explain_rules.specs.WordsFound.{words_found};
ghost use Rattle.cmd_explain_rules.specs.RuleLines.{begins_giving, begins_with_close, column_within, comes_before, depth_after, depth_before, depth_from, ends_test, gives, giving_line, has_fault, line_holding, octets_before, word_at};

use crate::rule_tokens::{RuleWord, rule_word_octets, words_found};
use crate::token_parts::Part;
use rules_text::{RuleFaultKind, TextPlace, next_rule_line, place_after};
use std::alloc::{AllocError, Global};

/// Where a text begins.
pub(crate) fn text_begin() -> TextPlace
    ensures { result ≡ line_begin 1 }
{
    TextPlace { line: 1, column: 1 }
}

/// Returns whether a place comes before another.
pub(crate) fn comes_before(one: TextPlace, other: TextPlace) -> bool
    ensures { result ≡ comes_before one other }
{
    one.line < other.line || (one.line == other.line && one.column < other.column)
}

/// Returns whether octets begin with `}`.
fn begins_with_close(octets: &[u8]) -> bool
    ensures { result ≡ begins_with_close octets.now }
{
    match octets {
        [] => false,
        [octet, ..] => *octet == b'}',
    }
}

/// Returns whether a fault is one of a line of rules that ends at `end`. `rest` is the text after the line.
fn has_fault(kind: RuleFaultKind, fault: TextPlace, end: TextPlace, rest: &[u8]) -> bool
    ensures { result ≡ has_fault kind fault end (rule_lines rest.now) }
{
    let Some((next, _)) = next_rule_line(rest) else {
        return true;
    };
    match kind {
        RuleFaultKind::BadLine => {
            comes_before(fault, end) || (begins_with_close(next) && !comes_before(end, fault))
        }
        _ => comes_before(fault, end),
    }
}

/// Returns the line of rules that has a fault of this kind at a place, and the place where it begins. It is empty if there is none.
pub(crate) fn line_holding(text: &[u8], kind: RuleFaultKind, fault: TextPlace) -> (TextPlace, &[u8])
    ensures begin { result.0 ≡ (line_holding (line_begin 1) (rule_lines text.now) kind fault).0 }
    ensures line { result.1.now ≡ (line_holding (line_begin 1) (rule_lines text.now) kind fault).1 }
{
    let mut left = text;
    let mut begin = text_begin();
    while let Some((line, rest)) = next_rule_line(left) {
        let end = place_after(begin, line);
        if has_fault(kind, fault, end, rest) {
            return (begin, line);
        }
        begin = end;
        left = rest;
    }
    (begin, &[])
}

/// Returns how many octets the first `source_lines` source lines of a line of rules have.
fn octets_before(line: &[u8], source_lines: usize) -> usize
    ensures before { result ≡ octets_before source_lines line.now }
    ensures within { result ≤ length line.now }
{
    let mut left = line;
    let mut more = source_lines;
    let mut count = 0;
    while let [octet, rest @ ..] = left {
        if more == 0 {
            return count;
        }
        if *octet == b'\n' {
            more -= 1;
        }
        count += 1;
        left = rest;
    }
    count
}

/// Returns the column of a place, counted in the line of rules that begins at another.
pub(crate) fn column_within(line: &[u8], begin: TextPlace, place: TextPlace) -> usize
    ensures { result ≡ column_within line.now begin place }
{
    let column = if begin.line < place.line {
        place.column
    } else {
        place.column.saturating_sub(begin.column.saturating_sub(1))
    };
    octets_before(line, place.line.saturating_sub(begin.line)) + column.min(line.len() + 1)
}

/// Returns whether a line that begins with a token gives a name.
fn begins_giving(part: Part) -> bool
    ensures { result ≡ begins_giving part }
{
    match part {
        Part::Define => true,
        Part::Contract => true,
        _ => false,
    }
}

/// Returns whether a line of these tokens gives this name.
fn gives(name: &[u8], text: &[u8], words: &[RuleWord]) -> bool
    ensures { result ≡ gives name.now text.now words.now }
{
    match words {
        [first, second, ..] => {
            begins_giving(first.part) && rule_word_octets(text, *second) == name
        }
        _ => false,
    }
}

/// Returns whether a line gives this name.
fn line_gives(alloc: Global, name: &[u8], line: &[u8]) -> Result<bool, AllocError>
    ensures { IfOk result (λ does. does ≡ gives name.now line.now (words_found line.now)) }
{
    let words = words_found(alloc, line)?;
    Ok(gives(name, line, &words))
}

/// Returns the number of the source line in which the first line of rules begins that gives this name, if one does.
pub(crate) fn giving_line(
    alloc: Global,
    text: &[u8],
    name: &[u8],
) -> Result<Option<usize>, AllocError>
    ensures { IfOk result (λ number. number ≡ giving_line name.now (line_begin 1) (rule_lines text.now)) }
{
    let mut left = text;
    let mut begin = text_begin();
    while let Some((line, rest)) = next_rule_line(left) {
        if line_gives(alloc, name, line)? {
            return Ok(Some(begin.line));
        }
        begin = place_after(begin, line);
        left = rest;
    }
    Ok(None)
}

/// Returns how many parentheses are open after a token, if this many were before it.
fn depth_after(part: Part, depth: usize) -> usize
    requires { depth + 1 < 2 ^ 64 }
    ensures after { result ≡ depth_after part depth }
    ensures most { result ≤ depth + 1 }
{
    match part {
        Part::LeftParenthesis => depth + 1,
        Part::RightParenthesis => depth.saturating_sub(1),
        _ => depth,
    }
}

/// Returns whether a test ends before a token.
fn ends_test(part: Part) -> bool
    ensures { result ≡ ends_test part }
{
    match part {
        Part::Arrow => true,
        Part::LeftBrace => true,
        _ => false,
    }
}

/// Returns how many parentheses are open where the test of a line ends.
pub(crate) fn depth_of(words: &[RuleWord]) -> usize
    ensures { result ≡ depth_from 0 words.now }
{
    let mut left = words;
    let mut depth: usize = 0;
    while let [word, rest @ ..] = left {
        if ends_test(word.part) {
            return depth;
        }
        depth = depth_after(word.part, depth);
        left = rest;
    }
    depth
}

/// Returns how many parentheses are open before a column.
pub(crate) fn depth_before(column: usize, words: &[RuleWord]) -> usize
    ensures { result ≡ depth_before column 0 words.now }
{
    let mut left = words;
    let mut depth: usize = 0;
    while let [word, rest @ ..] = left {
        if word.column >= column {
            return depth;
        }
        depth = depth_after(word.part, depth);
        left = rest;
    }
    depth
}

/// Returns the token in a column, if there is one.
pub(crate) fn word_at(column: usize, words: &[RuleWord]) -> Option<RuleWord>
    ensures { result ≡ word_at column words.now }
{
    let mut left = words;
    while let [word, rest @ ..] = left {
        if word.column == column {
            return Some(*word);
        }
        left = rest;
    }
    None
}

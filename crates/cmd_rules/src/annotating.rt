//! The listing of a code of rules, with the rules as comments.

ghost use Rattle.std.specs.Prelude.{◌≡◌, ◌≤◌, ◌<◌, ◌-◌, ◌++◌, ℕ, [], ◌∷◌, codes, length, IfOk, IfSome, MatchOption, OnOk, drop};
ghost use Rattle.bpf_asm.specs.Listing.{listing_of};
ghost use Rattle.bpf_asm.specs.Meaning.{IsMeaning};
ghost use Rattle.bpf_asm.specs.SourceLines.{source_lines};
ghost use Rattle.text_io.specs.Lines.{Line, line_with_feed, lines_of};
ghost use Rattle.cmd_rules.specs.AsmText.{asm_text, comment_line, comments_from, from_column, lines_with, next_start_from_end};
ghost use Rattle.cmd_rules.specs.RuleBegins.{begin_text};
ghost use Rattle.cmd_rules.specs.inner.Comments.{comment_if, otherwise_comment, written_at};

use crate::begins::{add_begin, begin_at};
use cmd_programs::{first_line, lines_after};
use rules_text::{CodeWithPlaces, RulePlace};
use std::alloc::{AllocError, Global};
use text_io::first_feed;
use text_words::add_text;

/// The comment of a line of rules, and how many instructions the code has from that line's first on.
#[derive(Drop)]
pub(crate) struct Comment {
    /// The number of instructions from the first of the line to the last of the code.
    pub size: usize,
    /// The comment line.
    pub text: Vec<u8>,
}

/// The first line of a text with its line feed, and the rest.
fn whole_line(text: &[u8]) -> Option<(&[u8], &[u8])>
    ensures lines { MatchOption result (lines_of text.now ≡ [])
        (λ found. (line : Line) × (lines_of text.now ≡ line ∷ lines_of found.1.now) × (found.0.now ≡ line_with_feed line)) }
    ensures shorter { IfSome result (λ found. length found.1.now < length text.now) }
{
    if text.is_empty() {
        return None;
    }
    match first_feed(text, 0) {
        Some(at) => Some((&text[..at + 1], &text[at + 1..])),
        None => Some((text, &text[text.len()..])),
    }
}

/// Appends a comment line.
#[tactic(auto, using(std::proofs::lemmas::List::append_assoc))]
fn add_comment(answers: &mut Vec<u8>, text: &[u8]) -> Result<(), AllocError>
    ensures { OnOk result (answers.new.items ≡ answers.old.items ++ comment_line text.now) }
{
    add_text(answers, b"; ")?;
    add_text(answers, text)?;
    answers.push(b'\n')?;
    Ok(())
}

/// What is left of a line after this many octets.
#[tactic(auto, using(crate::proofs::CommentsKept::nothing_left))]
fn after_octets(line: &[u8], count: usize) -> &[u8]
    ensures { result.now ≡ drop count line.now }
{
    if line.len() < count {
        return &line[..0];
    }
    &line[count..]
}

/// A source line from a column on; the whole line if there is no column.
fn from_column(line: &[u8], column: Option<usize>) -> &[u8]
    ensures { result.now ≡ from_column column line.now }
{
    match column {
        None => line,
        Some(column) => after_octets(line, column.saturating_sub(1)),
    }
}

/// The comment of a line of rules that begins at this place, with these octets of its source line.
#[tactic(auto, using(std::proofs::lemmas::List::append_assoc))]
fn rule_comment(alloc: Global, line: &[u8], begin: RulePlace) -> Result<Vec<u8>, AllocError>
    ensures { IfOk result (λ text. text.items ≡ comment_line (begin_text begin ++ (codes ": " ++ line.now))) }
{
    let mut text = Vec::new(alloc);
    add_text(&mut text, b"; ")?;
    add_begin(&mut text, begin)?;
    add_text(&mut text, b": ")?;
    add_text(&mut text, line)?;
    text.push(b'\n')?;
    Ok(text)
}

/// How many instructions the code has from the line of rules with index `place` on; 1 if there is no such line, which is the last return.
fn start_from_end_at(starts_from_end: &[usize], place: usize) -> usize
    ensures { result ≡ next_start_from_end (drop place starts_from_end.now) }
{
    match starts_from_end.get(place) {
        Some(size) => *size,
        None => 1,
    }
}

/// What is left of a text after its first `before` lines. `rest` is what is left after the first `passed`: the search begins there, unless
/// that is too far.
fn rest_after<'t>(text: &'t [u8], rest: &'t [u8], passed: usize, before: usize) -> &'t [u8]
    requires { source_lines rest.now ≡ drop passed (source_lines text.now) }
    ensures { source_lines result.now ≡ drop before (source_lines text.now) }
{
    if before < passed {
        return lines_after(text, before);
    }
    lines_after(rest, before - passed)
}

/// The comments of the lines of rules that have code of their own. They are found in one pass over the text, since the numbers of their
/// source lines rise.
fn comments_of(
    alloc: Global,
    text: &[u8],
    begins: &[RulePlace],
    starts_from_end: &[usize],
) -> Result<Vec<Comment>, AllocError>
    ensures { IfOk result (λ comments. (left : ℕ) → written_at left comments.items ++ otherwise_comment left
        ≡ comments_from (source_lines text.now) begins.now left 0 starts_from_end.now) }
{
    let mut comments = Vec::new(alloc);
    let mut rest = text;
    let mut passed = 0;
    let mut place = 0;
    while place < starts_from_end.len() {
        let size = starts_from_end[place];
        if size == start_from_end_at(starts_from_end, place + 1) {
            place += 1;
            continue;
        }
        let begin = begin_at(begins, place);
        let before = begin.line.saturating_sub(1);
        rest = rest_after(text, rest, passed, before);
        passed = before;
        let line = from_column(first_line(rest), begin.column);
        let comment = rule_comment(alloc, line, begin)?;
        comments.push(Comment {
            size,
            text: comment,
        })?;
        place += 1;
    }
    Ok(comments)
}

/// Appends a comment, if the code of its line begins where `left` instructions are left.
fn add_comment_if(answers: &mut Vec<u8>, comment: &Comment, left: usize) -> Result<(), AllocError>
    ensures { OnOk result (answers.new.items ≡ answers.old.items ++ comment_if left comment.now) }
{
    if comment.size == left {
        add_text(answers, &comment.text)?;
    }
    Ok(())
}

/// Appends the comment of `otherwise`, if one instruction is left.
fn add_otherwise(answers: &mut Vec<u8>, left: usize) -> Result<(), AllocError>
    ensures { OnOk result (answers.new.items ≡ answers.old.items ++ otherwise_comment left) }
{
    if left == 1 {
        add_comment(answers, b"otherwise")?;
    }
    Ok(())
}

/// Appends the comments where this many instructions are left.
#[tactic(auto, using(std::proofs::lemmas::List::append_assoc))]
fn add_comments(answers: &mut Vec<u8>, comments: &[Comment], left: usize) -> Result<(), AllocError>
    ensures { OnOk result (answers.new.items ≡ answers.old.items ++ (written_at left comments.now ++ otherwise_comment left)) }
{
    for comment in comments {
        add_comment_if(answers, comment, left)?;
    }
    add_otherwise(answers, left)?;
    Ok(())
}

/// Appends the listing of a code of rules with its comments.
pub(crate) fn add_annotated(
    alloc: Global,
    answers: &mut Vec<u8>,
    text: &[u8],
    made: &CodeWithPlaces,
    listing: &[u8],
) -> Result<(), AllocError>
    requires { listing.now ≡ listing_of made.now.placed.code.items }
    ensures { OnOk result (answers.new.items ≡ answers.old.items ++ asm_text (source_lines text.now) made.now) }
{
    let comments = comments_of(alloc, text, &made.begins, &made.placed.starts_from_end)?;
    let mut rest = listing;
    let mut place = 0usize;
    while let Some((line, after)) = whole_line(rest) {
        let left = made.placed.code.len().saturating_sub(place);
        add_comments(answers, &comments, left)?;
        answers.extend_from_slice(line)?;
        place += 1;
        rest = after;
    }
    Ok(())
}

//! One line of a source: its label and its statement.

ghost use Rattle.std.specs.Prelude.{◌≡◌, List, Some, IfErr, IfOk, MatchOption};
ghost use Rattle.bpf_asm.specs.Faults.{IsLineFault};
ghost use Rattle.bpf_asm.specs.Grammar.{IsSourceLine, SourceLine};
ghost use Rattle.bpf_asm.specs.inner.Reading.{body_in, line_in};
ghost use Rattle.bpf_asm.specs.inner.LineTokens.{line_tokens};
ghost use Rattle.bpf_asm.specs.inner.Seen.{line_seen};
ghost use Rattle.bpf_asm.specs.Tokens.{HasBadNumber, has_faulty, tokens_in};

use crate::fault::AsmKind;
use crate::mnemonic::{named, read_statement};
use crate::operand::{after_mark, after_name, at_end};
use crate::statement::LentStatement;
use crate::token::{LentToken, next_token};

/// A line that was read. Its names borrow from the source.
#[derive(Clone, Copy)]
pub(crate) struct LentLine<'a> {
    /// The label that the line defines.
    pub label: Option<&'a [u8]>,
    /// The statement of the line.
    pub statement: Option<LentStatement<'a>>,
}

/// Returns whether some word of a text begins with a digit but is no number.
fn bad_number(text: &[u8]) -> bool
    ensures { result ≡ has_faulty (line_tokens text.now) }
{
    let mut left = text;
    while let Some((token, rest)) = next_token(left) {
        if let LentToken::Faulty = token {
            return true;
        }
        left = rest;
    }
    false
}

/// Reads the rest of a line after its label.
fn after_label<'a>(label: &'a [u8], text: &'a [u8]) -> Option<LentLine<'a>>
    ensures { MatchOption result (body_in (Some label.entry.now) (tokens_in text.entry.now) ≡ None)
        (λ lent. body_in (Some label.entry.now) (tokens_in text.entry.now) ≡ Some (line_seen lent)) }
{
    if at_end(text) {
        return Some(LentLine {
            label: Some(label),
            statement: None,
        });
    }
    let statement = read_statement(text)?;
    Some(LentLine {
        label: Some(label),
        statement: Some(statement),
    })
}

/// Reads a line, if it is a line of the grammar. Its first name is a label or a mnemonic.
#[tactic(auto, unfolding(crate::specs::inner::Reading::line_in, crate::specs::inner::Reading::statement_in))]
fn line_of(text: &[u8]) -> Option<LentLine<'_>>
    ensures { MatchOption result (line_in (tokens_in text.now) ≡ None)
        (λ lent. line_in (tokens_in text.now) ≡ Some (line_seen lent)) }
{
    let Some((name, rest)) = after_name(text) else {
        return if at_end(text) {
            Some(LentLine {
                label: None,
                statement: None,
            })
        } else {
            None
        };
    };
    if let Some(rest) = after_mark(rest, b':') {
        return after_label(name, rest);
    }
    let statement = named(name, rest)?;
    Some(LentLine {
        label: None,
        statement: Some(statement),
    })
}

/// Reads a line, or returns the fault that it has by itself.
pub(crate) fn read_line(line: &[u8]) -> Result<LentLine<'_>, AsmKind>
    ensures spelled { IfOk result (λ lent. IsSourceLine line.now (line_seen lent)) }
    ensures fault { IfErr result (λ kind. (before : List SourceLine) → IsLineFault before line.now kind) }
{
    match line_of(line) {
        Some(lent) => Ok(lent),
        // A line of the grammar has no bad number, so only other lines are searched for a bad number.
        None if bad_number(line) => Err(AsmKind::BadNumber),
        None => Err(AsmKind::BadLine),
    }
}

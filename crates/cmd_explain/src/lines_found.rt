//! The lines of a source that have an instruction or a label.

ghost use Rattle.std.specs.Prelude.{◌≡◌, ◌<◌, ◌^◌, ℕ, List, length, IfOk};
ghost use Rattle.bpf_asm.specs.SourceLines.{source_lines, without_comment};
ghost use Rattle.cmd_explain.specs.LinesFound.{count_between, instruction_lines, instruction_tokens, is_same_label, label_line, line_numbered, has_token, tokens_of_line};
ghost use Rattle.cmd_explain.specs.FoundTokens.{label_of};

use crate::tokens::{after_label, before_comment, has_label, tokens_of};
use bpf_asm::next_line;
use cmd_programs::{first_line, lines_after};
use std::alloc::{AllocError, Global};

/// Returns the line of this number, counted from 1. It is empty if there is none.
pub(crate) fn line_numbered(source: &[u8], number: usize) -> &[u8]
    ensures { result.now ≡ line_numbered (source_lines source.now) number }
{
    first_line(lines_after(source, number.saturating_sub(1)))
}

/// Returns whether a line has an instruction.
pub(crate) fn has_instruction(alloc: Global, line: &[u8]) -> Result<bool, AllocError>
    ensures { IfOk result (λ has. has ≡ has_token (instruction_tokens line.now)) }
{
    let text = before_comment(line);
    let tokens = tokens_of(alloc, text)?;
    Ok(!after_label(text, &tokens).is_empty())
}

/// Returns the numbers of the lines that have an instruction, counted from 1.
pub(crate) fn instruction_lines(alloc: Global, source: &[u8]) -> Result<Vec<usize>, AllocError>
    ensures { IfOk result (λ numbers. numbers.items ≡ instruction_lines 1 (source_lines source.now)) }
{
    let mut numbers = Vec::new(alloc);
    let mut left = source;
    let mut count = 0;
    while let Some((line, rest)) = next_line(left) {
        if has_instruction(alloc, line)? {
            numbers.push(count + 1)?;
        }
        count += 1;
        left = rest;
    }
    Ok(numbers)
}

/// Returns whether a line has this label.
fn defines(alloc: Global, line: &[u8], label: &[u8]) -> Result<bool, AllocError>
    ensures { IfOk result (λ has. has ≡ is_same_label label.now (label_of (without_comment line.now) (tokens_of_line line.now))) }
{
    let text = before_comment(line);
    let tokens = tokens_of(alloc, text)?;
    Ok(has_label(text, &tokens, label))
}

/// Returns the number of the first line that has this label, if one has it.
pub(crate) fn label_line(
    alloc: Global,
    source: &[u8],
    label: &[u8],
) -> Result<Option<usize>, AllocError>
    ensures { IfOk result (λ number. number ≡ label_line label.now 1 (source_lines source.now)) }
{
    let mut left = source;
    let mut count = 0;
    while let Some((line, rest)) = next_line(left) {
        if defines(alloc, line, label)? {
            return Ok(Some(count + 1));
        }
        count += 1;
        left = rest;
    }
    Ok(None)
}

/// Returns how many of these numbers are between two others.
pub(crate) fn count_between(low: usize, high: usize, numbers: &[usize]) -> usize
    ensures { result ≡ count_between low high numbers.now }
{
    let mut left = numbers;
    let mut count = 0;
    while let [number, rest @ ..] = left {
        if low < *number && *number < high {
            count += 1;
        }
        left = rest;
    }
    count
}

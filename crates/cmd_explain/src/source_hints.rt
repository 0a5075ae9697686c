//! Hints about a source without a fault.

ghost use Rattle.std.specs.Prelude.{◌≡◌, ◌++◌, IfOk, OnOk};
ghost use Rattle.bpf_asm.specs.SourceLines.{source_lines};
ghost use Rattle.bpf_interp.specs.Packet.{octets_loaded};
ghost use Rattle.cmd_explain.specs.SourceHints.{first_hint, hinted_token, hints_of, is_past_cell, outside_hint};

use crate::bad_lines::{first_number, token_at};
use crate::lines_found::has_instruction;
use crate::tokens::{after_label, before_comment, tokens_of};
use bpf_asm::next_line;
use bpf_code::{Instr, Size};
use cmd_explain_script::{FoundWord, add_place, after, column_of};
use std::alloc::{AllocError, Global};
use text_words::add_text;

/// Returns the number of octets that a load reads.
fn octets_loaded(size: Size) -> u32
    ensures { result ≡ octets_loaded size }
{
    match size {
        Size::Word => 4,
        Size::Half => 2,
        Size::Octet => 1,
    }
}

/// Returns whether an instruction loads from outside of each cell.
fn is_past_cell(instr: Instr) -> bool
    ensures { result ≡ is_past_cell instr }
{
    match instr {
        Instr::LoadAbs { size, k } | Instr::LoadInd { size, k } => k > 52 - octets_loaded(size),
        Instr::LdxMsh(k) => k > 51,
        _ => false,
    }
}

/// Returns the wrong token of an instruction that loads from outside of each cell: its offset, or the mnemonic of a load of a header's
/// length.
fn hinted_token(
    alloc: Global,
    instr: Instr,
    content: &[u8],
) -> Result<Option<FoundWord>, AllocError>
    ensures { IfOk result (λ token. token ≡ hinted_token instr content.now) }
{
    let text = before_comment(content);
    let tokens = tokens_of(alloc, text)?;
    let parts = after_label(text, &tokens);
    match instr {
        Instr::LdxMsh(_) => Ok(token_at(parts, 0)),
        _ => Ok(first_number(text, parts)),
    }
}

/// Appends the hint about an instruction that loads from outside of each cell, on a line of this number and content.
#[tactic(auto, using(std::proofs::lemmas::List::append_assoc))]
fn add_outside(
    alloc: Global,
    answers: &mut Vec<u8>,
    number: usize,
    content: &[u8],
    instr: Instr,
) -> Result<(), AllocError>
    ensures { OnOk result (answers.new.items ≡ answers.old.items ++ outside_hint number content.now instr) }
{
    let token = hinted_token(alloc, instr, content)?;
    add_text(answers, b"hint ")?;
    add_place(answers, number, column_of(token))?;
    add_text(
        answers,
        b"a cell has the octets 0 to 51, so this load always ends the program with 0",
    )?;
    answers.push(b'\n')?;
    Ok(())
}

/// Appends the hint about the first instruction of a code, which is on a line of this number and content, or nothing.
fn add_first_hint(
    alloc: Global,
    answers: &mut Vec<u8>,
    number: usize,
    content: &[u8],
    code: &[Instr],
) -> Result<(), AllocError>
    ensures { OnOk result (answers.new.items ≡ answers.old.items ++ first_hint number content.now code.now) }
{
    match code {
        [] => Ok(()),
        [instr, ..] => {
            if is_past_cell(*instr) {
                add_outside(alloc, answers, number, content, *instr)
            } else {
                Ok(())
            }
        }
    }
}

/// Appends the hints about the code that a source means. Lines and instructions are in one order, so one pass finds the line of each.
#[tactic(auto, unfolding(crate::specs::SourceHints::hints_of))]
pub(crate) fn add_hints(
    alloc: Global,
    answers: &mut Vec<u8>,
    source: &[u8],
    code: &[Instr],
) -> Result<(), AllocError>
    ensures { OnOk result (answers.new.items ≡ answers.old.items ++ hints_of (source_lines source.now) code.now) }
{
    let mut left = source;
    let mut later = code;
    let mut count = 0;
    while let Some((line, rest)) = next_line(left) {
        if has_instruction(alloc, line)? {
            add_first_hint(alloc, answers, count + 1, line, later)?;
            later = after(later, 1);
        }
        count += 1;
        left = rest;
    }
    Ok(())
}

//! The explanation of a fault of a source.

ghost use Rattle.std.specs.Prelude.{◌≡◌, ◌++◌, IfOk, OnOk, slice_get, codes};
ghost use Rattle.bpf_asm.specs.SourceLines.{source_lines, without_comment};
ghost use Rattle.cmd_explain.specs.FoundTokens.{after_label, found_tokens};
ghost use Rattle.cmd_explain.specs.LinesFound.{instruction_tokens, label_line};
ghost use Rattle.cmd_explain.specs.SourceReasons.{blamed_token, failing_label, failing_operand, label_fails, label_sentence, label_words, line_explanation, missing_label, source_explanation, source_sentence, takes_label};

use crate::bad_lines::{
    add_bad_line, add_no_number, first_bad_number, octets_of, token_at, wrong_token,
};
use crate::forms::{Form, form_of};
use crate::lines_found::{count_between, instruction_lines, label_line, line_numbered};
use crate::tokens::{after_label, before_comment, tokens_of};
use bpf_asm::{AsmFault, AsmKind};
use cmd_explain_script::{FoundWord, add_place, add_quoted, column_of, word_octets};
use std::alloc::{AllocError, Global};
use text_io::Added;
use text_words::{add_number, add_text};

/// Returns whether a label operand on line `at` has the fault. `found` is the line that defines its label, if one does, and `numbers` has
/// the numbers of the lines with an instruction: 255 of these may come between.
fn label_fails(kind: AsmKind, at: usize, numbers: &[usize], found: Option<usize>) -> bool
    ensures { result ≡ label_fails kind at numbers.now found }
{
    match (kind, found) {
        (AsmKind::UnknownLabel, None) => true,
        (AsmKind::Backward, Some(other)) => other <= at,
        (AsmKind::TooFar, Some(other)) => count_between(at, other, numbers) > 255,
        _ => false,
    }
}

/// Returns whether a mnemonic takes a label alone.
fn takes_label(form: Option<Form>) -> bool
    ensures { result ≡ takes_label form }
{
    matches!(form, Some(Form::Jump))
}

/// Returns the first label operand of these tokens that has the fault. A token is one if it follows a comma; the first token is one if
/// `begins` is true. `numbers` has the numbers of the lines with an instruction.
fn failing_operand(
    alloc: Global,
    source: &[u8],
    fault: AsmFault,
    numbers: &[usize],
    text: &[u8],
    begins: bool,
    tokens: &[FoundWord],
) -> Result<Option<FoundWord>, AllocError>
    ensures { IfOk result (λ token. token ≡ failing_operand (source_lines source.now) fault numbers.now text.now begins tokens.now) }
{
    let mut left = tokens;
    let mut after = begins;
    while let [token, rest @ ..] = left {
        let octets = word_octets(text, *token);
        let found = label_line(alloc, source, octets)?;
        if after && label_fails(fault.kind, fault.line, numbers, found) {
            return Ok(Some(*token));
        }
        after = octets == b",".as_slice();
        left = rest;
    }
    Ok(None)
}

/// Returns the label operand of an instruction that has the fault.
fn failing_label(
    alloc: Global,
    source: &[u8],
    fault: AsmFault,
    text: &[u8],
    tokens: &[FoundWord],
) -> Result<Option<FoundWord>, AllocError>
    ensures { IfOk result (λ token. token ≡ failing_label (source_lines source.now) fault text.now tokens.now) }
{
    match tokens {
        [] => Ok(None),
        [first, operands @ ..] => {
            let numbers = instruction_lines(alloc, source)?;
            let alone = takes_label(form_of(word_octets(text, *first)));
            failing_operand(alloc, source, fault, &numbers, text, alone, operands)
        }
    }
}

/// Returns the token that the fault is about, if it is about one.
fn blamed_token(
    alloc: Global,
    source: &[u8],
    fault: AsmFault,
    content: &[u8],
) -> Result<Option<FoundWord>, AllocError>
    ensures { IfOk result (λ token. token ≡ blamed_token (source_lines source.now) fault fault.kind content.now) }
{
    let text = before_comment(content);
    let tokens = tokens_of(alloc, text)?;
    match fault.kind {
        AsmKind::BadLine => Ok(wrong_token(text, after_label(text, &tokens))),
        AsmKind::BadNumber => Ok(first_bad_number(text, &tokens)),
        AsmKind::LabelTwice => Ok(token_at(&tokens, 0)),
        AsmKind::UnknownLabel => {
            failing_label(alloc, source, fault, text, after_label(text, &tokens))
        }
        AsmKind::Backward => failing_label(alloc, source, fault, text, after_label(text, &tokens)),
        AsmKind::TooFar => failing_label(alloc, source, fault, text, after_label(text, &tokens)),
        AsmKind::DanglingLabel => Ok(token_at(&tokens, 0)),
        AsmKind::NoMemory => Ok(None),
    }
}

/// Appends the line that has a label, in words.
#[tactic(auto, using(std::proofs::lemmas::List::append_assoc))]
fn add_label_place(answers: &mut Vec<u8>, label: &[u8], found: Option<usize>) -> Added
    ensures { OnOk result (answers.new.items ≡ answers.old.items ++ label_words label.now found) }
{
    add_text(answers, b"the label ")?;
    add_quoted(answers, label)?;
    add_text(answers, b" is on line ")?;
    add_number(answers, found.unwrap_or(0) as u64)
}

/// Appends that no line has a label, in words.
#[tactic(auto, using(std::proofs::lemmas::List::append_assoc))]
fn add_missing_label(answers: &mut Vec<u8>, label: &[u8]) -> Added
    ensures { OnOk result (answers.new.items ≡ answers.old.items ++ missing_label label.now) }
{
    add_text(answers, b"no line has the label ")?;
    add_quoted(answers, label)
}

/// Appends the sentence about a label.
#[tactic(auto, using(std::proofs::lemmas::List::append_assoc))]
pub(crate) fn add_label_sentence(
    answers: &mut Vec<u8>,
    kind: AsmKind,
    label: &[u8],
    found: Option<usize>,
) -> Added
    ensures { OnOk result (answers.new.items ≡ answers.old.items ++ label_sentence kind label.now found) }
{
    match kind {
        AsmKind::LabelTwice => {
            add_label_place(answers, label, found)?;
            add_text(answers, b" already; a label names one place")
        }
        AsmKind::UnknownLabel => {
            add_missing_label(answers, label)?;
            add_text(answers, b"; it belongs before an instruction further down")
        }
        AsmKind::Backward => {
            add_label_place(answers, label, found)?;
            add_text(answers, b"; a jump leads to an instruction further down")
        }
        AsmKind::TooFar => {
            add_label_place(answers, label, found)?;
            add_text(
                answers,
                b", over more than 255 instructions; `ja` goes further",
            )
        }
        AsmKind::DanglingLabel => {
            add_text(answers, b"no instruction follows the label ")?;
            add_quoted(answers, label)
        }
        _ => Ok(()),
    }
}

/// Appends the sentence about a fault on a line with this content.
fn add_sentence(
    alloc: Global,
    answers: &mut Vec<u8>,
    source: &[u8],
    kind: AsmKind,
    content: &[u8],
    blamed: &[u8],
) -> Added
    ensures { OnOk result (answers.new.items ≡ answers.old.items ++ source_sentence (source_lines source.now) kind content.now blamed.now) }
{
    match kind {
        AsmKind::BadLine => {
            let text = before_comment(content);
            let tokens = tokens_of(alloc, text)?;
            add_bad_line(answers, text, after_label(text, &tokens))
        }
        AsmKind::BadNumber => add_no_number(answers, blamed),
        _ => add_label_sentence(answers, kind, blamed, label_line(alloc, source, blamed)?),
    }
}

/// Appends the explanation of a fault of a source: its line, the column of the token that is wrong, and a sentence.
#[tactic(auto, using(std::proofs::lemmas::List::append_assoc))]
pub(crate) fn add_source_explanation(
    alloc: Global,
    answers: &mut Vec<u8>,
    source: &[u8],
    fault: AsmFault,
) -> Added
    ensures { OnOk result (answers.new.items ≡ answers.old.items ++ source_explanation (source_lines source.now) fault) }
{
    let content = line_numbered(source, fault.line);
    let blamed = blamed_token(alloc, source, fault, content)?;
    add_place(answers, fault.line, column_of(blamed))?;
    let octets = octets_of(before_comment(content), blamed);
    add_sentence(alloc, answers, source, fault.kind, content, octets)?;
    answers.push(b'\n')?;
    Ok(())
}

//! The explanation of a fault of the code that a source means.

ghost use Rattle.std.specs.Prelude.{◌≡◌, ◌++◌, ◌∷◌, [], codes, decimal, length, reverse, IfOk, OnOk, slice_index};
ghost use Rattle.bpf_asm.specs.SourceLines.{source_lines};
ghost use Rattle.bpf_verify.specs.Faults.{FailsFirst};
ghost use Rattle.text_io.specs.Devices.{Adds};
ghost use Rattle.cmd_explain.specs.LinesFound.{instruction_lines};
ghost use Rattle.cmd_explain.specs.CodeReasons.{IsCodeExplanation, IsRest, blamed_part, code_place, code_sentence, code_start, fault_place, numbers_text, scratch_name, unwritten_sentence};

use crate::bad_lines::{first_number, token_at};
use crate::lines_found::{instruction_lines, line_numbered};
use crate::path::path_to;
use crate::tokens::{after_label, before_comment, tokens_of};
use bpf_code::Instr;
use bpf_verify::Fault;
use cmd_explain_script::{FoundWord, add_place, column_of};
use std::alloc::{AllocError, Global};
use text_io::Added;
use text_words::{add_number, add_text};

/// Returns the place of the instruction that the fault is about, in a code of `size` instructions. 0 for `Empty`, which is about none.
fn fault_place(size: usize, fault: Fault) -> usize
    ensures { result ≡ fault_place size fault }
{
    match fault {
        Fault::Empty => 0,
        Fault::TooLong => 4096,
        Fault::BadScratch { at } => at,
        Fault::ZeroDivisor { at } => at,
        Fault::BadShift { at } => at,
        Fault::JumpOutside { at } => at,
        Fault::NoReturn => size.saturating_sub(1),
        Fault::Unwritten { at, .. } => at,
    }
}

/// Returns the token of an instruction that the fault is about: its number, or its mnemonic.
fn blamed_part(alloc: Global, fault: Fault, content: &[u8]) -> Result<Option<FoundWord>, AllocError>
    ensures { IfOk result (λ token. token ≡ blamed_part fault content.now) }
{
    let text = before_comment(content);
    let tokens = tokens_of(alloc, text)?;
    let parts = after_label(text, &tokens);
    match fault {
        Fault::BadScratch { .. } => Ok(first_number(text, parts)),
        Fault::ZeroDivisor { .. } => Ok(first_number(text, parts)),
        Fault::BadShift { .. } => Ok(first_number(text, parts)),
        Fault::Unwritten { .. } => Ok(first_number(text, parts)),
        Fault::Empty => Ok(token_at(parts, 0)),
        Fault::TooLong => Ok(token_at(parts, 0)),
        Fault::JumpOutside { .. } => Ok(token_at(parts, 0)),
        Fault::NoReturn => Ok(token_at(parts, 0)),
    }
}

/// Appends the name of a scratch word.
#[tactic(auto, using(std::proofs::lemmas::List::append_assoc))]
fn add_scratch_name(answers: &mut Vec<u8>, word: u32) -> Added
    ensures { OnOk result (answers.new.items ≡ answers.old.items ++ scratch_name word) }
{
    add_text(answers, b"M[")?;
    add_number(answers, u64::from(word))?;
    add_text(answers, b"]")
}

/// Appends that no instruction of a path stores a scratch word. The lines of the path follow this sentence.
#[tactic(auto, using(std::proofs::lemmas::List::append_assoc))]
fn add_unwritten(answers: &mut Vec<u8>, word: u32) -> Added
    ensures { OnOk result (answers.new.items ≡ answers.old.items ++ unwritten_sentence word) }
{
    add_scratch_name(answers, word)?;
    add_text(
        answers,
        b" is read here, and no instruction on this path stores it: lines",
    )
}

/// Appends the sentence about a fault.
pub(crate) fn add_code_sentence(answers: &mut Vec<u8>, fault: Fault) -> Added
    ensures { OnOk result (answers.new.items ≡ answers.old.items ++ code_sentence fault) }
{
    match fault {
        Fault::Empty => add_text(
            answers,
            b"no line has an instruction; the shortest program is `ret #0`",
        ),
        Fault::TooLong => add_text(
            answers,
            b"this is instruction 4097, and a program has at most 4096",
        ),
        Fault::BadScratch { .. } => add_text(answers, b"there are 16 scratch words, M[0] to M[15]"),
        Fault::ZeroDivisor { .. } => add_text(
            answers,
            b"the divisor is 0; a constant divisor is at least 1",
        ),
        Fault::BadShift { .. } => add_text(answers, b"a constant shift is by 0 to 31 bits"),
        Fault::JumpOutside { .. } => add_text(
            answers,
            b"one side of this branch leads past the last instruction; without a label it leads to the next one",
        ),
        Fault::NoReturn => add_text(
            answers,
            b"the last instruction is to be a return, as `ret #0`",
        ),
        Fault::Unwritten { word, .. } => add_unwritten(answers, word),
    }
}

/// Appends the line of an instruction and the column of the token that the fault is about.
fn add_code_place(
    alloc: Global,
    answers: &mut Vec<u8>,
    source: &[u8],
    number: usize,
    fault: Fault,
) -> Added
    ensures { OnOk result (answers.new.items ≡ answers.old.items ++ code_place (source_lines source.now) number fault) }
{
    let blamed = blamed_part(alloc, fault, line_numbered(source, number))?;
    add_place(answers, number, column_of(blamed))
}

/// Returns the number at a place, or 0 if there is none.
fn number_at(numbers: &[usize], place: usize) -> usize
    ensures { result ≡ slice_index numbers.now place }
{
    match numbers.get(place) {
        Some(number) => *number,
        None => 0,
    }
}

/// Appends where a fault is, in words. `Empty` is nowhere.
fn add_code_start(
    alloc: Global,
    answers: &mut Vec<u8>,
    source: &[u8],
    size: usize,
    fault: Fault,
    numbers: &[usize],
) -> Added
    requires { numbers.now ≡ instruction_lines 1 (source_lines source.now) }
    ensures { OnOk result (answers.new.items ≡ answers.old.items ++ code_start (source_lines source.now) size fault) }
{
    match fault {
        Fault::Empty => Ok(()),
        _ => {
            let number = number_at(numbers, fault_place(size, fault));
            add_code_place(alloc, answers, source, number, fault)
        }
    }
}

/// Appends the number of the line of a place, after a blank.
#[tactic(auto, using(std::proofs::lemmas::List::append_assoc))]
fn add_line_of(answers: &mut Vec<u8>, numbers: &[usize], place: usize) -> Added
    ensures { OnOk result (answers.new.items ≡ answers.old.items ++ (codes " " ++ decimal (slice_index numbers.now place))) }
{
    add_text(answers, b" ")?;
    add_number(answers, number_at(numbers, place) as u64)
}

/// Appends the numbers of the lines of these places, each after a blank.
fn add_lines_of(answers: &mut Vec<u8>, numbers: &[usize], places: &[usize]) -> Added
    ensures { OnOk result (answers.new.items ≡ answers.old.items ++ numbers_text numbers.now places.now) }
{
    let mut left = places;
    while let [place, rest @ ..] = left {
        add_line_of(answers, numbers, *place)?;
        left = rest;
    }
    Ok(())
}

/// Appends a path to a read without a store of its word.
fn add_path(
    alloc: Global,
    answers: &mut Vec<u8>,
    code: &[Instr],
    numbers: &[usize],
    at: usize,
    word: u32,
) -> Added
    requires { FailsFirst code.now (Fault.Unwritten at word) }
    ensures { OnOk result (Adds (IsRest code.now numbers.now (Fault.Unwritten at word)) answers.old.items answers.new.items) }
{
    let mut path = path_to(alloc, code, word, at)?;
    path.push(at)?;
    add_lines_of(answers, numbers, &path)?;
    answers.push(b'\n')?;
    Ok(())
}

/// Appends the end of an explanation: the lines of the path to an unwritten scratch word, if the fault is about one, and a line feed.
fn add_rest(
    alloc: Global,
    answers: &mut Vec<u8>,
    code: &[Instr],
    numbers: &[usize],
    fault: Fault,
) -> Added
    requires { FailsFirst code.now fault }
    ensures { OnOk result (Adds (IsRest code.now numbers.now fault) answers.old.items answers.new.items) }
{
    match fault {
        Fault::Unwritten { at, word } => add_path(alloc, answers, code, numbers, at, word),
        _ => add_text(answers, b"\n"),
    }
}

/// Appends the explanation of a fault of a code.
pub(crate) fn add_code_explanation(
    alloc: Global,
    answers: &mut Vec<u8>,
    source: &[u8],
    code: &[Instr],
    fault: Fault,
) -> Added
    requires { FailsFirst code.now fault }
    ensures { OnOk result (Adds (IsCodeExplanation (source_lines source.now) code.now fault) answers.old.items answers.new.items) }
{
    let numbers = instruction_lines(alloc, source)?;
    add_code_start(alloc, answers, source, code.len(), fault, &numbers)?;
    add_code_sentence(answers, fault)?;
    add_rest(alloc, answers, code, &numbers, fault)
}

//! Lines of answers about programs, which `eval`, `check` and, of `upc-lab`, `rules`, `list`, `trace`, `differ` and `explain` print. Each
//! function appends to the answers.

ghost use Rattle.std.specs.Prelude.{◌≡◌, ◌++◌, codes, decimal, OnOk};
ghost use Rattle.hex.specs.Hex.{encode_lower};
ghost use Rattle.cmd_programs.specs.Check.{accepted_text};
ghost use Rattle.cmd_programs.specs.SourceFaults.{asm_fault};
ghost use Rattle.text_words.specs.FaultLines.{line, no_program};

use bpf_asm::{AsmFault, AsmKind};
use bpf_code::{Instr, encode};
use std::alloc::{AllocError, Global};
use text_io::Added;
use text_words::{TextFromEnd, add_number, add_numbered, add_text};

/// Appends the answer to an accepted program with this number of instructions.
#[tactic(auto, using(std::proofs::lemmas::List::append_assoc))]
pub fn add_accepted(answers: &mut Vec<u8>, instructions: usize) -> Added
    ensures { OnOk result
        (answers.new.items ≡ answers.old.items ++ line (codes "accepted " ++ decimal instructions)) }
{
    answers.extend_from_slice(b"accepted ")?;
    add_number(answers, instructions as u64)?;
    answers.push(b'\n')?;
    Ok(())
}

/// Appends a line of octets, in lower case hexadecimal digits.
#[tactic(auto, using(std::proofs::lemmas::List::append_assoc))]
fn add_octets(alloc: Global, answers: &mut Vec<u8>, octets: &[u8]) -> Added
    ensures { OnOk result (answers.new.items ≡ answers.old.items ++ line (encode_lower octets.now)) }
{
    let digits = hex::encode(alloc, octets)?;
    answers.extend_from_slice(digits.as_bytes())?;
    answers.push(b'\n')?;
    Ok(())
}

/// Appends the number of instructions of a code, and a line of their octets in hexadecimal: the answer of `upc check` to a program.
#[tactic(auto, using(std::proofs::lemmas::List::append_assoc))]
pub fn add_program(alloc: Global, answers: &mut Vec<u8>, code: &[Instr]) -> Added
    ensures { OnOk result (answers.new.items ≡ answers.old.items ++ accepted_text code.now) }
{
    let octets = encode(alloc, code).map_err(|_| AllocError)?;
    add_accepted(answers, code.len())?;
    add_octets(alloc, answers, &octets)
}

/// Appends the answer to an input without a program.
pub fn add_no_program(answers: &mut Vec<u8>) -> Added
    ensures { OnOk result (answers.new.items ≡ answers.old.items ++ no_program) }
{
    add_text(answers, b"fault script 4 NoProgram\n")
}

/// The longest answer to a cell: 13 octets of words, two numbers of at most ten digits, a line feed.
const VALUE_ROOM: usize = 34;

/// Appends the value of a program and the number of instructions executed.
#[inline(always)]
#[tactic(auto, using(std::proofs::lemmas::List::append_assoc))]
pub fn add_value(answers: &mut Vec<u8>, value: u32, steps: u32) -> Added
    ensures { OnOk result (answers.new.items ≡ answers.old.items
        ++ line (codes "value " ++ decimal value ++ codes " steps " ++ decimal steps)) }
{
    let mut text = TextFromEnd::<VALUE_ROOM>::new();
    text.put(b"\n");
    text.put_short_number(steps);
    text.put(b" steps ");
    text.put_short_number(value);
    text.put(b"value ");
    answers.extend_from_slice(text.as_slice())
}

/// Appends the answer to a source with an error.
pub fn add_asm_fault(answers: &mut Vec<u8>, fault: AsmFault) -> Added
    ensures { OnOk result (answers.new.items ≡ answers.old.items ++ asm_fault fault) }
{
    let at = fault.line;
    match fault.kind {
        AsmKind::BadLine => add_numbered(answers, b"fault asm 1 BadLine ", at),
        AsmKind::BadNumber => add_numbered(answers, b"fault asm 2 BadNumber ", at),
        AsmKind::LabelTwice => add_numbered(answers, b"fault asm 3 LabelTwice ", at),
        AsmKind::UnknownLabel => add_numbered(answers, b"fault asm 4 UnknownLabel ", at),
        AsmKind::Backward => add_numbered(answers, b"fault asm 5 Backward ", at),
        AsmKind::TooFar => add_numbered(answers, b"fault asm 6 TooFar ", at),
        AsmKind::DanglingLabel => add_numbered(answers, b"fault asm 7 DanglingLabel ", at),
        AsmKind::NoMemory => add_numbered(answers, b"fault asm 8 NoMemory ", at),
    }
}

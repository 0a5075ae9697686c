//! The fault lines of octets that are no code, and of codes that are no program. Each function appends to the answers.

ghost use Rattle.std.specs.Prelude.{◌≡◌, ◌≢◌, ◌++◌, OnOk};
ghost use Rattle.cmd_programs.specs.CodeFaults.{decode_fault, verify_fault};

use bpf_code::DecodeFault;
use bpf_verify::Fault;
use std::alloc::AllocError;
use text_io::Added;
use text_words::{add_number, add_numbered, add_text, add_two_numbers};

/// Appends the answer to eight octets that spell no instruction: their place, counted in instructions from 0, and the
/// number in the first two.
#[tactic(auto, using(std::proofs::lemmas::List::append_assoc))]
fn add_unknown_code(answers: &mut Vec<u8>, at: usize, code: u16) -> Added
    ensures { OnOk result
        (answers.new.items ≡ answers.old.items ++ decode_fault (DecodeFault.UnknownCode at code)) }
{
    answers.extend_from_slice(b"fault decode 2 UnknownCode ")?;
    add_number(answers, at as u64)?;
    answers.push(b' ')?;
    let [high, low] = code.to_be_bytes();
    let mut digits = [0; 4];
    if hex::encode_to_slice([high, low].as_slice(), &mut digits).is_err() {
        unreachable!();
    }
    answers.extend_from_slice(&digits)?;
    answers.push(b'\n')?;
    Ok(())
}

/// Appends the answer to octets that aren't a code. For `NoMemory`, which has no line, it appends nothing and fails.
pub fn add_decode_fault(answers: &mut Vec<u8>, fault: DecodeFault) -> Added
    ensures { fault ≢ DecodeFault.NoMemory →
        OnOk result (answers.new.items ≡ answers.old.items ++ decode_fault fault) }
{
    match fault {
        DecodeFault::Ragged => add_text(answers, b"fault decode 1 Ragged\n"),
        DecodeFault::UnknownCode { at, code } => add_unknown_code(answers, at, code),
        DecodeFault::NoMemory => Err(AllocError),
    }
}

/// Appends the answer to a read of a scratch word that some path to the read doesn't store.
fn add_unwritten(answers: &mut Vec<u8>, at: usize, word: u32) -> Added
    ensures { OnOk result
        (answers.new.items ≡ answers.old.items ++ verify_fault (Fault.Unwritten at word)) }
{
    add_two_numbers(
        answers,
        b"fault verify 8 Unwritten ",
        at as u64,
        u64::from(word),
    )
}

/// Appends the answer to a code that isn't a program.
pub fn add_verify_fault(answers: &mut Vec<u8>, fault: Fault) -> Added
    ensures { OnOk result (answers.new.items ≡ answers.old.items ++ verify_fault fault) }
{
    match fault {
        Fault::Empty => add_text(answers, b"fault verify 1 Empty\n"),
        Fault::TooLong => add_text(answers, b"fault verify 2 TooLong\n"),
        Fault::BadScratch { at } => add_numbered(answers, b"fault verify 3 BadScratch ", at),
        Fault::ZeroDivisor { at } => add_numbered(answers, b"fault verify 4 ZeroDivisor ", at),
        Fault::BadShift { at } => add_numbered(answers, b"fault verify 5 BadShift ", at),
        Fault::JumpOutside { at } => add_numbered(answers, b"fault verify 6 JumpOutside ", at),
        Fault::NoReturn => add_text(answers, b"fault verify 7 NoReturn\n"),
        Fault::Unwritten { at, word } => add_unwritten(answers, at, word),
    }
}

//! Octets and codes as programs.

ghost use Rattle.std.specs.Prelude.{IfOk, IfSome, option_map};
ghost use Rattle.bpf_verify.specs.Accepted.{IsAccepted};
ghost use Rattle.cmd_programs.specs.Program.{ChecksAs, ReadsAs};
ghost use Rattle.cmd_programs.specs.Finding.{Finds};

use crate::fault_lines::{add_decode_fault, add_verify_fault};
use bpf_code::{DecodeFault, Instr, decode};
use bpf_verify::first_fault;
use std::alloc::{AllocError, Global};

/// Checks a code and returns it. If the code is refused, returns None and appends the line of its first error. The result is
/// the code, since each return of a program copies 4 KiB: the caller makes the program where the program is used
/// ([`of_accepted`](bpf_verify::Program::of_accepted)).
pub fn check_code(code: Vec<Instr>, answers: &mut Vec<u8>) -> Result<Option<Vec<Instr>>, AllocError>
    ensures found { IfOk result (λ found. Finds (ChecksAs code.items) (option_map (λ code. code.items) found)
        answers.old.items answers.new.items) }
    ensures accepted { IfOk result (λ found. IfSome found (λ code. IsAccepted code.items)) }
{
    match first_fault(&code) {
        None => Ok(Some(code)),
        Some(fault) => {
            add_verify_fault(answers, fault)?;
            Ok(None)
        }
    }
}

/// Decodes and checks these octets and returns their code. If there is an error, returns None and appends its line.
pub fn read_code(
    alloc: Global,
    octets: &[u8],
    answers: &mut Vec<u8>,
) -> Result<Option<Vec<Instr>>, AllocError>
    ensures found { IfOk result (λ found. Finds (ReadsAs octets.now) (option_map (λ code. code.items) found)
        answers.old.items answers.new.items) }
    ensures accepted { IfOk result (λ found. IfSome found (λ code. IsAccepted code.items)) }
{
    match decode(alloc, octets) {
        Ok(code) => check_code(code, answers),
        Err(DecodeFault::NoMemory) => Err(AllocError),
        Err(fault) => {
            add_decode_fault(answers, fault)?;
            Ok(None)
        }
    }
}

//! The check, in one pass.

ghost use Rattle.std.specs.Prelude.{◌≡◌, ◌↔◌, ◌<◌, ℕ, IsOk, IsTrue, IfOk, IfErr, IfSome, IfNone, length, slice_index};
ghost use Rattle.bpf_code.specs.Flow.{IsReturn};
ghost use Rattle.bpf_verify.specs.Accepted.{IsAccepted, IsSized};
ghost use Rattle.bpf_verify.specs.Faults.{FailsFirst, IsUnwrittenAt};
ghost use Rattle.bpf_verify.specs.Paths.{IsWrittenAt};

use crate::fault::{Fault, Refused};
use crate::program::Program;
use crate::scratch::{MASK_PLACES, SHORT_PLACES, pass_on, unwritten_word, with_stored};
use crate::soundness::{fault_of, first_unsound};
use bpf_code::Instr;

/// The largest number of instructions of a program.
pub const MOST_INSTRUCTIONS: usize = 4096;

/// Checks a code, in one pass over its instructions and without an allocation, and makes its program.
///
/// # Errors
///
/// The code, unchanged, with the [`Fault`] that comes first.
pub fn verify(code: Vec<Instr>) -> Result<Program, Refused>
    ensures accepted { IsOk result ↔ IsAccepted code.items }
    ensures program { IfOk result (λ program. program ≡ code.items) }
    ensures fault { IfErr result (λ refused. FailsFirst code.items refused.fault) }
    ensures handed_back { IfErr result (λ refused. refused.code ≡ code) }
{
    match first_fault(&code) {
        Some(fault) => Err(Refused { code, fault }),
        None => Ok(Program::of_accepted(code)),
    }
}

/// Returns the fault that comes first, if the code has one. Doesn't allocate.
pub fn first_fault(code: &[Instr]) -> Option<Fault>
    ensures none { IfNone result (IsAccepted code.now) }
    ensures some { IfSome result (FailsFirst code.now) }
{
    if code.is_empty() {
        return Some(Fault::Empty);
    }
    if code.len() > MOST_INSTRUCTIONS {
        return Some(Fault::TooLong);
    }
    first_in_order(code)
}

/// Returns the fault that comes first in a code of 1 to 4096 instructions, if it has one. A short code has masks of 512
/// octets, since to write the 8 KiB of a long one would take longer than to check a short code.
fn first_in_order(code: &[Instr]) -> Option<Fault>
    requires { IsSized code.now }
    ensures none { IfNone result (IsAccepted code.now) }
    ensures some { IfSome result (FailsFirst code.now) }
{
    if code.len() < SHORT_PLACES {
        first_in_short(code)
    } else {
        first_in_long(code)
    }
}

/// Returns the fault that comes first in a short code, if it has one. The function is not inlined, so that its masks are
/// free again before a program is laid out.
#[inline(never)]
fn first_in_short(code: &[Instr]) -> Option<Fault>
    requires sized { IsSized code.now }
    requires short { length code.now < SHORT_PLACES }
    ensures none { IfNone result (IsAccepted code.now) }
    ensures some { IfSome result (FailsFirst code.now) }
{
    let mut written = [u16::MAX; SHORT_PLACES];
    first_among(code, &mut written)
}

/// Returns the fault that comes first in a code of any length up to 4096, if it has one. Not inlined, for the same reason as
/// [`first_in_short`].
#[inline(never)]
fn first_in_long(code: &[Instr]) -> Option<Fault>
    requires { IsSized code.now }
    ensures none { IfNone result (IsAccepted code.now) }
    ensures some { IfSome result (FailsFirst code.now) }
{
    let mut written = [u16::MAX; MASK_PLACES];
    first_among(code, &mut written)
}

/// Returns the fault that comes first in a code, if it has one. One pass looks for the faults of each instruction by
/// itself and for reads of unwritten words, so that a processor does both at a time. At the call each mask has every word,
/// and there are more masks than instructions.
fn first_among(code: &[Instr], written: &mut [u16]) -> Option<Fault>
    requires sized { IsSized code.now }
    requires room { length code.now < length written.old }
    requires full { (place : ℕ) → place < length written.old → slice_index written.old place ≡ 65535 }
    ensures none { IfNone result (IsAccepted code.now) }
    ensures some { IfSome result (FailsFirst code.now) }
{
    written[0] = 0;
    let mut here = 0;
    for (at, instr) in code.iter().enumerate() {
        if let Some(fault) = fault_of(*instr, at, code.len()) {
            return Some(fault);
        }
        if let Some(word) = unwritten_word(*instr, here) {
            return Some(unwritten_or_earlier(code, at, word));
        }
        here = pass_on(written, at, *instr, with_stored(*instr, here));
    }
    if is_return(code[code.len() - 1]) {
        None
    } else {
        Some(Fault::NoReturn)
    }
}

/// Returns the fault that comes first in a code whose first unwritten read is known: that read, unless an
/// instruction has a fault by itself, or the last instruction is not a return.
#[inline(never)]
fn unwritten_or_earlier(code: &[Instr], at: usize, word: u32) -> Fault
    requires sized { IsSized code.now }
    requires before { (place : ℕ) → place < at → IsWrittenAt code.now place }
    requires unwritten { IsUnwrittenAt code.now at word }
    ensures { FailsFirst code.now result }
{
    if let Some(fault) = first_unsound(code) {
        return fault;
    }
    if !is_return(code[code.len() - 1]) {
        return Fault::NoReturn;
    }
    Fault::Unwritten { at, word }
}

/// Returns whether an instruction ends the program.
fn is_return(instr: Instr) -> bool
    ensures { IsTrue result ↔ IsReturn instr }
{
    matches!(instr, Instr::RetK(_) | Instr::RetA)
}

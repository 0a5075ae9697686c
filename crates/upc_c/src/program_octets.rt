//! Programs as octets: their check, their source and their listing.

ghost use Rattle.std.specs.Prelude.{◌≡◌, ◌≢◌, ◌⊎◌, ◌<◌, ◌%◌, ℕ, List, length, IfOk, IfErr, IsErr};
ghost use Rattle.bpf_code.specs.OctetSpelling.{SpellsCode};
ghost use Rattle.bpf_verify.specs.Accepted.{IsAccepted};
ghost use Rattle.upc_c.specs.Faults.{AnswersCall, out_of_memory, ragged};
ghost use Rattle.upc_c.specs.Programs.{IsAsmRefusal, IsAssembled, IsCheckRefusal, IsDecodeRefusal, IsListRefusal, IsListed, IsBufferFault, IsProgram, IsWritten};
ghost use Rattle.upc_c.specs.inner.Numbered.{IsNumbered};

use crate::fault::{ForC, UpcFault, out_of_memory, report, report_success};
use crate::library_faults::{
    asm_fault_for_c, check_fault_for_c, decode_fault_for_c, list_fault_for_c,
};
use crate::room::write_to;
use bpf_asm::{assemble, listing};
use bpf_code::{Instr, decode, encode};
use bpf_verify::{Program, verify};
use std::alloc::Global;

/// Returns the code that the octets spell.
pub(crate) fn code_of(alloc: Global, octets: &[u8]) -> Result<Vec<Instr>, UpcFault>
    ensures code { IfOk result (λ code. SpellsCode octets.now code.items) }
    ensures fault { IfErr result (IsDecodeRefusal octets.now) }
    ensures ragged { 0 < length octets.now % 8 → IfErr result (λ fault. fault ≡ ragged) }
    ensures whole { 0 < length octets.now % 8 → IsErr result }
    ensures numbered { IfErr result IsNumbered }
{
    match decode(alloc, octets) {
        Ok(code) => Ok(code),
        Err(found) => Err(decode_fault_for_c(found)),
    }
}

/// Returns the program that the octets spell.
pub(crate) fn accepted(alloc: Global, octets: &[u8]) -> ForC<Program>
    ensures code { IfOk result (SpellsCode octets.now) }
    ensures accepted { IfOk result IsAccepted }
    ensures fault { IfErr result (λ fault. IsDecodeRefusal octets.now fault ⊎ IsCheckRefusal octets.now fault) }
    ensures ragged { 0 < length octets.now % 8 → IfErr result (λ fault. fault ≡ ragged) }
    ensures whole { 0 < length octets.now % 8 → IsErr result }
    ensures numbered { IfErr result IsNumbered }
{
    let code = code_of(alloc, octets)?;
    match verify(code) {
        Ok(program) => Ok(program),
        Err(refused) => Err(check_fault_for_c(refused.fault)),
    }
}

/// Returns whether the octets spell a program.
fn checked(alloc: Global, octets: &[u8]) -> ForC<()>
    ensures program { IfOk result (λ _. IsProgram octets.now) }
    ensures fault { IfErr result (λ fault. IsDecodeRefusal octets.now fault ⊎ IsCheckRefusal octets.now fault) }
    ensures ragged { 0 < length octets.now % 8 → IfErr result (λ fault. fault ≡ ragged) }
    ensures whole { 0 < length octets.now % 8 → IsErr result }
    ensures numbered { IfErr result IsNumbered }
{
    let _program = accepted(alloc, octets)?;
    Ok(())
}

/// Returns the octets of the code that the source means.
fn assembled(alloc: Global, source: &[u8]) -> Result<Vec<u8>, UpcFault>
    ensures octets { IfOk result (λ octets. IsAssembled source.now octets.items) }
    ensures fault { IfErr result (λ fault. IsAsmRefusal source.now fault ⊎ (fault ≡ out_of_memory)) }
    ensures numbered { IfErr result IsNumbered }
{
    let code = match assemble(alloc, source) {
        Ok(code) => code,
        Err(found) => return Err(asm_fault_for_c(found)),
    };
    match encode(alloc, &code) {
        Ok(octets) => Ok(octets),
        Err(_) => Err(out_of_memory()),
    }
}

/// Returns the listing of the code that the octets spell.
fn listed(alloc: Global, octets: &[u8]) -> Result<Vec<u8>, UpcFault>
    ensures text { IfOk result (λ text. IsListed octets.now text.items) }
    ensures fault { IfErr result (λ fault. IsDecodeRefusal octets.now fault ⊎ IsListRefusal octets.now fault) }
    ensures ragged { 0 < length octets.now % 8 → IfErr result (λ fault. fault ≡ ragged) }
    ensures whole { 0 < length octets.now % 8 → IsErr result }
    ensures numbered { IfErr result IsNumbered }
{
    let code = code_of(alloc, octets)?;
    match listing(alloc, &code) {
        Ok(text) => Ok(text),
        Err(found) => Err(list_fault_for_c(found)),
    }
}

/// Checks whether the octets spell a program. Returns the result of the error, or 0.
#[unsafe(no_mangle)]
pub extern "C" fn upc_check(alloc: Global, program: &[u8], fault: &mut UpcFault) -> u32
    ensures answers { AnswersCall result fault.new }
    ensures accepted { result ≡ 0 → IsProgram program.now }
    ensures refused { result ≢ 0 → IsDecodeRefusal program.now fault.new ⊎ IsCheckRefusal program.now fault.new }
    ensures ragged { 0 < length program.now % 8 → fault.new ≡ ragged }
{
    match checked(alloc, program) {
        Ok(()) => report_success(fault),
        Err(found) => report(fault, found),
    }
}

/// Writes the octets of the code that the source means to the buffer, and their number. Returns the result of the
/// error, or 0.
#[unsafe(no_mangle)]
pub extern "C" fn upc_assemble(
    alloc: Global,
    source: &[u8],
    room: &mut [u8],
    count: &mut usize,
    fault: &mut UpcFault,
) -> u32
    ensures answers { AnswersCall result fault.new }
    ensures assembled { result ≡ 0 → (octets : List ℕ) × IsAssembled source.now octets
        × IsWritten octets room.old room.new count.new }
    ensures refused { result ≢ 0 → IsAsmRefusal source.now fault.new ⊎ (fault.new ≡ out_of_memory)
        ⊎ ((octets : List ℕ) × IsAssembled source.now octets × IsBufferFault octets room.old fault.new) }
    ensures left { result ≢ 0 → room.new ≡ room.old }
    ensures count_left { result ≢ 0 → count.new ≡ count.old }
{
    match assembled(alloc, source) {
        Ok(octets) => write_to(room, count, &octets, fault),
        Err(found) => report(fault, found),
    }
}

/// Writes the listing of the code that the octets spell to the buffer, and the number of its octets. Returns the result
/// of the error, or 0.
#[unsafe(no_mangle)]
pub extern "C" fn upc_listing(
    alloc: Global,
    program: &[u8],
    room: &mut [u8],
    count: &mut usize,
    fault: &mut UpcFault,
) -> u32
    ensures answers { AnswersCall result fault.new }
    ensures listed { result ≡ 0 → (text : List ℕ) × IsListed program.now text
        × IsWritten text room.old room.new count.new }
    ensures refused { result ≢ 0 → IsDecodeRefusal program.now fault.new ⊎ IsListRefusal program.now fault.new
        ⊎ ((text : List ℕ) × IsListed program.now text × IsBufferFault text room.old fault.new) }
    ensures ragged { 0 < length program.now % 8 → fault.new ≡ ragged }
    ensures left { result ≢ 0 → room.new ≡ room.old }
    ensures count_left { result ≢ 0 → count.new ≡ count.old }
{
    match listed(alloc, program) {
        Ok(text) => write_to(room, count, &text, fault),
        Err(found) => report(fault, found),
    }
}

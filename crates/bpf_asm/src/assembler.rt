//! The assembler: it reads a whole source and returns its code or its one fault.

ghost use Rattle.std.specs.Prelude.{◌<◌, ◌⊎◌, List, length, IfErr, IfOk, IfSome, IsErr};
ghost use Rattle.bpf_asm.specs.Faults.{IsFault, IsFirstLineFault, IsOutOfMemory};
ghost use Rattle.bpf_asm.specs.SourceLines.{source_lines};
ghost use Rattle.bpf_asm.specs.Meaning.{IsMeaning};
ghost use Rattle.bpf_asm.specs.inner.Drafts.{IsDraftOf, IsFaultAt};

use crate::fault::{AsmFault, AsmKind};
use crate::resolver::resolve_all;
use crate::source_lines::next_line;
use crate::unresolved::Draft;
use bpf_code::Instr;
use std::alloc::Global;

/// Returns the fault of this kind at a line.
fn fault_at(line: usize, kind: AsmKind) -> AsmFault
    ensures { IsFaultAt line kind result }
{
    match kind {
        AsmKind::NoMemory => AsmFault { line: 0, kind },
        _ => AsmFault { line, kind },
    }
}

/// Reads every line of a source into a draft. Returns an error at the first line that has a fault of its own.
fn read_source(alloc: Global, source: &[u8]) -> Result<Draft<'_>, AsmFault>
    ensures draft { IfOk result (IsDraftOf source.now) }
    ensures within { IfOk result (λ draft. IfSome draft.dangling (λ at. at < length source.now)) }
    ensures fault { IfErr result (λ fault. IsFirstLineFault (source_lines source.now) fault ⊎ IsOutOfMemory fault) }
{
    let mut draft = Draft::new(alloc);
    let mut left = source;
    let mut count = 0;
    while let Some((line, rest)) = next_line(left) {
        match draft.take_line(count, line) {
            Ok(()) => {}
            Err(kind) => return Err(fault_at(count + 1, kind)),
        }
        count += 1;
        left = rest;
    }
    Ok(draft)
}

/// Assembles a source: returns the code that it means, or its one fault.
///
/// # Errors
///
/// The first of these applies: the first line with a bad number, outside the grammar, or with a label that an
/// earlier line defines; the first label that no instruction follows; the first label operand that no line
/// defines, that goes backward, or whose offset is too large for its field. An allocation failure returns
/// `NoMemory` at line 0 in place of any of them.
pub fn assemble(alloc: Global, source: &[u8]) -> Result<Vec<Instr>, AsmFault>
    ensures code { IfOk result (λ code. IsMeaning source.now code.items) }
    ensures fault { IfErr result (λ fault. IsFault source.now fault ⊎ IsOutOfMemory fault) }
    ensures means { (code : List Instr) → IsMeaning source.now code → IfErr result IsOutOfMemory }
    ensures faulty { (fault : AsmFault) → IsFault source.now fault → IsErr result }
{
    let draft = read_source(alloc, source)?;
    if let Some(at) = draft.dangling {
        return Err(fault_at(at + 1, AsmKind::DanglingLabel));
    }
    resolve_all(draft)
}

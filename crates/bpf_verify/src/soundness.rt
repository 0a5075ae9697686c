//! The checks of each instruction by itself.

ghost use Rattle.std.specs.Prelude.{◌+◌, ◌<◌, ◌≤◌, ◌↔◌, length, IsTrue, IfSome, IfNone};
ghost use Rattle.bpf_verify.specs.Accepted.{IsSized, IsSoundInstr};
ghost use Rattle.bpf_verify.specs.Faults.{FailsFirst, IsOwnFault, IsSoundBelow};

use crate::fault::Fault;
use bpf_code::{By, Instr, Op};

/// The number of scratch words of the machine.
const SCRATCH_WORDS: u32 = 16;

/// Returns the fault of the first instruction that is not sound, if there is one.
pub(crate) fn first_unsound(code: &[Instr]) -> Option<Fault>
    requires { IsSized code.now }
    ensures none { IfNone result (IsSoundBelow code.now (length code.now)) }
    ensures some { IfSome result (FailsFirst code.now) }
{
    for (at, instr) in code.iter().enumerate() {
        if let Some(fault) = fault_of(*instr, at, code.len()) {
            return Some(fault);
        }
    }
    None
}

/// Returns the fault that an instruction has by itself, at a place of a code of this many instructions.
pub(crate) fn fault_of(instr: Instr, at: usize, size: usize) -> Option<Fault>
    requires { at < size }
    ensures none { IfNone result (IsSoundInstr size at instr) }
    ensures some { IfSome result (IsOwnFault size at instr) }
{
    match instr {
        Instr::LoadMem(word) | Instr::LdxMem(word) | Instr::Store(word) | Instr::StoreX(word) => {
            (word >= SCRATCH_WORDS).then_some(Fault::BadScratch { at })
        }
        Instr::Alu {
            op: Op::Div | Op::Mod,
            by: By::Imm(divisor),
        } => (divisor == 0).then_some(Fault::ZeroDivisor { at }),
        Instr::Alu {
            op: Op::Lsh | Op::Rsh,
            by: By::Imm(count),
        } => (count >= u32::BITS).then_some(Fault::BadShift { at }),
        Instr::Jump(skipped) => {
            is_outside(skipped, at, size).then_some(Fault::JumpOutside { at })
        }
        Instr::Branch { jt, jf, .. } => {
            let furthest = u32::from(jt.max(jf));
            is_outside(furthest, at, size).then_some(Fault::JumpOutside { at })
        }
        _ => None,
    }
}

/// Returns whether a jump over this many instructions leads outside the code.
fn is_outside(skipped: u32, at: usize, size: usize) -> bool
    requires { at < size }
    ensures { IsTrue result ↔ (size ≤ at + 1 + skipped) }
{
    skipped as usize >= size - at - 1
}

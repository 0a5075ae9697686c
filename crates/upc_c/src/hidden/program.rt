//! A program under a pointer whose type C doesn't see.

ghost use Rattle.std.specs.Prelude.{◌≡◌, List, Option};
ghost use Rattle.bpf_code.specs.declared.instr.Instr.{Instr};

use crate::hidden::Hidden;
use bpf_verify::Program;
use std::alloc::Global;
use std::marker::{Model, Send};

/// A program in a box, or none. C has the pointer and never reads what it points to.
#[repr(C)]
#[derive(Drop)]
pub struct HiddenProgram {
    at: *mut u8,
    alloc: Global,
    pub(crate) ghost code: { Option (List Instr) },
}

impl Model for HiddenProgram {
    ghost use Rattle.std.specs.Prelude.{List, Option};
    ghost use Rattle.bpf_code.specs.declared.instr.Instr.{Instr};
    ghost use Rattle.bpf_verify.specs.contracts.program.Program.{the_row};
    ghost use Rattle.upc_c.specs.inner.Hidden.{owned_for_c};

    ghost also_owns = { λ h. owned_for_c the_row h.alloc h.at h.code };
}

// A program may move to another thread, since its box may.
unsafe impl Send for HiddenProgram {}

impl HiddenProgram {
    /// Hides the type of a program from C.
    pub(crate) fn of(hidden: Hidden<Program>) -> HiddenProgram
        ensures { result.code ≡ hidden.value }
    {
        let Hidden { at, alloc } = hidden;
        HiddenProgram {
            at: at as *mut u8,
            alloc,
        }
    }

    /// Takes the program back, with its type.
    pub(crate) fn into_hidden(self) -> Hidden<Program>
        ensures { result.value ≡ self.code }
    {
        let HiddenProgram { at, alloc } = self;
        Hidden {
            at: at as *mut Program,
            alloc,
        }
    }
}

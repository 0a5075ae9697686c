//! The calls for a program that C has.

ghost use Rattle.std.specs.Prelude.{◌≡◌, ◌≢◌, List, length, Some, None, IfOk, IfErr, IfSome, IfNone};
ghost use Rattle.bpf_code.specs.OctetSpelling.{SpellsCode};
ghost use Rattle.bpf_code.specs.declared.instr.Instr.{Instr};
ghost use Rattle.bpf_interp.specs.Value.{Value};
ghost use Rattle.bpf_verify.specs.Accepted.{IsAccepted};
ghost use Rattle.upc_c.specs.Faults.{AnswersCall};
ghost use Rattle.upc_c.specs.ProgramHandle.{IsNoProgram, IsRunFault, program_in, program_there};
ghost use Rattle.upc_c.specs.inner.Numbered.{IsNumbered};

use crate::cell::cell_of;
use crate::fault::{OF_THE_CALL, UpcFault, fault_at, out_of_memory, report, report_success};
use crate::hidden::{Hidden, HiddenProgram};
use crate::program::UpcProgram;
use crate::program_octets::accepted;
use bpf_interp::run;
use bpf_verify::Program;
use std::alloc::Global;
use std::mem::replace;

/// Makes the program of these octets, in a box.
fn program_of(alloc: Global, octets: &[u8]) -> Result<Box<Program>, UpcFault>
    ensures code { IfOk result (λ program. SpellsCode octets.now program.value) }
    ensures accepted { IfOk result (λ program. IsAccepted program.value) }
    ensures fault { IfErr result (IsNoProgram octets.now) }
    ensures numbered { IfErr result IsNumbered }
{
    let program = accepted(alloc, octets)?;
    match Box::new(alloc, program) {
        Ok(boxed) => Ok(boxed),
        Err(_) => Err(out_of_memory()),
    }
}

/// Makes the program that the octets spell, if there is none. Returns the result of the error, or 0.
#[unsafe(no_mangle)]
pub extern "C" fn upc_program_new(
    alloc: Global,
    octets: &[u8],
    program: &mut UpcProgram,
    fault: &mut UpcFault,
) -> u32
    ensures answers { AnswersCall result fault.new }
    ensures made { result ≡ 0 → (program_in program.old ≡ None)
        × ((code : List Instr) × SpellsCode octets.now code × IsAccepted code × (program_in program.new ≡ Some code)) }
    ensures there { program_in program.old ≢ None → fault.new ≡ program_there }
    ensures refused { result ≢ 0 → program_in program.old ≡ None → IsNoProgram octets.now fault.new }
    ensures left { result ≢ 0 → program.new ≡ program.old }
{
    if program.live != 0 {
        return report(fault, fault_at(OF_THE_CALL, 6, 0));
    }
    match program_of(alloc, octets) {
        Ok(made) => {
            *program = UpcProgram {
                live: 1,
                inner: HiddenProgram::of(Hidden::of(made)),
            };
            report_success(fault)
        }
        Err(found) => report(fault, found),
    }
}

/// Takes the program out, if there is one. The handle then has none.
fn take_program(alloc: Global, program: &mut UpcProgram) -> Option<Box<Program>>
    ensures code { IfSome result (λ boxed. program_in program.old ≡ Some boxed.value) }
    ensures gone { program_in program.new ≡ None }
    ensures none { IfNone result (program_in program.old ≡ None) }
    ensures left { IfNone result (program.new ≡ program.old) }
{
    if program.live == 0 {
        return None;
    }
    let old = replace(
        program,
        UpcProgram {
            live: 0,
            inner: HiddenProgram::of(Hidden::none(alloc)),
        },
    );
    let UpcProgram { live: _, inner } = old;
    Some(inner.into_hidden().into_box())
}

/// Frees the program. Without a program it does nothing.
#[unsafe(no_mangle)]
pub extern "C" fn upc_program_free(alloc: Global, program: &mut UpcProgram)
    ensures { program_in program.new ≡ None }
{
    drop(take_program(alloc, program));
}

/// Runs the program on a cell of 52 octets. Returns the result of the error, or 0.
#[unsafe(no_mangle)]
pub extern "C" fn upc_program_run(
    alloc: Global,
    program: &mut UpcProgram,
    octets: &[u8],
    value: &mut u32,
    steps: &mut u32,
    fault: &mut UpcFault,
) -> u32
    ensures answers { AnswersCall result fault.new }
    ensures ran { result ≡ 0 → (length octets.now ≡ 52) × ((code : List Instr) × (program_in program.old ≡ Some code)
        × IsAccepted code × Value code octets.now value.new steps.new) }
    ensures kept { program_in program.new ≡ program_in program.old }
    ensures refused { result ≢ 0 → IsRunFault (program_in program.old) octets.now fault.new }
    ensures left { result ≢ 0 → (value.new ≡ value.old) × (steps.new ≡ steps.old) }
{
    let cell = match cell_of(octets) {
        Ok(cell) => cell,
        Err(found) => return report(fault, found),
    };
    let Some(boxed) = take_program(alloc, program) else {
        return report(fault, fault_at(OF_THE_CALL, 7, 0));
    };
    let outcome = run(&boxed, &cell);
    *program = UpcProgram {
        live: 1,
        inner: HiddenProgram::of(Hidden::of(boxed)),
    };
    *value = outcome.value;
    *steps = outcome.steps;
    report_success(fault)
}

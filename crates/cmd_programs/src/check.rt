//! `upc check`: assembles and checks a source.

ghost use Rattle.std.specs.Prelude.{IfErr, IfOk};
ghost use Rattle.bpf_asm.specs.Faults.{IsFault};
ghost use Rattle.bpf_asm.specs.Meaning.{IsMeaning};
ghost use Rattle.cmd_programs.specs.Check.{IsCheckText, PrintsCode};
ghost use Rattle.text_io.specs.Devices.{Adds};
ghost use Rattle.text_io.specs.Serving.{IsServed};

use crate::answer_texts::{add_asm_fault, add_program};
use crate::program_reading::check_code;
use bpf_asm::{AsmFault, AsmKind, assemble};
use bpf_code::Instr;
use std::alloc::{AllocError, Global};
use text_io::{Answered, Answerer, Done, Ending, Input, Output, answer_whole};
use text_words::TOO_LONG;

/// The maximum number of octets of a source.
pub const MOST_SOURCE_OCTETS: u32 = 1048576;

/// Assembles a source: returns the code that the source means, or its error.
///
/// # Errors
///
/// `AllocError` if an allocation failed.
fn assembled(alloc: Global, source: &[u8]) -> Result<Result<Vec<Instr>, AsmFault>, AllocError>
    ensures code { IfOk result (λ read. IfOk read (λ code. IsMeaning source.now code.items)) }
    ensures fault { IfOk result (λ read. IfErr read (λ fault. IsFault source.now fault)) }
{
    match assemble(alloc, source) {
        Ok(code) => Ok(Ok(code)),
        Err(
            AsmFault {
                kind: AsmKind::NoMemory,
                ..
            },
        ) => Err(AllocError),
        Err(fault) => Ok(Err(fault)),
    }
}

/// Answers a code: its octets, or its first error.
fn answer_code(alloc: Global, code: Vec<Instr>, answers: &mut Vec<u8>) -> Answered
    ensures { IfOk result (λ done.
        Adds (λ text. PrintsCode code.items text done) answers.old.items answers.new.items) }
{
    match check_code(code, answers)? {
        Some(code) => {
            add_program(alloc, answers, &code)?;
            Ok(Done::Whole)
        }
        None => Ok(Done::Ended),
    }
}

/// Answers a source: its code, or its error.
struct Checker;

impl Answerer for Checker {
    ghost use Rattle.cmd_programs.specs.Check.{PrintsSource};
    ghost use Rattle.cmd_programs.specs.inner.CheckLaws.{source-printed};

    ghost prints = { λ checker. PrintsSource };

    ghost allows = { λ checker. PrintsSource };

    fn answer(&self, alloc: Global, octets: &[u8], answers: &mut Vec<u8>) -> Answered {
        match assembled(alloc, octets)? {
            Ok(code) => answer_code(alloc, code, answers),
            Err(fault) => {
                add_asm_fault(answers, fault)?;
                Ok(Done::Ended)
            }
        }
    }

    ghost is_wider = { λ checker octets text done prints. prints };

    ghost is_total = { λ checker. source-printed };
}

/// Answers a source of assembly: the number of instructions of its program and their octets in lower case hexadecimal
/// digits, or its first error.
///
/// # Errors
///
/// See [`text_io::RunFault`].
pub fn check_source<I: Input, O: Output>(alloc: Global, input: &mut I, output: &mut O) -> Ending
    ensures { IsServed IsCheckText I.Input input.old input.new O.Output output.old output.new result }
{
    answer_whole(alloc, input, output, MOST_SOURCE_OCTETS, TOO_LONG, &Checker)
}

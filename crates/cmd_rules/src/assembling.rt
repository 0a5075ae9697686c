//! `upc-lab asm`: compiles a text of rules to a source of assembly.

ghost use Rattle.std.specs.Prelude.{◌≡◌, ◌++◌, IfOk, OnOk};
ghost use Rattle.bpf_asm.specs.Meaning.{IsMeaning};
ghost use Rattle.bpf_asm.specs.SourceLines.{source_lines};
ghost use Rattle.text_io.specs.Devices.{Adds};
ghost use Rattle.text_io.specs.Serving.{IsServed};
ghost use Rattle.cmd_rules.specs.AsmText.{IsAsmText, MayBeAsmText, PrintsAsm, asm_text};

use crate::annotating::add_annotated;
use crate::fault_lines::end_by_fault;
use crate::whole_text::{Printed, answer_rules};
use bpf_asm::listing;
use rules_text::{CodeWithPlaces, compile_with_places};
use std::alloc::{AllocError, Global};
use text_io::{Done, Ending, Input, Output};

/// Appends the source of a code of rules. `listing` fails only for lack of memory, since no jump of an accepted code leaves it.
fn add_source(
    alloc: Global,
    answers: &mut Vec<u8>,
    text: &[u8],
    made: &CodeWithPlaces,
) -> Result<(), AllocError>
    ensures source { OnOk result (answers.new.items ≡ answers.old.items ++ asm_text (source_lines text.now) made.now) }
    ensures meaning { OnOk result (IsMeaning (asm_text (source_lines text.now) made.now) made.now.placed.code.items) }
{
    match listing(alloc, &made.placed.code) {
        Ok(lines) => add_annotated(alloc, answers, text, made, &lines),
        Err(_) => Err(AllocError),
    }
}

/// Answers a text: the source of the program of its rules, or its fault.
pub(crate) fn answer_by_source(
    alloc: Global,
    text: &[u8],
    answers: &mut Vec<u8>,
) -> Result<Done, AllocError>
    ensures { IfOk result (λ done.
        Adds (λ answer. PrintsAsm text.now answer done) answers.old.items answers.new.items) }
{
    match compile_with_places(alloc, text) {
        Ok(made) => {
            add_source(alloc, answers, text, &made)?;
            Ok(Done::Whole)
        }
        Err(fault) => end_by_fault(answers, fault),
    }
}

/// Answers a text of rules by a source of assembly: the listing of the program that they are compiled to, and before the code of each
/// line of rules a comment with that line. A text with a fault is answered by the fault.
///
/// # Errors
///
/// See [`text_io::RunFault`].
pub fn assemble_rules<I: Input, O: Output>(alloc: Global, input: &mut I, output: &mut O) -> Ending
    ensures served { IsServed MayBeAsmText I.Input input.old input.new O.Output output.old output.new result }
    ensures printed { I.is_known → O.is_known → IfOk result (λ done.
        Adds (λ answer. IsAsmText (I.rest input.old) answer done) (O.held output.old) (O.held output.new)) }
{
    answer_rules(alloc, Printed::Source, input, output)
}

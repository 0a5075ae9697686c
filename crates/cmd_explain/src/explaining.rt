//! The entry of `upc-lab explain`. The first line of the input says what the input is. A source of assembly is explained here; a text of
//! rules, a script and fault lines are passed on (`explain_rules`, `explain_script`, `explain_fault_lines`).

ghost use Rattle.std.specs.Prelude.{IfOk};
ghost use Rattle.text_io.specs.Devices.{Adds};
ghost use Rattle.text_io.specs.Serving.{IsServed};
ghost use Rattle.cmd_explain.specs.Explained.{ExplainsCode, IsExplainText, IsSourceText, IsWholeExplanation};

use crate::code_faults::add_code_explanation;
use crate::fault_sentences::explain_fault_lines;
use crate::first_line::{Ahead, InputKind};
use crate::source_faults::add_source_explanation;
use crate::source_hints::add_hints;
use bpf_asm::{AsmFault, AsmKind, assemble};
use bpf_code::Instr;
use bpf_verify::first_fault;
use cmd_explain_rules::explain_rules;
use cmd_explain_script::explain_script;
use cmd_programs::{MOST_SOURCE_OCTETS, add_accepted, add_asm_fault, add_verify_fault};
use std::alloc::{AllocError, Global};
use text_io::{Answered, Answerer, Done, Ending, Input, Output, answer_whole};
use text_words::TOO_LONG;

/// Answers a code: that it has no fault, with hints, or its first one and an explanation.
#[tactic(auto, using(std::proofs::lemmas::List::append_assoc))]
fn explain_code(alloc: Global, source: &[u8], code: &[Instr], answers: &mut Vec<u8>) -> Answered
    ensures { IfOk result (λ done. Adds (λ text. ExplainsCode source.now code.now text done) answers.old.items answers.new.items) }
{
    match first_fault(code) {
        None => {
            add_accepted(answers, code.len())?;
            add_hints(alloc, answers, source, code)?;
            Ok(Done::Whole)
        }
        Some(fault) => {
            add_verify_fault(answers, fault)?;
            add_code_explanation(alloc, answers, source, code, fault)?;
            Ok(Done::Ended)
        }
    }
}

/// The answerer that explains a source.
struct Sources;

impl Answerer for Sources {
    ghost use Rattle.cmd_explain.specs.Explained.{ExplainsSource};
    ghost use Rattle.cmd_explain.specs.inner.SourcesTotal.{source-answered};

    ghost prints = { λ sources. ExplainsSource };

    ghost allows = { λ sources. ExplainsSource };

    fn answer(&self, alloc: Global, octets: &[u8], answers: &mut Vec<u8>) -> Answered {
        match assemble(alloc, octets) {
            Ok(code) => explain_code(alloc, octets, &code, answers),
            Err(
                AsmFault {
                    kind: AsmKind::NoMemory,
                    ..
                },
            ) => Err(AllocError),
            Err(fault) => {
                add_asm_fault(answers, fault)?;
                add_source_explanation(alloc, answers, octets, fault)?;
                Ok(Done::Ended)
            }
        }
    }

    ghost is_wider = { λ sources octets text done prints. prints };

    ghost is_total = { λ sources. source-answered };
}

/// Answers a source: the fault that `upc check` finds, with its line, the column of the token that is wrong and a sentence, or that
/// there is none.
fn explain_source<I: Input, O: Output>(alloc: Global, input: &mut I, output: &mut O) -> Ending
    ensures { IsServed IsSourceText I.Input input.old input.new O.Output output.old output.new result }
{
    answer_whole(alloc, input, output, MOST_SOURCE_OCTETS, TOO_LONG, &Sources)
}

/// Explains the faults of an input. The first line says what the input is: `source` (a source of assembly, with the fault that `upc check`
/// finds), `rules` (a text of rules, with that of `upc-lab rules`) or `faults` (fault lines, each of which gets a sentence). Any other
/// first line begins a script, with the fault lines of `upc run`. Each fault of a source, of rules or of a script is shown with its
/// line, the column of the wrong word and a sentence. docs/LAB.md has the format.
///
/// # Errors
///
/// See [`text_io::RunFault`].
pub fn explain_faults<I: Ahead, O: Output>(alloc: Global, input: &mut I, output: &mut O) -> Ending
    ensures served { IsServed IsExplainText I.Input input.old input.new O.Output output.old output.new result }
    ensures printed { I.is_known → O.is_known → IfOk result (λ done.
        Adds (λ text. IsWholeExplanation (I.rest input.old) text done) (O.held output.old) (O.held output.new)) }
{
    match input.pass_first_line() {
        Err(fault) => Err(fault),
        Ok(InputKind::Source) => explain_source(alloc, input, output),
        Ok(InputKind::Rules) => explain_rules(alloc, input, output),
        Ok(InputKind::Faults) => explain_fault_lines(alloc, input, output),
        Ok(InputKind::Script) => explain_script(alloc, input, output),
    }
}

//! What `upc-lab rules` prints. The program runs `compile_with_hints` of `cmd_explain_rules`, which answers the same and adds hints.

ghost use Rattle.std.specs.Prelude.{IfOk};
ghost use Rattle.text_io.specs.Devices.{Adds};
ghost use Rattle.text_io.specs.Serving.{IsServed};
ghost use Rattle.cmd_rules.specs.RulesText.{IsRulesText, MayBeRulesText, PrintsRules};

use crate::fault_lines::end_by_fault;
use crate::whole_text::{Printed, answer_rules};
use cmd_programs::add_program;
use rules_text::compile_text;
use std::alloc::{AllocError, Global};
use text_io::{Done, Ending, Input, Output};

/// Appends the answer to a text: the number of instructions and the octets of the program of its rules, or the fault of the text.
///
/// # Errors
///
/// `AllocError` if an allocation failed.
pub fn answer_by_octets(
    alloc: Global,
    text: &[u8],
    answers: &mut Vec<u8>,
) -> Result<Done, AllocError>
    ensures { IfOk result (λ done.
        Adds (λ answer. PrintsRules text.now answer done) answers.old.items answers.new.items) }
{
    match compile_text(alloc, text) {
        Ok(code) => {
            add_program(alloc, answers, &code)?;
            Ok(Done::Whole)
        }
        Err(fault) => end_by_fault(answers, fault),
    }
}

/// Answers a text of rules: the number of instructions of the program that they are compiled to and its octets in lower case
/// hexadecimal digits, or the fault of the text with its line and column. docs/RULES.md has the rules.
///
/// # Errors
///
/// See [`text_io::RunFault`].
pub fn compile_rules<I: Input, O: Output>(alloc: Global, input: &mut I, output: &mut O) -> Ending
    ensures served { IsServed MayBeRulesText I.Input input.old input.new O.Output output.old output.new result }
    ensures printed { I.is_known → O.is_known → IfOk result (λ done.
        Adds (λ answer. IsRulesText (I.rest input.old) answer done) (O.held output.old) (O.held output.new)) }
{
    answer_rules(alloc, Printed::Octets, input, output)
}

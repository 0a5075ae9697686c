//! `upc eval`: the value of a program on each cell.

ghost use Rattle.text_io.specs.Serving.{IsServed};
ghost use Rattle.cmd_programs.specs.Eval.{IsEvalText};

use crate::after_program::answer_program_lines;
use crate::answer_texts::add_value;
use crate::cell_lines::{CellUser, OnCells};
use bpf_code::Instr;
use bpf_interp::run;
use bpf_verify::Program;
use std::alloc::{AllocError, Global};
use text_io::{Added, Ending, Input, Output};
use upc_cell::Cell;

/// Answers each cell with the value of the program.
impl CellUser for Program {
    ghost use Rattle.cmd_programs.specs.Eval.{PrintsValue};
    ghost use Rattle.cmd_programs.specs.inner.CellLaws.{prints-value};

    ghost prints = { PrintsValue };

    ghost code = { λ program. program };

    #[inline(always)]
    fn take_code(_: Global, accepted: Vec<Instr>) -> Result<Program, AllocError> {
        Ok(Program::of_accepted(accepted))
    }

    #[inline(always)]
    fn answer_cell(&self, cell: &Cell, answers: &mut Vec<u8>) -> Added {
        let outcome = run(self, cell);
        add_value(answers, outcome.value, outcome.steps)
    }

    ghost is_total = { prints-value };
}

/// Answers the lines of an input. The first line with words is a program in hexadecimal digits. Each later line is a
/// cell, and its answer is the program's value and the number of its steps.
///
/// # Errors
///
/// See [`text_io::RunFault`].
pub fn eval_bytes<I: Input, O: Output>(alloc: Global, input: &mut I, output: &mut O) -> Ending
    ensures { IsServed IsEvalText I.Input input.old input.new O.Output output.old output.new result }
{
    answer_program_lines::<OnCells<Program>, I, O>(alloc, input, output)
}

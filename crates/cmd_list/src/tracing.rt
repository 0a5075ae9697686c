//! `upc-lab trace`: each step of a program on each cell.

ghost use Rattle.std.specs.Prelude.{◌≡◌, OnOk};
ghost use Rattle.bpf_asm.specs.Listing.{listing_of};
ghost use Rattle.text_io.specs.Devices.{Adds};
ghost use Rattle.text_io.specs.Serving.{IsServed};
ghost use Rattle.cmd_list.specs.Trace.{IsTraceText, PrintsTrace};

use crate::step_lines::add_step;
use bpf_asm::listing;
use bpf_code::Instr;
use bpf_interp::Registers;
use bpf_verify::Program;
use cmd_programs::{CellUser, OnCells, add_value, answer_program_lines, first_line, lines_after};
use std::alloc::{AllocError, Global};
use std::marker::Model;
use std::ops::ControlFlow::{Break, Continue};
use text_io::{Added, Ending, Input, Output};
use upc_cell::Cell;

/// A program and its listing. Contracts see the program.
#[derive(Drop)]
struct Listed {
    program: Program,
    listing: Vec<u8>,
}

impl Model for Listed {
    ghost use Rattle.std.specs.Prelude.{◌≡◌, List};
    ghost use Rattle.bpf_asm.specs.Listing.{listing_of};
    ghost use Rattle.bpf_code.specs.declared.instr.Instr.{Instr};

    ghost Value = { List Instr };

    ghost view = { λ listed. listed.program };

    ghost invariant = { λ listed. listed.listing.items ≡ listing_of listed.program };
}

/// Appends a line for each instruction that the program runs on a cell, and then the program's value.
fn add_trace(program: &Program, listing: &[u8], cell: &Cell, answers: &mut Vec<u8>) -> Added
    requires { listing.now ≡ listing_of program.now }
    ensures { OnOk result (Adds (PrintsTrace program.now cell.now) answers.old.items answers.new.items) }
{
    let code = program.code();
    let mut registers = Registers::FIRST;
    let mut scratch = [0; 16];
    let mut lines = listing;
    let mut steps = 0;
    loop {
        let instr = &code[registers.pc];
        let flow = registers.step(instr, cell.bytes(), &mut scratch);
        add_step(answers, first_line(lines), instr, &registers, &flow)?;
        steps += 1;
        match flow {
            Continue(next) => {
                lines = lines_after(lines, next.pc - registers.pc);
                registers = next;
            }
            Break(value) => return add_value(answers, value, steps),
        }
    }
}

impl CellUser for Listed {
    ghost use Rattle.cmd_list.specs.Trace.{PrintsTrace};
    ghost use Rattle.cmd_list.specs.inner.TraceLaws.{prints-trace};

    ghost prints = { PrintsTrace };

    ghost code = { λ listed. listed };

    fn take_code(alloc: Global, accepted: Vec<Instr>) -> Result<Listed, AllocError> {
        // No jump of an accepted code leaves it, so the listing fails only for lack of memory.
        let listing = listing(alloc, &accepted).map_err(|_| AllocError)?;
        Ok(Listed {
            program: Program::of_accepted(accepted),
            listing,
        })
    }

    fn answer_cell(&self, cell: &Cell, answers: &mut Vec<u8>) -> Added {
        add_trace(&self.program, &self.listing, cell, answers)
    }

    ghost is_total = { prints-trace };
}

/// Answers the lines of an input. The first line with words is a program in hexadecimal digits. Each later line is a
/// cell, and its answer is a line for each instruction that the program runs on it, with what the machine holds after the
/// instruction, and then the program's value and the number of those lines. docs/LAB.md has the format.
///
/// # Errors
///
/// See [`text_io::RunFault`].
pub fn trace_cells<I: Input, O: Output>(alloc: Global, input: &mut I, output: &mut O) -> Ending
    ensures { IsServed IsTraceText I.Input input.old input.new O.Output output.old output.new result }
{
    answer_program_lines::<OnCells<Listed>, I, O>(alloc, input, output)
}

//! Octets and codes as programs, with the fault lines of those that are none, and the subcommands for one program: `eval` runs it on each
//! cell, and `check` assembles and checks its source.
#![tactic(auto)]

mod after_program;
mod answer_texts;
mod cell_lines;
mod check;
mod eval;
mod fault_lines;
mod program_reading;
mod source_lines;

pub use after_program::{ProgramUser, answer_program_lines};
pub use answer_texts::{add_accepted, add_asm_fault, add_no_program, add_program, add_value};
pub use cell_lines::{CellUser, OnCells};
pub use check::{MOST_SOURCE_OCTETS, check_source};
pub use eval::eval_bytes;
pub use fault_lines::{add_decode_fault, add_verify_fault};
pub use program_reading::{check_code, read_code};
pub use source_lines::{first_line, lines_after};

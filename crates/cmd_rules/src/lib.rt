//! Three subcommands of `upc-lab` for texts of rules: `rules` prints the octets of their program, `asm` prints it as a source of assembly,
//! and `why` says which rule decides each cell.
#![tactic(auto)]

mod annotating;
mod assembling;
mod before_cells;
mod begins;
mod compiling;
mod counting;
mod decider;
mod deciding;
mod fault_lines;
pub mod laws;
mod whole_text;

pub use assembling::assemble_rules;
pub use begins::{add_begin, add_decider, begin_at};
pub use compiling::{answer_by_octets, compile_rules};
pub use decider::{Decider, value_on};
pub use deciding::decide_cells;
pub use fault_lines::add_rule_fault;
pub use whole_text::MOST_RULES_OCTETS;

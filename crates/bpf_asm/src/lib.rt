//! The assembler of classic BPF programs, and the listing of a code.
#![tactic(auto)]

mod assembler;
mod fault;
mod labels;
pub mod laws;
mod line;
mod lister;
mod mnemonic;
mod operand;
mod resolver;
mod source_lines;
mod statement;
mod token;
mod unresolved;

pub use assembler::assemble;
pub use fault::{AsmFault, AsmKind, ListFault};
pub use lister::listing;
pub use source_lines::next_line;
pub use token::number;

//! The machine that runs checked classic BPF programs on ATM cells.
#![tactic(auto)]

mod arithmetic;
mod interpreter;
pub mod laws;
mod packet;
mod registers;
mod turn;
mod twos;

pub use interpreter::{Outcome, run};
pub use registers::Registers;

//! The static check of classic BPF programs, and the type of a program that passed it.
#![tactic(auto)]

mod fault;
mod flat;
pub mod laws;
mod layout;
mod program;
mod scratch;
mod soundness;
mod verifier;

pub use fault::{Fault, Refused};
pub use flat::{Flat, Row};
pub use layout::{FLAT_PLACES, MOST_LAID_OUT};
pub use program::Program;
pub use verifier::{MOST_INSTRUCTIONS, first_fault, verify};

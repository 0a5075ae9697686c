//! The subcommands `differ` and `unused` of `upc-lab`: what a change of rules or of a program means for every cell, and which rules decide
//! none.
#![tactic(auto)]

mod change_lines;
mod comparing;
mod finding;
mod giving;
mod kinds;
pub mod laws;
mod program_text;
mod reading;
mod searching;
mod sides;
mod unused_lines;

pub use comparing::compare_texts;
pub use finding::{Finding, ended_by};
pub use kinds::{TextKind, TextKinds};
pub use searching::unused_in_text;

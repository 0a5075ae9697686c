//! Rules that give each cell a value, and the classic BPF code that gives the same value.
#![tactic(auto)]

mod compiler;
mod deciding;
mod field;
pub mod laws;
mod plain;
mod relation;
mod rules;
mod test;

pub use compiler::{compile, compile_placed};
pub use deciding::{Decision, decide};
pub use field::{Field, Octets};
pub use relation::Relation;
pub use rules::{RuleLine, Rules};
pub use rules_code::{CodeFault, PlacedCode, Span};
pub use test::Test;

//! The text of rules: its reader, and the compiler from text to code.
#![tactic(auto)]

mod class;
mod comparison_reader;
mod compiler;
mod continued_lines;
mod definition;
mod fault;
mod group;
pub mod laws;
mod lexer;
mod line_reader;
mod names;
mod place;
mod reader;
mod statement_reader;
mod subject;
mod test_reader;

pub use class::Class;
pub use compiler::{CodeWithPlaces, compile_text, compile_with_places};
pub use continued_lines::next_rule_line;
pub use fault::{RuleFault, RuleFaultKind};
pub use lexer::{Found, Sign, Token, WORDS, digit, next_token, word_octet};
pub use place::{RulePlace, TextPlace, place_after};
pub use reader::{PlacedRules, read_rules, read_with_places};

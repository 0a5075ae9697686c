//! Decision diagrams over the bits of a cell: they compare rules or programs on every cell, and find the rules that decide none.
#![tactic(auto)]

mod case;
mod choosing;
mod compared;
mod comparing;
mod contents;
mod diagram;
mod fault;
mod following;
mod holding;
mod lines;
mod meeting;
mod met_tests;
mod numbers;
mod operations;
mod program;
mod reaching;
mod searching;
mod span;
mod step;
mod store;
mod unused;
mod walk;
mod word;
mod word_results;
mod word_tests;

pub use case::Case;
pub use compared::Compared;
pub use comparing::{compare, compare_sides, give_same};
pub use fault::{Uncompared, Undecided};
pub use searching::unused_rules;
pub use store::MOST_NODES;
pub use unused::Unused;
pub use walk::{MOST_MEETINGS, MOST_STEPS};

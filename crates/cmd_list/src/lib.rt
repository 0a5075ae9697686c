//! The subcommands of `upc-lab` for those who write programs: `list` lists a program, and `trace` shows each step of a
//! program on each cell.
#![tactic(auto)]

pub mod laws;
mod listing;
mod longest;
mod step_lines;
mod tracing;

pub use listing::{add_listing, list_program};
pub use tracing::trace_cells;

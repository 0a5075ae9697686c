//! The subcommand `size` of `upc-lab`: the buckets of a policer, from the figures of a contract.
#![tactic(auto)]

mod advice;
mod fault;
mod figures;
pub mod laws;
mod size;
mod size_text;
mod size_words;
mod sizing;

pub use advice::better_tick;
pub use fault::SizeFault;
pub use figures::{CellRate, Figures, Sustained, VbrKind};
pub use size::size_contracts;
pub use size_text::{add_size_fault, add_sizes};
pub use size_words::duration;
pub use sizing::{SizedRate, Sizes, sized};

//! The words of `upc-lab`: its subcommands and their options, and what it says beside its answers.
#![tactic(auto)]

mod cells;
mod choice;
mod differ;
mod explain;
mod fit;
mod forward;
mod help_words;
pub mod laws;
mod link;
mod notice;
mod police;
mod programs;
mod progress;
mod reason;
mod values;
mod why;

pub use cells::{CellsOptions, cells_options};
pub use choice::{Asked, Subcommand, choose};
pub use differ::{DifferOptions, differ_options};
pub use explain::{ExplainOptions, explain_options};
pub use fit::{FitOptions, fit_options};
pub use forward::{ForwardOptions, forward_options};
pub use help_words::WithOptions;
pub use notice::awaited;
pub use police::{PoliceOptions, police_options};
pub use programs::Programs;
pub use progress::{Counted, reads_capture};
pub use reason::{WithReason, Work, in_words};
pub use why::{WhyOptions, why_options};

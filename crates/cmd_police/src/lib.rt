//! The cells of a captured link, policed by the contracts of a setup script: `upc-lab police`.
#![tactic(auto)]

mod cell_columns;
mod cell_lines;
mod compiling;
mod expanding;
mod explained_setup;
pub mod laws;
mod police;
mod policed_card;
mod preparing;
mod program_rules;
mod rule_column;
mod scope;
mod setup_with_rules;

pub use explained_setup::{explain_setup, hints_of_setup};
pub use police::{PoliceChoice, police_capture};
pub use policed_card::{Opened, OpenedCard, PolicedCard, open_card, open_setup};
pub use program_rules::{LoadedRules, ProgramRules};
pub use scope::PoliceScope;
pub use setup_with_rules::{police_as_agreed, police_setup};

//! The subcommand `upc run`: one card answers the lines of a script, commands for its desk and cells, one line at a time.
#![tactic(auto)]

pub mod laws;
mod run;
mod script_card;

pub use run::{Policing, run_script};
pub use script_card::ScriptCard;

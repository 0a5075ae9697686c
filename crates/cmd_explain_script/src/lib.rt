//! `upc-lab explain` of a script: each fault line of `upc run`, with the line, the column of the word that is wrong, and a sentence; and
//! hints.
#![tactic(auto)]

mod contract_numbers;
mod explaining;
mod forms;
mod found_words;
pub mod laws;
mod loaded_programs;
mod meant;
mod places;
mod reasons;
mod script_faults;
mod setup_hints;
mod tables;
mod wrong_words;

pub use contract_numbers::NamesNoContract;
pub use explaining::explain_script;
pub use forms::{ScriptForm, ScriptSlot};
pub use found_words::{FoundWord, after, column_of, front, word_octets};
pub use meant::{add_perhaps, is_near};
pub use places::{add_place, add_quoted};
pub use script_faults::ScriptFault;
pub use tables::{near_among, value_among};

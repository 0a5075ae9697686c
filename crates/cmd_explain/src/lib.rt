//! `upc-lab explain`: where a source, a text of rules or a script is faulty, what is wrong there, and what would be right; and sentences
//! about fault lines.
#![tactic(auto)]

mod bad_lines;
mod code_faults;
mod explaining;
mod fault_sentences;
mod first_line;
mod forms;
pub mod laws;
mod lines_found;
mod path;
mod source_faults;
mod source_hints;
mod tokens;

pub use explaining::explain_faults;
pub use first_line::{Ahead, InputKind, LookedAt};
pub use forms::{Form, Shape, Slot};

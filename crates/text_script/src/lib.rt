//! The words of a script, and the texts of its answers that need no card: commands, cell lines in the common form,
//! rates, the names of programs, counts and verdicts. Also the assignment of lines to the ports and the desk that answer them.
#![tactic(auto)]

mod answer_lines;
mod cell_line;
mod commands;
mod common_cell_line;
mod dealing;
mod names;
mod rates;
mod script_lines;
mod script_words;

pub use answer_lines::{
    add_cut, add_loaded, add_ready, add_released, add_reloaded, add_retired, add_set, add_tally,
    add_verdict,
};
pub use cell_line::{CellLine, CellLineFault, read_by_words, read_cell_line};
pub use commands::{Command, named_command, read_command, wanted_contracts, word_and_rest};
pub use common_cell_line::{Arrival, read_common_cell, text_after_cell};
pub use dealing::{Answerer, Deal, deal_lines};
pub use names::Names;
pub use rates::checked_contracts;
pub use script_lines::{first_line, is_cell_line};
pub use script_words::{Rate, Wanted, channel_of, number, program, wanted_contract};

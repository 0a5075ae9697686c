//! The words that all subcommands share: hexadecimal digits as octets and cells, decimal numbers, and the fault lines
//! of scripts.
#![tactic(auto)]

mod answer_texts;
mod digits;
mod hexadecimal;
mod text_from_end;

pub use answer_texts::{
    TOO_LONG, add_bad_hex, add_bad_line, add_number, add_numbered, add_text, add_too_long,
    add_two_numbers, add_wrong_length,
};
pub use digits::{CELL_DIGITS, HEADER_DIGITS, cell_of_digits};
pub use hexadecimal::{CellWord, add_cell_octets, cell_of_word, octets_of_word};
pub use text_from_end::TextFromEnd;

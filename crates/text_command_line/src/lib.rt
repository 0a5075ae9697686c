//! Command lines: the words as they are shown, the subcommand that they name or the values of their options, and how a program ends.
#![tactic(auto)]

mod arguments;
mod choice;
mod exit;
mod line;
mod messages;
mod notice;
mod stop;
mod subcommands;
mod version;
mod word_sources;
mod words;

pub use arguments::{Argument, Form, Options, Value, text_of, values_of_words};
pub use choice::{Choice, choose};
pub use exit::status;
pub use messages::write_message;
pub use notice::awaited;
pub use stop::Stop;
pub use subcommands::{Program, Row, row_of_words};
pub use version::VERSION;
pub use word_sources::{CommandLine, InMemory, OfProcess};
pub use words::words_after_name;

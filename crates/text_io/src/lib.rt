//! A proved driver for programs that answer lines.
//!
//! Such a program is a `Machine`: it gets one line after another and appends its answers to a buffer. `answer_lines`
//! runs any machine between an `Input` and an `Output`, however their octets are split into calls. Its contract says
//! that the output is the text that the machine's rules give for the whole input, or a prefix of it if a call failed.
//!
//! A line ends with a line feed. A carriage return just before it is dropped. The last line may lack its line feed.
//! An input has at most 1,000,000 lines, each of at most 70,000 octets.
#![tactic(auto)]

mod delivery;
mod device;
mod driver;
mod ending;
mod faulty_input;
mod faulty_output;
mod filling;
mod gathering;
pub mod laws;
mod line_ends;
mod machine;
mod refilling;
mod stream;
mod whole_input;
mod window;
mod words;

pub use delivery::{give_all, give_answers, give_if_enough, give_last};
pub use device::{Failed, Input, Output};
pub use driver::answer_lines;
pub use ending::{Added, Answered, Done, Ending, RunFault};
pub use faulty_input::FaultyInput;
pub use faulty_output::FaultyOutput;
pub use gathering::gather;
pub use line_ends::{before_return, first_feed};
pub use machine::{Machine, Turn};
pub use refilling::refill;
pub use stream::{ReaderInput, WriterOutput};
pub use whole_input::{Answerer, answer_whole};
pub use window::Window;
pub use words::{LineWords, first_word, line_words};

//! `upc-lab cells`, and what the other subcommands over captures share with it.
#![tactic(auto)]

mod answering;
mod blocks;
mod capture;
mod captured_cell;
mod cells;
mod driver;
mod fault_lines;
mod filter;
mod fit_choice;
mod follower;
pub mod laws;
mod line_choice;
mod link_words;
mod marked;
mod queue;
mod reading_ahead;
mod reading_summary;
mod run_lines;
mod tally;
mod ticks;
mod two_threads;

pub use blocks::BlockTallies;
pub use capture::{find_opening, follow_cells, short_fault};
pub use captured_cell::CapturedCell;
pub use cells::cells_of_capture;
pub use driver::done_at;
pub use fault_lines::{add_file_fault, write_faults};
pub use filter::{CellFilter, Filtered};
pub use fit_choice::FitChoice;
pub use follower::{CellFollower, Followed};
pub use line_choice::LineChoice;
pub use link_words::add_link;
pub use marked::MarkTallies;
pub use reading_ahead::{READING_OCTETS, WINDOW_ROOM};
pub use reading_summary::ReadingSummary;
pub use run_lines::{add_closing, add_several};
pub use tally::CountAndFirst;

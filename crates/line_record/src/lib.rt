//! A line of an ATM card: the journal of the connection that it serves, the pieces in which the journal is taken out,
//! and the directory of which line serves which connection.
#![tactic(auto)]

mod directory;
mod entry;
mod equality;
mod fault;
mod held_lines;
pub mod laws;
mod line;
mod named_contract;
mod owner;
mod piece;
mod program_uses;
mod seats;
mod state;
mod tally;

pub use directory::{Directory, LAST_INCARNATION, Seating};
pub use entry::Entry;
pub use equality::same_owner;
pub use fault::{DirFault, LineFault};
pub use line::{Line, MOST_CELLS, MOST_ENTRIES};
pub use owner::Owner;
pub use piece::{Piece, chain};
pub use state::State;
pub use tally::Tally;

//! The running card: one seat for each port and one desk, each for its own thread. It uses the locked sections of
//! `card_core`, and ledgers that relate the lines' counts to the seats' tallies.
#![tactic(auto)]

mod books;
mod card;
mod closing;
mod counted_line;
mod desk;
mod gate;
pub mod keeping;
mod ledgers;
mod seat;
mod seatings;
mod shares;

pub use books::Blanks;
pub use card::Card;
pub use closing::{CloseFault, Closing};
pub use desk::Desk;
pub use gate::{Gate, NoWait};
pub use ledgers::Ledgers;
pub use seat::PortSeat;

//! Cards of an ATM cell policer that share nothing. Each connection has its card, and several threads police a list of
//! arrivals. The answers are those of policing the arrivals one after another.
#![tactic(auto)]

mod arrival;
mod batch;
mod card;
mod copying;
mod dealing;
mod fault;
mod gate;
mod gathering;
pub mod laws;
mod loading;
mod retiring;
mod room;
mod running;
mod shelf;
mod sums;

pub use arrival::{Arrival, Decision};
pub use fault::{NoRoom, ProgramFault, ShelfFault};
pub use gate::Gate;
pub use room::Room;
pub use shelf::{MOST_CARDS, Shelf};

//! A card for each feeder: each card of an ATM cell policer stays on one thread, with a source of arrivals and a sink of
//! answers of its own.
#![tactic(auto)]

mod feeder;
mod feeding;
mod lane;
pub mod laws;
mod queue;

pub use feeder::Feeder;
pub use feeding::each_card;
pub use lane::Lane;
pub use queue::Queue;

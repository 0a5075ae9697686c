//! The serial core of an ATM cell policer. Its sections are functions on the parts of a card that the caller passes; a card
//! with threads runs each of them under a lock. [`Core`] has all parts of a card and takes its steps one at a time.
#![tactic(auto)]

mod answer;
mod ask;
mod connection_state;
mod desk;
mod desk_lines;
mod fault;
mod inspection;
mod judging;
pub mod laws;
mod picking;
mod port;
mod reply;
mod serial;
mod shape;
mod step;
mod sums;

pub use answer::{Answer, Judgement, Unjudged};
pub use ask::Ask;
pub use connection_state::ConnectionState;
pub use desk::{admit, cut, load, release, reload, retire, setup};
pub use fault::{CardFault, DeskFault};
pub use judging::{judge_at, judgement_at};
pub use picking::{Named, Store, name, pick};
pub use reply::{PortReply, Reply};
pub use serial::Core;
pub use shape::{MOST_LINES, MOST_PORTS, MOST_PROGRAMS, Shape};
pub use step::Step;
pub use sums::Totals;

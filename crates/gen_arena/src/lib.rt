//! A generational arena: a fixed number of slots for values. Once a value is removed, its id never names another.
#![tactic(auto)]

mod arena;
mod block;
mod fault;
mod id;
pub mod laws;
mod place;

pub use arena::Arena;
pub use fault::ArenaFault;
pub use id::Id;

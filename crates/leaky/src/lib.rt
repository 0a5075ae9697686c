//! Leaky buckets: the generic cell rate algorithm of ITU-T I.371, annex A, and four kinds of traffic contract that
//! use it.
#![tactic(auto)]

mod contract;
mod excess;
mod gcra;
mod judging;
pub mod laws;
mod levels;
mod tolerance;
mod verdict;

pub use contract::Contract;
pub use excess::{Excess, WhichBucket, excess_at};
pub use gcra::{Gcra, GcraFault, MOST_TICKS};
pub use judging::{LAST_MOMENT, judge};
pub use levels::{Fill, Levels};
pub use tolerance::{BtFault, burst_tolerance};
pub use verdict::Verdict;

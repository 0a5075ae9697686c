//! The cells of a captured link that go on, policed by the contracts of a setup script: `upc-lab forward`.
#![tactic(auto)]

mod agreed_tick;
mod card_judge;
mod driver;
mod forward;
mod forwarding;
mod judge;
pub mod laws;
mod onward;
mod others;
mod record_writing;
mod stepping;

pub use agreed_tick::forward_as_agreed;
pub use forward::{forward_capture, forward_setup};
pub use forwarding::forward_cells;
pub use judge::CellJudge;
pub use onward::Onward;
pub use others::Others;

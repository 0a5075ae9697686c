//! Captures of a link's cells, as capture cards write them.
#![tactic(auto)]

mod block;
mod clock;
mod content;
mod fault;
mod format;
mod interface_options;
pub mod laws;
mod lent_cell;
mod link;
mod marks;
mod opening;
mod packet;
mod packet_time;
mod reader;
mod record_octets;

pub use block::{Section, SkippedKind};
pub use clock::{Clock, Tick};
pub use content::NoCell;
pub use fault::{Fault, RecordFault};
pub use format::{Format, Order};
pub use lent_cell::LentCell;
pub use link::{Channel, Link};
pub use marks::Marks;
pub use opening::{FileFault, Opening, is_text, open, open_whole};
pub use packet_time::{PacketTimes, TimeSource, TimeUnit};
pub use reader::{Next, Reader, Record, SkippedBlock};
pub use record_octets::cell_place;

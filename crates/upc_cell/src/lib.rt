//! The ATM cell at the user network interface and between nodes of the network: its header's
//! fields and its virtual connection.
#![tactic(auto)]

mod cell;
mod equality;
mod side;
mod vc;

pub use cell::{CELL_OCTETS, Cell, CellFault};
pub use equality::same_vc;
pub use side::Side;
pub use vc::{Vc, VcFault};

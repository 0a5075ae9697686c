//! The dialogue with a running card: `ports`. It answers a script as `run` does, but the cells of each port arrive on a
//! thread of their own while the desk answers the lines between them.
//!
//! The whole script is read before any of it runs. The lines before its first cell line are answered one by one. From
//! there on the cells are assigned to the ports and the other lines to the desk, which all run at the same time. The
//! answers are written in the script's order, after all have ended.
#![tactic(auto)]

mod answered;
mod at_once;
mod busy_ports;
mod closing_lines;
mod in_order;
pub mod laws;
mod port_arrivals;
mod port_job;
mod ports;
mod script;
mod script_desk;
mod waiting_answers;

pub use ports::{run_ports, run_ports_with};

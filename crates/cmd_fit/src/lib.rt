//! What a capture says of its links, and of the connections of one: the cells, times and losses of each link (`upc-lab
//! links`), and the least limit of each connection under which all its cells conform, which is the observed cell delay
//! variation (`upc-lab fit`).
#![tactic(auto)]

mod cell_values;
mod fault;
mod fit;
mod fit_lines;
mod flow;
mod flow_fit;
mod flows;
mod given_rules;
pub mod laws;
mod link_lines;
mod link_table;
mod link_tally;
mod links;
mod links_driver;
mod links_reading;

pub use fault::FitFault;
pub use fit::fit_capture;
pub use flow::Flow;
pub use flow_fit::FlowFit;
pub use link_tally::LinkTally;
pub use links::links_of_capture;

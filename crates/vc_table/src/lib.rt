//! A table from virtual connections to the numbers of their lines. A look-up is three reads, whichever connections are in
//! the table.
#![tactic(auto)]

mod blocks;
mod fault;
mod links;
mod table;

pub use fault::TableFault;
pub use table::VcLines;

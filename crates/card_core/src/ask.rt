//! The request of the desk to set up a connection.

use arrayvec::ArrayVec;
use gen_arena::Id;
use leaky::Contract;
use upc_cell::Vc;

/// A connection to set up.
#[derive(Debug, Drop)]
pub struct Ask {
    pub vc: Vc,
    /// The program that names the contract for each of its cells.
    pub program: Id,
    /// Its contracts. A program names one by its number, counted from 1.
    pub contracts: ArrayVec<Contract, 4>,
}

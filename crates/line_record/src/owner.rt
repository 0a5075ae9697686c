//! The connection that a line serves.

use upc_cell::Vc;

/// The connection that a line serves: its virtual connection, and the number, from 1, of this setup. No two setups have
/// the same number.
#[derive(Clone, Copy, Debug, PartialEq, Eq)]
pub struct Owner {
    pub vc: Vc,
    pub incarnation: u64,
}

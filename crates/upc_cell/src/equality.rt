//! Equality of connections.

ghost use Rattle.std.specs.Prelude.{◌≡◌, ◌↔◌, IsTrue};
ghost use Rattle.upc_cell.specs.Connection.{is_same_vc};

use crate::vc::Vc;

/// Whether both have the same path and the same channel. The result is that of `==`; the contract is one that other
/// crates can use.
pub fn same_vc(one: Vc, other: Vc) -> bool
    ensures equal { IsTrue result ↔ (one ≡ other) }
    ensures test { result ≡ is_same_vc one other }
{
    one.vpi == other.vpi && one.vci == other.vci
}

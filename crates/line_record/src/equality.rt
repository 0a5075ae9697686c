//! Comparisons with contracts that other crates can use.

ghost use Rattle.std.specs.Prelude.{◌≡◌, ◌↔◌, IsTrue};

use crate::owner::Owner;
use leaky::{Contract, Levels};
use upc_cell::same_vc;

/// Returns whether both are the same connection in the same incarnation.
pub fn same_owner(one: Owner, other: Owner) -> bool
    ensures { IsTrue result ↔ (one ≡ other) }
{
    same_vc(one.vc, other.vc) && one.incarnation == other.incarnation
}

pub(crate) fn same_contracts(one: &[Contract], other: &[Contract]) -> bool
    ensures { IsTrue result ↔ (one.now ≡ other.now) }
{
    one == other
}

pub(crate) fn same_levels(one: &[Levels], other: &[Levels]) -> bool
    ensures { IsTrue result ↔ (one.now ≡ other.now) }
{
    one == other
}

//! A cell whose octets are lent.

ghost use Rattle.std.specs.Prelude.{◌≡◌, nat_eq};
ghost use Rattle.std.specs.Cmp.{partial_equiv_from_equiv};
ghost use Rattle.std.specs.Cmp.Lexicographic.{nat_list_eq_equiv, pointwise};

use std::marker::Model;
use upc_cell::{CELL_OCTETS, Cell};

/// The 52 octets of a cell, without the header error check, where its record has them: nothing is copied. Contracts see the list of them.
#[derive(Drop)]
pub struct LentCell<'a> {
    octets: &'a [u8; CELL_OCTETS],
}

impl<'a> Model for LentCell<'a> {
    ghost use Rattle.std.specs.Prelude.{ℕ, List};

    ghost Value = { List ℕ };

    ghost view = { λ c. c.octets.now };
}

impl<'a> PartialEq for LentCell<'a> {
    ghost eq = { pointwise nat_eq };

    ghost laws = { partial_equiv_from_equiv nat_list_eq_equiv };

    fn eq(&self, other: &LentCell<'a>) -> bool {
        self.octets == other.octets
    }
}

impl<'a> Eq for LentCell<'a> {
    ghost laws = { nat_list_eq_equiv };
}

impl<'a> LentCell<'a> {
    // no edit: it fills the one field
    /// Lends the cell that has these octets.
    #[inline(always)]
    pub fn of(octets: &'a [u8; CELL_OCTETS]) -> LentCell<'a>
        ensures { result ≡ octets.now }
    {
        LentCell { octets }
    }

    // no edit: it returns the one field
    /// The 52 octets.
    #[inline(always)]
    pub fn bytes(&self) -> &'a [u8; CELL_OCTETS]
        ensures { result.now ≡ self.now }
    {
        self.octets
    }

    // no edit: it copies the one field
    /// Lends the same cell once more.
    #[inline(always)]
    pub fn lend(&self) -> LentCell<'a>
        ensures { result ≡ self.now }
    {
        LentCell {
            octets: self.octets,
        }
    }

    /// Copies the octets and returns the cell. It is inlined, so that they are copied once, to where the caller keeps its cell.
    #[inline(always)]
    pub fn cell(&self) -> Cell
        ensures { result ≡ self.now }
    {
        Cell::from(*self.octets)
    }
}

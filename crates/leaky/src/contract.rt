//! The four kinds of contract.

use crate::gcra::Gcra;

/// A traffic contract. The kinds have the names of ATM Forum AF-TM-0121; the rules are this project's own.
///
/// Bucket 1 has the peak cell rate, and every cell (CLP=0+1) meets it. Bucket 2, which all kinds but `Cbr1` have, has
/// the sustainable cell rate. The limits are used as given: the caller adds burst tolerance and cell delay variation
/// tolerance.
#[derive(Clone, Copy, Debug)]
pub enum Contract {
    /// A cell passes if it conforms to bucket 1, and is discarded otherwise.
    Cbr1(Gcra),
    /// Every cell meets bucket 2. A cell passes if it conforms to both, and is discarded otherwise.
    Vbr1(Gcra, Gcra),
    /// Cells of CLP 0 meet bucket 2. A cell passes if it conforms to each bucket that it meets, and is discarded
    /// otherwise.
    Vbr2(Gcra, Gcra),
    /// As `Vbr2`, but a cell that conforms to bucket 1 and not to bucket 2 is tagged.
    Vbr3(Gcra, Gcra),
}

/// CBR.1 with increment 1 and limit 0.
impl Default for Contract {
    ghost use Rattle.leaky.specs.Contract.{IsDefault};

    ghost is_default = { IsDefault };

    fn default() -> Contract {
        Contract::Cbr1(Gcra::default())
    }
}

impl PartialEq for Contract {
    ghost use Rattle.std.specs.Cmp.{decided, partial_equiv_from_equiv};
    ghost use Rattle.leaky.specs.Equality.{contract_eq};
    ghost use Rattle.leaky.specs.inner.EqualityLaws.{contract_eq_decides};

    ghost eq = { contract_eq };

    ghost laws = { partial_equiv_from_equiv (decided contract_eq contract_eq_decides) };

    fn eq(&self, other: &Contract) -> bool {
        match (self, other) {
            (Contract::Cbr1(peak), Contract::Cbr1(other_peak)) => *peak == *other_peak,
            (Contract::Vbr1(peak, sustained), Contract::Vbr1(other_peak, other_sustained))
            | (Contract::Vbr2(peak, sustained), Contract::Vbr2(other_peak, other_sustained))
            | (Contract::Vbr3(peak, sustained), Contract::Vbr3(other_peak, other_sustained)) => {
                *peak == *other_peak && *sustained == *other_sustained
            }
            _ => false,
        }
    }
}

impl Eq for Contract {
    ghost use Rattle.std.specs.Cmp.{decided};
    ghost use Rattle.leaky.specs.Equality.{contract_eq};
    ghost use Rattle.leaky.specs.inner.EqualityLaws.{contract_eq_decides};

    ghost laws = { decided contract_eq contract_eq_decides };
}

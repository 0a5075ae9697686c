//! Rates: increment and limit of a bucket.

ghost use Rattle.std.specs.Prelude.{◌≡◌, ◌+◌, ◌^◌, ◌<◌, ◌≤◌, ◌⊎◌, ◌↔◌, max, IsTrue, IsOk, IfOk, IsErrOf};

use std::error::Error;
use std::fmt;

/// The largest increment and the largest limit, in ticks: 2^48.
pub const MOST_TICKS: u64 = 281474976710656;

/// Why two numbers are not a rate. Printed as its number and its name.
#[derive(Clone, Copy, Debug, PartialEq, Eq)]
pub enum GcraFault {
    /// The increment is 0.
    ZeroIncrement,
    /// The increment or the limit is above 2^48.
    TooLarge,
}

impl fmt::Display for GcraFault {
    ghost use Rattle.std.specs.Prelude.{Some};
    ghost use Rattle.leaky.specs.Faults.{gcra_fault_text};

    ghost output = { λ fault. Some (gcra_fault_text fault) };

    fn fmt<W: fmt::Write>(&self, f: &mut fmt::Formatter<W>) -> fmt::Result {
        f.write_str(match self {
            GcraFault::ZeroIncrement => "1 ZeroIncrement",
            GcraFault::TooLarge => "2 TooLarge",
        })
    }
}

impl Error for GcraFault {}

/// The parameters of GCRA(T, tau), the generic cell rate algorithm of ITU-T I.371, annex A.
///
/// The increment T is the time between cells at the agreed rate. The limit tau is how early a cell may come. Both are
/// in ticks, the unit of the moments of arrival. T is from 1 to 2^48, tau from 0 to 2^48.
#[derive(Clone, Copy, Debug)]
pub struct Gcra {
    /// T, in ticks.
    pub increment: u64,
    /// Tau, in ticks.
    pub limit: u64,
    pub ghost increment_above_zero: { 0 < increment },
    pub ghost increment_bounded: { increment ≤ 2 ^ 48 },
    pub ghost limit_bounded: { limit ≤ 2 ^ 48 },
}

impl Gcra {
    /// A rate of one cell every `increment` ticks, with the tolerance `limit`.
    ///
    /// # Errors
    ///
    /// `ZeroIncrement` if the increment is 0; otherwise `TooLarge` if either number is above 2^48.
    pub fn new(increment: u64, limit: u64) -> Result<Self, GcraFault>
        ensures ok { IsOk result ↔ ((0 < increment) × (increment ≤ 2 ^ 48) × (limit ≤ 2 ^ 48)) }
        ensures increment { IfOk result (λ gcra. gcra.increment ≡ increment) }
        ensures limit { IfOk result (λ gcra. gcra.limit ≡ limit) }

        ensures zero { IsErrOf result GcraFault.ZeroIncrement ↔ (increment ≡ 0) }
        ensures large { IsErrOf result GcraFault.TooLarge
            ↔ ((0 < increment) × ((2 ^ 48 < increment) ⊎ (2 ^ 48 < limit))) }
    {
        if increment == 0 {
            return Err(GcraFault::ZeroIncrement);
        }
        if increment > MOST_TICKS || limit > MOST_TICKS {
            return Err(GcraFault::TooLarge);
        }
        Ok(Gcra { increment, limit })
    }

    /// Whether a cell at `moment` conforms, when `due` is the theoretical arrival time.
    #[inline]
    pub(crate) fn admits(&self, due: u64, moment: u64) -> bool
        requires { moment ≤ 2 ^ 62 }
        ensures { IsTrue result ↔ (due ≤ moment + self.now.limit) }
    {
        due <= moment + self.limit
    }

    /// The theoretical arrival time after a conforming cell at `moment`.
    #[inline]
    pub(crate) fn due_after(&self, due: u64, moment: u64) -> u64
        requires moment { moment ≤ 2 ^ 62 }
        requires conforms { due ≤ moment + self.now.limit }
        ensures next { result ≡ max due moment + self.now.increment }
        ensures bounded { result ≤ 2 ^ 62 + 2 ^ 49 }
    {
        due.max(moment) + self.increment
    }
}

/// Increment 1 and limit 0.
impl Default for Gcra {
    ghost is_default = { λ gcra. (gcra.increment ≡ 1) × (gcra.limit ≡ 0) };

    fn default() -> Gcra {
        Gcra {
            increment: 1,
            limit: 0,
        }
    }
}

impl PartialEq for Gcra {
    ghost use Rattle.std.specs.Cmp.{decided, partial_equiv_from_equiv};
    ghost use Rattle.leaky.specs.Equality.{gcra_eq};
    ghost use Rattle.leaky.specs.inner.EqualityLaws.{gcra_eq_decides};

    ghost eq = { gcra_eq };

    ghost laws = { partial_equiv_from_equiv (decided gcra_eq gcra_eq_decides) };

    fn eq(&self, other: &Gcra) -> bool {
        self.increment == other.increment && self.limit == other.limit
    }
}

impl Eq for Gcra {
    ghost use Rattle.std.specs.Cmp.{decided};
    ghost use Rattle.leaky.specs.Equality.{gcra_eq};
    ghost use Rattle.leaky.specs.inner.EqualityLaws.{gcra_eq_decides};

    ghost laws = { decided gcra_eq gcra_eq_decides };
}

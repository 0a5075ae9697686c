//! The state of a contract's two buckets.

ghost use Rattle.std.specs.Prelude.{◌≡◌, ◌+◌, ◌^◌, ◌≤◌};

/// How full the two buckets of a contract are at a moment, in ticks. A bucket drains by one unit a tick.
#[derive(Clone, Copy, Debug, PartialEq, Eq)]
pub struct Fill {
    /// The level of bucket 1.
    pub first: u64,
    /// The level of bucket 2. If the contract has no bucket 2, it is 0.
    pub second: u64,
}

/// The state of one contract: when the next cell of each bucket is due, in ticks, which is the standard's theoretical arrival time.
/// In spite of its name it has no level: [`Levels::fill_at`] computes how full a bucket is. Each time is at most 2^62 + 2^49: moments are
/// at most 2^62, limits and increments at most 2^48.
#[derive(Clone, Copy, Debug)]
pub struct Levels {
    /// The theoretical arrival time of bucket 1.
    pub first: u64,
    /// The theoretical arrival time of bucket 2. It never changes if the contract has no bucket 2.
    pub second: u64,
    pub ghost first_bounded: { first ≤ 2 ^ 62 + 2 ^ 49 },
    pub ghost second_bounded: { second ≤ 2 ^ 62 + 2 ^ 49 },
}

impl Levels {
    ghost use Rattle.leaky.specs.Bucket.{level_at};
    ghost use Rattle.leaky.specs.Contract.{Buckets, opening_buckets};
    ghost use Rattle.leaky.specs.KeptState.{Agrees, IsChargedBy};

    /// The state before the first cell: both theoretical arrival times are 0.
    #[inline]
    pub fn new() -> Self
        ensures first { result.first ≡ 0 }
        ensures second { result.second ≡ 0 }
        ensures opening { Agrees result opening_buckets }
    {
        Levels {
            first: 0,
            second: 0,
        }
    }

    /// Returns how full both buckets are at `moment`, in ticks: what is left in them of the cells so far.
    pub fn fill_at(&self, moment: u64) -> Fill
        // For any buckets that the levels represent.
        ensures first { (buckets : Buckets) → Agrees self.now buckets → IsChargedBy buckets moment
            → result.first ≡ level_at buckets.first moment }
        ensures second { (buckets : Buckets) → Agrees self.now buckets → IsChargedBy buckets moment
            → result.second ≡ level_at buckets.second moment }
    {
        Fill {
            first: self.first.saturating_sub(moment),
            second: self.second.saturating_sub(moment),
        }
    }
}

impl Default for Levels {
    ghost is_default = { λ levels. (levels.first ≡ 0) × (levels.second ≡ 0) };

    fn default() -> Levels {
        Levels::new()
    }
}

impl PartialEq for Levels {
    ghost use Rattle.std.specs.Cmp.{decided, partial_equiv_from_equiv};
    ghost use Rattle.leaky.specs.Equality.{levels_eq};
    ghost use Rattle.leaky.specs.inner.EqualityLaws.{levels_eq_decides};

    ghost eq = { levels_eq };

    ghost laws = { partial_equiv_from_equiv (decided levels_eq levels_eq_decides) };

    fn eq(&self, other: &Levels) -> bool {
        self.first == other.first && self.second == other.second
    }
}

impl Eq for Levels {
    ghost use Rattle.std.specs.Cmp.{decided};
    ghost use Rattle.leaky.specs.Equality.{levels_eq};
    ghost use Rattle.leaky.specs.inner.EqualityLaws.{levels_eq_decides};

    ghost laws = { decided levels_eq levels_eq_decides };
}

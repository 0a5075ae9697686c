//! Times in ticks, mostly without a division.

ghost use Rattle.std.specs.Prelude.{◌≡◌, ◌≤◌, ◌<◌, ◌*◌, ◌/◌, ◌^◌};
ghost use Rattle.captures.specs.Moments.{nearest_tick};

use captures::Tick;

/// The number 2^64.
const TWO_TO_64: u128 = 0x1_0000_0000_0000_0000;

/// A tick, and its inverse. A multiplication by the inverse takes less time than a division of 64 bits.
#[derive(Clone, Copy)]
pub(crate) struct Ticks {
    pub(crate) tick: Tick,
    /// 2^64 - 1 divided by the nanoseconds of the tick, rounded down.
    inverse: u64,
    ghost inverse_small: { inverse * tick.nanoseconds < 2 ^ 64 },
}

impl Ticks {
    /// Makes the inverse of a tick.
    pub(crate) fn new(tick: Tick) -> Ticks
        ensures { result.tick ≡ tick }
    {
        Ticks {
            tick,
            inverse: u64::MAX / tick.nanoseconds,
        }
    }

    /// Returns how many whole ticks there are in this many nanoseconds, or one less. The clause says only that it isn't
    /// more, so `whole` adds what may lack.
    #[inline(always)]
    fn estimate(self, nanoseconds: u64) -> u64
        ensures { result * self.tick.nanoseconds ≤ nanoseconds }
    {
        (u128::from(nanoseconds) * u128::from(self.inverse) / TWO_TO_64) as u64
    }

    /// Returns how many whole ticks there are in this many nanoseconds.
    #[inline(always)]
    fn whole(self, nanoseconds: u64) -> u64
        ensures { result ≡ nanoseconds / self.tick.nanoseconds }
    {
        let ticks = self.estimate(nanoseconds);
        let rest = nanoseconds - ticks * self.tick.nanoseconds;
        if rest < self.tick.nanoseconds {
            ticks
        } else {
            ticks + rest / self.tick.nanoseconds
        }
    }

    /// Returns the number of ticks that is nearest to a time, in units of 2^-32 seconds, as `Tick::nearest` does.
    #[inline(always)]
    pub(crate) fn nearest(self, time: u64) -> u64
        ensures { result ≡ nearest_tick time self.tick.nanoseconds }
    {
        let and_half = u128::from(time) * 1_000_000_000
            + u128::from(self.tick.nanoseconds) * 0x8000_0000;
        self.whole((and_half / 0x1_0000_0000) as u64)
    }
}

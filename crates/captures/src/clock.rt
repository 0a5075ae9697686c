//! The times of records as moments.

ghost use Rattle.std.specs.Prelude.{◌≡◌, ◌≤◌, ◌<◌, ◌-◌, ◌↔◌, max, IfSome, IsNone};
ghost use Rattle.captures.specs.Moments.{nearest_tick};

/// How long a tick is.
#[derive(Clone, Copy)]
pub struct Tick {
    /// Its nanoseconds, at least one.
    pub nanoseconds: u64,
    ghost some: { 0 < nanoseconds },
}

impl Tick {
    /// Makes a tick of this many nanoseconds. Returns none if the number is 0.
    pub fn new(nanoseconds: u64) -> Option<Tick>
        ensures none { IsNone result ↔ (nanoseconds ≡ 0) }
        ensures some { IfSome result (λ tick. tick.nanoseconds ≡ nanoseconds) }
    {
        if nanoseconds == 0 {
            return None;
        }
        Some(Tick { nanoseconds })
    }

    /// Returns the number of ticks that is nearest to a time, in units of 2^-32 seconds. Capture cards round their time stamps down; the
    /// nearest tick makes up for that.
    #[inline(always)]
    pub fn nearest(self, time: u64) -> u64
        ensures { result ≡ nearest_tick time self.nanoseconds }
    {
        let and_half = u128::from(time) * 1_000_000_000
            + u128::from(self.nanoseconds) * 0x8000_0000;
        // Two divisions give the same as one by the product, and only the first is of a number of 128 bits.
        (and_half / 0x1_0000_0000) as u64 / self.nanoseconds
    }
}

/// Makes moments of the times of records, from the first of them on.
#[derive(Clone, Copy)]
pub struct Clock {
    /// The time of moment 0, in units of 2^-32 seconds.
    pub first: u64,
    /// The latest time that was read, in units of 2^-32 seconds.
    pub latest: u64,
    ghost ordered: { first ≤ latest },
}

impl Clock {
    /// Starts at a time, which is moment 0.
    pub fn new(first: u64) -> Clock
        ensures first { result.first ≡ first }
        ensures latest { result.latest ≡ first }
    {
        Clock {
            first,
            latest: first,
        }
    }

    /// Returns the moment of a time, in ticks, or nothing if the time is before one that was read earlier.
    #[inline(always)]
    pub fn read(&mut self, time: u64, tick: Tick) -> Option<u64>
        ensures back { IsNone result ↔ (time < self.old.latest) }
        ensures moment { IfSome result (λ moment. moment ≡ nearest_tick (time - self.old.first) tick.nanoseconds) }
        ensures first { self.new.first ≡ self.old.first }
        ensures latest { self.new.latest ≡ max self.old.latest time }
    {
        if time < self.latest {
            return None;
        }
        self.latest = time;
        Some(tick.nearest(time - self.first))
    }
}

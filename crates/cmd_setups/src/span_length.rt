//! How long spans of time are.

ghost use Rattle.std.specs.Prelude.{◌≡◌, ◌<◌};
ghost use Rattle.cmd_setups.specs.SpanCounts.{begin_of_span, ticks_of_span};

use captures::Tick;

/// How long a span is.
#[derive(Clone, Copy)]
pub struct SpanLength {
    /// Its ticks, at least one.
    pub ticks: u64,
    ghost some: { 0 < ticks },
}

impl SpanLength {
    /// Makes the length of spans of this many nanoseconds: whole ticks only, and at least one.
    pub fn new(nanoseconds: u64, tick: Tick) -> SpanLength
        ensures { result.ticks ≡ ticks_of_span nanoseconds tick.nanoseconds }
    {
        SpanLength {
            ticks: (nanoseconds / tick.nanoseconds).max(1),
        }
    }

    /// Returns the moment at which the span of this moment begins.
    pub(crate) fn begin_of(self, moment: u64) -> u64
        ensures { result ≡ begin_of_span self.ticks moment }
    {
        moment - moment % self.ticks
    }
}

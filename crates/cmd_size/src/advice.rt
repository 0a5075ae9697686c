//! A tick at which the rates of a contract are close to those asked for.

ghost use Rattle.std.specs.Prelude.{◌≡◌};
ghost use Rattle.cmd_size.specs.Advice.{better_tick_of, is_fine, is_fine_at, is_coarse};

use crate::figures::Figures;
use crate::sizing::{Sizes, sized};

/// The ticks among which the best is looked for, in nanoseconds, the longest first.
const TICKS: [u64; 10] = [
    1000000000, 100000000, 10000000, 1000000, 100000, 10000, 1000, 100, 10, 1,
];

/// Returns whether a rate is above the one asked for by more than one percent.
pub(crate) fn is_above(sizes: Sizes) -> bool
    ensures { result ≡ is_coarse sizes }
{
    sizes.peak.coarse
        || match sizes.sustained {
            Some(rate) => rate.coarse,
            None => false,
        }
}

/// Returns whether the contract has buckets at this tick, none of which polices a rate that is above the one asked for
/// by more than one percent.
fn is_near(figures: Figures, tick: u64) -> bool
    ensures { result ≡ is_fine_at figures tick }
{
    match sized(Figures { tick, ..figures }) {
        Ok(sizes) => !is_above(sizes),
        Err(_) => false,
    }
}

/// Returns the longest tick of 1 s, 100 ms, 10 ms and so on down to 1 ns, in nanoseconds, at which the contract has
/// buckets and each policed rate is at most one percent above the rate asked for.
pub fn better_tick(figures: Figures) -> Option<u64>
    ensures { result ≡ better_tick_of figures }
{
    let mut rest = TICKS.as_slice();
    while let [tick, shorter @ ..] = rest {
        if is_near(figures, *tick) {
            return Some(*tick);
        }
        rest = shorter;
    }
    None
}

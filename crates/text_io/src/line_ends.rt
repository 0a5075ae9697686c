//! Where a line ends.

ghost use Rattle.std.specs.Prelude.{◌≡◌, ◌≢◌, ℕ, ◌+◌, ◌<◌, ◌≤◌, ◌==◌, false, not, length, slice_index, IfSome, IfNone};
ghost use Rattle.std.specs.List.{prefix_len};
ghost use Rattle.std.specs.Simd.Lanes.{chunk};
ghost use Rattle.text_io.specs.Lines.{without_return};
ghost use Rattle.text_io.specs.inner.FirstFeed.{IsFirstFeed};

use memchr::memchr;
use std::simd::prelude::*;

/// Whether one of the first eight octets is a line feed. It looks at all eight, so that the compiler can do it in one
/// step.
#[inline(always)]
fn has_early_feed(octets: &[u8]) -> bool
    requires { 8 ≤ length octets.now }
    ensures { result ≡ false → (k : ℕ) → k < 8 → slice_index octets.now k ≢ 10 }
{
    let mut found = false;
    for at in 0..8 {
        found = found | (octets[at] == b'\n');
    }
    found
}

/// The number of octets searched in one step. A line `cell MOMENT HEADER` and its line feed fit into them if the moment has at most 17
/// digits.
const LANES: usize = 32;

/// The number of octets before the first line feed among the next `LANES`, or `LANES` if there is none.
#[inline(always)]
fn feedless(octets: &[u8], from: usize) -> usize
    requires { from + LANES ≤ length octets.now }
    ensures { result ≡ prefix_len (λ octet. not (octet == 10)) (chunk from LANES octets.now) }
{
    let feeds = u8x32::from_slice(&octets[from..])
        .simd_eq(u8x32::splat(b'\n'))
        .to_bitmask();
    if feeds == 0 {
        LANES
    } else {
        feeds.trailing_zeros() as usize
    }
}

/// As [`first_feed`], by a call of `memchr`: for long lines, and near the end of the octets.
#[inline(never)]
fn far_feed(octets: &[u8], looked: usize) -> Option<usize>
    requires within { looked ≤ length octets.now }
    requires no_feed { (k : ℕ) → k < looked → slice_index octets.now k ≢ 10 }
    ensures { IsFirstFeed octets.now result }
{
    let (_, rest) = octets.split_at(looked);
    match memchr(b'\n', rest) {
        Some(more) => Some(looked + more),
        None => None,
    }
}

/// Returns the place of the first line feed, if there is one. The first `looked` octets are known to have none. A line of
/// eight octets (a header alone, as `upc eval` reads it) is found with the least work, any other short line without a call.
#[inline(always)]
pub fn first_feed(octets: &[u8], looked: usize) -> Option<usize>
    requires within { looked ≤ length octets.now }
    requires no_feed { (k : ℕ) → k < looked → slice_index octets.now k ≢ 10 }
    ensures place { IfSome result (λ place. place < length octets.now) }
    ensures feed { IfSome result (λ place. slice_index octets.now place ≡ 10) }
    ensures before { IfSome result (λ place. (k : ℕ) → k < place → slice_index octets.now k ≢ 10) }
    ensures none { IfNone result ((k : ℕ) → k < length octets.now → slice_index octets.now k ≢ 10) }
{
    let (_, rest) = octets.split_at(looked);
    if rest.len() > 8 && rest[8] == b'\n' && !has_early_feed(rest) {
        return Some(looked + 8);
    }
    if octets.len() - looked < LANES {
        return far_feed(octets, looked);
    }
    let near = feedless(octets, looked);
    if near < LANES {
        return Some(looked + near);
    }
    far_feed(octets, looked + LANES)
}

/// The content of a line that ended with a line feed: its octets without a carriage return at the end.
pub fn before_return(octets: &[u8]) -> &[u8]
    ensures { result.now ≡ without_return octets.now }
{
    match octets {
        [front @ .., b'\r'] => front,
        _ => octets,
    }
}

//! An input that fails at a given call, for tests.

ghost use Rattle.std.specs.Prelude.{◌≡◌};

use crate::device::{Failed, Input};

/// An input over octets in memory. Each call reads one octet, and all calls fail after `calls` successful ones. The
/// call that reports the end of the input counts as successful.
#[derive(Drop)]
pub struct FaultyInput<'a> {
    /// The octets that are left.
    pub octets: &'a [u8],
    /// The number of calls that still succeed.
    pub calls: usize,
    /// The number of failed calls.
    pub failures: u64,
}

impl<'a> FaultyInput<'a> {
    /// An input over these octets that fails after this number of successful calls.
    pub fn new(octets: &'a [u8], calls: usize) -> FaultyInput<'a>
        ensures octets { result.octets.now ≡ octets.now }
        ensures calls { result.calls ≡ calls }
        ensures calm { result.failures ≡ 0 }
    {
        FaultyInput {
            octets,
            calls,
            failures: 0,
        }
    }
}

impl Input for FaultyInput<'_> {
    ghost is_known = { Unit {0} };

    ghost rest = { λ input. input.octets.now };

    ghost failures = { λ input. input.failures };

    fn take(&mut self, room: &mut [u8]) -> Result<usize, Failed> {
        if self.calls == 0 {
            self.failures = self.failures.wrapping_add(1);
            return Err(Failed);
        }
        self.calls -= 1;
        let count = self.octets.len().min(room.len()).min(1);
        let (read, left) = self.octets.split_at(count);
        room[..count].copy_from_slice(read);
        self.octets = left;
        Ok(count)
    }
}

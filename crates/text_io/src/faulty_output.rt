//! An output that fails at a given call, for tests.

ghost use Rattle.std.specs.Prelude.{◌≡◌, []};

use crate::device::{Failed, Output};
use std::alloc::Global;

/// An output in memory. Each call writes one octet, and all calls fail after `calls` successful ones.
#[derive(Drop)]
pub struct FaultyOutput {
    /// The octets written.
    pub held: Vec<u8>,
    /// The number of calls that still succeed.
    pub calls: usize,
    /// The number of failed calls.
    pub failures: u64,
}

impl FaultyOutput {
    /// An empty output that fails after this number of successful calls.
    pub fn new(alloc: Global, calls: usize) -> FaultyOutput
        ensures held { result.held.items ≡ [] }
        ensures calls { result.calls ≡ calls }
        ensures calm { result.failures ≡ 0 }
    {
        FaultyOutput {
            held: Vec::new(alloc),
            calls,
            failures: 0,
        }
    }
}

impl Output for FaultyOutput {
    ghost is_known = { Unit {0} };

    ghost held = { λ output. output.held.items };

    ghost failures = { λ output. output.failures };

    fn give(&mut self, octets: &[u8]) -> Result<usize, Failed> {
        let [first, ..] = octets else {
            return Ok(0);
        };
        if self.calls == 0 || self.held.push(*first).is_err() {
            self.failures = self.failures.wrapping_add(1);
            return Err(Failed);
        }
        self.calls -= 1;
        Ok(1)
    }
}

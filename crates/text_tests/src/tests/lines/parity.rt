//! A machine whose world is the list of all lines so far, and which stores only one bit of it.

ghost use Rattle.std.specs.Prelude.{◌≡◌};
ghost use Rattle.text_tests.specs.examples.Parity.{answer_of};

use std::alloc::AllocError;
use text_io::{Done, Machine, Turn};

fn text_of(even: bool) -> &'static [u8]
    ensures { result.now ≡ answer_of even }
{
    if even { b"even\n" } else { b"odd\n" }
}

/// Answers each line with whether an even number of lines came before it.
#[derive(Drop)]
pub struct Parity {
    pub even: bool,
}

impl Machine for Parity {
    ghost use Rattle.text_tests.specs.examples.Parity.{Lines, is_even, parity_rules, parity-total};

    ghost World = { Lines };

    ghost shows = { λ parity lines. parity.even ≡ is_even lines };

    ghost rules = { parity_rules };

    fn answer(&mut self, _line: &[u8], answers: &mut Vec<u8>) -> Result<Turn, AllocError> {
        answers.extend_from_slice(text_of(self.even))?;
        self.even = !self.even;
        Ok(Turn::GoesOn)
    }

    fn close(&self, _answers: &mut Vec<u8>) -> Result<Done, AllocError> {
        Ok(Done::Whole)
    }

    fn refuse(&self, answers: &mut Vec<u8>) -> Result<(), AllocError> {
        answers.extend_from_slice(b"too long\n")
    }

    ghost is_total = { parity-total };
}

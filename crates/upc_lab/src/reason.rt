//! Devices that know why they failed.

ghost use Rattle.std.specs.Prelude.{◌≡◌, ℕ, List, Bool};
ghost use Rattle.cmd_options.specs.FailureLines.{failure_line};

use cmd_explain::LookedAt;
use cmd_options::{Counted, WithReason};

/// A device that knows why its calls fail.
///
/// Contracts see the message for the last failed call, and whether it failed because nobody reads what is written: the other
/// end of the pipe is closed.
pub trait Reasoned {
    ghost message: { Self → List ℕ };

    ghost is_closed: { Self → Bool };

    /// Returns the message for the last failed call: a line.
    fn message(&self) -> &[u8]
        ensures { result.now ≡ message self.now };

    /// Returns whether the last failed call failed because nobody reads what is written.
    fn is_closed(&self) -> bool
        ensures { result ≡ is_closed self.now };
}

impl<D> Reasoned for WithReason<D> {
    ghost message = { λ knowing. failure_line knowing.work knowing.line.items };

    ghost is_closed = { λ knowing. knowing.closed };

    fn message(&self) -> &[u8] {
        WithReason::message(self)
    }

    fn is_closed(&self) -> bool {
        self.closed
    }
}

impl<I: Reasoned, E> Reasoned for Counted<I, E> {
    ghost message = { λ it. I.message it.input };

    ghost is_closed = { λ it. I.is_closed it.input };

    fn message(&self) -> &[u8] {
        self.input.message()
    }

    fn is_closed(&self) -> bool {
        self.input.is_closed()
    }
}

impl<I: Reasoned> Reasoned for LookedAt<I> {
    ghost message = { λ it. I.message it.input };

    ghost is_closed = { λ it. I.is_closed it.input };

    fn message(&self) -> &[u8] {
        self.input.message()
    }

    fn is_closed(&self) -> bool {
        self.input.is_closed()
    }
}

//! A hook on a card's thread. It has no contract: the clauses of a batch hold at any gate, and none says when it is called.

/// A hook before a card polices its arrivals of a batch. A test makes one card wait for another there, and a measurement notes
/// when a card begins. The card waits until the hook returns.
pub trait Gate {
    /// Called once for each card of a batch, on the thread that polices the card, before its first arrival. It is also called
    /// if the batch has no arrival for the card, and never if the batch is refused.
    fn before_arrivals(&self);
}

/// Doesn't wait.
pub(crate) struct NoWait;

impl Gate for NoWait {
    #[inline(always)]
    fn before_arrivals(&self) {}
}

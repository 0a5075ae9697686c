//! Shares of four ledgers, one for each verdict.

use crate::ledgers::{
    DiscardedAtSeats, DiscardedOnLines, PassedAtSeats, PassedOnLines, RefusedAtSeats,
    RefusedOnLines, TaggedAtSeats, TaggedOnLines,
};
use std::marker::Model;
use std::sync::ledger::{Ledger, Share};

/// A share of each of four ledgers, one for each verdict. A line or a seat has one part of each. They take no memory: only contracts read
/// their counts.
#[derive(Drop)]
pub(crate) struct Shares<P: Ledger, T: Ledger, D: Ledger, R: Ledger> {
    pub(crate) passed: Share<P>,
    pub(crate) tagged: Share<T>,
    pub(crate) discarded: Share<D>,
    pub(crate) refused: Share<R>,
}

/// Shares of the four ledgers that count by line.
pub(crate) type LineShares<S> = Shares<
    PassedOnLines<S>,
    TaggedOnLines<S>,
    DiscardedOnLines<S>,
    RefusedOnLines<S>,
>;

/// Shares of the four ledgers that count by seat.
pub(crate) type SeatShares<S> = Shares<
    PassedAtSeats<S>,
    TaggedAtSeats<S>,
    DiscardedAtSeats<S>,
    RefusedAtSeats<S>,
>;

impl<P: Ledger, T: Ledger, D: Ledger, R: Ledger> Model for Shares<P, T, D, R> {
    ghost use Rattle.std.specs.Prelude.{◌≡◌};
    ghost use Rattle.port_card.specs.inner.Shares.{SharesView};

    ghost Value = { SharesView };

    ghost view = { λ m. record {
      parts = m.passed.parts;
      tally = record {
        passed = m.passed.amount;
        tagged = m.tagged.amount;
        discarded = m.discarded.amount;
        refused = m.refused.amount;
      };
    } };

    ghost invariant = { λ m. (m.tagged.parts ≡ m.passed.parts) × (m.discarded.parts ≡ m.passed.parts) × (m.refused.parts ≡ m.passed.parts) };
}

impl<P: Ledger, T: Ledger, D: Ledger, R: Ledger> Shares<P, T, D, R> {
    ghost use Rattle.std.specs.Prelude.{◌≡◌, ◌+◌, ◌≤◌};
    ghost use Rattle.line_record.specs.Tally.{nothing};
    ghost use Rattle.port_card.specs.inner.Shares.{unused_shares, both_shares};

    /// Returns empty shares of the same ledgers, into which others are merged.
    pub(crate) fn none(&mut self) -> Self
        ensures none { result ≡ unused_shares 0 }
        ensures same { self.new ≡ self.old }
    {
        Shares {
            passed: self.passed.empty(),
            tagged: self.tagged.empty(),
            discarded: self.discarded.empty(),
            refused: self.refused.empty(),
        }
    }

    /// Splits one part off shares that have counted nothing.
    pub(crate) fn split_off(&mut self) -> Self
        requires some { 1 ≤ self.old.parts }
        requires unused { self.old.tally ≡ nothing }
        ensures one { result ≡ unused_shares 1 }
        ensures rest { self.new.parts + 1 ≡ self.old.parts }
        ensures unused { self.new.tally ≡ nothing }
    {
        Shares {
            passed: self.passed.split_off(1, 0),
            tagged: self.tagged.split_off(1, 0),
            discarded: self.discarded.split_off(1, 0),
            refused: self.refused.split_off(1, 0),
        }
    }

    /// Adds other shares to these. The sum has at most as many parts as the ledger was divided into.
    pub(crate) fn merge(&mut self, other: Self)
        ensures both { self.new ≡ both_shares self.old other }
        ensures all { self.new.parts ≤ P.parts }
    {
        let Shares {
            passed,
            tagged,
            discarded,
            refused,
        } = other;
        self.passed.merge(passed);
        self.tagged.merge(tagged);
        self.discarded.merge(discarded);
        self.refused.merge(refused);
    }
}

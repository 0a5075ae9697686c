//! How a number is compared, and with what.

use rules_code::Span;

/// How a number is compared, and with what.
#[derive(Drop)]
pub enum Relation {
    /// It is equal to this one.
    Equal(u32),
    /// It isn't equal to this one.
    Unequal(u32),
    /// It is less than this one.
    Less(u32),
    /// It is at most this one.
    AtMost(u32),
    /// It is greater than this one.
    Greater(u32),
    /// It is at least this one.
    AtLeast(u32),
    /// It is in the first span or in one of the others.
    In {
        /// The first span.
        first: Span,
        /// The others.
        others: Vec<Span>,
    },
}

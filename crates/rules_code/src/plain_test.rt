//! Tests on the numbers in a packet.

use crate::packet_part::{Part, Span};

/// A test on the numbers in a packet.
#[derive(Drop)]
pub enum PlainTest {
    /// Holds of every packet.
    Always,
    /// The number is in the first span or in one of the others.
    Among {
        /// The number.
        part: Part,
        /// The first span.
        first: Span,
        /// The others, in the order in which they are tried.
        others: Vec<Span>,
    },
    /// This test doesn't hold.
    Not(Box<PlainTest>),
    /// Each of these tests holds. They are tried in order, up to the first that doesn't.
    AllOf(Vec<PlainTest>),
    /// At least one of these tests holds. They are tried in order, up to the first that does.
    AnyOf(Vec<PlainTest>),
}

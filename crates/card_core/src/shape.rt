//! The size of a card, and its limits.

ghost use Rattle.std.specs.Prelude.{◌≡◌, IfNone};
ghost use Rattle.card_core.specs.Shapes.{is_beyond, shape_fault, IsShape};

use crate::fault::CardFault;
use line_record::MOST_ENTRIES;
use upc_cell::Side;

/// The greatest number of programs of a card.
pub const MOST_PROGRAMS: u64 = 1024;

/// The greatest number of lines of a card.
pub const MOST_LINES: u64 = 4096;

/// The greatest number of ports of a card.
pub const MOST_PORTS: u64 = 16;

/// The size of a card, and the side at which the headers of its cells are read.
#[derive(Clone, Copy, Debug, PartialEq, Eq)]
pub struct Shape {
    /// The greatest number of live programs, 1 to 1024.
    pub programs: u64,
    /// The number of lines, 1 to 4096. Each serves at most one connection.
    pub lines: u64,
    /// The number of ports, 1 to 16.
    pub ports: u64,
    /// The greatest number of entries of a journal, 1 to 65536.
    pub journal: u64,
    /// The side at which the headers of its cells are read.
    pub side: Side,
}

impl Shape {
    /// Returns the first number that is out of its limits, if any.
    pub fn fault(&self) -> Option<CardFault>
        ensures fault { result ≡ shape_fault self.now }
        ensures fits { IfNone result (IsShape self.now) }
    {
        refusal(self)
    }
}

/// Returns the first number of the shape that is out of its limits, if any.
pub(crate) fn refusal(shape: &Shape) -> Option<CardFault>
    ensures fault { result ≡ shape_fault shape.now }
    ensures fits { IfNone result (IsShape shape.now) }
{
    if is_beyond(shape.programs, MOST_PROGRAMS) {
        Some(CardFault::Programs)
    } else if is_beyond(shape.lines, MOST_LINES) {
        Some(CardFault::Lines)
    } else if is_beyond(shape.ports, MOST_PORTS) {
        Some(CardFault::Ports)
    } else if is_beyond(shape.journal, u64::from(MOST_ENTRIES)) {
        Some(CardFault::Journal)
    } else {
        None
    }
}

/// Returns whether the number is 0 or above `most`.
fn is_beyond(number: u64, most: u64) -> bool
    ensures { result ≡ is_beyond number most }
{
    number == 0 || number > most
}

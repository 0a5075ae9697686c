//! The parts of a packet that tests look at.

ghost use Rattle.std.specs.Prelude.{◌+◌, ◌≤◌};
ghost use Rattle.bpf_interp.specs.Packet.{octets_loaded};

use bpf_code::Size;

/// A number in a packet of 52 octets: one, two or four octets from an offset, big-endian, of which a mask may keep some
/// bits.
#[derive(Clone, Copy)]
pub struct Part {
    /// How many octets.
    pub size: Size,
    /// The offset of the first, counted from 0.
    pub at: u32,
    /// The bits that count, if not all do.
    pub mask: Option<u32>,
    ghost inside: { at + octets_loaded size ≤ 52 },
}

/// An inclusive range of numbers.
#[derive(Clone, Copy)]
pub struct Span {
    /// The lowest number.
    pub low: u32,
    /// The highest number.
    pub high: u32,
}

/// What is known of A on the two branches of a test: the part that A holds, if that is known. It is public because definitions name it.
#[derive(Clone, Copy)]
pub struct KnownOnBranches {
    /// Where the test is met.
    pub met: Option<Part>,
    /// Where it isn't.
    pub unmet: Option<Part>,
}

/// A comparison of masked bits with one span. It is public because definitions name it.
#[derive(Clone, Copy)]
pub struct Single {
    /// The octets.
    pub part: Part,
    /// The mask of the bits.
    pub mask: u32,
    /// The span.
    pub span: Span,
}

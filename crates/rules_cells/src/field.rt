//! The numbers of a cell that tests compare.

ghost use Rattle.std.specs.Prelude.{◌+◌, ◌≤◌};
ghost use Rattle.bpf_interp.specs.Packet.{octets_loaded};

use bpf_code::Size;

/// One, two or four octets of a cell, as one number, the first octet highest.
#[derive(Clone, Copy)]
pub struct Octets {
    /// How many octets.
    pub size: Size,
    /// The offset of the first, counted from 0.
    pub at: u32,
    ghost inside: { at + octets_loaded size ≤ 52 },
}

/// A number of a cell: a field of its header (ITU-T I.361), or some of its octets.
#[derive(Clone, Copy)]
pub enum Field {
    /// Generic flow control.
    Gfc,
    /// Virtual path identifier.
    Vpi,
    /// Virtual channel identifier.
    Vci,
    /// Payload type.
    Pti,
    /// Cell loss priority.
    Clp,
    /// One, two or four octets from an offset on.
    Octets(Octets),
}

//! Numbers in the octets of a packet.

ghost use Rattle.std.specs.Prelude.{◌≡◌};
ghost use Rattle.bpf_interp.specs.Packet.{number_at, octets_loaded};

use bpf_code::Size;
use byteorder::{BigEndian, ByteOrder};
use upc_cell::CELL_OCTETS;

/// The last offset from which a packet has four octets.
const LAST_WORD: u64 = CELL_OCTETS as u64 - 4;

/// The last offset from which a packet has two octets.
const LAST_HALF: u64 = CELL_OCTETS as u64 - 2;

/// The last offset at which a packet has an octet.
const LAST_OCTET: u64 = CELL_OCTETS as u64 - 1;

/// Returns the big-endian number in the octets of the packet from an offset, if the packet has all of them.
#[inline(always)]
pub(crate) fn load(packet: &[u8; CELL_OCTETS], offset: u64, size: Size) -> Option<u32>
    ensures { result ≡ number_at packet.now offset (octets_loaded size) }
{
    match size {
        Size::Word => word(packet, offset),
        Size::Half => half(packet, offset),
        Size::Octet => octet(packet, offset),
    }
}

/// Returns the big-endian number in the four octets from an offset, if the packet has all of them.
#[inline(always)]
fn word(packet: &[u8; CELL_OCTETS], offset: u64) -> Option<u32>
    ensures { result ≡ number_at packet.now offset 4 }
{
    if offset <= LAST_WORD {
        Some(BigEndian::read_u32(&packet[offset as usize..]))
    } else {
        None
    }
}

/// Returns the big-endian number in the two octets from an offset, if the packet has both.
#[inline(always)]
fn half(packet: &[u8; CELL_OCTETS], offset: u64) -> Option<u32>
    ensures { result ≡ number_at packet.now offset 2 }
{
    if offset <= LAST_HALF {
        Some(BigEndian::read_u16(&packet[offset as usize..]).into())
    } else {
        None
    }
}

/// Returns the octet at an offset, if the packet has it.
#[inline(always)]
fn octet(packet: &[u8; CELL_OCTETS], offset: u64) -> Option<u32>
    ensures { result ≡ number_at packet.now offset 1 }
{
    if offset <= LAST_OCTET {
        Some(packet[offset as usize].into())
    } else {
        None
    }
}

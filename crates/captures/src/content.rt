//! The cell in a record.

ghost use Rattle.std.specs.Prelude.{◌≡◌, ◌≤◌, ◌+◌, ◌*◌, length, take, drop, IfOk};
ghost use Rattle.captures.specs.Record.{HasExtensions};
ghost use Rattle.captures.specs.RecordContent.{FromCellPlace, IsContent};
ghost use Rattle.captures.specs.inner.Received.{ComesAfterHeaders, IsCellFrom, IsPlaced, IsReceived};

use crate::lent_cell::LentCell;
use crate::link::CHANNEL_OCTETS;
use crate::packet::{HEADER_OCTETS, from_place};
use byteorder::{BigEndian, ByteOrder};
use thiserror::Error;
use upc_cell::CELL_OCTETS;

/// The octets of an extension header.
const EXTENSION_OCTETS: usize = 8;
/// The type of a record that holds a cell.
pub(crate) const ATM: u8 = 3;
/// The type of a record that holds a cell after a multi-channel header.
pub(crate) const MC_ATM: u8 = 7;

/// Why a record holds no cell.
#[derive(Clone, Copy, Debug, Error)]
pub enum NoCell {
    /// The record is of another type: its number, 0 to 127.
    #[error("1 OtherType {0}")]
    OtherType(u8),
    /// The cell was received or stored with an error.
    #[error("2 Errored")]
    Errored,
    /// The record has this number of the cell's 52 octets: the others aren't in it, or didn't come by the link.
    #[error("3 CutShort {0}")]
    CutShort(usize),
}

/// Returns how many extension headers a record has. The highest bit of octet 8, and then of each extension header's first octet, is set if
/// another one follows.
#[inline(always)]
fn extensions_in(octets: &[u8]) -> usize
    ensures counted { HasExtensions octets.now result }
    ensures bounded { 8 * result ≤ length octets.now }
{
    let mut count = 0;
    while 8 + EXTENSION_OCTETS * count < octets.len()
        && octets[8 + EXTENSION_OCTETS * count] >= 0x80
    {
        count += 1;
    }
    count
}

/// Returns this place if a whole cell begins there, or how many octets of a cell there are.
#[tactic(auto, unfolding(crate::specs::Record::record_wire_length))]
#[inline(always)]
fn place_from(octets: &[u8], place: usize) -> Result<usize, NoCell>
    requires { 16 ≤ length octets.now }
    ensures placed { IsPlaced (IsCellFrom octets.now place) octets.now result }
    ensures same { IfOk result (λ found. found ≡ place) }
{
    let came = usize::from(BigEndian::read_u16(from_place(octets, 14)));
    let left = octets.len().saturating_sub(place).min(came);
    if left < CELL_OCTETS {
        return Err(NoCell::CutShort(left));
    }
    Ok(place)
}

/// Returns the place of the cell of a record whose type holds cells, or why there is none. `channel` is how many octets the multi-channel
/// header has: 4, or 0 without one.
#[inline(always)]
fn received_place(octets: &[u8], channel: usize) -> Result<usize, NoCell>
    requires header { 16 ≤ length octets.now }
    requires small { channel ≤ 4 }
    ensures placed { IsPlaced (IsReceived octets.now channel) octets.now result }
    ensures after { IfOk result (λ place. ComesAfterHeaders octets.now channel place) }
{
    // Bits 4 and 5 of the flags: the cell was received, or stored, with an error.
    if octets[9] / 0x10 % 4 != 0 {
        return Err(NoCell::Errored);
    }
    let extensions = EXTENSION_OCTETS * extensions_in(octets);
    place_from(octets, HEADER_OCTETS + extensions + channel)
}

/// Returns the place of the cell of a record, or why it holds none.
#[inline(always)]
pub(crate) fn place_of(octets: &[u8]) -> Result<usize, NoCell>
    requires { 16 ≤ length octets.now }
    ensures placed { IsPlaced (IsContent octets.now) octets.now result }
    ensures after { IfOk result (λ place. FromCellPlace octets.now (λ it. place ≡ it)) }
{
    match octets[8] % 0x80 {
        ATM => received_place(octets, 0),
        MC_ATM => received_place(octets, CHANNEL_OCTETS),
        kind => Err(NoCell::OtherType(kind)),
    }
}

/// Returns the cell that begins at this place.
#[inline(always)]
pub(crate) fn cell_at(octets: &[u8], place: usize) -> LentCell<'_>
    requires { place + 52 ≤ length octets.now }
    ensures { result ≡ take 52 (drop place octets.now) }
{
    let Some((cell, _)) = octets[place..].split_first_chunk::<CELL_OCTETS>() else {
        unreachable!();
    };
    LentCell::of(cell)
}

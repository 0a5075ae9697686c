//! The size of a frame, and the record in a packet.

ghost use Rattle.std.specs.Prelude.{◌≡◌, ◌≤◌, ◌<◌, ◌+◌, ◌^◌, length, drop, IfErr, IfOk, Ok, Err};
ghost use Rattle.captures.specs.Record.{record_length};
ghost use Rattle.captures.specs.Framing.{record_in_packet as record_of, sized as size_stated};

use crate::fault::RecordFault;
use byteorder::{BigEndian, ByteOrder};

/// The octets of a record's first header, which each record has.
pub(crate) const HEADER_OCTETS: usize = 16;

/// Returns the octets from this place on.
#[inline(always)]
pub(crate) fn from_place(octets: &[u8], place: usize) -> &[u8]
    requires { place ≤ length octets.now }
    ensures octets { result.now ≡ drop place octets.now }
    ensures length { length result.now + place ≡ length octets.now }
{
    &octets[place..]
}

/// Returns the size of a frame whose length field is `stated`: that, and the `before` octets that it doesn't count.
#[inline(always)]
pub(crate) fn sized(before: usize, least: u32, most: u32, stated: u32) -> Result<usize, RecordFault>
    requires { before ≤ 16 }
    ensures size { result ≡ size_stated before least most stated }
    ensures least { IfOk result (λ size. before + least ≤ size) }
    ensures most { IfOk result (λ size. size ≤ before + most) }
{
    if stated < least {
        return Err(RecordFault::ShortLength(stated));
    }
    if most < stated {
        return Err(RecordFault::LongLength(stated));
    }
    Ok(before + stated as usize)
}

/// Returns the length in the header of a record.
#[tactic(auto, unfolding(crate::specs::Record::record_length))]
#[inline(always)]
pub(crate) fn length_of(octets: &[u8]) -> u16
    requires { 16 ≤ length octets.now }
    ensures { result ≡ record_length octets.now }
{
    BigEndian::read_u16(from_place(octets, 10))
}

/// Returns the record in a packet: as many octets as the record's header says, or the whole packet if it was cut short of that length.
pub(crate) fn record_in_packet(packet: &[u8]) -> Result<&[u8], RecordFault>
    ensures record { IfOk result (λ octets. record_of packet.now ≡ Ok octets.now) }
    ensures fault { IfErr result (λ reason. record_of packet.now ≡ Err reason) }
    ensures headed { IfOk result (λ octets. 16 ≤ length octets.now) }
{
    if packet.len() < HEADER_OCTETS {
        return Err(RecordFault::ShortRecord);
    }
    let length = usize::from(length_of(packet));
    if length < HEADER_OCTETS {
        return Err(RecordFault::ShortRecord);
    }
    if length < packet.len() {
        Ok(&packet[..length])
    } else {
        Ok(packet)
    }
}

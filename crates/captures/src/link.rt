//! The link that a cell came by.

ghost use Rattle.std.specs.Prelude.{◌≡◌, ◌≤◌, ◌+◌, ◌↔◌, length, IsTrue};
ghost use Rattle.captures.specs.Links.{channel_before as channel_of, channel_in_header, same_channel as channels_same, same_link, same_packet_interface};

use crate::content::MC_ATM;
use crate::packet::from_place;
use byteorder::{BigEndian, ByteOrder};

/// The octets of a multi-channel header.
pub(crate) const CHANNEL_OCTETS: usize = 4;

/// A physical port and a connection of a capture card, from a multi-channel header. It isn't the virtual connection of the cell.
#[derive(Clone, Copy, PartialEq, Eq, Hash)]
pub struct Channel {
    /// The physical port, 0 to 15.
    pub port: u8,
    /// The number of the connection, 0 to 2047.
    pub connection: u16,
}

/// The physical line that a cell came by, as its record and its packet name it. Two lines of a capture differ in some part.
#[derive(Clone, Copy, PartialEq, Eq, Hash)]
pub struct Link {
    /// The interface of its packet among those of a pcapng file, from 0. None in a file of another format.
    pub packet_interface: Option<u64>,
    /// The interface of the capture card, 0 to 7.
    pub interface: u8,
    /// The port and connection, if a multi-channel header names them.
    pub channel: Option<Channel>,
}

/// Returns the channel in a multi-channel header.
fn channel_in(header: u32) -> Channel
    ensures { result ≡ channel_in_header header }
{
    Channel {
        port: (header / 0x1_0000 % 16) as u8,
        connection: (header % 2048) as u16,
    }
}

/// Returns the channel of a record whose cell begins at this place.
#[inline(always)]
pub(crate) fn channel_before(octets: &[u8], place: usize) -> Option<Channel>
    requires header { 16 ≤ place }
    requires within { place ≤ length octets.now }
    ensures { result ≡ channel_of octets.now place }
{
    if octets[8] % 0x80 != MC_ATM {
        return None;
    }
    let header = BigEndian::read_u32(from_place(octets, place - CHANNEL_OCTETS));
    Some(channel_in(header))
}

/// Returns whether two packets have the same interface, or both have none.
#[inline(always)]
fn same_interface(one: Option<u64>, other: Option<u64>) -> bool
    ensures { result ≡ same_packet_interface one other }
{
    match (one, other) {
        (None, None) => true,
        (Some(one), Some(other)) => one == other,
        (None, Some(_)) | (Some(_), None) => false,
    }
}

/// Returns whether two channels are the same, or neither is there.
#[inline(always)]
fn same_channel(one: Option<Channel>, other: Option<Channel>) -> bool
    ensures { result ≡ channels_same one other }
{
    match (one, other) {
        (None, None) => true,
        (Some(one), Some(other)) => one.port == other.port && one.connection == other.connection,
        (None, Some(_)) | (Some(_), None) => false,
    }
}

impl Link {
    /// Returns whether two links are the same.
    #[inline(always)]
    pub fn is_same(self, other: Link) -> bool
        ensures test { result ≡ same_link self other }
        ensures equal { IsTrue result ↔ (self ≡ other) }
    {
        self.interface == other.interface
            && same_interface(self.packet_interface, other.packet_interface)
            && same_channel(self.channel, other.channel)
    }
}

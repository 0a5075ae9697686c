//! What a file is.

ghost use Rattle.std.specs.Prelude.{◌≡◌, ◌≤◌, ◌↔◌, length, IsTrue};
ghost use Rattle.captures.specs.Opening.{begins_as_text as begins_text, fault_by as fault_of, is_marked_text as is_marked, file_opening, is_pcap_magic, is_text as are_printed, is_text_octet as is_printed, opening_by, opening_of, pcap_opening};

use crate::block::Section;
use crate::format::{FILE_HEADER_OCTETS, Format, Order};
use crate::packet::{HEADER_OCTETS, from_place};
use crate::packet_time::PacketTimes;
use byteorder::{BigEndian, ByteOrder};
use thiserror::Error;

/// Why a file isn't read.
#[derive(Clone, Copy, Debug, Error)]
pub enum FileFault {
    /// It was compressed by gzip.
    #[error("1 Gzip")]
    Gzip,
    /// It is a pcap file with packets of another link type than ERF (197).
    #[error("2 OtherLink {0}")]
    OtherLink(u32),
    /// It is a text.
    #[error("3 Text")]
    Text,
    /// It was compressed by xz.
    #[error("4 Xz")]
    Xz,
    /// It was compressed by bzip2.
    #[error("5 Bzip2")]
    Bzip2,
    /// It was compressed by zstd.
    #[error("6 Zstd")]
    Zstd,
    /// It has no octets.
    #[error("7 Empty")]
    Empty,
}

/// What a file is, by its first octets.
#[derive(Clone, Copy)]
pub enum Opening {
    /// The file is a capture.
    Opened(Format),
    /// More octets are wanted: 16, or 24 of a pcap file. A file that ends before them is cut off, or a text, or empty.
    Undecided,
    /// The file isn't read.
    Refused(FileFault),
}

/// The link type of packets that are records.
const LINK_ERF: u32 = 197;

/// The resolution of times in microseconds.
const MICROSECONDS: u8 = 6;
/// The resolution of times in nanoseconds.
const NANOSECONDS: u8 = 9;

/// Returns what a pcap file is: a capture if its packets are records. `order` is that of its numbers, and `resolution` is that of its
/// times.
fn open_pcap(order: Order, resolution: u8, octets: &[u8]) -> Opening
    ensures { result ≡ pcap_opening order resolution octets.now }
{
    if octets.len() < FILE_HEADER_OCTETS {
        return Opening::Undecided;
    }
    // The upper half of the field isn't part of the link type.
    match order.number_in(from_place(octets, 20)) % 0x1_0000 {
        LINK_ERF => Opening::Opened(Format::Pcap(order, PacketTimes::in_units(resolution))),
        link => Opening::Refused(FileFault::OtherLink(link)),
    }
}

/// Returns whether this is an octet of a text.
fn is_text_octet(octet: u8) -> bool
    ensures { result ≡ is_printed octet }
{
    matches!(octet, 32..=126 | 9..=13)
}

/// Returns whether all of these octets are those of a text. So a file that is too short for `open` shows that it is one.
pub fn is_text(octets: &[u8]) -> bool
    ensures { result ≡ are_printed octets.now }
{
    octets.iter().all(|octet| is_text_octet(*octet))
}

/// Returns whether octets begin as those of a text.
fn begins_as_text(octets: &[u8]) -> bool
    requires { 16 ≤ length octets.now }
    ensures { result ≡ begins_text octets.now }
{
    is_text(&octets[..HEADER_OCTETS])
}

/// Returns whether these two numbers are the beginning of a text with a byte order mark: of UTF-8, or of UTF-16 with the lowest or the
/// highest octet first.
fn is_marked_text(magic: u32, number: u32) -> bool
    ensures { result ≡ is_marked magic number }
{
    magic / 0x100 == 0x00ef_bbbf
        || (magic / 0x1_0000 == 0xfffe && magic % 0x100 == 0 && number / 0x1_0000 % 0x100 == 0)
        || (magic / 0x100 == 0x00fe_ff00 && number / 0x100_0000 == 0)
}

/// Returns why a file isn't read, if its first eight octets show it. `magic` is the number in the first four, `number` that in the next
/// four.
fn fault_by(magic: u32, number: u32) -> Option<FileFault>
    ensures { result ≡ fault_of magic number }
{
    if magic / 0x100 == 0x001f_8b08 {
        Some(FileFault::Gzip)
    } else if magic == 0xfd37_7a58 && number / 0x1_0000 == 0x5a00 {
        Some(FileFault::Xz)
    } else if magic / 0x100 == 0x0042_5a68 && (number == 0x3141_5926 || number == 0x1772_4538) {
        Some(FileFault::Bzip2)
    } else if magic == 0x28b5_2ffd {
        Some(FileFault::Zstd)
    } else if is_marked_text(magic, number) {
        Some(FileFault::Text)
    } else {
        None
    }
}

/// Returns what a file is that begins with these octets. `magic` is the number in their first four.
fn open_by(magic: u32, octets: &[u8]) -> Opening
    requires { 16 ≤ length octets.now }
    ensures { result ≡ opening_by magic octets.now }
{
    match magic {
        0xa1b2_c3d4 => open_pcap(Order::HighestFirst, MICROSECONDS, octets),
        0xa1b2_3c4d => open_pcap(Order::HighestFirst, NANOSECONDS, octets),
        0xd4c3_b2a1 => open_pcap(Order::LowestFirst, MICROSECONDS, octets),
        0x4d3c_b2a1 => open_pcap(Order::LowestFirst, NANOSECONDS, octets),
        // There is no section yet. The first block says the order.
        0x0a0d_0d0a => Opening::Opened(Format::PcapNg(Section {
            order: Order::LowestFirst,
            before: 0,
            interfaces: 0,
            others: 0,
            times: PacketTimes::in_units(MICROSECONDS).begun(),
        })),
        _ => match fault_by(magic, BigEndian::read_u32(from_place(octets, 4))) {
            Some(fault) => Opening::Refused(fault),
            None if begins_as_text(octets) => Opening::Refused(FileFault::Text),
            None => Opening::Opened(Format::Erf),
        },
    }
}

/// Returns what the file is that begins with these octets.
pub fn open(octets: &[u8]) -> Opening
    ensures { result ≡ opening_of octets.now }
{
    if octets.len() < HEADER_OCTETS {
        return Opening::Undecided;
    }
    open_by(BigEndian::read_u32(octets), octets)
}

/// Returns what the file is that consists of these octets: what `open` says, or `Empty` if there are none.
pub fn open_whole(octets: &[u8]) -> Opening
    ensures { result ≡ file_opening octets.now }
{
    if octets.is_empty() {
        return Opening::Refused(FileFault::Empty);
    }
    open(octets)
}

//! How frames follow one another in a file. A frame is what the reader takes at once: a record of an ERF file, a packet of a pcap file
//! with the record in it, or a block of a pcapng file, which may have a record.

ghost use Rattle.std.specs.Prelude.{◌≡◌, ◌≤◌, ◌+◌, length, IfErr, IfOk, Ok, Err};
ghost use Rattle.captures.specs.Frames.{pcap_time};

use crate::block::{LEAST_BLOCK, Section, SkippedKind};
use crate::fault::RecordFault;
use crate::packet::{HEADER_OCTETS, from_place, length_of, record_in_packet, sized};
use crate::packet_time::{PacketTimes, TimeSource};
use byteorder::{BigEndian, ByteOrder, LittleEndian};

/// The octets before a packet in a pcap file.
const PACKET_HEADER_OCTETS: usize = 16;
/// The octets before the first packet in a pcap file.
pub(crate) const FILE_HEADER_OCTETS: usize = 24;
/// The most octets of a record.
const MOST_OCTETS: u32 = 0xffff;

/// In which order the octets of a number come.
#[derive(Clone, Copy)]
pub enum Order {
    /// The highest first.
    HighestFirst,
    /// The lowest first.
    LowestFirst,
}

/// The container format.
#[derive(Clone, Copy)]
pub enum Format {
    /// Records, one after the other.
    Erf,
    /// A file header of 24 octets, and then packets, each with a record. Numbers outside of the records are in this
    /// order, and this is known of the times of packets.
    Pcap(Order, PacketTimes),
    /// Blocks, some with a record. The section is the one of the next block, as the blocks so far describe it.
    PcapNg(Section),
}

/// A record in a frame.
#[derive(Clone, Copy)]
pub(crate) struct LentRecord<'a> {
    /// The interface of its packet among those of a pcapng file, from 0. None in a file of another format.
    pub(crate) packet_interface: Option<u64>,
    /// The time of its packet, in units of 2^-32 seconds, if such times are read.
    pub(crate) stamped: Option<u64>,
    /// Its octets.
    pub(crate) octets: &'a [u8],
}

/// What a frame holds, and how the file goes on after it.
#[derive(Clone, Copy)]
pub(crate) struct Held<'a> {
    /// The section that the blocks after the frame are in, in a pcapng file.
    pub(crate) after: Option<Section>,
    /// The record in the frame. If there is none, what the frame is.
    pub(crate) framed: Result<LentRecord<'a>, SkippedKind>,
}

/// Returns the time of a packet of a pcap file, if such times are read.
fn pcap_time_of(order: Order, times: PacketTimes, frame: &[u8]) -> Option<u64>
    requires { 16 ≤ length frame.now }
    ensures { result ≡ pcap_time order times frame.now }
{
    let unit = times.unit?;
    let seconds = u128::from(order.number_in(frame));
    let part = u128::from(order.number_in(from_place(frame, 4)));
    times.time_of(seconds * unit.units() + part)
}

impl Order {
    ghost use Rattle.captures.specs.Framing.{half_in_order, number_in_order};
    ghost use Rattle.captures.specs.InterfaceOptions.{long_in_order};

    /// Returns the number in the first eight octets.
    pub(crate) fn long_in(self, octets: &[u8]) -> u64
        requires { 8 ≤ length octets.now }
        ensures { result ≡ long_in_order self octets.now }
    {
        match self {
            Order::HighestFirst => BigEndian::read_u64(octets),
            Order::LowestFirst => LittleEndian::read_u64(octets),
        }
    }

    /// Returns the number in the first four octets.
    pub(crate) fn number_in(self, octets: &[u8]) -> u32
        requires { 4 ≤ length octets.now }
        ensures { result ≡ number_in_order self octets.now }
    {
        match self {
            Order::HighestFirst => BigEndian::read_u32(octets),
            Order::LowestFirst => LittleEndian::read_u32(octets),
        }
    }

    /// Returns the number in the first two octets.
    pub(crate) fn half_in(self, octets: &[u8]) -> u16
        requires { 2 ≤ length octets.now }
        ensures { result ≡ half_in_order self octets.now }
    {
        match self {
            Order::HighestFirst => BigEndian::read_u16(octets),
            Order::LowestFirst => LittleEndian::read_u16(octets),
        }
    }
}

impl Format {
    ghost use Rattle.captures.specs.inner.Lent.{format_after, held_of};
    ghost use Rattle.captures.specs.Frames.{format_start, format_timed, frame_held, frame_size, head_length};

    /// Returns the same format, where this time of each record counts: its own, or that of its packet.
    pub fn timed_by(self, source: TimeSource) -> Format
        ensures format { result ≡ format_timed source self }
        ensures start { format_start result ≡ format_start self }
    {
        let are_read = source == TimeSource::Packet;
        match self {
            Format::Erf => Format::Erf,
            Format::Pcap(order, times) => Format::Pcap(order, PacketTimes { are_read, ..times }),
            Format::PcapNg(section) => Format::PcapNg(Section {
                times: PacketTimes {
                    are_read,
                    ..section.times
                },
                ..section
            }),
        }
    }

    /// Returns how many octets of the file come before its first record, packet or block.
    pub fn start(self) -> usize
        ensures { result ≡ format_start self }
    {
        match self {
            Format::Erf | Format::PcapNg(_) => 0,
            Format::Pcap(_, _) => FILE_HEADER_OCTETS,
        }
    }

    /// Goes on after a frame. In a pcapng file `after` is the section of the next block.
    #[inline(always)]
    pub(crate) fn go_on(&mut self, after: Option<Section>)
        ensures { self.new ≡ format_after self.old after }
    {
        if let Some(section) = after {
            *self = Format::PcapNg(section);
        }
    }

    /// Returns how many octets of a frame must be there before its length can be read.
    #[inline(always)]
    pub(crate) fn head(self) -> usize
        ensures { result ≡ head_length self }
    {
        match self {
            Format::Erf | Format::Pcap(_, _) => HEADER_OCTETS,
            Format::PcapNg(_) => LEAST_BLOCK as usize,
        }
    }

    /// Returns the size of the frame with which octets begin.
    #[tactic(auto, unfolding(crate::specs::Frames::frame_size))]
    #[inline(always)]
    pub(crate) fn size_of(self, octets: &[u8]) -> Result<usize, RecordFault>
        requires { head_length self ≤ length octets.now }
        ensures size { result ≡ frame_size self octets.now }
        ensures least { IfOk result (λ size. head_length self ≤ size) }
        ensures most { IfOk result (λ size. size ≤ 131072) }
    {
        let least = HEADER_OCTETS as u32;
        match self {
            Format::Erf => sized(0, least, MOST_OCTETS, u32::from(length_of(octets))),
            Format::Pcap(order, _) => sized(
                PACKET_HEADER_OCTETS,
                least,
                MOST_OCTETS,
                order.number_in(from_place(octets, 8)),
            ),
            Format::PcapNg(section) => section.size_of(octets),
        }
    }

    /// Returns what a whole frame holds.
    #[tactic(auto, unfolding(crate::specs::Frames::frame_held))]
    #[inline(always)]
    pub(crate) fn held_in(self, frame: &[u8]) -> Result<Held<'_>, RecordFault>
        requires whole { head_length self ≤ length frame.now }
        requires bounded { length frame.now ≤ 131072 }
        ensures held { IfOk result (λ held. frame_held self frame.now
            ≡ Ok (format_after self held.after, held_of held.framed)) }
        ensures fault { IfErr result (λ reason. frame_held self frame.now ≡ Err reason) }
        ensures headed { IfOk result (λ held. IfOk held.framed (λ framed. 16 ≤ length framed.octets.now)) }
    {
        match self {
            Format::Erf => Ok(Held {
                after: None,
                framed: Ok(LentRecord {
                    packet_interface: None,
                    stamped: None,
                    octets: frame,
                }),
            }),
            Format::Pcap(order, times) => Ok(Held {
                after: None,
                framed: Ok(LentRecord {
                    packet_interface: None,
                    stamped: pcap_time_of(order, times, frame),
                    octets: record_in_packet(from_place(frame, PACKET_HEADER_OCTETS))?,
                }),
            }),
            Format::PcapNg(section) => {
                let held = section.held_in(frame)?;
                Ok(Held {
                    after: Some(held.section),
                    framed: held.framed,
                })
            }
        }
    }
}

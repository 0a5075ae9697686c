//! The blocks of a pcapng file.

ghost use Rattle.std.specs.Prelude.{◌≡◌, ◌≤◌, ◌<◌, ◌+◌, ◌-◌, ◌^◌, length, IfErr, IfOk, Ok, Err};
ghost use Rattle.captures.specs.Blocks.{block_order, block_size, block_held, count_past as numbers_past, even_block, has_number as is_numbered, held_of_type, interface_in_file, is_entry as is_entry_type, is_other_interface, lacks_packet, is_section_header as begins_section, order_of_magic, record_of_packet, section_of_header, section_of_interface, stamp_in_block, unread_of_type, whole_block_order, with_interface as with_one_interface, with_record_interface as with_interface_of_records, timed_in_unit as with_one_unit};
ghost use Rattle.captures.specs.inner.Lent.{held_of};
ghost use Rattle.captures.specs.Framing.{record_in_packet as record_of, sized as size_stated};

use crate::fault::RecordFault;
use crate::format::{LentRecord, Order};
use crate::interface_options::unit_in;
use crate::packet::{from_place, record_in_packet, sized};
use crate::packet_time::{PacketTimes, TimeUnit};
use byteorder::{BigEndian, ByteOrder};

/// The type of a section header.
const SECTION_HEADER: u32 = 0x0a0d_0d0a;
/// The type of the description of an interface.
const INTERFACE: u32 = 1;
/// The type of an obsolete packet.
const OLD_PACKET: u32 = 2;
/// The type of a simple packet.
const SIMPLE_PACKET: u32 = 3;
/// The type of an enhanced packet.
const ENHANCED_PACKET: u32 = 6;
/// The link type of packets that are records.
const LINK_ERF: u16 = 197;
/// The most octets of a block.
const MOST_BLOCK: u32 = 131_072;
/// The octets of a block without a body.
pub(crate) const LEAST_BLOCK: u32 = 12;
/// The octets of a section header without options.
const SECTION_HEADER_OCTETS: usize = 28;
/// The octets of the description of an interface without options.
const INTERFACE_OCTETS: usize = 20;
/// The octets of an enhanced packet block without its packet and options.
const ENHANCED_PACKET_OCTETS: usize = 32;
/// Where the options begin in the description of an interface.
const OPTIONS_PLACE: usize = 16;
/// Where the packet begins in its block.
const PACKET_PLACE: usize = 28;

/// What the blocks so far say of a section of a pcapng file.
#[derive(Clone, Copy)]
pub struct Section {
    /// In which order the octets of its numbers come.
    pub order: Order,
    /// How many interfaces earlier sections of the file have.
    pub before: u64,
    /// How many interfaces it has so far.
    pub interfaces: u64,
    /// Which of its first 64 interfaces have packets that are no records: bit N is set for interface N.
    pub others: u64,
    /// What is known of the times of its packets.
    pub times: PacketTimes,
}

/// The kinds of blocks and packets that are skipped.
#[derive(Clone, Copy)]
pub enum SkippedKind {
    /// A block without a packet: a section header, the description of an interface, names, statistics or secrets.
    NoPacket,
    /// A block that has no packet, but a number, as packets have: an entry of a systemd journal (type 9), or custom data.
    Entry,
    /// A simple packet block (type 3).
    SimplePacket,
    /// An obsolete packet block (type 2).
    OldPacket,
    /// A block of this type, which the reader doesn't know.
    OtherBlock(u32),
    /// A packet of an interface of another link type than ERF.
    OtherLinkPacket,
}

impl SkippedKind {
    /// Returns whether it has a number, as a record has.
    pub fn has_number(self) -> bool
        ensures { result ≡ is_numbered self }
    {
        !matches!(self, SkippedKind::NoPacket | SkippedKind::OtherBlock(_))
    }

    /// Returns how many numbers were given up to this block or packet, itself included, if `count` were given before it.
    pub(crate) fn count_past(self, count: u64) -> u64
        requires { count < 2 ^ 64 - 1 }
        ensures count { result ≡ numbers_past count self }
        ensures most { result ≤ count + 1 }
    {
        if self.has_number() { count + 1 } else { count }
    }
}

/// What a block holds, and the section after it.
#[derive(Clone, Copy)]
pub(crate) struct BlockHeld<'a> {
    /// The section after the block.
    pub(crate) section: Section,
    /// The record in the block. If there is none, what the block is.
    pub(crate) framed: Result<LentRecord<'a>, SkippedKind>,
}

/// Returns whether octets begin with a section header.
fn is_section_header(octets: &[u8]) -> bool
    requires { 4 ≤ length octets.now }
    ensures { result ≡ begins_section octets.now }
{
    BigEndian::read_u32(octets) == SECTION_HEADER
}

/// Returns the order of the numbers in a section. `magic` is its byte-order magic, read the highest octet first.
fn order_by_magic(magic: u32) -> Result<Order, RecordFault>
    ensures { result ≡ order_of_magic magic }
{
    match magic {
        0x1a2b_3c4d => Ok(Order::HighestFirst),
        0x4d3c_2b1a => Ok(Order::LowestFirst),
        _ => Err(RecordFault::OtherMagic(magic)),
    }
}

/// Returns the size of a block, if it is a multiple of four.
fn even(size: usize) -> Result<usize, RecordFault>
    requires { size ≤ 131072 }
    ensures { result ≡ even_block size }
{
    if size % 4 == 0 {
        Ok(size)
    } else {
        Err(RecordFault::OddLength(size as u32))
    }
}

/// Returns whether blocks of this type are names (4), statistics (5) or secrets (10), which have neither a packet nor a number.
fn has_no_packet(kind: u32) -> bool
    ensures { result ≡ lacks_packet kind }
{
    matches!(kind, 4 | 5 | 10)
}

/// Returns whether blocks of this type are entries of a systemd journal (9) or custom data, which have no packet, but a number.
fn is_entry(kind: u32) -> bool
    ensures { result ≡ is_entry_type kind }
{
    matches!(kind, 9 | 0xbad | 0x4000_0bad)
}

/// Returns the kind of a skipped block, by its type.
fn unread_by_type(kind: u32) -> SkippedKind
    ensures { result ≡ unread_of_type kind }
{
    match kind {
        SIMPLE_PACKET => SkippedKind::SimplePacket,
        OLD_PACKET => SkippedKind::OldPacket,
        _ if has_no_packet(kind) => SkippedKind::NoPacket,
        _ if is_entry(kind) => SkippedKind::Entry,
        _ => SkippedKind::OtherBlock(kind),
    }
}

/// Returns the section that this header begins. `section` is the one before it, and `order` is that of the new section's numbers.
fn begun_by(section: Section, order: Order, block: &[u8]) -> Result<Section, RecordFault>
    requires { length block.now ≤ 131072 }
    ensures { result ≡ section_of_header section order block.now }
{
    if block.len() < SECTION_HEADER_OCTETS {
        return Err(RecordFault::ShortBlock(block.len() as u32));
    }
    match order.half_in(from_place(block, 12)) {
        1 => Ok(Section {
            order,
            before: section.in_file(section.interfaces),
            interfaces: 0,
            others: 0,
            times: section.times.begun(),
        }),
        version => Err(RecordFault::OtherVersion(version)),
    }
}

impl Section {
    /// Returns the number of an interface in the whole file. `interface` is its number in this section.
    fn in_file(self, interface: u64) -> u64
        ensures { result ≡ interface_in_file self interface }
    {
        self.before.saturating_add(interface)
    }

    /// Returns the order of the numbers in a block, from its first twelve octets.
    fn order_of(self, octets: &[u8]) -> Result<Order, RecordFault>
        requires { 12 ≤ length octets.now }
        ensures { result ≡ block_order self octets.now }
    {
        if is_section_header(octets) {
            order_by_magic(BigEndian::read_u32(from_place(octets, 8)))
        } else {
            Ok(self.order)
        }
    }

    /// Returns the size of the block with which octets begin.
    pub(crate) fn size_of(self, octets: &[u8]) -> Result<usize, RecordFault>
        requires { 12 ≤ length octets.now }
        ensures { result ≡ block_size self octets.now }
    {
        let order = self.order_of(octets)?;
        let stated = order.number_in(from_place(octets, 4));
        let size = sized(0, LEAST_BLOCK, MOST_BLOCK, stated)?;
        even(size)
    }

    /// Returns the section with one interface more.
    fn with_one_more(self) -> Section
        ensures { result ≡ with_one_interface self }
    {
        Section {
            interfaces: self.interfaces.saturating_add(1),
            ..self
        }
    }

    /// Returns the section with one interface of records more, whose times are in this unit.
    fn timed_in_unit(self, unit: TimeUnit) -> Result<Section, RecordFault>
        ensures { result ≡ with_one_unit self self.times.unit unit }
    {
        match self.times.unit {
            None => {
                let times = PacketTimes {
                    unit: Some(unit),
                    ..self.times
                };
                Ok(Section { times, ..self }.with_one_more())
            }
            Some(known) if known.is_same(unit) => Ok(self.with_one_more()),
            Some(_) => Err(RecordFault::OtherUnit(unit.resolution)),
        }
    }

    /// Returns the section with one interface more, which this block describes and whose packets are records. The options of the block are
    /// read only if the times of packets are.
    fn with_record_interface(self, block: &[u8]) -> Result<Section, RecordFault>
        requires { 20 ≤ length block.now }
        ensures { result ≡ with_interface_of_records self block.now }
    {
        if !self.times.are_read {
            return Ok(self.with_one_more());
        }
        let options = &from_place(block, OPTIONS_PLACE)[..block.len() - INTERFACE_OCTETS];
        let unit = unit_in(self.order, options)?;
        self.timed_in_unit(unit)
    }

    /// Returns the section after the description of an interface.
    fn with_interface(self, block: &[u8]) -> Result<Section, RecordFault>
        requires { length block.now ≤ 131072 }
        ensures { result ≡ section_of_interface self block.now }
    {
        if block.len() < INTERFACE_OCTETS {
            return Err(RecordFault::ShortBlock(block.len() as u32));
        }
        match self.order.half_in(from_place(block, 8)) {
            LINK_ERF => self.with_record_interface(block),
            _ if self.interfaces < 64 => Ok(Section {
                interfaces: self.interfaces.saturating_add(1),
                others: self.others | (1 << self.interfaces),
                ..self
            }),
            link => Err(RecordFault::OtherLink(link)),
        }
    }

    /// Returns whether the packets of an interface are no records.
    fn is_other(self, interface: u32) -> bool
        ensures { result ≡ is_other_interface self interface }
    {
        interface < 64 && (self.others >> interface) % 2 == 1
    }

    /// Returns how many units of time an enhanced packet block counts.
    fn stamp_in(self, block: &[u8]) -> u64
        requires { 20 ≤ length block.now }
        ensures { result ≡ stamp_in_block self.order block.now }
    {
        let upper = u64::from(self.order.number_in(from_place(block, 12)));
        upper * 0x1_0000_0000 + u64::from(self.order.number_in(from_place(block, 16)))
    }

    /// Returns the record in an enhanced packet block, or `OtherLinkPacket` if the packets of its interface are no records.
    fn record_in(self, block: &[u8]) -> Result<Result<LentRecord<'_>, SkippedKind>, RecordFault>
        requires { length block.now ≤ 131072 }
        ensures record { IfOk result (λ held. record_of_packet self block.now ≡ Ok (held_of held)) }
        ensures fault { IfErr result (λ reason. record_of_packet self block.now ≡ Err reason) }
        ensures headed { IfOk result (λ held. IfOk held (λ framed. 16 ≤ length framed.octets.now)) }
    {
        if block.len() < ENHANCED_PACKET_OCTETS {
            return Err(RecordFault::ShortBlock(block.len() as u32));
        }
        let interface = self.order.number_in(from_place(block, 8));
        if self.interfaces <= u64::from(interface) {
            return Err(RecordFault::NoInterface(interface));
        }
        let captured = self.order.number_in(from_place(block, 20));
        if block.len() < ENHANCED_PACKET_OCTETS + captured as usize {
            return Err(RecordFault::LongPacket(captured));
        }
        if self.is_other(interface) {
            return Ok(Err(SkippedKind::OtherLinkPacket));
        }
        let packet = &from_place(block, PACKET_PLACE)[..captured as usize];
        Ok(Ok(LentRecord {
            packet_interface: Some(self.in_file(u64::from(interface))),
            stamped: self.times.time_of(u128::from(self.stamp_in(block))),
            octets: record_in_packet(packet)?,
        }))
    }

    /// Returns what a block of this type holds.
    fn held_by_type(
        self,
        order: Order,
        kind: u32,
        block: &[u8],
    ) -> Result<BlockHeld<'_>, RecordFault>
        requires { length block.now ≤ 131072 }
        ensures held { IfOk result (λ held. held_of_type self order kind block.now
            ≡ Ok (held.section, held_of held.framed)) }
        ensures fault { IfErr result (λ reason. held_of_type self order kind block.now ≡ Err reason) }
        ensures headed { IfOk result (λ held. IfOk held.framed (λ framed. 16 ≤ length framed.octets.now)) }
    {
        match kind {
            SECTION_HEADER => Ok(BlockHeld {
                section: begun_by(self, order, block)?,
                framed: Err(SkippedKind::NoPacket),
            }),
            INTERFACE => Ok(BlockHeld {
                section: self.with_interface(block)?,
                framed: Err(SkippedKind::NoPacket),
            }),
            ENHANCED_PACKET => Ok(BlockHeld {
                section: self,
                framed: self.record_in(block)?,
            }),
            _ => Ok(BlockHeld {
                section: self,
                framed: Err(unread_by_type(kind)),
            }),
        }
    }

    /// Returns the order of the numbers in a whole block, if the length at its end is its size.
    fn order_of_whole(self, block: &[u8]) -> Result<Order, RecordFault>
        requires whole { 12 ≤ length block.now }
        requires bounded { length block.now ≤ 131072 }
        ensures { result ≡ whole_block_order self block.now }
    {
        let order = self.order_of(block)?;
        let stated = order.number_in(from_place(block, block.len() - 4));
        if stated as usize == block.len() {
            Ok(order)
        } else {
            Err(RecordFault::LengthsDiffer(stated))
        }
    }

    /// Returns what a whole block holds.
    pub(crate) fn held_in(self, block: &[u8]) -> Result<BlockHeld<'_>, RecordFault>
        requires whole { 12 ≤ length block.now }
        requires bounded { length block.now ≤ 131072 }
        ensures held { IfOk result (λ held. block_held self block.now
            ≡ Ok (held.section, held_of held.framed)) }
        ensures fault { IfErr result (λ reason. block_held self block.now ≡ Err reason) }
        ensures headed { IfOk result (λ held. IfOk held.framed (λ framed. 16 ≤ length framed.octets.now)) }
    {
        let order = self.order_of_whole(block)?;
        self.held_by_type(order, order.number_in(block), block)
    }
}

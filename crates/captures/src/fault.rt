//! Where a file is no capture.

use thiserror::Error;

/// Why the octets of a capture, from some place on, are no record.
#[derive(Clone, Copy, Debug, Error)]
pub enum RecordFault {
    /// The octets end inside a record, packet or block.
    #[error("1 CutOff")]
    CutOff,
    /// The length field of the record, packet or block has this number, which is too small: a record or a packet has 16 octets at least,
    /// and a block 12.
    #[error("2 ShortLength {0}")]
    ShortLength(u32),
    /// The length field of the packet or block has this number, which is too great: a packet has 65,535 octets at most, and a block
    /// 131,072.
    #[error("3 LongLength {0}")]
    LongLength(u32),
    /// The packet, or by its length field the record in it, has fewer than 16 octets, those of a record's first header.
    #[error("4 ShortRecord")]
    ShortRecord,
    /// The record, packet or block ends after 2^64 - 1 octets.
    #[error("5 TooFar")]
    TooFar,
    /// The block has this length, which is no multiple of four.
    #[error("6 OddLength {0}")]
    OddLength(u32),
    /// The length at the end of the block is this number, not that at its beginning.
    #[error("7 LengthsDiffer {0}")]
    LengthsDiffer(u32),
    /// The section header has this byte-order magic, read the highest octet first, which is of neither order.
    #[error("8 OtherMagic {0}")]
    OtherMagic(u32),
    /// The section header has this major version, not 1.
    #[error("9 OtherVersion {0}")]
    OtherVersion(u16),
    /// The block has this length, too short for a block of its type.
    #[error("10 ShortBlock {0}")]
    ShortBlock(u32),
    /// An interface that comes after 64 others of its section has this link type, not that of ERF (197).
    #[error("11 OtherLink {0}")]
    OtherLink(u16),
    /// The packet names this interface, from 0, which its section doesn't describe.
    #[error("12 NoInterface {0}")]
    NoInterface(u32),
    /// The packet has this length, more than its block has room for.
    #[error("13 LongPacket {0}")]
    LongPacket(u32),
    /// The octets are a text of fewer than 16 octets.
    #[error("14 ShortText")]
    ShortText,
    /// The option `if_tsresol` of an interface of records has this value, whose units of time are too short to be read: a second
    /// has 2^64 or more.
    #[error("15 OtherResolution {0}")]
    OtherResolution(u8),
    /// An interface of records has times of this resolution. Their unit, or the seconds to add to them, differ from those of the first such
    /// interface of its section.
    #[error("16 OtherUnit {0}")]
    OtherUnit(u8),
}

/// The first place where a file is no capture.
#[derive(Clone, Copy, Debug, Error)]
#[error("{at} {reason}")]
pub struct Fault {
    /// The place, in octets from 0, of the record, packet or block at which the reading ended.
    pub at: u64,
    /// Why it ended there.
    pub reason: RecordFault,
}

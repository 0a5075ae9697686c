//! What a record says of losses before it, and of doubts about its cell.

ghost use Rattle.std.specs.Prelude.{◌≡◌, ◌≤◌, length};
ghost use Rattle.captures.specs.Marks.{header_marks, marks_before as marks_of, with_channel_marks};

use crate::content::{ATM, MC_ATM};
use crate::link::CHANNEL_OCTETS;
use crate::packet::from_place;
use byteorder::{BigEndian, ByteOrder};

/// What a record says of losses before it, and of doubts about its cell.
#[derive(Clone, Copy)]
pub struct Marks {
    /// How many records were lost before it.
    pub losses: u16,
    /// Whether the card cut it off.
    pub truncated: bool,
    /// Whether an octet of the cell was lost.
    pub lost_octet: bool,
    /// Whether the header of the cell was corrected by its check.
    pub header_corrected: bool,
    /// Whether the CRC-10 of the cell is wrong.
    pub crc_error: bool,
}

impl Marks {
    ghost use Rattle.captures.specs.Marks.{has_mark};

    /// Returns whether there is any mark.
    #[inline(always)]
    pub fn any(self) -> bool
        ensures { result ≡ has_mark self }
    {
        0 < self.losses
            || self.truncated
            || self.lost_octet
            || self.header_corrected
            || self.crc_error
    }
}

/// Returns the marks in the first header of a record.
#[tactic(auto, unfolding(crate::specs::Record::record_losses))]
#[inline(always)]
pub(crate) fn first_marks(octets: &[u8]) -> Marks
    requires { 16 ≤ length octets.now }
    ensures { result ≡ header_marks octets.now }
{
    let kind = octets[8] % 0x80;
    let has_cell = kind == ATM || kind == MC_ATM;
    Marks {
        losses: if has_cell {
            BigEndian::read_u16(from_place(octets, 12))
        } else {
            0
        },
        truncated: if has_cell {
            octets[9] / 8 % 2 == 1
        } else {
            false
        },
        lost_octet: false,
        header_corrected: false,
        crc_error: false,
    }
}

/// Returns the marks with those of this multi-channel header added.
fn with_header(marks: Marks, header: u32) -> Marks
    ensures { result ≡ with_channel_marks marks header }
{
    Marks {
        losses: marks.losses,
        truncated: marks.truncated,
        lost_octet: header / 0x100_0000 % 2 == 1,
        header_corrected: header / 0x200_0000 % 2 == 1,
        crc_error: header / 0x400_0000 % 2 == 1,
    }
}

/// Returns the marks of a record whose cell begins at this place.
#[inline(always)]
pub(crate) fn marks_before(octets: &[u8], place: usize) -> Marks
    requires header { 16 ≤ place }
    requires within { place ≤ length octets.now }
    ensures { result ≡ marks_of octets.now place }
{
    let marks = first_marks(octets);
    if octets[8] % 0x80 != MC_ATM {
        return marks;
    }
    let header = BigEndian::read_u32(from_place(octets, place - CHANNEL_OCTETS));
    with_header(marks, header)
}

//! The records of a capture, one after the other.

ghost use Rattle.std.specs.Prelude.{◌≡◌, ◌≤◌, length};
ghost use Rattle.captures.specs.Links.{IsChannelOf};
ghost use Rattle.captures.specs.Marks.{AreMarksOf};
ghost use Rattle.captures.specs.inner.Lent.{framed_of};
ghost use Rattle.captures.specs.RecordContent.{IsContent};
ghost use Rattle.captures.specs.RecordReading.{IsRecordOf};

use crate::block::SkippedKind;
use crate::content::{ATM, NoCell, cell_at, place_of};
use crate::fault::{Fault, RecordFault};
use crate::format::{Format, LentRecord};
use crate::lent_cell::LentCell;
use crate::link::{Channel, Link, channel_before};
use crate::marks::{Marks, first_marks, marks_before};
use crate::packet::HEADER_OCTETS;
use byteorder::{ByteOrder, LittleEndian};

/// A record of a capture. It borrows its cell from the octets that it was read from.
#[derive(Drop)]
pub struct Record<'a> {
    /// Its number in its capture, from 1. Packets of a pcapng file that are passed over have numbers too (`SkippedKind::has_number`).
    pub number: u64,
    /// The link by which it was received. Only a record with a cell has its channel.
    pub link: Link,
    /// What it says of losses before it, and of doubts about its cell.
    pub marks: Marks,
    /// When it was received, in units of 2^-32 seconds since 1970: by its own header, or by that of its packet (`Format::timed_by`).
    pub time: u64,
    /// Its cell, which the octets lend, or why it holds none.
    pub content: Result<LentCell<'a>, NoCell>,
}

/// A block or a packet without a record, which was skipped. Printed texts say that it was passed over.
#[derive(Clone, Copy)]
pub struct SkippedBlock {
    /// What it is.
    pub what: SkippedKind,
    /// The place at which it begins, in octets from 0.
    pub at: u64,
}

/// What comes next in a capture.
#[derive(Drop)]
pub enum Next<'a> {
    /// A record, and how many octets it has together with its packet or block.
    Taken(Record<'a>, usize),
    /// A block without a record, and how many octets it has.
    Skipped(SkippedBlock, usize),
    /// No octets, or only the beginning of a record, packet or block: more octets are wanted.
    Unfinished,
    /// A fault: the octets begin with no record, packet or block.
    Broken(Fault),
}

/// How far a capture was read.
#[derive(Clone, Copy)]
pub struct Reader {
    /// The container format. In a pcapng file it has the section of the next block.
    pub format: Format,
    /// How many numbers were given to records, and to packets that were passed over.
    pub count: u64,
    /// How many octets of the file come before the next record.
    pub at: u64,
    ghost counted: { count ≤ at },
}

/// Returns the record with this number, channel, marks and content, in this frame.
#[inline(always)]
fn record_of<'a>(
    number: u64,
    framed: LentRecord<'a>,
    channel: Option<Channel>,
    marks: Marks,
    content: Result<LentCell<'a>, NoCell>,
) -> Record<'a>
    requires headed { 16 ≤ length framed.octets.now }
    requires channel { IsChannelOf framed.octets.now content channel }
    requires marks { AreMarksOf framed.octets.now content marks }
    requires held { IsContent framed.octets.now content }
    ensures { IsRecordOf number (framed_of framed.entry) result }
{
    let flags = framed.octets[9];
    Record {
        number,
        link: Link {
            packet_interface: framed.packet_interface,
            // Bits 0, 1 and 6 of the flags are the number of the interface.
            interface: flags % 4 + 4 * (flags / 0x40 % 2),
            channel,
        },
        marks,
        time: match framed.stamped {
            Some(time) => time,
            None => LittleEndian::read_u64(framed.octets),
        },
        content,
    }
}

/// Returns the record with this number, in this frame.
#[inline(always)]
fn record_in(number: u64, framed: LentRecord<'_>) -> Record<'_>
    requires { 16 ≤ length framed.octets.now }
    ensures { IsRecordOf number (framed_of framed.entry) result }
{
    match place_of(framed.octets) {
        Ok(place) => {
            let channel = channel_before(framed.octets, place);
            let marks = marks_before(framed.octets, place);
            let content = Ok(cell_at(framed.octets, place));
            record_of(number, framed, channel, marks, content)
        }
        Err(why) => {
            let marks = first_marks(framed.octets);
            record_of(number, framed, None, marks, Err(why))
        }
    }
}

impl Reader {
    ghost use Rattle.std.specs.Prelude.{None};
    ghost use Rattle.captures.specs.Frames.{first_frame, format_start};
    ghost use Rattle.captures.specs.Reading.{ComesNext, EndsReading};

    /// Starts at the first record, packet or block of a capture, `format.start()` octets after the file begins.
    pub fn new(format: Format) -> Reader
        ensures format { result.format ≡ format }
        ensures count { result.count ≡ 0 }
        ensures at { result.at ≡ format_start format }
    {
        Reader {
            format,
            count: 0,
            at: format.start() as u64,
        }
    }

    /// Reads the next record of a capture. `octets` are those from the reader's place on, as far as they were read. The next call needs
    /// those after this record, packet or block.
    ///
    /// It and what it calls are inlined into the caller's loop. No octet is copied: the record borrows its cell from these octets.
    #[inline(always)]
    pub fn next<'a>(&mut self, octets: &'a [u8]) -> Next<'a>
        ensures { ComesNext self.old octets.now result self.new }
    {
        let format = self.format;
        if octets.len() < format.head() {
            return Next::Unfinished;
        }
        let size = match format.size_of(octets) {
            Ok(size) => size,
            Err(reason) => return self.broken(reason),
        };
        if octets.len() < size {
            return Next::Unfinished;
        }
        let held = match format.held_in(&octets[..size]) {
            Ok(held) => held,
            Err(reason) => return self.broken(reason),
        };
        let at = self.at;
        let Some(end) = at.checked_add(size as u64) else {
            return self.broken(RecordFault::TooFar);
        };
        self.at = end;
        self.format.go_on(held.after);
        match held.framed {
            Err(what) => {
                self.count = what.count_past(self.count);
                Next::Skipped(SkippedBlock { what, at }, size)
            }
            Ok(framed) => {
                self.count += 1;
                Next::Taken(record_in(self.count, framed), size)
            }
        }
    }

    // no ensures: a caller only decides by it which copy of its code reads the record
    // no edit: it has no ensures
    /// Whether the next record has the usual form: in an ERF file, of type 3, without extension headers, an error or a loss. Such
    /// records have a copy of the code, from which the compiler drops the cases that can't occur.
    #[inline(always)]
    pub fn is_usual(&self, octets: &[u8]) -> bool {
        match self.format {
            // Octet 8 is the type, bits 3 to 5 of octet 9 are truncation and errors, and octets 12 and 13 count losses.
            Format::Erf => {
                octets.len() >= HEADER_OCTETS
                    && octets[8] == ATM
                    && octets[9] / 8 % 8 == 0
                    && octets[12] == 0
                    && octets[13] == 0
            }
            Format::Pcap(_, _) | Format::PcapNg(_) => false,
        }
    }

    /// `Broken` at the current place.
    #[inline(always)]
    fn broken<'a>(&self, reason: RecordFault) -> Next<'a>
        ensures { result ≡ Next.Broken (record { at = self.now.at; reason = reason }) }
    {
        Next::Broken(Fault {
            at: self.at,
            reason,
        })
    }

    /// Returns the fault of a capture that ends with these octets, which are no whole record, packet or block: `CutOff`, or None if there
    /// are no octets.
    pub fn end(&self, octets: &[u8]) -> Option<Fault>
        ensures { first_frame self.now.format self.now.at octets.now ≡ None
            → EndsReading self.now.format self.now.at octets.now result }
    {
        if octets.is_empty() {
            return None;
        }
        Some(Fault {
            at: self.at,
            reason: RecordFault::CutOff,
        })
    }
}

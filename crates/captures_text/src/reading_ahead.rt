//! Records that are read before the cells of earlier ones are answered.

ghost use Rattle.std.specs.Prelude.{◌≡◌, ◌≢◌, ◌<◌, ◌≤◌, Err, IfOk, List, None, length};
ghost use Rattle.text_io.specs.Failures.{read_failures};
ghost use Rattle.captures_text.specs.inner.Ahead.{FillsAndReads, ReadsCells, ReadsSoFar, ReadsUsual, StepsTo};
ghost use Rattle.captures_text.specs.declared.captured_cell.CapturedCell.{CapturedCell as Captured};
ghost use Rattle.captures_text.specs.declared.reading_ahead.ReadingAhead.{ReadingAhead as Reading};

use crate::captured_cell::CapturedCell;
use crate::filter::{CellFilter, Filtered, LinkClock};
use byteorder::{BigEndian, ByteOrder};
use captures::{Clock, Fault, Link, Next, Reader};
use std::alloc::AllocError;
use text_io::{Input, RunFault, Window};
use upc_cell::CELL_OCTETS;

/// The room of the window, in octets. A frame has at most 131,072.
pub const WINDOW_ROOM: usize = 524_288;

/// One thread reads at most this number of octets at once: they and the cells that are made of them stay in the processor's second cache.
pub const READING_OCTETS: usize = 131_072;

/// The octets of a usual record: a header of 16 octets, and a cell.
const USUAL_OCTETS: usize = 16 + CELL_OCTETS;

/// Why the reading stopped: what comes after the records that were read.
#[derive(Clone, Copy)]
pub(crate) enum StopReason {
    /// The octets that wait begin a frame, or there are none: more octets are wanted.
    NeedsOctets,
    /// Enough cells were read. There may be more frames.
    Enough,
    /// A cell of a second link, where none was asked for: the first link, and this one.
    SecondLink(Link, Link),
    /// A fault of the capture.
    Broken(Fault),
}

/// How far usual records were read.
#[derive(Clone, Copy)]
struct Farther {
    reader: Reader,
    clock: Clock,
    /// How many octets these records have.
    place: usize,
}

/// What reads the records of a capture.
#[derive(Drop)]
pub(crate) struct ReadingAhead {
    /// The octets that wait.
    pub(crate) window: Window<WINDOW_ROOM>,
    pub(crate) reader: Reader,
    pub(crate) filter: CellFilter,
}

// no ensures: a caller only decides by it which of two loops reads the record
/// Returns whether the next record has the form that most have: usual (`Reader::is_usual`), with a cell and nothing else. The tests fix
/// numbers in the header, so that the compiler drops the cases that can't occur.
#[inline(always)]
fn is_usual(reader: &Reader, octets: &[u8]) -> bool {
    octets.len() >= USUAL_OCTETS
        && reader.is_usual(octets)
        && BigEndian::read_u16(&octets[10..]) as usize == USUAL_OCTETS
        && BigEndian::read_u16(&octets[14..]) as usize == CELL_OCTETS
}

/// Reads usual records as long as their cells count, and appends these cells to the others. Stops at `most` cells, or when `cells` has no
/// room left. The reader and the clock are in variables: behind references, the compiler would load the header again after each change of
/// them.
fn read_usual_of(
    link_clock: LinkClock,
    mut reader: Reader,
    octets: &[u8],
    cells: &mut Vec<CapturedCell>,
    most: usize,
) -> Farther
    ensures within { result.place ≤ length octets.now }
    ensures reads { ReadsUsual link_clock reader octets.now cells.old.items result cells.new.items }
{
    let mut clock = link_clock.clock;
    let mut place = 0;
    while cells.len() < most && cells.len() < cells.capacity() {
        let left = &octets[place..];
        if !is_usual(&reader, left) {
            break;
        }
        let mut next_reader = reader;
        let Next::Taken(record_read, own) = next_reader.next(left) else {
            break;
        };
        let Ok(cell) = &record_read.content else {
            break;
        };
        let mut next_clock = clock;
        let Some(moment) = link_clock.moment_of(&mut next_clock, &record_read) else {
            break;
        };
        cells.push_reserved(CapturedCell {
            number: record_read.number,
            moment,
            cell: cell.cell(),
        });
        reader = next_reader;
        clock = next_clock;
        place += own;
    }
    Farther {
        reader,
        clock,
        place,
    }
}

impl ReadingAhead {
    /// Reads more octets, and then the frames among those that wait. None at the end of the input.
    ///
    /// # Errors
    ///
    /// `ReadFailed` if the input failed, and `NoMemory` if an allocation fails.
    pub(crate) fn fill_and_read<I: Input>(
        &mut self,
        input: &mut I,
        cells: &mut Vec<CapturedCell>,
    ) -> Result<Option<StopReason>, RunFault>
        requires { length self.old.window < 131072 }
        ensures filled { IfOk result (λ stop. FillsAndReads I.is_known (I.rest input.old) (I.rest input.new)
            self.old stop self.new cells.old.items cells.new.items) }
        ensures fault { result ≢ Err RunFault.WriteFailed }
        ensures reading { I.failures input.new ≡ read_failures result (I.failures input.old) }
    {
        match self.window.fill(input, WINDOW_ROOM) {
            Err(_) => Err(RunFault::ReadFailed),
            Ok(0) => Ok(None),
            Ok(_) => match self.read(cells, usize::MAX) {
                Err(_) => Err(RunFault::NoMemory),
                Ok(stop) => Ok(Some(stop)),
            },
        }
    }

    /// Reads the next frame among the octets that wait, and appends its cell to the others if the cell counts. Returns None if the
    /// reading goes on.
    #[inline(always)]
    fn step(
        &mut self,
        cells: &mut Vec<CapturedCell>,
        most: usize,
    ) -> Result<Option<StopReason>, AllocError>
        ensures reads { (first : Reading) (old : List Captured) → ReadsSoFar first self.old old cells.old.items
            → IfOk result (λ found. StepsTo first self.new old cells.new.items found) }
        ensures shorter { IfOk result (λ found. found ≡ None → length self.new.window < length self.old.window) }
    {
        match self.reader.next(self.window.octets()) {
            Next::Unfinished => return Ok(Some(StopReason::NeedsOctets)),
            Next::Broken(fault) => return Ok(Some(StopReason::Broken(fault))),
            Next::Skipped(block, own) => {
                self.filter.skip_block(block);
                self.window.skip(own);
            }
            Next::Taken(record_read, own) => match self.filter.read(&record_read) {
                Filtered::Skipped => self.window.skip(own),
                Filtered::SecondLink(one, other) => return Ok(Some(StopReason::SecondLink(
                    one, other,
                ))),
                Filtered::Counts(moment, cell) => {
                    cells.push(CapturedCell {
                        number: record_read.number,
                        moment,
                        cell: cell.cell(),
                    })?;
                    self.window.skip(own);
                    if most <= cells.len() {
                        return Ok(Some(StopReason::Enough));
                    }
                }
            },
        }
        Ok(None)
    }

    /// Reads usual records among the octets that wait, as [`read_usual_of`] does.
    fn read_usual(&mut self, cells: &mut Vec<CapturedCell>, most: usize)
        ensures reads { (first : Reading) (old : List Captured) → ReadsSoFar first self.old old cells.old.items
            → ReadsSoFar first self.new old cells.new.items }
        ensures shorter { length self.new.window ≤ length self.old.window }
    {
        let Some(link_clock) = self.filter.link_clock() else {
            return;
        };
        let octets = self.window.octets();
        let found = read_usual_of(link_clock, self.reader, octets, cells, most);
        self.reader = found.reader;
        self.filter.go_on_at(found.clock);
        self.window.skip(found.place);
    }

    /// Reads the whole frames among the octets that wait, and appends the cells that count to the others. It stops at what ends a run,
    /// and after a cell with which `cells` has `most` or more.
    pub(crate) fn read(
        &mut self,
        cells: &mut Vec<CapturedCell>,
        most: usize,
    ) -> Result<StopReason, AllocError>
        ensures { IfOk result (λ stop. ReadsCells self.old stop self.new cells.old.items cells.new.items) }
    {
        loop {
            // `step` reads the last cell, and returns that there are enough. It also makes room for more cells.
            self.read_usual(cells, most.saturating_sub(1));
            if let Some(stop) = self.step(cells, most)? {
                return Ok(stop);
            }
        }
    }
}

//! Which cells of a capture count, and at which moments.

ghost use Rattle.std.specs.Prelude.{◌≡◌, List, ℕ, Ok, IfSome};
ghost use Rattle.captures_text.specs.CellFilter.{filter_at_link, filter_at_time, filter_content, filter_block, filter_record, filter_start, filter_state};
ghost use Rattle.captures_text.specs.inner.LinkClocks.{CountsAt, IsLinkClock, with_clock};
ghost use Rattle.captures_text.specs.declared.filter.CellFilter.{CellFilter as Filter};

use crate::reading_summary::ReadingSummary;
use crate::ticks::Ticks;
use captures::{Clock, LentCell, Link, Record, SkippedBlock, Tick, TimeSource};

/// What a record is to a run that reads the cells of one link.
#[derive(Drop)]
pub enum Filtered<'a> {
    /// Its cell counts: the moment, in ticks since the first cell of the capture, and the cell.
    Counts(u64, LentCell<'a>),
    /// It is passed over.
    Skipped,
    /// Its cell is of a second link, and none was asked for: the first link, and this one.
    SecondLink(Link, Link),
}

/// Decides for each record of a capture whether its cell counts. If a link was asked for, its cells count, otherwise those of the first
/// cell's link. A cell doesn't count if its time is before that of the capture's first cell or of an earlier cell that counts.
#[derive(Clone, Copy, Drop)]
pub struct CellFilter {
    ticks: Ticks,
    /// Which time the reader gives a record. Only contracts read it.
    timing: TimeSource,
    /// Whether a link was asked for.
    asked: bool,
    /// The link that was asked for, or that of the first cell.
    link: Option<Link>,
    /// None before the first cell.
    clock: Option<Clock>,
    summary: ReadingSummary,
}

/// The part of a filter that usual records (`Reader::is_usual`) need, once the link is known. They change only the clock. The caller keeps
/// the clock in a variable, so that it stays in registers.
#[derive(Clone, Copy)]
pub(crate) struct LinkClock {
    ticks: Ticks,
    link: Link,
    pub(crate) clock: Clock,
}

impl LinkClock {
    /// Takes a record with a cell. Returns its moment if the cell counts and the record has no marks, and sets `clock` to its time.
    /// Otherwise returns none.
    #[inline(always)]
    pub(crate) fn moment_of(self, clock: &mut Clock, record_read: &Record<'_>) -> Option<u64>
        ensures { (filter : Filter) (cell : List ℕ) → IsLinkClock filter self clock.old → record_read.now.content ≡ Ok cell
            → IfSome result (λ moment. CountsAt filter record_read.now moment cell clock.new) }
    {
        if record_read.marks.any()
            || !self.link.is_same(record_read.link)
            || record_read.time < clock.latest
        {
            return None;
        }
        clock.latest = record_read.time;
        Some(self.ticks.nearest(record_read.time - clock.first))
    }
}

impl CellFilter {
    /// Makes a filter that has read no record. `link` is the link that was asked for, and `timing` says which time the reader gives each
    /// record (`Format::timed_by`).
    pub fn new(tick: Tick, link: Option<Link>, timing: TimeSource) -> CellFilter
        ensures { filter_state result ≡ filter_start tick.nanoseconds link timing }
    {
        CellFilter {
            ticks: Ticks::new(tick),
            timing,
            asked: link.is_some(),
            link,
            clock: None,
            summary: ReadingSummary::none(),
        }
    }

    /// Returns what usual records need of the filter. None before the first cell.
    pub(crate) fn link_clock(&self) -> Option<LinkClock>
        ensures { IfSome result (λ link_clock. IsLinkClock self.now link_clock link_clock.clock) }
    {
        let link = self.link?;
        let clock = self.clock?;
        Some(LinkClock {
            ticks: self.ticks,
            link,
            clock,
        })
    }

    /// Replaces the clock by that after usual records.
    pub(crate) fn go_on_at(&mut self, clock: Clock)
        ensures { self.new ≡ with_clock self.old clock }
    {
        self.clock = Some(clock);
    }

    // no edit: it returns a field
    /// Returns what was passed over so far, and which records had marks.
    pub fn summary(&self) -> ReadingSummary
        ensures { result ≡ (filter_state self.now).summary }
    {
        self.summary
    }

    /// Decides by its time whether a cell of the right link counts.
    #[inline(always)]
    fn read_at<'a>(
        &mut self,
        mut clock: Clock,
        record_read: &Record<'a>,
        cell: &LentCell<'a>,
    ) -> Filtered<'a>
        ensures { filter_at_time (filter_state self.old) clock.first clock.latest record_read.now cell.now
            ≡ (result, filter_state self.new) }
    {
        let moment = clock.read(record_read.time, self.ticks.tick);
        self.clock = Some(clock);
        match moment {
            None => {
                self.summary.back = self.summary.back.with(record_read.number);
                Filtered::Skipped
            }
            Some(moment) => Filtered::Counts(moment, cell.lend()),
        }
    }

    /// Decides by its link, and then by its time, whether a cell counts.
    #[inline(always)]
    fn read_cell<'a>(
        &mut self,
        clock: Clock,
        record_read: &Record<'a>,
        cell: &LentCell<'a>,
    ) -> Filtered<'a>
        ensures { filter_at_link (filter_state self.old) clock.first clock.latest record_read.now cell.now self.old.link
            ≡ (result, filter_state self.new) }
    {
        match self.link {
            None => self.link = Some(record_read.link),
            Some(link) if link.is_same(record_read.link) => {}
            Some(link) => {
                if !self.asked {
                    return Filtered::SecondLink(link, record_read.link);
                }
                self.summary.other_link = self.summary.other_link.with(record_read.number);
                // Moment 0 is that of the capture's first cell, whatever its link: so this cell starts the clock too.
                self.clock = Some(clock);
                return Filtered::Skipped;
            }
        }
        self.read_at(clock, record_read, cell)
    }

    /// Counts a block or a packet without a record. The caller skips its octets.
    pub fn skip_block(&mut self, block: SkippedBlock)
        ensures { filter_state self.new ≡ filter_block (filter_state self.old) block }
    {
        self.summary.skip_block(block);
    }

    /// Reads the next record. It is inlined, as `Reader::next` is.
    #[inline(always)]
    pub fn read<'a>(&mut self, record_read: &Record<'a>) -> Filtered<'a>
        ensures { filter_record (filter_state self.old) record_read.now ≡ (result, filter_state self.new) }
    {
        self.summary.mark(record_read.marks, record_read.number);
        self.read_content(record_read)
    }

    /// Counts a record without a cell. Otherwise decides whether its cell counts.
    #[inline(always)]
    fn read_content<'a>(&mut self, record_read: &Record<'a>) -> Filtered<'a>
        ensures { filter_content (filter_state self.old) record_read.now record_read.now.content ≡ (result, filter_state self.new) }
    {
        match &record_read.content {
            Err(why) => {
                self.summary.count(*why, record_read.number);
                Filtered::Skipped
            }
            Ok(cell) => {
                let clock = match self.clock {
                    Some(clock) => clock,
                    None => Clock::new(record_read.time),
                };
                self.read_cell(clock, record_read, cell)
            }
        }
    }
}

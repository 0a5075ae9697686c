//! The links of a capture so far.

ghost use Rattle.std.specs.Prelude.{◌≡◌, OnOk};
ghost use Rattle.cmd_fit.specs.LinkTallies.{links_cell, links_block, links_record, no_links, tally_after, link_tally_of, with_row};
ghost use Rattle.cmd_fit.specs.inner.LinkStates.{links_state};

use crate::link_tally::LinkTally;
use captures::{Link, Record, SkippedBlock};
use captures_text::{CountAndFirst, ReadingSummary};
use indexmap::IndexMap;
use std::alloc::{AllocError, Global};

/// How many links may have a row.
const MOST_LINKS: usize = 4096;

/// The links of the records so far, and what was passed over.
#[derive(Drop)]
pub(crate) struct LinkTable {
    /// What is known of each link, in order of its first cell. A link is found by its hash.
    pub(crate) rows: IndexMap<Link, LinkTally>,
    /// The cells of links that have no row.
    pub(crate) left_out: CountAndFirst,
    /// What was passed over.
    pub(crate) summary: ReadingSummary,
}

/// Returns what is known of a link, if it has a row.
fn tally_in(rows: &IndexMap<Link, LinkTally>, link: Link) -> Option<LinkTally>
    ensures { result ≡ link_tally_of link rows.now.entries }
{
    rows.get(&link).copied()
}

/// Sets what is known of a link: in its row, or in a new row at the end.
fn put(rows: &mut IndexMap<Link, LinkTally>, link: Link, tally: LinkTally) -> Result<(), AllocError>
    ensures { OnOk result (rows.new.entries ≡ with_row link tally rows.old.entries) }
{
    match rows.insert(link, tally) {
        Ok(_) => Ok(()),
        Err(_) => Err(AllocError),
    }
}

/// Returns what is known of a record's link after its cell, or none if the link has no row and there is no room for one more.
fn tally_with(rows: &IndexMap<Link, LinkTally>, record_read: &Record<'_>) -> Option<LinkTally>
    ensures { result ≡ tally_after rows.now.entries record_read.now (link_tally_of record_read.now.link rows.now.entries) }
{
    match tally_in(rows, record_read.link) {
        Some(tally) => Some(tally.with(record_read)),
        None if rows.len() < MOST_LINKS => Some(LinkTally::first(record_read)),
        None => None,
    }
}

impl LinkTable {
    /// Makes a table without links.
    pub(crate) fn new(alloc: Global) -> LinkTable
        ensures { links_state result ≡ no_links }
    {
        LinkTable {
            rows: IndexMap::new(alloc),
            left_out: CountAndFirst::none(),
            summary: ReadingSummary::none(),
        }
    }

    /// Counts the cell of a record.
    fn take_cell(&mut self, record_read: &Record<'_>) -> Result<(), AllocError>
        ensures { OnOk result (links_state self.new ≡ links_cell (links_state self.old) record_read.now) }
    {
        match tally_with(&self.rows, record_read) {
            Some(tally) => put(&mut self.rows, record_read.link, tally),
            None => {
                self.left_out = self.left_out.with(record_read.number);
                Ok(())
            }
        }
    }

    /// Counts a record.
    pub(crate) fn take(&mut self, record_read: &Record<'_>) -> Result<(), AllocError>
        ensures { OnOk result (links_state self.new ≡ links_record (links_state self.old) record_read.now) }
    {
        self.summary.mark(record_read.marks, record_read.number);
        match &record_read.content {
            Err(why) => {
                self.summary.count(*why, record_read.number);
                Ok(())
            }
            Ok(_) => self.take_cell(record_read),
        }
    }

    /// Counts a block or a packet without a record.
    pub(crate) fn skip_block(&mut self, block: SkippedBlock)
        ensures { links_state self.new ≡ links_block (links_state self.old) block }
    {
        self.summary.skip_block(block);
    }
}

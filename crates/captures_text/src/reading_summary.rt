//! Counts of what a run passed over, and of records with marks, for the comments at the end of a text.

ghost use Rattle.std.specs.Prelude.{◌≡◌, ◌++◌, OnOk};
ghost use Rattle.captures_text.specs.ReadingSummaries.{empty_summary, other_type_line, other_type_lines, summary_lines, reason_lines, with_marked, with_other_type, with_skipped_block, without_cell};

use crate::blocks::{BlockTallies, add_blocks};
use crate::marked::{MarkTallies, add_marks};
use crate::tally::{CountAndFirst, add_count, add_first, add_tally};
use captures::{Marks, NoCell, SkippedBlock};
use text_io::Added;
use text_words::{add_number, add_text};

/// The number of types of records.
const TYPES: usize = 128;

/// The records that were passed over, by reason; blocks and packets without a record, which were skipped; and records with marks.
#[derive(Clone, Copy)]
pub struct ReadingSummary {
    /// Records of the types that hold no cell. Those of type N are at place N.
    pub other_types: [CountAndFirst; TYPES],
    /// Records of cells that were received or stored with an error.
    pub errored: CountAndFirst,
    /// Records with fewer than 52 octets of a cell.
    pub cut_short: CountAndFirst,
    /// Records whose time is before that of an earlier cell.
    pub back: CountAndFirst,
    /// Records of another link than the one that was asked for.
    pub other_link: CountAndFirst,
    /// Blocks and packets of a pcapng file that have no record for this reader.
    pub blocks: BlockTallies,
    /// Records with marks, whether or not they were passed over.
    pub marks: MarkTallies,
}

impl ReadingSummary {
    /// Returns the summary before any record.
    pub fn none() -> ReadingSummary
        ensures { result ≡ empty_summary }
    {
        let none = CountAndFirst::none();
        ReadingSummary {
            other_types: [none; TYPES],
            errored: none,
            cut_short: none,
            back: none,
            other_link: none,
            blocks: BlockTallies::none(),
            marks: MarkTallies::none(),
        }
    }

    /// Counts one more block or packet without a record.
    pub fn skip_block(&mut self, block: SkippedBlock)
        ensures { self.new ≡ with_skipped_block self.old block }
    {
        self.blocks.count(block.what, block.at);
    }

    /// Counts the marks of a record with this number.
    #[inline(always)]
    pub fn mark(&mut self, marks: Marks, number: u64)
        ensures { self.new ≡ with_marked self.old marks number }
    {
        self.marks.count(marks, number);
    }

    /// Counts one record more of this type, with this number.
    fn count_type(&mut self, kind: u8, number: u64)
        ensures { self.new ≡ record self.old { other_types = with_other_type self.old.other_types kind number } }
    {
        let place = usize::from(kind);
        if place < TYPES {
            self.other_types[place] = self.other_types[place].with(number);
        }
    }

    /// Counts one record more, which holds no cell for this reason and has this number.
    pub fn count(&mut self, why: NoCell, number: u64)
        ensures { self.new ≡ without_cell self.old why number }
    {
        match why {
            NoCell::OtherType(kind) => self.count_type(kind, number),
            NoCell::Errored => self.errored = self.errored.with(number),
            NoCell::CutShort(_) => self.cut_short = self.cut_short.with(number),
        }
    }
}

/// Appends a comment about records of this type, if they were passed over.
#[tactic(auto, using(std::proofs::lemmas::List::append_assoc))]
fn add_other_type(answers: &mut Vec<u8>, tally: CountAndFirst, kind: usize) -> Added
    ensures { OnOk result (answers.new.items ≡ answers.old.items ++ other_type_line kind tally) }
{
    if tally.count == 0 {
        return Ok(());
    }
    add_count(answers, tally)?;
    add_text(answers, b"type ")?;
    add_number(answers, kind as u64)?;
    add_text(answers, b", not ATM")?;
    add_first(answers, tally)
}

/// Appends a comment for each type of records that were passed over, in order.
fn add_other_types(answers: &mut Vec<u8>, tallies: &[CountAndFirst]) -> Added
    ensures { OnOk result (answers.new.items ≡ answers.old.items ++ other_type_lines 0 tallies.now) }
{
    for (kind, tally) in tallies.iter().enumerate() {
        add_other_type(answers, *tally, kind)?;
    }
    Ok(())
}

/// Appends a comment for each reason why records were passed over.
#[tactic(auto, using(std::proofs::lemmas::List::append_assoc))]
fn add_reasons(answers: &mut Vec<u8>, summary: &ReadingSummary) -> Added
    ensures { OnOk result (answers.new.items ≡ answers.old.items ++ reason_lines summary.now) }
{
    add_other_types(answers, &summary.other_types)?;
    add_tally(answers, summary.errored, b"received with an error")?;
    add_tally(
        answers,
        summary.cut_short,
        b"fewer than 52 octets of a cell",
    )?;
    add_tally(
        answers,
        summary.back,
        b"a time before that of an earlier cell",
    )?;
    add_tally(answers, summary.other_link, b"another link")
}

/// Appends the comments.
#[tactic(auto, using(std::proofs::lemmas::List::append_assoc))]
pub(crate) fn add_summary(answers: &mut Vec<u8>, summary: &ReadingSummary) -> Added
    ensures { OnOk result (answers.new.items ≡ answers.old.items ++ summary_lines summary.now) }
{
    add_reasons(answers, summary)?;
    add_blocks(answers, summary.blocks)?;
    add_marks(answers, summary.marks)
}

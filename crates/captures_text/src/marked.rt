//! Records with marks.

ghost use Rattle.std.specs.Prelude.{◌≡◌, ◌++◌, OnOk};
ghost use Rattle.captures_text.specs.MarkedRecords.{channel_mark_lines, header_mark_lines, mark_line, mark_lines, no_marks, with_each_mark, with_marks};

use crate::tally::{CountAndFirst, add_first};
use captures::Marks;
use std::alloc::AllocError;
use text_words::{add_number, add_text};

/// How many records have each mark, and the first of them.
#[derive(Clone, Copy)]
pub struct MarkTallies {
    /// Records were lost before them.
    pub losses: CountAndFirst,
    /// The card cut them off.
    pub truncated: CountAndFirst,
    /// An octet of the cell was lost.
    pub lost_octet: CountAndFirst,
    /// The header of the cell was corrected by its check.
    pub header_corrected: CountAndFirst,
    /// The CRC-10 of the cell is wrong.
    pub crc_error: CountAndFirst,
}

impl MarkTallies {
    /// Returns the tallies before any record.
    pub(crate) fn none() -> MarkTallies
        ensures { result ≡ no_marks }
    {
        let none = CountAndFirst::none();
        MarkTallies {
            losses: none,
            truncated: none,
            lost_octet: none,
            header_corrected: none,
            crc_error: none,
        }
    }

    /// Returns the tallies with one record more that has some of these marks.
    fn with_each(self, marks: Marks, number: u64) -> MarkTallies
        ensures { result ≡ with_each_mark self marks number }
    {
        MarkTallies {
            losses: self.losses.with_if(0 < marks.losses, number),
            truncated: self.truncated.with_if(marks.truncated, number),
            lost_octet: self.lost_octet.with_if(marks.lost_octet, number),
            header_corrected: self
                .header_corrected
                .with_if(marks.header_corrected, number),
            crc_error: self.crc_error.with_if(marks.crc_error, number),
        }
    }

    /// Counts one record more, with this number and these marks. Most records have none.
    #[inline(always)]
    pub(crate) fn count(&mut self, marks: Marks, number: u64)
        ensures { self.new ≡ with_marks self.old marks number }
    {
        if marks.any() {
            *self = self.with_each(marks, number);
        }
    }
}

/// Appends a comment about records with a mark, if there are any.
#[tactic(auto, using(std::proofs::lemmas::List::append_assoc))]
fn add_mark(answers: &mut Vec<u8>, tally: CountAndFirst, what: &[u8]) -> Result<(), AllocError>
    ensures { OnOk result (answers.new.items ≡ answers.old.items ++ mark_line tally what.now) }
{
    if tally.count == 0 {
        return Ok(());
    }
    add_text(answers, b"# ")?;
    add_number(answers, tally.count)?;
    add_text(answers, what)?;
    add_first(answers, tally)
}

/// Appends a comment for each mark of a first header.
#[tactic(auto, using(std::proofs::lemmas::List::append_assoc))]
fn add_header_marks(answers: &mut Vec<u8>, tallies: MarkTallies) -> Result<(), AllocError>
    ensures { OnOk result (answers.new.items ≡ answers.old.items ++ header_mark_lines tallies) }
{
    add_mark(answers, tallies.losses, b" with losses before them")?;
    add_mark(answers, tallies.truncated, b" cut off by the card")
}

/// Appends a comment for each mark of a multi-channel header.
#[tactic(auto, using(std::proofs::lemmas::List::append_assoc))]
fn add_channel_marks(answers: &mut Vec<u8>, tallies: MarkTallies) -> Result<(), AllocError>
    ensures { OnOk result (answers.new.items ≡ answers.old.items ++ channel_mark_lines tallies) }
{
    add_mark(answers, tallies.lost_octet, b" with a lost octet")?;
    add_mark(
        answers,
        tallies.header_corrected,
        b" with a corrected header",
    )?;
    add_mark(answers, tallies.crc_error, b" with a wrong CRC-10")
}

/// Appends a comment for each mark.
#[tactic(auto, using(std::proofs::lemmas::List::append_assoc))]
pub(crate) fn add_marks(answers: &mut Vec<u8>, tallies: MarkTallies) -> Result<(), AllocError>
    ensures { OnOk result (answers.new.items ≡ answers.old.items ++ mark_lines tallies) }
{
    add_header_marks(answers, tallies)?;
    add_channel_marks(answers, tallies)
}

//! Tallies of records, or of other things in a capture.

ghost use Rattle.std.specs.Prelude.{◌≡◌, ◌++◌, OnOk};
ghost use Rattle.captures_text.specs.Tallies.{first_record_text, no_tally, one_more_if, one_more_record, skipped_count, tally_line};

use text_io::Added;
use text_words::{add_number, add_numbered, add_text};

/// How many records, or other things in a capture, and the first of them.
#[derive(Clone, Copy)]
pub struct CountAndFirst {
    /// How many.
    pub count: u64,
    /// The number of the first record, from 1, or of blocks the place of the first, in octets from 0. It is 0 if there is none.
    pub first: u64,
}

impl CountAndFirst {
    /// Returns the tally of no record.
    pub fn none() -> CountAndFirst
        ensures { result ≡ no_tally }
    {
        CountAndFirst { count: 0, first: 0 }
    }

    /// Returns the tally with one record more, which has this number.
    pub fn with(self, number: u64) -> CountAndFirst
        ensures { result ≡ one_more_record self number }
    {
        CountAndFirst {
            count: self.count.saturating_add(1),
            first: if self.count == 0 { number } else { self.first },
        }
    }

    /// Returns the tally with one record more, which has this number, if `holds`. Otherwise returns it unchanged.
    pub(crate) fn with_if(self, holds: bool, number: u64) -> CountAndFirst
        ensures { result ≡ one_more_if self holds number }
    {
        if holds { self.with(number) } else { self }
    }
}

/// Appends the beginning of a comment: how many records, blocks or packets were passed over.
#[tactic(auto, using(std::proofs::lemmas::List::append_assoc))]
pub(crate) fn add_count(answers: &mut Vec<u8>, tally: CountAndFirst) -> Added
    ensures { OnOk result (answers.new.items ≡ answers.old.items ++ skipped_count tally) }
{
    add_text(answers, b"# ")?;
    add_number(answers, tally.count)?;
    add_text(answers, b" passed over: ")
}

/// Appends the end of a comment: the number of the first record.
pub(crate) fn add_first(answers: &mut Vec<u8>, tally: CountAndFirst) -> Added
    ensures { OnOk result (answers.new.items ≡ answers.old.items ++ first_record_text tally) }
{
    add_numbered(answers, b"; first record ", tally.first as usize)
}

/// Appends a comment about records that were passed over, if there are any.
#[tactic(auto, using(std::proofs::lemmas::List::append_assoc))]
pub(crate) fn add_tally(answers: &mut Vec<u8>, tally: CountAndFirst, why: &[u8]) -> Added
    ensures { OnOk result (answers.new.items ≡ answers.old.items ++ tally_line tally why.now) }
{
    if tally.count == 0 {
        return Ok(());
    }
    add_count(answers, tally)?;
    add_text(answers, why)?;
    add_first(answers, tally)
}

//! The columns of a cell, written from the last one on: one addition to the answers is faster than one for each column.

ghost use Rattle.std.specs.Prelude.{◌≡◌, ◌+◌, ◌≤◌, ◌++◌, ℕ, List, [], None, OnOk, decimal, length};
ghost use Rattle.card_core.specs.Sections.{answer_to, unjudged_answer};
ghost use Rattle.leaky.specs.Excess.{bucket_number};
ghost use Rattle.text_script.specs.ReplyTexts.{channel_name};
ghost use Rattle.cmd_police.specs.PoliceLines.{answer_columns, cell_columns, excess_columns, priority_digit, verdict_word};
ghost use Rattle.cmd_setups.specs.Columns.{in_column};

use card_core::{Judgement, Unjudged};
use leaky::{Excess, Verdict, WhichBucket};
use line_record::LineFault;
use std::alloc::AllocError;
use text_words::TextFromEnd;
use upc_cell::{Side, Vc};

/// The space for the columns of a cell: three numbers of at most twenty digits, three of at most ten, two digits, a word of at most
/// seven octets, and eight tabs.
const COLUMNS_ROOM: usize = 107;

/// Puts a number and a tab.
#[inline(always)]
#[tactic(auto, using(std::proofs::lemmas::List::append_assoc))]
fn put_number(text: &mut TextFromEnd<COLUMNS_ROOM>, number: u64)
    requires { length text.old ≤ 86 }
    ensures text { text.new ≡ in_column (decimal number) ++ text.old }
    ensures length { length text.new ≤ 21 + length text.old }
{
    text.put(b"\t");
    text.put_number(number);
}

/// Puts a number of 32 bits and a tab.
#[inline(always)]
#[tactic(auto, using(std::proofs::lemmas::List::append_assoc))]
fn put_short_number(text: &mut TextFromEnd<COLUMNS_ROOM>, number: u32)
    requires { length text.old ≤ 96 }
    ensures text { text.new ≡ in_column (decimal number) ++ text.old }
    ensures length { length text.new ≤ 11 + length text.old }
{
    text.put(b"\t");
    text.put_short_number(number);
}

/// Puts a word and a tab.
#[inline(always)]
#[tactic(auto, using(std::proofs::lemmas::List::append_assoc))]
fn put_word(text: &mut TextFromEnd<COLUMNS_ROOM>, word: &[u8])
    requires { 1 + length word.now + length text.old ≤ 107 }
    ensures text { text.new ≡ in_column word.now ++ text.old }
    ensures length { length text.new ≡ 1 + length word.now + length text.old }
{
    text.put(b"\t");
    text.put(word);
}

/// Returns the digit for a bucket.
#[inline(always)]
fn bucket_digit(bucket: WhichBucket) -> &'static [u8]
    ensures digit { result.now ≡ decimal (bucket_number bucket) }
    ensures short { length result.now ≡ 1 }
{
    match bucket {
        WhichBucket::Peak => b"1",
        WhichBucket::Sustained => b"2",
    }
}

/// Puts the columns for an excess.
#[inline(always)]
#[tactic(auto, using(std::proofs::lemmas::List::append_assoc))]
fn put_excess(text: &mut TextFromEnd<COLUMNS_ROOM>, excess: Option<Excess>)
    requires { length text.old ≤ 85 }
    ensures text { text.new ≡ excess_columns excess ++ text.old }
    ensures length { length text.new ≤ 22 + length text.old }
{
    match excess {
        Some(excess) => {
            text.put_number(excess.ticks);
            put_word(text, bucket_digit(excess.bucket));
        }
        None => text.put(b"-\t-"),
    }
}

/// Returns the word for a verdict.
#[inline(always)]
fn word_of(verdict: Verdict) -> &'static [u8]
    ensures word { result.now ≡ verdict_word verdict }
    ensures short { length result.now ≤ 7 }
{
    match verdict {
        Verdict::Pass => b"pass",
        Verdict::Tag => b"tag",
        Verdict::Discard => b"discard",
        Verdict::Refuse => b"refuse",
    }
}

/// Returns the columns for a cell that wasn't judged.
fn columns_without(reason: Unjudged) -> &'static [u8]
    ensures columns { result.now ≡ answer_columns (unjudged_answer reason) None }
    ensures short { length result.now ≤ 19 }
{
    match reason {
        Unjudged::NoConnection => b"-\tNoConnection\t-\t-",
        Unjudged::Released => b"-\tReleased\t-\t-",
        Unjudged::Stale => b"-\tStale\t-\t-",
        Unjudged::LineFault(LineFault::Back(_)) => b"-\tMomentBack\t-\t-",
        Unjudged::LineFault(LineFault::TooLate) => b"-\tMomentTooLate\t-\t-",
        Unjudged::LineFault(LineFault::Full) => b"-\tJournalFull\t-\t-",
        Unjudged::LineFault(LineFault::NoMemory) => b"-\tNoMemory\t-\t-",
    }
}

/// Puts the columns of a judged cell: the value, the verdict and the excess.
#[inline(always)]
#[tactic(auto, using(std::proofs::lemmas::List::append_assoc))]
fn put_judged(
    text: &mut TextFromEnd<COLUMNS_ROOM>,
    value: u32,
    verdict: Verdict,
    excess: Option<Excess>,
)
    requires { text.old ≡ [] }
    ensures text { text.new ≡ in_column (decimal value) ++ (in_column (verdict_word verdict) ++ (excess_columns excess ++ [])) }
    ensures length { length text.new ≤ 41 }
{
    put_excess(text, excess);
    put_word(text, word_of(verdict));
    put_short_number(text, value);
}

/// Puts the columns for an answer.
#[inline(always)]
fn put_answer(
    text: &mut TextFromEnd<COLUMNS_ROOM>,
    decision: &Result<Judgement, Unjudged>,
    excess: Option<Excess>,
)
    requires { text.old ≡ [] }
    ensures text { (cell : List ℕ) → text.new ≡ answer_columns (answer_to cell decision.now) excess }
    ensures length { length text.new ≤ 41 }
{
    match decision {
        Ok(judged) => put_judged(text, judged.value, judged.verdict, excess),
        Err(reason) => text.put(columns_without(*reason)),
    }
}

/// Returns the digit for a cell loss priority.
#[inline(always)]
fn digit_of(clp: bool) -> &'static [u8]
    ensures digit { result.now ≡ decimal (priority_digit clp) }
    ensures short { length result.now ≡ 1 }
{
    if clp { b"1" } else { b"0" }
}

/// Puts the columns for a connection.
#[inline(always)]
fn put_connection(text: &mut TextFromEnd<COLUMNS_ROOM>, side: Side, vc: Vc)
    requires { length text.old ≤ 43 }
    ensures text { text.new ≡ in_column (decimal vc.vpi) ++ (in_column (channel_name side vc.vci) ++ text.old) }
    ensures length { length text.new ≤ 22 + length text.old }
{
    if side.has_paths() {
        put_word(text, b"*");
    } else {
        put_short_number(text, u32::from(vc.vci));
    }
    put_short_number(text, u32::from(vc.vpi));
}

/// Puts the columns of a cell before those for its answer.
#[inline(always)]
fn put_arrival(
    text: &mut TextFromEnd<COLUMNS_ROOM>,
    side: Side,
    number: u64,
    moment: u64,
    vc: Vc,
    clp: bool,
)
    requires { length text.old ≤ 41 }
    ensures { text.new ≡ in_column (decimal number) ++ (in_column (decimal moment) ++ (in_column (decimal vc.vpi) ++ (in_column (channel_name side vc.vci)
        ++ (in_column (decimal (priority_digit clp)) ++ text.old)))) }
{
    put_word(text, digit_of(clp));
    put_connection(text, side, vc);
    put_number(text, moment);
    put_number(text, number);
}

/// Appends the columns of a cell.
pub(crate) fn add_cell_columns(
    answers: &mut Vec<u8>,
    side: Side,
    number: u64,
    moment: u64,
    vc: Vc,
    clp: bool,
    decision: &Result<Judgement, Unjudged>,
    excess: Option<Excess>,
) -> Result<(), AllocError>
    ensures { (cell : List ℕ) → OnOk result (answers.new.items ≡ answers.old.items
        ++ cell_columns side number moment vc clp (answer_to cell decision.now) excess) }
{
    let mut text = TextFromEnd::<COLUMNS_ROOM>::new();
    put_answer(&mut text, decision, excess);
    put_arrival(&mut text, side, number, moment, vc, clp);
    answers.extend_from_slice(text.as_slice())
}

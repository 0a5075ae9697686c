//! The counts of each connection in a span of time.

ghost use Rattle.std.specs.Prelude.{◌≡◌, ◌++◌, OnOk, flat_map};
ghost use Rattle.std.specs.Map.{values_of};
ghost use Rattle.cmd_setups.specs.SpanCounts.{rows_text, span_heading, span_line, with_judged, with_judged_row};
ghost use Rattle.cmd_setups.specs.inner.SpansShown.{judged_cell};

use crate::columns::add_number_column;
use crate::connection_counts::{add_counts_line, order_number};
use leaky::Verdict;
use line_record::Tally;
use std::collections::BTreeMap;
use text_io::Added;
use text_words::add_text;
use upc_cell::{Side, Vc};

/// The connections that have cells in a span, by their numbers in the order of path and channel, each with its counts.
pub type SpanRows = BTreeMap<u64, (Vc, Tally)>;

/// Returns the counts with one more cell of this verdict. A count of 2^64 - 1 stays.
fn with_judged(counts: Tally, verdict: Verdict) -> Tally
    ensures { result ≡ with_judged counts verdict }
{
    let mut judged = counts;
    match verdict {
        Verdict::Pass => judged.passed = counts.passed.saturating_add(1),
        Verdict::Tag => judged.tagged = counts.tagged.saturating_add(1),
        Verdict::Discard => judged.discarded = counts.discarded.saturating_add(1),
        Verdict::Refuse => judged.refused = counts.refused.saturating_add(1),
    }
    judged
}

/// Counts one more cell of this connection, with this verdict.
pub(crate) fn count_row(rows: &mut SpanRows, vc: Vc, verdict: Verdict) -> Added
    ensures { OnOk result (rows.new.entries ≡ with_judged_row rows.old.entries (judged_cell vc verdict)) }
{
    let number = order_number(vc);
    let counts = match rows.get(&number) {
        Some(row) => row.1,
        None => Tally::new(),
    };
    rows.insert(number, (vc, with_judged(counts, verdict)))?;
    Ok(())
}

/// Appends the heading.
fn add_span_heading(answers: &mut Vec<u8>) -> Added
    ensures { OnOk result (answers.new.items ≡ answers.old.items ++ span_heading) }
{
    add_text(
        answers,
        b"span\tmoment\tvpi\tvci\tpassed\ttagged\tdiscarded\trefused\n",
    )
}

/// Appends the line of a connection in a span that begins at this moment.
#[tactic(auto, using(std::proofs::lemmas::List::append_assoc))]
fn add_span_line(answers: &mut Vec<u8>, side: Side, begin: u64, row: &(Vc, Tally)) -> Added
    ensures { OnOk result (answers.new.items ≡ answers.old.items ++ span_line side begin row.now) }
{
    add_text(answers, b"span\t")?;
    add_number_column(answers, begin)?;
    add_counts_line(answers, side, row.0, row.1)
}

/// Appends the lines of all these connections.
fn add_lines(answers: &mut Vec<u8>, side: Side, begin: u64, rows: &SpanRows) -> Added
    ensures { OnOk result (answers.new.items ≡ answers.old.items ++ flat_map (span_line side begin) (values_of rows.now.entries)) }
{
    for row in rows.values() {
        add_span_line(answers, side, begin, row)?;
    }
    Ok(())
}

/// Appends the text about a span that begins at this moment and has these rows.
#[tactic(auto, using(std::proofs::lemmas::List::append_assoc))]
pub(crate) fn add_rows(
    answers: &mut Vec<u8>,
    side: Side,
    begun: bool,
    begin: u64,
    rows: &SpanRows,
) -> Added
    ensures { OnOk result (answers.new.items ≡ answers.old.items ++ rows_text side begun begin rows.now.entries) }
{
    if rows.is_empty() {
        return Ok(());
    }
    if !begun {
        add_span_heading(answers)?;
    }
    add_lines(answers, side, begin, rows)
}

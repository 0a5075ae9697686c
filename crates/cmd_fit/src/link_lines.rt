//! The lines of `links`. Each function appends to the answers.

ghost use Rattle.std.specs.Prelude.{◌≡◌, ◌++◌, ◌+◌, ◌%◌, OnOk, codes, decimal, flat_map};
ghost use Rattle.cmd_fit.specs.inner.LinkStates.{links_state};
ghost use Rattle.cmd_fit.specs.LinksText.{last_digit as digit_of, left_out_count, left_out_line, link_line, links_heading, links_lines, nine_digits, seconds_word, tally_columns, time_columns, time_word};
ghost use Rattle.captures.specs.Moments.{nearest_tick};
ghost use Rattle.captures_text.specs.LinkWords.{link_word};
ghost use Rattle.captures_text.specs.Tallies.{first_record_text};

use crate::link_table::LinkTable;
use crate::link_tally::LinkTally;
use captures::{Fault, Link, Tick};
use captures_text::{CountAndFirst, add_closing, add_link};
use indexmap::IndexMap;
use std::alloc::AllocError;
use text_words::{add_number, add_numbered, add_text};

/// Returns the last decimal digit of a number, in ASCII.
fn last_digit(number: u64) -> u8
    ensures { result ≡ digit_of number }
{
    48 + (number % 10) as u8
}

/// Appends the last nine decimal digits of a number.
fn add_nine_digits(answers: &mut Vec<u8>, number: u64) -> Result<(), AllocError>
    ensures { OnOk result (answers.new.items ≡ answers.old.items ++ nine_digits number) }
{
    let digits = [
        last_digit(number / 100_000_000),
        last_digit(number / 10_000_000),
        last_digit(number / 1_000_000),
        last_digit(number / 100_000),
        last_digit(number / 10_000),
        last_digit(number / 1_000),
        last_digit(number / 100),
        last_digit(number / 10),
        last_digit(number),
    ];
    add_text(answers, &digits)
}

/// Appends this many nanoseconds in seconds, with nine decimal places.
#[tactic(auto, using(std::proofs::lemmas::List::append_assoc))]
fn add_seconds(answers: &mut Vec<u8>, nanoseconds: u64) -> Result<(), AllocError>
    ensures { OnOk result (answers.new.items ≡ answers.old.items ++ seconds_word nanoseconds) }
{
    add_number(answers, nanoseconds / 1_000_000_000)?;
    add_text(answers, b".")?;
    add_nine_digits(answers, nanoseconds % 1_000_000_000)
}

/// Returns a time, in units of 2^-32 seconds, to the nearest nanosecond.
fn nanoseconds_of(time: u64) -> u64
    ensures { result ≡ nearest_tick time 1 }
{
    let Some(nanosecond) = Tick::new(1) else {
        unreachable!();
    };
    nanosecond.nearest(time)
}

/// Appends a time and a tab.
#[tactic(auto, using(std::proofs::lemmas::List::append_assoc))]
fn add_time(answers: &mut Vec<u8>, time: u64) -> Result<(), AllocError>
    ensures { OnOk result (answers.new.items ≡ answers.old.items ++ (time_word time ++ codes "\t")) }
{
    add_seconds(answers, nanoseconds_of(time))?;
    add_text(answers, b"\t")
}

/// Appends the times of a link.
#[tactic(auto, using(std::proofs::lemmas::List::append_assoc))]
fn add_times(answers: &mut Vec<u8>, tally: &LinkTally) -> Result<(), AllocError>
    ensures { OnOk result (answers.new.items ≡ answers.old.items ++ time_columns tally.now) }
{
    add_time(answers, tally.first)?;
    add_time(answers, tally.last)
}

/// Appends the word of a link and a tab.
#[tactic(auto, using(std::proofs::lemmas::List::append_assoc))]
fn add_link_column(answers: &mut Vec<u8>, link: Link) -> Result<(), AllocError>
    ensures { OnOk result (answers.new.items ≡ answers.old.items ++ (link_word link ++ codes "\t")) }
{
    add_link(answers, link)?;
    add_text(answers, b"\t")
}

/// Appends a number and a tab.
#[tactic(auto, using(std::proofs::lemmas::List::append_assoc))]
fn add_column(answers: &mut Vec<u8>, number: u64) -> Result<(), AllocError>
    ensures { OnOk result (answers.new.items ≡ answers.old.items ++ (decimal number ++ codes "\t")) }
{
    add_number(answers, number)?;
    add_text(answers, b"\t")
}

/// Appends the columns of a link after its word.
#[tactic(auto, using(std::proofs::lemmas::List::append_assoc))]
fn add_tally_columns(answers: &mut Vec<u8>, tally: &LinkTally) -> Result<(), AllocError>
    ensures { OnOk result (answers.new.items ≡ answers.old.items ++ tally_columns tally.now) }
{
    add_column(answers, tally.cells)?;
    add_times(answers, tally)?;
    add_number(answers, tally.losses)?;
    add_text(answers, b"\n")
}

/// Appends the line of a link.
#[tactic(auto, using(std::proofs::lemmas::List::append_assoc))]
fn add_link_line(answers: &mut Vec<u8>, link: Link, tally: &LinkTally) -> Result<(), AllocError>
    ensures { OnOk result (answers.new.items ≡ answers.old.items ++ link_line (link, tally.now)) }
{
    add_link_column(answers, link)?;
    add_tally_columns(answers, tally)
}

/// Appends the lines of links, in order.
fn add_link_lines(answers: &mut Vec<u8>, rows: &IndexMap<Link, LinkTally>) -> Result<(), AllocError>
    ensures { OnOk result (answers.new.items ≡ answers.old.items ++ flat_map link_line rows.now.entries) }
{
    for (link, tally) in rows.iter() {
        add_link_line(answers, *link, tally)?;
    }
    Ok(())
}

/// Appends how many cells are of links without a line.
#[tactic(auto, using(std::proofs::lemmas::List::append_assoc))]
fn add_left_out_count(answers: &mut Vec<u8>, tally: CountAndFirst) -> Result<(), AllocError>
    ensures { OnOk result (answers.new.items ≡ answers.old.items ++ left_out_count tally) }
{
    add_text(answers, b"# ")?;
    add_number(answers, tally.count)?;
    add_text(answers, b" of links after the first 4096")
}

/// Appends which record has the first of those cells.
fn add_first_left_out(answers: &mut Vec<u8>, tally: CountAndFirst) -> Result<(), AllocError>
    ensures { OnOk result (answers.new.items ≡ answers.old.items ++ first_record_text tally) }
{
    add_numbered(answers, b"; first record ", tally.first as usize)
}

/// Appends the comment about cells of links without a line.
#[tactic(auto, using(std::proofs::lemmas::List::append_assoc))]
fn add_left_out(answers: &mut Vec<u8>, tally: CountAndFirst) -> Result<(), AllocError>
    ensures { OnOk result (answers.new.items ≡ answers.old.items ++ left_out_line tally) }
{
    if tally.count == 0 {
        return Ok(());
    }
    add_left_out_count(answers, tally)?;
    add_first_left_out(answers, tally)
}

/// Appends the text after all records. `ending` is the fault at which the reading ended, if there is one.
#[tactic(auto, using(std::proofs::lemmas::List::append_assoc))]
pub(crate) fn add_links(
    answers: &mut Vec<u8>,
    table: &LinkTable,
    ending: Option<Fault>,
) -> Result<(), AllocError>
    ensures { OnOk result (answers.new.items ≡ answers.old.items ++ links_lines (links_state table.now) ending) }
{
    add_text(answers, b"link\tcells\tfirst\tlast\tlosses\n")?;
    add_link_lines(answers, &table.rows)?;
    add_left_out(answers, table.left_out)?;
    add_closing(answers, &table.summary, ending)
}

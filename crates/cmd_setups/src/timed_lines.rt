//! The times of the lines of a setup script.

ghost use Rattle.std.specs.Prelude.{◌≡◌, ◌≤◌, ◌++◌, codes, decimal, length, IfOk, OnOk};
ghost use Rattle.text_io.specs.Words.{is_blank as blank, words_of};
ghost use Rattle.text_words.specs.FaultLines.{line};
ghost use Rattle.cmd_setups.specs.TimedLines.{blanks_before, falling_reason, falling_text, falls_below, first_word_end, later_time, octets_of_word, own_time, second_word_end, with_blanks, without_time};
ghost use Rattle.cmd_setups.specs.TimedScripts.{TakesTimes};

use crate::script_lines::next_line;
use cmd_explain_script::add_place;
use cmd_size::duration;
use std::alloc::{AllocError, Global};
use text_io::first_word;
use text_words::{add_number, add_text};

/// A setup script without its times.
#[derive(Drop)]
pub enum TimedScript {
    /// The script, and for each line its own time, or that of the nearest line before it with one, in nanoseconds. Lines before the first
    /// time have None, and are carried out before all cells.
    Ready(Vec<u8>, Vec<Option<u64>>),
    /// The answer to a script with a line whose time is before one that an earlier line names.
    Falls(Vec<u8>),
}

/// Returns whether an octet separates words.
fn is_blank(octet: u8) -> bool
    ensures { result ≡ blank octet }
{
    octet == b' ' || octet == b'\t'
}

/// Returns the number of blanks at the beginning.
fn blanks_before(octets: &[u8]) -> usize
    ensures count { result ≡ blanks_before octets.now }
    ensures within { result ≤ length octets.now }
{
    let mut left = octets;
    let mut count = 0;
    while let [octet, rest @ ..] = left {
        if !is_blank(*octet) {
            return count;
        }
        count += 1;
        left = rest;
    }
    count
}

/// Returns the number of octets up to the first blank.
fn octets_of_word(octets: &[u8]) -> usize
    ensures count { result ≡ octets_of_word octets.now }
    ensures within { result ≤ length octets.now }
{
    let mut left = octets;
    let mut count = 0;
    while let [octet, rest @ ..] = left {
        if is_blank(*octet) {
            return count;
        }
        count += 1;
        left = rest;
    }
    count
}

/// Returns the number of octets up to the end of the first word.
fn first_word_end(octets: &[u8]) -> usize
    ensures count { result ≡ first_word_end octets.now }
    ensures within { result ≤ length octets.now }
{
    let blanks = blanks_before(octets);
    blanks + octets_of_word(&octets[blanks..])
}

/// Returns the number of octets up to the end of the second word.
fn second_word_end(octets: &[u8]) -> usize
    ensures count { result ≡ second_word_end octets.now }
    ensures within { result ≤ length octets.now }
{
    let first = first_word_end(octets);
    first + first_word_end(&octets[first..])
}

/// Returns the time that a line names, in nanoseconds.
#[tactic(auto, unfolding(crate::specs::TimedLines::own_time))]
fn own_time(line: &[u8]) -> Option<u64>
    ensures { result ≡ own_time line.now }
{
    let (word, after) = first_word(line)?;
    let (time, rest) = first_word(after)?;
    first_word(rest)?;
    if word == b"at".as_slice() {
        duration(time)
    } else {
        None
    }
}

/// Returns the time at which a line is carried out: its own, or that of the line before it.
fn later_time(own: Option<u64>, before: Option<u64>) -> Option<u64>
    ensures { result ≡ later_time own before }
{
    match own {
        Some(time) => Some(time),
        None => before,
    }
}

/// Returns whether a line's time is before that of the line before it.
fn falls_below(own: Option<u64>, before: Option<u64>) -> bool
    ensures { result ≡ falls_below own before }
{
    match (own, before) {
        (Some(time), Some(before)) => time < before,
        _ => false,
    }
}

/// Appends octets, with blanks in place of the first `many` of them.
fn add_blanked(made: &mut Vec<u8>, many: usize, octets: &[u8]) -> Result<(), AllocError>
    requires { many ≤ length octets.now }
    ensures { OnOk result (made.new.items ≡ made.old.items ++ with_blanks many octets.now) }
{
    let end = made.len() + many;
    made.resize(end, b' ')?;
    made.extend_from_slice(&octets[many..])
}

/// Appends a line, with blanks in place of `at` and its time if it names one.
fn add_without_time(made: &mut Vec<u8>, own: Option<u64>, octets: &[u8]) -> Result<(), AllocError>
    ensures { OnOk result (made.new.items ≡ made.old.items ++ without_time own octets.now) }
{
    match own {
        Some(_) => add_blanked(made, second_word_end(octets), octets),
        None => add_text(made, octets),
    }
}

/// Appends the fault line of a time that falls on the line of this number.
#[tactic(auto, using(std::proofs::lemmas::List::append_assoc))]
fn add_falling(answers: &mut Vec<u8>, number: usize) -> Result<(), AllocError>
    ensures { OnOk result (answers.new.items ≡ answers.old.items ++ line (codes "fault at 1 Falls " ++ decimal number)) }
{
    add_text(answers, b"fault at 1 Falls ")?;
    add_number(answers, number as u64)?;
    add_text(answers, b"\n")
}

/// Appends the explanation of such a fault.
#[tactic(auto, using(std::proofs::lemmas::List::append_assoc))]
fn add_falling_reason(answers: &mut Vec<u8>, number: usize) -> Result<(), AllocError>
    ensures { OnOk result (answers.new.items ≡ answers.old.items ++ falling_reason number) }
{
    add_place(answers, number, None)?;
    add_text(
        answers,
        b"this time is before that of an earlier line; the times of a setup don't fall\n",
    )
}

/// Returns the answer to a script whose time falls on the line of this number.
fn falling_text(alloc: Global, number: usize) -> Result<Vec<u8>, AllocError>
    ensures { IfOk result (λ text. text.items ≡ falling_text number) }
{
    let mut text = Vec::new(alloc);
    add_falling(&mut text, number)?;
    add_falling_reason(&mut text, number)?;
    Ok(text)
}

/// Takes the times out of a setup script.
///
/// # Errors
///
/// `AllocError` if an allocation failed.
pub fn take_times(alloc: Global, setup: &[u8]) -> Result<TimedScript, AllocError>
    ensures { IfOk result (TakesTimes setup.now) }
{
    let mut script = Vec::new(alloc);
    let mut times = Vec::new(alloc);
    let mut before = None;
    let mut met = 0;
    let mut left = setup;
    while let Some((line, _, octets, rest)) = next_line(left) {
        met += 1;
        let own = own_time(line);
        if falls_below(own, before) {
            return Ok(TimedScript::Falls(falling_text(alloc, met)?));
        }
        add_without_time(&mut script, own, octets)?;
        before = later_time(own, before);
        times.push(before)?;
        left = rest;
    }
    Ok(TimedScript::Ready(script, times))
}

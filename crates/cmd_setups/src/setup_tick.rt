//! The tick that a setup script may name, and the tick of a run.

ghost use Rattle.std.specs.Prelude.{◌≡◌, ◌≤◌, ◌+◌, ◌++◌, length, OnOk, IfSome, option_map};
ghost use Rattle.text_io.specs.Lines.{lines_of};
ghost use Rattle.text_io.specs.Words.{is_silent, words_of};
ghost use Rattle.cmd_setups.specs.SetupTick.{agreed_nanoseconds, agreed_tick, line_tick, setup_tick, tick_line_in, tick_time, ticks_differ, without_tick};
ghost use Rattle.cmd_setups.specs.inner.Ticks.{place_and_size};

use crate::script_lines::next_line;
use captures::Tick;
use cmd_size::duration;
use std::alloc::AllocError;
use text_io::{LineWords, first_word, line_words};
use text_words::{add_number, add_text};

/// The nanoseconds of a tick that nobody names.
const DEFAULT_TICK: u64 = 100;

/// A line that names a tick.
#[derive(Clone, Copy)]
pub(crate) struct TickLine {
    /// The tick.
    pub(crate) tick: Tick,
    /// The place of its first octet in the script, from 0.
    pub(crate) at: usize,
    /// The number of its octets without its line feed.
    pub(crate) size: usize,
}

/// The ticks of a run for which a setup script names one, and another was asked for.
#[derive(Clone, Copy)]
pub struct TicksDiffer {
    /// The nanoseconds of the one that the script names.
    pub named: u64,
    /// The nanoseconds of the one that was asked for.
    pub asked: u64,
}

/// Returns the tick of a time as `upc-lab size` reads it, unless it is 0.
fn tick_time(word: &[u8]) -> Option<Tick>
    ensures { option_map (λ tick. tick.nanoseconds) result ≡ tick_time word.now }
{
    Tick::new(duration(word)?)
}

/// Returns the tick that a line names.
#[tactic(auto, unfolding(crate::specs::SetupTick::line_tick))]
fn line_tick(line: &[u8]) -> Option<Tick>
    ensures { option_map (λ tick. tick.nanoseconds) result ≡ line_tick line.now }
{
    let (word, after) = first_word(line)?;
    if word != b"tick".as_slice() {
        return None;
    }
    let (time, rest) = first_word(after)?;
    match first_word(rest) {
        None => tick_time(time),
        Some(_) => None,
    }
}

/// Returns whether a line has no words, or is a remark.
fn is_silent(line: &[u8]) -> bool
    ensures { result ≡ is_silent (words_of line.now) }
{
    match line_words(line) {
        LineWords::Silent => true,
        LineWords::One(_) | LineWords::Several => false,
    }
}

/// Returns the first line that isn't blank or a remark, if it names a tick.
fn tick_line(script: &[u8]) -> Option<TickLine>
    ensures found { option_map place_and_size result ≡ tick_line_in 0 (lines_of script.now) }
    ensures within { IfSome result (λ found. found.at + found.size ≤ length script.now) }
{
    let mut left = script;
    let mut at = 0;
    while let Some((line, size, octets, rest)) = next_line(left) {
        if !is_silent(line) {
            return match line_tick(line) {
                Some(tick) => Some(TickLine { tick, at, size }),
                None => None,
            };
        }
        at += octets.len();
        left = rest;
    }
    None
}

/// Returns the tick of a setup script whose first line that isn't blank or a remark is `tick TIME`. Blanks take the place of that line, so
/// that each other line keeps its number. docs/LAB.md has the format.
pub fn take_tick(script: &mut Vec<u8>) -> Option<Tick>
    ensures tick { option_map (λ tick. tick.nanoseconds) result ≡ setup_tick script.old.items }
    ensures script { script.new.items ≡ without_tick script.old.items }
{
    let Some(found) = tick_line(script) else {
        return None;
    };
    script[found.at..found.at + found.size].fill(b' ');
    Some(found.tick)
}

/// Returns the tick of a run: the one that the setup script names, or the one that was asked for, or 100 ns. If there
/// are both, they must be the same.
///
/// # Errors
///
/// `TicksDiffer` if they aren't.
pub fn agreed_tick(named: Option<Tick>, asked: Option<Tick>) -> Result<Tick, TicksDiffer>
    ensures { agreed_nanoseconds result ≡ agreed_tick (option_map (λ tick. tick.nanoseconds) named) (option_map (λ tick. tick.nanoseconds) asked) }
{
    match (named, asked) {
        (None, None) => Ok(Tick {
            nanoseconds: DEFAULT_TICK,
        }),
        (Some(tick), None) | (None, Some(tick)) => Ok(tick),
        (Some(named), Some(asked)) => {
            if named.nanoseconds == asked.nanoseconds {
                Ok(named)
            } else {
                Err(TicksDiffer {
                    named: named.nanoseconds,
                    asked: asked.nanoseconds,
                })
            }
        }
    }
}

/// Appends the fault line about two ticks.
#[tactic(auto, using(std::proofs::lemmas::List::append_assoc))]
pub fn add_ticks_differ(answers: &mut Vec<u8>, ticks: TicksDiffer) -> Result<(), AllocError>
    ensures { OnOk result (answers.new.items ≡ answers.old.items ++ ticks_differ ticks.named ticks.asked) }
{
    add_text(answers, b"fault tick 1 Differs ")?;
    add_number(answers, ticks.named)?;
    add_text(answers, b" ")?;
    add_number(answers, ticks.asked)?;
    add_text(answers, b"\n")
}

//! Which files of rules of a setup script are read.

ghost use Rattle.std.specs.Prelude.{◌≡◌, ◌++◌, ◌||◌, [], nat_le, nat_lt, option_map, IfOk, OnOk};
ghost use Rattle.text_io.specs.Limits.{most_input_lines, most_line_octets};
ghost use Rattle.text_io.specs.Words.{words_of};
ghost use Rattle.cmd_setups.specs.FilesRead.{files_read, files_read_plain, has_room_left, is_retiring, octets_of_names, room_after, room_after_command, room_of_shape, with_file};

use crate::rules_lines::{name_within, rules_name};
use crate::script_lines::next_line;
use crate::timed_lines::{TimedScript, take_times};
use card_core::Shape;
use std::alloc::{AllocError, Global};
use text_card::read_card;
use text_io::{LineWords, first_word, line_words};

/// The maximum number of lines of a setup script.
const MOST_SCRIPT_LINES: usize = 1000000;

/// The maximum number of octets of a line, with its carriage return and without its line feed.
pub(crate) const MOST_LINE_OCTETS: usize = 70000;

/// The room that a card has for programs before a line of its script.
#[derive(Clone, Copy)]
pub enum CardRoom {
    /// No line opened a card yet.
    Unopened,
    /// A card that has room for `free` programs, or for fewer.
    Opened {
        /// How many programs it may have room for.
        free: u64,
        /// How many programs it has room for at first.
        most: u64,
    },
    /// An earlier line ended the run.
    Over,
}

/// Returns the room of a new card of this shape.
fn room_of_shape(shape: Option<Shape>) -> CardRoom
    ensures { result ≡ room_of_shape shape }
{
    match shape {
        Some(shape) if shape.fault().is_none() => CardRoom::Opened {
            free: shape.programs,
            most: shape.programs,
        },
        _ => CardRoom::Over,
    }
}

/// Returns the room after a line before which no card is open. The first line with words opens one or ends the run.
fn room_after_opening(line: &[u8]) -> CardRoom
    ensures { result ≡ room_after CardRoom.Unopened line.now }
{
    match line_words(line) {
        LineWords::Silent => CardRoom::Unopened,
        LineWords::One(_) | LineWords::Several => room_of_shape(read_card(line)),
    }
}

/// Returns whether a line retires a program.
fn is_retiring(line: &[u8]) -> bool
    ensures { result ≡ is_retiring (words_of line.now) }
{
    match first_word(line) {
        Some((word, _)) => word == b"retire".as_slice(),
        None => false,
    }
}

/// Returns the room after a command.
fn room_after_command(free: u64, most: u64, line: &[u8]) -> CardRoom
    ensures { result ≡ room_after_command free most line.now }
{
    if is_retiring(line) {
        let free = if free < most { free + 1 } else { free };
        CardRoom::Opened { free, most }
    } else if rules_name(line).is_some() {
        CardRoom::Opened {
            free: free.saturating_sub(1),
            most,
        }
    } else {
        CardRoom::Opened { free, most }
    }
}

impl CardRoom {
    /// Returns the room after a line.
    fn after(self, line: &[u8]) -> CardRoom
        ensures { result ≡ room_after self line.now }
    {
        match self {
            CardRoom::Unopened => room_after_opening(line),
            CardRoom::Opened { free, most } => room_after_command(free, most, line),
            CardRoom::Over => CardRoom::Over,
        }
    }

    /// Returns whether a program may be loaded.
    fn is_left(self) -> bool
        ensures { result ≡ has_room_left self }
    {
        match self {
            CardRoom::Opened { free, .. } => free > 0,
            CardRoom::Unopened | CardRoom::Over => false,
        }
    }
}

/// Returns whether a line of this number of octets, after `met` others, is over the limits.
fn is_over(met: usize, octets: usize) -> bool
    ensures { result ≡ (nat_le most_input_lines met || nat_lt most_line_octets octets) }
{
    met >= MOST_SCRIPT_LINES || octets > MOST_LINE_OCTETS
}

/// Appends the name of the file that a line names, if it names one; or None in place of the name, if there is no room.
fn add_file(
    alloc: Global,
    files: &mut Vec<Option<Vec<u8>>>,
    room: bool,
    name: Option<&[u8]>,
) -> Result<(), AllocError>
    ensures { OnOk result (octets_of_names files.new.items
        ≡ octets_of_names files.old.items ++ with_file room (option_map (λ name. name.now) name.entry) []) }
{
    let Some(name) = name else {
        return Ok(());
    };
    if room {
        files.push(Some(Vec::from_slice(alloc, name)?))?;
    } else {
        files.push(None)?;
    }
    Ok(())
}

/// Returns the names of the files of a script without its times.
fn files_of_lines(alloc: Global, script: &[u8]) -> Result<Vec<Option<Vec<u8>>>, AllocError>
    ensures { IfOk result (λ files. octets_of_names files.items ≡ files_read_plain script.now) }
{
    let mut files = Vec::new(alloc);
    let mut room = CardRoom::Unopened;
    let mut met = 0;
    let mut left = script;
    while let Some((line, size, _, rest)) = next_line(left) {
        if is_over(met, size) {
            room = CardRoom::Over;
        }
        add_file(alloc, &mut files, room.is_left(), name_within(line, size))?;
        room = room.after(line);
        met += 1;
        left = rest;
    }
    Ok(files)
}

/// Returns for each line `rules NAME` of a setup script, in order, the name of the file, or none if that file need not
/// be read: the card can't have room for its program then, or the run ended before. No file is read for a script whose
/// times fall. docs/LAB.md has the format.
///
/// # Errors
///
/// `AllocError` if an allocation failed.
pub fn files_read(alloc: Global, script: &[u8]) -> Result<Vec<Option<Vec<u8>>>, AllocError>
    ensures { IfOk result (λ files. octets_of_names files.items ≡ files_read script.now) }
{
    match take_times(alloc, script)? {
        TimedScript::Ready(script, _) => files_of_lines(alloc, &script),
        TimedScript::Falls(_) => Ok(Vec::new(alloc)),
    }
}

//! The commands of a script, read from the words of a line.

ghost use Rattle.std.specs.Prelude.{◌≡◌, ◌∷◌, true, false, option_map, IfSome, IfNone};
ghost use Rattle.std.specs.Option.{option_and_then};
ghost use Rattle.text_script.specs.ScriptCommands.{cell_of_words, command_of, wanted_contracts, cut_of, load_of, only_vc, release_of, reload_of, retire_of, setup_of};
ghost use Rattle.text_script.specs.CommandSeen.{command_seen};
ghost use Rattle.text_script.specs.inner.OnlyWord.{only_of};
ghost use Rattle.text_io.specs.Words.{is_silent, words_of};

use crate::script_words::{Wanted, connection, number, program, wanted_contract};
use arrayvec::ArrayVec;
use text_io::first_word;
use upc_cell::{Side, Vc};

/// A command of a line. Programs are named by number, from 1. The octets of a program or of a cell are still a word of
/// digits: an error in this word is reported only if all other words are right. The contracts of a setup are still words:
/// the function that carries out the command reads them with [`wanted_contracts`], so that a `Command` needs no space for four
/// contracts.
#[derive(Drop)]
pub enum Command<'a> {
    /// Loads the program that this word of digits spells.
    Load(&'a [u8]),
    /// Retires the program of this number.
    Retire(u64),
    /// Sets up a connection with the program of this number and the contracts of these words.
    Setup(Vc, u64, &'a [u8]),
    /// Gives a connection the program of this number.
    Reload(Vc, u64),
    /// Releases a connection.
    Release(Vc),
    /// Returns a connection's journal and begins a new one.
    Cut(Vc),
    /// At this moment, in ticks, the cell arrives that this word of digits spells.
    Cell(u64, &'a [u8]),
}

/// Returns the word of a line with exactly one word.
fn only_word(line: &[u8]) -> Option<&[u8]>
    ensures { option_map (λ word. word.now) result ≡ only_of (words_of line.now) }
{
    let Some((word, rest)) = first_word(line) else {
        return None;
    };
    if first_word(rest).is_some() {
        return None;
    }
    Some(word)
}

/// Reads `retire pN`, after its first word.
fn retire(line: &[u8]) -> Option<Command<'_>>
    ensures { option_and_then command_seen result ≡ retire_of (words_of line.now) }
{
    let Some(word) = only_word(line) else {
        return None;
    };
    match program(word) {
        Some(number) => Some(Command::Retire(number)),
        None => None,
    }
}

/// Reads `load HEX`, after its first word.
fn load(line: &[u8]) -> Option<Command<'_>>
    ensures { option_and_then command_seen result ≡ load_of (words_of line.now) }
{
    match only_word(line) {
        Some(digits) => Some(Command::Load(digits)),
        None => None,
    }
}

/// Reads `cell MOMENT HEX`, after its first word.
fn cell(line: &[u8]) -> Option<Command<'_>>
    ensures { option_and_then command_seen result ≡ cell_of_words (words_of line.now) }
{
    let Some((moment, rest)) = first_word(line) else {
        return None;
    };
    let Some(digits) = only_word(rest) else {
        return None;
    };
    match number(moment) {
        Some(ticks) => Some(Command::Cell(ticks, digits)),
        None => None,
    }
}

/// Reads `reload VPI VCI pN`, after its first word.
fn reload(side: Side, line: &[u8]) -> Option<Command<'_>>
    ensures { option_and_then command_seen result ≡ reload_of side (words_of line.now) }
{
    let Some((path, rest)) = first_word(line) else {
        return None;
    };
    let Some((channel, rest)) = first_word(rest) else {
        return None;
    };
    let Some(name) = only_word(rest) else {
        return None;
    };
    let Some(vc) = connection(side, path, channel) else {
        return None;
    };
    match program(name) {
        Some(number) => Some(Command::Reload(vc, number)),
        None => None,
    }
}

/// Returns the connection of a line of exactly two words.
fn only_connection(side: Side, line: &[u8]) -> Option<Vc>
    ensures { result ≡ only_vc side (words_of line.now) }
{
    let Some((path, rest)) = first_word(line) else {
        return None;
    };
    let Some(channel) = only_word(rest) else {
        return None;
    };
    connection(side, path, channel)
}

/// Reads `release VPI VCI`, after its first word.
fn release(side: Side, line: &[u8]) -> Option<Command<'_>>
    ensures { option_and_then command_seen result ≡ release_of side (words_of line.now) }
{
    match only_connection(side, line) {
        Some(vc) => Some(Command::Release(vc)),
        None => None,
    }
}

/// Reads `cut VPI VCI`, after its first word.
fn cut(side: Side, line: &[u8]) -> Option<Command<'_>>
    ensures { option_and_then command_seen result ≡ cut_of side (words_of line.now) }
{
    match only_connection(side, line) {
        Some(vc) => Some(Command::Cut(vc)),
        None => None,
    }
}

/// Returns one to four contracts, one word each. None if a word is no contract, or if there are none or more than four.
pub fn wanted_contracts(line: &[u8]) -> Option<ArrayVec<Wanted, 4>>
    ensures { option_map (λ wanted. wanted.items) result ≡ wanted_contracts (words_of line.now) }
{
    let mut wanted = ArrayVec::new();
    let mut rest = line;
    while let Some((word, after)) = first_word(rest) {
        let Some(next) = wanted_contract(word) else {
            return None;
        };
        if wanted.len() >= 4 {
            return None;
        }
        wanted.push(next);
        rest = after;
    }
    if wanted.is_empty() {
        return None;
    }
    Some(wanted)
}

/// Reads `setup VPI VCI pN`, after its first word. The words after them, the contracts, stay words.
fn setup(side: Side, line: &[u8]) -> Option<Command<'_>>
    ensures { option_and_then command_seen result ≡ setup_of side (words_of line.now) }
{
    let Some((path, rest)) = first_word(line) else {
        return None;
    };
    let Some((channel, rest)) = first_word(rest) else {
        return None;
    };
    let Some((name, rest)) = first_word(rest) else {
        return None;
    };
    let Some(vc) = connection(side, path, channel) else {
        return None;
    };
    match program(name) {
        Some(number) => Some(Command::Setup(vc, number, rest)),
        None => None,
    }
}

/// Returns the command that a word and the words after it spell on a card of this side. None if they spell no command.
/// Doesn't read the words of a setup's contracts.
pub fn named_command<'a>(side: Side, name: &[u8], rest: &'a [u8]) -> Option<Command<'a>>
    ensures { option_and_then command_seen result ≡ command_of side (name.now ∷ words_of rest.now) }
{
    if name == b"cell".as_slice() {
        cell(rest)
    } else if name == b"load".as_slice() {
        load(rest)
    } else if name == b"retire".as_slice() {
        retire(rest)
    } else if name == b"setup".as_slice() {
        setup(side, rest)
    } else if name == b"reload".as_slice() {
        reload(side, rest)
    } else if name == b"release".as_slice() {
        release(side, rest)
    } else if name == b"cut".as_slice() {
        cut(side, rest)
    } else {
        None
    }
}

/// Returns the command that a line's words spell, as [`named_command`] does.
pub fn read_command(side: Side, line: &[u8]) -> Option<Command<'_>>
    ensures { option_and_then command_seen result ≡ command_of side (words_of line.now) }
{
    match first_word(line) {
        Some((name, rest)) => named_command(side, name, rest),
        None => None,
    }
}

/// Returns the first word of a line and the rest. None if the line has no words or is a comment.
pub fn word_and_rest(line: &[u8]) -> Option<(&[u8], &[u8])>
    ensures silent { IfNone result (is_silent (words_of line.now) ≡ true) }
    ensures asks { IfSome result (λ found. is_silent (words_of line.now) ≡ false) }
    ensures words { IfSome result (λ found. words_of line.now ≡ found.0.now ∷ words_of found.1.now) }
{
    let Some((name, rest)) = first_word(line) else {
        return None;
    };
    match name {
        [b'#', ..] => None,
        _ => Some((name, rest)),
    }
}

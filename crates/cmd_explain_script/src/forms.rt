//! The words that each command of a script takes.

ghost use Rattle.std.specs.Prelude.{◌≡◌};
ghost use Rattle.std.specs.Option.{is_some};
ghost use Rattle.text_script.specs.ScriptWords.{number_up_to};
ghost use Rattle.cmd_explain_script.specs.ScriptForms.{commands_at, fits_script_slot, side_or_user, slots_after, words_fitting};
ghost use Rattle.cmd_explain_script.specs.Tables.{value_among};

use crate::found_words::{FoundWord, word_octets};
use crate::tables::value_among;
use text_card::named_side;
use text_script::{channel_of, number, program, wanted_contract};
use upc_cell::Side;

/// What a command takes.
#[derive(Clone, Copy)]
pub enum ScriptForm {
    /// The size of a card, perhaps a side, and then perhaps `paths`.
    Opening,
    /// The octets of a program.
    Loading,
    /// The name of a program.
    Retiring,
    /// A connection, the name of a program, and contracts.
    Setting,
    /// A connection and the name of a program.
    Reloading,
    /// A connection.
    OneConnection,
    /// A moment and the octets of a cell.
    Arrival,
}

/// A word of a command.
#[derive(Clone, Copy)]
pub enum ScriptSlot {
    /// A number of a card.
    Size,
    /// The side of a card.
    Side,
    /// The word for a card of virtual paths.
    Paths,
    /// A virtual path.
    Path,
    /// A virtual channel, or `*` on a card of virtual paths.
    Channel,
    /// The name of a program.
    Program,
    /// A contract.
    Contract,
    /// A number of ticks.
    Moment,
    /// Hexadecimal digits.
    Digits,
}

/// The line that opens a card.
pub(crate) const OPENING: [(&[u8], ScriptForm); 1] = [(b"card", ScriptForm::Opening)];

/// The commands of an open card.
pub(crate) const COMMANDS: [(&[u8], ScriptForm); 7] = [
    (b"cell", ScriptForm::Arrival),
    (b"load", ScriptForm::Loading),
    (b"retire", ScriptForm::Retiring),
    (b"setup", ScriptForm::Setting),
    (b"reload", ScriptForm::Reloading),
    (b"release", ScriptForm::OneConnection),
    (b"cut", ScriptForm::OneConnection),
];

/// Returns what the command of this name takes, on a card of this side or before there is one.
pub(crate) fn form_at(side: Option<Side>, word: &[u8]) -> Option<ScriptForm>
    ensures { result ≡ value_among word.now (commands_at side) }
{
    match side {
        None => value_among(word, &OPENING),
        Some(_) => value_among(word, &COMMANDS),
    }
}

/// Returns the words that may follow a command, in order.
pub(crate) fn slots_after(form: ScriptForm) -> &'static [ScriptSlot]
    ensures { result.now ≡ slots_after form }
{
    match form {
        ScriptForm::Opening => &[
            ScriptSlot::Size,
            ScriptSlot::Size,
            ScriptSlot::Size,
            ScriptSlot::Size,
            ScriptSlot::Side,
            ScriptSlot::Paths,
        ],
        ScriptForm::Loading => &[ScriptSlot::Digits],
        ScriptForm::Retiring => &[ScriptSlot::Program],
        ScriptForm::Setting => &[
            ScriptSlot::Path,
            ScriptSlot::Channel,
            ScriptSlot::Program,
            ScriptSlot::Contract,
            ScriptSlot::Contract,
            ScriptSlot::Contract,
            ScriptSlot::Contract,
        ],
        ScriptForm::Reloading => &[ScriptSlot::Path, ScriptSlot::Channel, ScriptSlot::Program],
        ScriptForm::OneConnection => &[ScriptSlot::Path, ScriptSlot::Channel],
        ScriptForm::Arrival => &[ScriptSlot::Moment, ScriptSlot::Digits],
    }
}

/// Returns the side of a card, or the user side if there is none yet.
pub(crate) fn side_or_user(side: Option<Side>) -> Side
    ensures { result ≡ side_or_user side }
{
    match side {
        None => Side::Uni,
        Some(side) => side,
    }
}

/// Returns whether a word spells a number of at most this.
fn is_at_most(most: u16, word: &[u8]) -> bool
    ensures { result ≡ is_some (number_up_to most word.now) }
{
    match number(word) {
        Some(number) => number <= u64::from(most),
        None => false,
    }
}

/// Returns whether a word may be in a slot, on a card of this side.
fn fits(side: Side, slot: ScriptSlot, word: &[u8]) -> bool
    ensures { result ≡ fits_script_slot side slot word.now }
{
    match slot {
        ScriptSlot::Size => number(word).is_some(),
        ScriptSlot::Side => named_side(word).is_some(),
        ScriptSlot::Paths => word == b"paths".as_slice(),
        ScriptSlot::Path => is_at_most(side.last_vpi(), word),
        ScriptSlot::Channel => channel_of(side, word).is_some(),
        ScriptSlot::Program => program(word).is_some(),
        ScriptSlot::Contract => wanted_contract(word).is_some(),
        ScriptSlot::Moment => number(word).is_some(),
        ScriptSlot::Digits => true,
    }
}

/// Returns the number of leading words that fit these slots.
pub(crate) fn words_fitting(
    side: Side,
    line: &[u8],
    slots: &[ScriptSlot],
    words: &[FoundWord],
) -> usize
    ensures { result ≡ words_fitting side line.now slots.now words.now }
{
    let mut left = slots;
    let mut rest = words;
    let mut count = 0;
    while let [slot, slots @ ..] = left {
        match rest {
            [] => return count,
            [word, words @ ..] => {
                if !fits(side, *slot, word_octets(line, *word)) {
                    return count;
                }
                count += 1;
                left = slots;
                rest = words;
            }
        }
    }
    count
}

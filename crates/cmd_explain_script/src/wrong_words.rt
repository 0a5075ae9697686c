//! What is wrong in a line that is no command.

ghost use Rattle.std.specs.Prelude.{◌≡◌, ◌++◌, OnOk, Some, option_map, slice_get};
ghost use Rattle.cmd_explain_script.specs.FoundWords.{word_octets};
ghost use Rattle.cmd_explain_script.specs.ScriptForms.{slots_after};
ghost use Rattle.cmd_explain_script.specs.WrongWords.{begins_remark, command_sentence, no_channel_text, no_contract_text, no_path_text, is_vbr, meant_command, meant_opening, meant_or, operand_sentence, no_program_text, setup_word_text, slot_sentence, slot_text, takes_sentence, takes_text, tick_text, uncommanded_sentence, uncommanded_text, unknown_sentence, unopened_sentence, unopened_text, wrong_after, wrong_sentence, wrong_word};

use crate::forms::{
    COMMANDS, OPENING, ScriptForm, ScriptSlot, form_at, side_or_user, slots_after, words_fitting,
};
use crate::found_words::{FoundWord, front, word_octets};
use crate::meant::add_perhaps;
use crate::places::add_quoted;
use crate::tables::near_among;
use text_io::Added;
use text_script::number;
use text_words::add_text;
use upc_cell::Side;

/// Returns the word at a place, if there is one.
pub(crate) fn word_at(words: &[FoundWord], place: usize) -> Option<FoundWord>
    ensures { result ≡ slice_get words.now place }
{
    words.get(place).copied()
}

/// Returns the word that is wrong in a line that is no command, if one is.
pub(crate) fn wrong_word(side: Option<Side>, line: &[u8], words: &[FoundWord]) -> Option<FoundWord>
    ensures { result ≡ wrong_word side line.now words.now }
{
    match words {
        [] => None,
        [first, rest @ ..] => match form_at(side, word_octets(line, *first)) {
            None => Some(*first),
            Some(form) => word_at(
                rest,
                words_fitting(side_or_user(side), line, slots_after(form), rest),
            ),
        },
    }
}

/// Returns whether octets are a kind of contract with two buckets, and the colon after it.
fn is_vbr(octets: &[u8]) -> bool
    ensures { result ≡ is_vbr octets.now }
{
    octets == b"vbr1:".as_slice()
        || (octets == b"vbr2:".as_slice() || octets == b"vbr3:".as_slice())
}

/// Returns what is wrong with a word that is no contract.
fn no_contract_text(word: &[u8]) -> &'static [u8]
    ensures { result.now ≡ no_contract_text word.now }
{
    if front(word, 5) == b"cbr1:".as_slice() {
        return b" is no contract; after `cbr1:` comes one bucket `T/L`, its increment and its limit in ticks";
    }
    if is_vbr(front(word, 5)) {
        b" is no contract; after its kind come two buckets `T/L:T/L`, the increment and the limit of each in ticks, that of the peak rate first"
    } else {
        b" is no contract; a contract is `cbr1:T/L`, `vbr1:T/L:T/L`, `vbr2:T/L:T/L` or `vbr3:T/L:T/L`, with increment T and limit L of each bucket"
    }
}

/// Returns what is wrong with a word that is no path.
fn no_path_text(side: Side) -> &'static [u8]
    ensures { result.now ≡ no_path_text side }
{
    match side {
        Side::Uni | Side::UniPaths => {
            b" is no VPI; at the user side a VPI is at most 255, and between nodes (`nni` in the line of the card) at most 4095"
        }
        Side::Nni | Side::NniPaths => b" is no VPI; between nodes a VPI is at most 4095",
    }
}

/// Returns what is wrong with a word that is no channel.
fn no_channel_text(side: Side, word: &[u8]) -> &'static [u8]
    ensures { result.now ≡ no_channel_text side word.now }
{
    if side.has_paths() {
        return b" is no channel; the channel on a card of paths is `*`";
    }
    if word == b"*".as_slice() {
        b" is no VCI; `*` is the channel only on a card of paths"
    } else {
        b" is no VCI; a VCI is at most 65535"
    }
}

/// Appends what is wrong with a word that names no program.
#[tactic(auto, using(std::proofs::lemmas::List::append_assoc))]
fn add_program(answers: &mut Vec<u8>, word: &[u8]) -> Added
    ensures { OnOk result (answers.new.items ≡ answers.old.items ++ no_program_text word.now) }
{
    if number(word).is_some() {
        add_text(answers, b" names no program; perhaps `p")?;
        add_text(answers, word)?;
        add_text(answers, b"` is meant")
    } else {
        add_text(
            answers,
            b" names no program; a name is `p` and a number, as `p1`",
        )
    }
}

/// Appends what is wrong with a word in a slot.
pub(crate) fn add_slot_text(
    answers: &mut Vec<u8>,
    side: Side,
    slot: ScriptSlot,
    word: &[u8],
) -> Added
    ensures { OnOk result (answers.new.items ≡ answers.old.items ++ slot_text side slot word.now) }
{
    match slot {
        ScriptSlot::Size => add_text(answers, b" is no number; the sizes of a card are decimal"),
        ScriptSlot::Side => add_text(answers, b" is no side; the sides are `uni` and `nni`"),
        ScriptSlot::Paths => add_text(
            answers,
            b" is no word of this line; after the side comes `paths` or nothing",
        ),
        ScriptSlot::Path => add_text(answers, no_path_text(side)),
        ScriptSlot::Channel => add_text(answers, no_channel_text(side, word)),
        ScriptSlot::Program => add_program(answers, word),
        ScriptSlot::Contract => add_text(answers, no_contract_text(word)),
        ScriptSlot::Moment => add_text(
            answers,
            b" is no moment; a moment is a decimal number of ticks",
        ),
        ScriptSlot::Digits => add_text(answers, b" is no word of digits"),
    }
}

/// Returns what a command takes, in words, on a card of paths or of channels.
pub(crate) fn takes_text(form: ScriptForm, paths: bool) -> &'static [u8]
    ensures { result.now ≡ takes_text form paths }
{
    match (form, paths) {
        (ScriptForm::Opening, _) => {
            b"the numbers of programs, lines and ports, the cells of a journal, perhaps `uni` or `nni`, and then perhaps `paths`"
        }
        (ScriptForm::Loading, _) => b"one word, the octets of a program",
        (ScriptForm::Retiring, _) => b"the name of a program, as `p1`",
        (ScriptForm::Setting, false) => {
            b"a VPI, a VCI, the name of a program, and one to four contracts"
        }
        (ScriptForm::Setting, true) => {
            b"a VPI, `*`, the name of a program, and one to four contracts"
        }
        (ScriptForm::Reloading, false) => b"a VPI, a VCI and the name of a program",
        (ScriptForm::Reloading, true) => b"a VPI, `*` and the name of a program",
        (ScriptForm::OneConnection, false) => b"a VPI and a VCI",
        (ScriptForm::OneConnection, true) => b"a VPI and `*`",
        (ScriptForm::Arrival, _) => b"a moment, and one word with the octets of a cell",
    }
}

/// Appends the sentence about the words that a command takes.
#[tactic(auto, using(std::proofs::lemmas::List::append_assoc))]
fn add_takes(answers: &mut Vec<u8>, side: Side, name: &[u8], form: ScriptForm) -> Added
    ensures { OnOk result (answers.new.items ≡ answers.old.items ++ takes_sentence side name.now form) }
{
    add_quoted(answers, name)?;
    add_text(answers, b" takes ")?;
    add_text(answers, takes_text(form, side.has_paths()))
}

/// Returns whether a word would begin a remark as the first of a line.
fn begins_remark(word: &[u8]) -> bool
    ensures { result ≡ begins_remark word.now }
{
    match word {
        [] => false,
        [octet, ..] => *octet == b'#',
    }
}

/// Appends the sentence about a word in a slot, or after the last one.
#[tactic(auto, using(std::proofs::lemmas::List::append_assoc))]
fn add_slot(
    answers: &mut Vec<u8>,
    side: Side,
    name: &[u8],
    form: ScriptForm,
    slot: Option<ScriptSlot>,
    word: &[u8],
) -> Added
    ensures { OnOk result (answers.new.items ≡ answers.old.items ++ slot_sentence side name.now form slot word.now) }
{
    match slot {
        None => add_takes(answers, side, name, form),
        Some(slot) => {
            add_quoted(answers, word)?;
            add_slot_text(answers, side, slot, word)
        }
    }
}

/// Appends the sentence about the word that a command doesn't take, or about a line that ends too early.
fn add_operand(
    answers: &mut Vec<u8>,
    side: Side,
    name: &[u8],
    form: ScriptForm,
    slot: Option<ScriptSlot>,
    word: Option<&[u8]>,
) -> Added
    ensures { OnOk result (answers.new.items ≡ answers.old.items
        ++ operand_sentence side name.now form slot (option_map (λ word. word.now) word.entry)) }
{
    match word {
        None => add_takes(answers, side, name, form),
        Some(word) => {
            if begins_remark(word) {
                add_text(
                    answers,
                    b"a remark has a line of its own, which begins with `#`",
                )
            } else {
                add_slot(answers, side, name, form, slot, word)
            }
        }
    }
}

/// Appends the command that was perhaps meant, or this text.
fn add_meant(answers: &mut Vec<u8>, meant: Option<&[u8]>, text: &[u8]) -> Added
    ensures { OnOk result (answers.new.items ≡ answers.old.items ++ meant_or (option_map (λ meant. meant.now) meant.entry) text.now) }
{
    match meant {
        None => add_text(answers, text),
        Some(command) => add_perhaps(answers, Some(command)),
    }
}

/// Appends the command that a script was perhaps to begin with, or what it begins with.
fn add_meant_opening(answers: &mut Vec<u8>, word: &[u8]) -> Added
    ensures { OnOk result (answers.new.items ≡ answers.old.items ++ meant_opening word.now) }
{
    add_meant(
        answers,
        near_among(word, &OPENING),
        b"; the first line with words is `card PROGRAMS LINES PORTS JOURNAL`, perhaps with a side",
    )
}

/// Appends the command that was perhaps meant, or all commands.
fn add_meant_command(answers: &mut Vec<u8>, word: &[u8]) -> Added
    ensures { OnOk result (answers.new.items ≡ answers.old.items ++ meant_command word.now) }
{
    add_meant(
        answers,
        near_among(word, &COMMANDS),
        b"; the commands are cell, load, retire, setup, reload, release and cut",
    )
}

/// Returns what follows the word that begins the line of a setup with its tick, if this is that word.
fn tick_text(word: &[u8]) -> Option<&'static [u8]>
    ensures { option_map (λ text. text.now) result ≡ tick_text word.now }
{
    if word == b"tick".as_slice() {
        Some(b"; a setup of `upc-lab police` may begin with one line `tick TIME`, as `tick 1us`")
    } else {
        None
    }
}

/// Returns what follows a word that begins lines of a setup and no command of `upc run`, if this is one.
fn setup_word_text(word: &[u8]) -> Option<&'static [u8]>
    ensures { option_map (λ text. text.now) result ≡ setup_word_text word.now }
{
    if word == b"rules".as_slice() {
        return Some(
            b"; a setup of `upc-lab police` has lines `rules NAME`, with nothing after the name",
        );
    }
    if word == b"at".as_slice() {
        return Some(
            b"; a setup of `upc-lab police` has lines `at TIME COMMAND`, as `at 5ms retire p1`",
        );
    }
    tick_text(word)
}

/// Appends the line of a setup that a word begins, or what was perhaps meant by a word that opens no card.
#[tactic(auto, unfolding(crate::specs::WrongWords::unopened_text))]
fn add_unopened_text(answers: &mut Vec<u8>, word: &[u8]) -> Added
    ensures { OnOk result (answers.new.items ≡ answers.old.items ++ unopened_text word.now) }
{
    match tick_text(word) {
        Some(text) => add_text(answers, text),
        None => add_meant_opening(answers, word),
    }
}

/// Appends the line of a setup that a word begins, or what was perhaps meant by a word that is no command.
#[tactic(auto, unfolding(crate::specs::WrongWords::uncommanded_text))]
fn add_uncommanded_text(answers: &mut Vec<u8>, word: &[u8]) -> Added
    ensures { OnOk result (answers.new.items ≡ answers.old.items ++ uncommanded_text word.now) }
{
    match setup_word_text(word) {
        Some(text) => add_text(answers, text),
        None => add_meant_command(answers, word),
    }
}

/// Appends the sentence about the first word of a script, which opens no card.
fn add_unopened(answers: &mut Vec<u8>, word: &[u8]) -> Added
    ensures { OnOk result (answers.new.items ≡ answers.old.items ++ unopened_sentence word.now) }
{
    add_quoted(answers, word)?;
    add_text(answers, b" opens no card")?;
    add_unopened_text(answers, word)
}

/// Appends the sentence about a word that is no command of an open card.
fn add_uncommanded(answers: &mut Vec<u8>, word: &[u8]) -> Added
    ensures { OnOk result (answers.new.items ≡ answers.old.items ++ uncommanded_sentence word.now) }
{
    add_quoted(answers, word)?;
    add_text(answers, b" is no command")?;
    add_uncommanded_text(answers, word)
}

/// Appends the sentence about a word that names no command.
fn add_unknown(answers: &mut Vec<u8>, side: Option<Side>, word: &[u8]) -> Added
    ensures { OnOk result (answers.new.items ≡ answers.old.items ++ unknown_sentence side word.now) }
{
    match side {
        None => add_unopened(answers, word),
        Some(_) => {
            if word == b"card".as_slice() {
                add_text(answers, b"the card is open already; a script opens one")
            } else {
                add_uncommanded(answers, word)
            }
        }
    }
}

/// Returns the octets of a word of a line, if there is one.
fn octets_of(line: &[u8], word: Option<FoundWord>) -> Option<&[u8]>
    ensures { option_map (λ octets. octets.now) result ≡ option_map (word_octets line.now) word }
{
    match word {
        None => None,
        Some(word) => Some(word_octets(line, word)),
    }
}

/// Appends the sentence about the words after the name of a command.
fn add_words(
    answers: &mut Vec<u8>,
    side: Option<Side>,
    line: &[u8],
    name: &[u8],
    form: ScriptForm,
    words: &[FoundWord],
) -> Added
    ensures { OnOk result (answers.new.items ≡ answers.old.items ++ command_sentence side line.now name.now words.now (Some form)) }
{
    let slots = slots_after(form);
    let place = words_fitting(side_or_user(side), line, slots, words);
    let word = octets_of(line, word_at(words, place));
    let slot = slots.get(place).copied();
    add_operand(answers, side_or_user(side), name, form, slot, word)
}

/// Appends the sentence about a line that is no command.
pub(crate) fn add_wrong(
    answers: &mut Vec<u8>,
    side: Option<Side>,
    line: &[u8],
    words: &[FoundWord],
) -> Added
    ensures { OnOk result (answers.new.items ≡ answers.old.items ++ wrong_sentence side line.now words.now) }
{
    match words {
        [] => add_text(answers, b"the line has no words"),
        [first, rest @ ..] => {
            let name = word_octets(line, *first);
            match form_at(side, name) {
                None => add_unknown(answers, side, name),
                Some(form) => add_words(answers, side, line, name, form, rest),
            }
        }
    }
}

//! What is wrong in a line of a source, whatever the other lines are.

ghost use Rattle.std.specs.Prelude.{◌≡◌, ◌++◌, OnOk, option_map, slice_get};
ghost use Rattle.bpf_asm.specs.Numbers.{number_of_word};
ghost use Rattle.cmd_explain_script.specs.Meant.{perhaps_text};
ghost use Rattle.cmd_explain.specs.BadLines.{bad_line_sentence, first_bad_number, first_number, first_word_sentence, is_bad_number, no_mnemonic_sentence, no_number_sentence, octets_of, operands_sentence, wrong_operand, wrong_token};
ghost use Rattle.cmd_explain.specs.Forms.{known_mnemonics};
ghost use Rattle.cmd_explain_script.specs.FoundWords.{word_octets};
ghost use Rattle.cmd_explain_script.specs.Tables.{near_among};

use crate::forms::{Form, form_of, most_fitting, near, operands_text};
use crate::tokens::is_name;
use bpf_asm::number;
use cmd_explain_rules::digit;
use cmd_explain_script::{FoundWord, add_perhaps, add_quoted, word_octets};
use text_io::Added;
use text_words::add_text;

/// Returns the octets of a token, if there is one.
pub(crate) fn octets_of(text: &[u8], token: Option<FoundWord>) -> &[u8]
    ensures { result.now ≡ octets_of text.now token }
{
    match token {
        Some(token) => word_octets(text, token),
        None => &[],
    }
}

/// Returns whether octets begin with a digit and spell no number.
fn is_bad_number(octets: &[u8]) -> bool
    ensures { result ≡ is_bad_number octets.now }
{
    match octets {
        [] => false,
        [octet, ..] => digit(*octet) && number(octets).is_none(),
    }
}

/// Returns the first of these tokens that begins with a digit and spells no number.
pub(crate) fn first_bad_number(text: &[u8], tokens: &[FoundWord]) -> Option<FoundWord>
    ensures { result ≡ first_bad_number text.now tokens.now }
{
    let mut left = tokens;
    while let [token, rest @ ..] = left {
        if is_bad_number(word_octets(text, *token)) {
            return Some(*token);
        }
        left = rest;
    }
    None
}

/// Returns the first of these tokens that is a number.
pub(crate) fn first_number(text: &[u8], tokens: &[FoundWord]) -> Option<FoundWord>
    ensures { result ≡ first_number text.now tokens.now }
{
    let mut left = tokens;
    while let [token, rest @ ..] = left {
        if number(word_octets(text, *token)).is_some() {
            return Some(*token);
        }
        left = rest;
    }
    None
}

/// Appends the sentence about a word that is no number.
#[tactic(auto, using(std::proofs::lemmas::List::append_assoc))]
pub(crate) fn add_no_number(answers: &mut Vec<u8>, word: &[u8]) -> Added
    ensures { OnOk result (answers.new.items ≡ answers.old.items ++ no_number_sentence word.now) }
{
    add_quoted(answers, word)?;
    add_text(
        answers,
        b" is no number; a number is of decimal digits, or of hexadecimal digits after 0x, and at most 4294967295",
    )
}

/// Appends the mnemonic that was perhaps meant by a word.
fn add_meant(answers: &mut Vec<u8>, word: &[u8]) -> Added
    ensures { OnOk result (answers.new.items ≡ answers.old.items ++ perhaps_text (near_among word.now known_mnemonics)) }
{
    add_perhaps(answers, near(word))
}

/// Appends the sentence about a word that isn't a mnemonic.
#[tactic(auto, using(std::proofs::lemmas::List::append_assoc), unfolding(crate::specs::BadLines::no_mnemonic_sentence))]
fn add_no_mnemonic(answers: &mut Vec<u8>, word: &[u8]) -> Added
    ensures { OnOk result (answers.new.items ≡ answers.old.items ++ no_mnemonic_sentence word.now) }
{
    add_quoted(answers, word)?;
    if is_name(word) {
        add_text(answers, b" is no mnemonic")?;
        add_meant(answers, word)
    } else {
        add_text(
            answers,
            b" begins no instruction and no label; a comment begins with `;`",
        )
    }
}

/// Appends the sentence about the operands of a mnemonic.
#[tactic(auto, using(std::proofs::lemmas::List::append_assoc))]
fn add_operands(answers: &mut Vec<u8>, mnemonic: &[u8], form: Form) -> Added
    ensures { OnOk result (answers.new.items ≡ answers.old.items ++ operands_sentence mnemonic.now form) }
{
    add_quoted(answers, mnemonic)?;
    add_text(answers, b" takes ")?;
    add_text(answers, operands_text(form))
}

/// Appends the sentence about a word that begins an instruction, by what it takes.
fn add_first_word(answers: &mut Vec<u8>, word: &[u8], form: Option<Form>) -> Added
    ensures { OnOk result (answers.new.items ≡ answers.old.items ++ first_word_sentence word.now form) }
{
    match form {
        None => add_no_mnemonic(answers, word),
        Some(form) => add_operands(answers, word, form),
    }
}

/// Appends the sentence about a line outside the grammar, by the tokens after its label.
pub(crate) fn add_bad_line(answers: &mut Vec<u8>, text: &[u8], tokens: &[FoundWord]) -> Added
    ensures { OnOk result (answers.new.items ≡ answers.old.items ++ bad_line_sentence text.now tokens.now) }
{
    match tokens {
        [] => add_text(
            answers,
            b"a line has a label, an instruction, both or nothing",
        ),
        [first, ..] => {
            let word = word_octets(text, *first);
            add_first_word(answers, word, form_of(word))
        }
    }
}

/// Returns the token that is wrong in a line outside the grammar, if one is, by the tokens after its label.
pub(crate) fn wrong_token(text: &[u8], tokens: &[FoundWord]) -> Option<FoundWord>
    ensures { result ≡ wrong_token text.now tokens.now }
{
    match tokens {
        [] => None,
        [first, operands @ ..] => match form_of(word_octets(text, *first)) {
            None => Some(*first),
            Some(form) => token_at(operands, most_fitting(text, form, operands)),
        },
    }
}

/// Returns the token at this place, if there is one.
pub(crate) fn token_at(tokens: &[FoundWord], place: usize) -> Option<FoundWord>
    ensures { result ≡ slice_get tokens.now place }
{
    tokens.get(place).copied()
}

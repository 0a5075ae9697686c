//! The word that was perhaps meant by one that is unknown.

ghost use Rattle.std.specs.Prelude.{◌≡◌, ◌++◌, OnOk, map, option_map};
ghost use Rattle.cmd_explain_rules.specs.MeantWords.{begins_line, begins_unit, is_side, is_value, joins_tests, may_come, meant_text, near_text, near_word, unknown_word_sentence};
ghost use Rattle.cmd_explain_rules.specs.NearNames.{either_word};
ghost use Rattle.rules_text.specs.RuleTokens.{rule_words};
ghost use Rattle.rules_text.specs.SeenTokens.{rule_token_seen};

use crate::spots::{Place, Spot};
use crate::token_parts::{Part, part_of};
use cmd_explain_script::{add_perhaps, add_quoted, is_near};
use rules_text::{Token, WORDS};
use std::alloc::AllocError;
use text_words::add_text;

/// Returns whether a word begins a unit of a test.
fn begins_unit(part: Part) -> bool
    ensures { result ≡ begins_unit part }
{
    match part {
        Part::Test => true,
        Part::Field(_) => true,
        Part::Size(_) => true,
        Part::Not => true,
        _ => false,
    }
}

/// Returns whether a word begins a line.
fn begins_line(part: Part) -> bool
    ensures { result ≡ begins_line part }
{
    match part {
        Part::Otherwise => true,
        Part::Side => true,
        Part::Contract => true,
        Part::Define => true,
        _ => begins_unit(part),
    }
}

/// Returns whether a word joins tests.
fn joins_tests(part: Part) -> bool
    ensures { result ≡ joins_tests part }
{
    match part {
        Part::And => true,
        Part::Or => true,
        _ => false,
    }
}

/// Returns whether a word is a value.
fn is_value(part: Part) -> bool
    ensures { result ≡ is_value part }
{
    match part {
        Part::Refuse => true,
        _ => false,
    }
}

/// Returns whether a word is the name of a side.
fn is_side(part: Part) -> bool
    ensures { result ≡ is_side part }
{
    match part {
        Part::SideName => true,
        _ => false,
    }
}

/// Returns whether a word may come at a place.
fn may_come(place: Place, part: Part) -> bool
    ensures { result ≡ may_come place part }
{
    match place {
        Place::Start => begins_line(part),
        Place::Unit => begins_unit(part),
        Place::Body => begins_unit(part),
        Place::Operator => joins_tests(part),
        Place::Dots => joins_tests(part),
        Place::Comma => joins_tests(part),
        Place::Value => is_value(part),
        Place::Side => is_side(part),
        _ => false,
    }
}

/// Returns the first of these words that may come at a place and is near a word.
fn near_among<'a>(
    place: Place,
    word: &[u8],
    rows: &'a [(&'static [u8], Token)],
) -> Option<&'static [u8]>
    ensures { option_map (λ near. near.now) result ≡ near_word place word.now (map (λ row. (row.0.now, rule_token_seen row.1)) rows.entry.now) }
{
    let mut left = rows;
    while let [row, rest @ ..] = left {
        if may_come(place, part_of(row.1)) && is_near(word, row.0) {
            return Some(row.0);
        }
        left = rest;
    }
    None
}

/// Returns the first word of the language that may come at a place and is near a word.
fn near_word(place: Place, word: &[u8]) -> Option<&'static [u8]>
    ensures { option_map (λ near. near.now) result ≡ near_word place word.now rule_words }
{
    near_among(place, word, &WORDS)
}

/// Appends what is said of a word that is unknown: the word that was perhaps meant, or `other` if there is none.
#[tactic(auto, using(std::proofs::lemmas::List::append_assoc))]
fn add_meant(answers: &mut Vec<u8>, meant: Option<&[u8]>, other: &[u8]) -> Result<(), AllocError>
    ensures { OnOk result (answers.new.items ≡ answers.old.items ++ meant_text (option_map (λ near. near.now) meant.entry) other.now) }
{
    match meant {
        None => {
            add_text(answers, b"; ")?;
            add_text(answers, other)
        }
        Some(word) => add_perhaps(answers, Some(word)),
    }
}

/// Returns the first of two words, or the second if there is no first.
fn either_word<'a>(named: Option<&'a [u8]>, other: Option<&'static [u8]>) -> Option<&'a [u8]>
    ensures { option_map (λ word. word.now) result
        ≡ either_word (option_map (λ name. name.now) named.entry) (option_map (λ near. near.now) other.entry) }
{
    match named {
        None => other,
        Some(name) => Some(name),
    }
}

/// Appends the word that was perhaps meant, or what may come at a place. `named` is a name of the text that is near the word, if there is
/// one.
#[tactic(auto, unfolding(crate::specs::MeantWords::near_text))]
fn add_near(
    answers: &mut Vec<u8>,
    spot: Spot,
    word: &[u8],
    named: Option<&[u8]>,
) -> Result<(), AllocError>
    ensures { OnOk result (answers.new.items ≡ answers.old.items ++ near_text spot word.now (option_map (λ name. name.now) named.entry)) }
{
    add_meant(
        answers,
        either_word(named, near_word(spot.place, word)),
        spot.place.expected(spot.defines),
    )
}

/// Appends the sentence about a word that is unknown. `named` is a name of the text that is near the word, if there is one.
#[tactic(auto, using(std::proofs::lemmas::List::append_assoc))]
pub(crate) fn add_unknown(
    answers: &mut Vec<u8>,
    spot: Spot,
    word: &[u8],
    named: Option<&[u8]>,
) -> Result<(), AllocError>
    ensures { OnOk result (answers.new.items ≡ answers.old.items ++ unknown_word_sentence spot word.now (option_map (λ name. name.now) named.entry)) }
{
    add_quoted(answers, word)?;
    add_text(
        answers,
        b" is no word of rules, and no line before gives it as a name",
    )?;
    add_near(answers, spot, word, named)?;
    Ok(())
}

//! The name that a text gives and that was perhaps meant by a word that is unknown.

ghost use Rattle.std.specs.Prelude.{◌≡◌, option_map, IfOk};
ghost use Rattle.rules_text.specs.ContinuedLines.{line_begin, rule_lines};
ghost use Rattle.cmd_explain_rules.specs.WordsFound.{words_found};
ghost use Rattle.cmd_explain_rules.specs.NearNames.{near_given, near_name, takes_contract, takes_defined, takes_given};

use crate::rule_lines::{comes_before, text_begin};
use crate::rule_tokens::{RuleWord, rule_word_octets, words_found};
use crate::spots::{Place, takes_list, takes_test};
use crate::token_parts::Part;
use cmd_explain_script::is_near;
use rules_text::{TextPlace, next_rule_line, place_after};
use std::alloc::{AllocError, Global};

/// Returns whether a name that `define` gives may come at a place.
fn takes_defined(place: Place) -> bool
    ensures { result ≡ takes_defined place }
{
    takes_test(place) || takes_list(place)
}

/// Returns whether the name of a contract may come at a place.
fn takes_contract(place: Place) -> bool
    ensures { result ≡ takes_contract place }
{
    match place {
        Place::Value => true,
        _ => false,
    }
}

/// Returns whether the name that a line gives may come at a place, where the line begins with this token.
fn takes_given(place: Place, part: Part) -> bool
    ensures { result ≡ takes_given place part }
{
    match part {
        Part::Define => takes_defined(place),
        Part::Contract => takes_contract(place),
        _ => false,
    }
}

/// Returns the name that a line of these tokens gives, if it may come at a place and is near a word.
fn near_given<'a>(place: Place, word: &[u8], text: &'a [u8], words: &[RuleWord]) -> Option<&'a [u8]>
    ensures { option_map (λ name. name.now) result ≡ near_given place word.now text.entry.now words.now }
{
    match words {
        [first, second, ..] => {
            let name = rule_word_octets(text, *second);
            if takes_given(place, first.part) && is_near(word, name) {
                Some(name)
            } else {
                None
            }
        }
        _ => None,
    }
}

/// Returns the name that a line gives, if it may come at a place and is near a word.
fn near_in_line<'a>(
    alloc: Global,
    place: Place,
    word: &[u8],
    line: &'a [u8],
) -> Result<Option<&'a [u8]>, AllocError>
    ensures { IfOk result (λ near. option_map (λ name. name.now) near ≡ near_given place word.now line.entry.now (words_found line.entry.now)) }
{
    let words = words_found(alloc, line)?;
    Ok(near_given(place, word, line, &words))
}

/// Returns the first name that a text gives before a fault, that may come at a place, and that is near a word.
pub(crate) fn near_name<'a>(
    alloc: Global,
    place: Place,
    word: &[u8],
    fault: TextPlace,
    text: &'a [u8],
) -> Result<Option<&'a [u8]>, AllocError>
    ensures { IfOk result (λ near. option_map (λ name. name.now) near ≡ near_name place word.now fault (line_begin 1) (rule_lines text.entry.now)) }
{
    let mut left = text;
    let mut begin = text_begin();
    while let Some((line, rest)) = next_rule_line(left) {
        let end = place_after(begin, line);
        if comes_before(fault, end) {
            return Ok(None);
        }
        match near_in_line(alloc, place, word, line)? {
            Some(name) => return Ok(Some(name)),
            None => {}
        }
        begin = end;
        left = rest;
    }
    Ok(None)
}

//! The word that was perhaps meant by another.

ghost use Rattle.std.specs.Prelude.{◌≡◌, ◌++◌, ◌||◌, OnOk, option_map};
ghost use Rattle.std.specs.Str.{bytes_eq};
ghost use Rattle.cmd_explain_script.specs.Meant.{is_near, is_swapped, perhaps_text};

use crate::places::add_quoted;
use std::alloc::AllocError;
use text_words::add_text;

/// Returns whether the first two octets are exchanged, and the others are the same.
fn is_swapped(word: &[u8], other: &[u8]) -> bool
    ensures { result ≡ is_swapped word.now other.now }
{
    match word {
        [octet, next, rest @ ..] => match other {
            [first, after, more @ ..] => *octet == *after && (*next == *first && rest == more),
            _ => false,
        },
        _ => false,
    }
}

/// Returns whether two words that begin with different octets are near. `rest` and `more` are the words without these octets.
fn differs_once(word: &[u8], rest: &[u8], other: &[u8], more: &[u8]) -> bool
    ensures { result ≡ (bytes_eq rest.now more.now || (bytes_eq rest.now other.now || (bytes_eq word.now more.now || is_swapped word.now other.now))) }
{
    rest == more || (rest == other || (word == more || is_swapped(word, other)))
}

/// Returns whether two words are equal, or differ by one octet that is added, dropped or changed, or by two neighbours that are exchanged.
pub fn is_near(word: &[u8], other: &[u8]) -> bool
    ensures { result ≡ is_near word.now other.now }
{
    let mut left = word;
    let mut right = other;
    while let [octet, rest @ ..] = left {
        match right {
            [] => return rest.is_empty(),
            [equal, more @ ..] => {
                if octet != equal {
                    return differs_once(left, rest, right, more);
                }
                left = rest;
                right = more;
            }
        }
    }
    match right {
        [] => true,
        [_, more @ ..] => more.is_empty(),
    }
}

/// Appends the word that was perhaps meant.
///
/// # Errors
///
/// `AllocError` if an allocation failed.
#[tactic(auto, using(std::proofs::lemmas::List::append_assoc))]
pub fn add_perhaps(answers: &mut Vec<u8>, meant: Option<&[u8]>) -> Result<(), AllocError>
    ensures { OnOk result (answers.new.items ≡ answers.old.items ++ perhaps_text (option_map (λ meant. meant.now) meant.entry)) }
{
    match meant {
        None => Ok(()),
        Some(word) => {
            add_text(answers, b"; perhaps ")?;
            add_quoted(answers, word)?;
            add_text(answers, b" is meant")
        }
    }
}

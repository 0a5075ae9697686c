//! Hints about setups whose program names none of the contracts.

ghost use Rattle.std.specs.Prelude.{◌≡◌, ◌++◌, OnOk};
ghost use Rattle.std.specs.Option.{option_and_then};
ghost use Rattle.line_record.specs.History.{numbered};
ghost use Rattle.text_io.specs.Words.{words_of};
ghost use Rattle.cmd_explain_script.specs.SetupHints.{is_setup, numbers_in_words, program_hint, range_in_words, setup_hint, unnamed_hint, unnamed_sentence, word_hint, words_hint};

use crate::contract_numbers::{NamesNoContract, names_none_of};
use crate::found_words::{FoundWord, word_octets, words_of};
use crate::places::add_place;
use crate::wrong_words::word_at;
use std::alloc::Global;
use text_io::{Added, first_word};
use text_script::program;
use text_words::{add_number, add_text};

/// Appends the numbers of several contracts, in words.
#[tactic(auto, using(std::proofs::lemmas::List::append_assoc))]
fn add_range(answers: &mut Vec<u8>, count: usize) -> Added
    ensures { OnOk result (answers.new.items ≡ answers.old.items ++ range_in_words count) }
{
    add_text(answers, b"1 to ")?;
    add_number(answers, count as u64)?;
    add_text(answers, b", the numbers of the contracts")
}

/// Appends the numbers of one contract or several, in words.
fn add_numbers(answers: &mut Vec<u8>, count: usize) -> Added
    ensures { OnOk result (answers.new.items ≡ answers.old.items ++ numbers_in_words count) }
{
    if count == 1 {
        add_text(answers, b"1, the number of the contract")
    } else {
        add_range(answers, count)
    }
}

/// Appends the sentence about a program that names none of this many contracts.
#[tactic(auto, using(std::proofs::lemmas::List::append_assoc))]
fn add_unnamed_sentence(answers: &mut Vec<u8>, count: usize) -> Added
    ensures { OnOk result (answers.new.items ≡ answers.old.items ++ unnamed_sentence count) }
{
    add_text(answers, b"this program never returns ")?;
    add_numbers(answers, count)?;
    add_text(answers, b", so each cell of the connection is refused")
}

/// Appends the hint about the name of such a program, in this line and column.
#[tactic(auto, using(std::proofs::lemmas::List::append_assoc))]
fn add_unnamed(answers: &mut Vec<u8>, number: usize, column: usize, count: usize) -> Added
    ensures { OnOk result (answers.new.items ≡ answers.old.items ++ unnamed_hint number column count) }
{
    add_text(answers, b"hint ")?;
    add_place(answers, number, Some(column))?;
    add_unnamed_sentence(answers, count)?;
    answers.push(b'\n')?;
    Ok(())
}

/// Appends the hint about the name of a program, if there is one and it names none of this many contracts.
fn add_program_hint(
    answers: &mut Vec<u8>,
    number: usize,
    column: usize,
    count: usize,
    found: Option<NamesNoContract>,
) -> Added
    ensures { OnOk result (answers.new.items ≡ answers.old.items ++ program_hint number column count found) }
{
    match found {
        None => Ok(()),
        Some(program) => {
            if names_none_of(program, count) {
                add_unnamed(answers, number, column, count)
            } else {
                Ok(())
            }
        }
    }
}

/// Returns the program of this number, counted from 1.
fn program_numbered(programs: &[NamesNoContract], number: Option<u64>) -> Option<NamesNoContract>
    ensures { result ≡ option_and_then (numbered programs.now) number }
{
    match number {
        None => None,
        Some(number) => {
            if number == 0 {
                None
            } else {
                programs.get(number as usize - 1).copied()
            }
        }
    }
}

/// Appends the hint about a word that names a program among these.
fn add_word_hint(
    answers: &mut Vec<u8>,
    programs: &[NamesNoContract],
    number: usize,
    line: &[u8],
    count: usize,
    word: Option<FoundWord>,
) -> Added
    ensures { OnOk result (answers.new.items ≡ answers.old.items ++ word_hint programs.now number line.now count word) }
{
    match word {
        None => Ok(()),
        Some(word) => {
            let found = program_numbered(programs, program(word_octets(line, word)));
            add_program_hint(answers, number, word.column, count, found)
        }
    }
}

/// Appends the hint about a setup with these words.
fn add_words_hint(
    answers: &mut Vec<u8>,
    programs: &[NamesNoContract],
    number: usize,
    line: &[u8],
    words: &[FoundWord],
) -> Added
    ensures { OnOk result (answers.new.items ≡ answers.old.items ++ words_hint programs.now number line.now words.now) }
{
    let count = words.len().saturating_sub(4);
    add_word_hint(answers, programs, number, line, count, word_at(words, 3))
}

/// Returns whether the words of a line are those of a setup.
fn is_setup(line: &[u8]) -> bool
    ensures { result ≡ is_setup (words_of line.now) }
{
    match first_word(line) {
        None => false,
        Some((name, _)) => name == b"setup".as_slice(),
    }
}

/// Appends the hint about a line of this number, or nothing.
pub(crate) fn add_setup_hint(
    alloc: Global,
    answers: &mut Vec<u8>,
    programs: &[NamesNoContract],
    number: usize,
    line: &[u8],
) -> Added
    ensures { OnOk result (answers.new.items ≡ answers.old.items ++ setup_hint programs.now number line.now) }
{
    if is_setup(line) {
        let words = words_of(alloc, line)?;
        add_words_hint(answers, programs, number, line, &words)
    } else {
        Ok(())
    }
}

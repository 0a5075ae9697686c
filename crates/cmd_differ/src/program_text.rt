//! The program in a text.

ghost use Rattle.std.specs.Prelude.{◌≡◌, ◌∷◌, [], false, IfOk, MatchOption, option_map};
ghost use Rattle.bpf_asm.specs.SourceLines.{source_lines};
ghost use Rattle.text_io.specs.Words.{is_silent, words_of};
ghost use Rattle.cmd_programs.specs.Finding.{Finds};
ghost use Rattle.cmd_differ.specs.ProgramText.{ReadsProgramText, ReadsProgramWord, spoken_lines};
ghost use Rattle.cmd_differ.specs.inner.SpokenLines.{IsOnlyWord};

use bpf_asm::next_line;
use bpf_code::Instr;
use cmd_programs::{add_no_program, read_code};
use std::alloc::{AllocError, Global};
use text_io::{LineWords, line_words};
use text_words::{add_bad_hex, add_bad_line, octets_of_word};

/// Whether a line has no words or is a comment.
fn is_silent(line: &[u8]) -> bool
    ensures { result ≡ is_silent (words_of line.now) }
{
    match line_words(line) {
        LineWords::Silent => true,
        LineWords::One(_) | LineWords::Several => false,
    }
}

/// The first line with words, and the rest after it.
fn spoken_line(text: &[u8]) -> Option<(&[u8], &[u8])>
    ensures lines { MatchOption result (spoken_lines (source_lines text.now) ≡ [])
        (λ found. spoken_lines (source_lines text.now) ≡ words_of found.0.now ∷ spoken_lines (source_lines found.1.now)) }
    ensures spoken { MatchOption result Unit (λ found. is_silent (words_of found.0.now) ≡ false) }
{
    let mut left = text;
    while let Some((line, rest)) = next_line(left) {
        if !is_silent(line) {
            return Some((line, rest));
        }
        left = rest;
    }
    None
}

/// The word of a text that has one line with words, and in it one word. `Silent` if no line has words, `Several` if there are more words.
fn only_word(text: &[u8]) -> LineWords<'_>
    ensures { IsOnlyWord (spoken_lines (source_lines text.now)) result }
{
    let Some((line, rest)) = spoken_line(text) else {
        return LineWords::Silent;
    };
    match spoken_line(rest) {
        Some(_) => LineWords::Several,
        None => line_words(line),
    }
}

/// The program of a word. If the word has a fault, appends the fault and returns none.
fn program_of_word(
    alloc: Global,
    word: &[u8],
    answers: &mut Vec<u8>,
) -> Result<Option<Vec<Instr>>, AllocError>
    ensures { IfOk result (λ found. Finds (ReadsProgramWord word.now) (option_map (λ code. code.items) found) answers.old.items answers.new.items) }
{
    match octets_of_word(alloc, word)? {
        Some(octets) => read_code(alloc, &octets, answers),
        None => {
            add_bad_hex(answers)?;
            Ok(None)
        }
    }
}

/// The program in a text. If the text has a fault, appends the fault and returns none.
pub(crate) fn program_in(
    alloc: Global,
    text: &[u8],
    answers: &mut Vec<u8>,
) -> Result<Option<Vec<Instr>>, AllocError>
    ensures { IfOk result (λ found. Finds (ReadsProgramText text.now) (option_map (λ code. code.items) found) answers.old.items answers.new.items) }
{
    match only_word(text) {
        LineWords::Silent => {
            add_no_program(answers)?;
            Ok(None)
        }
        LineWords::One(word) => program_of_word(alloc, word, answers),
        LineWords::Several => {
            add_bad_line(answers)?;
            Ok(None)
        }
    }
}

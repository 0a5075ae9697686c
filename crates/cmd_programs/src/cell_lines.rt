//! Subcommands that answer cells by a program.

ghost use Rattle.std.specs.Prelude.{◌∷◌, [], OnOk};
ghost use Rattle.text_io.specs.Devices.{Adds};
ghost use Rattle.cmd_programs.specs.CellLines.{CellLine};
ghost use Rattle.cmd_programs.specs.inner.CellLaws.{AnswersCellLine};

use crate::after_program::ProgramUser;
use crate::answer_texts::add_accepted;
use bpf_code::Instr;
use std::alloc::{AllocError, Global};
use text_io::{Added, LineWords, Turn, line_words};
use text_words::{
    CellWord, add_bad_hex, add_bad_line, add_wrong_length, cell_of_digits, cell_of_word,
};
use upc_cell::Cell;

/// What a subcommand does with a program and cells.
///
/// `prints` relates a code and a cell to the texts that answer the cell, and `code` says which program an implementor holds.
pub trait CellUser: Drop {
    ghost use Rattle.std.specs.Prelude.{List, ℕ, ◌≡◌, IfOk, OnOk};
    ghost use Rattle.bpf_code.specs.declared.instr.Instr.{Instr as TheInstr};
    ghost use Rattle.bpf_verify.specs.Accepted.{IsAccepted};
    ghost use Rattle.cmd_programs.specs.CellLines.{EachCellHasText};
    ghost use Rattle.text_io.specs.Devices.{Adds};

    ghost prints: { List TheInstr → List ℕ → List ℕ → Type 0 };

    ghost code: { Self → List TheInstr };

    /// Takes an accepted code.
    fn take_code(alloc: Global, accepted: Vec<Instr>) -> Result<Self, AllocError>
        requires { IsAccepted accepted.items }
        ensures { IfOk result (λ user. code user ≡ accepted.items) };

    /// Appends the answer to a cell.
    fn answer_cell(&self, cell: &Cell, answers: &mut Vec<u8>) -> Added
        ensures { OnOk result (Adds (prints (code self.now) cell.now) answers.old.items answers.new.items) };

    ghost is_total: { (accepted : List TheInstr) → IsAccepted accepted → EachCellHasText (prints accepted) };
}

/// Answers a cell line of one word.
fn answer_word<C: CellUser>(alloc: Global, user: &C, word: &[u8], answers: &mut Vec<u8>) -> Added
    ensures { OnOk result (Adds (CellLine (C.prints (C.code user.now)) (word.now ∷ [])) answers.old.items answers.new.items) }
{
    match cell_of_word(alloc, word)? {
        CellWord::OfCell(cell) => user.answer_cell(&cell, answers),
        CellWord::OfOthers(count) => add_wrong_length(answers, count),
        CellWord::NoDigits => add_bad_hex(answers),
    }
}

/// Answers a line after the program line, word by word.
#[inline(never)]
fn answer_words<C: CellUser>(alloc: Global, user: &C, line: &[u8], answers: &mut Vec<u8>) -> Added
    ensures { OnOk result (Adds (AnswersCellLine C.prints (C.code user.now) line.now) answers.old.items answers.new.items) }
{
    match line_words(line) {
        LineWords::Silent => Ok(()),
        LineWords::One(word) => answer_word(alloc, user, word, answers),
        LineWords::Several => add_bad_line(answers),
    }
}

/// Answers a line after the program line. A line of digits alone is one word, so words aren't searched for.
#[inline(always)]
fn answer_digits<C: CellUser>(alloc: Global, user: &C, line: &[u8], answers: &mut Vec<u8>) -> Added
    ensures { OnOk result (Adds (AnswersCellLine C.prints (C.code user.now) line.now) answers.old.items answers.new.items) }
{
    match cell_of_digits(line) {
        Some(cell) => user.answer_cell(&cell, answers),
        None => answer_words(alloc, user, line, answers),
    }
}

/// The [`ProgramUser`] whose later lines are cells, which `user` answers.
#[derive(Drop)]
pub struct OnCells<C> {
    user: C,
}

impl<C: CellUser> ProgramUser for OnCells<C> {
    ghost use Rattle.cmd_programs.specs.CellLines.{cell_texts};
    ghost use Rattle.cmd_programs.specs.inner.CellLaws.{cells-total};

    ghost texts = { cell_texts C.prints };

    ghost code = { λ cells. C.code cells.user };

    #[inline(always)]
    fn take(
        alloc: Global,
        accepted: Vec<Instr>,
        answers: &mut Vec<u8>,
    ) -> Result<Self, AllocError> {
        add_accepted(answers, accepted.len())?;
        Ok(OnCells {
            user: C::take_code(alloc, accepted)?,
        })
    }

    #[inline(always)]
    fn answer_line(
        &self,
        alloc: Global,
        line: &[u8],
        answers: &mut Vec<u8>,
    ) -> Result<Turn, AllocError> {
        answer_digits(alloc, &self.user, line, answers)?;
        Ok(Turn::GoesOn)
    }

    ghost is_total = { cells-total C.prints C.is_total };
}

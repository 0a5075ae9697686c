//! The cell lines of a script.

ghost use Rattle.std.specs.Prelude.{IfOk};
ghost use Rattle.text_io.specs.Words.{words_of};
ghost use Rattle.text_script.specs.ScriptCommands.{command_of};
ghost use Rattle.text_script.specs.CellLine.{IsCellLine};

use crate::commands::{Command, read_command};
use crate::common_cell_line::read_common_cell;
use std::alloc::{AllocError, Global};
use text_words::{CellWord, cell_of_word};
use upc_cell::{Cell, Side};

/// The reason why a cell line has no cell.
#[derive(Clone, Copy)]
pub enum CellLineFault {
    /// It has a word of the wrong form, or too few words or too many.
    BadLine,
    /// Its cell isn't hexadecimal.
    BadHex,
    /// Its cell has this number of octets, which isn't 52.
    WrongLength(usize),
}

/// The content of a cell line.
#[derive(Clone, Copy)]
pub enum CellLine {
    /// A cell, at this moment in ticks.
    Comes(u64, Cell),
    /// No cell.
    IsFaulty(CellLineFault),
}

/// Reads a cell line word by word.
#[inline(never)]
pub fn read_by_words(alloc: Global, side: Side, line: &[u8]) -> Result<CellLine, AllocError>
    ensures { IfOk result (IsCellLine (command_of side (words_of line.now))) }
{
    let Some(Command::Cell(moment, word)) = read_command(side, line) else {
        return Ok(CellLine::IsFaulty(CellLineFault::BadLine));
    };
    match cell_of_word(alloc, word)? {
        CellWord::OfCell(cell) => Ok(CellLine::Comes(moment, cell)),
        CellWord::OfOthers(count) => Ok(CellLine::IsFaulty(CellLineFault::WrongLength(count))),
        CellWord::NoDigits => Ok(CellLine::IsFaulty(CellLineFault::BadHex)),
    }
}

/// Reads a line whose first word is `cell`. The common form is read at once.
#[inline(always)]
pub fn read_cell_line(alloc: Global, side: Side, line: &[u8]) -> Result<CellLine, AllocError>
    ensures { IfOk result (IsCellLine (command_of side (words_of line.now))) }
{
    match read_common_cell(line) {
        Some(arrival) => Ok(CellLine::Comes(arrival.moment, arrival.cell)),
        None => read_by_words(alloc, side, line),
    }
}

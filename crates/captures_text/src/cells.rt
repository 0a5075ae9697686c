//! The cells of a capture as lines of a script: `upc-lab cells`.

ghost use Rattle.std.specs.Prelude.{◌≡◌, ◌++◌, OnOk};
ghost use Rattle.captures_text.specs.CellsText.{IsCellsText, cell_line, cells_start, captured_line, record_comment};
ghost use Rattle.text_io.specs.Serving.{IsServed};

use crate::capture::follow_cells;
use crate::captured_cell::CapturedCell;
use crate::follower::{CellFollower, Followed};
use crate::reading_summary::ReadingSummary;
use crate::run_lines::add_closing;
use captures::{Fault, Link, Tick, TimeSource};
use std::alloc::Global;
use std::thread::Threads;
use text_io::{Added, Ending, Input, Output, Turn};
use text_words::{add_cell_octets, add_number, add_text};

/// A run of `cells`.
#[derive(Clone, Copy, Drop)]
pub(crate) struct Cells {
    /// Whether a comment with the number of its record comes before each cell.
    pub numbered: bool,
}

/// Appends the line of a cell.
#[tactic(auto, using(std::proofs::lemmas::List::append_assoc))]
fn add_cell(answers: &mut Vec<u8>, captured: &CapturedCell) -> Added
    ensures { OnOk result (answers.new.items ≡ answers.old.items ++ cell_line captured.now.moment captured.now.cell) }
{
    add_text(answers, b"cell ")?;
    add_number(answers, captured.moment)?;
    add_text(answers, b" ")?;
    add_cell_octets(answers, &captured.cell)?;
    answers.push(b'\n')?;
    Ok(())
}

/// Appends the comment with the number of a record.
#[tactic(auto, using(std::proofs::lemmas::List::append_assoc))]
fn add_record_comment(answers: &mut Vec<u8>, number: u64) -> Added
    ensures { OnOk result (answers.new.items ≡ answers.old.items ++ record_comment number) }
{
    add_text(answers, b"# record ")?;
    add_number(answers, number)?;
    answers.push(b'\n')?;
    Ok(())
}

/// Appends the line of a cell that counts, after the comment with the number of its record if `numbered`.
#[tactic(auto, using(std::proofs::lemmas::List::append_assoc))]
fn add_captured(answers: &mut Vec<u8>, numbered: bool, captured: &CapturedCell) -> Added
    ensures { OnOk result (answers.new.items ≡ answers.old.items ++ captured_line numbered captured.now) }
{
    if numbered {
        add_record_comment(answers, captured.number)?;
    }
    add_cell(answers, captured)
}

impl CellFollower for Cells {
    ghost use Rattle.captures_text.specs.CellsText.{CellsWorld, cells_closes, cells_rules, cells_steps};
    ghost use Rattle.captures_text.specs.inner.FixedRules.{fixed_total};

    ghost World = { CellsWorld };

    ghost shows = { λ cells world. world.numbered ≡ cells.numbered };

    ghost rules = { cells_rules };

    fn follow_cell(&mut self, captured: &CapturedCell, answers: &mut Vec<u8>) -> Followed {
        add_captured(answers, self.numbered, captured)?;
        Ok(Turn::GoesOn)
    }

    fn close(&self, summary: &ReadingSummary, end: Option<Fault>, answers: &mut Vec<u8>) -> Added {
        add_closing(answers, summary, end)
    }

    ghost is_total = { fixed_total cells_steps cells_closes };
}

/// Answers a capture by its cells, each as a line of a script for `upc run` or `upc ports`. Moments are ticks since the
/// first cell, by the times of records or of their packets. With `numbered` a comment with the number of its record
/// comes before each. If no link is asked for, a cell of a second link ends the run. Comments say how many records were
/// passed over and why.
///
/// With `threads` above 1, records are read on one thread while the cells of earlier ones are written on another, as in [`follow_cells`]. The
/// output is the same.
///
/// # Errors
///
/// See [`text_io::RunFault`].
pub fn cells_of_capture<R: Threads, I: Input + Send, O: Output>(
    rt: &R,
    threads: usize,
    alloc: Global,
    tick: Tick,
    link: Option<Link>,
    timing: TimeSource,
    numbered: bool,
    input: &mut I,
    output: &mut O,
) -> Ending
    ensures { IsServed (IsCellsText tick.nanoseconds link timing numbered) I.Input input.old input.new O.Output output.old output.new result }
{
    let mut cells = Cells { numbered };
    follow_cells(
        rt, threads, alloc, tick, link, timing, input, output, &mut cells,
    )
}

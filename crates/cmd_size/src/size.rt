//! `upc-lab size`: the buckets of contracts.

ghost use Rattle.std.specs.Prelude.{◌≡◌, ◌++◌, OnOk};
ghost use Rattle.text_io.specs.Serving.{IsServed};
ghost use Rattle.text_io.specs.Words.{words_of};
ghost use Rattle.cmd_size.specs.SizeText.{IsSizesText, figures_text, size_answer};

use crate::fault::SizeFault;
use crate::figures::Figures;
use crate::size_text::{add_size_fault, add_sizes};
use crate::size_words::figures;
use crate::sizing::sized;
use std::alloc::{AllocError, Global};
use text_io::{Added, Answered, Done, Ending, Input, Machine, Output, Turn, answer_lines};
use text_script::word_and_rest;
use text_words::add_too_long;

/// Answers a contract, or a line that isn't one.
fn answer_figures(answers: &mut Vec<u8>, found: Result<Figures, SizeFault>) -> Added
    ensures { OnOk result (answers.new.items ≡ answers.old.items ++ figures_text found) }
{
    let figures = match found {
        Ok(figures) => figures,
        Err(fault) => return add_size_fault(answers, fault),
    };
    match sized(figures) {
        Ok(sizes) => add_sizes(answers, figures, sizes),
        Err(fault) => add_size_fault(answers, fault),
    }
}

/// Answers a line.
fn answer_line(answers: &mut Vec<u8>, line: &[u8]) -> Added
    ensures { OnOk result (answers.new.items ≡ answers.old.items ++ size_answer (words_of line.now)) }
{
    match word_and_rest(line) {
        Some((name, rest)) => answer_figures(answers, figures(name, rest)),
        None => Ok(()),
    }
}

/// The subcommand as a machine. No line depends on another, so it stores nothing.
#[derive(Drop)]
struct Sizing;

impl Machine for Sizing {
    ghost use Rattle.std.specs.Prelude.{◌≡◌};
    ghost use Rattle.cmd_size.specs.SizeText.{SizeWorld, size_rules};
    ghost use Rattle.cmd_size.specs.inner.SizeTotal.{size-total};

    ghost World = { SizeWorld };

    ghost shows = { λ sizing world. world ≡ tt };

    ghost rules = { size_rules };

    fn answer(&mut self, line: &[u8], answers: &mut Vec<u8>) -> Result<Turn, AllocError> {
        answer_line(answers, line)?;
        Ok(Turn::GoesOn)
    }

    fn close(&self, _answers: &mut Vec<u8>) -> Answered {
        Ok(Done::Whole)
    }

    fn refuse(&self, answers: &mut Vec<u8>) -> Added {
        add_too_long(answers)
    }

    ghost is_total = { size-total };
}

/// Answers the lines of an input. Each line is a contract, as it is on paper, with the tick of its policer. Its answer is the
/// contract as `setup` of `upc run` takes it, the rates that its buckets police, and a shorter tick if one of them is coarse.
///
/// # Errors
///
/// See [`text_io::RunFault`].
pub fn size_contracts<I: Input, O: Output>(alloc: Global, input: &mut I, output: &mut O) -> Ending
    ensures { IsServed IsSizesText I.Input input.old input.new O.Output output.old output.new result }
{
    answer_lines(alloc, input, output, &mut Sizing)
}

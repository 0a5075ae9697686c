//! The machine of `upc run`: it opens a card at the first line with words, and passes the later lines on to this card.

ghost use Rattle.std.specs.Prelude.{IfOk};
ghost use Rattle.text_io.specs.Serving.{IsServed};
ghost use Rattle.text_io.specs.Words.{words_of};
ghost use Rattle.cmd_run.specs.RunText.{IsRunText};
ghost use Rattle.cmd_run.specs.inner.Policing.{OpensAs};

use crate::script_card::ScriptCard;
use std::alloc::{AllocError, Global};
use text_card::{add_no_card, add_shape_fault, read_card};
use text_io::{
    Added, Answered, Done, Ending, Input, LineWords, Machine, Output, Turn, answer_lines,
    line_words,
};
use text_script::add_ready;
use text_words::add_too_long;
use upc_cell::Side;

/// Opens the card of the first line with words. If the line opens no card, returns None and adds the line's fault to
/// the answers.
fn open(alloc: Global, line: &[u8], answers: &mut Vec<u8>) -> Result<Option<ScriptCard>, AllocError>
    ensures { IfOk result (λ card. OpensAs (words_of line.now) card answers.old.items answers.new.items) }
{
    let Some(shape) = read_card(line) else {
        add_no_card(answers)?;
        return Ok(None);
    };
    match ScriptCard::new(alloc, shape) {
        Ok(card) => {
            add_ready(answers)?;
            Ok(Some(card))
        }
        Err(fault) => {
            add_shape_fault(answers, fault)?;
            Ok(None)
        }
    }
}

/// The machine of `upc run`. It has no card until the line `card ..` has opened one.
#[derive(Drop)]
pub struct Policing {
    alloc: Global,
    card: Option<ScriptCard>,
}

impl Policing {
    ghost use Rattle.std.specs.Prelude.{◌≡◌, None, IfOk, option_map};
    ghost use Rattle.text_io.specs.Answering.{Answers};
    ghost use Rattle.cmd_run.specs.RunSide.{run_side};
    ghost use Rattle.cmd_run.specs.RunText.{RunWorld, run_rules};
    ghost use Rattle.cmd_run.specs.ShownCard.{ShowsRun};

    /// Makes the machine of a run that has no card yet.
    // no edit: without a shape there is no card to put in
    pub fn new(alloc: Global) -> Policing
        ensures { ⟦<Policing as Machine>⟧.shows result None }
    {
        Policing { alloc, card: None }
    }

    /// Returns the side of the card's cells, if there is a card.
    pub fn side(&self) -> Option<Side>
        ensures { (world : RunWorld) → ⟦<Policing as Machine>⟧.shows self.now world → result ≡ run_side world }
    {
        match &self.card {
            Some(card) => Some(card.side()),
            None => None,
        }
    }

    /// Lends the card, if there is one.
    pub fn card(&self) -> Option<&ScriptCard>
        ensures { (world : RunWorld) → ⟦<Policing as Machine>⟧.shows self.now world
            → ShowsRun (option_map (λ card. card.now) result) world }
    {
        match &self.card {
            Some(card) => Some(card),
            None => None,
        }
    }

    /// Returns the card, if there is one.
    pub fn into_card(self) -> Option<ScriptCard>
        ensures { (world : RunWorld) → ⟦<Policing as Machine>⟧.shows self world → ShowsRun result world }
    {
        let Policing { card, .. } = self;
        card
    }

    /// Answers a line while there is no card. Not inlined, so that the answers to later lines don't need the stack space
    /// for making a card.
    #[inline(never)]
    fn answer_first(&mut self, line: &[u8], answers: &mut Vec<u8>) -> Result<Turn, AllocError>
        requires { self.old.card ≡ None }
        ensures { IfOk result (λ turn. Answers run_rules (ShowsRun self.old.card) line.now turn
            (ShowsRun self.new.card) answers.old.items answers.new.items) }
    {
        match line_words(line) {
            LineWords::Silent => return Ok(Turn::GoesOn),
            LineWords::One(_) | LineWords::Several => {}
        }
        self.card = open(self.alloc, line, answers)?;
        match self.card {
            Some(_) => Ok(Turn::GoesOn),
            None => Ok(Turn::Ends),
        }
    }
}

impl Machine for Policing {
    ghost use Rattle.cmd_run.specs.RunText.{RunWorld, run_rules};
    ghost use Rattle.cmd_run.specs.ShownCard.{ShowsRun};
    ghost use Rattle.cmd_run.specs.inner.RunLaws.{run-total};

    ghost World = { RunWorld };

    ghost shows = { λ policing world. ShowsRun policing.card world };

    ghost rules = { run_rules };

    #[inline(always)]
    fn answer(&mut self, line: &[u8], answers: &mut Vec<u8>) -> Result<Turn, AllocError> {
        match &mut self.card {
            Some(card) => {
                card.answer(self.alloc, line, answers)?;
                Ok(Turn::GoesOn)
            }
            None => self.answer_first(line, answers),
        }
    }

    fn close(&self, answers: &mut Vec<u8>) -> Answered {
        match &self.card {
            None => {
                add_no_card(answers)?;
                Ok(Done::Ended)
            }
            Some(_) => Ok(Done::Whole),
        }
    }

    fn refuse(&self, answers: &mut Vec<u8>) -> Added {
        add_too_long(answers)
    }

    ghost is_total = { run-total };
}

/// Answers the lines of a script. The first line with words opens a card. Each later line with words is a command for the
/// card's desk or a cell, and is answered by the card's reply or by a fault line.
///
/// # Errors
///
/// See [`text_io::RunFault`].
pub fn run_script<I: Input, O: Output>(alloc: Global, input: &mut I, output: &mut O) -> Ending
    ensures { IsServed IsRunText I.Input input.old input.new O.Output output.old output.new result }
{
    let mut policing = Policing::new(alloc);
    answer_lines(alloc, input, output, &mut policing)
}

//! Programs that answer lines.

ghost use Rattle.std.specs.Prelude.{◌≡◌, ◌++◌, IfOk, OnOk};
ghost use Rattle.text_io.specs.Printing.{Rules, IsTotal};
ghost use Rattle.text_io.specs.Answering.{Answers, AnswersEnd};

use crate::ending::{Added, Answered};
use std::alloc::AllocError;

/// Whether the run continues after a line, or after a cell of a capture.
#[derive(Clone, Copy)]
pub enum Turn {
    /// The next line is answered too.
    GoesOn,
    /// The line ends the run.
    Ends,
}

/// A part of a program that gets one line after another and answers each.
///
/// Its rules say which answers are allowed, as steps from world to world. A world is the state that the rules are about,
/// such as the whole history of a card. A machine may store less. What it stores may then stand for several worlds, which
/// it `shows`, and its answer must be allowed from each of them.
pub trait Machine {
    ghost World: { Type 0 };

    ghost shows: { Self → World → Type 0 };

    ghost rules: { Rules World };

    /// Answers a line: appends to `answers`.
    fn answer(&mut self, line: &[u8], answers: &mut Vec<u8>) -> Result<Turn, AllocError>
        ensures { IfOk result (λ turn.
            Answers rules (shows self.old) line.now turn (shows self.new) answers.old.items answers.new.items) };

    /// Answers the end of the input: appends to `answers`.
    fn close(&self, answers: &mut Vec<u8>) -> Answered
        ensures { IfOk result (λ done.
            AnswersEnd rules (shows self.now) done answers.old.items answers.new.items) };

    /// Answers a line over the limits: appends to `answers`.
    fn refuse(&self, answers: &mut Vec<u8>) -> Added
        ensures { OnOk result (answers.new.items ≡ answers.old.items ++ rules.too_long) };

    ghost is_total: { IsTotal rules };
}

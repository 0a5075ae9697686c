//! Subcommands for one program: the first line with words is the program.

ghost use Rattle.std.specs.Prelude.{◌≡◌, ◌∷◌, [], Some, None, IfOk, option_map};
ghost use Rattle.text_io.specs.Answering.{Answers};
ghost use Rattle.text_io.specs.Devices.{Adds};
ghost use Rattle.text_io.specs.Serving.{IsServed};
ghost use Rattle.cmd_programs.specs.AfterProgram.{IsProgramText, ProgramLine, program_rules};

use crate::answer_texts::add_no_program;
use crate::program_reading::read_code;
use bpf_code::Instr;
use std::alloc::{AllocError, Global};
use text_io::{
    Added, Answered, Done, Ending, Input, LineWords, Machine, Output, Turn, answer_lines,
    line_words,
};
use text_words::{add_bad_hex, add_bad_line, add_too_long, octets_of_word};

/// What a subcommand does with a program.
///
/// `texts` says which answers are allowed, and `code` which program an implementor holds.
pub trait ProgramUser: Drop {
    ghost use Rattle.std.specs.Prelude.{List, ◌≡◌, IfOk};
    ghost use Rattle.bpf_code.specs.declared.instr.Instr.{Instr as TheInstr};
    ghost use Rattle.bpf_verify.specs.Accepted.{IsAccepted};
    ghost use Rattle.cmd_programs.specs.AfterProgram.{AnswersAlways, LaterLine, ProgramTexts};
    ghost use Rattle.text_io.specs.Devices.{Adds};

    ghost texts: { ProgramTexts };

    ghost code: { Self → List TheInstr };

    /// Takes an accepted code and appends the answer to it.
    fn take(alloc: Global, accepted: Vec<Instr>, answers: &mut Vec<u8>) -> Result<Self, AllocError>
        requires { IsAccepted accepted.items }
        ensures kept { IfOk result (λ user. code user ≡ accepted.items) }
        ensures answer { IfOk result (λ user. Adds (texts.first accepted.items) answers.old.items answers.new.items) };

    /// Appends the answer to a line after the program line.
    fn answer_line(
        &self,
        alloc: Global,
        line: &[u8],
        answers: &mut Vec<u8>,
    ) -> Result<Turn, AllocError>
        ensures { IfOk result (λ turn.
            Adds (λ text. LaterLine texts (code self.now) line.now text turn) answers.old.items answers.new.items) };

    ghost is_total: { AnswersAlways texts };
}

/// Reads a program line of one word and answers it. Returns None if the line has an error.
#[inline(always)]
fn take_word<U: ProgramUser>(
    alloc: Global,
    word: &[u8],
    answers: &mut Vec<u8>,
) -> Result<Option<U>, AllocError>
    ensures { IfOk result (λ user.
        Adds (λ here. ProgramLine U.texts (word.now ∷ []) here (option_map (λ made. Some (U.code made)) user))
        answers.old.items answers.new.items) }
{
    let Some(octets) = octets_of_word(alloc, word)? else {
        add_bad_hex(answers)?;
        return Ok(None);
    };
    let Some(code) = read_code(alloc, &octets, answers)? else {
        return Ok(None);
    };
    Ok(Some(U::take(alloc, code, answers)?))
}

/// The subcommand as a machine, before and after the program line.
#[derive(Drop)]
struct AfterProgram<U> {
    alloc: Global,
    user: Option<U>,
}

impl<U: ProgramUser> AfterProgram<U> {
    /// Answers a line before there is a program. It isn't inlined, so that later lines don't need the stack space for
    /// making a program.
    #[inline(never)]
    fn take_program(&mut self, line: &[u8], answers: &mut Vec<u8>) -> Result<Turn, AllocError>
        requires { self.old.user ≡ None }
        ensures { IfOk result (λ turn. Answers (program_rules U.texts) (λ world. world ≡ option_map U.code self.old.user) line.now turn
            (λ world. world ≡ option_map U.code self.new.user) answers.old.items answers.new.items) }
    {
        match line_words(line) {
            LineWords::Silent => Ok(Turn::GoesOn),
            LineWords::Several => {
                add_bad_line(answers)?;
                Ok(Turn::Ends)
            }
            LineWords::One(word) => {
                self.user = take_word(self.alloc, word, answers)?;
                match self.user {
                    Some(_) => Ok(Turn::GoesOn),
                    None => Ok(Turn::Ends),
                }
            }
        }
    }
}

impl<U: ProgramUser> Machine for AfterProgram<U> {
    ghost use Rattle.std.specs.Prelude.{◌≡◌, option_map};
    ghost use Rattle.cmd_programs.specs.AfterProgram.{ProgramWorld, program_rules};
    ghost use Rattle.cmd_programs.specs.inner.ProgramLaws.{program-total};

    ghost World = { ProgramWorld };

    ghost shows = { λ machine world. world ≡ option_map U.code machine.user };

    ghost rules = { program_rules U.texts };

    #[inline(always)]
    fn answer(&mut self, line: &[u8], answers: &mut Vec<u8>) -> Result<Turn, AllocError> {
        match &self.user {
            Some(user) => user.answer_line(self.alloc, line, answers),
            None => self.take_program(line, answers),
        }
    }

    fn close(&self, answers: &mut Vec<u8>) -> Answered {
        if self.user.is_some() {
            return Ok(Done::Whole);
        }
        add_no_program(answers)?;
        Ok(Done::Ended)
    }

    fn refuse(&self, answers: &mut Vec<u8>) -> Added {
        add_too_long(answers)
    }

    ghost is_total = { program-total U.texts U.is_total };
}

/// Answers the lines of an input. The first line with words is a program in hexadecimal digits, and it and the later lines
/// are answered by `U`.
///
/// # Errors
///
/// See [`text_io::RunFault`].
pub fn answer_program_lines<U: ProgramUser, I: Input, O: Output>(
    alloc: Global,
    input: &mut I,
    output: &mut O,
) -> Ending
    ensures { IsServed (IsProgramText U.texts) I.Input input.old input.new O.Output output.old output.new result }
{
    let mut machine = AfterProgram::<U> { alloc, user: None };
    answer_lines(alloc, input, output, &mut machine)
}

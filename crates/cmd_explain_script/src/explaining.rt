//! `upc-lab explain` of a script.

ghost use Rattle.std.specs.Prelude.{◌≡◌, ◌++◌, ◌||◌, OnOk};
ghost use Rattle.text_io.specs.Serving.{IsServed};
ghost use Rattle.cmd_explain_script.specs.ScriptFaults.{is_fault_line};
ghost use Rattle.cmd_explain_script.specs.ScriptText.{IsScriptExplained, explained, lines_text, no_fault_line, one_line_more};

use crate::contract_numbers::NamesNoContract;
use crate::loaded_programs::add_loaded;
use crate::reasons::add_script_explanation;
use crate::script_faults::is_fault_line;
use crate::setup_hints::add_setup_hint;
use cmd_run::Policing;
use std::alloc::{AllocError, Global};
use text_card::add_no_card;
use text_io::{Done, Ending, Input, Machine, Output, Turn, answer_lines};
use text_words::{add_number, add_text, add_too_long};
use upc_cell::Side;

/// Appends a number of lines, in words.
#[tactic(auto, using(std::proofs::lemmas::List::append_assoc))]
fn add_lines(answers: &mut Vec<u8>, met: usize) -> Result<(), AllocError>
    ensures { OnOk result (answers.new.items ≡ answers.old.items ++ lines_text met) }
{
    if met == 1 {
        return add_text(answers, b"1 line");
    }
    add_number(answers, met as u64)?;
    add_text(answers, b" lines")
}

/// Appends that no line had a fault.
#[tactic(auto, using(std::proofs::lemmas::List::append_assoc))]
fn add_no_fault(answers: &mut Vec<u8>, met: usize) -> Result<(), AllocError>
    ensures { OnOk result (answers.new.items ≡ answers.old.items ++ no_fault_line met) }
{
    add_text(answers, b"no fault in ")?;
    add_lines(answers, met)?;
    add_text(answers, b"\n")
}

/// Appends the text for a line of this number with this answer, after these programs were loaded. `faulty` says whether an earlier line had
/// a fault.
#[tactic(auto, using(std::proofs::lemmas::List::append_assoc))]
fn add_explained(
    alloc: Global,
    answers: &mut Vec<u8>,
    programs: &[NamesNoContract],
    faulty: bool,
    side: Option<Side>,
    number: usize,
    line: &[u8],
    answer: &[u8],
) -> Result<(), AllocError>
    ensures { OnOk result (answers.new.items ≡ answers.old.items ++ explained programs.now faulty side number line.now answer.now) }
{
    if is_fault_line(answer) {
        add_text(answers, answer)?;
        add_script_explanation(alloc, answers, faulty, side, number, line, answer)
    } else {
        add_setup_hint(alloc, answers, programs, number, line)
    }
}

/// Returns the number of lines after one more.
fn one_line_more(met: usize) -> usize
    ensures { result ≡ one_line_more met }
{
    met.saturating_add(1)
}

/// Returns whether any line so far had a fault, the last one, which has this answer, included.
fn is_faulty_after(faulty: bool, answer: &[u8]) -> bool
    ensures { result ≡ (faulty || is_fault_line answer.now) }
{
    faulty || is_fault_line(answer)
}

/// The machine of `upc run`, with what explanations need besides.
#[derive(Drop)]
struct Explaining {
    alloc: Global,
    run: Policing,
    /// The number of lines so far.
    met: usize,
    /// Whether one of them had a fault.
    faulty: bool,
    /// Of each loaded program for how many contracts it names none, in the order of the programs' names.
    programs: Vec<NamesNoContract>,
}

impl Machine for Explaining {
    ghost use Rattle.cmd_explain_script.specs.ScriptText.{ScriptWorld, script_rules};
    ghost use Rattle.cmd_explain_script.specs.inner.ScriptLaws.{ShowsScript, script-total};

    ghost World = { ScriptWorld };

    ghost shows = { λ it world. ShowsScript (⟦<Policing as Machine>⟧.shows it.run) it.met it.faulty it.programs.items world };

    ghost rules = { script_rules };

    fn answer(&mut self, line: &[u8], answers: &mut Vec<u8>) -> Result<Turn, AllocError> {
        let side = self.run.side();
        let faulty_before = self.faulty;
        let mut answer = Vec::new(self.alloc);
        let turn = self.run.answer(line, &mut answer)?;
        self.met = one_line_more(self.met);
        self.faulty = is_faulty_after(self.faulty, &answer);
        add_explained(
            self.alloc,
            answers,
            &self.programs,
            faulty_before,
            side,
            self.met,
            line,
            &answer,
        )?;
        add_loaded(self.alloc, &mut self.programs, side, line, &answer)?;
        Ok(turn)
    }

    fn close(&self, answers: &mut Vec<u8>) -> Result<Done, AllocError> {
        if self.run.side().is_none() {
            add_no_card(answers)?;
            add_text(
                answers,
                b"no line opens a card; the first line with words is to be `card PROGRAMS LINES PORTS JOURNAL`\n",
            )?;
            return Ok(Done::Ended);
        }
        if self.faulty {
            return Ok(Done::Ended);
        }
        add_no_fault(answers, self.met)?;
        Ok(Done::Whole)
    }

    fn refuse(&self, answers: &mut Vec<u8>) -> Result<(), AllocError> {
        add_too_long(answers)?;
        add_text(
            answers,
            b"a line has at most 70000 octets, and a script at most 1000000 lines\n",
        )
    }

    ghost is_total = { script-total };
}

/// Answers each line of a script that `upc run` answers by a fault line: by that line, and the explanation of it. A setup whose program
/// names no contract has a hint. docs/LAB.md has the format.
///
/// # Errors
///
/// See [`text_io::RunFault`].
pub fn explain_script<I: Input, O: Output>(alloc: Global, input: &mut I, output: &mut O) -> Ending
    ensures { IsServed IsScriptExplained I.Input input.old input.new O.Output output.old output.new result }
{
    let mut explaining = Explaining {
        alloc,
        run: Policing::new(alloc),
        met: 0,
        faulty: false,
        programs: Vec::new(alloc),
    };
    answer_lines(alloc, input, output, &mut explaining)
}

//! Lines that several subcommands over captures write. Each function appends to the answers.

ghost use Rattle.std.specs.Prelude.{◌≡◌, ◌++◌, OnOk};
ghost use Rattle.captures_text.specs.RunLines.{closing_lines, ending_line, several_line};

use crate::fault_lines::add_capture_fault;
use crate::link_words::add_link;
use crate::reading_summary::{ReadingSummary, add_summary};
use captures::{Fault, Link};
use text_io::Added;
use text_words::add_text;

/// Appends the line about a cell of a second link, which ends the run.
#[tactic(auto, using(std::proofs::lemmas::List::append_assoc))]
pub fn add_several(answers: &mut Vec<u8>, one: Link, other: Link) -> Added
    ensures { OnOk result (answers.new.items ≡ answers.old.items ++ several_line one other) }
{
    add_text(answers, b"fault link 1 Several ")?;
    add_link(answers, one)?;
    add_text(answers, b" ")?;
    add_link(answers, other)?;
    answers.push(b'\n')?;
    Ok(())
}

/// Appends the fault at which the reading ended, if there is one.
fn add_ending(answers: &mut Vec<u8>, ending: Option<Fault>) -> Added
    ensures { OnOk result (answers.new.items ≡ answers.old.items ++ ending_line ending) }
{
    match ending {
        Some(fault) => add_capture_fault(answers, fault),
        None => Ok(()),
    }
}

/// Appends the comments of the summary, and the fault at which the reading ended.
#[tactic(auto, using(std::proofs::lemmas::List::append_assoc))]
pub fn add_closing(answers: &mut Vec<u8>, summary: &ReadingSummary, ending: Option<Fault>) -> Added
    ensures { OnOk result (answers.new.items ≡ answers.old.items ++ closing_lines summary.now ending) }
{
    add_summary(answers, summary)?;
    add_ending(answers, ending)
}

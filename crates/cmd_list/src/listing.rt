//! `upc-lab list`: the listing of a program, with the octets of each instruction and the length of its longest run.

ghost use Rattle.std.specs.Prelude.{◌≡◌, ◌++◌, OnOk};
ghost use Rattle.bpf_verify.specs.Accepted.{IsAccepted};
ghost use Rattle.text_io.specs.Devices.{Adds};
ghost use Rattle.text_io.specs.Serving.{IsServed};
ghost use Rattle.cmd_list.specs.Comments.{commented};
ghost use Rattle.cmd_list.specs.ListedProgram.{IsListText, IsProgramListing, octets_text, program_listing};

use crate::longest::longest_run;
use bpf_asm::listing;
use bpf_code::{Instr, encode};
use cmd_programs::{ProgramUser, answer_program_lines, first_line, lines_after};
use std::alloc::{AllocError, Global};
use text_io::{Added, Ending, Input, LineWords, Output, Turn, line_words};
use text_words::{add_bad_line, add_numbered};

/// Appends the octets of an instruction, in lower case hexadecimal digits.
fn add_octets(alloc: Global, answers: &mut Vec<u8>, instr: Instr) -> Added
    ensures { OnOk result (answers.new.items ≡ answers.old.items ++ octets_text instr) }
{
    let octets = encode(alloc, &[instr]).map_err(|_| AllocError)?;
    let digits = hex::encode(alloc, octets.as_slice())?;
    answers.extend_from_slice(digits.as_bytes())
}

/// Appends the line of an instruction: its line in the listing, and its octets as a comment.
#[tactic(auto, using(std::proofs::lemmas::List::append_assoc))]
fn add_instruction(alloc: Global, answers: &mut Vec<u8>, listed: &[u8], instr: Instr) -> Added
    ensures { OnOk result (answers.new.items ≡ answers.old.items ++ commented listed.now (octets_text instr)) }
{
    answers.extend_from_slice(listed)?;
    answers.extend_from_slice(b" ; ")?;
    add_octets(alloc, answers, instr)?;
    answers.push(b'\n')?;
    Ok(())
}

/// Appends the lines of a code's listing, each with the octets of its instruction as a comment.
fn add_instructions(alloc: Global, answers: &mut Vec<u8>, code: &[Instr]) -> Added
    requires { IsAccepted code.now }
    ensures { OnOk result (answers.new.items ≡ answers.old.items ++ program_listing code.now) }
{
    let listing = listing(alloc, code).map_err(|_| AllocError)?;
    let mut lines = listing.as_slice();
    for instr in code {
        add_instruction(alloc, answers, first_line(lines), *instr)?;
        lines = lines_after(lines, 1);
    }
    Ok(())
}

/// Appends the listing of a code, each line with the octets of its instruction as a comment, and then a comment with the
/// number of instructions of its longest run.
///
/// # Errors
///
/// Only if an allocation fails: no jump of an accepted code leaves it.
pub fn add_listing(alloc: Global, answers: &mut Vec<u8>, code: &[Instr]) -> Added
    requires { IsAccepted code.now }
    ensures { OnOk result (Adds (IsProgramListing code.now) answers.old.items answers.new.items) }
{
    add_instructions(alloc, answers, code)?;
    add_numbered(answers, b"; longest ", usize::from(longest_run(code)))
}

/// A program that was listed. Nothing reads its code again: contracts name it.
#[derive(Drop)]
struct Lister {
    code: Vec<Instr>,
}

impl ProgramUser for Lister {
    ghost use Rattle.cmd_list.specs.ListedProgram.{list_texts};
    ghost use Rattle.cmd_list.specs.inner.ListLaws.{list-each};

    ghost texts = { list_texts };

    ghost code = { λ lister. lister.code.items };

    fn take(
        alloc: Global,
        accepted: Vec<Instr>,
        answers: &mut Vec<u8>,
    ) -> Result<Lister, AllocError> {
        add_listing(alloc, answers, &accepted)?;
        Ok(Lister { code: accepted })
    }

    fn answer_line(
        &self,
        _: Global,
        line: &[u8],
        answers: &mut Vec<u8>,
    ) -> Result<Turn, AllocError> {
        match line_words(line) {
            LineWords::Silent => Ok(Turn::GoesOn),
            LineWords::One(_) | LineWords::Several => {
                add_bad_line(answers)?;
                Ok(Turn::Ends)
            }
        }
    }

    ghost is_total = { list-each };
}

/// Answers the lines of an input. The first line with words is a program in hexadecimal digits, and its answer is the
/// program's listing, each line with the octets of its instruction as a comment, and a last comment with the most
/// instructions that a cell may take. No later line may have words. `upc check` reads the answer as a source of the same
/// program. docs/LAB.md has the format.
///
/// # Errors
///
/// See [`text_io::RunFault`].
pub fn list_program<I: Input, O: Output>(alloc: Global, input: &mut I, output: &mut O) -> Ending
    ensures { IsServed IsListText I.Input input.old input.new O.Output output.old output.new result }
{
    answer_program_lines::<Lister, I, O>(alloc, input, output)
}

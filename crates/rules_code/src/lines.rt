//! Lines, and their code.

ghost use Rattle.std.specs.Prelude.{◌≡◌, ◌<◌, ◌≤◌, ℕ, [], ◌∷◌, length, Err, IfOk, OnOk, None, Some, slice_get};
ghost use Rattle.rules_code.specs.LineCode.{Coded, known_after_line, first_after, later_after, line_code, lines_coded, with_entry_jump, lines_code};
ghost use Rattle.rules_code.specs.LinePlaces.{starts_where_held, line_starts_from_end};
ghost use Rattle.rules_code.specs.inner.Held.{held_at};
ghost use Rattle.rules_code.specs.Promise.{Classifies};
ghost use Rattle.rules_code.specs.inner.Coding.{coded_of};
ghost use Rattle.bpf_verify.specs.Accepted.{IsAccepted};

use crate::draft::Draft;
use crate::fault::CodeFault;
use crate::packet_part::Part;
use crate::plain_test::PlainTest;
use crate::tests_code::{known_after, put_test};
use bpf_code::Instr;
use bpf_verify::MOST_INSTRUCTIONS;
use std::alloc::{AllocError, Global};
use std::collections::VecDeque;

/// A line: a rule, the head of a block, or its end. Lines are tried in order.
#[derive(Drop)]
pub enum Line {
    /// A rule: a packet of which the test holds has this value.
    Rule {
        /// The test.
        test: PlainTest,
        /// The value.
        value: u32,
    },
    /// The lines up to the block's end are tried only where the test holds.
    Block {
        /// The test.
        test: PlainTest,
    },
    /// The end of the block that began last.
    End,
}

/// The code of the last lines.
#[derive(Drop)]
struct Coding {
    /// The code.
    draft: Draft,
    /// The label where the lines begin.
    entry: usize,
    /// For each block whose end is among the lines and whose head isn't: the label of what follows the block. The block that ends first is
    /// first.
    after: VecDeque<usize>,
}

/// Takes the label after the first end, or that of the last return if there is no end.
fn take_first(after: &mut VecDeque<usize>) -> usize
    ensures label { result ≡ first_after after.old.items }
    ensures left { after.new.items ≡ later_after after.old.items }
{
    match after.pop_front() {
        None => 1,
        Some(label) => label,
    }
}

/// Puts the code of a line in front. A holds `held` there, if that is known.
#[tactic(auto, unfolding(crate::specs::LineCode::line_code))]
fn put_line(coding: &mut Coding, line: &Line, held: Option<Part>) -> Result<(), AllocError>
    ensures { OnOk result (coded_of coding.new ≡ line_code line.now held (coded_of coding.old)) }
{
    match line {
        Line::Rule { test, value } => {
            coding.draft.put(Instr::RetK(*value))?;
            let met = coding.draft.len();
            let ways = put_test(&mut coding.draft, test, held, met, coding.entry)?;
            coding.entry = ways.entry;
        }
        Line::Block { test } => {
            let unmet = take_first(&mut coding.after);
            let ways = put_test(&mut coding.draft, test, held, coding.entry, unmet)?;
            coding.entry = ways.entry;
        }
        Line::End => coding.after.push_front(coding.entry)?,
    }
    Ok(())
}

/// What is known of A at each line.
fn held_parts(alloc: Global, lines: &[Line]) -> Result<Vec<Option<Part>>, AllocError>
    ensures count { IfOk result (λ parts. length parts.items ≡ length lines.now) }
    ensures held { IfOk result (λ parts. (at : ℕ) → at < length lines.now → slice_get parts.items at ≡ Some (held_at lines.now None at)) }
{
    let mut parts = Vec::new(alloc);
    let mut held = None;
    for line in lines {
        parts.push(held)?;
        held = known_after_line(line, held);
    }
    Ok(parts)
}

/// What is known of A at the line after this one, if it is reached from this one.
fn known_after_line(line: &Line, held: Option<Part>) -> Option<Part>
    ensures { result ≡ known_after_line line.now held }
{
    match line {
        Line::Rule { test, .. } => known_after(test, held).unmet,
        Line::Block { test } => known_after(test, held).met,
        Line::End => None,
    }
}

/// The code of all lines, and where that of each begins.
#[derive(Drop)]
struct PlacedCoding {
    /// The code.
    coding: Coding,
    /// For each line, how many instructions the code has from the line's first instruction to the end.
    starts_from_end: Vec<usize>,
}

/// The code of all lines, from the last to the first.
fn put_lines(alloc: Global, lines: &[Line], otherwise: u32) -> Result<PlacedCoding, AllocError>
    ensures code { IfOk result (λ coded. coded_of coded.coding ≡ lines_coded lines.now None otherwise) }
    ensures starts_from_end { IfOk result (λ coded. coded.starts_from_end.items ≡ line_starts_from_end lines.now otherwise) }
{
    let parts = held_parts(alloc, lines)?;
    let mut coding = first_coding(alloc, otherwise)?;
    let mut starts_from_end = Vec::new(alloc);
    let mut left = lines.len();
    while left > 0 {
        left -= 1;
        put_line(&mut coding, &lines[left], parts[left])?;
        starts_from_end.push(coding.draft.len())?;
    }
    starts_from_end.reverse();
    Ok(PlacedCoding {
        coding,
        starts_from_end,
    })
}

/// The code without lines: the last return.
fn first_coding(alloc: Global, otherwise: u32) -> Result<Coding, AllocError>
    ensures { IfOk result (λ coding. coded_of coding ≡ lines_coded [] None otherwise) }
{
    let mut draft = Draft::new(alloc);
    draft.put(Instr::RetK(otherwise))?;
    Ok(Coding {
        draft,
        entry: 1,
        after: VecDeque::new(alloc),
    })
}

/// The code of lines, however long it is.
fn whole_code(alloc: Global, lines: &[Line], otherwise: u32) -> Result<PlacedCode, AllocError>
    ensures code { IfOk result (λ placed. placed.code.items ≡ lines_code lines.now otherwise) }
    ensures starts_from_end { IfOk result (λ placed. placed.starts_from_end.items ≡ line_starts_from_end lines.now otherwise) }
{
    let placed = put_lines(alloc, lines, otherwise)?;
    let code = with_entry_jump(placed.coding)?;
    Ok(PlacedCode {
        code,
        starts_from_end: placed.starts_from_end,
    })
}

/// The code from its first instruction on. If the lines don't begin there, puts `ja` in front.
fn with_entry_jump(coding: Coding) -> Result<Vec<Instr>, AllocError>
    ensures { IfOk result (λ code. code.items ≡ with_entry_jump (coded_of coding)) }
{
    let Coding {
        mut draft,
        entry,
        after: _,
    } = coding;
    let count = draft.len();
    if entry == count {
        return Ok(draft.into_code());
    }
    draft.put(Instr::Jump(count.saturating_sub(entry) as u32))?;
    Ok(draft.into_code())
}

/// A code, and where that of each line begins.
#[derive(Drop)]
pub struct PlacedCode {
    /// The instructions.
    pub code: Vec<Instr>,
    /// For each line the number of instructions from the first of its own to the last of the code. A line without code has the
    /// number of the line after it, or 1, which is the return where no rule gives a value.
    pub starts_from_end: Vec<usize>,
}

/// Makes the code that gives the value of lines on every packet of 52 octets, with this value where no rule gives one, and says where
/// the code of each line begins (`line_starts_from_end`).
///
/// # Errors
///
/// `NoMemory` if an allocation failed. Otherwise `TooLong` exactly if the code that is defined for the lines (`lines_code`)
/// has more than 4096 instructions.
pub fn generate_placed(
    alloc: Global,
    lines: &[Line],
    otherwise: u32,
) -> Result<PlacedCode, CodeFault>
    ensures accepted { IfOk result (λ placed. IsAccepted placed.code.items) }
    ensures value { IfOk result (λ placed. Classifies lines.now otherwise placed.code.items) }
    ensures code { IfOk result (λ placed. placed.code.items ≡ lines_code lines.now otherwise) }
    ensures starts_from_end { IfOk result (λ placed. placed.starts_from_end.items ≡ line_starts_from_end lines.now otherwise) }
    ensures too_long { result ≡ Err CodeFault.TooLong → 4096 < length (lines_code lines.now otherwise) }
    ensures short { IfOk result (λ placed. length (lines_code lines.now otherwise) ≤ 4096) }
{
    let placed = match whole_code(alloc, lines, otherwise) {
        Ok(placed) => placed,
        Err(_) => return Err(CodeFault::NoMemory),
    };
    if placed.code.len() > MOST_INSTRUCTIONS {
        return Err(CodeFault::TooLong);
    }
    Ok(placed)
}

/// Makes the code that gives the value of lines on every packet of 52 octets, with this value where no rule gives one.
///
/// # Errors
///
/// Those of [`generate_placed`].
pub fn generate(alloc: Global, lines: &[Line], otherwise: u32) -> Result<Vec<Instr>, CodeFault>
    ensures accepted { IfOk result (λ code. IsAccepted code.items) }
    ensures value { IfOk result (λ code. Classifies lines.now otherwise code.items) }
    ensures code { IfOk result (λ code. code.items ≡ lines_code lines.now otherwise) }
    ensures too_long { result ≡ Err CodeFault.TooLong → 4096 < length (lines_code lines.now otherwise) }
    ensures short { IfOk result (λ code. length (lines_code lines.now otherwise) ≤ 4096) }
{
    match generate_placed(alloc, lines, otherwise) {
        Ok(
            PlacedCode {
                code,
                starts_from_end: _,
            },
        ) => Ok(code),
        Err(fault) => Err(fault),
    }
}

//! `upc-lab why`: the line of rules that decides each cell.

ghost use Rattle.std.specs.Prelude.{◌≡◌, ◌++◌, [], IfOk, IfSome, MatchOption, OnOk, Ok, is_some, option_map};
ghost use Rattle.rules_text.specs.RulesInMemory.{placed_rules_read};
ghost use Rattle.rules_text.specs.TextOfRules.{placed_rules_in};
ghost use Rattle.text_io.specs.Devices.{Adds};
ghost use Rattle.text_io.specs.Serving.{IsServed};
ghost use Rattle.text_io.specs.Words.{words_of};
ghost use Rattle.text_io.specs.declared.ending.Done.TheVariants.{Ended};
ghost use Rattle.text_words.specs.Hexadecimal.{octets_of_digits};
ghost use Rattle.cmd_rules.specs.RulesAnswers.{AnswersBy, PrintsFault};
ghost use Rattle.cmd_rules.specs.WhyText.{HasCode, IsWhyText, MayBeWhyText, cell_if_word, cell_line_read, cell_word_read, decision_text, is_moment, value_text, word_of_cell_line};
ghost use Rattle.cmd_rules.specs.inner.Counted.{AnswersWhyLine, AreCounts, IsLineRead};
ghost use Rattle.cmd_rules.specs.inner.Places.{FindsRules};

use crate::before_cells::read_rules_before;
use crate::begins::add_decider;
use crate::counting::Counts;
use crate::decider::Decider;
use crate::fault_lines::end_by_fault;
use rules_cells::Decision;
use rules_text::RulePlace;
use std::alloc::{AllocError, Global};
use text_io::{
    Done, Ending, Input, LineWords, Machine, Output, RunFault, Turn, answer_lines, first_word,
    give_last, line_words,
};
use text_words::{
    CellWord, add_bad_hex, add_bad_line, add_number, add_text, add_too_long, add_wrong_length,
    cell_of_word,
};
use upc_cell::Cell;

/// The cell of a line. None if the line has no cell; then its answer, which may be empty, was appended.
type CellRead = Result<Option<Cell>, AllocError>;

/// Appends the value of a cell, and ends the answer's line.
#[tactic(auto, using(std::proofs::lemmas::List::append_assoc))]
fn add_value(answers: &mut Vec<u8>, value: u32) -> Result<(), AllocError>
    ensures { OnOk result (answers.new.items ≡ answers.old.items ++ value_text value) }
{
    add_text(answers, b" value ")?;
    add_number(answers, u64::from(value))?;
    answers.push(b'\n')?;
    Ok(())
}

/// Appends what was decided for a cell.
#[tactic(auto, using(std::proofs::lemmas::List::append_assoc))]
fn add_decision(
    answers: &mut Vec<u8>,
    begins: &[RulePlace],
    decision: Decision,
) -> Result<(), AllocError>
    ensures { OnOk result (answers.new.items ≡ answers.old.items ++ decision_text begins.now decision) }
{
    add_decider(answers, begins, decision.line)?;
    add_value(answers, decision.value)
}

/// Reads a word of a cell line, or appends the answer to one that is no cell.
fn cell_in_word(alloc: Global, word: &[u8], answers: &mut Vec<u8>) -> CellRead
    ensures { IfOk result (IsLineRead (cell_word_read (octets_of_digits word.now)) answers.old.items answers.new.items) }
{
    match cell_of_word(alloc, word)? {
        CellWord::OfCell(cell) => return Ok(Some(cell)),
        CellWord::OfOthers(count) => add_wrong_length(answers, count)?,
        CellWord::NoDigits => add_bad_hex(answers)?,
    }
    Ok(None)
}

/// Returns whether a word may be a moment: it has only decimal digits.
fn is_moment(word: &[u8]) -> bool
    ensures { result ≡ is_moment word.now }
{
    word.iter().all(|octet| matches!(*octet, b'0'..=b'9'))
}

/// Returns the word of the cell in a line `cell MOMENT CELL`, as scripts have it.
fn word_of_cell_line(line: &[u8]) -> Option<&[u8]>
    ensures { option_map (λ word. word.now) result ≡ word_of_cell_line (words_of line.now) }
{
    let (name, after_name) = first_word(line)?;
    let (moment, after_moment) = first_word(after_name)?;
    let (word, rest) = first_word(after_moment)?;
    if first_word(rest).is_none() && name == b"cell".as_slice() && is_moment(moment) {
        Some(word)
    } else {
        None
    }
}

/// Reads the word of a cell, or appends the answer to a line without one.
fn cell_if_word(alloc: Global, word: Option<&[u8]>, answers: &mut Vec<u8>) -> CellRead
    ensures { IfOk result (IsLineRead (cell_if_word (option_map (λ it. it.now) word.entry)) answers.old.items answers.new.items) }
{
    let Some(word) = word else {
        add_bad_line(answers)?;
        return Ok(None);
    };
    cell_in_word(alloc, word, answers)
}

/// Reads a line after the line `cells`, or appends the answer to one without a cell.
fn cell_in_line(alloc: Global, line: &[u8], answers: &mut Vec<u8>) -> CellRead
    ensures { IfOk result (IsLineRead (cell_line_read (words_of line.now)) answers.old.items answers.new.items) }
{
    match line_words(line) {
        LineWords::One(word) => cell_in_word(alloc, word, answers),
        LineWords::Silent => Ok(None),
        LineWords::Several => cell_if_word(alloc, word_of_cell_line(line), answers),
    }
}

/// The subcommand as a machine, after the line `cells`.
#[derive(Drop)]
pub(crate) struct Deciding {
    /// Where it allocates.
    pub alloc: Global,
    /// The rules.
    pub decider: Decider,
    /// The counts, if cells are counted.
    pub counts: Option<Counts>,
}

/// Counts a cell, or answers it with the line that decides it.
fn answer_cell(
    deciding: &mut Deciding,
    cell: &Cell,
    answers: &mut Vec<u8>,
) -> Result<(), AllocError>
    ensures { OnOk result (AnswersWhyLine deciding.old deciding.new (Ok cell.now) answers.old.items answers.new.items) }
{
    let decision = deciding.decider.decide(cell);
    match &mut deciding.counts {
        Some(counts) => counts.count(decision.line),
        None => add_decision(answers, &deciding.decider.placed_rules.begins, decision),
    }
}

/// Answers a line after the line `cells`.
fn answer_line(
    deciding: &mut Deciding,
    line: &[u8],
    answers: &mut Vec<u8>,
) -> Result<(), AllocError>
    ensures { OnOk result (AnswersWhyLine deciding.old deciding.new (cell_line_read (words_of line.now)) answers.old.items answers.new.items) }
{
    match cell_in_line(deciding.alloc, line, answers)? {
        Some(cell) => answer_cell(deciding, &cell, answers),
        None => Ok(()),
    }
}

impl Machine for Deciding {
    ghost use Rattle.cmd_rules.specs.WhyText.{WhyWorld, why_rules};
    ghost use Rattle.cmd_rules.specs.inner.Counted.{ShowsWhy};
    ghost use Rattle.cmd_rules.specs.inner.WhyTotal.{why-total};

    ghost World = { WhyWorld };

    ghost shows = { ShowsWhy };

    ghost rules = { why_rules };

    fn answer(&mut self, line: &[u8], answers: &mut Vec<u8>) -> Result<Turn, AllocError> {
        answer_line(self, line, answers)?;
        Ok(Turn::GoesOn)
    }

    fn close(&self, answers: &mut Vec<u8>) -> Result<Done, AllocError> {
        if let Some(counts) = &self.counts {
            counts.add_to(answers, &self.decider.placed_rules)?;
        }
        Ok(Done::Whole)
    }

    fn refuse(&self, answers: &mut Vec<u8>) -> Result<(), AllocError> {
        add_too_long(answers)
    }

    ghost is_total = { why-total };
}

/// Reads a text of rules, or appends its fault.
fn decider_or_fault(
    alloc: Global,
    text: &[u8],
    answers: &mut Vec<u8>,
) -> Result<Option<Decider>, AllocError>
    ensures { IfOk result (λ found. MatchOption found
        (Adds (λ answer. PrintsFault text.now answer Ended) answers.old.items answers.new.items)
        (λ decider. (answers.new.items ≡ answers.old.items) × (placed_rules_in text.now ≡ Ok (placed_rules_read decider.placed_rules)) × HasCode text.now)) }
{
    match Decider::new(alloc, text) {
        Ok(decider) => Ok(Some(decider)),
        Err(fault) => {
            end_by_fault(answers, fault)?;
            Ok(None)
        }
    }
}

/// Reads the text of rules that was found before the cells, or appends its fault. None was found where it is over the limit.
fn found_decider(
    alloc: Global,
    found: Option<Vec<u8>>,
    answers: &mut Vec<u8>,
) -> Result<Option<Decider>, AllocError>
    ensures { IfOk result (λ made. MatchOption made
        (Adds (λ answer. AnswersBy PrintsFault (option_map (λ text. text.items) found) answer Ended) answers.old.items answers.new.items)
        (λ decider. (answers.new.items ≡ answers.old.items) × FindsRules (option_map (λ text. text.items) found) (placed_rules_read decider.placed_rules))) }
{
    match found {
        Some(text) => decider_or_fault(alloc, &text, answers),
        None => {
            add_too_long(answers)?;
            Ok(None)
        }
    }
}

/// Counts of no cell, if cells are counted.
fn counts_if(alloc: Global, count: bool) -> Option<Counts>
    ensures asked { is_some result ≡ count }
    ensures empty { IfSome result (AreCounts []) }
{
    if count {
        return Some(Counts::new(alloc));
    }
    None
}

/// Answers an input. The lines before the line `cells` are a text of rules, within its limits; docs/RULES.md has it. Each line after it has
/// a cell, as a hexadecimal word alone or as `cell MOMENT CELL`. Its answer is the line of the rule that decides the cell, and the cell's
/// value. With `count` cells have no answers; at the end each rule, and `otherwise`, has a line with the number of cells that it decided. A
/// text with a fault is answered by the fault.
///
/// # Errors
///
/// See [`RunFault`].
pub fn decide_cells<I: Input, O: Output>(
    alloc: Global,
    count: bool,
    input: &mut I,
    output: &mut O,
) -> Ending
    ensures served { IsServed (MayBeWhyText count) I.Input input.old input.new O.Output output.old output.new result }
    ensures printed { I.is_known → O.is_known → IfOk result (λ done.
        Adds (λ answer. IsWhyText count (I.rest input.old) answer done) (O.held output.old) (O.held output.new)) }
{
    let found = match read_rules_before(alloc, input) {
        Ok(found) => found,
        Err(fault) => return Err(fault),
    };
    let mut answers = Vec::new(alloc);
    match found_decider(alloc, found, &mut answers) {
        Err(_) => Err(RunFault::NoMemory),
        Ok(None) => give_last(output, &mut answers, Done::Ended),
        Ok(Some(decider)) => {
            let counts = counts_if(alloc, count);
            let mut deciding = Deciding {
                alloc,
                decider,
                counts,
            };
            answer_lines(alloc, input, output, &mut deciding)
        }
    }
}

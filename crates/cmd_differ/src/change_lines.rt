//! The lines that `upc-lab differ` prints, one for each case that it lists.

ghost use Rattle.std.specs.Prelude.{◌≡◌, ◌++◌, codes, OnOk};
ghost use Rattle.hex.specs.Hex.{encode_lower};
ghost use Rattle.upc_cell.specs.Header.{clp_of};
ghost use Rattle.text_words.specs.FaultLines.{line};
ghost use Rattle.cmd_differ.specs.ChangeLines.{both_text, case_text, cases_text, change_text, field_text, fields_text, given_text, is_listed, is_one_line, is_same_begin, path_text, cell_with_fields, shown_side, side_decider, source_begin};
ghost use Rattle.cmd_differ.specs.inner.SidesRead.{side_read};

use crate::sides::SideText;
use cmd_rules::{add_decider, begin_at};
use rules_cells::Decision;
use rules_diagrams::Case;
use rules_text::RulePlace;
use std::alloc::AllocError;
use text_words::{add_cell_octets, add_number, add_text};
use upc_cell::{Cell, Side};

/// Where the line of rules with this index begins; source line 0 if none decides, which is `otherwise`.
fn source_begin(begins: &[RulePlace], line: Option<usize>) -> RulePlace
    ensures { result ≡ source_begin begins.now line }
{
    match line {
        None => RulePlace {
            line: 0,
            column: None,
        },
        Some(place) => begin_at(begins, place),
    }
}

/// Whether lines of rules begin at the same place of their texts.
fn is_same_begin(one: RulePlace, other: RulePlace) -> bool
    ensures { result ≡ is_same_begin one other }
{
    one.line == other.line && one.column == other.column
}

/// Appends the name of a field and its number.
#[tactic(auto, using(std::proofs::lemmas::List::append_assoc))]
fn add_field(answers: &mut Vec<u8>, name: &[u8], number: u64) -> Result<(), AllocError>
    ensures { OnOk result (answers.new.items ≡ answers.old.items ++ field_text name.now number) }
{
    add_text(answers, name)?;
    add_number(answers, number)
}

/// The cell loss priority of a cell as a number.
fn priority(cell: &Cell) -> u64
    ensures { result ≡ clp_of cell.now }
{
    u64::from(cell.clp())
}

/// Appends the fields before the channel.
#[tactic(auto, using(std::proofs::lemmas::List::append_assoc))]
fn add_path(answers: &mut Vec<u8>, side: Side, cell: &Cell) -> Result<(), AllocError>
    ensures { OnOk result (answers.new.items ≡ answers.old.items ++ path_text side cell.now) }
{
    match side {
        Side::Uni => {
            add_field(answers, b"gfc ", u64::from(cell.gfc()))?;
            add_field(answers, b" vpi ", u64::from(cell.vpi_at(Side::Uni)))
        }
        Side::Nni => add_field(answers, b"vpi ", u64::from(cell.vpi_at(Side::Nni))),
        Side::UniPaths => {
            add_field(answers, b"gfc ", u64::from(cell.gfc()))?;
            add_field(answers, b" vpi ", u64::from(cell.vpi_at(Side::UniPaths)))
        }
        Side::NniPaths => add_field(answers, b"vpi ", u64::from(cell.vpi_at(Side::NniPaths))),
    }
}

/// Appends the fields of the header of a cell.
#[tactic(auto, using(std::proofs::lemmas::List::append_assoc))]
fn add_fields(answers: &mut Vec<u8>, side: Side, cell: &Cell) -> Result<(), AllocError>
    ensures { OnOk result (answers.new.items ≡ answers.old.items ++ fields_text side cell.now) }
{
    add_path(answers, side, cell)?;
    add_field(answers, b" vci ", u64::from(cell.vci()))?;
    add_field(answers, b" pti ", u64::from(cell.pti()))?;
    add_field(answers, b" clp ", priority(cell))
}

/// Appends what decides a cell: the line of rules, or the program.
fn add_side_decider(
    answers: &mut Vec<u8>,
    side: &SideText,
    line: Option<usize>,
) -> Result<(), AllocError>
    ensures { OnOk result (answers.new.items ≡ answers.old.items ++ side_decider (side_read side.now) line) }
{
    match side {
        SideText::Rules(placed_rules) => add_decider(answers, &placed_rules.begins, line),
        SideText::Program(_) => add_text(answers, b"program"),
    }
}

/// Appends what a side gives a cell.
#[tactic(auto, using(std::proofs::lemmas::List::append_assoc))]
fn add_given(answers: &mut Vec<u8>, side: &SideText, decision: Decision) -> Result<(), AllocError>
    ensures { OnOk result (answers.new.items ≡ answers.old.items ++ given_text (side_read side.now) decision) }
{
    add_side_decider(answers, side, decision.line)?;
    add_field(answers, b" value ", u64::from(decision.value))
}

/// Appends what both sides give a cell.
#[tactic(auto, using(std::proofs::lemmas::List::append_assoc))]
fn add_both(
    answers: &mut Vec<u8>,
    old: &SideText,
    new: &SideText,
    case: &Case,
) -> Result<(), AllocError>
    ensures { OnOk result (answers.new.items ≡ answers.old.items ++ both_text (side_read old.now) (side_read new.now) case.now.old case.now.new) }
{
    add_text(answers, b"old ")?;
    add_given(answers, old, case.old)?;
    add_text(answers, b", new ")?;
    add_given(answers, new, case.new)
}

/// Appends the octets of a cell, and ends the line.
#[tactic(auto, using(std::proofs::lemmas::List::append_assoc))]
fn add_octets_line(answers: &mut Vec<u8>, cell: &Cell) -> Result<(), AllocError>
    ensures { OnOk result (answers.new.items ≡ answers.old.items ++ line (codes ": " ++ encode_lower cell.now)) }
{
    add_text(answers, b": ")?;
    add_cell_octets(answers, cell)?;
    answers.push(b'\n')?;
    Ok(())
}

/// Appends a cell: its fields and its octets.
#[tactic(auto, using(std::proofs::lemmas::List::append_assoc))]
fn add_cell(answers: &mut Vec<u8>, side: Side, cell: &Cell) -> Result<(), AllocError>
    ensures { OnOk result (answers.new.items ≡ answers.old.items ++ cell_with_fields side cell.now) }
{
    add_text(answers, b": ")?;
    add_fields(answers, side, cell)?;
    add_octets_line(answers, cell)
}

/// The side of the link at which fields are shown: that of the new rules, or of the old ones.
fn shown_side(old: &SideText, new: &SideText) -> Side
    ensures { result ≡ shown_side (side_read old.now) (side_read new.now) }
{
    match (old, new) {
        (_, SideText::Rules(placed_rules)) => placed_rules.rules.side,
        (SideText::Rules(placed_rules), SideText::Program(_)) => placed_rules.rules.side,
        (SideText::Program(_), SideText::Program(_)) => Side::Uni,
    }
}

/// Appends the line of a case.
#[tactic(auto, using(std::proofs::lemmas::List::append_assoc))]
fn add_change(
    answers: &mut Vec<u8>,
    old: &SideText,
    new: &SideText,
    case: &Case,
) -> Result<(), AllocError>
    ensures { OnOk result (answers.new.items ≡ answers.old.items
        ++ change_text (side_read old.now) (side_read new.now) case.now.old case.now.new case.now.cell) }
{
    add_both(answers, old, new, case)?;
    add_cell(answers, shown_side(old, new), &case.cell)
}

/// Whether one line of rules, by where it begins, decides on both sides.
fn is_one_line(old: &SideText, new: &SideText, was: Option<usize>, is: Option<usize>) -> bool
    ensures { result ≡ is_one_line (side_read old.now) (side_read new.now) was is }
{
    match (old, new) {
        (SideText::Rules(old), SideText::Rules(new)) => {
            is_same_begin(
                source_begin(&old.begins, was),
                source_begin(&new.begins, is),
            )
        }
        (SideText::Rules(_), SideText::Program(_)) | (SideText::Program(_), _) => false,
    }
}

/// Whether a case has a line. It has one if its values differ; with `lines` also if they agree, unless on both sides lines of
/// rules that begin at one place decide, or `otherwise`.
fn is_listed(lines: bool, old: &SideText, new: &SideText, case: &Case) -> bool
    ensures { result ≡ is_listed lines (side_read old.now) (side_read new.now) case.now }
{
    let one_line = is_one_line(old, new, case.old.line, case.new.line);
    case.old.value != case.new.value || (lines && !one_line)
}

/// Appends the line of a case, if it has one.
fn add_case(
    answers: &mut Vec<u8>,
    lines: bool,
    old: &SideText,
    new: &SideText,
    case: &Case,
) -> Result<(), AllocError>
    ensures { OnOk result (answers.new.items ≡ answers.old.items ++ case_text lines (side_read old.now) (side_read new.now) case.now) }
{
    if is_listed(lines, old, new, case) {
        add_change(answers, old, new, case)?;
    }
    Ok(())
}

/// Appends the lines of cases.
pub(crate) fn add_cases(
    answers: &mut Vec<u8>,
    lines: bool,
    old: &SideText,
    new: &SideText,
    cases: &[Case],
) -> Result<(), AllocError>
    ensures { OnOk result (answers.new.items ≡ answers.old.items ++ cases_text lines (side_read old.now) (side_read new.now) cases.now) }
{
    for case in cases {
        add_case(answers, lines, old, new, case)?;
    }
    Ok(())
}

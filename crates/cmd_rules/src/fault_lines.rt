//! The fault line of a text of rules.

ghost use Rattle.std.specs.Prelude.{◌≡◌, ◌≢◌, ◌++◌, IfOk, OnOk};
ghost use Rattle.rules_text.specs.declared.fault.RuleFaultKind.TheVariants.{NoMemory};
ghost use Rattle.text_io.specs.declared.ending.Done.TheVariants.{Ended};
ghost use Rattle.cmd_rules.specs.RuleFaults.{place_text, rule_fault, rule_name};

use rules_text::{RuleFault, RuleFaultKind};
use std::alloc::AllocError;
use text_io::Done;
use text_words::add_number;

/// The number and the name of a fault.
fn name_of(fault: RuleFault) -> &'static [u8]
    ensures { result.now ≡ rule_name fault.kind }
{
    match fault.kind {
        RuleFaultKind::BadLine => b"1 BadLine",
        RuleFaultKind::BadNumber => b"2 BadNumber",
        RuleFaultKind::TooLarge => b"3 TooLarge",
        RuleFaultKind::OutsideCell => b"4 OutsideCell",
        RuleFaultKind::AfterOtherwise => b"5 AfterOtherwise",
        RuleFaultKind::Unbalanced => b"6 Unbalanced",
        RuleFaultKind::TooDeep => b"7 TooDeep",
        RuleFaultKind::TooLong => b"8 TooLong",
        RuleFaultKind::NoMemory => b"9 NoMemory",
        RuleFaultKind::UnknownName => b"10 UnknownName",
        RuleFaultKind::NameTaken => b"11 NameTaken",
    }
}

/// Appends a blank, a line and a column, and ends the answer's line.
#[tactic(auto, using(std::proofs::lemmas::List::append_assoc))]
fn add_place(answers: &mut Vec<u8>, line: usize, column: usize) -> Result<(), AllocError>
    ensures { OnOk result (answers.new.items ≡ answers.old.items ++ place_text line column) }
{
    answers.push(b' ')?;
    add_number(answers, line as u64)?;
    answers.push(b' ')?;
    add_number(answers, column as u64)?;
    answers.push(b'\n')?;
    Ok(())
}

/// Appends the answer to a text with a fault.
#[tactic(auto, using(std::proofs::lemmas::List::append_assoc))]
pub fn add_rule_fault(answers: &mut Vec<u8>, fault: RuleFault) -> Result<(), AllocError>
    ensures { OnOk result (answers.new.items ≡ answers.old.items ++ rule_fault fault) }
{
    answers.extend_from_slice(b"fault rules ")?;
    answers.extend_from_slice(name_of(fault))?;
    add_place(answers, fault.line, fault.column)?;
    Ok(())
}

/// Ends the run by the answer to a text with a fault. `NoMemory` is no fault of a text, and is passed on.
pub(crate) fn end_by_fault(answers: &mut Vec<u8>, fault: RuleFault) -> Result<Done, AllocError>
    ensures faulty { IfOk result (λ done. fault.kind ≢ NoMemory) }
    ensures answer { IfOk result (λ done. (answers.new.items ≡ answers.old.items ++ rule_fault fault) × (done ≡ Ended)) }
{
    match fault.kind {
        RuleFaultKind::NoMemory => Err(AllocError),
        _ => {
            add_rule_fault(answers, fault)?;
            Ok(Done::Ended)
        }
    }
}

//! The result of closing a card: the totals of the verdicts, or the first line that is uneven.

ghost use Rattle.std.specs.Prelude.{◌≡◌, ◌++◌, OnOk};
ghost use Rattle.port_card.specs.Closing.{lines_total};
ghost use Rattle.text_words.specs.FaultLines.{line};
ghost use Rattle.cmd_ports.specs.ClosingText.{closing_text, done_of, totals_line, uneven_line};

use line_record::Tally;
use port_card::Closing;
use text_io::{Added, Done};
use text_script::add_tally;
use text_words::add_number;

/// Adds the totals of the verdicts.
#[tactic(auto, using(std::proofs::lemmas::List::append_assoc))]
fn add_totals(answers: &mut Vec<u8>, totals: Tally) -> Added
    ensures { OnOk result (answers.new.items ≡ answers.old.items ++ totals_line totals) }
{
    answers.extend_from_slice(b"totals")?;
    add_tally(answers, totals)?;
    answers.push(b'\n')?;
    Ok(())
}

/// Adds the fault line of a line of the card whose counts differ from those of the seats. `number` is its number, from 0.
#[tactic(auto, using(std::proofs::lemmas::List::append_assoc))]
fn add_uneven(answers: &mut Vec<u8>, number: u16) -> Added
    ensures { OnOk result (answers.new.items ≡ answers.old.items ++ uneven_line number) }
{
    answers.extend_from_slice(b"fault card 1 Uneven ")?;
    add_number(answers, u64::from(number))?;
    answers.push(b'\n')?;
    Ok(())
}

/// Adds the totals, or the first uneven line.
pub fn add_closing(answers: &mut Vec<u8>, closing: &Closing) -> Added
    ensures { OnOk result (answers.new.items
        ≡ answers.old.items ++ closing_text (lines_total closing.now.lines.items) closing.now.uneven) }
{
    match closing.uneven {
        Some(number) => add_uneven(answers, number),
        None => add_totals(answers, closing.total()),
    }
}

/// Returns how a script's run ends after this closing: `Ended` if a line is uneven, otherwise `Whole`.
pub fn done_after(closing: &Closing) -> Done
    ensures { result ≡ done_of closing.now.uneven }
{
    match closing.uneven {
        Some(_) => Done::Ended,
        None => Done::Whole,
    }
}

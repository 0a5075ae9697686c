//! Columns of the lines of several tables, and the verdict in an answer.

ghost use Rattle.std.specs.Prelude.{◌≡◌, ◌++◌, ℕ, List, OnOk, decimal};
ghost use Rattle.card_core.specs.Sections.{answer_to};
ghost use Rattle.text_script.specs.ReplyTexts.{channel_name};
ghost use Rattle.cmd_setups.specs.Columns.{in_column, verdict_given};

use card_core::{Judgement, Unjudged};
use leaky::Verdict;
use text_io::Added;
use text_words::{add_number, add_text};
use upc_cell::Side;

/// Appends a number and a tab.
#[tactic(auto, using(std::proofs::lemmas::List::append_assoc))]
pub(crate) fn add_number_column(answers: &mut Vec<u8>, number: u64) -> Added
    ensures { OnOk result (answers.new.items ≡ answers.old.items ++ in_column (decimal number)) }
{
    add_number(answers, number)?;
    answers.push(b'\t')?;
    Ok(())
}

/// Appends a word and a tab.
#[tactic(auto, using(std::proofs::lemmas::List::append_assoc))]
fn add_word_column(answers: &mut Vec<u8>, word: &[u8]) -> Added
    ensures { OnOk result (answers.new.items ≡ answers.old.items ++ in_column word.now) }
{
    add_text(answers, word)?;
    answers.push(b'\t')?;
    Ok(())
}

/// Appends the channel of a connection, or `*` where connections are virtual paths, and a tab.
pub(crate) fn add_channel_column(answers: &mut Vec<u8>, side: Side, vci: u16) -> Added
    ensures { OnOk result (answers.new.items ≡ answers.old.items ++ in_column (channel_name side vci)) }
{
    if side.has_paths() {
        add_word_column(answers, b"*")
    } else {
        add_number_column(answers, u64::from(vci))
    }
}

/// Returns the verdict in an answer, if the cell was judged.
#[inline(always)]
pub fn verdict_in(decision: &Result<Judgement, Unjudged>) -> Option<Verdict>
    ensures { (cell : List ℕ) → result ≡ verdict_given (answer_to cell decision.now) }
{
    match decision {
        Ok(judged) => Some(judged.verdict),
        Err(_) => None,
    }
}

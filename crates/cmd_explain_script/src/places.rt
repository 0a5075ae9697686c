//! Places in an input, in words.

ghost use Rattle.std.specs.Prelude.{◌≡◌, ◌++◌, OnOk};
ghost use Rattle.cmd_explain_script.specs.Places.{place_words, quoted};

use text_io::Added;
use text_words::{add_number, add_text};

/// Appends octets between grave accents.
///
/// # Errors
///
/// `AllocError` if an allocation failed.
#[tactic(auto, using(std::proofs::lemmas::List::append_assoc))]
pub fn add_quoted(answers: &mut Vec<u8>, octets: &[u8]) -> Added
    ensures { OnOk result (answers.new.items ≡ answers.old.items ++ quoted octets.now) }
{
    add_text(answers, b"`")?;
    add_text(answers, octets)?;
    add_text(answers, b"`")
}

/// Appends a line number, and a column if there is one. Both count from 1.
///
/// # Errors
///
/// `AllocError` if an allocation failed.
#[tactic(auto, using(std::proofs::lemmas::List::append_assoc))]
pub fn add_place(answers: &mut Vec<u8>, number: usize, column: Option<usize>) -> Added
    ensures { OnOk result (answers.new.items ≡ answers.old.items ++ place_words number column) }
{
    add_text(answers, b"line ")?;
    add_number(answers, number as u64)?;
    match column {
        None => add_text(answers, b": "),
        Some(column) => {
            add_text(answers, b" column ")?;
            add_number(answers, column as u64)?;
            add_text(answers, b": ")
        }
    }
}

//! Answer lines that several subcommands use. Each function appends to the answers.

ghost use Rattle.std.specs.Prelude.{◌≡◌, ◌++◌, codes, decimal, OnOk};
ghost use Rattle.text_words.specs.FaultLines.{bad_hex, bad_line, line, too_long, wrong_length};

use std::alloc::Global;
use text_io::Added;

/// Appends a number in decimal digits.
pub fn add_number(answers: &mut Vec<u8>, number: u64) -> Added
    ensures { OnOk result (answers.new.items ≡ answers.old.items ++ decimal number) }
{
    answers.extend_from_slice(itoa::Buffer::new().format(number).as_bytes())?;
    Ok(())
}

/// Appends a text.
pub fn add_text(answers: &mut Vec<u8>, text: &[u8]) -> Added
    ensures { OnOk result (answers.new.items ≡ answers.old.items ++ text.now) }
{
    answers.extend_from_slice(text)?;
    Ok(())
}

/// Appends a text, a number and a line feed.
#[tactic(auto, using(std::proofs::lemmas::List::append_assoc))]
pub fn add_numbered(answers: &mut Vec<u8>, text: &[u8], number: usize) -> Added
    ensures { OnOk result (answers.new.items ≡ answers.old.items ++ line (text.now ++ decimal number)) }
{
    add_text(answers, text)?;
    add_number(answers, number as u64)?;
    answers.push(b'\n')?;
    Ok(())
}

/// Appends a text, two numbers with a space between them, and a line feed.
#[tactic(auto, using(std::proofs::lemmas::List::append_assoc))]
pub fn add_two_numbers(answers: &mut Vec<u8>, text: &[u8], first: u64, second: u64) -> Added
    ensures { OnOk result (answers.new.items ≡ answers.old.items
        ++ line (text.now ++ decimal first ++ codes " " ++ decimal second)) }
{
    add_text(answers, text)?;
    add_number(answers, first)?;
    answers.push(b' ')?;
    add_number(answers, second)?;
    answers.push(b'\n')?;
    Ok(())
}

/// Appends the answer to a line with the wrong form.
pub fn add_bad_line(answers: &mut Vec<u8>) -> Added
    ensures { OnOk result (answers.new.items ≡ answers.old.items ++ bad_line) }
{
    add_text(answers, b"fault script 1 BadLine\n")
}

/// Appends the answer to a word that isn't hexadecimal.
pub fn add_bad_hex(answers: &mut Vec<u8>) -> Added
    ensures { OnOk result (answers.new.items ≡ answers.old.items ++ bad_hex) }
{
    add_text(answers, b"fault script 3 BadHex\n")
}

/// The answer to an input or a line over the limits.
pub const TOO_LONG: &[u8] = b"fault script 5 TooLong\n";

/// Appends the answer to an input or a line over the limits.
pub fn add_too_long(answers: &mut Vec<u8>) -> Added
    ensures { OnOk result (answers.new.items ≡ answers.old.items ++ too_long) }
{
    add_text(answers, TOO_LONG)
}

/// Appends the answer to this number of octets, which aren't a cell.
pub fn add_wrong_length(answers: &mut Vec<u8>, octets: usize) -> Added
    ensures { OnOk result (answers.new.items ≡ answers.old.items ++ wrong_length octets) }
{
    add_numbered(answers, b"fault cell 1 WrongLength ", octets)
}

//! The programs that a script loaded, in the order of their names.

ghost use Rattle.std.specs.Prelude.{◌≡◌, ℕ, List, Some, IfOk, OnOk, option_map};
ghost use Rattle.bpf_code.specs.OctetSpelling.{SpellsCode};
ghost use Rattle.bpf_code.specs.declared.instr.Instr.{Instr as TheInstr};
ghost use Rattle.text_io.specs.Words.{words_of};
ghost use Rattle.text_script.specs.CommandSeen.{command_seen};
ghost use Rattle.text_script.specs.ScriptCommands.{command_of};
ghost use Rattle.text_words.specs.Hexadecimal.{octets_of_digits};
ghost use Rattle.cmd_explain_script.specs.ContractNumbers.{names_none};
ghost use Rattle.cmd_explain_script.specs.inner.ProgramsKept.{ProgramsAfter, is_loaded_answer, load_digits, loaded_digits};

use crate::contract_numbers::{NamesNoContract, names_none};
use crate::found_words::front;
use bpf_code::{DecodeFault, decode};
use std::alloc::{AllocError, Global};
use text_io::Added;
use text_script::{Command, read_command};
use text_words::octets_of_word;
use upc_cell::Side;

/// Returns whether an answer says that a program was loaded.
fn is_loaded_answer(answer: &[u8]) -> bool
    ensures { result ≡ is_loaded_answer answer.now }
{
    front(answer, 7) == b"loaded ".as_slice()
}

/// Returns the digits of a command `load HEX`.
fn digits_of(command: Command<'_>) -> Option<&[u8]>
    ensures { option_map (λ digits. digits.now) result ≡ load_digits (command_seen command.entry) }
{
    match command {
        Command::Load(digits) => Some(digits),
        Command::Setup(_, _, _) => None,
        Command::Retire(_) => None,
        Command::Reload(_, _) => None,
        Command::Release(_) => None,
        Command::Cut(_) => None,
        Command::Cell(_, _) => None,
    }
}

/// Returns the digits of a line `load HEX`.
fn load_digits(side: Side, line: &[u8]) -> Option<&[u8]>
    ensures { option_map (λ digits. digits.now) result ≡ load_digits (command_of side (words_of line.now)) }
{
    match read_command(side, line) {
        Some(command) => digits_of(command),
        None => None,
    }
}

/// Returns the digits of the program that a line with this answer loaded, if it loaded one.
fn loaded_digits<'a>(side: Option<Side>, line: &'a [u8], answer: &[u8]) -> Option<&'a [u8]>
    ensures { option_map (λ digits. digits.now) result ≡ loaded_digits side line.entry.now answer.now }
{
    match side {
        None => None,
        Some(side) => {
            if is_loaded_answer(answer) {
                load_digits(side, line)
            } else {
                None
            }
        }
    }
}

/// Returns for how many contracts the program of these digits names none, if the digits spell a program.
fn program_of_digits(alloc: Global, digits: &[u8]) -> Result<Option<NamesNoContract>, AllocError>
    ensures { (octets : List ℕ) (code : List TheInstr) → octets_of_digits digits.now ≡ Some octets → SpellsCode octets code
        → IfOk result (λ found. found ≡ Some (names_none code)) }
{
    let Some(octets) = octets_of_word(alloc, digits)? else {
        return Ok(None);
    };
    match decode(alloc, &octets) {
        Ok(code) => Ok(Some(names_none(&code))),
        Err(DecodeFault::NoMemory) => Err(AllocError),
        Err(_) => Ok(None),
    }
}

/// Adds what is kept of the program of these digits, if they spell one.
fn add_program(alloc: Global, programs: &mut Vec<NamesNoContract>, digits: &[u8]) -> Added
    ensures { OnOk result (ProgramsAfter (Some digits.now) programs.old.items programs.new.items) }
{
    match program_of_digits(alloc, digits)? {
        Some(program) => {
            programs.push(program)?;
            Ok(())
        }
        None => Ok(()),
    }
}

/// Adds what is kept of the program that a line loads, if it loads one. `answer` is the answer to the line, and `side` is that of the card,
/// or None before there is a card.
pub(crate) fn add_loaded(
    alloc: Global,
    programs: &mut Vec<NamesNoContract>,
    side: Option<Side>,
    line: &[u8],
    answer: &[u8],
) -> Added
    ensures { OnOk result (ProgramsAfter (loaded_digits side line.now answer.now) programs.old.items programs.new.items) }
{
    match loaded_digits(side, line, answer) {
        Some(digits) => add_program(alloc, programs, digits),
        None => Ok(()),
    }
}

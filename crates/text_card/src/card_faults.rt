//! The fault lines of a card, its rates and its desk, each added at the end of the answers.

ghost use Rattle.std.specs.Prelude.{◌≡◌, ◌≢◌, ◌++◌, OnOk};
ghost use Rattle.text_card.specs.CardFaults.{desk_fault, gcra_fault, no_card, no_such_program, shape_fault_line};
ghost use Rattle.text_card.specs.AddsSome.{AddsSome};

use card_core::{CardFault, DeskFault};
use leaky::GcraFault;
use std::alloc::AllocError;
use text_io::Added;
use text_words::add_text;

/// Adds the answer to a script that opens no card.
pub fn add_no_card(answers: &mut Vec<u8>) -> Added
    ensures { OnOk result (answers.new.items ≡ answers.old.items ++ no_card) }
{
    add_text(answers, b"fault script 2 NoCard\n")
}

/// Adds the answer to a command with a name that no program was given: `NoProgram`, which the desk also answers.
pub fn add_no_such_program(answers: &mut Vec<u8>) -> Added
    ensures { OnOk result (answers.new.items ≡ answers.old.items ++ no_such_program) }
{
    add_desk_fault(answers, DeskFault::NoProgram)
}

/// Adds the answer to a command in which two numbers are no rate.
pub fn add_gcra_fault(answers: &mut Vec<u8>, fault: GcraFault) -> Added
    ensures { OnOk result (answers.new.items ≡ answers.old.items ++ gcra_fault fault) }
{
    match fault {
        GcraFault::ZeroIncrement => add_text(answers, b"fault gcra 1 ZeroIncrement\n"),
        GcraFault::TooLarge => add_text(answers, b"fault gcra 2 TooLarge\n"),
    }
}

/// Adds the answer to a shape that no card has.
///
/// # Errors
///
/// `AllocError` if an allocation failed, here or for the card.
pub fn add_shape_fault(answers: &mut Vec<u8>, fault: CardFault) -> Added
    ensures of_shape { OnOk result (fault ≢ CardFault.NoMemory) }
    ensures text { OnOk result (answers.new.items ≡ answers.old.items ++ shape_fault_line fault) }
{
    match fault {
        CardFault::Programs => add_text(answers, b"fault shape 1 Programs\n"),
        CardFault::Lines => add_text(answers, b"fault shape 2 Lines\n"),
        CardFault::Ports => add_text(answers, b"fault shape 3 Ports\n"),
        CardFault::Journal => add_text(answers, b"fault shape 4 Journal\n"),
        CardFault::NoMemory => Err(AllocError),
    }
}

/// Adds the answer to a command that the desk refuses.
///
/// # Errors
///
/// `AllocError` if an allocation failed, here or at the desk.
pub fn add_desk_fault(answers: &mut Vec<u8>, fault: DeskFault) -> Added
    ensures { OnOk result (AddsSome (desk_fault fault) answers.old.items answers.new.items) }
{
    match fault {
        DeskFault::NoProgram => add_text(answers, b"fault desk 1 NoProgram\n"),
        DeskFault::NoConnection => add_text(answers, b"fault desk 2 NoConnection\n"),
        DeskFault::Taken => add_text(answers, b"fault desk 3 Taken\n"),
        DeskFault::NoLine => add_text(answers, b"fault desk 4 NoLine\n"),
        DeskFault::InUse => add_text(answers, b"fault desk 5 InUse\n"),
        DeskFault::ProgramsFull => add_text(answers, b"fault desk 6 ProgramsFull\n"),
        DeskFault::Exhausted => add_text(answers, b"fault desk 7 Exhausted\n"),
        DeskFault::BadContracts => add_text(answers, b"fault desk 8 BadContracts\n"),
        DeskFault::Busy => add_text(answers, b"fault desk 9 Busy\n"),
        DeskFault::NoMemory => Err(AllocError),
        DeskFault::Stale => add_text(answers, b"fault desk 11 Stale\n"),
    }
}

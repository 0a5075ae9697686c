//! What the program says if its input is a terminal, because nothing else shows that it waits for input.

ghost use Rattle.std.specs.Prelude.{◌≡◌, Some};
ghost use Rattle.text_command_line.specs.Choice.{choice_named};
ghost use Rattle.text_command_line.specs.Notice.{name_of, notice};

use crate::choice::Choice;

/// Returns the notice for a choice, which begins with the name of its subcommand.
pub fn awaited(choice: Choice) -> &'static str
    ensures text { result.now ≡ notice choice }
    ensures named { choice_named (name_of choice) ≡ Some choice }
{
    match choice {
        Choice::Check => "upc check: reading the source of a program from the terminal, to its end",
        Choice::Eval =>
            "upc eval: reading a program and cells from the terminal, a line each, to the end",
        Choice::Run =>
            "upc run: reading a script of a card from the terminal, a line each, to the end",
        Choice::Ports =>
            "upc ports: reading a script of a card from the terminal, to its end; the answers come then",
    }
}

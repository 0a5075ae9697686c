//! What the words of `upc` choose: one of its subcommands, each with its help.

ghost use Rattle.std.specs.Prelude.{◌≡◌, [], Err, IfErr, IfOk, Ok, map, unwrap_or};
ghost use Rattle.std.specs.String.{string_bytes};
ghost use Rattle.text_command_line.specs.Choice.{IsChosen, NamesSubcommand, faults_in};
ghost use Rattle.text_command_line.specs.Stopping.{StopsAt};

use crate::stop::Stop;
use crate::subcommands::{Program, Row, row_of_words};
use crate::version::VERSION;
use std::alloc::Global;

/// What the program should do: one choice for each subcommand.
#[derive(Clone, Copy, Debug, PartialEq, Eq)]
pub enum Choice {
    /// Assemble the source of one BPF program, check it, and print its octets.
    Check,
    /// Run one BPF program on each cell of the input, and print its value and steps.
    Eval,
    /// Run a script that sets up a card and its connections and brings cells, and print what happens to each cell.
    Run,
    /// Run such a script with a thread for each port of its card, and print the answers and the totals.
    Ports,
}

/// The program, without its subcommands.
const UPC: Program = Program {
    name: "upc",
    version: VERSION,
    about: "Usage parameter control of ATM cells by BPF programs",
    after_help: "Without a word upc does what `upc eval` does. All read standard input, to its end.",
    wants_one: false,
};

/// Its subcommands.
const SUBCOMMANDS: [Row<Choice>; 4] = [
    Row {
        name: "check",
        about: "Assemble and check a BPF program and print its octets",
        example: None,
        means: Choice::Check,
    },
    Row {
        name: "eval",
        about: "Run a BPF program on each ATM cell and print its value and steps",
        example: None,
        means: Choice::Eval,
    },
    Row {
        name: "run",
        about: "Police the ATM cells of a script by its programs and contracts",
        example: None,
        means: Choice::Run,
    },
    Row {
        name: "ports",
        about: "Police such cells at the card's ports, with a thread for each",
        example: None,
        means: Choice::Ports,
    },
];

/// Reads the words after the program's name. The one word is the name of a subcommand; no word means `eval`. Each word by which
/// `clap` offers help requests help, and `--version` and `-V` the version. Any other word and any further word is an error. As everywhere
/// in `clap`, `--` ends the options and isn't a word itself, so it may be last.
pub fn choose(alloc: Global, words: Vec<String>) -> Result<Choice, Stop>
    ensures chosen { IfOk result (IsChosen (map string_bytes words.items)) }
    ensures faultless { IfOk result (λ _. faults_in (map string_bytes words.items) ≡ []) }
    ensures asked { IfOk result (NamesSubcommand (map string_bytes words.items)) }
    ensures stopped { IfErr result (StopsAt (faults_in (map string_bytes words.items))) }
    ensures taken { faults_in (map string_bytes words.items) ≡ []
        → IfErr result (λ stop. stop ≡ Stop.NoMemory) }
    ensures granted { (choice : Choice) → NamesSubcommand (map string_bytes words.items) choice
        → IfErr result (λ stop. stop ≡ Stop.NoMemory) }
{
    choice_of(row_of_words(alloc, &UPC, &SUBCOMMANDS, words))
}

/// Returns the choice of a row; no row means `eval`.
fn choice_of(row: Result<Option<Choice>, Stop>) -> Result<Choice, Stop>
    ensures chosen { IfOk row (λ row. result ≡ Ok (unwrap_or row Choice.Eval)) }
    ensures stopped { IfErr row (λ stop. result ≡ Err stop) }
{
    match row {
        Ok(None) => Ok(Choice::Eval),
        Ok(Some(choice)) => Ok(choice),
        Err(stop) => Err(stop),
    }
}

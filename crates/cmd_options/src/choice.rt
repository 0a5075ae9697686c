//! What the words of the command line ask for.

ghost use Rattle.std.specs.Prelude.{◌≡◌, [], Err, IfErr, IfOk, IsOkAnd, IsSome, IsSomeAnd, None, Some, drop, map};
ghost use Rattle.std.specs.String.{string_bytes};
ghost use Rattle.cmd_options.specs.LabWords.{AsksLab, IsLabStop, begun_by, lab_faults_in};
ghost use Rattle.cmd_options.specs.inner.LabAnswers.{LabAnswers};
ghost use Rattle.cmd_options.specs.declared.choice.Asked.{Asked as TheAsked};

use crate::cells::{CellsOptions, cells_options};
use crate::differ::{DifferOptions, differ_options};
use crate::explain::{ExplainOptions, explain_options};
use crate::fit::{FitOptions, fit_options};
use crate::forward::{ForwardOptions, forward_options};
use crate::help_words::{WithOptions, begun_by, help_on, with_options_shown};
use crate::police::{PoliceOptions, police_options};
use crate::why::{WhyOptions, why_options};
use std::alloc::Global;
use text_command_line::{Program, Row, Stop, VERSION, row_of_words};

/// A subcommand without options.
#[derive(Clone, Copy, PartialEq, Eq)]
pub enum Subcommand {
    /// Compile a text of rules, and print the octets of their program.
    Rules,
    /// Compile a text of rules, and print the source of their program.
    Asm,
    /// Print which rules of a text decide no cell.
    Unused,
    /// Print the listing of a program, with the octets of each instruction.
    List,
    /// Run a program on cells, and print each step.
    Trace,
    /// Print the buckets of contracts, and the rates that they police.
    Size,
    /// Print the links of a capture.
    Links,
}

/// What the program should do.
#[derive(Drop)]
pub enum Asked {
    /// Run a subcommand without options.
    Plain(Subcommand),
    /// Read a text of rules and then cells, and print which rule decides each cell.
    Why(WhyOptions),
    /// Print the cells of a capture as lines of a script.
    Cells(CellsOptions),
    /// Print the least limit of each connection of a capture.
    Fit(FitOptions),
    /// Print the verdicts on the cells of a capture.
    Police(PoliceOptions),
    /// Print for which cells two texts of rules, or programs, differ.
    Differ(DifferOptions),
    /// Write the records of a capture whose cells pass or are tagged.
    Forward(ForwardOptions),
    /// Print the faults of a script, a setup, a source or rules, each with its line and column and a sentence.
    Explain(ExplainOptions),
}

/// The program, without its subcommands.
const LAB: Program = Program {
    name: "upc-lab",
    version: VERSION,
    about: "Rules for classes of ATM cells, the programs of upc, and the contracts that it polices",
    after_help: "All read standard input, to its end.",
    wants_one: true,
};

/// The subcommands of `upc-lab`. One with options has a command of its own, which reads its words; its row here only lists it in the help.
const SUBCOMMANDS: [Row<Option<Subcommand>>; 14] = [
    Row {
        name: "rules",
        about: "Compile rules for cells and print the octets of their program",
        example: Some("Example: printf 'vpi 1 and vci 32..127 -> 1\\n' | upc-lab rules"),
        means: Some(Subcommand::Rules),
    },
    Row {
        name: "asm",
        about: "Compile rules for cells and print their program in assembly, with the rules as comments",
        example: Some("Example: upc-lab asm < examples/customer.rules"),
        means: Some(Subcommand::Asm),
    },
    Row {
        name: "unused",
        about: "Print which rules decide no cell, and which rules take their cells",
        example: Some("Example: upc-lab unused < examples/customer.rules"),
        means: Some(Subcommand::Unused),
    },
    Row {
        name: "list",
        about: "List a program in hexadecimal, with the octets of each instruction",
        example: Some("Example: echo 0006000000000007 | upc-lab list"),
        means: Some(Subcommand::List),
    },
    Row {
        name: "trace",
        about: "Run a program in hexadecimal on cells, and print each step",
        example: Some("Example: upc-lab trace < examples/customer.eval"),
        means: Some(Subcommand::Trace),
    },
    Row {
        name: "size",
        about: "Print the buckets of contracts on paper, and the rates that they police",
        example: Some("Example: echo cbr1 pcr 353207 cdvt 250us tick 100ns | upc-lab size"),
        means: Some(Subcommand::Size),
    },
    Row {
        name: "links",
        about: "Print the links of a capture, with their cells, times and losses",
        example: Some("Example: examples/make-capture | upc-lab links"),
        means: Some(Subcommand::Links),
    },
    Row {
        name: "why",
        about: "Read rules, a line `cells` and cells, and print which rule decides each",
        example: Some("It has an option: `upc-lab why --help` lists it"),
        means: None,
    },
    Row {
        name: "cells",
        about: "Print the ATM cells of a capture of a link as lines of a script",
        example: Some("It has options: `upc-lab cells --help` lists them"),
        means: None,
    },
    Row {
        name: "fit",
        about: "Print the least limit under which all cells of each connection of a capture conform",
        example: Some("It has options: `upc-lab fit --help` lists them"),
        means: None,
    },
    Row {
        name: "police",
        about: "Police the ATM cells of a capture by the contracts of a setup script",
        example: Some("It has options: `upc-lab police --help` lists them"),
        means: None,
    },
    Row {
        name: "forward",
        about: "Write the records of a capture whose cells pass by the contracts of a setup script",
        example: Some("It has options: `upc-lab forward --help` lists them"),
        means: None,
    },
    Row {
        name: "differ",
        about: "Compare two texts of rules, or programs, and print for which cells their values differ",
        example: Some("It has options: `upc-lab differ --help` lists them"),
        means: None,
    },
    Row {
        name: "explain",
        about: "Explain the faults of a script, or after a line `source` or `rules` that of a source or of rules",
        example: Some("It has an option: `upc-lab explain --help` lists it"),
        means: None,
    },
];

/// Reads the words after the program's name: the name of a subcommand, and its options if it has any. The forms of help that `clap` has
/// request help. Any other word, any further word and no word is an error. As everywhere in `clap`, `--` ends the options and isn't a word
/// itself, so it may be last.
pub fn choose(alloc: Global, words: Vec<String>) -> Result<Asked, Stop>
    ensures asked { IfOk result (AsksLab (map string_bytes words.items)) }
    // Words that begin with no name of a subcommand with options are read without an error if and only if clap finds none in them.
    ensures faultless { begun_by (map string_bytes words.items) ≡ None → IfOk result (λ _. lab_faults_in (map string_bytes words.items) ≡ []) }
    ensures stopped { IfErr result (IsLabStop (map string_bytes words.items)) }
    ensures taken { begun_by (map string_bytes words.items) ≡ None → lab_faults_in (map string_bytes words.items) ≡ []
        → IfErr result (λ stop. stop ≡ Stop.NoMemory) }
    ensures granted { (asked : TheAsked) → AsksLab (map string_bytes words.items) asked
        → IfErr result (λ stop. stop ≡ Stop.NoMemory) }
{
    match begun_by(words.as_slice()) {
        Some(WithOptions::Why) => match why_options(alloc, without_first(words)) {
            Ok(options) => Ok(Asked::Why(options)),
            Err(stop) => Err(stop),
        },
        Some(WithOptions::Cells) => match cells_options(alloc, without_first(words)) {
            Ok(options) => Ok(Asked::Cells(options)),
            Err(stop) => Err(stop),
        },
        Some(WithOptions::Fit) => match fit_options(alloc, without_first(words)) {
            Ok(options) => Ok(Asked::Fit(options)),
            Err(stop) => Err(stop),
        },
        Some(WithOptions::Police) => match police_options(alloc, without_first(words)) {
            Ok(options) => Ok(Asked::Police(options)),
            Err(stop) => Err(stop),
        },
        Some(WithOptions::Forward) => match forward_options(alloc, without_first(words)) {
            Ok(options) => Ok(Asked::Forward(options)),
            Err(stop) => Err(stop),
        },
        Some(WithOptions::Differ) => match differ_options(alloc, without_first(words)) {
            Ok(options) => Ok(Asked::Differ(options)),
            Err(stop) => Err(stop),
        },
        Some(WithOptions::Explain) => match explain_options(alloc, without_first(words)) {
            Ok(options) => Ok(Asked::Explain(options)),
            Err(stop) => Err(stop),
        },
        None => {
            let subject = help_on(words.as_slice());
            match choose_plain(alloc, words) {
                Ok(subcommand) => Ok(Asked::Plain(subcommand)),
                Err(stop) => Err(with_options_shown(alloc, subject, stop)),
            }
        }
    }
}

/// Removes the first word, if there is one.
fn without_first(mut words: Vec<String>) -> Vec<String>
    ensures { map string_bytes result.items ≡ drop 1 (map string_bytes words.items) }
{
    if !words.is_empty() {
        words.remove(0);
    }
    words
}

/// Reads words that begin with no name of a subcommand with options: the name of one without.
fn choose_plain(alloc: Global, words: Vec<String>) -> Result<Subcommand, Stop>
    requires { begun_by (map string_bytes words.items) ≡ None }
    ensures { LabAnswers (map string_bytes words.items) result }
{
    subcommand_of(row_of_words(alloc, &LAB, &SUBCOMMANDS, words))
}

/// Returns the subcommand of a row.
fn subcommand_of(row: Result<Option<Option<Subcommand>>, Stop>) -> Result<Subcommand, Stop>
    requires { IfOk row (λ row. IsSomeAnd row (λ meaning. IsSome meaning)) }
    ensures named { IfOk row (λ row. IsOkAnd result (λ subcommand. row ≡ Some (Some subcommand))) }
    ensures stopped { IfErr row (λ stop. result ≡ Err stop) }
{
    match row {
        Ok(row) => Ok(row.unwrap().unwrap()),
        Err(stop) => Err(stop),
    }
}

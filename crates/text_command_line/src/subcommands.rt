//! Commands whose subcommands take no arguments, read by the crate `clap`.

ghost use Rattle.std.specs.Prelude.{◌≡◌, [], ◌∷◌, true, IfErr, IfOk, IfSome, IsErrAnd, IsOkAnd, IsSome, map, option_map};
ghost use Rattle.std.specs.String.{string_bytes};
ghost use Rattle.clap.specs.Values.{kind_of};
ghost use Rattle.clap.specs.Faults.{fault_of, is_simple_and_free};
ghost use Rattle.clap.specs.Simple.{app_of, is_simple, subcommand_of};
ghost use Rattle.clap.specs.Kinds.{FailsBy};
ghost use Rattle.text_command_line.specs.CommandLines.{kinds_in, subcommand_in};
ghost use Rattle.text_command_line.specs.PlainCommands.{is_plain_command};
ghost use Rattle.text_command_line.specs.Stopping.{StopsAt};
ghost use Rattle.text_command_line.specs.inner.StopFor.{IsStopFor};
ghost use Rattle.text_command_line.specs.Subcommands.{IsRowIn, NamesIn, NamesRow, app_of_rows, bare_app, meaning_in, table_of_rows, with_name};

use crate::line::line_of;
use crate::stop::{Stop, stop_for};
use clap::{Command, Error};
use std::alloc::{AllocError, Global};

/// The name, the version and the help of a program, without its subcommands.
#[derive(Clone, Copy)]
pub struct Program {
    /// Its name.
    pub name: &'static str,
    /// Its version, which `--version` and `-V` print after the name.
    pub version: &'static str,
    /// What it does, as help says.
    pub about: &'static str,
    /// The end of its help.
    pub after_help: &'static str,
    /// Whether words without a subcommand are an error.
    pub wants_one: bool,
}

/// A subcommand without arguments, and what it means to the program.
#[derive(Clone, Copy)]
pub struct Row<T> {
    /// Its name.
    pub name: &'static str,
    /// What it does, as help says.
    pub about: &'static str,
    /// The end of its help, if there is one.
    pub example: Option<&'static str>,
    /// What it means.
    pub means: T,
}

/// Reads the words after the name of a program. The one word is the name of a row, and the answer is what that row
/// means; None if there is no word. Each word by which `clap` offers help requests help, and `--version` and `-V` the
/// version. Any other word and any further word is an error. As everywhere in `clap`, `--` ends the options and isn't a
/// word itself, so it may be last.
pub fn row_of_words<T: Copy>(
    alloc: Global,
    program: &Program,
    rows: &[Row<T>],
    words: Vec<String>,
) -> Result<Option<T>, Stop>
    requires { is_plain_command (app_of_rows program.now rows.now) (table_of_rows rows.now) ≡ true }
    ensures found { IfOk result (IsRowIn (table_of_rows rows.now) (subcommand_in (app_of_rows program.now rows.now) (map string_bytes words.items))) }
    ensures faultless { IfOk result (λ _. kinds_in (app_of_rows program.now rows.now) (map string_bytes words.items) ≡ []) }
    ensures asked { IfOk result (NamesIn (table_of_rows rows.now) (map string_bytes words.items)) }
    ensures stopped { IfErr result (StopsAt (kinds_in (app_of_rows program.now rows.now) (map string_bytes words.items))) }
    ensures taken { kinds_in (app_of_rows program.now rows.now) (map string_bytes words.items) ≡ []
        → IfErr result (λ stop. stop ≡ Stop.NoMemory) }
    ensures granted { (meaning : T) → NamesRow (table_of_rows rows.now) (map string_bytes words.items) meaning
        → IfErr result (λ stop. stop ≡ Stop.NoMemory) }
{
    let Ok(line) = line_of(alloc, program.name, words) else {
        return Err(Stop::NoMemory);
    };
    let Ok(command) = command_of(alloc, program, rows) else {
        return Err(Stop::NoMemory);
    };
    let found = found_in(command, line.as_slice());
    answer_to(alloc, rows, found)
}

/// Returns the command with its subcommands.
#[tactic(auto, unfolding(crate::specs::Subcommands::app_with))]
fn command_of<'a, T: Copy>(
    alloc: Global,
    program: &Program,
    rows: &[Row<T>],
) -> Result<Command<'a>, AllocError>
    ensures { IfOk result (λ command. app_of command ≡ app_of_rows program.now rows.now) }
{
    let mut command = bare_command(alloc, program);
    let mut left = rows;
    while let [row, rest @ ..] = left {
        command = with_row(alloc, command, row.name, row.about, row.example)?;
        left = rest;
    }
    Ok(command)
}

fn bare_command<'a>(alloc: Global, program: &Program) -> Command<'a>
    ensures { app_of result ≡ bare_app program.now.name.now program.now.wants_one }
{
    Command::new(alloc, program.name)
        .version(program.version)
        .about(program.about)
        .after_help(program.after_help)
        .subcommand_required(program.wants_one)
}

#[tactic(auto, unfolding(crate::specs::Subcommands::with_name))]
fn with_row<'a>(
    alloc: Global,
    command: Command<'a>,
    name: &'static str,
    about: &'static str,
    example: Option<&'static str>,
) -> Result<Command<'a>, AllocError>
    ensures { IfOk result (λ more. app_of more ≡ with_name (app_of command.entry) name.entry.now) }
{
    let named = Command::new(alloc, name).about(about);
    match example {
        Some(example) => command.subcommand(named.after_help(example)),
        None => command.subcommand(named),
    }
}

/// Returns the name of the subcommand in the words, if `clap` accepts them.
fn found_in<'a>(command: Command<'a>, line: &'a [String]) -> Result<Option<&'a str>, Error>
    ensures kinds { is_simple_and_free (app_of command.entry) ≡ true → FailsBy (fault_of (app_of command.entry) (map string_bytes line.entry.now)) result }
    ensures name { is_simple (app_of command.entry) ≡ true → IfOk result (λ name. option_map (λ text. text.now) name
        ≡ option_map (λ found. found.0) (subcommand_of (app_of command.entry) (map string_bytes line.entry.now))) }
{
    match command.try_get_matches_from(line) {
        Ok(matches) => Ok(matches.subcommand_name()),
        Err(error) => Err(error),
    }
}

fn answer_to<T: Copy>(
    alloc: Global,
    rows: &[Row<T>],
    found: Result<Option<&str>, Error>,
) -> Result<Option<T>, Stop>
    requires { IfOk found (λ name. IfSome name (λ text. IsSome (meaning_in (table_of_rows rows.now) text.now))) }
    ensures named { IfOk found.entry (λ name. IsOkAnd result (IsRowIn (table_of_rows rows.now) (option_map (λ text. text.now) name))) }
    ensures stopped { IfErr found.entry (λ error. IsErrAnd result (IsStopFor (kind_of error))) }
{
    match found {
        Ok(None) => Ok(None),
        Ok(Some(name)) => Ok(Some(meaning_in(rows, name).unwrap())),
        Err(error) => Err(stop_for(alloc, error)),
    }
}

/// Returns what the row with this name means.
fn meaning_in<T: Copy>(rows: &[Row<T>], name: &str) -> Option<T>
    ensures { result ≡ meaning_in (table_of_rows rows.now) name.now }
{
    let mut left = rows;
    while let [row, rest @ ..] = left {
        if row.name == name {
            return Some(row.means);
        }
        left = rest;
    }
    None
}

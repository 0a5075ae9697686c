//! Commands with options, read by the crate `clap`.

ghost use Rattle.std.specs.Prelude.{◌≡◌, [], false, true, IfErr, IfOk, map, option_map};
ghost use Rattle.std.specs.String.{string_bytes};
ghost use Rattle.clap.specs.Faults.{fault_of, is_simple_and_free};
ghost use Rattle.clap.specs.Kinds.{FailsBy};
ghost use Rattle.clap.specs.Matches.{first_value, found_of};
ghost use Rattle.clap.specs.Simple.{HasMatchesOf, app_of, with_rule};
ghost use Rattle.clap.specs.Walk.{rule_of};
ghost use Rattle.text_command_line.specs.Arguments.{app_of_options, rule_of_argument, text_named, texts_by, texts_in, texts_of};
ghost use Rattle.text_command_line.specs.CommandLines.{kinds_in};
ghost use Rattle.text_command_line.specs.Stopping.{StopsAt};

use crate::line::line_of;
use crate::stop::{Stop, stop_for};
use clap::{Arg, ArgAction, ArgMatches, Command, Error};
use std::alloc::{AllocError, Global};

/// The form of an argument.
#[derive(Clone, Copy)]
pub enum Form {
    /// A word that isn't an option.
    Word,
    /// An option with a value, `--NAME VALUE`. The text is what help calls the value.
    Valued(&'static str),
    /// An option without a value, `--NAME`. What is read as its value is `true` if it is given, and `false` otherwise.
    Flag,
}

/// An argument of a command.
#[derive(Clone, Copy)]
pub struct Argument {
    /// Its name.
    pub name: &'static str,
    /// Whether it is an option, and whether the option has a value.
    pub form: Form,
    /// Its value if it isn't given.
    pub default: Option<&'static str>,
    /// Whether it must be given.
    pub required: bool,
    /// What it is, as help says.
    pub help: &'static str,
}

/// A command with arguments.
#[derive(Clone, Copy)]
pub struct Options {
    /// Its name.
    pub name: &'static str,
    /// What it does, as help says.
    pub about: &'static str,
    /// The end of its help.
    pub after_help: &'static str,
    /// Its arguments.
    pub arguments: &'static [Argument],
}

/// The value of an argument.
#[derive(Drop)]
pub struct Value {
    /// The name of the argument.
    pub name: &'static str,
    /// Its value, if it has one.
    pub text: Option<String>,
}

/// Returns the value of the argument with this name.
pub fn text_of<'a>(values: &'a [Value], name: &str) -> Option<&'a str>
    ensures { option_map (λ text. text.now) result ≡ text_named (texts_of values.now) name.now }
{
    let mut left = values;
    while let [value, rest @ ..] = left {
        if value.name == name {
            return match &value.text {
                Some(text) => Some(text.as_str()),
                None => None,
            };
        }
        left = rest;
    }
    None
}

/// Reads the words after the name of a command: its arguments, each with its value. Each word by which `clap` offers help
/// requests help. Any other word is an error, and so are words without an argument that is required.
pub fn values_of_words(
    alloc: Global,
    options: &Options,
    words: Vec<String>,
) -> Result<Vec<Value>, Stop>
    requires { is_simple_and_free (app_of_options options.now) ≡ true }
    ensures faultless { IfOk result (λ _. kinds_in (app_of_options options.now) (map string_bytes words.items) ≡ []) }
    ensures values { IfOk result (λ values. texts_of values.items ≡ texts_in options.now (map string_bytes words.items)) }
    ensures stopped { IfErr result (StopsAt (kinds_in (app_of_options options.now) (map string_bytes words.items))) }
    ensures taken { kinds_in (app_of_options options.now) (map string_bytes words.items) ≡ []
        → IfErr result (λ stop. stop ≡ Stop.NoMemory) }
{
    let Ok(line) = line_of(alloc, options.name, words) else {
        return Err(Stop::NoMemory);
    };
    let Ok(command) = command_of(alloc, options) else {
        return Err(Stop::NoMemory);
    };
    match found_in(command, line.as_slice()) {
        Ok(matches) => match copied(alloc, options.arguments, &matches) {
            Ok(values) => Ok(values),
            Err(_) => Err(Stop::NoMemory),
        },
        Err(error) => Err(stop_for(alloc, error)),
    }
}

/// Returns the matches of the words, if `clap` accepts them.
fn found_in<'a>(command: Command<'a>, line: &'a [String]) -> Result<ArgMatches<'a>, Error>
    ensures kinds { is_simple_and_free (app_of command.entry) ≡ true → FailsBy (fault_of (app_of command.entry) (map string_bytes line.entry.now)) result }
    ensures matches { IfOk result (HasMatchesOf (app_of command.entry) (map string_bytes line.entry.now)) }
{
    command.try_get_matches_from(line)
}

/// Returns the command with its arguments.
#[tactic(auto, unfolding(crate::specs::Arguments::app_with_rules))]
fn command_of<'a>(alloc: Global, options: &Options) -> Result<Command<'a>, AllocError>
    ensures { IfOk result (λ command. app_of command ≡ app_of_options options.now) }
{
    let mut command = Command::new(alloc, options.name)
        .about(options.about)
        .after_help(options.after_help);
    let mut left = options.arguments;
    while let [argument, rest @ ..] = left {
        command = with_argument(alloc, command, argument)?;
        left = rest;
    }
    Ok(command)
}

fn with_argument<'a>(
    alloc: Global,
    command: Command<'a>,
    argument: &Argument,
) -> Result<Command<'a>, AllocError>
    ensures { IfOk result (λ more. app_of more ≡ with_rule (app_of command.entry) (rule_of_argument argument.now)) }
{
    command.arg(arg_of(alloc, argument))
}

fn arg_of<'a>(alloc: Global, argument: &Argument) -> Arg<'a>
    ensures rule { rule_of result ≡ rule_of_argument argument.now }
    ensures own { result.global ≡ false }
{
    let arg = Arg::new(alloc, argument.name)
        .required(argument.required)
        .help(argument.help);
    let arg = match argument.form {
        Form::Word => arg,
        Form::Valued(value_name) => arg.long(argument.name).value_name(value_name),
        Form::Flag => arg.long(argument.name).action(ArgAction::SetTrue),
    };
    match argument.default {
        Some(value) => arg.default_value(value),
        None => arg,
    }
}

/// Copies the values of these arguments out of what `clap` found.
#[tactic(auto, using(std::proofs::lemmas::List::append_assoc))]
fn copied(
    alloc: Global,
    arguments: &[Argument],
    matches: &ArgMatches,
) -> Result<Vec<Value>, AllocError>
    ensures { IfOk result (λ values. texts_of values.items ≡ texts_by (first_value (found_of matches.now)) arguments.now) }
{
    let mut values = Vec::new(alloc);
    let mut left = arguments;
    while let [argument, rest @ ..] = left {
        let text = owned(alloc, matches.get_str(argument.name))?;
        values.push(Value {
            name: argument.name,
            text,
        })?;
        left = rest;
    }
    Ok(values)
}

fn owned(alloc: Global, text: Option<&str>) -> Result<Option<String>, AllocError>
    ensures { IfOk result (λ copy. option_map string_bytes copy ≡ option_map (λ text. text.now) text.entry) }
{
    match text {
        Some(text) => Ok(Some(String::from_str(alloc, text)?)),
        None => Ok(None),
    }
}

//! The subcommands with options, and the help on them: `upc-lab help NAME` prints what `upc-lab NAME --help` prints.

ghost use Rattle.std.specs.Prelude.{◌≡◌, map};
ghost use Rattle.std.specs.String.{string_bytes};
ghost use Rattle.clap.specs.Kinds.{Kinds};
ghost use Rattle.text_command_line.specs.Stopping.{StopsAt};
ghost use Rattle.cmd_options.specs.LabWords.{begun_by, with_options_named};

use crate::cells::cells_options;
use crate::differ::differ_options;
use crate::explain::explain_options;
use crate::fit::fit_options;
use crate::forward::forward_options;
use crate::police::police_options;
use crate::why::why_options;
use std::alloc::Global;
use text_command_line::Stop;

/// A subcommand with options.
#[derive(Clone, Copy)]
pub enum WithOptions {
    /// `why`.
    Why,
    /// `cells`.
    Cells,
    /// `fit`.
    Fit,
    /// `police`.
    Police,
    /// `forward`.
    Forward,
    /// `differ`.
    Differ,
    /// `explain`.
    Explain,
}

/// Returns the subcommand with options that has this name.
fn with_options_named(name: &[u8]) -> Option<WithOptions>
    ensures { result ≡ with_options_named name.now }
{
    if b"why".as_slice() == name {
        Some(WithOptions::Why)
    } else if b"cells".as_slice() == name {
        Some(WithOptions::Cells)
    } else if b"fit".as_slice() == name {
        Some(WithOptions::Fit)
    } else if b"police".as_slice() == name {
        Some(WithOptions::Police)
    } else if b"forward".as_slice() == name {
        Some(WithOptions::Forward)
    } else if b"differ".as_slice() == name {
        Some(WithOptions::Differ)
    } else if b"explain".as_slice() == name {
        Some(WithOptions::Explain)
    } else {
        None
    }
}

/// Returns the subcommand with options with whose name the words begin, if they do.
pub(crate) fn begun_by(words: &[String]) -> Option<WithOptions>
    ensures { result ≡ begun_by (map string_bytes words.now) }
{
    match words {
        [word, ..] => with_options_named(word.as_bytes()),
        [] => None,
    }
}

/// Returns the subcommand with options on which the words `help NAME` ask for help.
pub(crate) fn help_on(words: &[String]) -> Option<WithOptions> {
    match words {
        [help, name] if help.as_bytes() == b"help".as_slice() => {
            with_options_named(name.as_bytes())
        }
        _ => None,
    }
}

/// Replaces the short help on a subcommand with options by the subcommand's own help, which lists its options. Any other `Stop` stays.
pub(crate) fn with_options_shown(alloc: Global, subject: Option<WithOptions>, stop: Stop) -> Stop
    ensures alike { (kinds : Kinds) → StopsAt kinds stop → StopsAt kinds result }
    ensures memory { stop ≡ Stop.NoMemory → result ≡ Stop.NoMemory }
{
    let Stop::Help(short) = stop else {
        return stop;
    };
    match own_help(alloc, subject) {
        Some(Stop::Help(text)) => Stop::Help(text),
        Some(Stop::NoMemory) => Stop::NoMemory,
        _ => Stop::Help(short),
    }
}

/// Returns what the subcommand answers to `--help`.
fn own_help(alloc: Global, subject: Option<WithOptions>) -> Option<Stop> {
    let subject = subject?;
    let mut words = Vec::new(alloc);
    let Ok(word) = String::from_str(alloc, "--help") else {
        return Some(Stop::NoMemory);
    };
    if words.push(word).is_err() {
        return Some(Stop::NoMemory);
    }
    match subject {
        WithOptions::Why => why_options(alloc, words).err(),
        WithOptions::Cells => cells_options(alloc, words).err(),
        WithOptions::Fit => fit_options(alloc, words).err(),
        WithOptions::Police => police_options(alloc, words).err(),
        WithOptions::Forward => forward_options(alloc, words).err(),
        WithOptions::Differ => differ_options(alloc, words).err(),
        WithOptions::Explain => explain_options(alloc, words).err(),
    }
}

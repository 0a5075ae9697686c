//! The argument and the options of `upc-lab differ`.

ghost use Rattle.std.specs.Prelude.{map};
ghost use Rattle.std.specs.String.{string_bytes};
ghost use Rattle.text_command_line.specs.Arguments.{texts_of};
ghost use Rattle.cmd_options.specs.DifferOptions.{differ_app, differ_asked, differ_asked_by};
ghost use Rattle.cmd_options.specs.OptionAnswers.{AnswersWords};
ghost use Rattle.cmd_options.specs.inner.Answered.{AnswersValues, differ_spelled};

use crate::programs::{Programs, programs_of};
use crate::values::{WRONG_OLD, WRONG_PAIRS, WRONG_PROGRAM, old_name_of, pairs_of, spelled};
use std::alloc::Global;
use text_command_line::{Argument, Form, Options, Stop, Value, values_of_words};

/// What `upc-lab differ` should do.
#[derive(Drop)]
pub struct DifferOptions {
    /// The name of the file with the old text.
    pub old: String,
    /// Whether pairs of lines whose values agree are listed too.
    pub all: bool,
    /// Which of the texts are programs.
    pub programs: Programs,
}

const OLD: Argument = Argument {
    name: "OLD",
    form: Form::Word,
    default: None,
    required: true,
    help: "A file with the rules, or the program, before the change",
};

const PAIRS: Argument = Argument {
    name: "lines",
    form: Form::Valued("LINES"),
    default: Some("changed"),
    required: false,
    help: "The pairs of lines that are listed: changed, whose values differ, or all that aren't the same line",
};

const PROGRAM: Argument = Argument {
    name: "program",
    form: Form::Valued("WHICH"),
    default: None,
    required: false,
    help: "Which of both is a program in hexadecimal in place of rules: old, new or both",
};

const DIFFER: Options = Options {
    name: "upc-lab differ",
    about: "Compare two texts of rules, or programs, and print for which cells their values differ",
    after_help: "Standard input is the rules, or the program, after the change.\nExample: upc-lab differ examples/customer.rules < examples/customer-changed.rules",
    arguments: &[OLD, PAIRS, PROGRAM],
};

/// Reads the words after `upc-lab differ`: the name of a file, `--lines LINES`, which is changed if it isn't given, and
/// `--program WHICH`, without which both texts are rules. The forms of help that `clap` has request help. Any other
/// word is an error, and so are a wrong value, an empty name and words without a name.
pub fn differ_options(alloc: Global, words: Vec<String>) -> Result<DifferOptions, Stop>
    ensures { AnswersWords differ_app differ_asked differ_asked_by (map string_bytes words.items) result }
{
    let values = values_of_words(alloc, &DIFFER, words)?;
    read(alloc, &values)
}

/// Returns the options that these values spell.
fn read(alloc: Global, values: &[Value]) -> Result<DifferOptions, Stop>
    ensures { AnswersValues differ_asked_by (differ_spelled (texts_of values.now)) result }
{
    let old = spelled(alloc, old_name_of(values), WRONG_OLD)?;
    let all = spelled(alloc, pairs_of(values), WRONG_PAIRS)?;
    let programs = spelled(alloc, programs_of(values), WRONG_PROGRAM)?;
    let Ok(old) = String::from_str(alloc, old) else {
        return Err(Stop::NoMemory);
    };
    Ok(DifferOptions { old, all, programs })
}

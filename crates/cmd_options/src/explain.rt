//! The option of `upc-lab explain`.

ghost use Rattle.std.specs.Prelude.{map};
ghost use Rattle.std.specs.String.{string_bytes};
ghost use Rattle.text_command_line.specs.Arguments.{texts_of};
ghost use Rattle.cmd_options.specs.ExplainOptions.{explain_app, explain_asked, explain_asked_by};
ghost use Rattle.cmd_options.specs.OptionAnswers.{AnswersWords};
ghost use Rattle.cmd_options.specs.inner.Answered.{AnswersValues, explain_spelled};

use crate::values::{WRONG_EXPLAINED, explained_name_of, owned, spelled};
use std::alloc::Global;
use text_command_line::{Argument, Form, Options, Stop, Value, values_of_words};

/// What `upc-lab explain` should do.
#[derive(Drop)]
pub struct ExplainOptions {
    /// The name of the file with a setup script, which is explained in place of the input, if one is given.
    pub setup: Option<String>,
}

const EXPLAINED_SETUP: Argument = Argument {
    name: "setup",
    form: Form::Valued("SETUP"),
    default: None,
    required: false,
    help: "Explain the setup script of police in this file, with its files of rules, and read no input",
};

const EXPLAIN: Options = Options {
    name: "upc-lab explain",
    about: "Explain the faults of a script, or after a line `source` or `rules` that of a source or of rules",
    after_help: "Example: upc-lab explain < examples/desk-refusals.run",
    arguments: &[EXPLAINED_SETUP],
};

/// Reads the words after `upc-lab explain`: `--setup SETUP` or none. The forms of help that `clap` has request help. Any other word is an
/// error, and so is an empty name.
pub fn explain_options(alloc: Global, words: Vec<String>) -> Result<ExplainOptions, Stop>
    ensures { AnswersWords explain_app explain_asked explain_asked_by (map string_bytes words.items) result }
{
    let values = values_of_words(alloc, &EXPLAIN, words)?;
    read(alloc, &values)
}

/// Returns the options that these values spell.
fn read(alloc: Global, values: &[Value]) -> Result<ExplainOptions, Stop>
    ensures { AnswersValues explain_asked_by (explain_spelled (texts_of values.now)) result }
{
    let setup = spelled(alloc, explained_name_of(values), WRONG_EXPLAINED)?;
    let Ok(setup) = owned(alloc, setup) else {
        return Err(Stop::NoMemory);
    };
    Ok(ExplainOptions { setup })
}

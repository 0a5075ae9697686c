//! The option of `upc-lab why`.

ghost use Rattle.std.specs.Prelude.{map};
ghost use Rattle.std.specs.String.{string_bytes};
ghost use Rattle.text_command_line.specs.Arguments.{texts_of};
ghost use Rattle.cmd_options.specs.WhyOptions.{why_app, why_asked, why_asked_by};
ghost use Rattle.cmd_options.specs.OptionAnswers.{AnswersWords};
ghost use Rattle.cmd_options.specs.inner.Answered.{AnswersValues, why_spelled};

use crate::values::is_count_given;
use std::alloc::Global;
use text_command_line::{Argument, Form, Options, Stop, Value, values_of_words};

/// What `upc-lab why` should do.
#[derive(Drop)]
pub struct WhyOptions {
    /// Whether the cells that each rule decides are counted, in place of an answer to each cell.
    pub count: bool,
}

const COUNT: Argument = Argument {
    name: "count",
    form: Form::Flag,
    default: None,
    required: false,
    help: "Print how many cells each rule decides, and no line about each cell",
};

const WHY: Options = Options {
    name: "upc-lab why",
    about: "Read rules, a line `cells` and cells, and print which rule decides each",
    after_help: "Example: (cat examples/customer.rules; echo cells; tail -n +2 examples/customer.eval) | upc-lab why",
    arguments: &[COUNT],
};

/// Reads the words after `upc-lab why`: `--count` or none. The forms of help that `clap` has request help. Any other word is an error.
pub fn why_options(alloc: Global, words: Vec<String>) -> Result<WhyOptions, Stop>
    ensures { AnswersWords why_app why_asked why_asked_by (map string_bytes words.items) result }
{
    let values = values_of_words(alloc, &WHY, words)?;
    read(&values)
}

/// Returns the options that these values spell.
fn read(values: &[Value]) -> Result<WhyOptions, Stop>
    ensures { AnswersValues why_asked_by (why_spelled (texts_of values.now)) result }
{
    Ok(WhyOptions {
        count: is_count_given(values),
    })
}

//! The argument and the options of `upc-lab forward`.

ghost use Rattle.std.specs.Prelude.{map};
ghost use Rattle.std.specs.String.{string_bytes};
ghost use Rattle.text_command_line.specs.Arguments.{texts_of};
ghost use Rattle.cmd_options.specs.ForwardOptions.{forward_app, forward_asked, forward_asked_by};
ghost use Rattle.cmd_options.specs.OptionAnswers.{AnswersWords};
ghost use Rattle.cmd_options.specs.inner.Answered.{AnswersValues, forward_spelled};

use crate::link::link_of;
use crate::values::{
    ASKED_TICK, LINK, SETUP, WRONG_LINK, WRONG_OTHERS, WRONG_SETUP, WRONG_TICK, asked_tick_of,
    others_of, setup_name_of, spelled,
};
use captures::{Link, Tick};
use std::alloc::Global;
use text_command_line::{Argument, Form, Options, Stop, Value, values_of_words};

/// What `upc-lab forward` should do.
#[derive(Drop)]
pub struct ForwardOptions {
    /// The name of the file with the setup script.
    pub setup: String,
    /// How long a tick is. Without one it is the tick that the setup script names.
    pub tick: Option<Tick>,
    /// The link whose cells are read. Without one the cells of a capture may be of one link only.
    pub link: Option<Link>,
    /// Whether records without a cell that counts go on. A record whose cell counts and isn't judged never goes on.
    pub others: bool,
}

const OTHERS: Argument = Argument {
    name: "others",
    form: Form::Valued("OTHERS"),
    default: Some("pass"),
    required: false,
    help: "Whether records without a cell of the link go on: pass or drop",
};

const FORWARD: Options = Options {
    name: "upc-lab forward",
    about: "Write the records of a capture whose cells pass by the contracts of a setup script",
    after_help: "Standard input is an ERF file, or pcap or pcapng with ERF records. Standard output is ERF, and standard error the counts.\nExample: examples/make-capture | upc-lab forward examples/police.setup | upc-lab cells --tick 1us",
    arguments: &[SETUP, ASKED_TICK, LINK, OTHERS],
};

/// Reads the words after `upc-lab forward`: the name of a file, `--tick TIME`, `--link LINK`, and `--others OTHERS`,
/// which is pass if it isn't given. The forms of help that `clap` has request help. Any other word is an error, and so
/// are a wrong value, an empty name and words without a name.
pub fn forward_options(alloc: Global, words: Vec<String>) -> Result<ForwardOptions, Stop>
    ensures { AnswersWords forward_app forward_asked forward_asked_by (map string_bytes words.items) result }
{
    let values = values_of_words(alloc, &FORWARD, words)?;
    read(alloc, &values)
}

/// Returns the options that these values spell.
fn read(alloc: Global, values: &[Value]) -> Result<ForwardOptions, Stop>
    ensures { AnswersValues forward_asked_by (forward_spelled (texts_of values.now)) result }
{
    let setup = spelled(alloc, setup_name_of(values), WRONG_SETUP)?;
    let tick = spelled(alloc, asked_tick_of(values), WRONG_TICK)?;
    let link = spelled(alloc, link_of(values), WRONG_LINK)?;
    let others = spelled(alloc, others_of(values), WRONG_OTHERS)?;
    let Ok(setup) = String::from_str(alloc, setup) else {
        return Err(Stop::NoMemory);
    };
    Ok(ForwardOptions {
        setup,
        tick,
        link,
        others,
    })
}

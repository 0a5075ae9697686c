//! The options of `upc-lab cells`.

ghost use Rattle.std.specs.Prelude.{map};
ghost use Rattle.std.specs.String.{string_bytes};
ghost use Rattle.text_command_line.specs.Arguments.{texts_of};
ghost use Rattle.cmd_options.specs.CellsOptions.{cells_app, cells_asked, cells_asked_by};
ghost use Rattle.cmd_options.specs.OptionAnswers.{AnswersWords};
ghost use Rattle.cmd_options.specs.inner.Answered.{AnswersValues, cells_spelled};

use crate::link::link_of;
use crate::values::{
    LINK, TICK, TIME, WRONG_LINK, WRONG_TICK, WRONG_TIME, is_record_given, spelled, tick_of,
    timing_of,
};
use captures::{Link, Tick, TimeSource};
use std::alloc::Global;
use text_command_line::{Argument, Form, Options, Stop, Value, values_of_words};

/// What `upc-lab cells` should do.
#[derive(Clone, Copy)]
pub struct CellsOptions {
    /// How long a tick is.
    pub tick: Tick,
    /// The link whose cells are read. Without one the cells of a capture may be of one link only.
    pub link: Option<Link>,
    /// Which time of a record counts.
    pub timing: TimeSource,
    /// Whether each cell comes after a comment with the number of its record.
    pub numbered: bool,
}

const RECORD: Argument = Argument {
    name: "record",
    form: Form::Flag,
    default: None,
    required: false,
    help: "Print a comment with the number of its record before each cell",
};

const CELLS: Options = Options {
    name: "upc-lab cells",
    about: "Print the ATM cells of a capture of a link as lines of a script",
    after_help: "Standard input is an ERF file, or pcap or pcapng with ERF records.\nExample: examples/make-capture | upc-lab cells --tick 1us",
    arguments: &[TICK, LINK, TIME, RECORD],
};

/// Reads the words after `upc-lab cells`: `--tick TIME`, which is 100ns if it isn't given, `--link LINK`, `--time
/// record|packet`, which is record if it isn't given, and `--record`. The forms of help that `clap` has request help.
/// Any other word is an error, and so is a wrong value.
pub fn cells_options(alloc: Global, words: Vec<String>) -> Result<CellsOptions, Stop>
    ensures { AnswersWords cells_app cells_asked cells_asked_by (map string_bytes words.items) result }
{
    let values = values_of_words(alloc, &CELLS, words)?;
    read(alloc, &values)
}

/// Returns the options that these values spell.
fn read(alloc: Global, values: &[Value]) -> Result<CellsOptions, Stop>
    ensures { AnswersValues cells_asked_by (cells_spelled (texts_of values.now)) result }
{
    let tick = spelled(alloc, tick_of(values), WRONG_TICK)?;
    let link = spelled(alloc, link_of(values), WRONG_LINK)?;
    let timing = spelled(alloc, timing_of(values), WRONG_TIME)?;
    Ok(CellsOptions {
        tick,
        link,
        timing,
        numbered: is_record_given(values),
    })
}

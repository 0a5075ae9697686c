//! The argument and the options of `upc-lab police`.

ghost use Rattle.std.specs.Prelude.{map};
ghost use Rattle.std.specs.String.{string_bytes};
ghost use Rattle.text_command_line.specs.Arguments.{texts_of};
ghost use Rattle.cmd_options.specs.PoliceOptions.{police_app, police_asked, police_asked_by};
ghost use Rattle.cmd_options.specs.OptionAnswers.{AnswersWords};
ghost use Rattle.cmd_options.specs.inner.Answered.{AnswersValues, police_spelled};

use crate::link::link_of;
use crate::values::{
    ASKED_TICK, LINK, SETUP, TIME, WRONG_EVERY, WRONG_LINES, WRONG_LINK, WRONG_SETUP,
    WRONG_THREADS, WRONG_TICK, WRONG_TIME, asked_tick_of, every_of, is_why_given, line_choice_of,
    setup_name_of, spelled, threads_of, timing_of,
};
use captures::{Link, Tick, TimeSource};
use captures_text::LineChoice;
use std::alloc::Global;
use text_command_line::{Argument, Form, Options, Stop, Value, values_of_words};

/// What `upc-lab police` should do.
#[derive(Drop)]
pub struct PoliceOptions {
    /// The name of the file with the setup script.
    pub setup: String,
    /// How long a tick is. Without one it is the tick that the setup script names.
    pub tick: Option<Tick>,
    /// The link whose cells are read. Without one the cells of a capture may be of one link only.
    pub link: Option<Link>,
    /// Which time of a record counts.
    pub timing: TimeSource,
    /// Which cells have lines.
    pub lines: LineChoice,
    /// How many nanoseconds a span has, above 0, if the counts of each span of time are written.
    pub every: Option<u64>,
    /// Whether lines show the rule that gave a cell its value.
    pub why: bool,
    /// How many threads may work at once, 1 or 2.
    pub threads: u8,
}

const LINES: Argument = Argument {
    name: "lines",
    form: Form::Valued("LINES"),
    default: Some("all"),
    required: false,
    help: "The cells that have lines: all, refused or none",
};

const EVERY: Argument = Argument {
    name: "every",
    form: Form::Valued("TIME"),
    default: None,
    required: false,
    help: "Write the counts of each connection after each span of this length: a number with ns, us, ms or s",
};

const WHY: Argument = Argument {
    name: "why",
    form: Form::Flag,
    default: None,
    required: false,
    help: "Add to the line of each cell the rule that gave it its value: the file of rules and the line in it",
};

const THREADS: Argument = Argument {
    name: "threads",
    form: Form::Valued("N"),
    default: Some("2"),
    required: false,
    help: "1 reads and judges in turn, 2 at the same time",
};

const POLICE: Options = Options {
    name: "upc-lab police",
    about: "Police the ATM cells of a capture by the contracts of a setup script",
    after_help: "Standard input is an ERF file, or pcap or pcapng with ERF records.\nExample: examples/make-capture | upc-lab police examples/police.setup",
    arguments: &[SETUP, ASKED_TICK, LINK, TIME, LINES, EVERY, WHY, THREADS],
};

/// Reads the words after `upc-lab police`: the name of a file, `--tick TIME`, `--link LINK`, `--time record|packet`,
/// which is record if it isn't given, `--lines LINES`, which is all if it isn't given, `--every TIME`, `--why`, and
/// `--threads N`, which is 2 if it isn't given. The forms of help that `clap` has request help. Any other word is an error, and so
/// are a wrong value, an empty name and words without a name.
pub fn police_options(alloc: Global, words: Vec<String>) -> Result<PoliceOptions, Stop>
    ensures { AnswersWords police_app police_asked police_asked_by (map string_bytes words.items) result }
{
    let values = values_of_words(alloc, &POLICE, words)?;
    read(alloc, &values)
}

/// Returns the options that these values spell.
fn read(alloc: Global, values: &[Value]) -> Result<PoliceOptions, Stop>
    ensures { AnswersValues police_asked_by (police_spelled (texts_of values.now)) result }
{
    let setup = spelled(alloc, setup_name_of(values), WRONG_SETUP)?;
    let tick = spelled(alloc, asked_tick_of(values), WRONG_TICK)?;
    let link = spelled(alloc, link_of(values), WRONG_LINK)?;
    let timing = spelled(alloc, timing_of(values), WRONG_TIME)?;
    let lines = spelled(alloc, line_choice_of(values), WRONG_LINES)?;
    let every = spelled(alloc, every_of(values), WRONG_EVERY)?;
    let threads = spelled(alloc, threads_of(values), WRONG_THREADS)?;
    let Ok(setup) = String::from_str(alloc, setup) else {
        return Err(Stop::NoMemory);
    };
    Ok(PoliceOptions {
        setup,
        tick,
        link,
        timing,
        lines,
        every,
        why: is_why_given(values),
        threads,
    })
}

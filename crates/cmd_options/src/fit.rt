//! The options of `upc-lab fit`.

ghost use Rattle.std.specs.Prelude.{map};
ghost use Rattle.std.specs.String.{string_bytes};
ghost use Rattle.text_command_line.specs.Arguments.{texts_of};
ghost use Rattle.cmd_options.specs.FitOptions.{asked_by, fit_app, fit_asked};
ghost use Rattle.cmd_options.specs.OptionAnswers.{AnswersWords};
ghost use Rattle.cmd_options.specs.inner.Answered.{AnswersValues, fit_spelled};

use crate::link::link_of;
use crate::values::{
    LINK, TICK, TIME, WRONG_CLP, WRONG_INCREMENT, WRONG_LINK, WRONG_RULES, WRONG_SIDE, WRONG_TICK,
    WRONG_TIME, asked_clp_of, fit_increment_of, fit_side_of, owned, rules_name_of, spelled,
    tick_of, timing_of,
};
use captures_text::FitChoice;
use std::alloc::Global;
use text_command_line::{Argument, Form, Options, Stop, Value, values_of_words};

/// What `upc-lab fit` should do.
#[derive(Drop)]
pub struct FitOptions {
    /// What is asked for beside rules.
    pub choice: FitChoice,
    /// The name of the file with the rules by whose values lines are told apart, if one is given.
    pub rules: Option<String>,
}

const INCREMENT: Argument = Argument {
    name: "increment",
    form: Form::Valued("T"),
    default: None,
    required: true,
    help: "The increment of the bucket: the ticks from cell to cell at the agreed rate",
};

const SIDE: Argument = Argument {
    name: "side",
    form: Form::Valued("SIDE"),
    default: Some("uni"),
    required: false,
    help: "Where headers are read: uni, or nni between nodes",
};

const CLP: Argument = Argument {
    name: "clp",
    form: Form::Valued("CLP"),
    default: None,
    required: false,
    help: "Only the cells of this cell loss priority, 0 or 1",
};

const PATHS: Argument = Argument {
    name: "paths",
    form: Form::Flag,
    default: None,
    required: false,
    help: "Connections are virtual paths: all cells of a path have one line",
};

const RULES: Argument = Argument {
    name: "rules",
    form: Form::Valued("FILE"),
    default: None,
    required: false,
    help: "A file with rules: the cells of a connection have a line for each value that the rules give them",
};

const FIT: Options = Options {
    name: "upc-lab fit",
    about: "Print the least limit under which all cells of each connection of a capture conform",
    after_help: "Standard input is an ERF file, or pcap or pcapng with ERF records.\nExample: examples/make-capture | upc-lab fit --increment 10 --tick 1us",
    arguments: &[INCREMENT, TICK, LINK, TIME, SIDE, PATHS, CLP, RULES],
};

/// Reads the words after `upc-lab fit`: `--increment T`, `--tick TIME`, which is 100ns if it isn't given, `--link
/// LINK`, `--time record|packet`, which is record if it isn't given, `--side SIDE`, which is uni if it isn't given,
/// `--paths`, `--clp CLP`, and `--rules FILE`. The forms of help that `clap` has request help. Any other word is an
/// error, and so are a wrong value, an empty name and words without an increment.
pub fn fit_options(alloc: Global, words: Vec<String>) -> Result<FitOptions, Stop>
    ensures { AnswersWords fit_app fit_asked asked_by (map string_bytes words.items) result }
{
    let values = values_of_words(alloc, &FIT, words)?;
    read(alloc, &values)
}

/// Returns the options that these values spell.
fn read(alloc: Global, values: &[Value]) -> Result<FitOptions, Stop>
    ensures { AnswersValues asked_by (fit_spelled (texts_of values.now)) result }
{
    let increment = spelled(alloc, fit_increment_of(values), WRONG_INCREMENT)?;
    let tick = spelled(alloc, tick_of(values), WRONG_TICK)?;
    let link = spelled(alloc, link_of(values), WRONG_LINK)?;
    let timing = spelled(alloc, timing_of(values), WRONG_TIME)?;
    let side = spelled(alloc, fit_side_of(values), WRONG_SIDE)?;
    let clp = spelled(alloc, asked_clp_of(values), WRONG_CLP)?;
    let rules = spelled(alloc, rules_name_of(values), WRONG_RULES)?;
    let Ok(rules) = owned(alloc, rules) else {
        return Err(Stop::NoMemory);
    };
    let choice = FitChoice {
        increment,
        tick,
        link,
        timing,
        side,
        clp,
    };
    Ok(FitOptions { choice, rules })
}

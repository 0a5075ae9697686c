//! The values of options.

ghost use Rattle.std.specs.Prelude.{◌≡◌, IfErr, IfOk, None, Some, codes, option_map};
ghost use Rattle.std.specs.String.{string_bytes};
ghost use Rattle.text_command_line.specs.Arguments.{text_named, texts_of};
ghost use Rattle.cmd_options.specs.OptionValues.{asked_clp_of, asked_file_of, asked_tick_of, line_choice_of, clp_named, every_of, fit_increment_of, fit_side_of, file_name_of, file_named, is_given, others_of, pairs_of, side_named, threads_of, tick_of, timing_of};
ghost use Rattle.cmd_options.specs.inner.Answered.{IsWrongValue};

use captures::{Tick, TimeSource};
use captures_text::LineChoice;
use cmd_size::duration;
use std::alloc::{AllocError, Global};
use text_command_line::{Argument, Form, Stop, Value, text_of};
use text_script::number;
use upc_cell::Side;

/// The option `--tick`.
pub(crate) const TICK: Argument = Argument {
    name: "tick",
    form: Form::Valued("TIME"),
    default: Some("100ns"),
    required: false,
    help: "The length of a tick: a number with ns, us, ms or s",
};

/// The option `--tick` beside a setup script, which may name a tick.
pub(crate) const ASKED_TICK: Argument = Argument {
    name: "tick",
    form: Form::Valued("TIME"),
    default: None,
    required: false,
    help: "The length of a tick: a number with ns, us, ms or s. Without it that of the line `tick TIME` in SETUP, or 100ns",
};

/// The argument SETUP.
pub(crate) const SETUP: Argument = Argument {
    name: "SETUP",
    form: Form::Word,
    default: None,
    required: true,
    help: "A file with a script that opens a card and sets up connections",
};

/// The option `--link`.
pub(crate) const LINK: Argument = Argument {
    name: "link",
    form: Form::Valued("LINK"),
    default: None,
    required: false,
    help: "Only the cells of this link, as 0, 0/2/5, 1:0 or 1:0/2/5",
};

/// The option `--time`. The times of packets are in the unit that their file says: in pcapng by the options `if_tsresol` and `if_tsoffset`.
pub(crate) const TIME: Argument = Argument {
    name: "time",
    form: Form::Valued("TIME"),
    default: Some("record"),
    required: false,
    help: "Which time of a record counts: its own (record), or that of its packet in a pcap or pcapng file (packet)",
};

/// The message about an empty name of the setup file.
pub(crate) const WRONG_SETUP: &str = "error: SETUP is the name of a file\n";

/// The message about a wrong value of `--time`.
pub(crate) const WRONG_TIME: &str = "error: the value of '--time' is record or packet\n";

/// The message about a wrong value of `--tick`.
pub(crate) const WRONG_TICK: &str =
    "error: the value of '--tick' is a number above 0 with ns, us, ms or s, as 100ns\n";

/// The message about a wrong value of `--link`.
pub(crate) const WRONG_LINK: &str =
    "error: the value of '--link' is an interface from 0 to 7, with /PORT/CONNECTION after it for MC_ATM, and with N: before it in a pcapng file, as 0, 0/2/5, 1:0 or 1:0/2/5\n";

/// The message about a wrong value of `--increment`.
pub(crate) const WRONG_INCREMENT: &str =
    "error: the value of '--increment' is a number of ticks from 1 to 281474976710656\n";

/// The message about a wrong value of `--side`.
pub(crate) const WRONG_SIDE: &str = "error: the value of '--side' is uni or nni\n";

/// The message about a wrong value of `--clp`.
pub(crate) const WRONG_CLP: &str = "error: the value of '--clp' is 0 or 1\n";

/// The message about an empty value of `--rules`.
pub(crate) const WRONG_RULES: &str = "error: the value of '--rules' is the name of a file\n";

/// The message about a wrong value of `--lines` of `police`.
pub(crate) const WRONG_LINES: &str = "error: the value of '--lines' is all, refused or none\n";

/// The message about a wrong value of `--every`.
pub(crate) const WRONG_EVERY: &str =
    "error: the value of '--every' is a number above 0 with ns, us, ms or s, as 1s\n";

/// The message about a wrong value of `--threads`.
pub(crate) const WRONG_THREADS: &str = "error: the value of '--threads' is 1 or 2\n";

/// The message about a wrong value of `--others`.
pub(crate) const WRONG_OTHERS: &str = "error: the value of '--others' is pass or drop\n";

/// The message about an empty name of the file with the old text.
pub(crate) const WRONG_OLD: &str = "error: OLD is the name of a file\n";

/// The message about a wrong value of `--lines` of `differ`.
pub(crate) const WRONG_PAIRS: &str = "error: the value of '--lines' is changed or all\n";

/// The message about a wrong value of `--program`.
pub(crate) const WRONG_PROGRAM: &str = "error: the value of '--program' is old, new or both\n";

/// The message about an empty value of `--setup`.
pub(crate) const WRONG_EXPLAINED: &str = "error: the value of '--setup' is the name of a file\n";

/// Returns the tick that the value of `--tick` spells, if it has one.
pub(crate) fn tick_of(values: &[Value]) -> Option<Tick>
    ensures { option_map (λ tick. tick.nanoseconds) result ≡ tick_of (text_named (texts_of values.now) (codes "tick")) }
{
    let nanoseconds = duration(text_of(values, "tick")?.as_bytes())?;
    Tick::new(nanoseconds)
}

/// Returns the tick that the value of `--tick` spells, or `Some(None)` without that option. None if the value is no tick.
pub(crate) fn asked_tick_of(values: &[Value]) -> Option<Option<Tick>>
    ensures { option_map (λ tick. option_map (λ it. it.nanoseconds) tick) result ≡ asked_tick_of (text_named (texts_of values.now) (codes "tick")) }
{
    match text_of(values, "tick") {
        None => Some(None),
        Some(_) => Some(Some(tick_of(values)?)),
    }
}

/// Returns which time of a record the value of `--time` names.
pub(crate) fn timing_of(values: &[Value]) -> Option<TimeSource>
    ensures { result ≡ timing_of (text_named (texts_of values.now) (codes "time")) }
{
    match text_of(values, "time")? {
        "record" => Some(TimeSource::Record),
        "packet" => Some(TimeSource::Packet),
        _ => None,
    }
}

/// Returns the nanoseconds of a span that the value of `--every` spells, or `Some(None)` without that option. None if the value is no time,
/// or 0.
pub(crate) fn every_of(values: &[Value]) -> Option<Option<u64>>
    ensures { result ≡ every_of (text_named (texts_of values.now) (codes "every")) }
{
    let Some(text) = text_of(values, "every") else {
        return Some(None);
    };
    match duration(text.as_bytes()) {
        Some(nanoseconds) if 0 < nanoseconds => Some(Some(nanoseconds)),
        _ => None,
    }
}

/// Returns the increment that the value of `--increment` spells, in ticks.
pub(crate) fn fit_increment_of(values: &[Value]) -> Option<u64>
    ensures { result ≡ fit_increment_of (text_named (texts_of values.now) (codes "increment")) }
{
    match number(text_of(values, "increment")?.as_bytes()) {
        Some(increment) if 0 < increment && increment <= 1 << 48 => Some(increment),
        _ => None,
    }
}

/// Returns the side that a word names.
fn side_named(word: &str, paths: bool) -> Option<Side>
    ensures { result ≡ side_named paths word.now }
{
    match word {
        "uni" => Some(if paths { Side::UniPaths } else { Side::Uni }),
        "nni" => Some(if paths { Side::NniPaths } else { Side::Nni }),
        _ => None,
    }
}

/// Returns whether this flag is given.
fn is_given(values: &[Value], name: &str) -> bool
    ensures { result ≡ is_given (text_named (texts_of values.now) name.now) }
{
    match text_of(values, name) {
        Some(text) => text == "true",
        None => false,
    }
}

/// Returns the side that the value of `--side` names, where connections are virtual paths if `--paths` is given.
pub(crate) fn fit_side_of(values: &[Value]) -> Option<Side>
    ensures { result ≡ fit_side_of (text_named (texts_of values.now) (codes "side")) (text_named (texts_of values.now) (codes "paths")) }
{
    side_named(text_of(values, "side")?, is_given(values, "paths"))
}

/// Returns the cell loss priority that a word names.
fn clp_named(word: &str) -> Option<u8>
    ensures { result ≡ clp_named word.now }
{
    match word {
        "0" => Some(0),
        "1" => Some(1),
        _ => None,
    }
}

/// Returns the cell loss priority that the value of `--clp` names, or `Some(None)` without that option. None if the value is neither 0 nor
/// 1.
pub(crate) fn asked_clp_of(values: &[Value]) -> Option<Option<u8>>
    ensures { result ≡ asked_clp_of (text_named (texts_of values.now) (codes "clp")) }
{
    let Some(word) = text_of(values, "clp") else {
        return Some(None);
    };
    Some(Some(clp_named(word)?))
}

/// Returns the name of a file that a word is, unless it is empty.
fn file_named(word: &str) -> Option<&str>
    ensures { option_map (λ name. name.now) result ≡ file_named word.now }
{
    if word.is_empty() { None } else { Some(word) }
}

/// Returns the name of the setup file, unless it is empty.
pub(crate) fn setup_name_of(values: &[Value]) -> Option<&str>
    ensures { option_map (λ name. name.now) result ≡ file_name_of (text_named (texts_of values.now) (codes "SETUP")) }
{
    file_named(text_of(values, "SETUP")?)
}

/// Returns the name of the file with the old text, unless it is empty.
pub(crate) fn old_name_of(values: &[Value]) -> Option<&str>
    ensures { option_map (λ name. name.now) result ≡ file_name_of (text_named (texts_of values.now) (codes "OLD")) }
{
    file_named(text_of(values, "OLD")?)
}

/// Returns the name of the file with rules, or `Some(None)` if none is given. None if the name is empty.
pub(crate) fn rules_name_of(values: &[Value]) -> Option<Option<&str>>
    ensures { option_map (λ name. option_map (λ it. it.now) name) result ≡ asked_file_of (text_named (texts_of values.now) (codes "rules")) }
{
    let Some(word) = text_of(values, "rules") else {
        return Some(None);
    };
    Some(Some(file_named(word)?))
}

/// Returns the name of the file with a setup script to explain, or `Some(None)` if none is given. None if the name is empty.
pub(crate) fn explained_name_of(values: &[Value]) -> Option<Option<&str>>
    ensures { option_map (λ name. option_map (λ it. it.now) name) result ≡ asked_file_of (text_named (texts_of values.now) (codes "setup")) }
{
    let Some(word) = text_of(values, "setup") else {
        return Some(None);
    };
    Some(Some(file_named(word)?))
}

/// Returns a copy of a text, if there is one.
pub(crate) fn owned(alloc: Global, text: Option<&str>) -> Result<Option<String>, AllocError>
    ensures { IfOk result (λ owned. option_map (λ it. string_bytes it) owned ≡ option_map (λ it. it.now) text.entry) }
{
    match text {
        None => Ok(None),
        Some(text) => match String::from_str(alloc, text) {
            Ok(text) => Ok(Some(text)),
            Err(_) => Err(AllocError),
        },
    }
}

/// Returns whether the value of `--lines` asks for all pairs of lines.
pub(crate) fn pairs_of(values: &[Value]) -> Option<bool>
    ensures { result ≡ pairs_of (text_named (texts_of values.now) (codes "lines")) }
{
    match text_of(values, "lines")? {
        "changed" => Some(false),
        "all" => Some(true),
        _ => None,
    }
}

/// Returns which cells the value of `--lines` gives lines.
pub(crate) fn line_choice_of(values: &[Value]) -> Option<LineChoice>
    ensures { result ≡ line_choice_of (text_named (texts_of values.now) (codes "lines")) }
{
    match text_of(values, "lines")? {
        "all" => Some(LineChoice::All),
        "refused" => Some(LineChoice::NotPassed),
        "none" => Some(LineChoice::Nothing),
        _ => None,
    }
}

/// Returns the number of threads that the value of `--threads` spells.
pub(crate) fn threads_of(values: &[Value]) -> Option<u8>
    ensures { result ≡ threads_of (text_named (texts_of values.now) (codes "threads")) }
{
    match number(text_of(values, "threads")?.as_bytes()) {
        Some(threads) if 0 < threads && threads <= 2 => Some(threads as u8),
        _ => None,
    }
}

/// Returns whether records without a judged cell go on, as the value of `--others` says it.
pub(crate) fn others_of(values: &[Value]) -> Option<bool>
    ensures { result ≡ others_of (text_named (texts_of values.now) (codes "others")) }
{
    match text_of(values, "others")? {
        "pass" => Some(true),
        "drop" => Some(false),
        _ => None,
    }
}

/// Returns whether `--count` is given.
pub(crate) fn is_count_given(values: &[Value]) -> bool
    ensures { result ≡ is_given (text_named (texts_of values.now) (codes "count")) }
{
    is_given(values, "count")
}

/// Returns whether `--record` is given.
pub(crate) fn is_record_given(values: &[Value]) -> bool
    ensures { result ≡ is_given (text_named (texts_of values.now) (codes "record")) }
{
    is_given(values, "record")
}

/// Returns whether `--why` is given.
pub(crate) fn is_why_given(values: &[Value]) -> bool
    ensures { result ≡ is_given (text_named (texts_of values.now) (codes "why")) }
{
    is_given(values, "why")
}

/// Returns why the words give no options: a value is wrong, and the message says which one, and what is right.
fn wrong_value(alloc: Global, message: &str) -> Stop
    ensures { IsWrongValue result }
{
    match String::from_str(alloc, message) {
        Ok(text) => Stop::Words(text),
        Err(_) => Stop::NoMemory,
    }
}

/// Returns what the value of an option spells. If it spells nothing, there are no options, and this message says what is right.
pub(crate) fn spelled<T>(alloc: Global, value: Option<T>, message: &str) -> Result<T, Stop>
    ensures right { IfOk result (λ it. value ≡ Some it) }
    ensures wrong { IfErr result (λ stop. (value ≡ None) × IsWrongValue stop) }
{
    match value {
        Some(it) => Ok(it),
        None => Err(wrong_value(alloc, message)),
    }
}

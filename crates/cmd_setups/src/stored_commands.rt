//! The commands of a setup script that wait for their moments.

ghost use Rattle.std.specs.Prelude.{◌≡◌, ◌++◌, [], length, map, IfOk, IfSome, IfNone, OnOk};
ghost use Rattle.text_io.specs.Lines.{lines_of};
ghost use Rattle.cmd_setups.specs.TimedLines.{moment_of_time, octets_before_times, waiting_at, waiting_line};
ghost use Rattle.cmd_setups.specs.CommandsUnderTraffic.{first_moment, waiting_comment, waiting_text};
ghost use Rattle.cmd_setups.specs.StoredCommands.{shown_command, waiting_in};
ghost use Rattle.cmd_setups.specs.inner.TimedScripts.{IsDue, IsFirstLeft, IsNoneDue, IsTimeOf};

use crate::script_lines::next_line;
use captures::Tick;
use std::alloc::{AllocError, Global};
use text_io::{LineWords, line_words};
use text_words::{add_number, add_text};

/// A command that waits.
#[derive(Drop)]
pub struct StoredCommand {
    /// The moment from which on it is carried out, in ticks.
    pub moment: u64,
    /// The content of its line.
    pub content: Vec<u8>,
}

/// The commands of a script that wait, in order, of which some were carried out.
#[derive(Drop)]
pub struct StoredCommands {
    /// All of them.
    pub all: Vec<StoredCommand>,
    /// How many were carried out.
    pub next: usize,
}

/// Returns the first moment that isn't before a time in nanoseconds.
fn moment_of_time(tick: Tick, time: u64) -> u64
    ensures { result ≡ moment_of_time tick.nanoseconds time }
{
    let whole = time / tick.nanoseconds;
    if time % tick.nanoseconds == 0 {
        whole
    } else {
        whole + 1
    }
}

/// Returns the time of the line with the number `met`, from 0: `Some(None)` if it has no time, and None if there is no such line.
fn time_of(times: &[Option<u64>], met: usize) -> Option<Option<u64>>
    ensures { IsTimeOf times.now met result }
{
    times.get(met).copied()
}

/// Returns the lines of a script before the first one with a time.
pub fn before_times<'a>(script: &'a [u8], times: &[Option<u64>]) -> &'a [u8]
    ensures { result.now ≡ octets_before_times times.now (lines_of script.now) }
{
    let mut at = 0;
    let mut met = 0;
    let mut left = script;
    while let Some(None) = time_of(times, met) {
        let Some((_, _, octets, rest)) = next_line(left) else {
            break;
        };
        at += octets.len();
        met += 1;
        left = rest;
    }
    &script[..at]
}

/// Appends a line that waits. A line without words and a remark don't.
fn add_command(
    alloc: Global,
    commands: &mut Vec<StoredCommand>,
    moment: u64,
    line: &[u8],
) -> Result<(), AllocError>
    ensures { OnOk result (map shown_command commands.new.items ≡ map shown_command commands.old.items ++ waiting_line moment line.now) }
{
    match line_words(line) {
        LineWords::Silent => Ok(()),
        LineWords::One(_) | LineWords::Several => {
            let content = Vec::from_slice(alloc, line)?;
            commands.push(StoredCommand { moment, content })?;
            Ok(())
        }
    }
}

/// Returns the commands of a script that wait, where its lines have these times.
pub(crate) fn commands_at(
    alloc: Global,
    tick: Tick,
    times: &[Option<u64>],
    script: &[u8],
) -> Result<StoredCommands, AllocError>
    ensures { IfOk result (λ commands. waiting_in commands ≡ waiting_at tick.nanoseconds times.now (lines_of script.now)) }
{
    let mut all = Vec::new(alloc);
    let mut left = script;
    let mut later = times;
    while let [time, rest_times @ ..] = later {
        let Some((line, _, _, rest)) = next_line(left) else {
            break;
        };
        if let Some(time) = time {
            add_command(alloc, &mut all, moment_of_time(tick, *time), line)?;
        }
        left = rest;
        later = rest_times;
    }
    Ok(StoredCommands { all, next: 0 })
}

impl StoredCommands {
    /// Returns the first of the commands that are left, if there is one.
    #[inline(always)]
    fn first(&self) -> Option<&StoredCommand>
        ensures found { IfSome result (λ command. IsFirstLeft self.now command.now) }
        ensures none { IfNone result (waiting_in self.now ≡ []) }
    {
        self.all.get(self.next)
    }

    /// Returns how many commands are left.
    fn left(&self) -> usize
        ensures { result ≡ length (waiting_in self.now) }
    {
        self.all.len().saturating_sub(self.next)
    }

    /// Returns the first of the commands that are left, if its moment has come.
    #[inline(always)]
    pub(crate) fn due(&self, moment: u64) -> Option<&StoredCommand>
        ensures found { IfSome result (λ command. IsDue self.now moment command.now) }
        ensures none { IfNone result (IsNoneDue moment (waiting_in self.now)) }
    {
        match self.first() {
            Some(command) if command.moment <= moment => Some(command),
            _ => None,
        }
    }
}

/// Appends the moment at the end of the comment about commands that are left.
#[tactic(auto, using(std::proofs::lemmas::List::append_assoc))]
fn add_first_moment(answers: &mut Vec<u8>, moment: u64) -> Result<(), AllocError>
    ensures { OnOk result (answers.new.items ≡ answers.old.items ++ first_moment moment) }
{
    add_text(answers, b" commands, the first at moment ")?;
    add_number(answers, moment)?;
    add_text(answers, b"\n")
}

/// Appends the comment about this many commands, of which the first waits for this moment.
#[tactic(auto, using(std::proofs::lemmas::List::append_assoc))]
fn add_count(answers: &mut Vec<u8>, count: usize, moment: u64) -> Result<(), AllocError>
    ensures { OnOk result (answers.new.items ≡ answers.old.items ++ waiting_text count moment) }
{
    add_text(answers, b"# not carried out: ")?;
    add_number(answers, count as u64)?;
    add_first_moment(answers, moment)
}

/// Appends the comment about the commands that are left, if there are any.
///
/// # Errors
///
/// `AllocError` if an allocation failed.
pub fn add_waiting(answers: &mut Vec<u8>, commands: &StoredCommands) -> Result<(), AllocError>
    ensures { OnOk result (answers.new.items ≡ answers.old.items ++ waiting_comment (waiting_in commands.now)) }
{
    match commands.first() {
        Some(first) => add_count(answers, commands.left(), first.moment),
        None => Ok(()),
    }
}

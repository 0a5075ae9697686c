//! The cells of a capture, policed by a setup script with times and files of rules.

ghost use Rattle.std.specs.Prelude.{IfOk, option_map};
ghost use Rattle.text_io.specs.Devices.{Adds};
ghost use Rattle.text_io.specs.Serving.{IsServed};
ghost use Rattle.cmd_setups.specs.SharedTexts.{octets_of_texts};
ghost use Rattle.cmd_police.specs.SetupText.{IsPolicedAsAgreed, IsSetupPoliced, MayBePolicedAsAgreed, MayBeSetupPoliced};

use crate::police::{PoliceChoice, police_capture};
use crate::preparing::{Prepared, prepare_setup};
use crate::program_rules::shown_rules;
use captures::Tick;
use captures_text::write_faults;
use cmd_setups::{SharedText, add_ticks_differ, agreed_tick};
use std::alloc::Global;
use std::thread::Threads;
use text_io::{Ending, Input, Output, RunFault};

/// Polices the cells of a capture, as [`police_capture`] does, by a setup script that may name files of rules and times. `texts` are the
/// octets of these files, in the order of [`files_read`](cmd_setups::files_read). Each line `rules NAME` loads the program of its text, as the
/// next program of the script. If a text has a fault, the output is its fault line, and where the script names it; no cell is
/// policed then. A line `at TIME COMMAND` is carried out before the first cell at or after that time, and so are the lines after it up to
/// the next line with a time. docs/LAB.md has the format.
///
/// Memory is that of [`police_capture`], the script with the programs of its rules in hexadecimal digits, its lines that wait, and what
/// compiling one text of rules takes.
///
/// # Errors
///
/// See [`RunFault`].
pub fn police_setup<R: Threads, I: Input + Send, O: Output>(
    rt: &R,
    alloc: Global,
    setup: &[u8],
    texts: &[SharedText],
    choice: PoliceChoice,
    tick: Tick,
    input: &mut I,
    output: &mut O,
) -> Ending
    ensures served { IsServed (MayBeSetupPoliced choice.scope tick.nanoseconds setup.now (octets_of_texts texts.now))
        I.Input input.old input.new O.Output output.old output.new result }
    ensures policed { I.is_known → O.is_known → IfOk result (λ done.
        Adds (λ text. IsSetupPoliced choice.scope tick.nanoseconds setup.now (octets_of_texts texts.now) (I.rest input.old) text done)
        (O.held output.old) (O.held output.new)) }
{
    let ready = match prepare_setup(alloc, setup, texts) {
        Err(_) => return Err(RunFault::NoMemory),
        Ok(Prepared::Faulty(text)) => return write_faults(output, text),
        Ok(Prepared::Ready(ready)) => ready,
    };
    let Ok(rules) = shown_rules(alloc, choice.scope.why, &ready.plain, texts) else {
        return Err(RunFault::NoMemory);
    };
    police_capture(
        rt,
        alloc,
        ready.script(),
        &ready.times,
        rules,
        choice,
        tick,
        input,
        output,
    )
}

/// Polices the cells of a capture, as [`police_setup`] does, with the tick that the setup script names or the one that
/// was asked for. If they differ, the output is the fault line about them, and no cell is policed. `setup` is the
/// script without its tick ([`take_tick`](cmd_setups::take_tick)).
///
/// # Errors
///
/// Those of [`police_setup`].
pub fn police_as_agreed<R: Threads, I: Input + Send, O: Output>(
    rt: &R,
    alloc: Global,
    setup: &[u8],
    texts: &[SharedText],
    choice: PoliceChoice,
    named: Option<Tick>,
    asked: Option<Tick>,
    input: &mut I,
    output: &mut O,
) -> Ending
    ensures served { IsServed (MayBePolicedAsAgreed choice.scope (option_map (λ tick. tick.nanoseconds) named) (option_map (λ tick. tick.nanoseconds) asked)
        setup.now (octets_of_texts texts.now)) I.Input input.old input.new O.Output output.old output.new result }
    ensures policed { I.is_known → O.is_known → IfOk result (λ done.
        Adds (λ text. IsPolicedAsAgreed choice.scope (option_map (λ tick. tick.nanoseconds) named) (option_map (λ tick. tick.nanoseconds) asked)
        setup.now (octets_of_texts texts.now) (I.rest input.old) text done)
        (O.held output.old) (O.held output.new)) }
{
    match agreed_tick(named, asked) {
        Ok(tick) => police_setup(rt, alloc, setup, texts, choice, tick, input, output),
        Err(ticks) => {
            let mut text = Vec::new(alloc);
            match add_ticks_differ(&mut text, ticks) {
                Ok(()) => write_faults(output, text),
                Err(_) => Err(RunFault::NoMemory),
            }
        }
    }
}

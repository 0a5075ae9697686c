//! The records of a capture that go on, at the tick on which the setup script and the options agree.

ghost use Rattle.std.specs.Prelude.{◌≡◌, ◌++◌, IfOk, OnOk, OnErr, Err, option_map};
ghost use Rattle.text_io.specs.Serving.{IsServed};
ghost use Rattle.cmd_setups.specs.SharedTexts.{octets_of_texts};
ghost use Rattle.cmd_setups.specs.SetupTick.{ticks_differ};
ghost use Rattle.cmd_forward.specs.AgreedForward.{IsForwardedAsAgreed, MayBeForwardedAsAgreed};
ghost use Rattle.cmd_forward.specs.Reporting.{HasReportedText, ReportsText};

use crate::forward::forward_setup;
use crate::others::Others;
use captures::{Link, Tick};
use cmd_setups::{SharedText, TicksDiffer, add_ticks_differ, agreed_tick};
use std::alloc::Global;
use text_io::{Done, Ending, Input, Output, RunFault};

/// Appends the answer about two ticks that differ to the report.
fn report_ticks(report: &mut Vec<u8>, ticks: TicksDiffer) -> Ending
    ensures done { IfOk result (λ done. done ≡ Done.Ended) }
    ensures grew { OnOk result (report.new.items ≡ report.old.items ++ ticks_differ ticks.named ticks.asked) }
    ensures fault { OnErr result (result ≡ Err RunFault.NoMemory) }
{
    match add_ticks_differ(report, ticks) {
        Err(_) => Err(RunFault::NoMemory),
        Ok(()) => Ok(Done::Ended),
    }
}

/// Forwards the cells of a capture, as [`forward_setup`] does, with the tick that the setup script names or the one
/// that was asked for. If they differ, the report is the fault line about them, and nothing is written. `setup` is the
/// script without its tick ([`take_tick`](cmd_setups::take_tick)).
///
/// # Errors
///
/// As those of [`forward_setup`].
pub fn forward_as_agreed<I: Input, O: Output>(
    alloc: Global,
    setup: &[u8],
    texts: &[SharedText],
    others: Others,
    named: Option<Tick>,
    asked: Option<Tick>,
    link: Option<Link>,
    input: &mut I,
    output: &mut O,
    report: &mut Vec<u8>,
) -> Ending
    ensures served { IsServed (HasReportedText (MayBeForwardedAsAgreed others (option_map (λ tick. tick.nanoseconds) named)
        (option_map (λ tick. tick.nanoseconds) asked) link setup.now (octets_of_texts texts.now)))
        I.Input input.old input.new O.Output output.old output.new result }
    ensures reported { ReportsText (IsForwardedAsAgreed others (option_map (λ tick. tick.nanoseconds) named)
        (option_map (λ tick. tick.nanoseconds) asked) link setup.now (octets_of_texts texts.now))
        I.Input input.old O.Output output.old output.new report.old.items report.new.items result }
{
    match agreed_tick(named, asked) {
        Ok(tick) => forward_setup(
            alloc, setup, texts, others, tick, link, input, output, report,
        ),
        Err(ticks) => report_ticks(report, ticks),
    }
}

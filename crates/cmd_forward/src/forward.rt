//! The records of a capture that go on by the contracts of a setup script: `upc-lab forward`.

ghost use Rattle.std.specs.Prelude.{◌≡◌, ◌++◌, IfOk, OnOk, OnErr, Err};
ghost use Rattle.text_io.specs.Serving.{IsServed};
ghost use Rattle.cmd_setups.specs.SharedTexts.{octets_of_texts};
ghost use Rattle.cmd_forward.specs.ForwardText.{IsForwarded, IsSetupForwarded, MayBeSetupForwarded};
ghost use Rattle.cmd_forward.specs.Reporting.{HasReportedText, IsServedWithReport, ReportsText};

use crate::forwarding::forward_cells;
use crate::others::Others;
use captures::{Link, Tick};
use cmd_police::{OpenedCard, open_card, open_setup};
use cmd_setups::SharedText;
use std::alloc::Global;
use text_io::{Done, Ending, Input, Output, RunFault};

/// Appends the explanation of a faulty setup to the report.
fn report_faults(report: &mut Vec<u8>, text: &[u8]) -> Ending
    ensures done { IfOk result (λ done. done ≡ Done.Ended) }
    ensures grew { OnOk result (report.new.items ≡ report.old.items ++ text.now) }
    ensures fault { OnErr result (result ≡ Err RunFault.NoMemory) }
{
    match report.extend_from_slice(text) {
        Err(_) => Err(RunFault::NoMemory),
        Ok(()) => Ok(Done::Ended),
    }
}

/// Forwards the cells of a capture by a card that a setup script opens. `times` has for each line of the script its time in nanoseconds
/// from moment 0 on, or None. The records whose cells pass or are tagged are written as records of an ERF file, each as the capture has
/// it, but with cell loss priority 1 if its cell is tagged. Cells count, and have their moments, as in `upc-lab cells`. Records
/// without a cell that counts go on as `others` says. At the end the lines of commands are appended to the report, and
/// then what `police` prints after its lines about cells. A script with a fault is explained in the report, and nothing
/// is written. docs/LAB.md has the format.
///
/// Memory is bounded: that of the card, and that of [`forward_cells`].
///
/// # Errors
///
/// See [`RunFault`]. The report then has no meaning.
pub fn forward_capture<I: Input, O: Output>(
    alloc: Global,
    script: &[u8],
    times: &[Option<u64>],
    others: Others,
    tick: Tick,
    link: Option<Link>,
    input: &mut I,
    output: &mut O,
    report: &mut Vec<u8>,
) -> Ending
    ensures { IsServedWithReport (IsForwarded others tick.nanoseconds link script.now times.now)
        I.Input input.old input.new O.Output output.old output.new report.old.items report.new.items result }
{
    match open_card(alloc, script, times, tick) {
        Err(_) => Err(RunFault::NoMemory),
        Ok(OpenedCard::Faulty(text)) => report_faults(report, &text),
        Ok(OpenedCard::Ready(mut policed)) => forward_cells(
            alloc,
            others,
            tick,
            link,
            input,
            output,
            &mut policed,
            report,
        ),
    }
}

/// Forwards the cells of a capture, as [`forward_capture`] does, by a setup script that may name files of rules and times. `texts` are the
/// octets of these files, in the order of [`files_read`](cmd_setups::files_read). If a text has a fault, the report is its fault line, and
/// where the script names it.
///
/// Memory is that of [`forward_capture`], the script with the programs of its rules in hexadecimal digits, and what compiling one text of
/// rules takes.
///
/// # Errors
///
/// As those of [`forward_capture`].
pub fn forward_setup<I: Input, O: Output>(
    alloc: Global,
    setup: &[u8],
    texts: &[SharedText],
    others: Others,
    tick: Tick,
    link: Option<Link>,
    input: &mut I,
    output: &mut O,
    report: &mut Vec<u8>,
) -> Ending
    ensures served { IsServed (HasReportedText (MayBeSetupForwarded others tick.nanoseconds link setup.now (octets_of_texts texts.now)))
        I.Input input.old input.new O.Output output.old output.new result }
    ensures reported { ReportsText (IsSetupForwarded others tick.nanoseconds link setup.now (octets_of_texts texts.now))
        I.Input input.old O.Output output.old output.new report.old.items report.new.items result }
{
    match open_setup(alloc, setup, texts, tick) {
        Err(_) => Err(RunFault::NoMemory),
        Ok(OpenedCard::Faulty(text)) => report_faults(report, &text),
        Ok(OpenedCard::Ready(mut policed)) => forward_cells(
            alloc,
            others,
            tick,
            link,
            input,
            output,
            &mut policed,
            report,
        ),
    }
}

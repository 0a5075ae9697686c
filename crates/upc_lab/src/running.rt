//! Runs the subcommands that read a capture and write nothing but their answer, as their options say.

ghost use Rattle.std.specs.Prelude.{◌≡◌, IfOk, option_map};
ghost use Rattle.text_io.specs.Devices.{Adds};
ghost use Rattle.text_io.specs.Serving.{IsServed};
ghost use Rattle.captures_text.specs.CellsText.{IsCellsText};
ghost use Rattle.cmd_fit.specs.FitAsked.{IsFitAsked};
ghost use Rattle.upc_lab.specs.LabEffects.{MayPoliceAsked, PolicesAsked};
ghost use Rattle.upc_lab.specs.LabText.{kinds_asked, others_asked, rules_asked, scope_asked};

use crate::named_files::NamedFiles;
use captures_text::cells_of_capture;
use cmd_differ::{TextKind, TextKinds};
use cmd_explain::Ahead;
use cmd_fit::fit_capture;
use cmd_forward::Others;
use cmd_options::{CellsOptions, FitOptions, PoliceOptions, Programs};
use cmd_police::{PoliceChoice, PoliceScope, police_as_agreed};
use std::alloc::Global;
use std::thread::Threads;
use text_io::{Ending, Output};

/// How many threads may work at once where no option says so.
const THREADS: usize = 2;

/// Returns what becomes of records without a cell that counts, as the option `--others` of `forward` says.
pub(crate) fn others_asked(others: bool) -> Others
    ensures { result ≡ others_asked others }
{
    if others { Others::Pass } else { Others::Drop }
}

/// Returns the scope that options of `police` ask for.
pub(crate) fn scope_asked(options: &PoliceOptions) -> PoliceScope
    ensures { result ≡ scope_asked options.now }
{
    PoliceScope {
        link: options.link,
        timing: options.timing,
        lines: options.lines,
        every: options.every,
        why: options.why,
    }
}

/// Returns the octets of the rules that options of `fit` ask for, if they do. These were read from the file that they name.
pub(crate) fn rules_asked<'a>(options: &FitOptions, read: &'a [u8]) -> Option<&'a [u8]>
    ensures { option_map (λ rules. rules.now) result ≡ rules_asked options.now read.now }
{
    match &options.rules {
        Some(_) => Some(read),
        None => None,
    }
}

/// Returns the kinds of the old and the new text. `programs` says which of them are programs; any other is rules.
pub(crate) fn kinds_asked(programs: Programs) -> TextKinds
    ensures { result ≡ kinds_asked programs }
{
    let (old, new) = match programs {
        Programs::Neither => (TextKind::Rules, TextKind::Rules),
        Programs::Old => (TextKind::Program, TextKind::Rules),
        Programs::New => (TextKind::Rules, TextKind::Program),
        Programs::Both => (TextKind::Program, TextKind::Program),
    };
    TextKinds { old, new }
}

/// Writes the cells of the capture as lines of a script, as options of `cells` say.
pub(crate) fn run_cells<R: Threads, I: Ahead + Send, O: Output>(
    rt: &R,
    alloc: Global,
    options: &CellsOptions,
    input: &mut I,
    output: &mut O,
) -> Ending
    ensures { IsServed (IsCellsText options.now.tick.nanoseconds options.now.link options.now.timing options.now.numbered)
        I.Input input.old input.new O.Output output.old output.new result }
{
    cells_of_capture(
        rt,
        THREADS,
        alloc,
        options.tick,
        options.link,
        options.timing,
        options.numbered,
        input,
        output,
    )
}

/// Writes the least limit of each connection of the capture, as options of `fit` and the rules that they name say.
pub(crate) fn run_fit<R: Threads, I: Ahead + Send, O: Output>(
    rt: &R,
    alloc: Global,
    options: &FitOptions,
    files: &NamedFiles,
    input: &mut I,
    output: &mut O,
) -> Ending
    ensures { IsServed (IsFitAsked options.now.choice (rules_asked options.now files.now.other_text.items))
        I.Input input.old input.new O.Output output.old output.new result }
{
    fit_capture(
        rt,
        THREADS,
        alloc,
        options.choice,
        rules_asked(options, files.other_text.as_slice()),
        input,
        output,
    )
}

/// Writes the verdicts on the cells of the capture, as options of `police` and the setup script that they name say.
pub(crate) fn run_police<R: Threads, I: Ahead + Send, O: Output>(
    rt: &R,
    alloc: Global,
    options: &PoliceOptions,
    files: &NamedFiles,
    input: &mut I,
    output: &mut O,
) -> Ending
    ensures served { IsServed (MayPoliceAsked files.now options.now) I.Input input.old input.new O.Output output.old output.new result }
    ensures policed { I.is_known → O.is_known → IfOk result (λ done.
        Adds (λ text. PolicesAsked files.now options.now (I.rest input.old) text done) (O.held output.old) (O.held output.new)) }
{
    police_as_agreed(
        rt,
        alloc,
        files.script.as_slice(),
        files.rules.as_slice(),
        PoliceChoice {
            threads: usize::from(options.threads),
            scope: scope_asked(options),
        },
        files.tick,
        options.tick,
        input,
        output,
    )
}

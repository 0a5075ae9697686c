//! `upc-lab`: a program for those who write rules and programs, over standard input and standard output.
#![tactic(auto)]

mod file_names;
mod invocation;
mod laws;
mod named_files;
mod reason;
mod reporting;
mod running;
mod setup_hints;

pub use captures_text::{FitChoice, cells_of_capture};
pub use cmd_differ::{Finding, TextKind, TextKinds, compare_texts, unused_in_text};
pub use cmd_explain::{LookedAt, explain_faults};
pub use cmd_fit::{fit_capture, links_of_capture};
pub use cmd_list::{list_program, trace_cells};
pub use cmd_options::{
    Asked, CellsOptions, Counted, DifferOptions, ExplainOptions, FitOptions, ForwardOptions,
    PoliceOptions, Programs, Subcommand, WhyOptions, WithReason, Work, awaited, cells_options,
    choose, differ_options, explain_options, fit_options, forward_options, police_options,
    reads_capture, why_options,
};
pub use cmd_police::{explain_setup, police_as_agreed};
pub use cmd_rules::{assemble_rules, compile_rules, decide_cells};
pub use cmd_size::size_contracts;
pub use invocation::carry_out;
use invocation::explains_setup;
pub use named_files::{NamedFiles, Unreadable, read_named_files};
pub use reason::Reasoned;
pub use reporting::shell_status;
use std::alloc::Global;
use std::io::{BufReader, IsTerminal, Read};
use std::process::ExitCode;
use text_command_line::{OfProcess, Stop, status, words_after_name};
use text_io::{RunFault, WriterOutput};

/// Returns standard input with a buffer. `again` is a second handle of the same input, for a buffer without room if no memory is left.
/// `why` and `explain` take the octets of some lines one at a time, so that they take nothing after these lines; the buffer saves a
/// call of the system for each octet. A larger piece is read past the buffer.
fn buffered<D: Read + Drop>(alloc: Global, device: D, again: D) -> Result<BufReader<D>, RunFault> {
    match BufReader::new(alloc, device) {
        Ok(reader) => Ok(reader),
        Err(_) => BufReader::with_capacity(alloc, 0, again).map_err(|_| RunFault::NoMemory),
    }
}

/// Where the program begins: reads its words, and does what they ask for.
fn main(rt: HostRuntime) -> ExitCode {
    let line = OfProcess(&rt);
    let chosen = match words_after_name(rt.alloc(), &line) {
        Ok(words) => choose(rt.alloc(), words),
        Err(_) => Err(Stop::NoMemory),
    };
    let named = read_named_files(&rt, &line, &chosen);
    if let Ok(asked) = &chosen
        && named.is_ok()
        && !explains_setup(&chosen)
        && rt.stdin().is_terminal()
    {
        let _ = eprintln!(rt; "{}", awaited(asked));
    }
    let shows = reads_capture(&chosen) && rt.stderr().is_terminal() && !rt.stdout().is_terminal();
    let shown_on = if shows {
        Some(WriterOutput::new(rt.stderr()))
    } else {
        None
    };
    let reader = match buffered(rt.alloc(), rt.stdin(), rt.stdin()) {
        Ok(reader) => reader,
        Err(fault) => return ExitCode::from(status(&Err(fault))),
    };
    // The innermost device keeps the system's reason of a failure, the next one counts octets for the progress text, and the outermost
    // lets `explain` look at the first line.
    let stdin = WithReason::new(rt.alloc(), Work::Reading, reader);
    let mut input = LookedAt::new(rt.alloc(), Counted::new(rt.alloc(), stdin, shown_on));
    let mut output = WithReason::new(rt.alloc(), Work::Writing, rt.stdout());
    let mut errors = WriterOutput::new(rt.stderr());
    let ended = carry_out(
        &rt,
        rt.alloc(),
        &chosen,
        &named,
        &mut input,
        &mut output,
        &mut errors,
    );
    input.input.finish();
    ExitCode::from(shell_status(ended, output.is_closed()))
}

//! `upc`: usage parameter control for an ATM line card, as a program over standard input and standard output.
#![tactic(auto)]

mod invocation;
mod laws;
mod subcommand;

pub use cmd_ports::{run_ports, run_ports_with};
pub use cmd_programs::{check_source, eval_bytes};
pub use cmd_run::run_script;
use invocation::{carry_out, carry_out_on_one_thread};
use std::io::IsTerminal;
use std::process::ExitCode;
pub use text_command_line::{Choice, Stop, choose, status};
use text_command_line::{OfProcess, awaited, words_after_name};
use text_io::{ReaderInput, WriterOutput};

/// Where the program begins: reads its words, and does what they ask for. If the input is a terminal, first says on standard
/// error what it waits for.
fn main(rt: HostRuntime) -> ExitCode {
    let chosen = match words_after_name(rt.alloc(), &OfProcess(&rt)) {
        Ok(words) => choose(rt.alloc(), words),
        Err(_) => Err(Stop::NoMemory),
    };
    if let Ok(choice) = chosen
        && rt.stdin().is_terminal()
    {
        let _ = eprintln!(rt; "{}", awaited(choice));
    }
    let mut input = ReaderInput::new(rt.stdin());
    let mut output = WriterOutput::new(rt.stdout());
    let mut errors = WriterOutput::new(rt.stderr());
    ExitCode::from(carry_out(
        &rt,
        rt.alloc(),
        chosen,
        &mut input,
        &mut output,
        &mut errors,
    ))
}

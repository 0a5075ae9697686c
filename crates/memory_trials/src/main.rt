//! Makes each call that may fail with NoMemory, and makes it again if it failed.
//!
//! Prints one line for each: its name, and whether it succeeded at once or only when it was made again. Anything else
//! is status 1. `tests/memory-trials` runs this program so that its first allocation fails, then its second, and so on.
//! The program is a test: what it prints is compared, so few of its functions have a contract.
#![tactic(auto)]

mod codes;
mod cores;
mod running;
mod stores;
mod texts;
mod trial;

use std::alloc::Global;
use std::io;
use std::process::ExitCode;
use trial::Attempt;

/// A call and its name.
type Trial = (&'static str, fn(Global) -> Attempt);

/// The name on the command line, if there is one: only that call is made.
fn name_asked(rt: &HostRuntime) -> io::Result<Option<String>> {
    Ok(std::env::args(rt)?.nth(1))
}

fn main(rt: HostRuntime) -> ExitCode {
    let Ok(asked) = name_asked(&rt) else {
        // An allocation failed while the command line was read.
        return ExitCode::SUCCESS;
    };
    let trials: [Trial; 18] = [
        ("decode", codes::try_decode),
        ("encode", codes::try_encode),
        ("assemble", codes::try_assemble),
        ("listing", codes::try_listing),
        ("Arena::new", stores::try_new_arena),
        ("Line::new", stores::try_new_line),
        ("Line::prepare", stores::try_prepare),
        ("Line::open", stores::try_open),
        ("Line::cut", stores::try_cut),
        ("Directory::new", stores::try_new_directory),
        ("Directory::put", stores::try_put),
        ("Core::new", cores::try_new_core),
        ("Core::run", cores::try_run),
        ("Card::new", running::try_new_card),
        ("eval_bytes", texts::try_eval),
        ("check_source", texts::try_check),
        ("run_script", texts::try_script),
        ("cells", cores::try_cells),
    ];
    let mut ends_well = true;
    for (name, trial) in trials {
        if is_asked(&asked, name) {
            ends_well &= report(&rt, name, trial(rt.alloc()));
        }
    }
    // Calls that may wait, for a lock or a thread, can't be in the table.
    if is_asked(&asked, "Desk::setup, cut, Card::close") {
        let outcome = running::try_card(&rt, rt.alloc());
        ends_well &= report(&rt, "Desk::setup, cut, Card::close", outcome);
    }
    if is_asked(&asked, "run_ports") {
        ends_well &= report(&rt, "run_ports", texts::try_ports(&rt, rt.alloc()));
    }
    if ends_well {
        ExitCode::SUCCESS
    } else {
        ExitCode::from(1)
    }
}

/// Whether this call is made: all are if there is no name.
fn is_asked(asked: &Option<String>, name: &str) -> bool {
    match asked {
        Some(asked) => asked.as_str() == name,
        None => true,
    }
}

/// Prints how a trial ended, and returns whether it ended well.
fn report(rt: &HostRuntime, name: &str, outcome: Attempt) -> bool {
    let word = match outcome {
        Attempt::Ample => "answered",
        Attempt::Refused => "refused, and answered when made again",
        Attempt::Otherwise => "OTHERWISE",
    };
    println!(rt; "{name}: {word}").is_ok() && outcome != Attempt::Otherwise
}

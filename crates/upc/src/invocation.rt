//! Runs the program over three devices and returns its exit status.

ghost use Rattle.std.specs.Prelude.{◌≡◌, ◌≢◌, Ok as TheOk};
ghost use Rattle.upc.specs.FailureLines.{failure_message};
ghost use Rattle.upc.specs.Subcommand.{IsTextOf};
ghost use Rattle.text_command_line.specs.declared.choice.Choice.TheVariants.{Ports};
ghost use Rattle.text_command_line.specs.ExitStatus.{status_of};
ghost use Rattle.text_command_line.specs.Invocation.{CarriesOut, IsStatusFor};
ghost use Rattle.text_command_line.specs.Messages.{Reports};

use crate::subcommand::run_on_one_thread;
use cmd_ports::run_ports;
use std::alloc::Global;
use std::sync::Wait;
use std::thread::Threads;
use text_command_line::{Choice, Stop, status, write_message};
use text_io::{Ending, Input, Output, RunFault, give_all};

/// Writes the message for a failed run, and returns the exit status of any run.
fn report<E: Output>(errors: &mut E, ended: Ending) -> u8
    ensures status { result ≡ status_of ended }
    ensures reported { E.is_known → Reports failure_message E.Output errors.old errors.new ended }
{
    match ended {
        Ok(_) => {}
        Err(RunFault::ReadFailed) => write_message(errors, b"upc: reading failed\n"),
        Err(RunFault::WriteFailed) => write_message(errors, b"upc: writing failed\n"),
        Err(RunFault::NoMemory) => write_message(errors, b"upc: out of memory\n"),
    }
    status(&ended)
}

/// Does what the words ask for, except `ports`, and returns the exit status. It runs the subcommand, writes the help,
/// or writes a message about the words; a failure also gets a message. It uses one thread and always terminates.
pub fn carry_out_on_one_thread<I: Input, O: Output, E: Output>(
    alloc: Global,
    chosen: Result<Choice, Stop>,
    input: &mut I,
    output: &mut O,
    errors: &mut E,
) -> u8
    requires no_ports { chosen ≢ TheOk Ports }
    ensures carried { I.is_known → O.is_known → E.is_known → CarriesOut failure_message IsTextOf chosen I.Input input.old input.new
        O.Output output.old output.new E.Output errors.old errors.new result }
    ensures status { IsStatusFor chosen result }
{
    match chosen {
        Ok(choice) => {
            let ended = run_on_one_thread(alloc, choice, input, output);
            report(errors, ended)
        }
        Err(Stop::Help(text)) => match give_all(output, text.as_bytes()) {
            Ok(()) => 0,
            Err(_) => report(errors, Err(RunFault::WriteFailed)),
        },
        Err(Stop::Words(text)) => {
            write_message(errors, text.as_bytes());
            2
        }
        Err(Stop::NoMemory) => report(errors, Err(RunFault::NoMemory)),
    }
}

/// Does what the words ask for, and returns the exit status. Only `ports` starts threads and waits for them. For all
/// else it calls [`carry_out_on_one_thread`].
pub fn carry_out<R: Threads + Wait + Sync, I: Input, O: Output, E: Output>(
    rt: &R,
    alloc: Global,
    chosen: Result<Choice, Stop>,
    input: &mut I,
    output: &mut O,
    errors: &mut E,
) -> u8
    ensures carried { I.is_known → O.is_known → E.is_known → CarriesOut failure_message IsTextOf chosen I.Input input.old input.new
        O.Output output.old output.new E.Output errors.old errors.new result }
    ensures status { IsStatusFor chosen result }
{
    match chosen {
        Ok(Choice::Ports) => {
            let ended = run_ports(rt, alloc, input, output);
            report(errors, ended)
        }
        others => carry_out_on_one_thread(alloc, others, input, output, errors),
    }
}

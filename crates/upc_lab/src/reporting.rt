//! What is written of a run to the error output, and the exit status.

ghost use Rattle.std.specs.Prelude.{◌≡◌, IfErr, OnOk};
ghost use Rattle.cmd_differ.specs.Findings.{ended_by};
ghost use Rattle.text_command_line.specs.ExitStatus.{status_of};
ghost use Rattle.text_command_line.specs.Messages.{Reports, WritesMessage};
ghost use Rattle.upc_lab.specs.Comparison.{finding_status};
ghost use Rattle.upc_lab.specs.LabMessages.{message_over, shell_status_of};

use crate::reason::Reasoned;
use cmd_differ::{Finding, ended_by};
use text_command_line::{status, write_message};
use text_io::{Ending, Output, RunFault};

/// The message for a failure of a run over these devices.
fn line_of<'a, I: Reasoned, O: Reasoned>(fault: RunFault, input: &'a I, output: &'a O) -> &'a [u8]
    ensures { result.now ≡ message_over I.Reasoned input.now O.Reasoned output.now fault }
{
    match fault {
        RunFault::ReadFailed => input.message(),
        RunFault::WriteFailed => {
            if output.is_closed() {
                &[]
            } else {
                output.message()
            }
        }
        RunFault::NoMemory => b"upc-lab: out of memory\n",
    }
}

/// Writes the message for a failed run, and returns the exit status of any run.
pub(crate) fn report<I: Reasoned, O: Reasoned, E: Output>(
    ended: Ending,
    input: &I,
    output: &O,
    errors: &mut E,
) -> u8
    ensures status { result ≡ status_of ended }
    ensures reported { E.is_known → Reports (message_over I.Reasoned input.now O.Reasoned output.now)
        E.Output errors.old errors.new ended }
{
    match ended {
        Ok(_) => status(&ended),
        Err(fault) => {
            write_message(errors, line_of(fault, input, output));
            status(&ended)
        }
    }
}

/// Returns the exit status as a shell expects it: 141 if a run failed because nobody reads the output.
pub fn shell_status(status: u8, closed: bool) -> u8
    ensures { result ≡ shell_status_of status closed }
{
    if closed && status == 3 { 141 } else { status }
}

/// Returns the exit status of a run with a finding.
pub(crate) fn finding_status(ended: &Result<Finding, RunFault>) -> u8
    ensures { result ≡ finding_status ended.now }
{
    match ended {
        Ok(Finding::Nothing) => 0,
        Ok(Finding::Something | Finding::Faulty) => 1,
        Ok(Finding::Undecided) | Err(_) => 3,
    }
}

/// Writes the message for a failed run with a finding, and returns the exit status of any such run.
pub(crate) fn report_finding<I: Reasoned, O: Reasoned, E: Output>(
    ended: Result<Finding, RunFault>,
    input: &I,
    output: &O,
    errors: &mut E,
) -> u8
    ensures status { result ≡ finding_status ended }
    ensures reported { E.is_known → Reports (message_over I.Reasoned input.now O.Reasoned output.now)
        E.Output errors.old errors.new (ended_by ended) }
{
    let status = finding_status(&ended);
    let _ = report(ended_by(ended), input, output, errors);
    status
}

/// Writes what is reported of a run, or the message for a failed one, and returns the exit status.
pub(crate) fn report_run<I: Reasoned, O: Reasoned, E: Output>(
    ended: Ending,
    said: &[u8],
    input: &I,
    output: &O,
    errors: &mut E,
) -> u8
    ensures status { result ≡ status_of ended }
    ensures ok { E.is_known → OnOk ended (WritesMessage E.Output errors.old errors.new said.now) }
    ensures failed { E.is_known → IfErr ended (λ fault. WritesMessage E.Output errors.old errors.new
        (message_over I.Reasoned input.now O.Reasoned output.now fault)) }
{
    match ended {
        Ok(_) => write_message(errors, said),
        Err(fault) => write_message(errors, line_of(fault, input, output)),
    }
    status(&ended)
}

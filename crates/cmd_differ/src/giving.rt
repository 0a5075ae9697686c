//! The answer with its finding, given to the output.

ghost use Rattle.std.specs.Prelude.{◌≡◌, ◌++◌, Err, IfOk, OnErr, OnOk};
ghost use Rattle.text_io.specs.Devices.{IsPart};
ghost use Rattle.text_io.specs.Failures.{write_failures};
ghost use Rattle.cmd_differ.specs.Findings.{ended_by};

use crate::finding::{Finding, done_of};
use text_io::{Output, RunFault, give_last};

/// Writes the answer, and returns what was found.
pub(crate) fn give_finding<O: Output>(
    output: &mut O,
    answers: &mut Vec<u8>,
    finding: Finding,
) -> Result<Finding, RunFault>
    ensures found { IfOk result (λ value. value ≡ finding) }
    ensures given { O.is_known → OnOk result (O.held output.new ≡ O.held output.old ++ answers.old.items) }
    ensures front { O.is_known → OnErr result (IsPart (O.held output.old) (O.held output.new) answers.old.items) }
    ensures fault { OnErr result (result ≡ Err RunFault.WriteFailed) }
    ensures writing { O.failures output.new ≡ write_failures (ended_by result) (O.failures output.old) }
{
    match give_last(output, answers, done_of(finding)) {
        Ok(_) => Ok(finding),
        Err(fault) => Err(fault),
    }
}

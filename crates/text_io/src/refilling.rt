//! Writing what was collected, and then reading more.

ghost use Rattle.std.specs.Prelude.{◌≡◌, ◌+◌, ◌<◌, ◌≤◌, ◌++◌, [], length, take, IfOk, OnOk, OnErr, Ok};
ghost use Rattle.text_io.specs.Devices.{IsPart};
ghost use Rattle.text_io.specs.Failures.{read_failures, write_failures};

use crate::delivery::give_answers;
use crate::device::{Input, Output};
use crate::ending::RunFault;
use crate::window::Window;

/// Writes the collected answers and clears them, and then reads at most `most` more octets into the window. Returns
/// their number. It is 0 only at the end of the input.
///
/// # Errors
///
/// `WriteFailed` or `ReadFailed` if that device failed. After `WriteFailed` a prefix of the answers may have been
/// written.
pub fn refill<const ROOM: usize, I: Input, O: Output>(
    window: &mut Window<ROOM>,
    most: usize,
    input: &mut I,
    output: &mut O,
    answers: &mut Vec<u8>,
) -> Result<usize, RunFault>
    requires room { length window.old < ROOM }
    requires some { 0 < most }
    ensures most { IfOk result (λ count. count ≤ most) }
    ensures octets { I.is_known → IfOk result (λ _. window.old ++ I.rest input.old ≡ window.new ++ I.rest input.new) }
    ensures count { IfOk result (λ count. length window.new ≡ length window.old + count) }
    ensures front_octets { IfOk result (λ _. take (length window.old) window.new ≡ window.old) }
    ensures bounded { length window.new ≤ ROOM }
    ensures same { result ≡ Ok 0 → window.new ≡ window.old }
    ensures end { I.is_known → result ≡ Ok 0 → I.rest input.new ≡ [] }
    ensures given { O.is_known → OnOk result
        (O.held output.new ≡ O.held output.old ++ answers.old.items) }
    ensures none { OnOk result (answers.new.items ≡ []) }
    ensures front { O.is_known → OnErr result
        (IsPart (O.held output.old) (O.held output.new) answers.old.items) }
    ensures reading { I.failures input.new ≡ read_failures result (I.failures input.old) }
    ensures writing { O.failures output.new ≡ write_failures result (O.failures output.old) }
{
    if give_answers(output, answers).is_err() {
        return Err(RunFault::WriteFailed);
    }
    match window.fill(input, most) {
        Ok(count) => Ok(count),
        Err(_) => Err(RunFault::ReadFailed),
    }
}

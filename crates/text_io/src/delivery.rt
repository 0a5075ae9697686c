//! Writing collected answers to an output.

ghost use Rattle.std.specs.Prelude.{◌≡◌, ◌++◌, List, ℕ, [], take, Err, IfOk, OnOk, OnErr};
ghost use Rattle.text_io.specs.Devices.{one_more, IsPart, WritesPrefix};
ghost use Rattle.text_io.specs.Failures.{write_failures};

use crate::device::{Failed, Output};
use crate::ending::{Done, Ending, RunFault};

/// Collected answers are written as soon as they have this many octets.
const ENOUGH: usize = 65536;

/// Writes all octets, in as many calls as the output needs.
///
/// # Errors
///
/// `Failed` at the first call that fails; a prefix of the octets may have been written.
pub fn give_all<O: Output>(output: &mut O, octets: &[u8]) -> Result<(), Failed>
    ensures ok { O.is_known → OnOk result (O.held output.new ≡ O.held output.old ++ octets.now) }
    ensures front { O.is_known → IsPart (O.held output.old) (O.held output.new) octets.now }
    ensures calm { OnOk result (O.failures output.new ≡ O.failures output.old) }
    ensures failed { OnErr result (O.failures output.new ≡ one_more (O.failures output.old)) }
{
    let mut given = 0;
    while given < octets.len() {
        given += output.give(&octets[given..])?;
    }
    Ok(())
}

/// Writes the collected answers and clears them.
///
/// # Errors
///
/// `Failed` at the first call that fails; a prefix of the octets may have been written.
pub fn give_answers<O: Output>(output: &mut O, answers: &mut Vec<u8>) -> Result<(), Failed>
    ensures ok { O.is_known → OnOk result (O.held output.new ≡ O.held output.old ++ answers.old.items) }
    ensures none { OnOk result (answers.new.items ≡ []) }
    ensures front { O.is_known → IsPart (O.held output.old) (O.held output.new) answers.old.items }
    ensures calm { OnOk result (O.failures output.new ≡ O.failures output.old) }
    ensures failed { OnErr result (O.failures output.new ≡ one_more (O.failures output.old)) }
{
    give_all(output, answers)?;
    answers.clear();
    Ok(())
}

/// Writes the collected answers and clears them, if there are enough of them.
///
/// # Errors
///
/// `Failed` at the first call that fails; a prefix of the octets may have been written.
#[inline(always)]
pub fn give_if_enough<O: Output>(output: &mut O, answers: &mut Vec<u8>) -> Result<(), Failed>
    ensures moved { O.is_known → OnOk result
        (WritesPrefix (O.held output.old) (O.held output.new) answers.old.items answers.new.items) }
    ensures front { O.is_known → OnErr result
        (IsPart (O.held output.old) (O.held output.new) answers.old.items) }
    ensures calm { OnOk result (O.failures output.new ≡ O.failures output.old) }
    ensures failed { OnErr result (O.failures output.new ≡ one_more (O.failures output.old)) }
{
    if answers.len() < ENOUGH {
        return Ok(());
    }
    give_answers(output, answers)
}

/// Writes the last answers of a run, and returns `done`.
///
/// # Errors
///
/// `WriteFailed` at the first call that fails; a prefix of the octets may have been written.
pub fn give_last<O: Output>(output: &mut O, answers: &mut Vec<u8>, done: Done) -> Ending
    ensures done { IfOk result (λ value. value ≡ done) }
    ensures given { O.is_known → OnOk result
        (O.held output.new ≡ O.held output.old ++ answers.old.items) }
    ensures front { O.is_known → OnErr result
        (IsPart (O.held output.old) (O.held output.new) answers.old.items) }
    ensures fault { OnErr result (result ≡ Err RunFault.WriteFailed) }
    ensures writing { O.failures output.new ≡ write_failures result (O.failures output.old) }
{
    match give_answers(output, answers) {
        Ok(()) => Ok(done),
        Err(_) => Err(RunFault::WriteFailed),
    }
}

//! The driver: reads a capture to its end.

ghost use Rattle.std.specs.Prelude.{◌≡◌, ◌≢◌, ◌≤◌, ◌++◌, List, ℕ, [], Ok, Err, length, IfErr, IfOk, OnOk};
ghost use Rattle.captures_text.specs.CaptureText.{done_at as ends_at};
ghost use Rattle.captures_text.specs.inner.Progress.{HasRead};
ghost use Rattle.text_io.specs.Failures.{read_failures};
ghost use Rattle.cmd_fit.specs.inner.LinkStates.{links_state};
ghost use Rattle.cmd_fit.specs.LinksText.{links_lines};
ghost use Rattle.cmd_fit.specs.inner.LinksSteps.{LinksHere};

use crate::link_lines::add_links;
use crate::link_table::LinkTable;
use crate::links_reading::{LinksReading, StepOutcome};
use captures::Fault;
use captures_text::{READING_OCTETS, done_at};
use text_io::{Done, Ending, Input, RunFault};

/// Appends the text after all records.
pub(crate) fn finish(answers: &mut Vec<u8>, table: &LinkTable, ending: Option<Fault>) -> Ending
    ensures said { OnOk result (answers.new.items ≡ answers.old.items ++ links_lines (links_state table.now) ending) }
    ensures done { IfOk result (λ done. done ≡ ends_at ending) }
    ensures fault { IfErr result (λ fault. fault ≡ RunFault.NoMemory) }
{
    match add_links(answers, table, ending) {
        Err(_) => Err(RunFault::NoMemory),
        Ok(()) => Ok(done_at(ending)),
    }
}

/// Reads a capture from here to its end, and appends the text.
pub(crate) fn read_on<I: Input>(
    input: &mut I,
    mut reading: LinksReading,
    answers: &mut Vec<u8>,
) -> Ending
    requires { length reading.window ≤ 524288 }
    ensures text { I.is_known → IfOk result (λ done. (text : List ℕ) × (answers.new.items ≡ answers.old.items ++ text)
        × LinksHere reading (reading.window ++ I.rest input.old) text done) }
    ensures left { I.is_known → IfOk result (λ done.
        HasRead (LinksHere reading) reading.window (I.rest input.old) (I.rest input.new) done) }
    ensures whole { I.is_known → result ≡ Ok Done.Whole → I.rest input.new ≡ [] }
    ensures fault { result ≢ Err RunFault.WriteFailed }
    ensures read { I.failures input.new ≡ read_failures result (I.failures input.old) }
{
    loop {
        match reading.step() {
            Err(_) => return Err(RunFault::NoMemory),
            Ok(StepOutcome::GoesOn) => {}
            Ok(StepOutcome::Broken(fault)) => return finish(answers, &reading.table, Some(fault)),
            Ok(StepOutcome::NeedsOctets) => match reading.window.fill(input, READING_OCTETS) {
                Err(_) => return Err(RunFault::ReadFailed),
                Ok(0) => {
                    let ending = reading.reader.end(reading.window.octets());
                    return finish(answers, &reading.table, ending);
                }
                Ok(_) => {}
            },
        }
    }
}

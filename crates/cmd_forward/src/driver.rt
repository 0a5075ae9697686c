//! The driver: writes the records of a capture that go on.

ghost use Rattle.std.specs.Prelude.{◌≡◌, ◌≢◌, ◌≤◌, ◌++◌, List, ℕ, [], None, Ok, Err, length, IfOk, OnErr, OnOk};
ghost use Rattle.captures.specs.Frames.{first_frame};
ghost use Rattle.captures_text.specs.inner.Progress.{HasRead};
ghost use Rattle.text_io.specs.Devices.{Adds, IsPart};
ghost use Rattle.text_io.specs.Failures.{read_failures, write_failures};
ghost use Rattle.text_io.specs.Printing.{IsFront};
ghost use Rattle.cmd_forward.specs.JudgeRules.{OfEachJudgeWorld};
ghost use Rattle.cmd_forward.specs.inner.ForwardSteps.{ForwardsHere, ForwardsSomehow};

use crate::judge::{CellJudge, judges_each_cell};
use crate::others::Others;
use crate::stepping::{ForwardReading, StepOutcome};
use captures_text::{READING_OCTETS, done_at};
use std::alloc::Global;
use text_io::{Done, Ending, Input, Output, RunFault, give_if_enough, give_last, refill};

/// Appends the report about the end of the input, and writes the last records. The octets still in the window are no whole frame.
fn finish<O: Output, J: CellJudge>(
    others: Others,
    output: &mut O,
    judge: &J,
    reading: &ForwardReading,
    written: &mut Vec<u8>,
    report: &mut Vec<u8>,
) -> Ending
    requires { first_frame reading.now.reader.format reading.now.reader.at reading.now.window ≡ None }
    ensures said { IfOk result (λ done. OfEachJudgeWorld J.rules (J.shows judge.now) (λ world. (said : List ℕ)
        × (report.new.items ≡ report.old.items ++ said)
        × ForwardsHere J.rules others reading.now world said reading.now.window [] done)) }
    ensures given { O.is_known → OnOk result (O.held output.new ≡ O.held output.old ++ written.old.items) }
    ensures front { O.is_known → OnErr result (IsPart (O.held output.old) (O.held output.new) written.old.items) }
    ensures fault { result ≢ Err RunFault.ReadFailed }
    ensures writing { O.failures output.new ≡ write_failures result (O.failures output.old) }
{
    let ending = reading.reader.end(reading.window.octets());
    match judge.close(&reading.filter.summary(), ending, report) {
        Err(_) => Err(RunFault::NoMemory),
        Ok(()) => give_last(output, written, done_at(ending)),
    }
}

/// Writes the records of a capture that go on, from here on: those of the octets that wait, and then those of the input.
pub(crate) fn forward_on<I: Input, O: Output, J: CellJudge>(
    alloc: Global,
    others: Others,
    input: &mut I,
    output: &mut O,
    judge: &mut J,
    mut reading: ForwardReading,
    report: &mut Vec<u8>,
) -> Ending
    requires { length reading.window ≤ 524288 }
    ensures text { I.is_known → O.is_known → IfOk result (λ done. OfEachJudgeWorld J.rules (J.shows judge.old) (λ first. (said : List ℕ)
        × (report.new.items ≡ report.old.items ++ said)
        × Adds (λ text. ForwardsHere J.rules others reading first said (reading.window ++ I.rest input.old) text done)
        (O.held output.old) (O.held output.new))) }
    ensures front { I.is_known → O.is_known → OnErr result (OfEachJudgeWorld J.rules (J.shows judge.old) (λ first.
        Adds (IsFront (ForwardsSomehow J.rules others reading first (reading.window ++ I.rest input.old)))
        (O.held output.old) (O.held output.new))) }
    ensures left { I.is_known → IfOk result (λ done. OfEachJudgeWorld J.rules (J.shows judge.old) (λ first.
        HasRead (ForwardsSomehow J.rules others reading first) reading.window (I.rest input.old) (I.rest input.new) done)) }
    ensures whole { I.is_known → result ≡ Ok Done.Whole → I.rest input.new ≡ [] }
    ensures read { I.failures input.new ≡ read_failures result (I.failures input.old) }
    ensures written { O.failures output.new ≡ write_failures result (O.failures output.old) }
{
    judges_each_cell(judge);
    let mut written = Vec::new(alloc);
    loop {
        match reading.step(others, judge, &mut written, report) {
            Err(_) => return Err(RunFault::NoMemory),
            Ok(StepOutcome::Ended) => return give_last(output, &mut written, Done::Ended),
            Ok(StepOutcome::GoesOn) => {
                if give_if_enough(output, &mut written).is_err() {
                    return Err(RunFault::WriteFailed);
                }
            }
            Ok(StepOutcome::NeedsOctets) => match refill(
                &mut reading.window,
                READING_OCTETS,
                input,
                output,
                &mut written,
            ) {
                Err(fault) => return Err(fault),
                Ok(0) => return finish(others, output, judge, &reading, &mut written, report),
                Ok(_) => {}
            },
        }
    }
}

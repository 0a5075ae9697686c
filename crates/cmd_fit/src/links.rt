//! The links of a whole capture: `upc-lab links`.

ghost use Rattle.std.specs.Prelude.{◌≡◌, ◌≢◌, ◌++◌, [], Ok, Err, List, ℕ, IfErr, IfOk, OnOk};
ghost use Rattle.captures_text.specs.CaptureFaults.{file_fault_line};
ghost use Rattle.text_io.specs.Devices.{TakesEnough};
ghost use Rattle.text_io.specs.Failures.{read_failures};
ghost use Rattle.text_io.specs.Limits.{most_ahead};
ghost use Rattle.text_io.specs.Serving.{IsServed};
ghost use Rattle.cmd_fit.specs.LinksText.{IsLinksText};

use crate::link_table::LinkTable;
use crate::links_driver::{finish, read_on};
use crate::links_reading::LinksReading;
use captures::{FileFault, Opening, Reader};
use captures_text::{WINDOW_ROOM, add_file_fault, find_opening, short_fault};
use std::alloc::Global;
use text_io::{Done, Ending, Input, Output, RunFault, Window, give_last};

/// Appends the answer to a file that isn't read.
fn refuse(answers: &mut Vec<u8>, fault: FileFault) -> Ending
    ensures said { OnOk result (answers.new.items ≡ answers.old.items ++ file_fault_line fault) }
    ensures done { IfOk result (λ done. done ≡ Done.Ended) }
    ensures fault { IfErr result (λ fault. fault ≡ RunFault.NoMemory) }
{
    match add_file_fault(answers, fault) {
        Err(_) => Err(RunFault::NoMemory),
        Ok(()) => Ok(Done::Ended),
    }
}

/// Reads a capture to its end, and appends the text.
fn add_text_of<I: Input>(alloc: Global, input: &mut I, answers: &mut Vec<u8>) -> Ending
    ensures text { I.is_known → IfOk result (λ done. (text : List ℕ) × (answers.new.items ≡ answers.old.items ++ text)
        × IsLinksText (I.rest input.old) text done) }
    ensures left { I.is_known → IfOk result (λ done.
        TakesEnough (λ octets. (text : List ℕ) × IsLinksText octets text done) most_ahead (I.rest input.old) (I.rest input.new)) }
    ensures whole { I.is_known → result ≡ Ok Done.Whole → I.rest input.new ≡ [] }
    ensures fault { result ≢ Err RunFault.WriteFailed }
    ensures read { I.failures input.new ≡ read_failures result (I.failures input.old) }
{
    let Ok(mut window) = Window::<WINDOW_ROOM>::new(alloc) else {
        return Err(RunFault::NoMemory);
    };
    match find_opening(&mut window, input) {
        Err(_) => Err(RunFault::ReadFailed),
        Ok(Opening::Refused(fault)) => refuse(answers, fault),
        Ok(Opening::Undecided) => {
            let fault = short_fault(window.octets());
            finish(answers, &LinkTable::new(alloc), Some(fault))
        }
        Ok(Opening::Opened(format)) => {
            window.skip(format.start());
            let reading = LinksReading {
                window,
                reader: Reader::new(format),
                table: LinkTable::new(alloc),
            };
            read_on(input, reading, answers)
        }
    }
}

/// Answers a capture by its links: a line for each link of a cell, in order of their first cells, with the number of
/// its cells, the times of the first and the last one, and how many records were lost before them. Then come the
/// comments about records that were passed over, and the fault at which the reading ended.
///
/// Memory is bounded: a buffer of 524,288 octets and another one of this size, and what is known of 4096 links.
///
/// # Errors
///
/// See [`RunFault`].
pub fn links_of_capture<I: Input, O: Output>(alloc: Global, input: &mut I, output: &mut O) -> Ending
    ensures { IsServed IsLinksText I.Input input.old input.new O.Output output.old output.new result }
{
    let mut answers = Vec::new(alloc);
    match add_text_of(alloc, input, &mut answers) {
        Err(fault) => Err(fault),
        Ok(done) => give_last(output, &mut answers, done),
    }
}

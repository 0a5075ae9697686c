//! Opens a capture, and runs a follower over its cells that count.

ghost use Rattle.std.specs.Prelude.{◌≡◌, ◌≢◌, ◌≤◌, ◌++◌, [], Err, Some, length, IfOk, OnErr, OnOk};
ghost use Rattle.captures.specs.Opening.{file_opening, opening_of};
ghost use Rattle.captures_text.specs.CaptureFaults.{file_fault_line};
ghost use Rattle.captures_text.specs.CaptureText.{IsCaptureText, short_fault as fault_if_short};
ghost use Rattle.captures_text.specs.CellFilter.{filter_start};
ghost use Rattle.captures_text.specs.CellFollowing.{OfEachWorld};
ghost use Rattle.text_io.specs.Devices.{IsPart, one_more};
ghost use Rattle.text_io.specs.Failures.{write_failures};
ghost use Rattle.text_io.specs.Serving.{IsServed};

use crate::driver::follow_on;
use crate::fault_lines::{add_file_fault, write_faults};
use crate::filter::CellFilter;
use crate::follower::{CellFollower, answers_each_cell};
use crate::reading_ahead::{ReadingAhead, WINDOW_ROOM};
use crate::reading_summary::ReadingSummary;
use captures::{
    Fault, FileFault, Link, Opening, Reader, RecordFault, Tick, TimeSource, is_text, open,
    open_whole,
};
use std::alloc::Global;
use std::thread::Threads;
use text_io::{Done, Ending, Failed, Input, Output, RunFault, Window};

/// Reads the first octets of a file, until they say what it is or the file ends, and returns what it is.
pub fn find_opening<I: Input>(
    window: &mut Window<WINDOW_ROOM>,
    input: &mut I,
) -> Result<Opening, Failed>
    requires { window.old ≡ [] }
    ensures octets { I.is_known → IfOk result (λ _. I.rest input.old ≡ window.new ++ I.rest input.new) }
    ensures opening { IfOk result (λ opening. opening ≡ file_opening window.new) }
    ensures bounded { length window.new ≤ 524288 }
    ensures end { I.is_known → IfOk result (λ _. opening_of window.new ≡ Opening.Undecided → I.rest input.new ≡ []) }
    ensures calm { OnOk result (I.failures input.new ≡ I.failures input.old) }
    ensures failed { OnErr result (I.failures input.new ≡ one_more (I.failures input.old)) }
{
    loop {
        match open(window.octets()) {
            Opening::Undecided => {}
            // These octets are not empty, so `open_whole` gives what `open` gave.
            _ => return Ok(open_whole(window.octets())),
        }
        if window.fill(input, WINDOW_ROOM)? == 0 {
            return Ok(open_whole(window.octets()));
        }
    }
}

/// Returns the fault of a file that is too short for a capture.
pub fn short_fault(octets: &[u8]) -> Fault
    ensures { result ≡ fault_if_short octets.now }
{
    let reason = if is_text(octets) {
        RecordFault::ShortText
    } else {
        RecordFault::CutOff
    };
    Fault { at: 0, reason }
}

/// Writes the fault line of a file that isn't read.
fn refuse<O: Output>(alloc: Global, output: &mut O, fault: FileFault) -> Ending
    ensures done { IfOk result (λ done. done ≡ Done.Ended) }
    ensures given { O.is_known → OnOk result (O.held output.new ≡ O.held output.old ++ file_fault_line fault) }
    ensures front { O.is_known → OnErr result (IsPart (O.held output.old) (O.held output.new) (file_fault_line fault)) }
    ensures fault { result ≢ Err RunFault.ReadFailed }
    ensures writing { O.failures output.new ≡ write_failures result (O.failures output.old) }
{
    let mut answers = Vec::new(alloc);
    match add_file_fault(&mut answers, fault) {
        Err(_) => Err(RunFault::NoMemory),
        Ok(()) => write_faults(output, answers),
    }
}

/// Answers a file that is too short for a capture.
fn close_short<O: Output, F: CellFollower>(
    alloc: Global,
    output: &mut O,
    follower: &F,
    summary: &ReadingSummary,
    octets: &[u8],
) -> Ending
    ensures done { IfOk result (λ done. done ≡ Done.Ended) }
    ensures given { O.is_known → OnOk result (OfEachWorld F.rules (F.shows follower.now) (λ world.
        O.held output.new ≡ O.held output.old ++ F.rules.closes world summary.now (Some (fault_if_short octets.now)))) }
    ensures front { O.is_known → OnErr result (OfEachWorld F.rules (F.shows follower.now) (λ world.
        IsPart (O.held output.old) (O.held output.new) (F.rules.closes world summary.now (Some (fault_if_short octets.now))))) }
    ensures fault { result ≢ Err RunFault.ReadFailed }
    ensures writing { O.failures output.new ≡ write_failures result (O.failures output.old) }
{
    let fault = short_fault(octets);
    let mut answers = Vec::new(alloc);
    match follower.close(summary, Some(fault), &mut answers) {
        Err(_) => Err(RunFault::NoMemory),
        Ok(()) => write_faults(output, answers),
    }
}

/// Runs a follower over the cells of a capture that count, in bounded memory: two buffers of 524,288 octets, the cells that were read from
/// them, and the answers to these cells.
///
/// With one thread, what was read is answered before more is read. With two, records are read on one thread while the cells of earlier ones
/// are answered on another. The second thread is used only after a reading that fills the window, as one of a file does and one of a pipe
/// doesn't.
///
/// # Errors
///
/// See [`RunFault`].
pub fn follow_cells<R: Threads, I: Input + Send, O: Output, F: CellFollower + Send>(
    rt: &R,
    threads: usize,
    alloc: Global,
    tick: Tick,
    link: Option<Link>,
    timing: TimeSource,
    input: &mut I,
    output: &mut O,
    follower: &mut F,
) -> Ending
    ensures { OfEachWorld F.rules (F.shows follower.old) (λ world.
        IsServed (IsCaptureText F.rules (filter_start tick.nanoseconds link timing) world)
        I.Input input.old input.new O.Output output.old output.new result) }
{
    answers_each_cell(follower);
    let filter = CellFilter::new(tick, link, timing);
    let Ok(mut window) = Window::<WINDOW_ROOM>::new(alloc) else {
        return Err(RunFault::NoMemory);
    };
    match find_opening(&mut window, input) {
        Err(_) => Err(RunFault::ReadFailed),
        Ok(Opening::Refused(fault)) => refuse(alloc, output, fault),
        Ok(Opening::Undecided) => {
            close_short(alloc, output, follower, &filter.summary(), window.octets())
        }
        Ok(Opening::Opened(format)) => {
            window.skip(format.start());
            let reading = ReadingAhead {
                window,
                reader: Reader::new(format.timed_by(timing)),
                filter,
            };
            follow_on(rt, 1 < threads, alloc, input, output, follower, reading)
        }
    }
}

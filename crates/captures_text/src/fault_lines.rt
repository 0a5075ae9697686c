//! The fault lines of captures. Each function appends to the answers.

ghost use Rattle.std.specs.Prelude.{◌≡◌, ◌≢◌, ◌++◌, decimal, Err, IfOk, OnErr, OnOk};
ghost use Rattle.captures_text.specs.CaptureFaults.{capture_fault_line, file_fault_line, record_fault_text};
ghost use Rattle.text_io.specs.Devices.{IsPart};
ghost use Rattle.text_io.specs.Failures.{write_failures};

use captures::{Fault, FileFault, RecordFault};
use text_io::{Added, Done, Ending, Output, RunFault, give_last};
use text_words::{add_number, add_numbered, add_text};

/// Appends the answer to a file that isn't read.
pub fn add_file_fault(answers: &mut Vec<u8>, fault: FileFault) -> Added
    ensures { OnOk result (answers.new.items ≡ answers.old.items ++ file_fault_line fault) }
{
    match fault {
        FileFault::Gzip => add_text(answers, b"fault file 1 Gzip\n"),
        FileFault::OtherLink(link) => {
            add_numbered(answers, b"fault file 2 OtherLink ", link as usize)
        }
        FileFault::Text => add_text(answers, b"fault file 3 Text\n"),
        FileFault::Xz => add_text(answers, b"fault file 4 Xz\n"),
        FileFault::Bzip2 => add_text(answers, b"fault file 5 Bzip2\n"),
        FileFault::Zstd => add_text(answers, b"fault file 6 Zstd\n"),
        FileFault::Empty => add_text(answers, b"fault file 7 Empty\n"),
    }
}

/// Appends a text and a number. `add_numbered` adds a line feed too.
#[tactic(auto, using(std::proofs::lemmas::List::append_assoc))]
pub(crate) fn add_with_number(answers: &mut Vec<u8>, text: &[u8], number: u32) -> Added
    ensures { OnOk result (answers.new.items ≡ answers.old.items ++ (text.now ++ decimal number)) }
{
    add_text(answers, text)?;
    add_number(answers, u64::from(number))
}

/// Appends the number and name of a fault.
fn add_record_fault(answers: &mut Vec<u8>, fault: RecordFault) -> Added
    ensures { OnOk result (answers.new.items ≡ answers.old.items ++ record_fault_text fault) }
{
    match fault {
        RecordFault::CutOff => add_text(answers, b"1 CutOff"),
        RecordFault::ShortLength(n) => add_with_number(answers, b"2 ShortLength ", n),
        RecordFault::LongLength(n) => add_with_number(answers, b"3 LongLength ", n),
        RecordFault::ShortRecord => add_text(answers, b"4 ShortRecord"),
        RecordFault::TooFar => add_text(answers, b"5 TooFar"),
        RecordFault::OddLength(n) => add_with_number(answers, b"6 OddLength ", n),
        RecordFault::LengthsDiffer(n) => add_with_number(answers, b"7 LengthsDiffer ", n),
        RecordFault::OtherMagic(n) => add_with_number(answers, b"8 OtherMagic ", n),
        RecordFault::OtherVersion(n) => {
            add_with_number(answers, b"9 OtherVersion ", u32::from(n))
        }
        RecordFault::ShortBlock(n) => add_with_number(answers, b"10 ShortBlock ", n),
        RecordFault::OtherLink(n) => add_with_number(answers, b"11 OtherLink ", u32::from(n)),
        RecordFault::NoInterface(n) => add_with_number(answers, b"12 NoInterface ", n),
        RecordFault::LongPacket(n) => add_with_number(answers, b"13 LongPacket ", n),
        RecordFault::ShortText => add_text(answers, b"14 ShortText"),
        RecordFault::OtherResolution(n) => {
            add_with_number(answers, b"15 OtherResolution ", u32::from(n))
        }
        RecordFault::OtherUnit(n) => add_with_number(answers, b"16 OtherUnit ", u32::from(n)),
    }
}

/// Appends the answer to a place at which a file is no capture.
#[tactic(auto, using(std::proofs::lemmas::List::append_assoc))]
pub(crate) fn add_capture_fault(answers: &mut Vec<u8>, fault: Fault) -> Added
    ensures { OnOk result (answers.new.items ≡ answers.old.items ++ capture_fault_line fault) }
{
    add_text(answers, b"fault capture ")?;
    add_record_fault(answers, fault.reason)?;
    answers.push(b' ')?;
    add_number(answers, fault.at)?;
    answers.push(b'\n')?;
    Ok(())
}

/// Writes a text about faults in place of the answer to a capture.
///
/// # Errors
///
/// `WriteFailed` if the device failed. The output is then a prefix of the text.
pub fn write_faults<O: Output>(output: &mut O, mut text: Vec<u8>) -> Ending
    ensures done { IfOk result (λ done. done ≡ Done.Ended) }
    ensures given { O.is_known → OnOk result (O.held output.new ≡ O.held output.old ++ text.items) }
    ensures front { O.is_known → OnErr result (IsPart (O.held output.old) (O.held output.new) text.items) }
    ensures fault { result ≢ Err RunFault.ReadFailed }
    ensures writing { O.failures output.new ≡ write_failures result (O.failures output.old) }
{
    give_last(output, &mut text, Done::Ended)
}

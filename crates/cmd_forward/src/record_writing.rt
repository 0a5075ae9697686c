//! What is written of a record. Each function appends it to `written`, the octets that are not written to the output yet.

ghost use Rattle.std.specs.Prelude.{◌≡◌, ◌≤◌, ◌+◌, ◌-◌, ◌++◌, length, take, drop, replicate, List, ℕ, Ok, OnOk};
ghost use Rattle.captures.specs.Record.{record_length};
ghost use Rattle.captures.specs.RecordContent.{IsContent};
ghost use Rattle.text_io.specs.Devices.{Adds};
ghost use Rattle.upc_cell.specs.Tagged.{tagged_form};
ghost use Rattle.cmd_forward.specs.RecordsWritten.{IsCellWritten, octets_lacking, other_written, tagged_record, whole_record};

use crate::onward::Onward;
use crate::others::Others;
use byteorder::{BigEndian, ByteOrder};
use captures::cell_place;
use text_io::Added;
use upc_cell::{CELL_OCTETS, Cell};

/// Returns the length in the header of a record.
#[tactic(auto, unfolding(captures::specs::Record::record_length))]
fn length_of(octets: &[u8]) -> usize
    requires { 16 ≤ length octets.now }
    ensures { result ≡ record_length octets.now }
{
    usize::from(BigEndian::read_u16(&octets[10..]))
}

/// Appends this many zeros.
fn add_zeros(written: &mut Vec<u8>, count: usize) -> Added
    ensures { OnOk result (written.new.items ≡ written.old.items ++ replicate count 0) }
{
    for _ in 0..count {
        written.push(0)?;
    }
    Ok(())
}

/// Appends zeros in place of the octets that a record lacks, because its packet was cut short of the length in the record's header.
fn add_lacking(written: &mut Vec<u8>, octets: &[u8]) -> Added
    requires { 16 ≤ length octets.now }
    ensures { OnOk result (written.new.items ≡ written.old.items ++ octets_lacking octets.now) }
{
    add_zeros(written, length_of(octets).saturating_sub(octets.len()))
}

/// Appends a whole record.
#[tactic(auto, using(std::proofs::lemmas::List::append_assoc))]
fn add_whole(written: &mut Vec<u8>, octets: &[u8]) -> Added
    requires { 16 ≤ length octets.now }
    ensures { OnOk result (written.new.items ≡ written.old.items ++ whole_record octets.now) }
{
    written.extend_from_slice(octets)?;
    add_lacking(written, octets)
}

/// Appends the tagged form of the cell at this place.
fn add_tagged_cell(written: &mut Vec<u8>, octets: &[u8], place: usize) -> Added
    requires { place + 52 ≤ length octets.now }
    ensures { OnOk result (written.new.items ≡ written.old.items ++ tagged_form (take 52 (drop place octets.now))) }
{
    let Some((cell, _)) = octets[place..].split_first_chunk::<CELL_OCTETS>() else {
        unreachable!();
    };
    let tagged = Cell::from(*cell).tagged();
    written.extend_from_slice(&tagged.bytes()[..CELL_OCTETS])
}

/// Appends a whole record with its cell, which begins at this place, tagged.
#[tactic(auto, using(std::proofs::lemmas::List::append_assoc))]
fn add_tagged(written: &mut Vec<u8>, octets: &[u8], place: usize) -> Added
    requires headed { 16 ≤ length octets.now }
    requires within { place + 52 ≤ length octets.now }
    ensures { OnOk result (written.new.items ≡ written.old.items ++ tagged_record octets.now place) }
{
    written.extend_from_slice(&octets[..place])?;
    add_tagged_cell(written, octets, place)?;
    written.extend_from_slice(&octets[place + CELL_OCTETS..])?;
    add_lacking(written, octets)
}

/// Appends what is written of a record whose cell counts.
pub(crate) fn add_cell_record(written: &mut Vec<u8>, onward: Onward, octets: &[u8]) -> Added
    requires headed { 16 ≤ length octets.now }
    requires cell { (cell : List ℕ) × IsContent octets.now (Ok cell) }
    ensures { OnOk result (Adds (IsCellWritten onward octets.now) written.old.items written.new.items) }
{
    match onward {
        Onward::Stays => Ok(()),
        Onward::Unchanged => add_whole(written, octets),
        Onward::Tagged => match cell_place(octets) {
            Some(place) => add_tagged(written, octets, place),
            None => unreachable!(),
        },
    }
}

/// Appends what is written of a record without a cell that counts.
pub(crate) fn add_other_record(written: &mut Vec<u8>, others: Others, octets: &[u8]) -> Added
    requires { 16 ≤ length octets.now }
    ensures { OnOk result (written.new.items ≡ written.old.items ++ other_written others octets.now) }
{
    match others {
        Others::Pass => add_whole(written, octets),
        Others::Drop => Ok(()),
    }
}

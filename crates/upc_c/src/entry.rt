//! The cells of a journal, as C gets them.

ghost use Rattle.std.specs.Prelude.{◌≡◌, ◌≤◌, length};
ghost use Rattle.upc_c.specs.CardJournal.{AreWritten, entry_for_c};

use crate::id::{UpcId, id_for_c};
use crate::meter::number_of_verdict;
use line_record::Entry;

/// A judged cell of a journal.
#[repr(C)]
#[derive(Clone, Copy, Debug)]
pub struct UpcEntry {
    /// The moment of arrival, in ticks.
    pub moment: u64,
    /// The program that gave the value.
    pub program: UpcId,
    /// The number that the program gave: that of a contract, from 1, or any other, which names none.
    pub value: u32,
    /// The cell loss priority on arrival, 0 or 1.
    pub clp: u32,
    /// 0 for a cell that passes, 1 for one that was tagged, 2 for one that is discarded, 3 for one that is refused.
    pub verdict: u32,
}

/// Returns the entry as C has it.
fn entry_for_c(entry: &Entry) -> UpcEntry
    ensures { result ≡ entry_for_c entry.now }
{
    UpcEntry {
        moment: entry.moment,
        program: id_for_c(entry.program),
        value: entry.value,
        clp: u32::from(entry.clp),
        verdict: number_of_verdict(entry.verdict),
    }
}

/// Writes the entries to the front of the buffer.
pub(crate) fn write_entries(room: &mut [UpcEntry], entries: &[Entry])
    requires { length entries.now ≤ length room.old }
    ensures { AreWritten entries.now room.old room.new }
{
    for (place, entry) in entries.iter().enumerate() {
        room[place] = entry_for_c(entry);
    }
}

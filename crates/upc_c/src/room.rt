//! Buffers of C.

ghost use Rattle.std.specs.Prelude.{◌≡◌, ◌≢◌, ◌<◌, ◌++◌, drop, length, IfOk, IfErr};
ghost use Rattle.upc_c.specs.Faults.{AnswersCall};
ghost use Rattle.upc_c.specs.Programs.{IsBufferFault, IsWritten};

use crate::fault::{OF_THE_CALL, UpcFault, fault_at, report, report_success};

/// Writes a text to the front of the buffer and the number of its octets to `count`, if it fits.
pub(crate) fn write_to(room: &mut [u8], count: &mut usize, text: &[u8], fault: &mut UpcFault) -> u32
    ensures answers { AnswersCall result fault.new }
    ensures written { result ≡ 0 → IsWritten text.now room.old room.new count.new }
    ensures refused { result ≢ 0 → IsBufferFault text.now room.old fault.new }
    ensures left { result ≢ 0 → room.new ≡ room.old }
    ensures count_left { result ≢ 0 → count.new ≡ count.old }
{
    if room.len() < text.len() {
        return report(fault, fault_at(OF_THE_CALL, 2, text.len()));
    }
    room[..text.len()].copy_from_slice(text);
    *count = text.len();
    report_success(fault)
}

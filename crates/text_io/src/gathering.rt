//! Reading a whole input, up to a limit.

ghost use Rattle.std.specs.Prelude.{◌≡◌, ◌≢◌, ◌+◌, ◌<◌, ◌≤◌, ◌^◌, ◌++◌, [], length, take, Ok, Err, IfOk, OnOk, option_map};
ghost use Rattle.text_io.specs.Gathered.{gathered, LeavesAfter};
ghost use Rattle.text_io.specs.Failures.{read_failures};

use crate::device::Input;
use crate::ending::RunFault;
use crate::filling::read_after;
use std::alloc::{AllocError, Global};

/// The initial size of the buffer. It doubles whenever it is full.
const FIRST_ROOM: usize = 65536;

/// Makes a full room larger and keeps its octets. It grows to at most the limit and one octet; reading that octet
/// shows that the input is over the limit.
fn make_room(room: &mut Vec<u8>, end: usize, most: usize) -> Result<(), AllocError>
    requires full { end ≡ length room.old.items }
    requires within { end ≤ most }
    requires counted { most < 2 ^ 32 }
    ensures front { OnOk result (take end room.new.items ≡ take end room.old.items) }
    ensures after { OnOk result (end < length room.new.items) }
    ensures bounded { OnOk result (length room.new.items ≤ most + 1) }
{
    let wanted = FIRST_ROOM.max(2 * end).min(most + 1);
    room.resize(wanted, 0)
}

/// Reads more octets after the first `end`, and returns their number. It is 0 only at the end of the input.
fn take_more<I: Input>(
    input: &mut I,
    room: &mut Vec<u8>,
    end: usize,
    most: usize,
) -> Result<usize, RunFault>
    requires within { end ≤ length room.old.items }
    requires bounded { length room.old.items ≤ most + 1 }
    requires wanted { end ≤ most }
    requires counted { most < 2 ^ 32 }
    ensures within { IfOk result (λ count. end + count ≤ length room.new.items) }
    ensures bounded { OnOk result (length room.new.items ≤ most + 1) }
    ensures octets { I.is_known → IfOk result (λ count.
        take end room.old.items ++ I.rest input.old ≡ take (end + count) room.new.items ++ I.rest input.new) }
    ensures end { I.is_known → result ≡ Ok 0 → I.rest input.new ≡ [] }
    ensures reading { I.failures input.new ≡ read_failures result (I.failures input.old) }
    ensures fault { result ≢ Err RunFault.WriteFailed }
{
    if end == room.len() {
        if make_room(room, end, most).is_err() {
            return Err(RunFault::NoMemory);
        }
    }
    read_after(input, room, end, usize::MAX).map_err(|_| RunFault::ReadFailed)
}

/// Reads all octets of an input. Returns none if there are more than `most`; then `most` + 1 octets were read.
///
/// # Errors
///
/// `ReadFailed` if the input failed, `NoMemory` if an allocation fails.
pub fn gather<I: Input>(
    alloc: Global,
    input: &mut I,
    most: u32,
) -> Result<Option<Vec<u8>>, RunFault>
    ensures whole { I.is_known → IfOk result (λ found.
        option_map (λ octets. octets.items) found ≡ gathered most (I.rest input.old)) }
    ensures left { I.is_known → IfOk result (λ found.
        LeavesAfter most (option_map (λ octets. octets.items) found) (I.rest input.old) (I.rest input.new)) }
    ensures reading { I.failures input.new ≡ read_failures result (I.failures input.old) }
    ensures fault { result ≢ Err RunFault.WriteFailed }
{
    let most = most as usize;
    let mut room = Vec::new(alloc);
    let mut end = 0;
    while end <= most {
        match take_more(input, &mut room, end, most) {
            Err(fault) => return Err(fault),
            Ok(0) => {
                room.truncate(end);
                return Ok(Some(room));
            }
            Ok(count) => end += count,
        }
    }
    Ok(None)
}

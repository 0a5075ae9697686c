//! Reading from an input into a buffer, after octets that wait there.

ghost use Rattle.std.specs.Prelude.{◌≡◌, ◌+◌, ◌<◌, ◌≤◌, ◌++◌, ◌-◌, [], length, take, drop, slice_range, vec_len, IfOk, OnOk, OnErr, Ok};
ghost use Rattle.text_io.specs.Devices.{one_more};

use crate::device::{Failed, Input};
use std::mem;

/// Reads at most `most` octets into the start of the room, and returns their number. It is 0 only at the end of the input.
///
/// # Errors
///
/// `Failed` if the input failed.
fn read_some<I: Input>(input: &mut I, room: &mut [u8], most: usize) -> Result<usize, Failed>
    requires some { 0 < most }
    requires room { 0 < length room.old }
    ensures within { IfOk result (λ count. count ≤ length room.new) }
    ensures most { IfOk result (λ count. count ≤ most) }
    ensures octets { I.is_known → IfOk result (λ count. I.rest input.old ≡ take count room.new ++ I.rest input.new) }
    ensures end { I.is_known → result ≡ Ok 0 → I.rest input.new ≡ [] }
    ensures kept { I.is_known → OnErr result (I.rest input.new ≡ I.rest input.old) }
    ensures calm { OnOk result (I.failures input.new ≡ I.failures input.old) }
    ensures failed { OnErr result (I.failures input.new ≡ one_more (I.failures input.old)) }
{
    let last = most.min(room.len());
    let count = input.take(&mut room[..last])?;
    Ok(count)
}

/// Reads at most `most` octets into the room from place `end` on, and returns their number. It is 0 only at the end of the
/// input.
///
/// # Errors
///
/// `Failed` if the input failed; the octets before `end` are kept.
pub(crate) fn read_after<I: Input>(
    input: &mut I,
    room: &mut [u8],
    end: usize,
    most: usize,
) -> Result<usize, Failed>
    requires within { end < length room.old }
    requires some { 0 < most }
    ensures most { IfOk result (λ count. count ≤ most) }
    ensures within { IfOk result (λ count. end + count ≤ length room.new) }
    ensures octets { I.is_known → IfOk result (λ count.
        take end room.old ++ I.rest input.old ≡ take (end + count) room.new ++ I.rest input.new) }
    ensures front { take end room.new ≡ take end room.old }
    ensures end { I.is_known → result ≡ Ok 0 → I.rest input.new ≡ [] }
    ensures kept { I.is_known → OnErr result (I.rest input.new ≡ I.rest input.old) }
    ensures calm { OnOk result (I.failures input.new ≡ I.failures input.old) }
    ensures failed { OnErr result (I.failures input.new ≡ one_more (I.failures input.old)) }
{
    let count = read_some(input, &mut room[end..], most)?;
    Ok(count)
}

/// Copies the range from `start` to `end` to the front of the spare buffer, and swaps the two buffers.
pub(crate) fn bring_forward(buffer: &mut Vec<u8>, spare: &mut Vec<u8>, start: usize, end: usize)
    requires ordered { start ≤ end }
    requires within { end ≤ vec_len buffer.old }
    requires alike { vec_len spare.old ≡ vec_len buffer.old }
    ensures front { slice_range buffer.new.items 0 (end - start) ≡ slice_range buffer.old.items start end }
    ensures room { length buffer.new.items ≡ length buffer.old.items }
    ensures spare_room { length spare.new.items ≡ length spare.old.items }
{
    put_in_front(spare, &buffer[start..end]);
    mem::swap(buffer, spare);
}

/// Writes the octets over the first ones of the room.
fn put_in_front(room: &mut [u8], octets: &[u8])
    requires { length octets.now ≤ length room.old }
    ensures { room.new ≡ octets.now ++ drop (length octets.now) room.old }
{
    room[..octets.len()].copy_from_slice(octets);
}

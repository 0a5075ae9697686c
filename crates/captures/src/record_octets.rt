//! The octets of a record as its frame has them.

ghost use Rattle.std.specs.Prelude.{◌≡◌, ◌≤◌, ◌+◌, length, IfSome, IfNone};
ghost use Rattle.captures.specs.RecordOctets.{HasCellAt, HasNoCell};

use crate::content::place_of;
use crate::packet::HEADER_OCTETS;
use crate::reader::Reader;

/// Returns the place at which the cell of a record begins, or None if the record with these octets holds none.
pub fn cell_place(octets: &[u8]) -> Option<usize>
    ensures place { IfSome result (λ place. HasCellAt octets.now place) }
    ensures within { IfSome result (λ place. place + 52 ≤ length octets.now) }
    ensures none { IfNone result (HasNoCell octets.now) }
{
    if octets.len() < HEADER_OCTETS {
        return None;
    }
    match place_of(octets) {
        Ok(place) => Some(place),
        Err(_) => None,
    }
}

impl Reader {
    ghost use Rattle.captures.specs.Frames.{first_frame};
    ghost use Rattle.captures.specs.RecordOctets.{IsHeaded, octets_of_first};

    /// Returns the octets of the next record, which [`next`](Reader::next) gives, as many as its frame has: a packet that was cut short has
    /// fewer than the record's length. There are none if these octets begin with no whole frame, or if the frame has no record.
    pub fn record_octets<'a>(&self, octets: &'a [u8]) -> &'a [u8]
        ensures octets { result.now ≡ octets_of_first (first_frame self.now.format self.now.at octets.now) }
        ensures headed { IsHeaded (first_frame self.now.format self.now.at octets.now) }
    {
        if octets.len() < self.format.head() {
            return &[];
        }
        let Ok(size) = self.format.size_of(octets) else {
            return &[];
        };
        if octets.len() < size {
            return &[];
        }
        let Ok(held) = self.format.held_in(&octets[..size]) else {
            return &[];
        };
        if self.at.checked_add(size as u64).is_none() {
            return &[];
        }
        match held.framed {
            Ok(framed) => framed.octets,
            Err(_) => &[],
        }
    }
}

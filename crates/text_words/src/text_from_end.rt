//! A short text, written from its end.

use std::marker::Model;

/// A text of at most `ROOM` octets, written from its end: `put` adds octets before those already there. So the digits
/// of a number are written in their final place, and a whole line is appended to the answers at once. Each new text
/// is zeroed, so `ROOM` should be no more than the longest line needs.
///
/// Contracts see the list of its octets.
#[derive(Drop)]
pub struct TextFromEnd<const ROOM: usize> {
    octets: [u8; ROOM],
    start: usize,
}

impl<const ROOM: usize> Model for TextFromEnd<ROOM> {
    ghost use Rattle.std.specs.Prelude.{ℕ, List, ◌≤◌, drop};

    ghost Value = { List ℕ };

    ghost view = { λ text. drop text.start text.octets };

    ghost invariant = { λ text. text.start ≤ ROOM };
}

impl<const ROOM: usize> TextFromEnd<ROOM> {
    ghost use Rattle.std.specs.Prelude.{◌≡◌, ◌+◌, ◌≤◌, [], ◌++◌, length, decimal};

    /// The empty text.
    #[inline(always)]
    pub fn new() -> Self
        ensures { result ≡ [] }
    {
        TextFromEnd {
            octets: [0; ROOM],
            start: ROOM,
        }
    }

    /// Puts these octets before the others.
    #[inline(always)]
    pub fn put(&mut self, octets: &[u8])
        requires { length octets.now + length self.old ≤ ROOM }
        ensures text { self.new ≡ octets.now ++ self.old }
        ensures length { length self.new ≡ length octets.now + length self.old }
    {
        let end = self.start;
        let start = end - octets.len();
        let room = &mut self.octets[..];
        room[start..end].copy_from_slice(octets);
        self.start = start;
    }

    /// Puts a number before the others, in at most twenty decimal digits.
    #[inline(always)]
    pub fn put_number(&mut self, number: u64)
        requires { 20 + length self.old ≤ ROOM }
        ensures text { self.new ≡ decimal number ++ self.old }
        ensures length { length self.new ≤ 20 + length self.old }
    {
        self.start = itoa::write_digits(number, &mut self.octets, self.start);
    }

    /// Puts a number of 32 bits before the others, in at most ten decimal digits.
    #[inline(always)]
    pub fn put_short_number(&mut self, number: u32)
        requires { 10 + length self.old ≤ ROOM }
        ensures text { self.new ≡ decimal number ++ self.old }
        ensures length { length self.new ≤ 10 + length self.old }
    {
        self.start = itoa::write_digits(u64::from(number), &mut self.octets, self.start);
    }

    /// The octets of the text.
    #[inline(always)]
    pub fn as_slice(&self) -> &[u8]
        ensures { result.now ≡ self.now }
    {
        let room = &self.octets[..];
        &room[self.start..]
    }
}

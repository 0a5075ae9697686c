//! The octets that were read and not yet answered.

ghost use Rattle.std.specs.Prelude.{◌≡◌, ◌+◌, ◌<◌, ◌≤◌, ◌++◌, [], length, take, drop, IfOk, OnOk, OnErr, Ok};
ghost use Rattle.text_io.specs.Devices.{one_more};

use crate::device::{Failed, Input};
use crate::filling::{bring_forward, read_after};
use std::alloc::{AllocError, Global};
use std::marker::Model;

/// The octets that were read and not yet answered, at most `ROOM`. Contracts see the list of them.
#[derive(Drop)]
pub struct Window<const ROOM: usize> {
    buffer: Vec<u8>,
    /// As long as the buffer. Waiting octets move here before more are read.
    spare: Vec<u8>,
    /// The place of the first waiting octet.
    start: usize,
    /// The place after the last waiting octet.
    end: usize,
}

impl<const ROOM: usize> Model for Window<ROOM> {
    ghost use Rattle.std.specs.Prelude.{List, ℕ, slice_range};
    ghost use Rattle.text_io.specs.inner.Waiting.{IsWindow};

    ghost Value = { List ℕ };

    ghost view = { λ w. slice_range w.buffer.items w.start w.end };

    ghost invariant = { λ w. IsWindow ROOM w.buffer.items w.spare.items w.start w.end };
}

impl<const ROOM: usize> Window<ROOM> {
    /// Makes an empty window.
    pub fn new(alloc: Global) -> Result<Window<ROOM>, AllocError>
        ensures { IfOk result (λ window. window ≡ []) }
    {
        let buffer = vec![in alloc; 0u8; ROOM]?;
        let spare = vec![in alloc; 0u8; ROOM]?;
        Ok(Window {
            buffer,
            spare,
            start: 0,
            end: 0,
        })
    }

    /// The waiting octets.
    #[inline(always)]
    pub fn octets(&self) -> &[u8]
        ensures { result.now ≡ self.now }
    {
        &self.buffer[self.start..self.end]
    }

    /// Drops the first `count` octets.
    #[inline(always)]
    pub fn skip(&mut self, count: usize)
        requires { count ≤ length self.old }
        ensures octets { self.new ≡ drop count self.old }
        ensures length { length self.new + count ≡ length self.old }
    {
        self.start += count;
    }

    // no ensures: a caller only decides by it when waiting octets are answered
    // no edit: it has no ensures
    /// Whether the last reading filled the window.
    #[inline(always)]
    pub fn is_full(&self) -> bool {
        self.end == self.buffer.len()
    }

    /// Reads at most `most` more octets after those that wait, and returns their number. It is 0 only at the end of the input.
    ///
    /// # Errors
    ///
    /// `Failed` if the input failed; the waiting octets are kept.
    pub fn fill<I: Input>(&mut self, input: &mut I, most: usize) -> Result<usize, Failed>
        requires room { length self.old < ROOM }
        requires some { 0 < most }
        ensures most { IfOk result (λ count. count ≤ most) }
        ensures octets { I.is_known → IfOk result
            (λ _. self.old ++ I.rest input.old ≡ self.new ++ I.rest input.new) }
        ensures count { IfOk result (λ count. length self.new ≡ length self.old + count) }
        ensures front { take (length self.old) self.new ≡ self.old }
        ensures bounded { length self.new ≤ ROOM }
        ensures end { I.is_known → result ≡ Ok 0 → I.rest input.new ≡ [] }
        ensures none { result ≡ Ok 0 → self.new ≡ self.old }
        ensures same { OnErr result (self.new ≡ self.old) }
        ensures kept { I.is_known → OnErr result (I.rest input.new ≡ I.rest input.old) }
        ensures calm { OnOk result (I.failures input.new ≡ I.failures input.old) }
        ensures failed { OnErr result (I.failures input.new ≡ one_more (I.failures input.old)) }
    {
        if 0 < self.start {
            bring_forward(&mut self.buffer, &mut self.spare, self.start, self.end);
            self.end -= self.start;
            self.start = 0;
        }
        let count = read_after(input, &mut self.buffer, self.end, most)?;
        self.end += count;
        Ok(count)
    }
}

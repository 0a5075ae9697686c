//! Readers and writers of std as devices.

ghost use Rattle.std.specs.Prelude.{◌≡◌, unwrap_or, IsSome, []};
ghost use Rattle.text_io.specs.Devices.{one_more};

use crate::device::{Failed, Input, Output};
use std::io::{Read, Write};

/// A reader of std as an input. Every error counts as a failure, an interrupted call included.
#[derive(Drop)]
pub struct ReaderInput<R> {
    /// The reader.
    pub reader: R,
    /// The number of failed calls.
    pub failures: u64,
}

impl<R> ReaderInput<R> {
    /// Makes an input of this reader.
    pub fn new(reader: R) -> ReaderInput<R>
        ensures reader { result.reader ≡ reader }
        ensures calm { result.failures ≡ 0 }
    {
        let failures = 0;
        ReaderInput { reader, failures }
    }
}

impl<R: Read> Input for ReaderInput<R> {
    ghost is_known = { (r : _) → IsSome (R.remaining r) };

    ghost rest = { λ taking. unwrap_or (R.remaining taking.reader) [] };

    ghost failures = { λ taking. taking.failures };

    fn take(&mut self, room: &mut [u8]) -> Result<usize, Failed> {
        match self.reader.read(room) {
            Ok(count) => Ok(count),
            Err(_) => Err(one_failure(&mut self.failures)),
        }
    }
}

/// Counts one more failure.
fn one_failure(failures: &mut u64) -> Failed
    ensures { failures.new ≡ one_more failures.old }
{
    *failures = failures.wrapping_add(1);
    Failed
}

/// A writer of std as an output. Every error counts as a failure, an interrupted call included. So does a call that
/// writes nothing, unless there is nothing to write.
#[derive(Drop)]
pub struct WriterOutput<W> {
    /// The writer.
    pub writer: W,
    /// The number of failed calls.
    pub failures: u64,
}

impl<W> WriterOutput<W> {
    /// Makes an output of this writer.
    pub fn new(writer: W) -> WriterOutput<W>
        ensures writer { result.writer ≡ writer }
        ensures calm { result.failures ≡ 0 }
    {
        let failures = 0;
        WriterOutput { writer, failures }
    }
}

impl<W: Write> Output for WriterOutput<W> {
    ghost is_known = { (w : _) → IsSome (W.contents w) };

    ghost held = { λ giving. unwrap_or (W.contents giving.writer) [] };

    ghost failures = { λ giving. giving.failures };

    fn give(&mut self, octets: &[u8]) -> Result<usize, Failed> {
        match self.writer.write(octets) {
            Ok(count) if 0 < count || octets.is_empty() => Ok(count),
            _ => Err(one_failure(&mut self.failures)),
        }
    }
}

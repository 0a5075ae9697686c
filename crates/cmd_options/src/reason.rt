//! Why a device failed, and the devices of std that know it.

ghost use Rattle.std.specs.Prelude.{◌≡◌, ◌⊎◌, IfOk, unwrap_or, IsSome, []};
ghost use Rattle.text_io.specs.Devices.{one_more};
ghost use Rattle.cmd_options.specs.FailureLines.{plain_line, work_text};
ghost use Rattle.cmd_options.specs.inner.ReasonedLine.{reasoned_line};

use std::alloc::{AllocError, Global};
use std::io::{Error, ErrorKind, Read, Write};
use text_io::{Failed, Input, Output};

/// What a device is used for.
#[derive(Clone, Copy)]
pub enum Work {
    Reading,
    Writing,
}

/// Returns what a device did when it failed.
fn work_text(work: Work) -> &'static [u8]
    ensures { result.now ≡ work_text work }
{
    match work {
        Work::Reading => b"upc-lab: reading failed",
        Work::Writing => b"upc-lab: writing failed",
    }
}

/// Returns the message without a reason.
fn plain_line(work: Work) -> &'static [u8]
    ensures { result.now ≡ plain_line work }
{
    match work {
        Work::Reading => b"upc-lab: reading failed\n",
        Work::Writing => b"upc-lab: writing failed\n",
    }
}

/// Returns the message with a reason.
#[tactic(auto, using(std::proofs::lemmas::List::append_assoc))]
fn reasoned_line(alloc: Global, work: Work, reason: &[u8]) -> Result<Vec<u8>, AllocError>
    ensures { IfOk result (λ line. line.items ≡ reasoned_line work reason.now) }
{
    let mut line = Vec::new(alloc);
    line.extend_from_slice(work_text(work))?;
    line.extend_from_slice(b": ")?;
    line.extend_from_slice(reason)?;
    line.push(b'\n')?;
    Ok(line)
}

/// Returns the message with a reason. It is empty if there is no reason or an allocation fails.
fn line_for(alloc: Global, work: Work, reason: &[u8]) -> Vec<u8>
    ensures { (result.items ≡ []) ⊎ (result.items ≡ reasoned_line work reason.now) }
{
    if reason.is_empty() {
        return Vec::new(alloc);
    }
    match reasoned_line(alloc, work, reason) {
        Ok(line) => line,
        Err(_) => Vec::new(alloc),
    }
}

/// The words of the system for an error. There are none if an allocation fails.
pub fn in_words(alloc: Global, error: &Error) -> Vec<u8> {
    match format!(in alloc; "{error}") {
        Ok(words) => words.into_bytes(),
        Err(_) => Vec::new(alloc),
    }
}

/// A reader or writer of std as a device that keeps the reason of its last failed call. Every error counts as a failure, an interrupted
/// call included. So does a call that writes nothing, unless there is nothing to write.
#[derive(Drop)]
pub struct WithReason<D> {
    alloc: Global,
    /// The reader or writer.
    pub device: D,
    /// What it is used for.
    pub work: Work,
    /// The number of failed calls.
    pub failures: u64,
    /// The reason of the last failed call, in the words of the system.
    pub reason: Vec<u8>,
    /// The message with this reason, or nothing if no reason is known.
    pub line: Vec<u8>,
    /// Whether the last failed call failed because nobody reads what is written.
    pub closed: bool,
}

impl<D> WithReason<D> {
    ghost use Rattle.std.specs.Prelude.{false};

    /// Makes a device of this reader or writer.
    pub fn new(alloc: Global, work: Work, device: D) -> WithReason<D>
        ensures device { result.device ≡ device }
        ensures work { result.work ≡ work }
        ensures calm { result.failures ≡ 0 }
        ensures unknown { result.line.items ≡ [] }
        ensures open { result.closed ≡ false }
    {
        WithReason {
            alloc,
            device,
            work,
            failures: 0,
            reason: Vec::new(alloc),
            line: Vec::new(alloc),
            closed: false,
        }
    }
}

impl<D> WithReason<D> {
    ghost use Rattle.std.specs.Prelude.{◌↔◌, IsTrue};
    ghost use Rattle.std.specs.IoError.{error_kind};

    /// Keeps the reason of a failed call, and counts the call.
    fn fail(&mut self, error: Error) -> Failed
        ensures closed { IsTrue self.new.closed ↔ (error_kind error ≡ ErrorKind.BrokenPipe) }
        ensures line { (self.new.line.items ≡ []) ⊎ (self.new.line.items ≡ reasoned_line self.old.work self.new.reason.items) }
        ensures failures { self.new.failures ≡ one_more self.old.failures }
        ensures device { self.new.device ≡ self.old.device }
    {
        self.closed = error.kind() == ErrorKind::BrokenPipe;
        self.reason = in_words(self.alloc, &error);
        self.line = line_for(self.alloc, self.work, &self.reason);
        self.failures = self.failures.wrapping_add(1);
        Failed
    }
}

impl<R: Read> Input for WithReason<R> {
    ghost is_known = { (r : _) → IsSome (R.remaining r) };

    ghost rest = { λ knowing. unwrap_or (R.remaining knowing.device) [] };

    ghost failures = { λ knowing. knowing.failures };

    fn take(&mut self, room: &mut [u8]) -> Result<usize, Failed> {
        match self.device.read(room) {
            Ok(count) => Ok(count),
            Err(error) => Err(self.fail(error)),
        }
    }
}

impl<W: Write> Output for WithReason<W> {
    ghost is_known = { (w : _) → IsSome (W.contents w) };

    ghost held = { λ knowing. unwrap_or (W.contents knowing.device) [] };

    ghost failures = { λ knowing. knowing.failures };

    fn give(&mut self, octets: &[u8]) -> Result<usize, Failed> {
        match self.device.write(octets) {
            Ok(count) if 0 < count || octets.is_empty() => Ok(count),
            Ok(_) => Err(self.fail(Error::from(ErrorKind::WriteZero))),
            Err(error) => Err(self.fail(error)),
        }
    }
}

impl<D> WithReason<D> {
    ghost use Rattle.cmd_options.specs.FailureLines.{failure_line};

    /// Returns the message for the last failed call: a line.
    pub fn message(&self) -> &[u8]
        ensures { result.now ≡ failure_line self.now.work self.now.line.items }
    {
        if self.line.is_empty() {
            plain_line(self.work)
        } else {
            &self.line
        }
    }
}

//! How much of a capture was read, for a terminal.

ghost use Rattle.std.specs.Prelude.{◌≡◌, ◌≢◌, ◌+◌, ◌*◌, ◌/◌, ◌≤◌, ◌<◌, min, IfOk, codes};
ghost use Rattle.cmd_options.specs.Progress.{ShowsText, reads_capture, reads_links};
ghost use Rattle.cmd_options.specs.inner.ProgressText.{progress_text};

use crate::choice::{Asked, Subcommand};
use std::alloc::{AllocError, Global};
use text_command_line::{Stop, write_message};
use text_io::{Failed, Input, Output};
use text_words::{add_number, add_text};

/// The number of octets after which a new text is shown: 16 MiB.
const STEP: u64 = 16777216;

/// Returns whether a subcommand without options reads a capture.
fn reads_links(subcommand: Subcommand) -> bool
    ensures { result ≡ reads_links subcommand }
{
    subcommand == Subcommand::Links
}

/// Returns whether the words ask for a subcommand that reads a capture.
pub fn reads_capture(chosen: &Result<Asked, Stop>) -> bool
    ensures { result ≡ reads_capture chosen.now }
{
    match chosen {
        Ok(Asked::Cells(_) | Asked::Fit(_) | Asked::Police(_) | Asked::Forward(_)) => true,
        Ok(Asked::Plain(subcommand)) => reads_links(*subcommand),
        Ok(Asked::Why(_) | Asked::Differ(_) | Asked::Explain(_)) | Err(_) => false,
    }
}

/// Returns the text that shows that this many MiB were read.
#[tactic(auto, using(std::proofs::lemmas::List::append_assoc))]
fn progress_text(alloc: Global, mebibytes: u64) -> Result<Vec<u8>, AllocError>
    ensures { IfOk result (λ text. text.items ≡ progress_text mebibytes) }
{
    let mut text = Vec::new(alloc);
    add_text(&mut text, b"\rupc-lab: ")?;
    add_number(&mut text, mebibytes)?;
    add_text(&mut text, b" MiB read")?;
    Ok(text)
}

/// An input that shows on another device how much of it was read: a text for each 16 MiB, which takes the place of the one before it.
#[derive(Drop)]
pub struct Counted<I, E> {
    alloc: Global,
    /// The input that is read.
    pub input: I,
    /// Where it is shown, or None.
    pub shown_on: Option<E>,
    /// How many octets were read.
    pub count: u64,
}

impl<I, E> Counted<I, E> {
    /// Makes an input of this one, of which nothing was read.
    pub fn new(alloc: Global, input: I, shown_on: Option<E>) -> Counted<I, E>
        ensures input { result.input ≡ input }
        ensures shown_on { result.shown_on ≡ shown_on }
        ensures count { result.count ≡ 0 }
    {
        Counted {
            alloc,
            input,
            shown_on,
            count: 0,
        }
    }
}

impl<I, E: Output> Counted<I, E> {
    /// Counts octets that were read, and shows the new count if it passes a multiple of 16 MiB.
    fn add(&mut self, octets: usize)
        ensures input { self.new.input ≡ self.old.input }
        ensures count { self.new.count ≡ min (self.old.count + octets) 18446744073709551615 }
        ensures unshown { self.new.count / 16777216 ≡ self.old.count / 16777216 → self.new.shown_on ≡ self.old.shown_on }
        ensures shown { E.is_known → self.new.count / 16777216 ≢ self.old.count / 16777216
            → ShowsText E.Output self.old.shown_on self.new.shown_on (progress_text (self.new.count / 16777216 * 16)) }
    {
        let before = self.count;
        self.count = before.saturating_add(octets as u64);
        if self.count / STEP != before / STEP {
            self.show();
        }
    }

    /// Shows the count. If an allocation fails, it shows nothing.
    fn show(&mut self)
        ensures input { self.new.input ≡ self.old.input }
        ensures count { self.new.count ≡ self.old.count }
        ensures shown { E.is_known → ShowsText E.Output self.old.shown_on self.new.shown_on (progress_text (self.old.count / 16777216 * 16)) }
    {
        if let Some(device) = &mut self.shown_on
            && let Ok(text) = progress_text(self.alloc, self.count / STEP * 16)
        {
            write_message(device, &text);
        }
    }

    /// Ends the line, if a count was shown.
    pub fn finish(&mut self)
        ensures input { self.new.input ≡ self.old.input }
        ensures unshown { self.old.count < 16777216 → self.new.shown_on ≡ self.old.shown_on }
        ensures shown { E.is_known → 16777216 ≤ self.old.count → ShowsText E.Output self.old.shown_on self.new.shown_on (codes "\n") }
    {
        if let Some(device) = &mut self.shown_on
            && STEP <= self.count
        {
            write_message(device, b"\n");
        }
    }
}

impl<I: Input, E: Output> Input for Counted<I, E> {
    ghost is_known = { I.is_known };

    ghost rest = { λ it. I.rest it.input };

    ghost failures = { λ it. I.failures it.input };

    fn take(&mut self, room: &mut [u8]) -> Result<usize, Failed> {
        let octets = self.input.take(room)?;
        self.add(octets);
        Ok(octets)
    }
}

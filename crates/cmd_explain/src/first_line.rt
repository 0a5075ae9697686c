//! An input whose first line is looked at before the rest is read.

ghost use Rattle.std.specs.Prelude.{◌≡◌, ◌≢◌, ◌++◌, ◌⊎◌, ◌&&◌, [], drop, length, nat_le, option_map, Err, IfOk, OnOk};
ghost use Rattle.text_io.specs.Failures.{read_failures};
ghost use Rattle.text_io.specs.Limits.{most_line_octets};
ghost use Rattle.text_io.specs.Words.{words_of};
ghost use Rattle.cmd_explain.specs.InputKinds.{PassesFirst, after_word, is_alone};
ghost use Rattle.cmd_explain.specs.inner.FirstLines.{HoldsFirstLine};

use cmd_explain_script::after;
use std::alloc::{AllocError, Global};
use text_io::{Failed, Input, RunFault, before_return, first_feed, first_word};

/// The maximum number of octets of a line, as in a script.
const MOST_LINE_OCTETS: usize = 70000;

/// What an input is.
#[derive(Clone, Copy)]
pub enum InputKind {
    /// A source of assembly, after the line `source`.
    Source,
    /// A text of rules, after the line `rules`.
    Rules,
    /// Fault lines, after the line `faults`.
    Faults,
    /// A script.
    Script,
}

/// An input that can be asked for its first line.
pub trait Ahead: Input {
    /// Takes the first line, if its only word is `source`, `rules` or `faults`, and returns what the input is. Otherwise it returns
    /// `Script`, and all octets are still there for `take`, although the first line was already read from the device.
    ///
    /// # Errors
    ///
    /// `ReadFailed` if the device failed, `NoMemory` if an allocation fails.
    fn pass_first_line(&mut self) -> Result<InputKind, RunFault>
        ensures octets { Self.is_known → IfOk result (λ kind. PassesFirst kind (Self.rest self.old) (Self.rest self.new)) }
        ensures reading { Self.failures self.new ≡ read_failures result (Self.failures self.old) }
        ensures fault { result ≢ Err RunFault.WriteFailed };
}

/// An input, and the octets that were read from it to look at them.
#[derive(Drop)]
pub struct LookedAt<I> {
    alloc: Global,
    /// Octets that were read from the input.
    front: Vec<u8>,
    /// How many of these octets were passed on by `take`.
    given: usize,
    /// The input that is read.
    pub input: I,
}

impl<I> LookedAt<I> {
    ghost use Rattle.std.specs.Prelude.{◌≡◌, []};

    /// Wraps an input, of which nothing was looked at yet.
    // no edit: it puts its arguments together
    pub fn new(alloc: Global, input: I) -> LookedAt<I>
        ensures front { result.front.items ≡ [] }
        ensures given { result.given ≡ 0 }
        ensures input { result.input ≡ input }
    {
        LookedAt {
            alloc,
            front: Vec::new(alloc),
            given: 0,
            input,
        }
    }
}

impl<I: Input> Input for LookedAt<I> {
    ghost is_known = { I.is_known };

    ghost rest = { λ it. drop it.given it.front.items ++ I.rest it.input };

    ghost failures = { λ it. I.failures it.input };

    fn take(&mut self, room: &mut [u8]) -> Result<usize, Failed> {
        let left = after(&self.front, self.given);
        if left.is_empty() {
            return self.input.take(room);
        }
        let count = left.len().min(room.len());
        room[..count].copy_from_slice(&left[..count]);
        self.given += count;
        Ok(count)
    }
}

/// Reads octets until they hold the whole first line or more of it than a line may have, or the input has ended.
fn look<I: Input>(input: &mut I, octets: &mut Vec<u8>) -> Result<(), RunFault>
    ensures same { I.is_known → OnOk result (octets.new.items ++ I.rest input.new ≡ octets.old.items ++ I.rest input.old) }
    ensures enough { I.is_known → OnOk result (HoldsFirstLine octets.new.items ⊎ (I.rest input.new ≡ [])) }
    ensures reading { I.failures input.new ≡ read_failures result (I.failures input.old) }
    ensures fault { result ≢ Err RunFault.WriteFailed }
{
    match first_feed(octets, 0) {
        Some(_) => return Ok(()),
        None => {}
    }
    while octets.len() <= MOST_LINE_OCTETS {
        let mut room = [0u8; 1];
        match input.take(&mut room) {
            Err(_) => return Err(RunFault::ReadFailed),
            Ok(0) => return Ok(()),
            Ok(_) => {
                if octets.push(room[0]).is_err() {
                    return Err(RunFault::NoMemory);
                }
                if room[0] == b'\n' {
                    return Ok(());
                }
            }
        }
    }
    Ok(())
}

/// Returns whether the only word of a line is this one.
fn is_alone(word: &[u8], line: &[u8]) -> bool
    ensures { result ≡ is_alone word.now (words_of line.now) }
{
    match first_word(line) {
        None => false,
        Some((first, rest)) => first == word && first_word(rest).is_none(),
    }
}

/// Returns whether a line of these octets is within the limit, and the only word of its content is this one.
fn is_word_line(word: &[u8], octets: &[u8], content: &[u8]) -> bool
    ensures { result ≡ (nat_le (length octets.now) most_line_octets && is_alone word.now (words_of content.now)) }
{
    octets.len() <= MOST_LINE_OCTETS && is_alone(word, content)
}

/// Returns the number of octets of the first line and its line feed, if its only word is this one.
fn word_line(word: &[u8], octets: &[u8]) -> Option<usize>
    ensures { option_map (λ size. drop size octets.now) result ≡ after_word word.now octets.now }
{
    match first_feed(octets, 0) {
        Some(at) => {
            let line = &octets[..at];
            if is_word_line(word, line, before_return(line)) {
                Some(at + 1)
            } else {
                None
            }
        }
        None => {
            if is_word_line(word, octets, octets) {
                Some(octets.len())
            } else {
                None
            }
        }
    }
}

/// Returns what an input is that begins with these octets, and how many of them its first line takes.
fn first_line(octets: &[u8]) -> (InputKind, usize)
    ensures { PassesFirst result.0 octets.now (drop result.1 octets.now) }
{
    match word_line(b"source", octets) {
        Some(size) => (InputKind::Source, size),
        None => match word_line(b"rules", octets) {
            Some(size) => (InputKind::Rules, size),
            None => match word_line(b"faults", octets) {
                Some(size) => (InputKind::Faults, size),
                None => (InputKind::Script, 0),
            },
        },
    }
}

/// Returns a copy of octets.
fn copied(alloc: Global, octets: &[u8]) -> Result<Vec<u8>, AllocError>
    ensures { IfOk result (λ copy. copy.items ≡ octets.now) }
{
    let mut copy = Vec::new(alloc);
    copy.extend_from_slice(octets)?;
    Ok(copy)
}

impl<I: Input> Ahead for LookedAt<I> {
    fn pass_first_line(&mut self) -> Result<InputKind, RunFault> {
        let Ok(left) = copied(self.alloc, after(&self.front, self.given)) else {
            return Err(RunFault::NoMemory);
        };
        self.front = left;
        self.given = 0;
        look(&mut self.input, &mut self.front)?;
        let (kind, size) = first_line(&self.front);
        self.given = size;
        Ok(kind)
    }
}

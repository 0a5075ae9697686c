//! Where the words of a command line come from.

ghost use Rattle.std.specs.Prelude.{◌≡◌, ℕ, ◌<◌, ◌≤◌, List, [], Some, Err, IfOk, length, map, take, slice_get};
ghost use Rattle.std.specs.declared.env.FillError.TheVariants.{NotPresent, TooLong};
ghost use Rattle.std.specs.Io.{WritesAtMost};
ghost use Rattle.text_command_line.specs.ShownWords.{IsLonger, most_words};

use std::env::{Env, FillError};

/// The words of a command line. Word 0 is the program's name.
///
/// Contracts see the words as lists of octets. No contract knows the words of the process; `is_known` is then false.
pub trait CommandLine {
    ghost is_known: { Type 0 };

    ghost words: { Self → List (List ℕ) };

    /// Copies the word of this number to the start of `room`, and returns how many octets it has.
    ///
    /// # Errors
    ///
    /// `TooLong` if the word is longer than `room`, and `NotPresent` if there is no such word.
    fn word(&self, number: usize, room: &mut [u8]) -> Result<usize, FillError>
        ensures within { WritesAtMost result room.new }
        ensures copied { is_known → IfOk result (λ count. slice_get (words self.now) number ≡ Some (take count room.new)) }
        ensures longer { is_known → result ≡ Err TooLong → IsLonger (length room.old) (slice_get (words self.now) number) }
        ensures end { is_known → result ≡ Err NotPresent → length (words self.now) ≤ number }
        ensures few { is_known → length (words self.now) < most_words };
}

/// The words of this process.
#[derive(Drop)]
pub struct OfProcess<'a, E: Env>(pub &'a E);

impl<E: Env> CommandLine for OfProcess<'_, E> {
    ghost is_known = { ⊥ };

    ghost words = { λ _. [] };

    fn word(&self, number: usize, room: &mut [u8]) -> Result<usize, FillError> {
        self.0.arg(number, room)
    }
}

/// Words in memory.
#[derive(Drop)]
pub struct InMemory<'a>(pub &'a [&'a [u8]]);

impl CommandLine for InMemory<'_> {
    ghost is_known = { Unit {0} };

    ghost words = { λ line. map (λ word. word.now) line.0.now };

    fn word(&self, number: usize, room: &mut [u8]) -> Result<usize, FillError> {
        if number >= self.0.len() {
            return Err(FillError::NotPresent);
        }
        let word = self.0[number];
        if word.len() > room.len() {
            return Err(FillError::TooLong);
        }
        room[..word.len()].copy_from_slice(word);
        Ok(word.len())
    }
}

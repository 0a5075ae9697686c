//! Handles that C passes from one thread to another.

use crate::card::UpcCard;
use crate::program::UpcProgram;
use std::marker::Send;

/// Does nothing, and compiles only for values that may go to another thread.
fn crosses<T: Send>(_: &T) {}

/// A program may be made on one thread and used on another: this compiles only if that is proved of its type.
// no edit: without the proof that a program may cross, the crate doesn't compile
pub fn programs_go_to_other_threads(program: &UpcProgram) {
    crosses(program);
}

/// A card may be made on one thread and used on another: this compiles only if that is proved of its type.
// no edit: without the proof that a card may cross, the crate doesn't compile
pub fn cards_go_to_other_threads(card: &UpcCard) {
    crosses(card);
}

//! The script of `upc ports`, which is read as a whole before any of it runs.

ghost use Rattle.std.specs.Prelude.{◌≡◌};
ghost use Rattle.text_io.specs.Words.{is_silent, words_of};
ghost use Rattle.cmd_ports.specs.PortsText.{unread};
ghost use Rattle.cmd_ports.specs.inner.Reading.{IsStoredReading};

use card_core::Shape;
use std::alloc::{AllocError, Global};
use std::mem::replace;
use text_card::{add_no_card, add_shape_fault, read_card};
use text_io::{Added, Answered, Done, Machine, Turn};
use text_script::word_and_rest;
use text_words::add_too_long;
use upc_cell::Side;

/// Returns whether the line has no words or is a comment. Only a line that begins with a blank needs a search for its first word.
#[inline(always)]
fn is_silent(line: &[u8]) -> bool
    ensures { result ≡ is_silent (words_of line.now) }
{
    let [first, ..] = line else {
        return true;
    };
    if *first == b' ' || *first == b'\t' {
        return word_and_rest(line).is_none();
    }
    *first == b'#'
}

/// The state of the reading of a script.
#[derive(Drop)]
pub struct Script {
    /// Whether a line has opened a card.
    pub is_open: bool,
    /// The shape of the card that a line has opened. Until then the shape of the smallest card.
    pub shape: Shape,
    /// The lines after the card's that are neither blank nor comments. Each ends with a line feed.
    pub lines: Vec<u8>,
}

impl Script {
    /// Returns a script of which nothing was read.
    pub fn new(alloc: Global) -> Script
        ensures { IsStoredReading result.is_open result.shape result.lines.items unread }
    {
        Script {
            is_open: false,
            shape: Shape {
                programs: 1,
                lines: 1,
                ports: 1,
                journal: 1,
                side: Side::Uni,
            },
            lines: Vec::new(alloc),
        }
    }
}

impl Machine for Script {
    ghost use Rattle.cmd_ports.specs.PortsText.{ScriptReading, reading_rules};
    ghost use Rattle.cmd_ports.specs.inner.Reading.{IsStoredReading};
    ghost use Rattle.cmd_ports.specs.inner.ReadingLaws.{reading-total};

    ghost World = { ScriptReading };

    ghost shows = { λ script reading. IsStoredReading script.is_open script.shape script.lines.items reading };

    ghost rules = { reading_rules };

    fn answer(&mut self, line: &[u8], answers: &mut Vec<u8>) -> Result<Turn, AllocError> {
        if is_silent(line) {
            return Ok(Turn::GoesOn);
        }
        if self.is_open {
            let none = Vec::new(*self.lines.allocator());
            let mut lines = replace(&mut self.lines, none);
            lines.extend_from_slice(line)?;
            lines.push(b'\n')?;
            self.lines = lines;
            return Ok(Turn::GoesOn);
        }
        let Some(shape) = read_card(line) else {
            add_no_card(answers)?;
            return Ok(Turn::Ends);
        };
        if let Some(fault) = shape.fault() {
            add_shape_fault(answers, fault)?;
            return Ok(Turn::Ends);
        }
        self.shape = shape;
        self.is_open = true;
        Ok(Turn::GoesOn)
    }

    fn close(&self, answers: &mut Vec<u8>) -> Answered {
        if self.is_open {
            return Ok(Done::Whole);
        }
        add_no_card(answers)?;
        Ok(Done::Ended)
    }

    fn refuse(&self, answers: &mut Vec<u8>) -> Added {
        add_too_long(answers)
    }

    ghost is_total = { reading-total };
}

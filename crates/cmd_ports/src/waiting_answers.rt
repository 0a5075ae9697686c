//! The answers that aren't printed yet. They are printed in the script's order, so the next answer of a port or of the desk is its first
//! one here.

ghost use Rattle.std.specs.Prelude.{◌≡◌, ◌∷◌, [], IfOk, MatchOption, map};
ghost use Rattle.cmd_ports.specs.inner.Rest.{unprinted};

use crate::answered::AnsweredCell;
use crate::busy_ports::BusyPort;
use port_card::Ledgers;
use std::alloc::{AllocError, Global};

/// What isn't printed yet.
#[derive(Drop)]
pub struct Rest<'a> {
    /// The answered cells of each port.
    pub cells: Vec<&'a [AnsweredCell]>,
    /// The texts of the desk.
    pub texts: &'a [Vec<u8>],
    /// The lengths of cells that don't have 52 octets.
    pub lengths: &'a [usize],
}

/// Returns all answers of these ports and of the desk, and these lengths.
pub fn all_unprinted<'a, S: Ledgers>(
    alloc: Global,
    ports: &'a [BusyPort<S>],
    texts: &'a [Vec<u8>],
    lengths: &'a [usize],
) -> Result<Rest<'a>, AllocError>
    ensures { IfOk result (λ rest. unprinted rest ≡ record {
      cells = map (λ port. port.arrivals.items) ports.now;
      texts = map (λ text. text.items) texts.now;
      lengths = lengths.now;
    }) }
{
    let mut cells = Vec::new(alloc);
    for port in ports {
        cells.push(port.arrivals.as_slice())?;
    }
    Ok(Rest {
        cells,
        texts,
        lengths,
    })
}

/// Returns the first of a port's answered cells and those after it, if there is one.
fn first_of(own: &[AnsweredCell]) -> Option<(&AnsweredCell, &[AnsweredCell])>
    ensures { MatchOption result (own.now ≡ []) (λ found. own.now ≡ found.0.now ∷ found.1.now) }
{
    match own {
        [first, later @ ..] => Some((first, later)),
        [] => None,
    }
}

impl<'a> Rest<'a> {
    ghost use Rattle.std.specs.Prelude.{◌≡◌, [], slice_get};
    ghost use Rattle.std.specs.Option.{option_copied};
    ghost use Rattle.text_script.specs.declared.dealing.Answerer.TheVariants.{Port, Desk, WrongLength};
    ghost use Rattle.cmd_ports.specs.inner.InOrder.{after_answerer, first_cell, first_or};
    ghost use Rattle.cmd_ports.specs.inner.Rest.{unprinted};

    /// Takes the next answered cell of the port of this number, if there is one.
    pub fn next_cell(&mut self, number: u32) -> Option<&'a AnsweredCell>
        ensures first { option_copied result ≡ first_cell (slice_get (unprinted self.old).cells number) }
        ensures rest { unprinted self.new ≡ after_answerer (Port number) (unprinted self.old) }
    {
        let number = number as usize;
        let own = *self.cells.get(number)?;
        match first_of(own) {
            Some((first, later)) => {
                self.cells[number] = later;
                Some(first)
            }
            None => None,
        }
    }

    /// Takes the next text of the desk. It is empty if there is none.
    pub fn next_text(&mut self) -> &'a [u8]
        ensures first { result.now ≡ first_or [] (unprinted self.old).texts }
        ensures rest { unprinted self.new ≡ after_answerer Desk (unprinted self.old) }
    {
        match self.texts {
            [first, later @ ..] => {
                self.texts = later;
                first
            }
            [] => &[],
        }
    }

    /// Takes the next length. It is 0 if there is none.
    pub fn next_length(&mut self) -> usize
        ensures first { result ≡ first_or 0 (unprinted self.old).lengths }
        ensures rest { unprinted self.new ≡ after_answerer WrongLength (unprinted self.old) }
    {
        match self.lengths {
            [first, later @ ..] => {
                self.lengths = later;
                *first
            }
            [] => 0,
        }
    }
}

//! The stored part of an answered cell: what the line of the answer shows.

ghost use Rattle.std.specs.Prelude.{◌≡◌};
ghost use Rattle.cmd_ports.specs.inner.Answered.{judgement_by, decision_kept, shown_cell, answered_cell};

use card_core::{Answer, Judgement, Unjudged};
use gen_arena::Id;
use leaky::Verdict;
use line_record::LineFault;
use upc_cell::{CELL_OCTETS, Cell};

/// The values that the line of a judged cell shows, besides its header.
#[derive(Clone, Copy)]
pub struct Ruling {
    /// The program that gave the number of the contract.
    pub program: Id,
    /// The number that it gave.
    pub value: u32,
    pub verdict: Verdict,
}

/// An answered cell.
#[derive(Clone, Copy)]
pub struct AnsweredCell {
    /// Octets 0 to 3 of the cell on arrival.
    pub header: [u8; 4],
    pub decision: Result<Ruling, Unjudged>,
}

/// Returns the stored part of the answer: the ruling on a judged cell, or the reason why it isn't judged.
fn decision_kept(answer: &Answer) -> Result<Ruling, Unjudged>
    ensures { result ≡ decision_kept answer.now }
{
    match *answer {
        Answer::Judged {
            value,
            program,
            verdict,
            ..
        } => Ok(Ruling {
            program,
            value,
            verdict,
        }),
        Answer::NoConnection => Err(Unjudged::NoConnection),
        Answer::Released => Err(Unjudged::Released),
        Answer::Stale => Err(Unjudged::Stale),
        Answer::MomentBack { last } => Err(Unjudged::LineFault(LineFault::Back(last))),
        Answer::MomentTooLate => Err(Unjudged::LineFault(LineFault::TooLate)),
        Answer::JournalFull => Err(Unjudged::LineFault(LineFault::Full)),
        Answer::NoMemory => Err(Unjudged::LineFault(LineFault::NoMemory)),
    }
}

/// Returns the stored part of this cell and its answer.
pub fn answered_cell(cell: &Cell, answer: &Answer) -> AnsweredCell
    ensures { result ≡ answered_cell cell.now answer.now }
{
    let octets = cell.bytes();
    AnsweredCell {
        header: [octets[0], octets[1], octets[2], octets[3]],
        decision: decision_kept(answer),
    }
}

/// Returns a cell with this header and a payload of zeros.
pub fn shown_cell(header: &[u8; 4]) -> Cell
    ensures { result ≡ shown_cell header.now }
{
    let mut octets = [0; CELL_OCTETS];
    octets[0] = header[0];
    octets[1] = header[1];
    octets[2] = header[2];
    octets[3] = header[3];
    Cell::from(octets)
}

/// Returns the judgement with this ruling. Its other numbers are 0.
pub fn judgement_of(ruling: &Ruling) -> Judgement
    ensures { result ≡ judgement_by ruling.now }
{
    Judgement {
        number: 0,
        moment: 0,
        program: ruling.program,
        value: ruling.value,
        line: 0,
        verdict: ruling.verdict,
    }
}

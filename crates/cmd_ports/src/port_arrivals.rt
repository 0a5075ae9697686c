//! The cells of a port, which arrive on the port's own thread.

ghost use Rattle.std.specs.Prelude.{◌≡◌, ◌++◌, IfOk, OnOk, map, option_to_list};
ghost use Rattle.line_record.specs.Tally.{plus};
ghost use Rattle.port_card.specs.Seats.{tally_of_seat};
ghost use Rattle.cmd_ports.specs.inner.Answered.{stored_counts};
ghost use Rattle.cmd_ports.specs.inner.Arrivals.{AnswersPort, IsStoredFrom};

use crate::answered::{AnsweredCell, answered_cell};
use crate::busy_ports::BusyPort;
use crate::port_job::PortJob;
use port_card::{Card, Gate, Ledgers, PortSeat};
use std::alloc::{AllocError, Global};
use std::sync::Wait;
use text_io::Added;
use text_script::{CellLine, read_cell_line};
use upc_cell::Side;

/// Lets the cell of a line arrive, and returns what is stored of the cell and its answer. Returns None only for a line
/// without a cell; a port gets no such line.
fn arrive_from<S: Ledgers, G: Gate, R: Wait>(
    rt: &R,
    alloc: Global,
    card: &Card<S>,
    seat: &mut PortSeat<S>,
    side: Side,
    line: &[u8],
    gate: &G,
) -> Result<Option<AnsweredCell>, AllocError>
    ensures stored { IfOk result (IsStoredFrom side line.now) }
    ensures counted { IfOk result (λ stored. tally_of_seat seat.new ≡ plus (tally_of_seat seat.old) (stored_counts stored)) }
{
    match read_cell_line(alloc, side, line)? {
        CellLine::Comes(moment, cell) => {
            let answer = card.arrive(rt, seat, &cell, moment, gate);
            Ok(Some(answered_cell(&cell, &answer)))
        }
        CellLine::IsFaulty(_) => Ok(None),
    }
}

/// Adds an answered cell, if there is one.
fn add_stored(arrivals: &mut Vec<AnsweredCell>, stored: Option<AnsweredCell>) -> Added
    ensures { OnOk result (arrivals.new.items ≡ arrivals.old.items ++ option_to_list stored) }
{
    match stored {
        Some(stored) => {
            arrivals.push(stored)?;
            Ok(())
        }
        None => Ok(()),
    }
}

/// Lets the cells of a port's lines arrive, one by one, each once.
pub fn arrive_from_each<S: Ledgers, G: Gate, R: Wait>(
    rt: &R,
    alloc: Global,
    card: &Card<S>,
    job: PortJob<'_, '_, S>,
    side: Side,
    gate: &G,
) -> Result<BusyPort<S>, AllocError>
    ensures { IfOk result (λ port. AnswersPort side (map (λ line. line.now) job.entry.lines.now) port.arrivals.items) }
{
    let PortJob { mut seat, lines } = job;
    let mut arrivals = Vec::with_capacity(alloc, lines.len())?;
    for line in lines {
        let stored = arrive_from(rt, alloc, card, &mut seat, side, line, gate)?;
        add_stored(&mut arrivals, stored)?;
    }
    Ok(BusyPort { seat, arrivals })
}

//! Ports whose cells were all answered.

ghost use Rattle.std.specs.Prelude.{◌≡◌, IfOk, map};
ghost use Rattle.port_card.specs.Seats.{tally_of_seat};
ghost use Rattle.cmd_ports.specs.inner.Answered.{cells_counts};

use crate::answered::AnsweredCell;
use port_card::{Ledgers, PortSeat};
use std::alloc::{AllocError, Global};

/// The seat of a port with its answered cells, in the script's order. The seat has counted exactly these cells.
#[derive(Drop)]
pub struct BusyPort<S: Ledgers> {
    pub seat: PortSeat<S>,
    pub arrivals: Vec<AnsweredCell>,
    ghost counted: { tally_of_seat seat ≡ cells_counts arrivals.items },
}

/// Returns the seats, without their cells.
pub fn seats_of<S: Ledgers>(
    alloc: Global,
    ports: Vec<BusyPort<S>>,
) -> Result<Vec<PortSeat<S>>, AllocError>
    ensures { IfOk result (λ seats. seats.items ≡ map (λ port. port.seat) ports.items) }
{
    let mut seats = Vec::new(alloc);
    for port in ports {
        let BusyPort { seat, arrivals: _ } = port;
        seats.push(seat)?;
    }
    Ok(seats)
}

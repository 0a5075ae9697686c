//! The ports before the arrival of their cells.

ghost use Rattle.std.specs.Prelude.{◌≡◌, All, IfOk, length, map};
ghost use Rattle.line_record.specs.Tally.{nothing};
ghost use Rattle.port_card.specs.Seats.{tally_of_seat};

use port_card::{Ledgers, PortSeat};
use std::alloc::{AllocError, Global};

/// The seat of a port, which has counted no cell, and the lines of the port's cells, in the script's order.
#[derive(Drop)]
pub struct PortJob<'a, 'l, S: Ledgers> {
    pub seat: PortSeat<S>,
    pub lines: &'a [&'l [u8]],
    ghost unused: { tally_of_seat seat ≡ nothing },
}

impl<'a, 'l, S: Ledgers> PortJob<'a, 'l, S> {
    ghost use Rattle.std.specs.Prelude.{◌≡◌};
    ghost use Rattle.line_record.specs.Tally.{nothing};
    ghost use Rattle.port_card.specs.Seats.{tally_of_seat};

    /// Gives a seat the lines of its cells.
    fn new(seat: PortSeat<S>, lines: &'a [&'l [u8]]) -> Self
        requires { tally_of_seat seat ≡ nothing }
        ensures { result.lines ≡ lines.entry }
    {
        PortJob { seat, lines }
    }
}

/// Gives each seat the lines of its cells. No seat has counted a cell.
pub fn jobs_of<'a, 'l, S: Ledgers>(
    alloc: Global,
    seats: Vec<PortSeat<S>>,
    arrivals: &'a [Vec<&'l [u8]>],
) -> Result<Vec<PortJob<'a, 'l, S>>, AllocError>
    requires one_each { length seats.items ≡ length arrivals.now }
    requires unused { All (λ seat. tally_of_seat seat ≡ nothing) seats.items }
    ensures { IfOk result (λ jobs. map (λ job. map (λ line. line.now) job.lines.now) jobs.items
        ≡ map (λ own. map (λ line. line.now) own.items) arrivals.now) }
{
    let mut jobs = Vec::with_capacity(alloc, arrivals.len())?;
    let mut seats = seats.into_iter();
    for own in arrivals {
        let Some(seat) = seats.next() else {
            unreachable!()
        };
        jobs.push(PortJob::new(seat, own.as_slice()))?;
    }
    Ok(jobs)
}

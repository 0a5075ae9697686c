//! The seat of a port, and its tallies.

ghost use Rattle.std.specs.Prelude.{◌≡◌, IfSome, replicate};
ghost use Rattle.line_record.specs.Tally.{nothing};

use crate::books::Books;
use crate::ledgers::Ledgers;
use crate::shares::{LineShares, SeatShares};
use leaky::Verdict;
use line_record::Tally;
use std::alloc::Global;
use std::marker::Model;

/// The seat of one port. Its owner may let cells arrive at the port. It can't be copied. It counts the cells that
/// were judged.
#[derive(Drop)]
pub struct PortSeat<S: Ledgers> {
    port: u8,
    /// The tallies, by the number of the line.
    tallies: Vec<Tally>,
    shares: SeatShares<S>,
}

impl<S: Ledgers> Model for PortSeat<S> {
    ghost use Rattle.std.specs.Prelude.{◌≡◌, length};
    ghost use Rattle.line_record.specs.Tally.{total};
    ghost use Rattle.port_card.specs.Seats.{SeatView};

    ghost Value = { SeatView };

    ghost view = { λ s. record { port = s.port; tallies = s.tallies.items } };

    ghost invariant = { λ s. (s.shares.parts ≡ 1)
        × (s.shares.tally ≡ total s.tallies.items)
        × (length s.tallies.items ≡ S.names.lines) };
}

impl<S: Ledgers> PortSeat<S> {
    ghost use Rattle.std.specs.Prelude.{◌≡◌, ◌<◌, length, slice_get, IfSome};
    ghost use Rattle.line_record.specs.Tally.{counted, total, HasRoom};
    ghost use Rattle.port_card.specs.Seats.{new_seat, counted_on, tally_of_seat};
    ghost use Rattle.port_card.specs.inner.Shares.{unused_shares, counted_share};

    /// A seat that has counted no cell. Returns none if an allocation fails.
    pub(crate) fn new(alloc: Global, port: u8, lines: usize, shares: SeatShares<S>) -> Option<Self>
        requires lines { lines ≡ S.names.lines }
        requires shares { shares ≡ unused_shares 1 }
        ensures { IfSome result (λ seat. seat ≡ new_seat port lines) }
    {
        let Some(tallies) = no_tallies(alloc, lines) else {
            return None;
        };
        Some(PortSeat {
            port,
            tallies,
            shares,
        })
    }

    /// The number of the port, from 0.
    #[inline]
    pub fn port(&self) -> u8
        ensures port { result ≡ self.now.port }
        ensures lines { length self.now.tallies ≡ S.names.lines }
    {
        self.port
    }

    /// The tally of the cells that arrived at this port and were judged on this line; none exactly if the card has no
    /// such line.
    pub fn tally(&self, line: u16) -> Option<Tally>
        ensures { result ≡ slice_get self.now.tallies line }
    {
        self.tallies.get(usize::from(line)).copied()
    }

    /// Returns empty shares, into which those of the seats are merged.
    pub(crate) fn no_shares(&mut self) -> SeatShares<S>
        ensures none { result ≡ unused_shares 0 }
        ensures same { self.new ≡ self.old }
    {
        self.shares.none()
    }

    /// Takes the seat apart: its tallies, and the shares, whose counts are the sum of the tallies.
    pub(crate) fn into_column(self) -> (Column, SeatShares<S>)
        ensures column { result.0 ≡ self.tallies }
        ensures parts { result.1.parts ≡ 1 }
        ensures tally { result.1.tally ≡ total self.tallies }
    {
        let PortSeat {
            port: _,
            tallies,
            shares,
        } = self;
        (Column { tallies }, shares)
    }

    /// Counts a judged cell in the seat's tally, in the books, and in the shares of the line and the seat. The line itself has counted it
    /// already.
    #[inline]
    pub(crate) fn count(
        &mut self,
        books: &mut Books<S>,
        on_line: &mut LineShares<S>,
        line: u16,
        verdict: Verdict,
    )
        requires there { line < length self.old.tallies }
        requires room { HasRoom books.old }
        requires line_part { 0 < on_line.old.parts }
        ensures seat { self.new ≡ counted_on self.old line verdict }
        ensures total { tally_of_seat self.new ≡ counted (tally_of_seat self.old) verdict }
        ensures books { books.new ≡ counted books.old verdict }
        ensures line { on_line.new ≡ counted_share on_line.old verdict }
    {
        // Changes nothing: its contract says that the tally has room.
        books.bound(&mut self.shares);
        self.tallies[usize::from(line)].count(verdict);
        books.count(on_line, &mut self.shares, verdict);
    }
}

/// The tallies of a seat of a closed card, by line.
#[derive(Drop)]
pub(crate) struct Column {
    tallies: Vec<Tally>,
}

impl Model for Column {
    ghost use Rattle.std.specs.Prelude.{List};
    ghost use Rattle.line_record.specs.declared.tally.Tally.{Tally};

    ghost Value = { List Tally };

    ghost view = { λ c. c.tallies.items };
}

impl Column {
    ghost use Rattle.std.specs.Prelude.{◌≡◌};
    ghost use Rattle.port_card.specs.inner.Columns.{column_on};

    /// The tally for this line, or zero if the column is shorter.
    pub(crate) fn on(&self, line: usize) -> Tally
        ensures { result ≡ column_on line self.now }
    {
        match self.tallies.get(line) {
            Some(tally) => *tally,
            None => Tally::new(),
        }
    }
}

/// Makes a tally of zero for each of `lines` lines. Returns none if an allocation fails.
fn no_tallies(alloc: Global, lines: usize) -> Option<Vec<Tally>>
    ensures { IfSome result (λ tallies. tallies.items ≡ replicate lines nothing) }
{
    let Ok(mut tallies) = Vec::with_capacity(alloc, lines) else {
        return None;
    };
    for _ in 0..lines {
        tallies.push_reserved(Tally::new());
    }
    Some(tallies)
}

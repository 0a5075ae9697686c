//! Closing a card, after all seats and the desk are back.

use crate::card::Card;
use crate::counted_line::CountedLine;
use crate::ledgers::Ledgers;
use crate::seat::{Column, PortSeat};
use crate::shares::{LineShares, SeatShares};
use card_core::MOST_LINES;
use line_record::{Line, Tally};
use std::alloc::Global;
use std::sync::Mutex;
use thiserror::Error;

/// A closed card.
#[derive(Debug, Drop)]
pub struct Closing {
    /// The lines in the order of their numbers, with everything that they counted.
    pub lines: Vec<Line>,
    /// The number of the first line, from 0, whose counts aren't the sum of the seats' tallies for it; none if there
    /// is no such line.
    pub uneven: Option<u16>,
    ghost fit: { FitsWords (lines_total lines.items) },
}

impl Closing {
    ghost use Rattle.std.specs.Prelude.{◌≡◌};
    ghost use Rattle.port_card.specs.Closing.{lines_total};

    /// The number of cells with each verdict, over all lines.
    pub fn total(&self) -> Tally
        ensures { result ≡ lines_total self.now.lines.items }
    {
        let mut sum = Tally::new();
        for line in &self.lines {
            sum = sum.plus(line.counts());
        }
        sum
    }
}

/// Why a card can't be closed. Printed as its number and its name.
#[derive(Clone, Copy, Debug, PartialEq, Eq, Error)]
pub enum CloseFault {
    /// There are fewer seats than ports.
    #[error("1 Missing")]
    Missing,
    /// An allocation failed.
    #[error("2 NoMemory")]
    NoMemory,
}

impl<S: Ledgers> Card<S> {
    ghost use Rattle.std.specs.Prelude.{◌≡◌, ◌≤◌, length, IfOk, IfErr, MatchResult};
    ghost use Rattle.port_card.specs.Closing.{lines_total, seats_total, seats_on, IsFirstUneven, IsUnclosed};

    /// Takes the card and its seats apart. Returns the lines, and the first line whose counts differ from the seats'
    /// tallies for it. Takes no lock, since nobody else has the card.
    ///
    /// # Errors
    ///
    /// `Missing` if there are fewer seats than ports; otherwise `NoMemory` if an allocation fails. Both return the
    /// card and the seats.
    pub fn close(
        self,
        alloc: Global,
        seats: Vec<PortSeat<S>>,
    ) -> Result<Closing, (CloseFault, Card<S>, Vec<PortSeat<S>>)>
        ensures lines { IfOk result (λ closing. length closing.lines.items ≡ self.lines) }

        // The counts of all lines are the tallies of all seats, for each verdict.
        ensures sums { IfOk result (λ closing. lines_total closing.lines.items ≡ seats_total seats.items) }

        ensures uneven { IfOk result (λ closing.
            IsFirstUneven closing.lines.items (seats_on seats.items) closing.uneven) }

        ensures refused { MatchResult result
            (λ _. self.ports ≤ length seats.items)
            (λ refused. IsUnclosed self seats.items refused.0) }
        ensures card_returned { IfErr result (λ refused. refused.1 ≡ self) }
        ensures seats_returned { IfErr result (λ refused. refused.2.items ≡ seats.items) }
    {
        if seats.len() < self.shape.ports as usize {
            return Err((CloseFault::Missing, self, seats));
        }
        let Ok(lines) = Vec::with_capacity(alloc, self.counted_lines.len()) else {
            return Err((CloseFault::NoMemory, self, seats));
        };
        let Ok(columns) = Vec::with_capacity(alloc, seats.len()) else {
            return Err((CloseFault::NoMemory, self, seats));
        };
        let Card {
            shape: _,
            store: _,
            seatings: _,
            counted_lines,
            books,
        } = self;
        let mut counted_lines = counted_lines;
        let mut seats = seats;
        let no_lines = shares_of_no_line(&mut counted_lines);
        let no_seats = seats[0].no_shares();
        let (lines, mut on_lines) = gathered_lines(counted_lines, lines, no_lines);
        let (columns, mut at_seats) = gathered_columns(seats, columns, no_seats);
        books.into_inner().audit(&mut on_lines, &mut at_seats);
        let uneven = first_uneven(&lines, &columns);
        Ok(Closing { lines, uneven })
    }
}

ghost use Rattle.std.specs.Prelude.{◌≡◌, ◌<◌, ◌≤◌, ◌↔◌, IsTrue, [], length, map, vec_len, vec_capacity};
ghost use Rattle.line_record.specs.Tally.{FitsWords};
ghost use Rattle.port_card.specs.Closing.{lines_total, IsFirstUneven};
ghost use Rattle.port_card.specs.inner.Columns.{columns_total, columns_on};
ghost use Rattle.port_card.specs.inner.Shares.{unused_shares};

/// Returns empty shares, into which those of the lines are merged.
fn shares_of_no_line<S: Ledgers>(counted_lines: &mut [Mutex<CountedLine<S>>]) -> LineShares<S>
    requires { 0 < length counted_lines.old }
    ensures { result ≡ unused_shares 0 }
{
    counted_lines[0].get_mut().no_shares()
}

/// Takes the lines out of their locks into a list that has room for them, and merges their shares.
fn gathered_lines<S: Ledgers>(
    counted_lines: Vec<Mutex<CountedLine<S>>>,
    lines: Vec<Line>,
    none: LineShares<S>,
) -> (Vec<Line>, LineShares<S>)
    requires empty { lines.items ≡ [] }
    requires room { vec_len counted_lines ≤ vec_capacity lines }
    requires none { none ≡ unused_shares 0 }
    ensures sized { length result.0.items ≡ vec_len counted_lines }
    ensures parts { result.1.parts ≡ vec_len counted_lines }
    ensures tally { result.1.tally ≡ lines_total result.0.items }
{
    let mut lines = lines;
    let mut shares = none;
    for counted_line in counted_lines {
        let CountedLine { line, shares: own } = counted_line.into_inner();
        shares.merge(own);
        lines.push_reserved(line);
    }
    (lines, shares)
}

/// Takes the seats' tallies into a list that has room for them, and merges their shares.
fn gathered_columns<S: Ledgers>(
    seats: Vec<PortSeat<S>>,
    columns: Vec<Column>,
    none: SeatShares<S>,
) -> (Vec<Column>, SeatShares<S>)
    requires empty { columns.items ≡ [] }
    requires room { length seats.items ≤ vec_capacity columns }
    requires none { none ≡ unused_shares 0 }
    ensures columns { result.0.items ≡ map (λ seat. seat.tallies) seats.items }
    ensures parts { result.1.parts ≡ length seats.items }
    ensures most { result.1.parts ≤ S.names.ports }
    ensures tally { result.1.tally ≡ columns_total result.0.items }
{
    let mut columns = columns;
    let mut shares = none;
    for seat in seats {
        let (column, own) = seat.into_column();
        shares.merge(own);
        columns.push_reserved(column);
    }
    (columns, shares)
}

/// The number of the first line whose counts differ from the seats' tallies for it; none if there is no such line.
fn first_uneven(lines: &[Line], columns: &[Column]) -> Option<u16>
    requires few { length lines.now ≤ MOST_LINES }
    requires fit { FitsWords (columns_total columns.now) }
    ensures { IsFirstUneven lines.now (columns_on columns.now) result }
{
    for number in 0..lines.len() {
        if !is_same(lines[number].counts(), sum_on(columns, number)) {
            return Some(number as u16);
        }
    }
    None
}

/// Whether both have equal counts.
fn is_same(one: Tally, other: Tally) -> bool
    ensures { IsTrue result ↔ (one ≡ other) }
{
    one == other
}

/// The sum of the seats' tallies for this line.
fn sum_on(columns: &[Column], line: usize) -> Tally
    requires { FitsWords (columns_total columns.now) }
    ensures { result ≡ columns_on columns.now line }
{
    let mut sum = Tally::new();
    for column in columns {
        sum = sum.plus(column.on(line));
    }
    sum
}

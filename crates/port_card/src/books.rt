//! The sums by verdict. Each is counted in two ledgers, that of the lines and that of the seats. A ledger is a sum with parts in several
//! places: the shares of all lines, or of all seats, add up to the total in its book.

ghost use Rattle.std.specs.Prelude.{◌≡◌, ◌+◌, ◌<◌, ◌≤◌, ◌^◌, ◌↔◌, IsTrue};

use crate::ledgers::{
    DiscardedAtSeats, DiscardedOnLines, Ledgers, PassedAtSeats, PassedOnLines, RefusedAtSeats,
    RefusedOnLines, TaggedAtSeats, TaggedOnLines,
};
use crate::shares::{LineShares, SeatShares, Shares};
use leaky::Verdict;
use line_record::MOST_CELLS;
use std::marker::Model;
use std::sync::ledger::{Blank, Book, Ledger, Share};

/// The eight ledgers of a card before they are opened. Contracts see the numbers of lines and ports, and the names.
#[derive(Drop)]
pub struct Blanks {
    passed_on_lines: Blank,
    passed_at_seats: Blank,
    tagged_on_lines: Blank,
    tagged_at_seats: Blank,
    discarded_on_lines: Blank,
    discarded_at_seats: Blank,
    refused_on_lines: Blank,
    refused_at_seats: Blank,
}

impl Model for Blanks {
    ghost use Rattle.std.specs.Prelude.{◌≡◌};
    ghost use Rattle.port_card.specs.Names.{Names};

    ghost Value = { Names };

    ghost view = { λ b. record {
      lines = b.passed_on_lines.parts;
      ports = b.passed_at_seats.parts;
      passed_on_lines = b.passed_on_lines.name;
      passed_at_seats = b.passed_at_seats.name;
      tagged_on_lines = b.tagged_on_lines.name;
      tagged_at_seats = b.tagged_at_seats.name;
      discarded_on_lines = b.discarded_on_lines.name;
      discarded_at_seats = b.discarded_at_seats.name;
      refused_on_lines = b.refused_on_lines.name;
      refused_at_seats = b.refused_at_seats.name;
    } };

    ghost invariant = { λ b. (b.tagged_on_lines.parts ≡ b.passed_on_lines.parts)
        × (b.discarded_on_lines.parts ≡ b.passed_on_lines.parts)
        × (b.refused_on_lines.parts ≡ b.passed_on_lines.parts)
        × (b.tagged_at_seats.parts ≡ b.passed_at_seats.parts)
        × (b.discarded_at_seats.parts ≡ b.passed_at_seats.parts)
        × (b.refused_at_seats.parts ≡ b.passed_at_seats.parts) };
}

impl Blanks {
    /// The ledgers of a card with this number of lines and ports.
    pub fn new(lines: u64, ports: u64) -> Self
        ensures lines { result.lines ≡ lines }
        ensures ports { result.ports ≡ ports }
    {
        Blanks {
            passed_on_lines: Blank::new(lines),
            passed_at_seats: Blank::new(ports),
            tagged_on_lines: Blank::new(lines),
            tagged_at_seats: Blank::new(ports),
            discarded_on_lines: Blank::new(lines),
            discarded_at_seats: Blank::new(ports),
            refused_on_lines: Blank::new(lines),
            refused_at_seats: Blank::new(ports),
        }
    }
}

/// The number of cells with one verdict, and its two ledgers: that of the lines and that of the seats. Contracts see
/// the number.
#[derive(Drop)]
struct Pair<L: Ledger, M: Ledger> {
    count: u64,
    on_lines: Book<L>,
    at_seats: Book<M>,
}

impl<L: Ledger, M: Ledger> Model for Pair<L, M> {
    ghost use Rattle.std.specs.Prelude.{◌≡◌, ℕ, ◌≤◌, ◌^◌};

    ghost Value = { ℕ };

    ghost view = { λ p. p.count };

    ghost invariant = { λ p. (p.on_lines.total ≡ p.count) × (p.at_seats.total ≡ p.count) × (p.count ≤ 2 ^ 62) };
}

impl<L: Ledger, M: Ledger> Pair<L, M> {
    /// Opens both ledgers and returns the whole share of each.
    fn open(on_lines: Blank, at_seats: Blank) -> (Self, Share<L>, Share<M>)
        requires line_name { on_lines.name ≡ L.name }
        requires line_parts { on_lines.parts ≡ L.parts }
        requires seat_name { at_seats.name ≡ M.name }
        requires seat_parts { at_seats.parts ≡ M.parts }
        ensures count { result.0 ≡ 0 }
        ensures lines { (result.1.parts ≡ L.parts) × (result.1.amount ≡ 0) }
        ensures seats { (result.2.parts ≡ M.parts) × (result.2.amount ≡ 0) }
    {
        let (on_lines, line) = on_lines.open::<L>();
        let (at_seats, seat) = at_seats.open::<M>();
        let pair = Pair {
            count: 0,
            on_lines,
            at_seats,
        };
        (pair, line, seat)
    }

    /// Whether one more cell can be counted.
    fn has_room(&self) -> bool
        ensures { IsTrue result ↔ (self.now < 2 ^ 62) }
    {
        self.count < MOST_CELLS
    }

    /// Counts one cell in both ledgers.
    fn count(&mut self, line: &mut Share<L>, seat: &mut Share<M>)
        requires room { self.old < 2 ^ 62 }
        requires line_part { 0 < line.old.parts }
        requires seat_part { 0 < seat.old.parts }
        ensures count { self.new ≡ self.old + 1 }
        ensures line { (line.new.parts ≡ line.old.parts) × (line.new.amount ≡ line.old.amount + 1) }
        ensures seat { (seat.new.parts ≡ seat.old.parts) × (seat.new.amount ≡ seat.old.amount + 1) }
    {
        self.on_lines.add(line, 1);
        self.at_seats.add(seat, 1);
        self.count += 1;
    }

    /// Changes nothing. Shows that one seat has counted at most as many cells as all seats together. So a seat's tally has
    /// room if the card's sum has.
    fn bound(&mut self, seat: &mut Share<M>)
        ensures same { self.new ≡ self.old }
        ensures seat { (seat.new.parts ≡ seat.old.parts) × (seat.new.amount ≡ seat.old.amount) }
        ensures bound { seat.old.amount ≤ self.old }
        ensures most { self.old ≤ 2 ^ 62 }
    {
        self.at_seats.audit(seat);
    }

    /// Changes nothing. Shows that lines and seats have counted equally many cells, if these are all shares of both
    /// ledgers.
    fn audit(&mut self, line: &mut Share<L>, seat: &mut Share<M>)
        requires all_lines { line.old.parts ≡ L.parts }
        requires all_seats { seat.old.parts ≡ M.parts }
        ensures same { self.new ≡ self.old }
        ensures line { (line.new.parts ≡ line.old.parts) × (line.new.amount ≡ line.old.amount) }
        ensures seat { (seat.new.parts ≡ seat.old.parts) × (seat.new.amount ≡ seat.old.amount) }
        ensures equal { line.old.amount ≡ seat.old.amount }
        ensures most { seat.old.amount ≤ 2 ^ 62 }
    {
        self.on_lines.audit(line);
        self.at_seats.audit(seat);
    }
}

/// The data behind the lock of the books: the sums of a card by verdict, which are both the sums over the lines and
/// the sums over the seats. No sum is above 2^62. Contracts see the sums as a tally.
#[derive(Drop)]
pub(crate) struct Books<S: Ledgers> {
    passed: Pair<PassedOnLines<S>, PassedAtSeats<S>>,
    tagged: Pair<TaggedOnLines<S>, TaggedAtSeats<S>>,
    discarded: Pair<DiscardedOnLines<S>, DiscardedAtSeats<S>>,
    refused: Pair<RefusedOnLines<S>, RefusedAtSeats<S>>,
}

impl<S: Ledgers> Model for Books<S> {
    ghost use Rattle.line_record.specs.declared.tally.Tally.{Tally};

    ghost Value = { Tally };

    ghost view = { λ b. record {
      passed = b.passed;
      tagged = b.tagged;
      discarded = b.discarded;
      refused = b.refused;
    } };
}

impl<S: Ledgers> Books<S> {
    ghost use Rattle.line_record.specs.Tally.{nothing, counted, count_of, HasRoom, IsPartTally};
    ghost use Rattle.port_card.specs.inner.Shares.{unused_shares, counted_share, IsBoundedCount};

    /// Opens books that have counted no cell, and returns all shares of lines and of seats.
    pub(crate) fn open(blanks: Blanks) -> (Self, LineShares<S>, SeatShares<S>)
        requires { blanks ≡ S.names }
        ensures books { result.0 ≡ nothing }
        ensures lines { result.1 ≡ unused_shares S.names.lines }
        ensures seats { result.2 ≡ unused_shares S.names.ports }
    {
        let passed = Pair::open(blanks.passed_on_lines, blanks.passed_at_seats);
        let tagged = Pair::open(blanks.tagged_on_lines, blanks.tagged_at_seats);
        let discarded = Pair::open(blanks.discarded_on_lines, blanks.discarded_at_seats);
        let refused = Pair::open(blanks.refused_on_lines, blanks.refused_at_seats);
        let books = Books {
            passed: passed.0,
            tagged: tagged.0,
            discarded: discarded.0,
            refused: refused.0,
        };
        let lines = Shares {
            passed: passed.1,
            tagged: tagged.1,
            discarded: discarded.1,
            refused: refused.1,
        };
        let seats = Shares {
            passed: passed.2,
            tagged: tagged.2,
            discarded: discarded.2,
            refused: refused.2,
        };
        (books, lines, seats)
    }

    /// Whether one more cell can be counted, whatever its verdict.
    #[inline]
    pub(crate) fn has_room(&self) -> bool
        ensures { IsTrue result ↔ HasRoom self.now }
    {
        self.passed.has_room()
            && self.tagged.has_room()
            && self.discarded.has_room()
            && self.refused.has_room()
    }

    /// Counts one cell with this verdict, on a line and at a seat.
    #[inline]
    pub(crate) fn count(
        &mut self,
        line: &mut LineShares<S>,
        seat: &mut SeatShares<S>,
        verdict: Verdict,
    )
        requires room { HasRoom self.old }
        requires line_part { 0 < line.old.parts }
        requires seat_part { 0 < seat.old.parts }
        ensures counted { self.new ≡ counted self.old verdict }
        ensures line { line.new ≡ counted_share line.old verdict }
        ensures seat { seat.new ≡ counted_share seat.old verdict }
    {
        match verdict {
            Verdict::Pass => self.passed.count(&mut line.passed, &mut seat.passed),
            Verdict::Tag => self.tagged.count(&mut line.tagged, &mut seat.tagged),
            Verdict::Discard => self
                .discarded
                .count(&mut line.discarded, &mut seat.discarded),
            Verdict::Refuse => self.refused.count(&mut line.refused, &mut seat.refused),
        }
    }

    /// Changes nothing. Shows that one seat has counted at most as many cells as all seats together, for each
    /// verdict.
    #[inline]
    pub(crate) fn bound(&mut self, seat: &mut SeatShares<S>)
        ensures same { self.new ≡ self.old }
        ensures seat { seat.new ≡ seat.old }
        ensures part { IsPartTally seat.old.tally self.old }
        ensures most { IsBoundedCount self.old }
    {
        self.passed.bound(&mut seat.passed);
        self.tagged.bound(&mut seat.tagged);
        self.discarded.bound(&mut seat.discarded);
        self.refused.bound(&mut seat.refused);
    }

    /// Changes nothing. Shows that lines and seats have counted equally many cells for each verdict, if these are all
    /// shares of both.
    pub(crate) fn audit(&mut self, lines: &mut LineShares<S>, seats: &mut SeatShares<S>)
        requires all_lines { lines.old.parts ≡ S.names.lines }
        requires all_seats { seats.old.parts ≡ S.names.ports }
        ensures same { self.new ≡ self.old }
        ensures equal { lines.old.tally ≡ seats.old.tally }
        ensures most { IsBoundedCount seats.old.tally }
    {
        self.passed.audit(&mut lines.passed, &mut seats.passed);
        self.tagged.audit(&mut lines.tagged, &mut seats.tagged);
        self.discarded
            .audit(&mut lines.discarded, &mut seats.discarded);
        self.refused.audit(&mut lines.refused, &mut seats.refused);
    }
}

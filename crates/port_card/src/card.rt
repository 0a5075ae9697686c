//! The running card: the data that ports and desk share, behind locks.

use crate::books::{Blanks, Books};
use crate::counted_line::CountedLine;
use crate::desk::Desk;
use crate::gate::Gate;
use crate::ledgers::Ledgers;
use crate::seat::PortSeat;
use crate::seatings::{Found, Seatings};
use crate::shares::{LineShares, SeatShares};
use card_core::{Answer, CardFault, Shape, Store};
use gen_arena::Arena;
use line_record::{Line, MOST_ENTRIES};
use std::alloc::Global;
use std::marker::Model;
use std::sync::{Mutex, RwLock, Wait};
use upc_cell::{Cell, Side, Vc};

/// A card that ports and a desk use at the same time, each from its own thread.
///
/// Locks are taken in the order of the fields: the programs (to read, or to write in `load` and `retire`), the
/// directory, a line, the books.
#[derive(Drop)]
pub struct Card<S: Ledgers> {
    pub(crate) shape: Shape,
    pub(crate) store: RwLock<Store>,
    pub(crate) seatings: Mutex<Seatings<S>>,
    pub(crate) counted_lines: Vec<Mutex<CountedLine<S>>>,
    pub(crate) books: Mutex<Books<S>>,
}

impl<S: Ledgers> Model for Card<S> {
    ghost use Rattle.std.specs.Prelude.{◌≡◌, vec_len};
    ghost use Rattle.card_core.specs.declared.shape.Shape.{Shape};
    ghost use Rattle.card_core.specs.Shapes.{IsShape};
    ghost use Rattle.port_card.specs.Names.{AreFor};

    ghost Value = { Shape };

    ghost view = { λ c. c.shape };

    ghost invariant = { λ c. IsShape c.shape × AreFor c.shape S.names × (vec_len c.counted_lines ≡ S.names.lines) };
}

impl<S: Ledgers> Card<S> {
    ghost use Rattle.std.specs.Prelude.{◌≡◌, ◌≢◌, ◌<◌, ◌≤◌, ◌⊎◌, ◌↔◌, length, None, Some, IfOk, IfSome, MatchResult};
    ghost use Rattle.card_core.specs.Shapes.{shape_fault};
    ghost use Rattle.card_core.specs.Sections.{judged_in_answer};
    ghost use Rattle.port_card.specs.Names.{AreFor};
    ghost use Rattle.port_card.specs.Seats.{AreNewSeats, counts_after, seat_after, tally_of_seat};
    ghost use Rattle.gen_arena.specs.Live.{live_value};
    ghost use Rattle.port_card.specs.Answers.{IsJudgedAnswer, BlamesRightly};
    ghost use Rattle.port_card.specs.inner.Given.{IsGivenBy};

    /// Makes a card of this shape, without programs and connections. Returns it with one seat for each port, in the
    /// order of the ports, and its only desk.
    ///
    /// # Errors
    ///
    /// `Programs`, `Lines`, `Ports` or `Journal` for the first number of the shape that is out of its limits.
    /// Otherwise `NoMemory` if an allocation fails.
    pub fn new(
        alloc: Global,
        shape: Shape,
        blanks: Blanks,
    ) -> Result<(Card<S>, Vec<PortSeat<S>>, Desk<S>), CardFault>
        requires names { blanks ≡ S.names }
        requires for_shape { AreFor shape S.names }
        ensures shape { IfOk result (λ made. made.0 ≡ shape) }
        ensures seats { IfOk result (λ made. AreNewSeats made.1.items shape.ports shape.lines) }
        ensures refused { MatchResult result
            (λ _. shape_fault shape ≡ None)
            (λ fault. (shape_fault shape ≡ Some fault)
            ⊎ ((shape_fault shape ≡ None) × (fault ≡ CardFault.NoMemory))) }
    {
        if let Some(fault) = shape.fault() {
            return Err(fault);
        }
        let (books, on_lines, at_seats) = Books::open(blanks);
        let Ok(store) = Arena::new(alloc, shape.programs as u16) else {
            return Err(CardFault::NoMemory);
        };
        let Some(seatings) = Seatings::new(alloc, shape.lines as u16) else {
            return Err(CardFault::NoMemory);
        };
        let Some(free_lines) = free_lines(
            alloc,
            shape.lines as usize,
            shape.journal as u32,
            on_lines,
        ) else {
            return Err(CardFault::NoMemory);
        };
        let Some(counted_lines) = each_locked(alloc, free_lines) else {
            return Err(CardFault::NoMemory);
        };
        let Some(seats) = new_seats(alloc, shape.ports as u8, shape.lines as usize, at_seats) else {
            return Err(CardFault::NoMemory);
        };
        let card = Card {
            shape,
            store: RwLock::new(store),
            seatings: Mutex::new(seatings),
            counted_lines,
            books: Mutex::new(books),
        };
        Ok((card, seats, Desk::new()))
    }

    /// Returns the side of the card's cells.
    #[inline]
    pub fn side(&self) -> Side
        ensures { result ≡ self.now.side }
    {
        self.shape.side
    }

    /// Answers a cell that arrives at the port of this seat at `moment`, in ticks. Doesn't allocate.
    ///
    /// The read lock of the programs is held from the look-up to the end. The directory's lock is held only for the
    /// look-up, the locks of the line and the books only for the judgement. `gate.between` is called between the two,
    /// while only the read lock is held.
    ///
    /// The answer is `NoConnection` if the cell belongs to no connection and `Stale` if the connection's program
    /// isn't live. Otherwise it is `JournalFull` if one of the card's sums is 2^62, or else the answer that `judge_at` of
    /// `card_core` would give.
    pub fn arrive<G: Gate, R: Wait>(
        &self,
        rt: &R,
        seat: &mut PortSeat<S>,
        cell: &Cell,
        moment: u64,
        gate: &G,
    ) -> Answer
        // The seat counts the cell, on its line and by its verdict, exactly if the cell was judged.
        ensures tallied { seat.new ≡ seat_after seat.old (judged_in_answer result) }
        ensures total { tally_of_seat seat.new ≡ counts_after (tally_of_seat seat.old) (judged_in_answer result) }
        ensures there { IfSome (judged_in_answer result) (λ judged. judged.line < self.now.lines) }

        ensures judged { IfSome (judged_in_answer result) (IsJudgedAnswer cell.now moment) }
        ensures blames { BlamesRightly moment result }
        ensures memory { result ≢ Answer.NoMemory }
    {
        let store = self.store.read(rt);
        let vc = cell.vc_at(self.side());
        let Some(found) = self.find(rt, &store, vc) else {
            return Answer::NoConnection;
        };
        self.judge_found(rt, &found, seat, cell, moment, gate)
    }

    /// Answers a cell of the connection that was found.
    fn judge_found<G: Gate, R: Wait>(
        &self,
        rt: &R,
        found: &Found<'_>,
        seat: &mut PortSeat<S>,
        cell: &Cell,
        moment: u64,
        gate: &G,
    ) -> Answer
        requires { found.now.seating.line < self.now.lines }

        // The value is what the connection's program, as it was looked up, gives for the cell.
        ensures program { IfSome (judged_in_answer result) (λ judged. judged.program ≡ found.now.seating.program) }
        ensures given { IfSome (judged_in_answer result) (λ judged.
            IsGivenBy found.now.programs.now judged.program cell.now judged.value) }
        ensures stale { (result ≡ Answer.Stale)
            ↔ (live_value found.now.programs.now found.now.seating.program ≡ None) }

        // As `arrive`.
        ensures tallied { seat.new ≡ seat_after seat.old (judged_in_answer result) }
        ensures total { tally_of_seat seat.new ≡ counts_after (tally_of_seat seat.old) (judged_in_answer result) }
        ensures there { IfSome (judged_in_answer result) (λ judged. judged.line ≡ found.now.seating.line) }
        ensures judged { IfSome (judged_in_answer result) (IsJudgedAnswer cell.now moment) }
        ensures blames { BlamesRightly moment result }
        ensures memory { result ≢ Answer.NoMemory }
    {
        let Some(named) = found.name(cell) else {
            return Answer::Stale;
        };
        gate.between(seat.port());
        let seating = found.seating();
        let vc = cell.vc_at(self.side());
        let mut counted_line = self.counted_lines[usize::from(seating.line)].lock(rt);
        let mut books = self.books.lock(rt);
        counted_line.judge(&mut books, seat, vc, seating, &named, moment)
    }

    /// Looks up a connection, if there is one, while the caller reads these programs. The directory's lock is free again
    /// when this returns.
    fn find<'s, R: Wait>(&self, rt: &R, programs: &'s Store, vc: Vc) -> Option<Found<'s>>
        ensures within { IfSome result (λ found. found.seating.line < self.now.lines) }
        ensures programs { IfSome result (λ found. found.programs.now ≡ programs.now) }
    {
        self.seatings.lock(rt).look_up(programs, vc)
    }
}

ghost use Rattle.std.specs.Prelude.{◌≡◌, ◌≤◌, false, IfSome, length, map, replicate, vec_len};
ghost use Rattle.line_record.specs.Line.{free_line};
ghost use Rattle.line_record.specs.Tally.{nothing};
ghost use Rattle.port_card.specs.Seats.{AreNewSeats};
ghost use Rattle.port_card.specs.inner.Shares.{unused_shares};

/// Makes `lines` free lines, each with a journal of `journal` entries and its shares. Returns none if an allocation
/// fails.
fn free_lines<S: Ledgers>(
    alloc: Global,
    lines: usize,
    journal: u32,
    all: LineShares<S>,
) -> Option<Vec<CountedLine<S>>>
    requires some { 1 ≤ journal }
    requires most { journal ≤ MOST_ENTRIES }
    requires shares { all ≡ unused_shares lines }
    ensures count { IfSome result (λ made. length made.items ≡ lines) }
    ensures each { IfSome result (λ made.
        map (λ counted_line. counted_line.line) made.items ≡ replicate lines (free_line journal nothing false)) }
{
    let mut rest = all;
    let Ok(mut made) = Vec::with_capacity(alloc, lines) else {
        return None;
    };
    for _ in 0..lines {
        let Ok(line) = Line::new(alloc, journal) else {
            return None;
        };
        made.push_reserved(CountedLine::new(line, rest.split_off()));
    }
    Some(made)
}

/// Puts each line behind a lock of its own, in their order. Returns none if an allocation fails. No contract can see
/// through the locks.
fn each_locked<S: Ledgers>(
    alloc: Global,
    counted_lines: Vec<CountedLine<S>>,
) -> Option<Vec<Mutex<CountedLine<S>>>>
    ensures { IfSome result (λ locked. vec_len locked ≡ length counted_lines.items) }
{
    let Ok(mut locked) = Vec::with_capacity(alloc, counted_lines.len()) else {
        return None;
    };
    for counted_line in counted_lines {
        locked.push_reserved(Mutex::new(counted_line));
    }
    Some(locked)
}

/// Makes the seats of `ports` ports. Returns none if an allocation fails.
fn new_seats<S: Ledgers>(
    alloc: Global,
    ports: u8,
    lines: usize,
    all: SeatShares<S>,
) -> Option<Vec<PortSeat<S>>>
    requires lines { lines ≡ S.names.lines }
    requires shares { all ≡ unused_shares ports }
    ensures { IfSome result (λ seats. AreNewSeats seats.items ports lines) }
{
    let mut rest = all;
    let Ok(mut seats) = Vec::with_capacity(alloc, usize::from(ports)) else {
        return None;
    };
    for port in 0..ports {
        let Some(seat) = PortSeat::new(alloc, port, lines, rest.split_off()) else {
            return None;
        };
        seats.push_reserved(seat);
    }
    Some(seats)
}

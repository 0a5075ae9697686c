//! The running card: made, and closed. Few functions here have a contract, since they are a test.

ghost use Rattle.std.specs.Prelude.{◌≡◌, IfSome, IsSomeAnd};
ghost use Rattle.port_card.specs.Names.{AreFor};

use crate::trial::{Attempt, Call, ample_if, made_again, refused_if, try_out};
use arrayvec::ArrayVec;
use bpf_asm::assemble;
use bpf_verify::{Program, verify};
use card_core::{Answer, Ask, CardFault, DeskFault, Shape};
use gen_arena::Id;
use leaky::{Contract, Gcra, Verdict};
use line_record::{Owner, Piece, Tally};
use port_card::{Blanks, Card, CloseFault, Closing, Desk, Ledgers, NoWait, PortSeat};
use std::alloc::Global;
use std::marker::Brand;
use std::sync::Wait;
use upc_cell::{Cell, Side, Vc};

/// The source of a program that returns 1 for user data and 2 for OAM cells.
const SOURCE: &[u8; 60] = b"ldb [3]\nand #0xe\njge #8, oam, data\ndata: ret #1\noam: ret #2\n";

/// The cells of the connection 1/100: moments, last header octets, and verdicts. The last one is an OAM cell.
const CELLS: [(u64, u8, Verdict); 5] = [
    (0, 0x40, Verdict::Pass),
    (6, 0x40, Verdict::Pass),
    (14, 0x40, Verdict::Discard),
    (15, 0x40, Verdict::Pass),
    (15, 0x4a, Verdict::Refuse),
];

/// Two programs, two lines, two ports.
fn shape() -> Shape
    ensures lines { result.lines ≡ 2 }
    ensures ports { result.ports ≡ 2 }
{
    Shape {
        programs: 2,
        lines: 2,
        ports: 2,
        journal: 16,
        side: Side::Uni,
    }
}

#[derive(Drop)]
struct MakingCard {
    alloc: Global,
}

impl Call for MakingCard {
    fn make(&mut self) -> Attempt {
        make_alone(self.alloc)
    }
}

/// Makes a card with its own ledgers.
fn make_alone(alloc: Global) -> Attempt {
    let blanks = Blanks::new(2, 2);
    make_card::<Brand>(alloc, shape(), blanks)
}

/// Makes a card with these ledgers.
fn make_card<S: Ledgers>(alloc: Global, shape: Shape, blanks: Blanks) -> Attempt
    requires names { blanks ≡ S.names }
    requires for_shape { AreFor shape S.names }
{
    match Card::<S>::new(alloc, shape, blanks) {
        Ok((_card, seats, _desk)) => ample_if(are_new(&seats)),
        Err(fault) => refused_if(fault == CardFault::NoMemory),
    }
}

/// Whether these are the seats of two ports at which no cell has arrived.
fn are_new<S: Ledgers>(seats: &[PortSeat<S>]) -> bool {
    let [first, second] = seats else {
        return false;
    };
    first.port() == 0 && second.port() == 1 && first.tally(1) == Some(Tally::new())
}

/// `Card::new`.
pub fn try_new_card(alloc: Global) -> Attempt {
    try_out(&mut MakingCard { alloc })
}

/// A card to close, its seats, and the number of the line that judged its cells.
#[derive(Drop)]
struct ClosingCard<S: Ledgers> {
    alloc: Global,
    line: u16,
    unclosed: Option<(Card<S>, Vec<PortSeat<S>>)>,
}

impl<S: Ledgers> Call for ClosingCard<S> {
    fn make(&mut self) -> Attempt
        // A failed close returns the card and its seats unchanged.
        ensures handed_back { result ≡ Attempt.Refused → IfSome self.old.unclosed (λ before.
            IsSomeAnd self.new.unclosed (λ after. (after.0 ≡ before.0) × (after.1.items ≡ before.1.items))) }
    {
        let Some((card, seats)) = self.unclosed.take() else {
            return Attempt::Otherwise;
        };
        match card.close(self.alloc, seats) {
            Ok(closing) => ample_if(has_the_sums(&closing, self.line)),
            Err((fault, card, seats)) => {
                self.unclosed = Some((card, seats));
                refused_if(fault == CloseFault::NoMemory)
            }
        }
    }
}

/// The verdicts on the five cells.
fn sums() -> Tally {
    Tally {
        passed: 3,
        tagged: 0,
        discarded: 1,
        refused: 1,
    }
}

/// Whether the line of this number counted the card's five cells and the other line none, as the seats did.
fn has_the_sums(closing: &Closing, line: u16) -> bool {
    let counts = match (line, closing.lines.as_slice()) {
        (0, [own, other]) | (1, [other, own]) => (own.counts(), other.counts()),
        _ => return false,
    };
    closing.uneven.is_none() && counts == (sums(), Tally::new())
}

/// The program of `SOURCE`, or none if an allocation fails.
fn by_payload_type(alloc: Global) -> Option<Program> {
    let code = assemble(alloc, SOURCE).ok()?;
    verify(code).ok()
}

/// The connection of every cell in this file.
fn vc() -> Vc {
    Vc { vpi: 1, vci: 100 }
}

/// The first incarnation of that connection.
fn owner() -> Owner {
    Owner {
        vc: vc(),
        incarnation: 1,
    }
}

/// The connection 1/100, with a cell every 10 ticks and a tolerance of 5.
fn asked(program: Id) -> Option<Ask> {
    let mut contracts = ArrayVec::new();
    contracts.push(Contract::Cbr1(Gcra::new(10, 5).ok()?));
    Some(Ask {
        vc: vc(),
        program,
        contracts,
    })
}

/// Whether this equals [`asked`].
fn is_asked(ask: &Ask, program: Id) -> bool {
    match asked(program) {
        Some(wanted) => {
            ask.vc == wanted.vc
                && ask.program == wanted.program
                && ask.contracts.as_slice() == wanted.contracts.as_slice()
        }
        None => false,
    }
}

/// The cells arrive at both ports in turn. Returns the number of the line that judged them, if each got its verdict.
fn police<S: Ledgers, R: Wait>(rt: &R, card: &Card<S>, seats: &mut [PortSeat<S>]) -> Option<u16> {
    let mut number = None;
    for (place, (moment, last, wanted)) in CELLS.into_iter().enumerate() {
        let seat = seats.get_mut(place % 2)?;
        let mut octets = [0; 52];
        octets[1] = 0x10;
        octets[2] = 0x06;
        octets[3] = last;
        match card.arrive(rt, seat, &Cell::from(octets), moment, &NoWait) {
            Answer::Judged { line, verdict, .. } if verdict == wanted => number = Some(line),
            _ => return None,
        }
    }
    number
}

/// Sets up the connection of a card.
#[derive(Drop)]
struct SettingUp<'a, S: Ledgers, R: Wait> {
    rt: &'a R,
    card: &'a Card<S>,
    desk: &'a mut Desk<S>,
    program: Id,
}

impl<S: Ledgers, R: Wait> Call for SettingUp<'_, S, R> {
    fn make(&mut self) -> Attempt {
        let Some(ask) = asked(self.program) else {
            return Attempt::Otherwise;
        };
        match self.desk.setup(self.rt, self.card, ask) {
            Ok(made) => ample_if(made == owner()),
            Err((fault, back)) => refused_if(
                fault == DeskFault::NoMemory && is_asked(&back, self.program),
            ),
        }
    }
}

/// Whether the piece has the connection's five cells in order, and starts before the first.
fn has_the_cells(piece: &Piece) -> bool {
    for (place, (moment, _, verdict)) in CELLS.into_iter().enumerate() {
        match piece.entries().get(place) {
            Some(entry) if entry.moment == moment && entry.verdict == verdict => {}
            _ => return false,
        }
    }
    piece.entries().len() == CELLS.len()
        && piece.owner() == owner()
        && piece.start().counts == Tally::new()
        && piece.end().counts == sums()
}

/// Cuts the connection's journal and then releases the connection. A failed cut changes nothing: the release returns
/// the whole journal.
fn hand_out<S: Ledgers, R: Wait>(rt: &R, card: &Card<S>, desk: &mut Desk<S>) -> Attempt {
    let cut = desk.cut(rt, card, vc());
    let Ok(last) = desk.release(rt, card, vc()) else {
        return Attempt::Otherwise;
    };
    match cut {
        Ok(piece) => ample_if(has_the_cells(&piece) && last.entries().is_empty()),
        Err(DeskFault::NoMemory) => made_again(ample_if(has_the_cells(&last))),
        Err(_) => Attempt::Otherwise,
    }
}

/// Loads a program, sets up the connection, polices its cells, returns the journal and ends the connection. Load and
/// cells don't fail with NoMemory. Also returns the number of the line that judged the cells.
fn serve<S: Ledgers, R: Wait>(
    rt: &R,
    card: &Card<S>,
    desk: &mut Desk<S>,
    seats: &mut [PortSeat<S>],
    program: Program,
) -> Option<(Attempt, u16)> {
    let program = desk.load(rt, card, program).ok()?;
    let set_up = try_out(&mut SettingUp {
        rt,
        card,
        desk,
        program,
    });
    let line = police(rt, card, seats)?;
    Some((set_up.then(hand_out(rt, card, desk)), line))
}

/// The whole life of a card: it is made, serves a connection, and is closed.
fn live<S: Ledgers, R: Wait>(rt: &R, alloc: Global, shape: Shape, blanks: Blanks) -> Attempt
    requires names { blanks ≡ S.names }
    requires for_shape { AreFor shape S.names }
{
    let Ok((card, mut seats, mut desk)) = Card::<S>::new(alloc, shape, blanks) else {
        return Attempt::Refused;
    };
    let Some(program) = by_payload_type(alloc) else {
        return Attempt::Refused;
    };
    let Some((served, line)) = serve(rt, &card, &mut desk, &mut seats, program) else {
        return Attempt::Otherwise;
    };
    let unclosed = Some((card, seats));
    served.then(try_out(&mut ClosingCard {
        alloc,
        line,
        unclosed,
    }))
}

/// `Desk::setup`, `Desk::cut` and `Card::close`.
pub fn try_card<R: Wait>(rt: &R, alloc: Global) -> Attempt {
    let blanks = Blanks::new(2, 2);
    live::<Brand, R>(rt, alloc, shape(), blanks)
}

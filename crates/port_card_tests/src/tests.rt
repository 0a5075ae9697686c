//! Shapes, cells, programs and connections that the tests share.

mod changes;
mod journals;
mod many_lines;
mod overlaps;
mod reloads;
mod sections;
mod shapes;
mod two_ports;

ghost use Rattle.std.specs.Prelude.{◌≡◌};

use arrayvec::ArrayVec;
use bpf_code::{By, Instr, Op, Size, Test};
use bpf_verify::{Program, verify};
use card_core::{Answer, Ask, DeskFault, Shape};
use gen_arena::Id;
use leaky::{Contract, Gcra, Verdict};
use line_record::{Entry, Line, Piece, Tally};
use port_card::{Card, CloseFault, Closing, Desk, Gate, Ledgers, NoWait, PortSeat};
use std::alloc::Global;
use std::fmt::Debug;
use std::process::Abort;
use std::sync::Wait;
use std::sync::atomic::{AtomicU64, Ordering};
use std::test::Fail;
use std::thread;
use upc_cell::{Cell, Side, Vc};

/// The header of a data cell of 1/100 with cell loss priority 0.
const DATA: [u8; 4] = [0x00, 0x10, 0x06, 0x40];

/// The header of a management cell of 1/100.
const MANAGEMENT: [u8; 4] = [0x00, 0x10, 0x06, 0x4a];

/// The header of a data cell of 1/101.
const OTHER: [u8; 4] = [0x00, 0x10, 0x06, 0x50];

/// The maximum number of turns that a thread waits for another.
const TURNS: u64 = 10_000_000;

/// Expects this value of what is named. A comparison in a test costs the prover more than a call.
fn expect<T: Copy + PartialEq + Debug>(rt: &impl Abort, what: &str, found: T, wanted: T) {
    assert_eq!(rt; found, wanted, "{what}");
}

/// A shape for the user network interface.
fn shape(programs: u64, lines: u64, ports: u64, journal: u64) -> Shape
    ensures lines { result.lines ≡ lines }
    ensures ports { result.ports ≡ ports }
{
    Shape {
        programs,
        lines,
        ports,
        journal,
        side: Side::Uni,
    }
}

/// A cell with this header and a payload of zeros.
fn cell(header: [u8; 4]) -> Cell {
    let mut octets = [0u8; 52];
    octets[0] = header[0];
    octets[1] = header[1];
    octets[2] = header[2];
    octets[3] = header[3];
    Cell::from(octets)
}

/// A program that returns this value for every cell.
fn constant(alloc: Global, value: u32) -> Result<Program, Fail> {
    let code = vec![in alloc; Instr::RetK(value)]?;
    Ok(verify(code)?)
}

/// A program that returns 1 for user data and 2 for management cells.
fn classifier(alloc: Global) -> Result<Program, Fail> {
    let mut code = Vec::new(alloc);
    code.push(Instr::LoadAbs {
        size: Size::Octet,
        k: 3,
    })?;
    code.push(Instr::Alu {
        op: Op::And,
        by: By::Imm(14),
    })?;
    code.push(Instr::Branch {
        test: Test::Ge,
        by: By::Imm(8),
        jt: 1,
        jf: 0,
    })?;
    code.push(Instr::RetK(1))?;
    code.push(Instr::RetK(2))?;
    Ok(verify(code)?)
}

/// A connection with path 1 and this channel: a cell every ten ticks, with this tolerance.
fn ask(vci: u16, program: Id, limit: u64) -> Result<Ask, Fail> {
    let mut contracts = ArrayVec::new();
    contracts.push(Contract::Cbr1(Gcra::new(10, limit)?));
    Ok(Ask {
        vc: Vc::new(1, vci)?,
        program,
        contracts,
    })
}

/// Loads a program. Like the calls below, it promises nothing, so the prover carries no contract of the card through a test.
fn load<S: Ledgers, R: Wait>(
    rt: &R,
    desk: &mut Desk<S>,
    card: &Card<S>,
    program: Program,
) -> Result<Id, Fail> {
    match desk.load(rt, card, program) {
        Ok(id) => Ok(id),
        Err(_) => Err(Fail::from("not loaded")),
    }
}

/// Sets up a connection. If an allocation fails, tries once more with the returned values.
fn set_up<S: Ledgers, R: Wait>(
    rt: &R,
    desk: &mut Desk<S>,
    card: &Card<S>,
    ask: Ask,
) -> Result<u64, Fail> {
    let back = match desk.setup(rt, card, ask) {
        Ok(owner) => return Ok(owner.incarnation),
        Err((DeskFault::NoMemory, back)) => back,
        Err(_) => return Err(Fail::from("not set up")),
    };
    match desk.setup(rt, card, back) {
        Ok(owner) => Ok(owner.incarnation),
        Err(_) => Err(Fail::from("not set up")),
    }
}

/// Loads a program that returns 1 for every cell, and sets up a connection with path 1 and this channel.
fn opened<S: Ledgers, R: Wait>(
    rt: &R,
    alloc: Global,
    desk: &mut Desk<S>,
    card: &Card<S>,
    vci: u16,
) -> Result<Id, Fail> {
    let program = load(rt, desk, card, constant(alloc, 1)?)?;
    set_up(rt, desk, card, ask(vci, program, 0)?)?;
    Ok(program)
}

/// A cell with this header arrives.
fn arrive<S: Ledgers, R: Wait>(
    rt: &R,
    card: &Card<S>,
    seat: &mut PortSeat<S>,
    header: [u8; 4],
    moment: u64,
) -> Answer {
    card.arrive(rt, seat, &cell(header), moment, &NoWait)
}

/// The journal of a connection.
fn cut<S: Ledgers, R: Wait>(
    rt: &R,
    desk: &mut Desk<S>,
    card: &Card<S>,
    vc: Vc,
) -> Result<Piece, DeskFault> {
    desk.cut(rt, card, vc)
}

/// Both seats of a card with two ports, that of port 0 first.
fn both<S: Ledgers>(seats: Vec<PortSeat<S>>) -> Result<(PortSeat<S>, PortSeat<S>), Fail> {
    let mut seats = seats;
    let (second, first) = (seats.pop(), seats.pop());
    match (first, second) {
        (Some(first), Some(second)) => Ok((first, second)),
        _ => Err(Fail::from("no seat")),
    }
}

/// The seat of port 0.
fn first_of<S: Ledgers>(seats: Vec<PortSeat<S>>) -> Result<PortSeat<S>, Fail> {
    match seats.into_iter().next() {
        Some(seat) => Ok(seat),
        None => Err(Fail::from("no seat")),
    }
}

/// Closes a card. If an allocation fails, tries once more with the returned values.
fn closed<S: Ledgers>(
    alloc: Global,
    card: Card<S>,
    seats: Vec<PortSeat<S>>,
) -> Result<Closing, Fail> {
    let (card, seats) = match card.close(alloc, seats) {
        Ok(closing) => return Ok(closing),
        Err((CloseFault::NoMemory, card, seats)) => (card, seats),
        Err(_) => return Err(Fail::from("not closed")),
    };
    match card.close(alloc, seats) {
        Ok(closing) => Ok(closing),
        Err(_) => Err(Fail::from("not closed")),
    }
}

/// The verdict and the cell's number on the line, if the cell was judged.
fn judged(answer: Answer) -> Option<(Verdict, u64)> {
    match answer {
        Answer::Judged {
            verdict,
            number,
            ..
        } => Some((verdict, number)),
        _ => None,
    }
}

fn tally(passed: u64, tagged: u64, discarded: u64, refused: u64) -> Tally {
    Tally {
        passed,
        tagged,
        discarded,
        refused,
    }
}

/// A line's journal, of at most two cells, and its counts.
fn kept(line: &Line) -> ([Option<Entry>; 3], Tally) {
    let entries = line.entries();
    let journal = [
        entries.first().copied(),
        entries.get(1).copied(),
        entries.get(2).copied(),
    ];
    (journal, line.counts())
}

/// The number of cells in a returned journal.
fn entries(piece: Result<Piece, DeskFault>) -> Option<usize> {
    match piece {
        Ok(piece) => Some(piece.entries().len()),
        Err(_) => None,
    }
}

/// Whether the flag was set before the turns ran out.
fn turned_until(flag: &AtomicU64) -> bool {
    for _ in 0..TURNS {
        if flag.load(Ordering::SeqCst) != 0 {
            return true;
        }
        thread::yield_now();
    }
    false
}

/// A gate: port 0 reports that its cell was looked up, and waits until it is released. Other ports don't wait.
#[derive(Drop)]
struct Until {
    picked: AtomicU64,
    done: AtomicU64,
    in_time: AtomicU64,
}

impl Until {
    fn new() -> Until {
        Until {
            picked: AtomicU64::new(0),
            done: AtomicU64::new(0),
            in_time: AtomicU64::new(0),
        }
    }

    /// Whether the cell was looked up before the turns ran out.
    fn was_picked(&self) -> bool {
        turned_until(&self.picked)
    }

    /// Releases port 0.
    fn let_go(&self) {
        self.done.store(1, Ordering::SeqCst);
    }

    /// Whether port 0 was released before its turns ran out.
    fn was_in_time(&self) -> bool {
        self.in_time.load(Ordering::SeqCst) == 1
    }
}

impl Gate for Until {
    fn between(&self, port: u8) {
        if port != 0 {
            return;
        }
        self.picked.store(1, Ordering::SeqCst);
        if turned_until(&self.done) {
            self.in_time.store(1, Ordering::SeqCst);
        }
    }
}

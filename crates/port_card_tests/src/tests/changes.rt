//! The desk acts while a cell is between its look-up and its judgement.

ghost use Rattle.std.specs.Prelude.{◌≡◌};
ghost use Rattle.port_card.specs.Names.{AreFor};

use super::*;
use port_card::Blanks;
use std::marker::Brand;
use std::thread::Threads;

/// How often a gate checks whether a retirement has returned.
const LOOKS: u64 = 1_000_000;

/// The port's results for its one cell.
#[derive(Drop)]
struct AtPort {
    answer: Answer,
    /// The seat's tallies of the first line and of the second.
    first: Option<Tally>,
    second: Option<Tally>,
}

/// The desk's results after the cell is answered.
#[derive(Drop)]
struct AtDesk {
    /// The error of the first program's retirement, and of a second try.
    retired: Option<DeskFault>,
    again: Option<DeskFault>,
    /// The number of cells in the connection's journal.
    entries: Option<usize>,
}

/// The results of a test in which the desk acts while a cell is at its gate.
#[derive(Drop)]
struct Seen {
    /// The desk finished before the gate's turns ran out.
    in_time: bool,
    /// The program with which the connection was set up.
    program: Id,
    port: AtPort,
    desk: AtDesk,
}

#[test]
fn a_cell_of_a_connection_that_was_set_up_again_is_released(rt: HostRuntime) -> Result<(), Fail> {
    let shape = shape(2, 2, 2, 16);
    let blanks = Blanks::new(2, 2);
    let seen = changed::<Brand, HostRuntime>(&rt, rt.alloc(), shape, blanks, false)?;
    let tallies = (seen.port.first, seen.port.second);
    let none = Some(Tally::new());
    expect(&rt, "in time", seen.in_time, true);
    expect(&rt, "the answer", seen.port.answer, Answer::Released);
    expect(&rt, "the tallies", tallies, (none, none));
    expect(&rt, "the journal", seen.desk.entries, Some(0));
    Ok(())
}

#[test]
fn a_cell_is_judged_by_the_program_that_was_picked(rt: HostRuntime) -> Result<(), Fail> {
    let shape = shape(2, 2, 2, 16);
    let blanks = Blanks::new(2, 2);
    let seen = changed::<Brand, HostRuntime>(&rt, rt.alloc(), shape, blanks, true)?;
    let wanted = Some((1, seen.program, Verdict::Pass));
    let retired = (seen.desk.retired, seen.desk.again);
    expect(&rt, "in time", seen.in_time, true);
    expect(&rt, "the answer", named(seen.port.answer), wanted);
    expect(&rt, "the journal", seen.desk.entries, Some(1));
    expect(&rt, "retired", retired, (None, Some(DeskFault::NoProgram)));
    Ok(())
}

/// The value of a judged cell, the program that gave it, and the verdict.
fn named(answer: Answer) -> Option<(u32, Id, Verdict)> {
    match answer {
        Answer::Judged {
            value,
            program,
            verdict,
            ..
        } => Some((value, program, verdict)),
        _ => None,
    }
}

/// Loads two programs, and sets up a connection with the first.
fn prepared<S: Ledgers, R: Wait>(
    rt: &R,
    alloc: Global,
    card: &Card<S>,
    desk: &mut Desk<S>,
    reloads: bool,
) -> Result<Errand, Fail> {
    let program = opened(rt, alloc, desk, card, 100)?;
    let other = load(rt, desk, card, constant(alloc, 2)?)?;
    Ok(Errand {
        vc: Vc::new(1, 100)?,
        program,
        other,
        reloads,
    })
}

/// While port 0 is at its gate, the desk reloads the connection with the other program, or releases it and sets it up
/// again. The port waits until that is done.
fn changed<S: Ledgers + Send + Sync, R: Threads + Wait + Sync>(
    rt: &R,
    alloc: Global,
    shape: Shape,
    blanks: Blanks,
    reloads: bool,
) -> Result<Seen, Fail>
    requires names { blanks ≡ S.names }
    requires for_shape { AreFor shape S.names }
{
    let (card, seats, desk) = Card::<S>::new(alloc, shape, blanks)?;
    changed_on(rt, alloc, &card, seats, desk, reloads)
}

/// The same on this card.
fn changed_on<S: Ledgers + Send + Sync, R: Threads + Wait + Sync>(
    rt: &R,
    alloc: Global,
    card: &Card<S>,
    seats: Vec<PortSeat<S>>,
    desk: Desk<S>,
    reloads: bool,
) -> Result<Seen, Fail> {
    let mut desk = desk;
    let errand = prepared(rt, alloc, card, &mut desk, reloads)?;
    Ok(changed_by(rt, card, first_of(seats)?, desk, errand))
}

/// The cell and the errand, each on its own thread.
fn changed_by<S: Ledgers + Send + Sync, R: Threads + Wait + Sync>(
    rt: &R,
    card: &Card<S>,
    seat: PortSeat<S>,
    desk: Desk<S>,
    errand: Errand,
) -> Seen {
    let gate = Until::new();
    let (port, desk) = thread::join(
        rt,
        || arrive_once(rt, card, seat, &gate),
        || change(rt, card, desk, errand, &gate),
    );
    Seen {
        in_time: gate.was_in_time(),
        program: errand.program,
        port,
        desk,
    }
}

/// One cell arrives at a port. Returns the answer and the seat's tallies of both lines.
fn arrive_once<S: Ledgers, G: Gate, R: Wait>(
    rt: &R,
    card: &Card<S>,
    seat: PortSeat<S>,
    gate: &G,
) -> AtPort {
    let mut seat = seat;
    let answer = card.arrive(rt, &mut seat, &cell(DATA), 0, gate);
    AtPort {
        answer,
        first: seat.tally(0),
        second: seat.tally(1),
    }
}

/// Whether the connection was set up again.
fn set_up_again<S: Ledgers, R: Wait>(
    rt: &R,
    card: &Card<S>,
    desk: &mut Desk<S>,
    errand: Errand,
) -> bool {
    let Ok(gcra) = Gcra::new(10, 0) else {
        return false;
    };
    let mut contracts = ArrayVec::new();
    contracts.push(Contract::Cbr1(gcra));
    let again = Ask {
        vc: errand.vc,
        program: errand.program,
        contracts,
    };
    desk.setup(rt, card, again).is_ok()
}

/// What the desk does to a connection of the first program: it reloads it with the other, or releases it and sets it
/// up again.
#[derive(Clone, Copy)]
struct Errand {
    vc: Vc,
    program: Id,
    other: Id,
    reloads: bool,
}

/// Whether that succeeded.
fn done<S: Ledgers, R: Wait>(rt: &R, card: &Card<S>, desk: &mut Desk<S>, errand: Errand) -> bool {
    if errand.reloads {
        desk.reload(rt, card, errand.vc, errand.other).is_ok()
    } else {
        desk.release(rt, card, errand.vc).is_ok() && set_up_again(rt, card, desk, errand)
    }
}

/// After the look-up of the cell, does the errand and releases port 0. Then retires the first program twice (the
/// first call waits for the cell) and cuts the connection's journal.
fn change<S: Ledgers, R: Wait>(
    rt: &R,
    card: &Card<S>,
    desk: Desk<S>,
    errand: Errand,
    gate: &Until,
) -> AtDesk {
    let mut desk = desk;
    gate.was_picked();
    if done(rt, card, &mut desk, errand) {
        gate.let_go();
    }
    AtDesk {
        retired: desk.retire(rt, card, errand.program).err(),
        again: desk.retire(rt, card, errand.program).err(),
        entries: entries(cut(rt, &mut desk, card, errand.vc)),
    }
}

/// A gate: a port reports that its cell was looked up, and checks for a while whether the desk's call has returned.
#[derive(Drop)]
struct Looks {
    picked: AtomicU64,
    answered: AtomicU64,
    early: AtomicU64,
}

impl Looks {
    fn new() -> Looks {
        Looks {
            picked: AtomicU64::new(0),
            answered: AtomicU64::new(0),
            early: AtomicU64::new(0),
        }
    }
}

impl Gate for Looks {
    fn between(&self, _port: u8) {
        self.picked.store(1, Ordering::SeqCst);
        for _ in 0..LOOKS {
            if self.answered.load(Ordering::SeqCst) != 0 {
                self.early.store(1, Ordering::SeqCst);
            }
            thread::yield_now();
        }
    }
}

#[test]
fn a_retirement_waits_for_the_cells_that_were_picked(rt: HostRuntime) -> Result<(), Fail> {
    let shape = shape(2, 1, 2, 16);
    let blanks = Blanks::new(1, 2);
    let (early, answer, retired) = waiting::<Brand, HostRuntime>(&rt, rt.alloc(), shape, blanks)?;
    expect(&rt, "early, and retired", (early, retired), (false, true));
    expect(&rt, "the answer", answer, Some((Verdict::Pass, 1)));
    Ok(())
}

/// While port 0 is at its gate, the desk retires a program that no connection names.
fn waiting<S: Ledgers + Send + Sync, R: Threads + Wait + Sync>(
    rt: &R,
    alloc: Global,
    shape: Shape,
    blanks: Blanks,
) -> Result<(bool, Option<(Verdict, u64)>, bool), Fail>
    requires names { blanks ≡ S.names }
    requires for_shape { AreFor shape S.names }
{
    let (card, seats, desk) = Card::<S>::new(alloc, shape, blanks)?;
    waiting_on(rt, alloc, &card, seats, desk)
}

/// The same on this card.
fn waiting_on<S: Ledgers + Send + Sync, R: Threads + Wait + Sync>(
    rt: &R,
    alloc: Global,
    card: &Card<S>,
    seats: Vec<PortSeat<S>>,
    desk: Desk<S>,
) -> Result<(bool, Option<(Verdict, u64)>, bool), Fail> {
    let mut desk = desk;
    let errand = prepared(rt, alloc, card, &mut desk, false)?;
    Ok(waiting_for(rt, card, first_of(seats)?, desk, errand.other))
}

/// The cell and the retirement, each on its own thread.
fn waiting_for<S: Ledgers + Send + Sync, R: Threads + Wait + Sync>(
    rt: &R,
    card: &Card<S>,
    seat: PortSeat<S>,
    desk: Desk<S>,
    unnamed: Id,
) -> (bool, Option<(Verdict, u64)>, bool) {
    let gate = Looks::new();
    let (port, retired) = thread::join(
        rt,
        || arrive_once(rt, card, seat, &gate),
        || retire_once(rt, card, desk, unnamed, &gate),
    );
    (
        gate.early.load(Ordering::SeqCst) == 1,
        judged(port.answer),
        retired,
    )
}

/// After the look-up of the cell, retires the program that returns 2. Returns whether the program was returned.
fn retire_once<S: Ledgers, R: Wait>(
    rt: &R,
    card: &Card<S>,
    desk: Desk<S>,
    program: Id,
    gate: &Looks,
) -> bool {
    let mut desk = desk;
    turned_until(&gate.picked);
    let retired = desk.retire(rt, card, program);
    gate.answered.store(1, Ordering::SeqCst);
    match retired {
        Ok(program) => program.code() == [Instr::RetK(2)].as_slice(),
        Err(_) => false,
    }
}

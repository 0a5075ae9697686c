//! Connections get other programs, and the earlier ones are retired.

ghost use Rattle.std.specs.Prelude.{◌≡◌};
ghost use Rattle.port_card.specs.Names.{AreFor};

use super::*;
use port_card::Blanks;
use std::marker::Brand;
use std::thread::Threads;

/// How many cells arrive while the desk reloads.
const CELLS: u64 = 50_000;

/// How often the desk reloads at most.
const RELOADS: u64 = 1_000_000;

#[test]
fn a_reload_returns_the_earlier_program_and_keeps_the_journal(rt: HostRuntime) -> Result<(), Fail> {
    let shape = shape(2, 1, 1, 16);
    let blanks = Blanks::new(1, 1);
    let (program, before, kept) = reloaded::<Brand, HostRuntime>(&rt, rt.alloc(), shape, blanks)?;
    expect(&rt, "the program before", before, Ok(program));
    expect(&rt, "the journal", kept, Some(2));
    Ok(())
}

/// A cell, a reload, a cell and a cut. Returns the program of the setup, the answer to the reload, and the number of
/// cells in the journal.
fn reloaded<S: Ledgers, R: Wait>(
    rt: &R,
    alloc: Global,
    shape: Shape,
    blanks: Blanks,
) -> Result<(Id, Result<Id, DeskFault>, Option<usize>), Fail>
    requires names { blanks ≡ S.names }
    requires for_shape { AreFor shape S.names }
{
    let (card, seats, mut desk) = Card::<S>::new(alloc, shape, blanks)?;
    reloaded_on(rt, alloc, &card, seats, &mut desk)
}

/// The same on this card.
fn reloaded_on<S: Ledgers, R: Wait>(
    rt: &R,
    alloc: Global,
    card: &Card<S>,
    seats: Vec<PortSeat<S>>,
    desk: &mut Desk<S>,
) -> Result<(Id, Result<Id, DeskFault>, Option<usize>), Fail> {
    let mut seat = first_of(seats)?;
    reloaded_at(rt, alloc, card, &mut seat, desk)
}

/// The same at this seat.
fn reloaded_at<S: Ledgers, R: Wait>(
    rt: &R,
    alloc: Global,
    card: &Card<S>,
    seat: &mut PortSeat<S>,
    desk: &mut Desk<S>,
) -> Result<(Id, Result<Id, DeskFault>, Option<usize>), Fail> {
    let vc = Vc::new(1, 100)?;
    let program = opened(rt, alloc, desk, card, 100)?;
    let other = load(rt, desk, card, constant(alloc, 1)?)?;
    arrive(rt, card, seat, DATA, 0);
    let before = reload(rt, desk, card, vc, other);
    arrive(rt, card, seat, DATA, 10);
    Ok((program, before, entries(cut(rt, desk, card, vc))))
}

/// Gives a connection another program.
fn reload<S: Ledgers, R: Wait>(
    rt: &R,
    desk: &mut Desk<S>,
    card: &Card<S>,
    vc: Vc,
    program: Id,
) -> Result<Id, DeskFault> {
    desk.reload(rt, card, vc, program)
}

#[test]
fn no_cell_is_stale_while_the_desk_reloads_and_retires(rt: HostRuntime) -> Result<(), Fail> {
    let shape = shape(2, 1, 2, 16);
    let blanks = Blanks::new(1, 2);
    let stale = chased::<Brand, HostRuntime>(&rt, rt.alloc(), shape, blanks)?;
    expect(&rt, "stale", stale, false);
    Ok(())
}

/// Whether an answer was Stale, while the desk gave the cells' connection another program and retired the earlier one,
/// as often as it could.
fn chased<S: Ledgers + Send + Sync, R: Threads + Wait + Sync>(
    rt: &R,
    alloc: Global,
    shape: Shape,
    blanks: Blanks,
) -> Result<bool, Fail>
    requires names { blanks ≡ S.names }
    requires for_shape { AreFor shape S.names }
{
    let (card, seats, desk) = Card::<S>::new(alloc, shape, blanks)?;
    chased_on(rt, alloc, &card, seats, desk)
}

/// The same on this card.
fn chased_on<S: Ledgers + Send + Sync, R: Threads + Wait + Sync>(
    rt: &R,
    alloc: Global,
    card: &Card<S>,
    seats: Vec<PortSeat<S>>,
    desk: Desk<S>,
) -> Result<bool, Fail> {
    let mut desk = desk;
    let vc = Vc::new(1, 100)?;
    opened(rt, alloc, &mut desk, card, 100)?;
    let seat = first_of(seats)?;
    chased_at(rt, card, seat, desk, vc, constant(alloc, 1)?)
}

/// The same at this seat, with a program to begin with.
fn chased_at<S: Ledgers + Send + Sync, R: Threads + Wait + Sync>(
    rt: &R,
    card: &Card<S>,
    seat: PortSeat<S>,
    desk: Desk<S>,
    vc: Vc,
    spare: Program,
) -> Result<bool, Fail> {
    let ended = AtomicU64::new(0);
    let (stale, reloads) = thread::join(
        rt,
        || {
            let stale = is_any_stale(rt, card, seat);
            ended.store(1, Ordering::SeqCst);
            stale
        },
        || reload_until(rt, card, desk, vc, spare, &ended),
    );
    reloads?;
    Ok(stale)
}

/// Whether one of many cells at this port is Stale.
fn is_any_stale<S: Ledgers, R: Wait>(rt: &R, card: &Card<S>, seat: PortSeat<S>) -> bool {
    let mut seat = seat;
    let mut is_stale = false;
    for moment in 0..CELLS {
        if arrive(rt, card, &mut seat, DATA, moment) == Answer::Stale {
            is_stale = true;
        }
    }
    is_stale
}

/// Reloads the connection and retires its earlier program, again and again, until the flag is set.
fn reload_until<S: Ledgers, R: Wait>(
    rt: &R,
    card: &Card<S>,
    desk: Desk<S>,
    vc: Vc,
    spare: Program,
    ended: &AtomicU64,
) -> Result<(), Fail> {
    let mut desk = desk;
    let mut spare = spare;
    for _ in 0..RELOADS {
        if ended.load(Ordering::SeqCst) != 0 {
            return Ok(());
        }
        spare = replaced(rt, card, &mut desk, vc, spare)?;
    }
    Ok(())
}

/// Gives the connection this program, and returns the earlier one, which is retired.
fn replaced<S: Ledgers, R: Wait>(
    rt: &R,
    card: &Card<S>,
    desk: &mut Desk<S>,
    vc: Vc,
    program: Program,
) -> Result<Program, Fail> {
    let id = load(rt, desk, card, program)?;
    let Ok(before) = reload(rt, desk, card, vc, id) else {
        return Err(Fail::from("not reloaded"));
    };
    match desk.retire(rt, card, before) {
        Ok(program) => Ok(program),
        Err(_) => Err(Fail::from("not retired")),
    }
}

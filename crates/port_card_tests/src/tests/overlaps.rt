//! Two ports work at the same time.

ghost use Rattle.std.specs.Prelude.{◌≡◌};
ghost use Rattle.port_card.specs.Names.{AreFor};

use super::*;
use port_card::Blanks;
use std::marker::Brand;
use std::thread::Threads;

#[test]
fn a_port_judges_while_another_is_at_its_gate(rt: HostRuntime) -> Result<(), Fail> {
    let shape = shape(2, 2, 2, 16);
    let blanks = Blanks::new(2, 2);
    let seen = overlapping::<Brand, HostRuntime>(&rt, rt.alloc(), shape, blanks)?;
    let (in_time, first, second) = seen;
    let passed = Some((Verdict::Pass, 1));
    expect(&rt, "in time", in_time, true);
    expect(&rt, "the answers", (first, second), (passed, passed));
    Ok(())
}

/// Port 0 waits at its gate until port 1 has its answer.
fn overlapping<S: Ledgers + Send + Sync, R: Threads + Wait + Sync>(
    rt: &R,
    alloc: Global,
    shape: Shape,
    blanks: Blanks,
) -> Result<(bool, Option<(Verdict, u64)>, Option<(Verdict, u64)>), Fail>
    requires names { blanks ≡ S.names }
    requires for_shape { AreFor shape S.names }
{
    let (card, seats, mut desk) = Card::<S>::new(alloc, shape, blanks)?;
    overlapping_on(rt, alloc, &card, seats, &mut desk)
}

/// The same on this card.
fn overlapping_on<S: Ledgers + Send + Sync, R: Threads + Wait + Sync>(
    rt: &R,
    alloc: Global,
    card: &Card<S>,
    seats: Vec<PortSeat<S>>,
    desk: &mut Desk<S>,
) -> Result<(bool, Option<(Verdict, u64)>, Option<(Verdict, u64)>), Fail> {
    let program = opened(rt, alloc, desk, card, 100)?;
    set_up(rt, desk, card, ask(101, program, 0)?)?;
    let (first, second) = both(seats)?;
    Ok(overlapping_at(rt, card, first, second))
}

/// The same at these seats.
fn overlapping_at<S: Ledgers + Send + Sync, R: Threads + Wait + Sync>(
    rt: &R,
    card: &Card<S>,
    first: PortSeat<S>,
    second: PortSeat<S>,
) -> (bool, Option<(Verdict, u64)>, Option<(Verdict, u64)>) {
    let gate = Until::new();
    let (one, other) = thread::join(
        rt,
        || {
            let mut seat = first;
            card.arrive(rt, &mut seat, &cell(DATA), 0, &gate)
        },
        || {
            let mut seat = second;
            gate.was_picked();
            let answer = arrive(rt, card, &mut seat, OTHER, 0);
            gate.let_go();
            answer
        },
    );
    (gate.was_in_time(), judged(one), judged(other))
}

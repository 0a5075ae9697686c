//! An example for callers: a card with two ports, whose cells arrive at the same time.

ghost use Rattle.std.specs.Prelude.{◌≡◌};
ghost use Rattle.port_card.specs.Names.{AreFor};

use super::*;
use port_card::Blanks;
use std::marker::Brand;
use std::thread::Threads;

/// A cell arrives at the port of this seat. Returns the seat and the answer.
fn arrived<S: Ledgers, R: Wait>(
    rt: &R,
    card: &Card<S>,
    seat: PortSeat<S>,
    cell: Cell,
) -> (PortSeat<S>, Answer) {
    let mut seat = seat;
    let answer = card.arrive(rt, &mut seat, &cell, 0, &NoWait);
    (seat, answer)
}

/// One cell arrives at each port, each on its own thread. Returns both seats and both answers.
fn arrive_at_both<S: Ledgers + Send + Sync, R: Threads + Wait + Sync>(
    rt: &R,
    card: &Card<S>,
    first: PortSeat<S>,
    second: PortSeat<S>,
) -> (PortSeat<S>, PortSeat<S>, [Answer; 2]) {
    let ((first, one), (second, other)) = thread::join(
        rt,
        || arrived(rt, card, first, cell(DATA)),
        || arrived(rt, card, second, cell(OTHER)),
    );
    (first, second, [one, other])
}

/// A card with a program and two connections, a cell on each of them, and the close.
fn policed_at_both<S: Ledgers + Send + Sync, R: Threads + Wait + Sync>(
    rt: &R,
    alloc: Global,
    shape: Shape,
    blanks: Blanks,
) -> Result<([Answer; 2], Closing), Fail>
    requires names { blanks ≡ S.names }
    requires for_shape { AreFor shape S.names }
{
    let (card, seats, mut desk) = Card::<S>::new(alloc, shape, blanks)?;
    let program = load(rt, &mut desk, &card, constant(alloc, 1)?)?;
    set_up(rt, &mut desk, &card, ask(100, program, 0)?)?;
    set_up(rt, &mut desk, &card, ask(101, program, 0)?)?;
    let (first, second) = both(seats)?;
    let (first, second, answers) = arrive_at_both(rt, &card, first, second);
    let seats = vec![in alloc; first, second]?;
    Ok((answers, closed(alloc, card, seats)?))
}

#[test]
fn two_ports_police_at_the_same_time(rt: HostRuntime) -> Result<(), Fail> {
    let shape = shape(1, 2, 2, 16);
    let blanks = Blanks::new(2, 2);
    let policed = policed_at_both::<Brand, HostRuntime>(&rt, rt.alloc(), shape, blanks)?;
    let ([one, other], closing) = policed;
    let passed = Some((Verdict::Pass, 1));
    let answers = (judged(one), judged(other));
    expect(&rt, "the answers", answers, (passed, passed));
    expect(&rt, "the total", closing.total(), tally(2, 0, 0, 0));
    expect(&rt, "an uneven line", closing.uneven, None);
    Ok(())
}

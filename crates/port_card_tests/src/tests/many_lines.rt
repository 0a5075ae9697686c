//! A card of more than 64 lines. Each of its journals takes as many cells as the shape says, and no more.

ghost use Rattle.std.specs.Prelude.{◌≡◌};
ghost use Rattle.port_card.specs.Names.{AreFor};

use super::*;
use port_card::Blanks;
use std::marker::Brand;

/// The number of lines.
const LINES: u8 = 66;

/// The entries of a journal.
const ENTRIES: u64 = 1025;

#[test]
fn the_journal_of_each_line_has_the_size_of_the_shape(rt: HostRuntime) -> Result<(), Fail> {
    let shape = shape(1, 66, 1, ENTRIES);
    let blanks = Blanks::new(66, 1);
    let total = all_filled::<Brand, HostRuntime>(&rt, rt.alloc(), shape, blanks)?;
    expect(&rt, "the total", total, tally(67650, 0, 0, 0));
    Ok(())
}

/// One cell more than fits into the journal arrives on the connection with path 1 and channel 16 times `high`. Each is on
/// time.
fn fill<S: Ledgers, R: Wait>(rt: &R, card: &Card<S>, seat: &mut PortSeat<S>, high: u8) {
    for number in 0..ENTRIES + 1 {
        arrive(rt, card, seat, [0x00, 0x10, high, 0x00], number * 10);
    }
}

/// The same on each connection.
fn fill_all<S: Ledgers, R: Wait>(rt: &R, card: &Card<S>, seat: &mut PortSeat<S>) {
    for high in 0..LINES {
        fill(rt, card, seat, high);
    }
}

/// Sets up a connection for each line under one program.
fn open_all<S: Ledgers, R: Wait>(
    rt: &R,
    alloc: Global,
    desk: &mut Desk<S>,
    card: &Card<S>,
) -> Result<(), Fail> {
    let program = load(rt, desk, card, constant(alloc, 1)?)?;
    for high in 0..LINES {
        set_up(rt, desk, card, ask(u16::from(high) * 16, program, 0)?)?;
    }
    Ok(())
}

/// Fills the journals of a connection on each line. Returns the number of judged cells.
fn all_filled<S: Ledgers, R: Wait>(
    rt: &R,
    alloc: Global,
    shape: Shape,
    blanks: Blanks,
) -> Result<Tally, Fail>
    requires names { blanks ≡ S.names }
    requires for_shape { AreFor shape S.names }
{
    let (card, mut seats, mut desk) = Card::<S>::new(alloc, shape, blanks)?;
    open_all(rt, alloc, &mut desk, &card)?;
    for seat in &mut seats {
        fill_all(rt, &card, seat);
    }
    Ok(closed(alloc, card, seats)?.total())
}

//! The parts of a card, and the errors of making one.

ghost use Rattle.std.specs.Prelude.{◌≡◌};
ghost use Rattle.port_card.specs.Names.{AreFor};

use super::*;
use card_core::CardFault;
use port_card::Blanks;
use std::marker::Brand;

/// The error for a card of this shape, or none if the card is made.
fn refused<S: Ledgers>(alloc: Global, shape: Shape, blanks: Blanks) -> Option<CardFault>
    requires names { blanks ≡ S.names }
    requires for_shape { AreFor shape S.names }
{
    match Card::<S>::new(alloc, shape, blanks) {
        Ok(_) => None,
        Err(fault) => Some(fault),
    }
}

/// The same, with ledgers for this shape.
fn fault_of(alloc: Global, shape: Shape) -> Option<CardFault> {
    let blanks = Blanks::new(shape.lines, shape.ports);
    refused::<Brand>(alloc, shape, blanks)
}

#[test]
fn a_card_is_refused_for_the_first_number_out_of_its_limits(rt: HostRuntime) {
    for (programs, lines, ports, journal, fault) in [
        (0, 0, 0, 0, Some(CardFault::Programs)),
        (1025, 1, 1, 1, Some(CardFault::Programs)),
        (1, 4097, 17, 0, Some(CardFault::Lines)),
        (1, 1, 17, 0, Some(CardFault::Ports)),
        (1, 1, 1, 65537, Some(CardFault::Journal)),
        (1024, 4096, 16, 65536, None),
    ] {
        let found = fault_of(rt.alloc(), shape(programs, lines, ports, journal));
        expect(
            &rt,
            "a card",
            (programs, lines, found),
            (programs, lines, fault),
        );
    }
}

/// The port numbers of a card's seats, and the first seat's tallies of three lines.
fn seated<S: Ledgers>(
    alloc: Global,
    shape: Shape,
    blanks: Blanks,
) -> Result<([u8; 2], [Option<Tally>; 3]), Fail>
    requires names { blanks ≡ S.names }
    requires for_shape { AreFor shape S.names }
{
    let (_, seats, _) = Card::<S>::new(alloc, shape, blanks)?;
    match seats.as_slice() {
        [first, second] => Ok((
            [first.port(), second.port()],
            [first.tally(0), first.tally(1), first.tally(2)],
        )),
        _ => Err(Fail::from("not two seats")),
    }
}

#[test]
fn there_is_a_seat_for_each_port_with_a_tally_of_each_line(rt: HostRuntime) -> Result<(), Fail> {
    let shape = shape(1, 2, 2, 2);
    let blanks = Blanks::new(2, 2);
    let (ports, tallies) = seated::<Brand>(rt.alloc(), shape, blanks)?;
    let none = Some(Tally::new());
    expect(&rt, "the ports", ports, [0, 1]);
    expect(&rt, "the tallies", tallies, [none, none, None]);
    Ok(())
}

#[test]
fn why_a_card_is_not_closed_is_printed_by_number_and_name(rt: HostRuntime) -> Result<(), Fail> {
    for (fault, wanted) in [
        (CloseFault::Missing, "1 Missing"),
        (CloseFault::NoMemory, "2 NoMemory"),
    ] {
        let text = format!(in rt.alloc(); "{fault}")?;
        expect(&rt, "printed", text.as_str(), wanted);
    }
    Ok(())
}

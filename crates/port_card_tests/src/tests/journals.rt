//! Journals, tallies and closes, on one thread. The tests pass whichever allocation fails: a call that fails changes
//! nothing and is made once more.

ghost use Rattle.std.specs.Prelude.{◌≡◌};
ghost use Rattle.port_card.specs.Names.{AreFor};

use super::*;
use port_card::Blanks;
use std::marker::Brand;

/// The answer to a cell, by name.
fn answered(answer: Answer) -> &'static str {
    match answer {
        Answer::Judged { verdict, .. } => match verdict {
            Verdict::Pass => "pass",
            Verdict::Tag => "tag",
            Verdict::Discard => "discard",
            Verdict::Refuse => "refuse",
        },
        Answer::NoConnection => "no connection",
        Answer::Released => "released",
        Answer::Stale => "stale",
        Answer::MomentBack { .. } => "moment back",
        Answer::MomentTooLate => "moment too late",
        Answer::JournalFull => "journal full",
        Answer::NoMemory => "no memory",
    }
}

/// The results for the cells of one connection, on a card with two ports and two lines.
#[derive(Drop)]
struct Outcome {
    cells: AtPorts,
    /// The counts of the connection's line, and of the other line.
    counts: [Option<Tally>; 2],
    /// The number of lines after the close, and the uneven one.
    lines: usize,
    uneven: Option<u16>,
}

/// The results before the close.
#[derive(Drop)]
struct AtPorts {
    /// The number of the connection's line.
    line: u16,
    /// The verdict on each cell, and its number among the line's cells with this verdict.
    answers: [Option<(Verdict, u64)>; 5],
    /// The number of cells in the journal that the release returned.
    entries: Option<usize>,
    /// Both seats' tallies of the connection's line.
    own: [Option<Tally>; 2],
    /// The same for the other line.
    other: [Option<Tally>; 2],
}

#[test]
fn lines_count_what_seats_do(rt: HostRuntime) -> Result<(), Fail> {
    let shape = shape(2, 2, 2, 16);
    let blanks = Blanks::new(2, 2);
    let seen = policed::<Brand, HostRuntime>(&rt, rt.alloc(), shape, blanks)?;
    let answers = [
        Some((Verdict::Pass, 1)),
        Some((Verdict::Pass, 2)),
        Some((Verdict::Discard, 1)),
        Some((Verdict::Pass, 3)),
        Some((Verdict::Refuse, 1)),
    ];
    expect(&rt, "the answers", seen.cells.answers, answers);
    expect_counts(&rt, &seen);
    Ok(())
}

/// Expects the journal of these cells, and that lines and seats counted them.
fn expect_counts(rt: &impl Abort, seen: &Outcome) {
    let sizes = (seen.cells.entries, seen.lines, seen.uneven);
    expect(rt, "the journal and the lines", sizes, (Some(5), 2, None));
    let own = [Some(tally(1, 0, 1, 1)), Some(tally(2, 0, 0, 0))];
    expect(rt, "at the seats", seen.cells.own, own);
    let none = Some(Tally::new());
    expect(rt, "of the other line", seen.cells.other, [none, none]);
    let counts = [Some(tally(3, 0, 1, 1)), none];
    expect(rt, "on the lines", seen.counts, counts);
}

/// The counts of the line of this number, if it exists.
fn counts_of(closing: &Closing, number: u16) -> Option<Tally> {
    let line = closing.lines.get(usize::from(number))?;
    Some(line.counts())
}

/// Five cells that arrive at both ports in turn, a release, and a close.
fn policed<S: Ledgers, R: Wait>(
    rt: &R,
    alloc: Global,
    shape: Shape,
    blanks: Blanks,
) -> Result<Outcome, Fail>
    requires names { blanks ≡ S.names }
    requires for_shape { AreFor shape S.names }
{
    let (card, mut seats, mut desk) = Card::<S>::new(alloc, shape, blanks)?;
    let cells = policed_on(rt, alloc, &card, &mut seats, &mut desk)?;
    let closing = closed(alloc, card, seats)?;
    Ok(with_counts(cells, &closing))
}

/// The results, with what a closed card has.
fn with_counts(cells: AtPorts, closing: &Closing) -> Outcome {
    let other = other_line(cells.line);
    Outcome {
        counts: [counts_of(closing, cells.line), counts_of(closing, other)],
        lines: closing.lines.len(),
        uneven: closing.uneven,
        cells,
    }
}

fn other_line(line: u16) -> u16 {
    if line == 0 { 1 } else { 0 }
}

/// The cells and the release on this card.
fn policed_on<S: Ledgers, R: Wait>(
    rt: &R,
    alloc: Global,
    card: &Card<S>,
    seats: &mut [PortSeat<S>],
    desk: &mut Desk<S>,
) -> Result<AtPorts, Fail> {
    let program = load(rt, desk, card, classifier(alloc)?)?;
    let incarnation = set_up(rt, desk, card, ask(100, program, 5)?)?;
    let [first, second] = seats else {
        return Err(Fail::from("not two seats"));
    };
    if incarnation != 1 {
        return Err(Fail::from("another incarnation"));
    }
    let (line, answers) = answers_at(rt, card, first, second)?;
    let other = other_line(line);
    Ok(AtPorts {
        line,
        answers,
        entries: entries(release(rt, desk, card, Vc::new(1, 100)?)),
        own: [first.tally(line), second.tally(line)],
        other: [first.tally(other), second.tally(other)],
    })
}

/// The line and the answers to the cells.
fn answers_at<S: Ledgers, R: Wait>(
    rt: &R,
    card: &Card<S>,
    first: &mut PortSeat<S>,
    second: &mut PortSeat<S>,
) -> Result<(u16, [Option<(Verdict, u64)>; 5]), Fail> {
    let begun = arrive(rt, card, first, DATA, 0);
    let answers = [
        judged(begun),
        judged(arrive(rt, card, second, DATA, 6)),
        judged(arrive(rt, card, first, DATA, 14)),
        judged(arrive(rt, card, second, DATA, 15)),
        judged(arrive(rt, card, first, MANAGEMENT, 15)),
    ];
    Ok((line_of(begun)?, answers))
}

/// The line of a judged cell.
fn line_of(answer: Answer) -> Result<u16, Fail> {
    match answer {
        Answer::Judged { line, .. } => Ok(line),
        _ => Err(Fail::from("not judged")),
    }
}

/// The last journal of a connection.
fn release<S: Ledgers, R: Wait>(
    rt: &R,
    desk: &mut Desk<S>,
    card: &Card<S>,
    vc: Vc,
) -> Result<Piece, DeskFault> {
    desk.release(rt, card, vc)
}

#[test]
fn a_full_journal_is_cut(rt: HostRuntime) -> Result<(), Fail> {
    let shape = shape(1, 1, 1, 2);
    let blanks = Blanks::new(1, 1);
    let (answers, entries, tally_then) = filled::<Brand, HostRuntime>(
        &rt,
        rt.alloc(),
        shape,
        blanks,
    )?;
    let wanted = ["pass", "discard", "journal full", "discard", "pass"];
    expect(&rt, "the answers", answers, wanted);
    expect(&rt, "the journal", entries, Some(2));
    expect(&rt, "the tally", tally_then, Some(tally(1, 0, 1, 0)));
    Ok(())
}

/// Three cells into a journal of two, a cut, and two more cells; and the tally after the first three.
fn filled<S: Ledgers, R: Wait>(
    rt: &R,
    alloc: Global,
    shape: Shape,
    blanks: Blanks,
) -> Result<([&'static str; 5], Option<usize>, Option<Tally>), Fail>
    requires names { blanks ≡ S.names }
    requires for_shape { AreFor shape S.names }
{
    let (card, seats, mut desk) = Card::<S>::new(alloc, shape, blanks)?;
    filled_on(rt, alloc, &card, seats, &mut desk)
}

/// The same on this card.
fn filled_on<S: Ledgers, R: Wait>(
    rt: &R,
    alloc: Global,
    card: &Card<S>,
    seats: Vec<PortSeat<S>>,
    desk: &mut Desk<S>,
) -> Result<([&'static str; 5], Option<usize>, Option<Tally>), Fail> {
    let vc = Vc::new(1, 100)?;
    opened(rt, alloc, desk, card, 100)?;
    let mut seat = first_of(seats)?;
    Ok(filled_at(rt, card, &mut seat, desk, vc))
}

/// The same at this seat.
fn filled_at<S: Ledgers, R: Wait>(
    rt: &R,
    card: &Card<S>,
    seat: &mut PortSeat<S>,
    desk: &mut Desk<S>,
    vc: Vc,
) -> ([&'static str; 5], Option<usize>, Option<Tally>) {
    let first = answered(arrive(rt, card, seat, DATA, 0));
    let second = answered(arrive(rt, card, seat, DATA, 5));
    let third = answered(arrive(rt, card, seat, DATA, 10));
    let counted = seat.tally(0);
    let kept = cut_again(rt, desk, card, vc);
    let fourth = answered(arrive(rt, card, seat, DATA, 9));
    let fifth = answered(arrive(rt, card, seat, DATA, 10));
    ([first, second, third, fourth, fifth], kept, counted)
}

/// The number of cells in a connection's journal. If an allocation fails, tries once more.
fn cut_again<S: Ledgers, R: Wait>(
    rt: &R,
    desk: &mut Desk<S>,
    card: &Card<S>,
    vc: Vc,
) -> Option<usize> {
    match cut(rt, desk, card, vc) {
        Err(DeskFault::NoMemory) => entries(cut(rt, desk, card, vc)),
        other => entries(other),
    }
}

/// A journal entry of cell loss priority 0 and value 1.
fn entry(moment: u64, program: Id, verdict: Verdict) -> Entry {
    Entry {
        moment,
        program,
        value: 1,
        clp: false,
        verdict,
    }
}

#[test]
fn a_card_is_closed_with_all_its_seats(rt: HostRuntime) -> Result<(), Fail> {
    let shape = shape(1, 3, 2, 2);
    let blanks = Blanks::new(3, 2);
    let (program, own, closing) = missed::<Brand, HostRuntime>(&rt, rt.alloc(), shape, blanks)?;
    let sizes = (closing.lines.len(), closing.uneven);
    expect(&rt, "the lines", sizes, (3, None));
    expect_kept(&rt, &closing.lines, usize::from(own), program);
    Ok(())
}

/// Expects that the line of this number has judged two cells, and no other line one.
fn expect_kept(rt: &impl Abort, lines: &[Line], own: usize, program: Id) {
    let passed = entry(0, program, Verdict::Pass);
    let discarded = entry(5, program, Verdict::Discard);
    let judged = ([Some(passed), Some(discarded), None], tally(1, 0, 1, 0));
    for (number, line) in lines.iter().enumerate() {
        let wanted = if number == own {
            judged
        } else {
            ([None; 3], Tally::new())
        };
        expect(rt, "a line", (number, kept(line)), (number, wanted));
    }
}

/// A cell at each port, a close with one seat of two, and a close with both. Returns the program, the number of the
/// line that judged the first cell, and the closed card.
fn missed<S: Ledgers, R: Wait>(
    rt: &R,
    alloc: Global,
    shape: Shape,
    blanks: Blanks,
) -> Result<(Id, u16, Closing), Fail>
    requires names { blanks ≡ S.names }
    requires for_shape { AreFor shape S.names }
{
    let (card, mut seats, mut desk) = Card::<S>::new(alloc, shape, blanks)?;
    let (program, line) = judged_at_both(rt, alloc, &card, &mut seats, &mut desk)?;
    Ok((program, line, closed_at_last(alloc, card, seats, line)?))
}

/// A cell at each port. Returns the program and the line.
fn judged_at_both<S: Ledgers, R: Wait>(
    rt: &R,
    alloc: Global,
    card: &Card<S>,
    seats: &mut [PortSeat<S>],
    desk: &mut Desk<S>,
) -> Result<(Id, u16), Fail> {
    let program = opened(rt, alloc, desk, card, 100)?;
    let [first, second] = seats else {
        return Err(Fail::from("not two seats"));
    };
    let answer = arrive(rt, card, first, DATA, 0);
    arrive(rt, card, second, DATA, 5);
    Ok((program, line_of(answer)?))
}

/// Closes a card with one seat of two, and then with both.
fn closed_at_last<S: Ledgers>(
    alloc: Global,
    card: Card<S>,
    seats: Vec<PortSeat<S>>,
    line: u16,
) -> Result<Closing, Fail> {
    let mut seats = seats;
    let Some(second) = seats.pop() else {
        return Err(Fail::from("no seat"));
    };
    let (card, seats) = refused(alloc, card, seats)?;
    closed_with(alloc, card, seats, second, line)
}

/// The parts of a card that is closed without one of its seats.
fn refused<S: Ledgers>(
    alloc: Global,
    card: Card<S>,
    seats: Vec<PortSeat<S>>,
) -> Result<(Card<S>, Vec<PortSeat<S>>), Fail> {
    match card.close(alloc, seats) {
        Err((CloseFault::Missing, card, seats)) => Ok((card, seats)),
        _ => Err(Fail::from("a seat isn't missed")),
    }
}

/// Closes a card with the seat that was there, which counted one cell on this line, and with the missed one.
fn closed_with<S: Ledgers>(
    alloc: Global,
    card: Card<S>,
    seats: Vec<PortSeat<S>>,
    missed: PortSeat<S>,
    line: u16,
) -> Result<Closing, Fail> {
    let is_kept = has_one_cell(&seats, line);
    let mut seats = seats;
    seats.push(missed)?;
    let closing = closed(alloc, card, seats)?;
    if is_kept {
        Ok(closing)
    } else {
        Err(Fail::from("a seat is gone"))
    }
}

/// Whether there is one seat, which counted one cell on this line.
fn has_one_cell<S: Ledgers>(seats: &[PortSeat<S>], line: u16) -> bool {
    match seats {
        [seat] => seat.tally(line) == Some(tally(1, 0, 0, 0)),
        _ => false,
    }
}

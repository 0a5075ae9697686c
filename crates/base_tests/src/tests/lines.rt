//! Connections that are policed, cut and released.

ghost use Rattle.std.specs.Prelude.{◌≡◌, ◌≤◌, None, Some, IfOk, OnOk};
ghost use Rattle.line_record.specs.Line.{IsHeld};

use super::expecting::{expect, expect_printed, program};
use arrayvec::ArrayVec;
use leaky::{Contract, Gcra, LAST_MOMENT, Verdict};
use line_record::*;
use std::alloc::Global;
use std::process::Abort;
use std::test::Fail;
use upc_cell::Vc;

/// Opens a line for 1/100 with one contract: a cell every ten ticks, without tolerance.
fn open_for(line: &mut Line, owner: Owner) -> Result<(), Fail>
    requires { line.old.owner ≡ None }
    ensures { OnOk result (line.new.owner ≡ Some owner) }
{
    let mut contracts = ArrayVec::new();
    contracts.push(Contract::Cbr1(Gcra::new(10, 0)?));
    match line.open(owner, contracts) {
        Ok(()) => Ok(()),
        Err((fault, _)) => Err(Fail::from(fault)),
    }
}

/// The connection 1/100, in this incarnation.
fn owner(incarnation: u64) -> Result<Owner, Fail> {
    let vc = Vc::new(1, 100)?;
    Ok(Owner { vc, incarnation })
}

/// A line that is open for 1/100.
fn policed_line(alloc: Global, journal: u32) -> Result<Line, Fail>
    requires some { 1 ≤ journal }
    requires most { journal ≤ 65536 }
    ensures { IfOk result (λ line. IsHeld line) }
{
    let mut line = Line::new(alloc, journal)?;
    open_for(&mut line, owner(1)?)?;
    Ok(line)
}

/// The verdict on a cell of cell loss priority 0.
fn verdict(line: &mut Line, moment: u64, value: u32) -> Result<Verdict, LineFault>
    requires { IsHeld line.old }
    ensures { line.new.owner ≡ line.old.owner }
{
    let entry = line.judge(moment, false, value, program(0))?;
    Ok(entry.verdict)
}

/// Expects these results for cells of cell loss priority 0, by moment and value.
fn expect_verdicts(
    rt: &impl Abort,
    line: &mut Line,
    cells: &[(u64, u32, Result<Verdict, LineFault>)],
)
    requires { IsHeld line.old }
    ensures { IsHeld line.new }
{
    for (moment, value, wanted) in cells {
        let found = verdict(line, *moment, *value);
        expect(rt, "a verdict", (*moment, found), (*moment, *wanted));
    }
}

fn is_shared<T: Send + Sync>() {}

/// The same cells in several pieces, also in the wrong order.
#[test]
fn a_cut_keeps_the_buckets_and_pieces_chain(rt: HostRuntime) -> Result<(), Fail> {
    let mut line = policed_line(rt.alloc(), 2)?;
    expect_two_pieces(&rt, &mut line)
}

/// Expects that the cells on a new line with a journal of two are cut in two pieces.
fn expect_two_pieces(rt: &impl Abort, line: &mut Line) -> Result<(), Fail>
    requires { IsHeld line.old }
{
    expect_verdicts(
        rt,
        line,
        &[
            (0, 1, Ok(Verdict::Pass)),
            (5, 1, Ok(Verdict::Discard)),
            (4, 1, Err(LineFault::Back(5))),
            (10, 1, Err(LineFault::Full)),
            (LAST_MOMENT + 1, 1, Err(LineFault::TooLate)),
        ],
    );
    let first = line.cut()?;
    expect(rt, "what is left", line.entries().len(), 0);
    let second = second_piece(rt, line);
    expect_chain(rt, [first, second]);
    Ok(())
}

/// Two more cells, and the piece that is left at the end.
fn second_piece(rt: &impl Abort, line: &mut Line) -> Piece
    requires { IsHeld line.old }
{
    expect_verdicts(
        rt,
        line,
        &[(9, 1, Ok(Verdict::Discard)), (10, 1, Ok(Verdict::Pass))],
    );
    let counts = Tally {
        passed: 2,
        tagged: 0,
        discarded: 2,
        refused: 0,
    };
    expect(rt, "the counts", line.counts(), counts);
    let second = line.close();
    expect(rt, "free", line.is_free(), true);
    expect(rt, "the counts then", line.counts(), counts);
    second
}

/// Expects that these pieces chain, and not the other way round.
fn expect_chain(rt: &impl Abort, pieces: [Piece; 2]) {
    let mut pieces = pieces;
    expect_meeting(rt, &pieces[0], &pieces[1]);
    expect(rt, "in order", chain(&pieces), Ok(()));
    pieces.swap(0, 1);
    expect(rt, "in another order", chain(&pieces), Err(1));
    expect(rt, "no piece", chain(&[]), Ok(()));
}

/// Expects that two pieces of two cells each meet at 5.
fn expect_meeting(rt: &impl Abort, first: &Piece, second: &Piece) {
    let lengths = (first.entries().len(), second.entries().len());
    expect(rt, "the cells", lengths, (2, 2));
    let (before, after) = (first.end(), second.start());
    expect(rt, "the last moment", before.last, 5);
    expect(rt, "the same state", before == after, true);
}

/// A value that names no contract leaves the buckets unchanged, but later cells must not be earlier.
#[test]
fn a_refused_cell_charges_no_bucket(rt: HostRuntime) -> Result<(), Fail> {
    let mut line = policed_line(rt.alloc(), 3)?;
    expect_refused(&rt, &mut line);
    Ok(())
}

/// Expects it of a new line with a journal of three.
fn expect_refused(rt: &impl Abort, line: &mut Line)
    requires { IsHeld line.old }
{
    expect_verdicts(
        rt,
        line,
        &[
            (3, 0, Ok(Verdict::Refuse)),
            (7, 2, Ok(Verdict::Refuse)),
            (6, 1, Err(LineFault::Back(7))),
        ],
    );
    expect(rt, "the last moment", line.last(), 7);
    expect_verdicts(rt, line, &[(7, 1, Ok(Verdict::Pass))]);
    let refused = line.counts().of(Verdict::Refuse);
    expect(rt, "the refused cells", refused, 2);
    expect_verdicts(rt, line, &[(17, 1, Err(LineFault::Full))]);
}

#[test]
fn a_line_serves_one_connection_after_another(rt: HostRuntime) -> Result<(), Fail> {
    let mut line = Line::new(rt.alloc(), 4)?;
    expect_each_served(&rt, &mut line)
}

/// Expects that a free line is prepared and serves two connections.
fn expect_each_served(rt: &impl Abort, line: &mut Line) -> Result<(), Fail>
    requires { line.old.owner ≡ None }
{
    let found = (line.is_free(), line.is_ready(), line.owner());
    expect(rt, "a new line", found, (true, false, None));
    line.prepare()?;
    expect(rt, "a prepared line", line.is_ready(), true);
    for incarnation in 1..3 {
        assert!(rt; line.is_free());
        expect_served(rt, line, incarnation)?;
    }
    Ok(())
}

/// Expects that a free line serves 1/100 for one cell.
fn expect_served(rt: &impl Abort, line: &mut Line, incarnation: u64) -> Result<(), Fail>
    requires { line.old.owner ≡ None }
{
    let owner = owner(incarnation)?;
    open_for(line, owner)?;
    let found = (line.is_ready(), line.owner());
    expect(rt, "an open line", found, (false, Some(owner)));
    expect_verdicts(rt, line, &[(0, 1, Ok(Verdict::Pass))]);
    expect(rt, "the cells", line.counts().cells(), incarnation);
    expect_piece(rt, &line.close(), owner);
    Ok(())
}

/// Expects a piece of this connection under one contract, whose last cell was at 0.
fn expect_piece(rt: &impl Abort, piece: &Piece, owner: Owner) {
    expect(rt, "its connection", piece.owner(), owner);
    expect(rt, "its contracts", piece.contracts().len(), 1);
    expect(rt, "its last moment", piece.end().last, 0);
}

#[test]
fn lines_and_directories_cross_threads() {
    is_shared::<Line>();
    is_shared::<Piece>();
    is_shared::<Directory>();
}

#[test]
fn faults_are_printed_by_number_and_name(rt: HostRuntime) -> Result<(), Fail> {
    expect_printed(
        &rt,
        rt.alloc(),
        &[
            (LineFault::TooLate, "1 TooLate"),
            (LineFault::Back(5), "2 Back 5"),
            (LineFault::Full, "3 Full"),
            (LineFault::NoMemory, "4 NoMemory"),
        ],
    )?;
    expect_printed(
        &rt,
        rt.alloc(),
        &[
            (DirFault::NoLines, "1 NoLines"),
            (DirFault::BadFirst, "2 BadFirst"),
            (DirFault::NoMemory, "3 NoMemory"),
        ],
    )
}

/// The largest journal is filled, returned by a cut, and returned again at the end.
#[test]
fn the_largest_journal_is_filled_cut_and_closed(rt: HostRuntime) -> Result<(), Fail> {
    let mut line = policed_line(rt.alloc(), MOST_ENTRIES)?;
    expect_largest(&rt, &mut line)
}

/// Expects it of a new line with the largest journal.
fn expect_largest(rt: &impl Abort, line: &mut Line) -> Result<(), Fail>
    requires { IsHeld line.old }
{
    fill(line)?;
    expect_verdicts(rt, line, &[(LAST_MOMENT, 1, Err(LineFault::Full))]);
    let first = line.cut()?;
    expect_verdicts(rt, line, &[(LAST_MOMENT, 1, Ok(Verdict::Pass))]);
    expect_both(rt, [first, line.close()]);
    Ok(())
}

/// As many cells as the largest journal has entries, a tick apart.
fn fill(line: &mut Line) -> Result<(), LineFault>
    requires { IsHeld line.old }
    ensures { IsHeld line.new }
{
    for moment in 0..u64::from(MOST_ENTRIES) {
        verdict(line, moment, 1)?;
    }
    Ok(())
}

/// Expects a piece of all these cells, and one of one cell that continues it.
fn expect_both(rt: &impl Abort, pieces: [Piece; 2]) {
    let [first, second] = &pieces;
    let lengths = (first.entries().len(), second.entries().len());
    expect(rt, "the cells", lengths, (65536, 1));
    let is_next = first.end().is_same(second.start());
    let is_still = first.end().is_same(second.end());
    expect(rt, "the states", (is_next, is_still), (true, false));
}

#[test]
fn tallies_are_added(rt: HostRuntime) {
    let one = Tally {
        passed: 1,
        tagged: 2,
        discarded: 3,
        refused: 4,
    };
    let other = Tally {
        passed: 10,
        tagged: 20,
        discarded: 30,
        refused: 40,
    };
    let both = Tally {
        passed: 11,
        tagged: 22,
        discarded: 33,
        refused: 44,
    };
    expect(&rt, "two", one.plus(other), both);
    let three = Tally::total(&[one, other, Tally::new()]);
    expect(&rt, "three", three, both);
    expect(&rt, "none", Tally::total(&[]), Tally::new());
}

/// A policer of one connection.
#[test]
fn a_connection_is_policed(rt: HostRuntime) -> Result<(), Fail> {
    let vc = Vc::new(1, 100)?;
    let mut contracts = ArrayVec::new();
    contracts.push(Contract::Cbr1(Gcra::new(10, 5)?));
    let mut line = Line::new(rt.alloc(), 16)?;
    if let Err((fault, _)) = line.open(Owner { vc, incarnation: 1 }, contracts) {
        return Err(Fail::from(fault));
    }
    for moment in [0, 6, 14, 15] {
        line.judge(moment, false, 1, program(0))?;
    }
    assert_eq!(rt; line.counts().of(Verdict::Pass), 3);
    let piece = line.close();
    assert_eq!(rt;
        piece.entries().get(2).map(|entry| entry.verdict),
        Some(Verdict::Discard)
    );
    Ok(())
}

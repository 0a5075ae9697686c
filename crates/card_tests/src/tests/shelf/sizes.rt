//! Shelves, programs, rooms and batches that are larger than those of the other tests.

use super::beside::decides_all;
use super::rooms::are_decided_so;
use super::{HEADERS, cell_with, expect, id_of, set_up_all, set_up_all_on_card, shape, take};
use bpf_code::Instr;
use bpf_verify::{Program, verify};
use card_core::{Core, Shape, Step};
use card_shelf::{Arrival, Decision, Room, Shelf};
use std::alloc::Global;
use std::process::Abort;
use std::test::Fail;
use std::thread::Threads;

/// A size.
#[derive(Clone, Copy)]
struct Size {
    cards: usize,
    /// The number of lines of each card.
    lines: u64,
    /// The number of instructions of the program.
    instructions: u32,
    /// The number of arrivals of the batch.
    many: u32,
}

const SIZES: [Size; 2] = [
    Size {
        cards: 4,
        lines: 128,
        instructions: 65,
        many: 1_001,
    },
    Size {
        cards: 9,
        lines: 5,
        instructions: 1,
        many: 100_001,
    },
];

/// A shape with this number of lines, and journals for all cells of a connection.
fn large_shape(lines: u64) -> Shape {
    Shape {
        lines,
        journal: 32_768,
        ..shape()
    }
}

/// A program of this number of instructions, which gives 1 for every cell.
fn long_program(alloc: Global, instructions: u32) -> Result<Program, Fail> {
    let mut code = Vec::new(alloc);
    for _ in 1..instructions {
        code.push(Instr::LoadImm(7))?;
    }
    code.push(Instr::RetK(1))?;
    Ok(verify(code)?)
}

/// Arrivals at all connections in turn, each three ticks after the one before.
fn many_arrivals(alloc: Global, many: u32) -> Result<Vec<Arrival>, Fail> {
    let mut all = Vec::new(alloc);
    for number in 0..many {
        let header = HEADERS.get(number as usize % 5).unwrap_or(&HEADERS[0]);
        all.push(Arrival {
            cell: cell_with(header),
            moment: u64::from(number) * 3,
        })?;
    }
    Ok(all)
}

/// A shelf with all connections under one program.
fn large_shelf(alloc: Global, size: Size) -> Result<Shelf, Fail> {
    let mut shelf = Shelf::new(alloc, large_shape(size.lines), size.cards)?;
    open_under(alloc, &mut shelf, size.instructions)?;
    Ok(shelf)
}

/// Sets up all connections under a program of this number of instructions.
fn open_under(alloc: Global, shelf: &mut Shelf, instructions: u32) -> Result<(), Fail> {
    let program = long_program(alloc, instructions)?;
    let Ok(ids) = shelf.load(alloc, program) else {
        return Err(Fail::from("not loaded"));
    };
    set_up_all(shelf, &ids)
}

/// One card with all connections under one program.
fn large_card(alloc: Global, size: Size) -> Result<Core, Fail> {
    let mut core = Core::new(alloc, large_shape(size.lines))?;
    open_on_card(alloc, &mut core, size.instructions)?;
    Ok(core)
}

/// Sets up all connections under a program of this number of instructions.
fn open_on_card(alloc: Global, core: &mut Core, instructions: u32) -> Result<(), Fail> {
    let program = long_program(alloc, instructions)?;
    let id = id_of(take(core, Step::Load(program)))?;
    set_up_all_on_card(core, id)
}

#[test]
fn large_batches_are_decided_as_by_one_card(rt: HostRuntime) -> Result<(), Fail> {
    for size in SIZES {
        let all = many_arrivals(rt.alloc(), size.many)?;
        expect_as_one_card(&rt, rt.alloc(), size, &all)?;
    }
    Ok(())
}

/// Expects it of a shelf of this size and these arrivals.
fn expect_as_one_card<R: Threads + Sync + Abort>(
    rt: &R,
    alloc: Global,
    size: Size,
    all: &[Arrival],
) -> Result<(), Fail> {
    let mut room = Room::new(alloc, size.cards, all.len())?;
    expect_passed(rt, alloc, size, &mut room, all)?;
    expect_as_twin(rt, alloc, size, all, room.decisions())?;
    expect_right(rt, alloc, size, all, room.decisions())
}

/// Expects that the shelf polices all arrivals in this room, and that all pass.
fn expect_passed<R: Threads + Sync + Abort>(
    rt: &R,
    alloc: Global,
    size: Size,
    room: &mut Room,
    all: &[Arrival],
) -> Result<(), Fail> {
    let mut ours = large_shelf(alloc, size)?;
    let done = ours.police_in(rt, room, all, 4);
    expect(rt, "done", (size.cards, done), (size.cards, Ok(())));
    let totals = ours.totals();
    let found = (totals.passed > 0, totals.discarded, totals.refused);
    expect(rt, "the totals", found, (true, 0, 0));
    Ok(())
}

/// Expects that another shelf of this size decides so without a room.
fn expect_as_twin<R: Threads + Sync + Abort>(
    rt: &R,
    alloc: Global,
    size: Size,
    all: &[Arrival],
    decisions: &[Decision],
) -> Result<(), Fail> {
    let mut twin = large_shelf(alloc, size)?;
    let same = are_decided_so(rt, alloc, &mut twin, all, decisions)?;
    expect(rt, "the same", (size.cards, same), (size.cards, true));
    Ok(())
}

/// Expects that one card decides so.
fn expect_right(
    rt: &impl Abort,
    alloc: Global,
    size: Size,
    all: &[Arrival],
    decisions: &[Decision],
) -> Result<(), Fail> {
    let mut theirs = large_card(alloc, size)?;
    let right = decides_all(&mut theirs, all, decisions);
    expect(rt, "right", (size.cards, right), (size.cards, true));
    Ok(())
}

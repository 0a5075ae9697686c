//! A shelf beside one card, and what the other tests share.

mod at_once;
mod beside;
mod desk;
mod rooms;
mod sizes;

use super::{ask, cell_with, constant};
use bpf_verify::Program;
use card_core::{Ask, Core, Reply, Shape, Step, Unjudged};
use card_shelf::{Arrival, Decision, Shelf};
use gen_arena::Id;
use leaky::Verdict;
use std::alloc::Global;
use std::fmt::Debug;
use std::process::Abort;
use std::test::Fail;
use std::thread::Threads;
use upc_cell::{Side, Vc};

/// The headers of 1/100, 1/101, 1/102, 2/100 and 2/101.
const HEADERS: [[u8; 4]; 5] = [
    [0x00, 0x10, 0x06, 0x40],
    [0x00, 0x10, 0x06, 0x50],
    [0x00, 0x10, 0x06, 0x60],
    [0x00, 0x20, 0x06, 0x40],
    [0x00, 0x20, 0x06, 0x50],
];

/// The header of 3/7, which is never set up.
const UNKNOWN: [u8; 4] = [0x00, 0x30, 0x00, 0x70];

/// Expects this value of what is named. A comparison in a test costs the prover more than a call.
fn expect<T: Copy + PartialEq + Debug>(rt: &impl Abort, what: &str, found: T, wanted: T) {
    assert_eq!(rt; found, wanted, "{what}");
}

fn shape() -> Shape {
    Shape {
        programs: 2,
        lines: 5,
        ports: 1,
        journal: 16,
        side: Side::Uni,
    }
}

fn id_of(reply: Reply) -> Result<Id, Fail> {
    match reply {
        Reply::Loaded(id) => Ok(id),
        _ => Err(Fail::from("not loaded")),
    }
}

/// Puts a program into a card of the shelf.
fn load(shelf: &mut Shelf, number: usize, program: Program) -> Result<Id, Fail> {
    match shelf.load_on(number, program) {
        Ok(reply) => id_of(reply),
        Err(_) => Err(Fail::from("no such card")),
    }
}

/// Puts a program that gives this value into every card, and returns its ids.
fn load_all(alloc: Global, shelf: &mut Shelf, value: u32) -> Result<Vec<Id>, Fail> {
    let mut ids = Vec::new(alloc);
    for number in 0..shelf.cards() {
        ids.push(load(shelf, number, constant(alloc, value)?)?)?;
    }
    Ok(ids)
}

/// The id of a program, which every card has, on the card of this connection.
fn id_for(shelf: &Shelf, ids: &[Id], vc: Vc) -> Result<Id, Fail> {
    match ids.get(shelf.card_of(vc)) {
        Some(id) => Ok(*id),
        None => Err(Fail::from("no such card")),
    }
}

/// Sets up a connection on the shelf.
fn set_up(shelf: &mut Shelf, asked: Ask) -> Result<(), Fail> {
    match shelf.setup(asked) {
        Reply::SetUp(_) => Ok(()),
        _ => Err(Fail::from("not set up")),
    }
}

/// Sets up the connections of all headers, each with a program of its own card.
fn set_up_all(shelf: &mut Shelf, ids: &[Id]) -> Result<(), Fail> {
    for header in &HEADERS {
        let vc = cell_with(header).vc();
        let program = id_for(shelf, ids, vc)?;
        set_up(shelf, ask(vc, program)?)?;
    }
    Ok(())
}

/// The same with new programs, whose ids are returned.
fn open_all(alloc: Global, shelf: &mut Shelf) -> Result<Vec<Id>, Fail> {
    let ids = load_all(alloc, shelf, 1)?;
    set_up_all(shelf, &ids)?;
    Ok(ids)
}

/// A shelf with all these connections.
fn open_shelf(alloc: Global, cards: usize) -> Result<Shelf, Fail> {
    let mut shelf = Shelf::new(alloc, shape(), cards)?;
    open_all(alloc, &mut shelf)?;
    Ok(shelf)
}

/// Takes one step. It promises nothing, so the prover carries no contract of a step through a test.
fn take(core: &mut Core, step: Step) -> Reply {
    core.step(step)
}

/// Puts a program that gives this value into a card.
fn load_on_card(alloc: Global, core: &mut Core, value: u32) -> Result<Id, Fail> {
    id_of(take(core, Step::Load(constant(alloc, value)?)))
}

/// Sets up a connection on a card.
fn set_up_on_card(core: &mut Core, asked: Ask) -> Result<(), Fail> {
    match take(core, Step::Setup(asked)) {
        Reply::SetUp(_) => Ok(()),
        _ => Err(Fail::from("not set up")),
    }
}

/// Sets up the connections of all headers under one program.
fn set_up_all_on_card(core: &mut Core, program: Id) -> Result<(), Fail> {
    for header in &HEADERS {
        set_up_on_card(core, ask(cell_with(header).vc(), program)?)?;
    }
    Ok(())
}

/// The same with new programs, which give 1 and 2, and whose ids are returned. The connections have the first.
fn open_on_card(alloc: Global, core: &mut Core) -> Result<(Id, Id), Fail> {
    let one = load_on_card(alloc, core, 1)?;
    let two = load_on_card(alloc, core, 2)?;
    set_up_all_on_card(core, one)?;
    Ok((one, two))
}

/// One card with all these connections.
fn one_card(alloc: Global) -> Result<Core, Fail> {
    let mut core = Core::new(alloc, shape())?;
    open_on_card(alloc, &mut core)?;
    Ok(core)
}

/// Cells of every connection and of none, among them some too early and some that go back.
fn arrivals(alloc: Global) -> Result<Vec<Arrival>, Fail> {
    let mut all = Vec::new(alloc);
    for start in [0u64, 5, 30, 20, 40] {
        for (place, header) in HEADERS.iter().enumerate() {
            let moment = start.wrapping_add(place as u64);
            all.push(Arrival {
                cell: cell_with(header),
                moment,
            })?;
        }
        all.push(Arrival {
            cell: cell_with(&UNKNOWN),
            moment: start,
        })?;
    }
    Ok(all)
}

/// The part of an answer that does not depend on which card has the connection.
fn seen(decision: &Decision) -> Result<(Verdict, u64, u64, u32), Unjudged> {
    match decision {
        Ok(judgement) => Ok((
            judgement.verdict,
            judgement.number,
            judgement.moment,
            judgement.value,
        )),
        Err(reason) => Err(*reason),
    }
}

/// The connection of the header at this place.
fn vc_at(place: u8) -> Vc {
    cell_with(HEADERS.get(usize::from(place)).unwrap_or(&UNKNOWN)).vc()
}

/// What is seen of a reply: how many entries a piece has that was handed out, or that the desk has done something else.
fn outcome(reply: &Reply) -> Option<usize> {
    match reply {
        Reply::Cut(piece) | Reply::Released(piece) => Some(piece.entries().len()),
        Reply::SetUp(_) | Reply::Reloaded(_) => Some(usize::MAX),
        _ => None,
    }
}

#[test]
fn a_shelf_decides_what_one_card_decides(rt: HostRuntime) -> Result<(), Fail> {
    let all = arrivals(rt.alloc())?;
    for cards in [1, 2, 3, 16] {
        expect_as_one_card(&rt, rt.alloc(), cards, &all)?;
    }
    Ok(())
}

/// Expects it of a new shelf of this many cards and these arrivals.
fn expect_as_one_card<R: Threads + Sync + Abort>(
    rt: &R,
    alloc: Global,
    cards: usize,
    all: &[Arrival],
) -> Result<(), Fail> {
    let mut shelf = open_shelf(alloc, cards)?;
    expect_as_new_card(rt, alloc, &mut shelf, all)
}

/// Expects that this shelf decides what a new card decides.
fn expect_as_new_card<R: Threads + Sync + Abort>(
    rt: &R,
    alloc: Global,
    shelf: &mut Shelf,
    all: &[Arrival],
) -> Result<(), Fail> {
    let mut alone = one_card(alloc)?;
    expect_as_card(rt, alloc, shelf, &mut alone, all)
}

/// Expects that this shelf decides what this card decides.
fn expect_as_card<R: Threads + Sync + Abort>(
    rt: &R,
    alloc: Global,
    shelf: &mut Shelf,
    alone: &mut Core,
    all: &[Arrival],
) -> Result<(), Fail> {
    let decisions = shelf.police(rt, alloc, all, 4)?;
    let found = (all.len(), are_seen_alike(alone, all, &decisions));
    expect(rt, "the same", found, (decisions.len(), true));
    Ok(())
}

/// Whether the same is seen of the decisions about these arrivals and of those of a card.
fn are_seen_alike(alone: &mut Core, all: &[Arrival], decisions: &[Decision]) -> bool {
    let mut same = true;
    for (arrival, ours) in all.iter().zip(decisions) {
        same = is_seen_alike(alone, arrival, ours) && same;
    }
    same
}

/// Whether the same is seen of this decision about an arrival and of that of a card.
fn is_seen_alike(alone: &mut Core, arrival: &Arrival, ours: &Decision) -> bool {
    match alone.arrive(0, &arrival.cell, arrival.moment) {
        Some(theirs) => seen(&theirs) == seen(ours),
        None => false,
    }
}

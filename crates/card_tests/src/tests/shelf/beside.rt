//! Random batches with calls of the desk between, on a shelf and on one card.

use super::{
    HEADERS, UNKNOWN, ask, cell_with, expect, id_for, load_all, open_all, open_on_card, outcome,
    shape, take, vc_at,
};
use card_core::{Core, Reply, Step, Unjudged};
use card_shelf::{Arrival, Decision, Shelf};
use gen_arena::Id;
use leaky::Verdict;
use std::alloc::Global;
use std::process::Abort;
use std::test::Fail;
use std::thread::Threads;
use upc_cell::Vc;

/// A shelf with all connections, and the ids of its programs, which give 1 and 2.
#[derive(Drop)]
pub struct Ours {
    pub shelf: Shelf,
    ones: Vec<Id>,
    twos: Vec<Id>,
}

/// One card with all connections, and the ids of its programs, which give 1 and 2.
#[derive(Drop)]
pub struct Theirs {
    pub core: Core,
    one: Id,
    two: Id,
}

pub fn our_shelf(alloc: Global, cards: usize) -> Result<Ours, Fail> {
    let mut shelf = Shelf::new(alloc, shape(), cards)?;
    let (ones, twos) = open_with_both(alloc, &mut shelf)?;
    Ok(Ours { shelf, ones, twos })
}

/// Sets up all connections, and returns the ids of both programs.
fn open_with_both(alloc: Global, shelf: &mut Shelf) -> Result<(Vec<Id>, Vec<Id>), Fail> {
    let ones = open_all(alloc, shelf)?;
    let twos = load_all(alloc, shelf, 2)?;
    Ok((ones, twos))
}

pub fn their_card(alloc: Global) -> Result<Theirs, Fail> {
    let mut core = Core::new(alloc, shape())?;
    let (one, two) = open_on_card(alloc, &mut core)?;
    Ok(Theirs { core, one, two })
}

/// The next of a row of numbers without a pattern that arrivals would notice.
fn next_number(state: u32) -> u32 {
    state.wrapping_mul(1664525).wrapping_add(1013904223)
}

/// The arrival of this number: at a random connection or, seldom, at none, at this moment or up to two ticks earlier.
fn random_arrival(number: u32, moment: u64) -> Arrival {
    let header = HEADERS.get((number >> 16) as usize % 6).unwrap_or(&UNKNOWN);
    Arrival {
        cell: cell_with(header),
        moment: moment.saturating_sub(u64::from(number >> 24) % 3),
    }
}

/// Arrivals whose moments mostly go on and sometimes go back.
pub fn random_arrivals(alloc: Global, batch: u32) -> Result<Vec<Arrival>, Fail> {
    let mut all = Vec::new(alloc);
    let mut state = batch.wrapping_mul(77);
    let mut moment = u64::from(batch).wrapping_mul(80);
    for _ in 0..24u32 {
        state = next_number(state);
        moment = moment.wrapping_add(u64::from(state >> 20) % 7);
        all.push(random_arrival(state, moment))?;
    }
    Ok(all)
}

/// The part of a decision that is the same on one card with all the connections.
fn alike(decision: &Decision) -> Result<(Verdict, u64, u32), Unjudged> {
    match decision {
        Ok(judgement) => Ok((judgement.verdict, judgement.moment, judgement.value)),
        Err(reason) => Err(*reason),
    }
}

/// Whether the card decides so about an arrival.
fn decides(core: &mut Core, arrival: &Arrival, decision: &Decision) -> bool {
    match core.arrive(0, &arrival.cell, arrival.moment) {
        Some(theirs) => alike(&theirs) == alike(decision),
        None => false,
    }
}

/// Whether the card decides so about these arrivals, and there are no more decisions.
pub fn decides_all(core: &mut Core, arrivals: &[Arrival], decisions: &[Decision]) -> bool {
    let mut all = arrivals.len() == decisions.len();
    for (arrival, one) in arrivals.iter().zip(decisions) {
        all = decides(core, arrival, one) && all;
    }
    all
}

/// A call of the desk.
#[derive(Clone, Copy)]
enum Call {
    Setup,
    ReloadTwo,
    Cut,
    Release,
}

/// What follows each batch: a call, and the place of its connection among the headers.
const CALLS: [(Call, u8); 6] = [
    (Call::ReloadTwo, 2),
    (Call::Cut, 2),
    (Call::Release, 2),
    (Call::Setup, 2),
    (Call::Cut, 0),
    (Call::Release, 4),
];

/// The shelf takes a call.
fn our_reply(ours: &mut Ours, call: Call, vc: Vc) -> Result<Reply, Fail> {
    let one = id_for(&ours.shelf, &ours.ones, vc)?;
    let two = id_for(&ours.shelf, &ours.twos, vc)?;
    Ok(match call {
        Call::Setup => ours.shelf.setup(ask(vc, one)?),
        Call::ReloadTwo => ours.shelf.reload(vc, two),
        Call::Cut => ours.shelf.cut(vc),
        Call::Release => ours.shelf.release(vc),
    })
}

/// The card takes a call.
fn their_reply(theirs: &mut Theirs, call: Call, vc: Vc) -> Result<Reply, Fail> {
    let step = match call {
        Call::Setup => Step::Setup(ask(vc, theirs.one)?),
        Call::ReloadTwo => Step::Reload {
            vc,
            program: theirs.two,
        },
        Call::Cut => Step::Cut(vc),
        Call::Release => Step::Release(vc),
    };
    Ok(take(&mut theirs.core, step))
}

/// Whether both reply alike to a call, which neither refuses.
fn reply_alike(ours: &mut Ours, theirs: &mut Theirs, call: Call, place: u8) -> Result<bool, Fail> {
    let vc = vc_at(place);
    let mine = outcome(&our_reply(ours, call, vc)?);
    Ok(mine.is_some() && mine == outcome(&their_reply(theirs, call, vc)?))
}

#[test]
fn batches_with_desk_calls_between_are_decided_as_by_one_card(rt: HostRuntime) -> Result<(), Fail> {
    for cards in [1, 2, 3, 16] {
        expect_alike(&rt, rt.alloc(), cards)?;
    }
    Ok(())
}

/// Expects that a shelf of this many cards decides as one card.
fn expect_alike<R: Threads + Sync + Abort>(
    rt: &R,
    alloc: Global,
    cards: usize,
) -> Result<(), Fail> {
    let mut ours = our_shelf(alloc, cards)?;
    expect_alike_by(rt, alloc, &mut ours)
}

/// The same of this shelf.
fn expect_alike_by<R: Threads + Sync + Abort>(
    rt: &R,
    alloc: Global,
    ours: &mut Ours,
) -> Result<(), Fail> {
    let mut theirs = their_card(alloc)?;
    expect_alike_after_all(rt, alloc, ours, &mut theirs)
}

/// Expects that both decide alike after each call.
fn expect_alike_after_all<R: Threads + Sync + Abort>(
    rt: &R,
    alloc: Global,
    ours: &mut Ours,
    theirs: &mut Theirs,
) -> Result<(), Fail> {
    let mut batch = 0u32;
    for (call, place) in CALLS {
        let all = random_arrivals(alloc, batch)?;
        let same = are_decided_alike(rt, alloc, ours, theirs, &all)?;
        let replies = reply_alike(ours, theirs, call, place)?;
        let sums = ours.shelf.totals() == theirs.core.totals();
        let found = (ours.shelf.cards(), batch, same, replies, sums);
        expect(rt, "a batch", found, (found.0, batch, true, true, true));
        batch = batch.wrapping_add(1);
    }
    let totals = theirs.core.totals();
    let some = (totals.passed > 0, totals.discarded > 0, totals.refused > 0);
    expect(rt, "cells of each verdict", some, (true, true, true));
    Ok(())
}

/// Whether the shelf and the card decide alike about these arrivals.
fn are_decided_alike<R: Threads + Sync>(
    rt: &R,
    alloc: Global,
    ours: &mut Ours,
    theirs: &mut Theirs,
    all: &[Arrival],
) -> Result<bool, Fail> {
    let decisions = ours.shelf.police(rt, alloc, all, 4)?;
    Ok(decides_all(&mut theirs.core, all, &decisions))
}

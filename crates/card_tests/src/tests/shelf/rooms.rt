//! Rooms for batches, of one size after another, and too small ones.

use super::beside::{decides_all, our_shelf, random_arrivals, their_card};
use super::expect;
use card_core::Core;
use card_shelf::{Arrival, Decision, NoRoom, Room, Shelf};
use std::alloc::Global;
use std::process::Abort;
use std::test::Fail;
use std::thread::Threads;

#[test]
fn a_room_takes_batch_after_batch(rt: HostRuntime) -> Result<(), Fail> {
    let mut room = Room::new(rt.alloc(), 16, 24)?;
    expect_room(&rt, rt.alloc(), &mut room)
}

/// Expects that an empty room for 16 cards and 24 arrivals serves shelves of several sizes.
fn expect_room<R: Threads + Sync + Abort>(
    rt: &R,
    alloc: Global,
    room: &mut Room,
) -> Result<(), Fail> {
    let found = (room.cards(), room.most(), room.decisions().is_empty());
    expect(rt, "an empty room", found, (16, 24, true));
    for cards in [1, 3, 16] {
        let mut ours = our_shelf(alloc, cards)?;
        expect_room_for(rt, alloc, room, &mut ours.shelf, cards)?;
    }
    Ok(())
}

/// Expects that this shelf polices in the room as another one of the same size without it.
fn expect_room_for<R: Threads + Sync + Abort>(
    rt: &R,
    alloc: Global,
    room: &mut Room,
    shelf: &mut Shelf,
    cards: usize,
) -> Result<(), Fail> {
    let mut twin = our_shelf(alloc, cards)?;
    expect_as_twin(rt, alloc, room, shelf, &mut twin.shelf)
}

/// Expects that both shelves decide as one card.
fn expect_as_twin<R: Threads + Sync + Abort>(
    rt: &R,
    alloc: Global,
    room: &mut Room,
    shelf: &mut Shelf,
    twin: &mut Shelf,
) -> Result<(), Fail> {
    let mut theirs = their_card(alloc)?;
    expect_each_size(rt, alloc, room, shelf, twin, &mut theirs.core)
}

/// The same for batches of several sizes.
fn expect_each_size<R: Threads + Sync + Abort>(
    rt: &R,
    alloc: Global,
    room: &mut Room,
    shelf: &mut Shelf,
    twin: &mut Shelf,
    core: &mut Core,
) -> Result<(), Fail> {
    let mut batch = 0u32;
    for size in [0usize, 1, 24, 5] {
        let mut all = random_arrivals(alloc, batch)?;
        all.truncate(size);
        let done = shelf.police_in(rt, room, &all, 4);
        let same = are_decided_so(rt, alloc, twin, &all, room.decisions())?;
        let right = decides_all(core, &all, room.decisions());
        let found = (twin.cards(), all.len(), done, same, right);
        expect(rt, "a batch", found, (found.0, size, Ok(()), true, true));
        batch = batch.wrapping_add(1);
    }
    Ok(())
}

/// Whether a shelf decides so about these arrivals.
pub fn are_decided_so<R: Threads + Sync>(
    rt: &R,
    alloc: Global,
    shelf: &mut Shelf,
    all: &[Arrival],
    wanted: &[Decision],
) -> Result<bool, Fail> {
    let decisions = shelf.police(rt, alloc, all, 4)?;
    Ok(decisions.len() == all.len() && decisions.as_slice() == wanted)
}

#[test]
fn a_room_that_is_too_small_changes_nothing(rt: HostRuntime) -> Result<(), Fail> {
    let all = random_arrivals(rt.alloc(), 0)?;
    let mut few = random_arrivals(rt.alloc(), 0)?;
    few.truncate(1);
    expect_no_room(&rt, rt.alloc(), &few, &all)
}

/// Expects it of one arrival and of all 24.
fn expect_no_room<R: Threads + Sync + Abort>(
    rt: &R,
    alloc: Global,
    few: &[Arrival],
    all: &[Arrival],
) -> Result<(), Fail> {
    let mut ours = our_shelf(alloc, 3)?;
    expect_too_short(rt, alloc, &mut ours.shelf, few, all)?;
    expect_too_narrow(rt, alloc, &mut ours.shelf, few)
}

/// Expects that a room for 23 arrivals takes the few, and that the shelf is as before when it doesn't take all.
fn expect_too_short<R: Threads + Sync + Abort>(
    rt: &R,
    alloc: Global,
    shelf: &mut Shelf,
    few: &[Arrival],
    all: &[Arrival],
) -> Result<(), Fail> {
    let mut short = Room::new(alloc, 3, 23)?;
    let fits = shelf.police_in(rt, &mut short, few, 2);
    let before = shelf.totals();
    let long = shelf.police_in(rt, &mut short, all, 2);
    let same = shelf.totals() == before;
    expect(rt, "a fit", fits, Ok(()));
    expect(rt, "too many", (long, same), (Err(NoRoom::Arrivals), true));
    expect(rt, "the decisions", short.decisions().len(), 1);
    Ok(())
}

/// The same of a room for two cards.
fn expect_too_narrow<R: Threads + Sync + Abort>(
    rt: &R,
    alloc: Global,
    shelf: &mut Shelf,
    few: &[Arrival],
) -> Result<(), Fail> {
    let mut narrow = Room::new(alloc, 2, 24)?;
    let before = shelf.totals();
    let wide = shelf.police_in(rt, &mut narrow, few, 2);
    let same = shelf.totals() == before;
    expect(rt, "too many", (wide, same), (Err(NoRoom::Cards), true));
    expect(rt, "the decisions", narrow.decisions().len(), 0);
    Ok(())
}

//! Cards police their arrivals at the same time. No clause can say this: a body that uses one thread gives the same answers.

use super::{arrivals, expect, open_shelf};
use card_shelf::{Arrival, Gate, Room, Shelf};
use std::alloc::Global;
use std::process::Abort;
use std::sync::atomic::{AtomicU64, Ordering};
use std::test::Fail;
use std::thread::{self, Threads};

/// The maximum number of turns that a card waits for another.
const TURNS: u64 = 10_000_000;

/// A gate at which a card waits for another one, and notes whether it came.
#[derive(Drop)]
struct Meeting<'a> {
    /// How many cards have come.
    came: &'a AtomicU64,
    /// How many of them have seen another one.
    met: &'a AtomicU64,
}

impl Gate for Meeting<'_> {
    fn before_arrivals(&self) {
        self.came.fetch_add(1, Ordering::SeqCst);
        for _ in 0..TURNS {
            if self.came.load(Ordering::SeqCst) > 1 {
                self.met.fetch_add(1, Ordering::SeqCst);
                return;
            }
            thread::yield_now();
        }
    }
}

/// Polices a batch with a gate at which two cards meet. Returns how many met.
fn meet<R: Threads + Sync>(
    rt: &R,
    alloc: Global,
    shelf: &mut Shelf,
    all: &[Arrival],
) -> Result<u64, Fail> {
    let came = AtomicU64::new(0);
    let met = AtomicU64::new(0);
    let gate = Meeting {
        came: &came,
        met: &met,
    };
    shelf.police_at(rt, alloc, all, 2, &gate)?;
    Ok(met.load(Ordering::SeqCst))
}

/// The same in a room.
fn meet_in_room<R: Threads + Sync>(
    rt: &R,
    shelf: &mut Shelf,
    room: &mut Room,
    all: &[Arrival],
) -> u64 {
    let came = AtomicU64::new(0);
    let met = AtomicU64::new(0);
    let gate = Meeting {
        came: &came,
        met: &met,
    };
    let _ = shelf.police_in_at(rt, room, all, 2, &gate);
    met.load(Ordering::SeqCst)
}

#[test]
fn two_cards_police_at_the_same_time(rt: HostRuntime) -> Result<(), Fail> {
    let mut shelf = open_shelf(rt.alloc(), 2)?;
    expect_meeting(&rt, rt.alloc(), &mut shelf)
}

/// Expects that both cards of a shelf meet.
fn expect_meeting<R: Threads + Sync + Abort>(
    rt: &R,
    alloc: Global,
    shelf: &mut Shelf,
) -> Result<(), Fail> {
    let all = arrivals(alloc)?;
    expect(rt, "cards met", meet(rt, alloc, shelf, &all)?, 2);
    Ok(())
}

#[test]
fn two_cards_police_in_a_room_at_the_same_time(rt: HostRuntime) -> Result<(), Fail> {
    let mut shelf = open_shelf(rt.alloc(), 2)?;
    expect_meeting_in_room(&rt, rt.alloc(), &mut shelf)
}

/// Expects that both cards of a shelf meet when they police in a room.
fn expect_meeting_in_room<R: Threads + Sync + Abort>(
    rt: &R,
    alloc: Global,
    shelf: &mut Shelf,
) -> Result<(), Fail> {
    let all = arrivals(alloc)?;
    let mut room = Room::new(alloc, 2, all.len())?;
    expect(rt, "cards met", meet_in_room(rt, shelf, &mut room, &all), 2);
    Ok(())
}

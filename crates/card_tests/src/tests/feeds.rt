//! Cards on threads beside cards that take the same arrivals one after another.

ghost use Rattle.std.specs.Prelude.{[], ⊤};

use super::{ask, constant};
use card_core::{Core, PortReply, Reply, Shape, Step, Unjudged};
use card_feeds::{Feeder, Lane, Queue, each_card};
use card_shelf::{Arrival, Decision};
use gen_arena::Id;
use leaky::Verdict;
use std::alloc::Global;
use std::sync::atomic::{AtomicU64, Ordering};
use std::test::Fail;
use std::thread::{self, Threads};
use upc_cell::{Cell, Side, Vc};

/// How many connections there are: 1/100, 1/101 and so on.
const CONNECTIONS: u16 = 8;

fn shape() -> Shape {
    Shape {
        programs: 1,
        lines: 8,
        ports: 1,
        journal: 64,
        side: Side::Uni,
    }
}

/// A cell of path 1 and this channel, with a payload of zeros.
fn cell_of(channel: u16) -> Cell {
    let mut octets = [0u8; 52];
    let [high, low] = (channel % 4096 * 16).to_be_bytes();
    octets[1] = 0x10;
    octets[2] = high;
    octets[3] = low;
    Cell::from(octets)
}

/// A card with all connections, whose program gives 1 for every cell.
fn card(alloc: Global) -> Result<Core, Fail> {
    let mut core = Core::new(alloc, shape())?;
    let Reply::Loaded(id) = core.step(Step::Load(constant(alloc, 1)?)) else {
        return Err(Fail::from("not loaded"));
    };
    for number in 0..CONNECTIONS {
        let vc = Vc::new(1, 100u16.wrapping_add(number))?;
        let Reply::SetUp(_) = core.step(Step::Setup(ask(vc, id)?)) else {
            return Err(Fail::from("not set up"));
        };
    }
    Ok(core)
}

/// The next of a row of numbers without a pattern that arrivals would notice.
fn next_number(state: u32) -> u32 {
    state.wrapping_mul(1664525).wrapping_add(1013904223)
}

/// The number of the card of this channel, where there are `cards` cards.
fn card_of(channel: u16, cards: u16) -> u16 {
    channel.checked_rem(cards).unwrap_or(0)
}

/// Arrivals of all connections and of one that there isn't, whose moments sometimes go back.
fn arrivals(alloc: Global, start: u64) -> Result<Vec<Arrival>, Fail> {
    let mut all = Vec::new(alloc);
    let mut state = 7u32;
    let mut moment = start.wrapping_add(10);
    for _ in 0..60u32 {
        state = next_number(state);
        moment = moment.wrapping_add(u64::from(state >> 20) % 3);
        let channel = 100u16.wrapping_add((state >> 16) as u16 % 9);
        all.push(Arrival {
            cell: cell_of(channel),
            moment: moment.saturating_sub(u64::from(state >> 24) % 3),
        })?;
    }
    Ok(all)
}

/// The arrivals of the card of this number, where there are `cards` cards.
fn own(alloc: Global, all: &[Arrival], number: u16, cards: u16) -> Result<Vec<Arrival>, Fail> {
    let mut own = Vec::new(alloc);
    for arrival in all {
        if card_of(arrival.cell.vc().vci, cards) == number {
            own.push(*arrival)?;
        }
    }
    Ok(own)
}

/// Cards with all connections, each with a queue of its own arrivals.
fn lanes(alloc: Global, all: &[Arrival], cards: u16) -> Result<Vec<Lane<Queue>>, Fail> {
    let mut lanes = Vec::new(alloc);
    for number in 0..cards {
        let queue = Queue::new(alloc, own(alloc, all, number, cards)?)?;
        lanes.push(Lane::new(card(alloc)?, queue))?;
    }
    Ok(lanes)
}

/// The part of an answer that does not depend on which card has the connection.
fn seen(answer: Option<Decision>) -> Option<Result<(Verdict, u64, u32), Unjudged>> {
    match answer? {
        Ok(judgement) => Some(Ok((judgement.verdict, judgement.moment, judgement.value))),
        Err(reason) => Some(Err(reason)),
    }
}

/// Whether this card answers these arrivals with these answers.
fn answers_all(core: &mut Core, arrivals: &[Arrival], answers: &[Option<Decision>]) -> bool {
    let mut same = arrivals.len() == answers.len();
    for (arrival, answer) in arrivals.iter().zip(answers) {
        same = core.arrive(0, &arrival.cell, arrival.moment) == *answer && same;
    }
    same
}

/// Whether the next answers of the lanes are those of this card to the arrivals, in their order.
fn mix_is_answered(
    alloc: Global,
    core: &mut Core,
    lanes: &[Lane<Queue>],
    cards: u16,
    all: &[Arrival],
) -> Result<bool, Fail> {
    let mut places = vec![in alloc; 0usize; usize::from(cards)]?;
    let mut same = true;
    for arrival in all {
        let number = usize::from(card_of(arrival.cell.vc().vci, cards));
        let (Some(lane), Some(place)) = (lanes.get(number), places.get_mut(number)) else {
            return Err(Fail::from("no such card"));
        };
        let decision = lane.feeder.answers().get(*place).copied().flatten();
        *place = place.wrapping_add(1);
        same = seen(core.arrive(0, &arrival.cell, arrival.moment)) == seen(decision) && same;
    }
    Ok(same)
}

#[test]
fn each_card_answers_its_own_queue(rt: HostRuntime) -> Result<(), Fail> {
    let all = arrivals(rt.alloc(), 0)?;
    for cards in [1u16, 2, 3, 4] {
        let mut lanes = lanes(rt.alloc(), &all, cards)?;
        each_card(&rt, &mut lanes);
        for lane in &lanes {
            let mut alone = card(rt.alloc())?;
            let queue = &lane.feeder;
            let same = answers_all(&mut alone, queue.arrivals(), queue.answers());
            assert_eq!(rt; (same, lane.core.totals()), (true, alone.totals()));
        }
    }
    Ok(())
}

#[test]
fn the_answers_are_those_of_one_card(rt: HostRuntime) -> Result<(), Fail> {
    let all = arrivals(rt.alloc(), 0)?;
    for cards in [1u16, 2, 3, 4] {
        let mut lanes = lanes(rt.alloc(), &all, cards)?;
        each_card(&rt, &mut lanes);
        let mut one = card(rt.alloc())?;
        let same = mix_is_answered(rt.alloc(), &mut one, &lanes, cards, &all)?;
        let totals = one.totals();
        let some = totals.passed > 0 && totals.discarded > 0;
        assert_eq!(rt; (cards, same, some), (cards, true, true));
    }
    Ok(())
}

#[test]
fn a_queue_is_filled_again(rt: HostRuntime) -> Result<(), Fail> {
    let mut lanes = lanes(rt.alloc(), &[], 1)?;
    each_card(&rt, &mut lanes);
    let mut alone = card(rt.alloc())?;
    for start in [0u64, 200, 400] {
        for lane in lanes.as_mut_slice() {
            let none = lane.feeder.refill(arrivals(rt.alloc(), start)?).is_err();
            assert_eq!(rt; (none, lane.feeder.answers().len()), (false, 0));
        }
        each_card(&rt, &mut lanes);
        for lane in &lanes {
            let queue = &lane.feeder;
            let same = answers_all(&mut alone, queue.arrivals(), queue.answers());
            assert_eq!(rt; (queue.answers().len(), same), (60, true));
        }
    }
    Ok(())
}

#[test]
fn a_card_with_a_cell_at_its_port_answers_none(rt: HostRuntime) -> Result<(), Fail> {
    let mut lanes = lanes(rt.alloc(), &arrivals(rt.alloc(), 0)?, 1)?;
    for lane in lanes.as_mut_slice() {
        assert!(rt; matches!(lane.core.enter(0, cell_of(100), 1), PortReply::Entered));
    }
    each_card(&rt, &mut lanes);
    for lane in &lanes {
        let answers = lane.feeder.answers();
        let none = answers.iter().all(|answer| answer.is_none());
        assert_eq!(rt; (answers.len(), none), (60, true));
    }
    Ok(())
}

/// The maximum number of turns that a feeder waits for another.
const TURNS: u64 = 10_000_000;

/// A feeder without arrivals. When it is asked for one, it sets its flag and waits for the other feeder's.
#[derive(Drop)]
struct Meeting<'a> {
    own: &'a AtomicU64,
    other: &'a AtomicU64,
    has_met: bool,
}

impl Feeder for Meeting<'_> {
    ghost coming = { λ _. [] };

    ghost has_taken = { λ _ _. ⊤ };

    ghost awaits = { λ _. ⊤ };

    fn next_arrival(&mut self) -> Option<Arrival> {
        self.own.store(1, Ordering::SeqCst);
        for _ in 0..TURNS {
            if self.other.load(Ordering::SeqCst) != 0 {
                self.has_met = true;
                return None;
            }
            thread::yield_now();
        }
        None
    }

    fn take_answer(&mut self, _answer: Option<Decision>) {}
}

/// A card whose feeder has these flags.
fn meeting_card<'a>(
    alloc: Global,
    own: &'a AtomicU64,
    other: &'a AtomicU64,
) -> Result<Lane<Meeting<'a>>, Fail> {
    let feeder = Meeting {
        own,
        other,
        has_met: false,
    };
    Ok(Lane::new(card(alloc)?, feeder))
}

/// Whether two cards, each with one of these flags, are fed at the same time.
fn have_met<R: Threads + Sync>(
    rt: &R,
    alloc: Global,
    one: &AtomicU64,
    other: &AtomicU64,
) -> Result<bool, Fail> {
    let mut lanes = Vec::new(alloc);
    lanes.push(meeting_card(alloc, one, other)?)?;
    lanes.push(meeting_card(alloc, other, one)?)?;
    each_card(rt, &mut lanes);
    Ok(lanes.iter().all(|lane| lane.feeder.has_met))
}

#[test]
fn two_cards_are_fed_at_the_same_time(rt: HostRuntime) -> Result<(), Fail> {
    let one = AtomicU64::new(0);
    let other = AtomicU64::new(0);
    assert!(rt; have_met(&rt, rt.alloc(), &one, &other)?);
    Ok(())
}

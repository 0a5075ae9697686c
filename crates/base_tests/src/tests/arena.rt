//! Arenas that are filled, emptied and worn out.

use super::expecting::{expect, expect_printed};
use gen_arena::*;
use std::alloc::Global;
use std::fmt::Debug;
use std::hash::Hash;
use std::process::Abort;
use std::sync::atomic::{AtomicU64, Ordering};
use std::test::Fail;

fn id(slot: u16, generation: u32) -> Id {
    Id { slot, generation }
}

/// Expects this value, or none, under an id.
fn expect_at<T: Copy + Eq + Debug>(rt: &impl Abort, arena: &Arena<T>, id: Id, value: Option<T>) {
    expect(rt, "a value", (id, arena.get(id).copied()), (id, value));
}

/// Expects this number of free slots.
fn expect_free<T>(rt: &impl Abort, arena: &Arena<T>, free: usize) {
    expect(rt, "free slots", arena.free(), free);
}

fn is_key<K: Copy + Ord + Hash + Debug>() {}

fn is_sent<S: Send>() {}

fn is_shared<S: Sync>() {}

/// An arena is `Send` if its values are.
fn arena_is_sent<T: Send>() {
    is_sent::<Arena<T>>();
}

/// An arena is `Sync` if its values are.
fn arena_is_shared<T: Sync>() {
    is_shared::<Arena<T>>();
}

#[test]
fn an_id_is_a_key_and_an_arena_crosses_threads() {
    is_key::<Id>();
    arena_is_sent::<u32>();
    arena_is_shared::<u32>();
}

/// Ids are ordered by slot, then by generation.
#[test]
fn ids_are_ordered_by_slot_and_then_by_generation(rt: HostRuntime) {
    assert!(rt; id(1, 4294967295) < id(2, 1));
    assert!(rt; id(1, 1) < id(1, 2));
    assert!(rt; id(7, 7) <= id(7, 7) && id(7, 7) >= id(7, 7));
}

/// Expects that a new arena of two slots takes these values as the tests say.
fn expect_refill<T: Copy + Eq + Debug>(
    rt: &impl Abort,
    alloc: Global,
    values: [T; 3],
) -> Result<(), Fail> {
    let mut arena = Arena::new(alloc, 2)?;
    expect_refill_of(rt, &mut arena, values)
}

/// The same of this arena: the first two values are inserted, the first is removed, and the third takes its slot.
fn expect_refill_of<T: Copy + Eq + Debug>(
    rt: &impl Abort,
    arena: &mut Arena<T>,
    values: [T; 3],
) -> Result<(), Fail> {
    let [a, b, c] = values;
    let first = arena.insert(a)?;
    let second = arena.insert(b)?;
    let slots = (first.slot.min(second.slot), first.slot.max(second.slot));
    expect(rt, "the slots", slots, (0, 1));
    let generations = (first.generation, second.generation);
    expect(rt, "the generations", generations, (1, 1));
    expect(rt, "no third", arena.insert(c), Err(c));
    expect_next_generation(rt, arena, first, a, c);
    expect_at(rt, arena, second, Some(b));
    expect_free(rt, arena, 0);
    Ok(())
}

/// Expects that this value, once it is removed, has no id, and that the next one in its slot has another.
fn expect_next_generation<T: Copy + Eq + Debug>(
    rt: &impl Abort,
    arena: &mut Arena<T>,
    first: Id,
    value: T,
    next: T,
) {
    let again = id(first.slot, 2);
    expect(rt, "removed", arena.remove(first), Some(value));
    expect_at(rt, arena, first, None);
    expect(rt, "removed again", arena.remove(first), None);
    expect(rt, "the next id", arena.insert(next), Ok(again));
    expect_at(rt, arena, first, None);
    expect_at(rt, arena, again, Some(next));
}

#[derive(Clone, Copy, PartialEq, Eq, Debug)]
struct Sizeless;

#[test]
fn a_refilled_slot_has_the_next_generation(rt: HostRuntime) -> Result<(), Fail> {
    expect_refill(&rt, rt.alloc(), [10u32, 20, 30])?;
    expect_refill(&rt, rt.alloc(), [Sizeless, Sizeless, Sizeless])
}

#[test]
fn ids_that_were_never_given_name_nothing(rt: HostRuntime) -> Result<(), Fail> {
    let mut arena = Arena::new(rt.alloc(), 2)?;
    expect_only(&rt, &mut arena)
}

/// Expects that an empty arena has the one id of the value that is inserted.
fn expect_only(rt: &impl Abort, arena: &mut Arena<u32>) -> Result<(), Fail> {
    let only = arena.insert(7)?;
    expect(rt, "the only id", arena.holds(only), true);
    for stranger in [id(2, 1), id(only.slot, 0), id(only.slot, 2)] {
        let holds = arena.holds(stranger);
        expect(rt, "a stranger", (stranger, holds), (stranger, false));
        expect_at(rt, arena, stranger, None);
    }
    Ok(())
}

#[test]
fn an_arena_of_no_slots_is_refused(rt: HostRuntime) -> Result<(), Fail> {
    let no_slots = Some(ArenaFault::NoSlots);
    let plain = Arena::<u32>::new(rt.alloc(), 0).err();
    let used = Arena::<u32>::new_from(rt.alloc(), 0, 3).err();
    expect(&rt, "no slots", (plain, used), (no_slots, no_slots));
    expect_printed(
        &rt,
        rt.alloc(),
        &[
            (ArenaFault::NoSlots, "1 NoSlots"),
            (ArenaFault::NoMemory, "2 NoMemory"),
        ],
    )
}

#[test]
fn a_slot_that_used_the_greatest_generation_is_never_free_again(
    rt: HostRuntime,
) -> Result<(), Fail> {
    let mut arena = Arena::new_from(rt.alloc(), 1, 4294967294)?;
    expect_last_generation(&rt, &mut arena)?;
    let mut worn = Arena::new_from(rt.alloc(), 2, 4294967295)?;
    expect_worn(&rt, &mut worn);
    Ok(())
}

/// Expects that the slot of this arena is filled once more, with the greatest generation.
fn expect_last_generation(rt: &impl Abort, arena: &mut Arena<u32>) -> Result<(), Fail> {
    expect_free(rt, arena, 1);
    let last = arena.insert(7)?;
    expect(rt, "the last generation", last.generation, 4294967295);
    expect(rt, "removed", arena.remove(last), Some(7));
    expect_worn(rt, arena);
    Ok(())
}

/// Expects that no slot is free, and that a value comes back.
fn expect_worn(rt: &impl Abort, arena: &mut Arena<u32>) {
    expect_free(rt, arena, 0);
    expect(rt, "a worn slot", arena.insert(8), Err(8));
}

#[test]
fn an_arena_of_the_most_slots_is_filled_to_the_last(rt: HostRuntime) -> Result<(), Fail> {
    let mut arena = Arena::new(rt.alloc(), 65535)?;
    expect_filled(&rt, &mut arena)
}

/// Expects that an empty arena of 65,535 slots takes as many values.
fn expect_filled(rt: &impl Abort, arena: &mut Arena<u32>) -> Result<(), Fail> {
    expect_free(rt, arena, 65535);
    let mut last = id(0, 0);
    for value in 0..65535 {
        last = arena.insert(value)?;
    }
    expect_free(rt, arena, 0);
    expect(rt, "one more", arena.insert(65535), Err(65535));
    expect_at(rt, arena, last, Some(65534));
    expect(rt, "removed", arena.remove(last), Some(65534));
    expect_free(rt, arena, 1);
    Ok(())
}

#[derive(Debug)]
struct Counted<'a> {
    drops: &'a AtomicU64,
}

impl Drop for Counted<'_> {
    fn drop(self) {
        let Counted { drops } = self;
        drops.fetch_add(1, Ordering::SeqCst);
    }
}

/// The number of dropped values of each counter.
fn drops(counters: &[AtomicU64; 3]) -> [u64; 3] {
    [
        counters[0].load(Ordering::SeqCst),
        counters[1].load(Ordering::SeqCst),
        counters[2].load(Ordering::SeqCst),
    ]
}

#[test]
fn each_live_value_is_dropped_once_with_the_arena(rt: HostRuntime) -> Result<(), Fail> {
    let counters = [AtomicU64::new(0), AtomicU64::new(0), AtomicU64::new(0)];
    expect_one_drop(&rt, rt.alloc(), &counters)?;
    expect(&rt, "with the arena", drops(&counters), [1, 1, 1]);
    Ok(())
}

/// Expects that of the values of a new arena only the one that is removed is dropped before the arena, at the end of this
/// call.
fn expect_one_drop(rt: &impl Abort, alloc: Global, counters: &[AtomicU64; 3]) -> Result<(), Fail> {
    let mut arena = Arena::new(alloc, 3)?;
    expect_one_drop_in(rt, &mut arena, counters)
}

/// The same of this arena.
fn expect_one_drop_in<'a>(
    rt: &impl Abort,
    arena: &mut Arena<Counted<'a>>,
    counters: &'a [AtomicU64; 3],
) -> Result<(), Fail> {
    let [removed, kept, refilled] = counters;
    let first = insert(arena, removed)?;
    insert(arena, kept)?;
    drop(arena.remove(first));
    expect(rt, "removed", drops(counters), [1, 0, 0]);
    insert(arena, refilled)?;
    expect(rt, "refilled", drops(counters), [1, 0, 0]);
    Ok(())
}

/// Inserts a value with this counter.
fn insert<'a>(arena: &mut Arena<Counted<'a>>, drops: &'a AtomicU64) -> Result<Id, Fail> {
    Ok(arena.insert(Counted { drops })?)
}

fn total(counts: &[AtomicU64]) -> u64 {
    let mut sum = 0u64;
    for count in counts {
        sum = sum.wrapping_add(count.load(Ordering::SeqCst));
    }
    sum
}

fn zeros(alloc: Global, count: u32) -> Result<Vec<AtomicU64>, Fail> {
    let mut counts = Vec::new(alloc);
    for _ in 0..count {
        counts.push(AtomicU64::new(0))?;
    }
    Ok(counts)
}

/// Expects that each value was dropped once.
fn expect_each_once(rt: &impl Abort, counts: &[AtomicU64]) {
    for count in counts {
        expect(rt, "drops", count.load(Ordering::SeqCst), 1);
    }
}

#[test]
fn of_many_values_each_is_dropped_once(rt: HostRuntime) -> Result<(), Fail> {
    let first = zeros(rt.alloc(), 1000)?;
    expect_each_dropped(&rt, rt.alloc(), &first)
}

/// Expects it of these values and of 200 later ones.
fn expect_each_dropped(rt: &impl Abort, alloc: Global, first: &[AtomicU64]) -> Result<(), Fail> {
    let later = zeros(alloc, 200)?;
    expect_half_dropped(rt, alloc, first, &later)?;
    expect_each_once(rt, first);
    expect_each_once(rt, &later);
    Ok(())
}

/// Fills a new arena with the first values, removes every second of them, and inserts the later ones. Expects that only
/// those that are removed are dropped before the arena, at the end of this call.
fn expect_half_dropped(
    rt: &impl Abort,
    alloc: Global,
    first: &[AtomicU64],
    later: &[AtomicU64],
) -> Result<(), Fail> {
    let mut arena = Arena::new(alloc, 1000)?;
    expect_half_dropped_in(rt, alloc, &mut arena, first, later)
}

/// The same of this arena.
fn expect_half_dropped_in<'a>(
    rt: &impl Abort,
    alloc: Global,
    arena: &mut Arena<Counted<'a>>,
    first: &'a [AtomicU64],
    later: &'a [AtomicU64],
) -> Result<(), Fail> {
    let ids = inserted(alloc, arena, first)?;
    remove_every_second(arena, &ids);
    expect(rt, "removed", (total(first), arena.free()), (500, 500));
    insert_all(arena, later)?;
    let drops = (total(first), total(later));
    expect(rt, "refilled", (drops, arena.free()), ((500, 0), 300));
    Ok(())
}

/// Inserts a value with each counter, and returns their ids.
fn inserted<'a>(
    alloc: Global,
    arena: &mut Arena<Counted<'a>>,
    counts: &'a [AtomicU64],
) -> Result<Vec<Id>, Fail> {
    let mut ids = Vec::new(alloc);
    for drops in counts {
        ids.push(insert(arena, drops)?)?;
    }
    Ok(ids)
}

fn remove_every_second(arena: &mut Arena<Counted<'_>>, ids: &[Id]) {
    for (k, id) in ids.iter().enumerate() {
        if k % 2 == 0 {
            drop(arena.remove(*id));
        }
    }
}

/// Inserts a value with each counter.
fn insert_all<'a>(arena: &mut Arena<Counted<'a>>, counts: &'a [AtomicU64]) -> Result<(), Fail> {
    for drops in counts {
        insert(arena, drops)?;
    }
    Ok(())
}

/// The slot that was emptied last is used first.
#[test]
fn freed_slots_come_again_from_the_last_on(rt: HostRuntime) -> Result<(), Fail> {
    let mut arena = Arena::new(rt.alloc(), 3)?;
    expect_slots_again(&rt, &mut arena)
}

/// Expects it of an empty arena of three slots.
fn expect_slots_again(rt: &impl Abort, arena: &mut Arena<u8>) -> Result<(), Fail> {
    let filled = insert_three(arena)?;
    expect(rt, "filled", filled, [id(0, 1), id(1, 1), id(2, 1)]);
    for slot in [0, 2, 1] {
        arena.remove(id(slot, 1));
    }
    let again = insert_three(arena)?;
    expect(rt, "filled again", again, [id(1, 2), id(2, 2), id(0, 2)]);
    Ok(())
}

fn insert_three(arena: &mut Arena<u8>) -> Result<[Id; 3], Fail> {
    Ok([arena.insert(0)?, arena.insert(1)?, arena.insert(2)?])
}

/// Values of 4 KiB, with the largest alignment that the allocator supports.
#[test]
fn large_values_come_back_as_they_went_in(rt: HostRuntime) -> Result<(), Fail> {
    let mut arena = Arena::new(rt.alloc(), 3)?;
    expect_large(&rt, &mut arena)
}

/// Expects it of an empty arena of three slots.
fn expect_large(rt: &impl Abort, arena: &mut Arena<[u128; 256]>) -> Result<(), Fail> {
    let first = arena.insert([1; 256])?;
    let second = arena.insert([u128::MAX; 256])?;
    arena.insert([3; 256])?;
    expect(rt, "removed", arena.remove(first), Some([1; 256]));
    let fourth = arena.insert([4; 256])?;
    expect_at(rt, arena, second, Some([u128::MAX; 256]));
    expect_at(rt, arena, fourth, Some([4; 256]));
    Ok(())
}

/// The example of the README.
#[test]
fn a_session_is_looked_up_by_its_id(rt: HostRuntime) -> Result<(), Fail> {
    let mut sessions = Arena::new(rt.alloc(), 100)?;
    let ann = sessions.insert("ann")?;
    assert_eq!(rt; sessions.get(ann).copied(), Some("ann"));

    // Ann leaves. Whoever gets her slot next has another id, and hers names nobody again.
    assert_eq!(rt; sessions.remove(ann), Some("ann"));
    let bob = sessions.insert("bob")?;
    assert_ne!(rt; bob, ann);
    assert!(rt; !sessions.holds(ann));
    assert_eq!(rt; sessions.free(), 99);
    Ok(())
}

//! The arena: values under ids, and the free list.

ghost use Rattle.std.specs.Prelude.{◌≡◌, ◌+◌, ◌∷◌, ◌<◌, ◌≤◌, ◌↔◌, IsTrue, IsErr, IsErrOf, IsSome, IfOk, IfErr, OnOk, OnErr, IfSome, IfNone, OnSome, Some, None, option_copied};
ghost use Rattle.gen_arena.specs.Slot.{unused_slots, greatest_generation, IsArena};
ghost use Rattle.gen_arena.specs.Live.{live_value, IsLive};
ghost use Rattle.gen_arena.specs.Past.{IsPast, KeepsPast};
ghost use Rattle.gen_arena.specs.Free.{free_slots, NoneIsFree};
ghost use Rattle.gen_arena.specs.Insert.{Inserts};
ghost use Rattle.gen_arena.specs.Remove.{Removes};

use crate::place::PlaceRow;
use crate::{ArenaFault, Id};
use std::alloc::Global;
use std::marker::Model;

/// A fixed number of slots. Each has the generation that it used last and may have a value.
///
/// Contracts see the list of slots. If `T` is `Drop`, so is the arena: dropping it drops the values in it.
///
/// `new` allocates one block of memory for all slots and writes to none of it: a slot's memory is first written when the
/// slot first gets a value. The free slots form a linked list, so no call searches for one. The slots that were emptied
/// come first in it, the last emptied one at its head, and then those that never had a value, in order.
#[derive(Drop)]
pub struct Arena<T> {
    places: PlaceRow<T>,
    /// The number of the first free slot, or the number of slots if none is free.
    first: u16,
    /// The number of free slots.
    free: u16,
}

impl<T> Model for Arena<T> {
    ghost use Rattle.std.specs.Prelude.{List, map};
    ghost use Rattle.gen_arena.specs.Slot.{Slot};
    ghost use Rattle.gen_arena.specs.inner.PlaceRow.{IsReached};

    ghost Value = { List (Slot T) };

    ghost use Rattle.gen_arena.specs.inner.Chain.{slot_of, IsSoundArena};

    ghost view = { λ a. map slot_of a.places.places };

    ghost invariant = { λ a. IsSoundArena a.places.places a.first a.free × IsReached a.places a.first };
}

impl<T> Arena<T> {
    /// An arena of `slots` empty slots that have used no generation.
    ///
    /// # Errors
    ///
    /// `NoSlots` exactly if `slots` is 0; `NoMemory` if the allocation fails.
    pub fn new(alloc: Global, slots: u16) -> Result<Self, ArenaFault>
        ensures no_slots { IsErrOf result ArenaFault.NoSlots ↔ (slots ≡ 0) }
        ensures made { IfOk result (λ arena. arena ≡ unused_slots slots 0) }
    {
        Arena::new_from(alloc, slots, 0)
    }

    /// An arena of `slots` empty slots that count as having used generation `used`, so ids up to that generation are
    /// past. With `used` = 4294967295 no slot is ever free.
    ///
    /// # Errors
    ///
    /// As for `new`.
    pub fn new_from(alloc: Global, slots: u16, used: u32) -> Result<Self, ArenaFault>
        ensures no_slots { IsErrOf result ArenaFault.NoSlots ↔ (slots ≡ 0) }
        ensures made { IfOk result (λ arena. arena ≡ unused_slots slots used) }
    {
        if slots == 0 {
            return Err(ArenaFault::NoSlots);
        }
        let Ok(places) = PlaceRow::new(alloc, slots, used) else {
            return Err(ArenaFault::NoMemory);
        };
        // Each fresh place counts as linked to the next one. If they have no generation left, the free list is empty.
        let (first, free) = if used < u32::MAX {
            (0, slots)
        } else {
            (slots, 0)
        };
        Ok(Arena {
            places,
            first,
            free,
        })
    }

    /// Puts the value into some free slot, under the slot's next generation. Doesn't allocate.
    ///
    /// # Errors
    ///
    /// The value, exactly if no slot is free.
    pub fn insert(&mut self, value: T) -> Result<Id, T>
        ensures inserted { IfOk result (λ id. Inserts self.old self.new id value) }
        ensures live { IfOk result (λ id. live_value self.new id ≡ Some value) }

        // It fails exactly if no slot is free, and then nothing changes.
        ensures full { IsErr result ↔ (free_slots self.old ≡ 0) }
        ensures none_is_free { OnErr result (NoneIsFree self.old) }
        ensures value_returned { IfErr result (λ returned. returned ≡ value) }
        ensures unchanged { OnErr result (self.new ≡ self.old) }

        ensures past { KeepsPast self.old self.new }
    {
        if self.free == 0 {
            return Err(value);
        }
        let slot = self.first;
        let (generation, next) = self.places.fill(slot, value);
        self.first = next;
        self.free -= 1;
        Ok(Id { slot, generation })
    }

    /// Returns the value that was inserted under this id. None if it was removed, or if the id was never given.
    pub fn get(&self, id: Id) -> Option<&T>
        ensures value { option_copied result ≡ live_value self.now id }
        ensures generation_zero { id.generation ≡ 0 → live_value self.now id ≡ None }
    {
        let place = self.places.get(id.slot)?;
        if place.generation == id.generation {
            place.value.as_ref()
        } else {
            None
        }
    }

    /// Whether the id is live.
    pub fn holds(&self, id: Id) -> bool
        ensures live { IsTrue result ↔ IsLive self.now id }
        ensures generation_zero { id.generation ≡ 0 → live_value self.now id ≡ None }
    {
        self.get(id).is_some()
    }

    /// Removes the value of the id and returns it, if the id is live. The slot keeps its generation, so the id is
    /// past from then on. Doesn't allocate.
    pub fn remove(&mut self, id: Id) -> Option<T>
        ensures value { result ≡ live_value self.old id }
        ensures removed { IfSome result (λ value. Removes self.old self.new id value) }
        ensures past { OnSome result (IsPast self.new id) }

        // If the id isn't live, nothing changes.
        ensures unchanged { IfNone result (self.new ≡ self.old) }

        ensures stays_past { KeepsPast self.old self.new }
    {
        if !self.holds(id) {
            return None;
        }
        let value = self.places.empty(id.slot, self.first);
        (self.first, self.free) = relisted(id, self.first, self.free);
        value
    }

    /// The number of free slots: those without a value and with a generation below 4294967295. A slot that has used
    /// that generation is never free again.
    pub fn free(&self) -> usize
        ensures count { result ≡ free_slots self.now }
        ensures lawful { IsArena self.now }
    {
        usize::from(self.free)
    }
}

/// The new head and length of the free list after the slot of the id is emptied. The slot becomes the head, unless it
/// has no generation left.
fn relisted(id: Id, first: u16, free: u16) -> (u16, u16)
    requires { id.generation < greatest_generation → free < 65535 }
    ensures first { id.generation < greatest_generation → (result.0 ≡ id.slot) × (result.1 ≡ free + 1) }
    ensures worn { greatest_generation ≤ id.generation → (result.0 ≡ first) × (result.1 ≡ free) }
{
    if id.generation < u32::MAX {
        (id.slot, free + 1)
    } else {
        (first, free)
    }
}

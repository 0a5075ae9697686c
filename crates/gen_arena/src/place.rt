//! The places of an arena, in one block.

ghost use Rattle.std.specs.Prelude.{◌≡◌, ℕ, ◌+◌, ◌<◌, length, None, Some, IsSome, IfOk, IfSome, IfNone, replicate, slice_get, slice_set, option_copied};
ghost use Rattle.gen_arena.specs.Slot.{greatest_generation};
ghost use Rattle.gen_arena.specs.inner.Boxes.{IsFilledTo};
ghost use Rattle.gen_arena.specs.inner.PlaceRow.{place_at, AreFresh, IsReached};

use crate::block::{Boxes, Deed, Start, give_back, make};
use std::alloc::{AllocError, Global};
use std::marker::Model;
use std_alloc::room::may_hold;

/// What a slot holds once it has had a value. A slot, its place and its box have the same number. `next` counts only while the slot is
/// free: it is the number of the next free slot, or the number of slots if there is none.
#[derive(Drop)]
pub struct Place<T> {
    pub(crate) generation: u32,
    pub(crate) next: u16,
    pub(crate) value: Option<T>,
}

impl<T> Place<T> {
    /// Puts a value into an empty place under its next generation, and returns that generation.
    fn fill(&mut self, value: T) -> u32
        requires empty { self.old.value ≡ None }
        requires unworn { self.old.generation < greatest_generation }
        ensures generation { result ≡ self.old.generation + 1 }
        ensures after { self.new ≡ record { generation = result; next = self.old.next; value = Some value } }
    {
        self.generation += 1;
        match self.value.replace(value) {
            None => self.generation,
            Some(_) => unreachable!(),
        }
    }
}

/// A row of places, which owns its block.
///
/// A place is fresh until it is first filled. The boxes of the fresh places are blank, so making a row writes to none of
/// its memory. A fresh place counts as an empty one that links to the place after it. All places that were filled come
/// before the fresh ones.
pub struct PlaceRow<T> {
    start: Start<Place<T>>,
    boxes: Boxes<Place<T>>,
    deed: Deed<Place<T>, Global>,
    alloc: Global,
    count: u16,
    /// The number of the first fresh place, or the number of places if none is fresh.
    fresh: u16,
    /// The generation that each fresh place counts as having used.
    used: u32,
}

impl<T> Model for PlaceRow<T> {
    ghost use Rattle.std.specs.Prelude.{◌≡◌};
    ghost use Rattle.gen_arena.specs.inner.PlaceRow.{PlaceRowView, places_in, IsRow};

    ghost Value = { PlaceRowView T };

    ghost view = { λ p. record { places = places_in p.used 0 p.boxes.held; fresh = p.fresh } };

    ghost invariant = { λ p. (p.boxes.start ≡ p.start.to) × (p.deed.start ≡ p.start.to) × (p.deed.count ≡ p.count) × (p.deed.from ≡ p.alloc) × IsRow p.boxes.held p.count p.fresh };
}

impl<T> PlaceRow<T> {
    /// Makes a row of `count` fresh places that count as having used generation `used`. Writes to no box.
    pub(crate) fn new(alloc: Global, count: u16, used: u32) -> Result<Self, AllocError>
        ensures { IfOk result (λ row. AreFresh row.places count used) }
    {
        let room = usize::from(count);
        if !may_hold::<Place<T>>(room) {
            return Err(AllocError);
        }
        let (start, boxes, deed) = make(&alloc, room)?;
        Ok(PlaceRow {
            start,
            boxes,
            deed,
            alloc,
            count,
            fresh: 0,
            used,
        })
    }

    /// The place of this number, if there is such a place and it isn't fresh.
    pub(crate) fn get(&self, slot: u16) -> Option<&Place<T>>
        ensures found { IfSome (option_copied result) (λ place. slice_get self.now.places slot ≡ Some place) }
        ensures none { IfNone result ((place_at self.now.places slot).value ≡ None) }
    {
        if slot >= self.fresh {
            return None;
        }
        Some(self.boxes.lend(self.start, usize::from(slot)))
    }

    /// Puts a value into an empty place under its next generation. Returns that generation and the place's link, the
    /// next free place.
    pub(crate) fn fill(&mut self, slot: u16, value: T) -> (u32, u16)
        requires there { slot < length self.old.places }
        requires reached { IsReached self.old slot }
        requires empty { (place_at self.old.places slot).value ≡ None }
        requires unworn { (place_at self.old.places slot).generation < greatest_generation }
        ensures generation { result.0 ≡ (place_at self.old.places slot).generation + 1 }
        ensures next { result.1 ≡ (place_at self.old.places slot).next }
        ensures after { self.new.places ≡ slice_set self.old.places slot (record { generation = result.0; next = result.1; value = Some value }) }
        ensures reached { IsReached self.new result.1 }
    {
        if slot == self.fresh {
            return self.fill_fresh(value);
        }
        let place = self.boxes.lend_mut(self.start, usize::from(slot));
        let next = place.next;
        (place.fill(value), next)
    }

    /// Writes the first fresh place, with a value. Returns its generation and its link, the place after it.
    fn fill_fresh(&mut self, value: T) -> (u32, u16)
        requires there { self.old.fresh < length self.old.places }
        requires unworn { (place_at self.old.places self.old.fresh).generation < greatest_generation }
        ensures generation { result.0 ≡ (place_at self.old.places self.old.fresh).generation + 1 }
        ensures next { result.1 ≡ (place_at self.old.places self.old.fresh).next }
        ensures after { self.new.places ≡ slice_set self.old.places self.old.fresh (record { generation = result.0; next = result.1; value = Some value }) }
        ensures fresh { self.new.fresh ≡ result.1 }
    {
        let slot = self.fresh;
        let generation = self.used + 1;
        let next = slot + 1;
        let place = Place {
            generation,
            next,
            value: Some(value),
        };
        self.boxes.put(self.start, usize::from(slot), place);
        self.fresh = next;
        (generation, next)
    }

    /// Takes the value out of a place and sets its link.
    pub(crate) fn empty(&mut self, slot: u16, next: u16) -> Option<T>
        requires full { IsSome (place_at self.old.places slot).value }
        requires reached { IsReached self.old next }
        ensures value { result ≡ (place_at self.old.places slot).value }
        ensures after { self.new.places ≡ slice_set self.old.places slot (record { generation = (place_at self.old.places slot).generation; next = next; value = None }) }
        ensures fresh { self.new.fresh ≡ self.old.fresh }
        ensures below { slot < self.old.fresh }
    {
        let place = self.boxes.lend_mut(self.start, usize::from(slot));
        place.next = next;
        place.value.take()
    }
}

impl<T: Drop> Drop for PlaceRow<T> {
    fn drop(self) {
        let PlaceRow {
            start,
            mut boxes,
            deed,
            alloc,
            count,
            fresh,
            used: _,
        } = self;
        clear(&mut boxes, start, fresh);
        give_back(&alloc, start, usize::from(count), boxes, deed);
    }
}

/// Takes the place out of each of the first `count` boxes and drops it. The other boxes are blank before.
fn clear<T: Drop>(boxes: &mut Boxes<Place<T>>, start: Start<Place<T>>, count: u16)
    requires start { start.to ≡ boxes.old.start }
    requires filled { IsFilledTo boxes.old.held count }
    ensures start { boxes.new.start ≡ boxes.old.start }
    ensures blank { boxes.new.held ≡ replicate (length boxes.old.held) None }
{
    for k in 0..count {
        drop(boxes.take(start, usize::from(k)));
    }
}

//! Consequences of the contracts of the arena's calls.
//!
//! Each function does nothing; its contract is a law. The laws hold for any slots and for any sequence of calls, each
//! given by the change that it made.

ghost use Rattle.std.specs.Prelude.{◌≡◌, ◌≢◌, ◌⊎◌, ◌+◌, ◌<◌, ◌≤◌, ◌↔◌, IsTrue, List, Some, None, All, AllPairs, length, slice_get};
ghost use Rattle.gen_arena.specs.SameId.{is_same_id};
ghost use Rattle.gen_arena.specs.Slot.{Slot, IsArena, full_slot, generation_at};
ghost use Rattle.gen_arena.specs.Live.{live_value, IsLive};
ghost use Rattle.gen_arena.specs.Past.{IsPast, KeepsPast};
ghost use Rattle.gen_arena.specs.Free.{free_slots, NoneIsFree};
ghost use Rattle.gen_arena.specs.Insert.{Inserts};
ghost use Rattle.gen_arena.specs.Remove.{Removes};
ghost use Rattle.gen_arena.specs.Change.{Change, ChangesLead, given_ids};
ghost use Rattle.gen_arena.specs.declared.id.Id.{Id};

/// An id has a value exactly if its slot has the id's generation and that value. So the slot of a live id exists and
/// has the id's generation.
pub fn live_is_in_its_slot<T>()
    ensures value { (slots : List (Slot T)) (id : Id) (value : T)
        → (live_value slots id ≡ Some value) ↔ (slice_get slots id.slot ≡ Some (full_slot id.generation value)) }
    ensures within { (slots : List (Slot T)) (id : Id) → IsLive slots id → id.slot < length slots }
    ensures generation { (slots : List (Slot T)) (id : Id) → IsLive slots id
        → generation_at slots id.slot ≡ id.generation }
{}

/// Two ids are equal exactly if their slots and their generations are equal.
pub fn an_id_is_its_slot_and_generation()
    ensures { (one other : Id) → IsTrue (is_same_id one other) ↔ (one ≡ other) }
{}

/// An insert gives its id the value and changes no other id. The id had no value before, and its generation is one
/// more than its slot's was.
pub fn an_insert_changes_one_id<T>()
    ensures here { (old new : List (Slot T)) (id : Id) (value : T) → Inserts old new id value
        → (live_value old id ≡ None) × (live_value new id ≡ Some value) }
    ensures others { (old new : List (Slot T)) (id : Id) (value : T) → Inserts old new id value
        → (other : Id) → other ≢ id → live_value new other ≡ live_value old other }
    ensures generation { (old new : List (Slot T)) (id : Id) (value : T) → Inserts old new id value
        → id.generation ≡ generation_at old id.slot + 1 }
    ensures slots { (old new : List (Slot T)) (id : Id) (value : T) → Inserts old new id value
        → length new ≡ length old }
{}

/// A removal takes the value of its id and changes no other id.
pub fn a_removal_changes_one_id<T>()
    ensures here { (old new : List (Slot T)) (id : Id) (value : T) → Removes old new id value
        → (live_value old id ≡ Some value) × (live_value new id ≡ None) }
    ensures others { (old new : List (Slot T)) (id : Id) (value : T) → Removes old new id value
        → (other : Id) → other ≢ id → live_value new other ≡ live_value old other }
    ensures slots { (old new : List (Slot T)) (id : Id) (value : T) → Removes old new id value
        → length new ≡ length old }
{}

/// A past id is never live again and stays past, whatever calls follow.
pub fn past_is_never_live_again<T>()
    ensures never_live { (changes : List (Change T)) (first last : List (Slot T)) → ChangesLead changes first last
        → (id : Id) → IsPast first id → live_value last id ≡ None }
    ensures past { (changes : List (Change T)) (first last : List (Slot T)) → ChangesLead changes first last
        → KeepsPast first last }
{}

/// After any calls, a live id has its value or is past.
pub fn live_keeps_its_value<T>()
    ensures { (changes : List (Change T)) (first last : List (Slot T)) → ChangesLead changes first last
        → IsArena first → (id : Id) (value : T) → live_value first id ≡ Some value
        → (live_value last id ≡ Some value) ⊎ IsPast last id }
{}

/// No id is given twice: ids given by any sequence of calls are distinct, and each has a generation above those that
/// its slot had used before the first call.
pub fn no_id_is_given_twice<T>()
    ensures fresh { (changes : List (Change T)) (first last : List (Slot T)) → ChangesLead changes first last
        → All (λ id. generation_at first id.slot < id.generation) (given_ids changes) }
    ensures once { (changes : List (Change T)) (first last : List (Slot T)) → ChangesLead changes first last
        → AllPairs (λ earlier later. earlier ≢ later) (given_ids changes) }
{}

/// The number of free slots is 0 exactly if each slot has a value or has reached the greatest generation.
pub fn none_is_free_where_the_count_is_zero<T>()
    ensures { (slots : List (Slot T)) → IsArena slots → (free_slots slots ≡ 0) ↔ NoneIsFree slots }
{}

/// Calls preserve the invariant of an arena.
pub fn an_arena_stays_an_arena<T>()
    ensures { (changes : List (Change T)) (first last : List (Slot T)) → ChangesLead changes first last
        → IsArena first → IsArena last }
{}

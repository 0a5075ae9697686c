//! The names of the programs of a script: `p1` is the first program that was loaded, `p2` the next, and so on. A name
//! always names the same program.

ghost use Rattle.std.specs.Prelude.{◌≡◌, ◌≢◌, ℕ, MatchOption, true, IfOk, slice_get};
ghost use Rattle.std.specs.Global.{Vec as TheVec};
ghost use Rattle.gen_arena.specs.declared.id.Id.{Id as TheId};
ghost use Rattle.text_script.specs.inner.Naming.{IsPlaceOf};
ghost use Rattle.text_script.specs.ProgramNames.{number_of_program};

use gen_arena::Id;
use std::alloc::{AllocError, Global};
use std::marker::Model;

/// The ids of the programs of a script, by the numbers in their names, from 1.
#[derive(Drop)]
pub struct Names {
    ids: Vec<Id>,

    /// For each slot, the places in `ids` of the programs that the slot had, in the order of their generations, from 1. So
    /// the number of a program is found without a search, however often the slot was used.
    places: Vec<Vec<usize>>,

    /// Whether `places` has every program of `ids`. That is so if `push` gets each id that one card gives, in order, since a card gives
    /// the generations of a slot one by one. Otherwise `number_of` searches `ids`.
    is_placed: bool,
}

impl Model for Names {
    ghost use Rattle.std.specs.Prelude.{◌≡◌, true, List};
    ghost use Rattle.gen_arena.specs.declared.id.Id.{Id as TheId};
    ghost use Rattle.text_script.specs.inner.Naming.{ArePlaced};

    ghost Value = { List TheId };

    ghost view = { λ names. names.ids.items };

    ghost invariant = { λ names. names.is_placed ≡ true → ArePlaced names.ids.items names.places.items };
}

impl Names {
    ghost use Rattle.std.specs.Prelude.{◌≡◌, ◌∷◌, ◌++◌, [], length, IfOk, OnOk};
    ghost use Rattle.text_script.specs.ProgramNames.{number_of_program, program_named};

    /// Makes an empty table of names, for programs in `slots` slots.
    pub fn new(alloc: Global, slots: usize) -> Result<Names, AllocError>
        ensures { IfOk result (λ names. names ≡ []) }
    {
        let mut places = Vec::with_capacity(alloc, slots)?;
        for _ in 0..slots {
            places.push_reserved(Vec::new(alloc));
        }
        Ok(Names {
            ids: Vec::new(alloc),
            places,
            is_placed: true,
        })
    }

    /// Returns the number of names.
    pub fn count(&self) -> usize
        ensures { result ≡ length self.now }
    {
        self.ids.len()
    }

    /// Returns the program with this number.
    pub fn named(&self, number: u64) -> Option<Id>
        ensures { result ≡ program_named self.now number }
    {
        if number == 0 {
            return None;
        }
        match self.ids.get(number as usize - 1) {
            Some(id) => Some(*id),
            None => None,
        }
    }

    /// Gives the program the next name.
    pub fn push(&mut self, id: Id) -> Result<(), AllocError>
        ensures { OnOk result (self.new ≡ self.old ++ id ∷ []) }
    {
        let is_next = put_place(&mut self.places, id, self.ids.len())?;
        self.is_placed = self.is_placed & is_next;
        self.ids.push(id)?;
        Ok(())
    }

    /// Returns the number in the program's name, or 0 if it has none.
    pub fn number_of(&self, id: Id) -> usize
        ensures { result ≡ number_of_program self.now id }
    {
        if !self.is_placed {
            return searched_number(&self.ids, id);
        }
        let Some(place) = place_of(&self.places, id) else {
            return 0;
        };
        if place >= self.ids.len() {
            return 0;
        }
        if self.ids[place] == id {
            return place + 1;
        }
        0
    }
}

/// Puts a program's place under its slot and generation, if that generation is the slot's next. Returns whether the place was put.
fn put_place(places: &mut Vec<Vec<usize>>, id: Id, place: usize) -> Result<bool, AllocError>
    ensures kept { (other : TheId) (at : ℕ) → IsPlaceOf places.old.items other at → IsPlaceOf places.new.items other at }
    ensures put { IfOk result (λ put. put ≡ true → IsPlaceOf places.new.items id place) }
{
    let slot = usize::from(id.slot);
    if slot >= places.len() {
        return Ok(false);
    }
    let of_slot = &mut places[slot];
    if id.generation as usize != of_slot.len() + 1 {
        return Ok(false);
    }
    of_slot.push(place)?;
    Ok(true)
}

/// Returns the place that was put under the program's slot and generation.
#[inline(always)]
fn place_of(places: &[Vec<usize>], id: Id) -> Option<usize>
    ensures { MatchOption result
        ((place : ℕ) → IsPlaceOf places.now id place → ⊥)
        (λ place. IsPlaceOf places.now id place) }
{
    let slot = usize::from(id.slot);
    if slot >= places.len() || id.generation == 0 {
        return None;
    }
    let of_slot = &places[slot];
    let before = id.generation as usize - 1;
    if before >= of_slot.len() {
        return None;
    }
    Some(of_slot[before])
}

/// Returns the number of a program's latest name, or 0 if the program has none. Searches the ids, from the last to the first.
#[cold]
fn searched_number(ids: &[Id], id: Id) -> usize
    ensures { result ≡ number_of_program ids.now id }
{
    let mut number = ids.len();
    while number > 0 {
        if id == ids[number - 1] {
            return number;
        }
        number -= 1;
    }
    0
}

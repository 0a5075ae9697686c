//! The contents that the paths of a program have at each place.

ghost use Rattle.std.specs.Prelude.{◌<◌, ◌^◌, length};

use crate::contents::{Contents, FIRST, Followed, are_same};
use crate::fault::{Undecided, Unfollowed};
use crate::following::follow;
use bpf_code::Instr;
use std::alloc::Global;

/// The most work, in steps: one for each comparison of contents, and some for contents that are kept. It bounds time and memory.
const MOST_WORK: u32 = 4_194_304;

/// The steps that it costs to keep contents. So at most 16,384 are kept.
const EACH_KEPT: u32 = 256;

/// The contents at each place of a program, and how much work may follow.
#[derive(Drop)]
pub(crate) struct Reached {
    /// The contents, each once, by the place.
    at: Vec<Vec<Contents>>,
    /// How many steps may follow.
    left: u32,
}

impl Reached {
    // no ensures: what is told of contents is proved by itself, whichever are reached
    // no edit: it has no ensures
    /// No contents for this many places.
    fn new(alloc: Global, places: usize) -> Result<Reached, Unfollowed> {
        let mut at = Vec::new(alloc);
        for _ in 0..places {
            at.push(Vec::new(alloc))?;
        }
        Ok(Reached {
            at,
            left: MOST_WORK,
        })
    }

    // no ensures: as `new`
    // no edit: it has no ensures
    /// The contents with index `index` among those at a place.
    pub(crate) fn contents(&self, place: usize, index: usize) -> Option<Contents> {
        match self.at.get(place) {
            None => None,
            Some(all) => match all.get(index) {
                None => None,
                Some(contents) => Some(*contents),
            },
        }
    }

    // no ensures: as `new`
    // no edit: it has no ensures
    /// How many contents there are at a place.
    pub(crate) fn count(&self, place: usize) -> usize {
        match self.at.get(place) {
            None => 0,
            Some(all) => all.len(),
        }
    }

    // no ensures: as `new`
    // no edit: it has no ensures
    /// Takes this many steps from those that may follow. `TooLarge` if fewer are left.
    fn spend(&mut self, work: u32) -> Result<(), Unfollowed> {
        match self.left.checked_sub(work) {
            None => Err(Unfollowed::Undecided(Undecided::TooLarge)),
            Some(left) => {
                self.left = left;
                Ok(())
            }
        }
    }

    // no ensures: as `new`
    // no edit: it has no ensures
    /// Whether these contents are at a place.
    fn has(&mut self, place: usize, contents: &Contents) -> Result<bool, Unfollowed> {
        for index in 0..self.count(place) {
            self.spend(1)?;
            let Some(known) = self.contents(place, index) else {
                return Ok(false);
            };
            if are_same(&known, contents) {
                return Ok(true);
            }
        }
        Ok(false)
    }

    // no ensures: as `new`
    // no edit: it has no ensures
    /// Adds contents at a place, if they aren't there.
    fn add(&mut self, place: usize, contents: &Contents) -> Result<(), Unfollowed> {
        if self.has(place, contents)? {
            return Ok(());
        }
        self.spend(EACH_KEPT)?;
        if let Some(all) = self.at.get_mut(place) {
            all.push(*contents)?;
        }
        Ok(())
    }

    // no ensures: as `new`
    // no edit: it has no ensures
    /// Adds the contents to which an instruction leads from these.
    fn go_on(
        &mut self,
        alloc: Global,
        instr: &Instr,
        place: usize,
        contents: &Contents,
    ) -> Result<(), Unfollowed>
        requires { place < 2 ^ 32 }
    {
        match follow(alloc, instr, place, contents)? {
            Followed::Ends(_) => Ok(()),
            Followed::Continues {
                place: next,
                contents: after,
            } => self.add(next, &after),
            Followed::Branches {
                test: _,
                k: _,
                one,
                other,
            } => {
                self.add(one, contents)?;
                self.add(other, contents)
            }
            Followed::Stops => Err(Unfollowed::At(place)),
        }
    }

    // no ensures: as `new`
    // no edit: it has no ensures
    /// Adds the contents to which the instruction at a place leads.
    fn go_on_from(&mut self, alloc: Global, instr: &Instr, place: usize) -> Result<(), Unfollowed>
        requires { place < 2 ^ 32 }
    {
        for index in 0..self.count(place) {
            if let Some(contents) = self.contents(place, index) {
                self.go_on(alloc, instr, place, &contents)?;
            }
        }
        Ok(())
    }
}

// no ensures: as `new`
// no edit: it has no ensures
/// The contents that the paths of a program have at each place.
///
/// # Errors
///
/// `At` the first place at which an instruction isn't followed from some contents; `TooLarge` if there are too many contents; `NoMemory`
/// if an allocation failed.
pub(crate) fn reach(alloc: Global, code: &[Instr]) -> Result<Reached, Unfollowed>
    requires { length code.now < 2 ^ 32 }
{
    let mut reached = Reached::new(alloc, code.len())?;
    reached.add(0, &FIRST)?;
    for place in 0..code.len() {
        reached.go_on_from(alloc, &code[place], place)?;
    }
    Ok(reached)
}

//! The number of connections that name a program.

ghost use Rattle.std.specs.Prelude.{◌≡◌, length};

use gen_arena::Id;
use std::alloc::Global;
use std::marker::Model;

/// For each place, the number of connections that name a program of this place. A program's place is its slot modulo
/// the number of places.
///
/// A program can be removed only if no connection names it, and a search for one takes as many steps as the card has
/// connections. A count of 0 shows that no connection names the program. Programs can have the same place, so with any
/// other count the connections have to be looked at.
#[derive(Debug, Drop)]
pub(crate) struct ProgramUses {
    counts: Vec<u16>,
}

impl Model for ProgramUses {
    ghost use Rattle.std.specs.Prelude.{List, ℕ, ◌<◌, length};

    ghost Value = { List ℕ };

    ghost view = { λ u. u.counts.items };

    ghost invariant = { λ u. 0 < length u.counts.items };
}

impl ProgramUses {
    ghost use Rattle.std.specs.Prelude.{◌≡◌, ◌+◌, ◌-◌, ◌<◌, ◌↔◌, length, replicate, IfSome, IsTrue};
    ghost use Rattle.line_record.specs.inner.ProgramUses.{use_place, uses_of, with_uses};

    /// Makes this number of places with count 0. Returns None if an allocation fails.
    pub(crate) fn new(alloc: Global, places: u16) -> Option<Self>
        requires { 0 < places }
        ensures { IfSome result (λ uses. uses ≡ replicate places 0) }
    {
        let counts = vec![in alloc; 0; usize::from(places)].ok()?;
        Some(ProgramUses { counts })
    }

    /// Returns whether the count at the program's place is 0.
    pub(crate) fn is_unused(&self, program: Id) -> bool
        ensures { IsTrue result ↔ (uses_of self.now program ≡ 0) }
    {
        self.counts[self.place(program)] == 0
    }

    /// Adds a use of the program.
    pub(crate) fn add(&mut self, program: Id)
        requires { uses_of self.old program < 65535 }
        ensures { self.new ≡ with_uses self.old program (uses_of self.old program + 1) }
    {
        let place = self.place(program);
        self.counts[place] += 1;
    }

    /// Removes a use of the program.
    pub(crate) fn remove(&mut self, program: Id)
        requires { 0 < uses_of self.old program }
        ensures { self.new ≡ with_uses self.old program (uses_of self.old program - 1) }
    {
        let place = self.place(program);
        self.counts[place] -= 1;
    }

    /// Returns the place of a program.
    fn place(&self, program: Id) -> usize
        ensures place { result ≡ use_place self.now program }
        ensures within { result < length self.now }
    {
        usize::from(program.slot) % self.counts.len()
    }
}

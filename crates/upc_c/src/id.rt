//! The ids of programs, as C has them.

ghost use Rattle.std.specs.Prelude.{◌≡◌};
ghost use Rattle.upc_c.specs.CardDesk.{id_of, id_for_c};

use gen_arena::Id;

/// The id of a program on a card: the number of its slot, from 0, and the number of times that the slot was given.
#[repr(C)]
#[derive(Clone, Copy, Debug)]
pub struct UpcId {
    /// The number of the slot.
    pub slot: u16,
    /// The number of times that the slot was given, this time included.
    pub generation: u32,
}

/// Returns the id with these numbers.
pub(crate) fn id_of(given: &UpcId) -> Id
    ensures { result ≡ id_of given.now }
{
    Id {
        slot: given.slot,
        generation: given.generation,
    }
}

/// Returns the id as C has it.
pub(crate) fn id_for_c(id: Id) -> UpcId
    ensures id { id ≡ id_of result }
    ensures numbers { result ≡ id_for_c id }
{
    UpcId {
        slot: id.slot,
        generation: id.generation,
    }
}

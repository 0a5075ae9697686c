//! Ids of values in an arena.

/// The id of a value in an arena: the number of its slot, from 0, and the generation of that slot when the value was
/// inserted.
///
/// An id is plain data; only the arena knows whether it is live. Ids are ordered by slot, then by generation.
#[derive(Clone, Copy, Debug, PartialEq, Eq, PartialOrd, Ord, Hash)]
pub struct Id {
    pub slot: u16,
    pub generation: u32,
}

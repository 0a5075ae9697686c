//! The labels of a source and their places.

ghost use Rattle.std.specs.Prelude.{◌≡◌, ℕ, List, Some, None, if◌then◌else◌, IfOk, OnErr};
ghost use Rattle.std.specs.Option.{is_none};
ghost use Rattle.std.specs.Str.{bytes_eq};
ghost use Rattle.bpf_asm.specs.inner.LabelPlaces.{tail_number};

use std::alloc::{AllocError, Global};
use std::collections::BTreeMap;

/// The place of each label. A key holds the last eight octets of the name as one number, and then the name, so
/// that most comparisons of two keys compare two numbers.
#[derive(Drop)]
pub(crate) struct Labels<'a> {
    pub places: BTreeMap<(u64, &'a [u8]), usize>,
}

/// 2^56: 64 bits have room for a number below this and one more octet.
const LOW_OCTETS: u64 = 72057594037927936;

/// Returns the last eight octets of a name as one number.
#[inline(always)]
fn tail(name: &[u8]) -> u64
    ensures { result ≡ tail_number name.now }
{
    let mut number = 0;
    for octet in name {
        number = number % LOW_OCTETS * 256 + u64::from(*octet);
    }
    number
}

impl<'a> Labels<'a> {
    ghost use Rattle.bpf_asm.specs.inner.LabelPlaces.{label_place};

    /// Returns a map without labels.
    pub(crate) fn new(alloc: Global) -> Labels<'a>
        ensures { (name : List ℕ) → label_place result name ≡ None }
    {
        Labels {
            places: BTreeMap::new(alloc),
        }
    }

    /// Returns the place of a name, if it has one.
    pub(crate) fn find(&self, name: &'a [u8]) -> Option<usize>
        ensures { result ≡ label_place self.now name.entry.now }
    {
        self.places.get(&(tail(name), name)).copied()
    }

    /// Sets the place of a name. Returns whether the name is new.
    pub(crate) fn define(&mut self, name: &'a [u8], place: usize) -> Result<bool, AllocError>
        ensures fresh { IfOk result (λ fresh. fresh ≡ is_none (label_place self.old name.entry.now)) }
        ensures places { IfOk result (λ _. (other : List ℕ) → label_place self.new other
            ≡ (if bytes_eq name.entry.now other then Some place else label_place self.old other)) }
    {
        let before = self.places.insert((tail(name), name), place)?;
        Ok(before.is_none())
    }
}

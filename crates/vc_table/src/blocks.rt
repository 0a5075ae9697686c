//! Blocks of 64 numbers, and which of the blocks are free.

ghost use Rattle.std.specs.Prelude.{◌≡◌, ◌≢◌, ◌+◌, ◌*◌, ◌<◌, ◌≤◌, ℕ, ◌↔◌, length, replicate, [], ◌∷◌, slice_index, IfSome, IfErr, OnOk, IsTrue};
ghost use Rattle.vc_table.specs.inner.Pool.{pool_of, MayGrow, IsZeros};

use crate::fault::TableFault;
use std::alloc::Global;

/// How many numbers a block has. They take 128 octets, two lines of a usual cache.
pub(crate) const SIZE: usize = 64;

/// A row of blocks of 64 numbers. A block is known by its number, from 0. Block 0 has only zeros and is never written: a
/// link of 0 leads there, so a look-up needs no test at each level.
///
/// The free blocks form a list: each names the next free block, and the last names 0. A free block has only zeros.
#[derive(Debug, Drop)]
pub(crate) struct Blocks {
    /// The numbers of all blocks, one block after another.
    pub(crate) entries: Vec<u16>,
    /// For each free block, the next free block of the list, or 0. For other blocks the number means nothing.
    pub(crate) next: Vec<u16>,
    /// The first free block, or 0 if no block is free.
    pub(crate) first: u16,
}

/// Makes a row that has block 0 alone. Returns None if an allocation fails.
pub(crate) fn new(alloc: Global) -> Option<Blocks>
    ensures { IfSome result (λ blocks. pool_of blocks
        ≡ (record { entries = replicate 64 0; next = 0 ∷ []; first = 0 })) }
{
    let entries = vec![in alloc; 0; SIZE].ok()?;
    let next = vec![in alloc; 0; 1].ok()?;
    Some(Blocks {
        entries,
        next,
        first: 0,
    })
}

/// Makes a free block in each of the two rows that has none. The error is `NoMemory` if an allocation fails, and `Full` if such a row
/// has 65,536 blocks.
pub(crate) fn ready_both(upper: &mut Blocks, lower: &mut Blocks) -> Result<(), TableFault>
    requires upper_some { 0 < length upper.old.next.items }
    requires upper_sized { length upper.old.entries.items ≡ 64 * length upper.old.next.items }
    requires lower_some { 0 < length lower.old.next.items }
    requires lower_sized { length lower.old.entries.items ≡ 64 * length lower.old.next.items }
    ensures upper { MayGrow (pool_of upper.old) (pool_of upper.new) }
    ensures lower { MayGrow (pool_of lower.old) (pool_of lower.new) }
    ensures upper_ready { OnOk result (upper.new.first ≢ 0) }
    ensures lower_ready { OnOk result (lower.new.first ≢ 0) }
    ensures fault { IfErr result (λ fault. fault ≢ TableFault.LineTooLarge) }
{
    if let Err(fault) = ready(upper) {
        return Err(fault);
    }
    ready(lower)
}

/// Makes a free block if there is none. The error is `NoMemory` if an allocation fails, and `Full` if there are 65,536 blocks.
fn ready(blocks: &mut Blocks) -> Result<(), TableFault>
    requires some { 0 < length blocks.old.next.items }
    requires sized { length blocks.old.entries.items ≡ 64 * length blocks.old.next.items }
    ensures grows { MayGrow (pool_of blocks.old) (pool_of blocks.new) }
    ensures ready { OnOk result (blocks.new.first ≢ 0) }
    ensures fault { IfErr result (λ fault. fault ≢ TableFault.LineTooLarge) }
{
    if blocks.first != 0 {
        return Ok(());
    }
    let Ok(number) = u16::try_from(blocks.next.len()) else {
        return Err(TableFault::Full);
    };
    if blocks.next.push(0).is_err() {
        return Err(TableFault::NoMemory);
    }
    let length = SIZE * (usize::from(number) + 1);
    match blocks.entries.resize(length, 0) {
        Ok(()) => {
            blocks.first = number;
            Ok(())
        }
        Err(_) => {
            let _ = blocks.next.pop();
            Err(TableFault::NoMemory)
        }
    }
}

/// Makes this many zeros. Returns None if an allocation fails.
#[tactic(auto, using(crate::proofs::PoolLemmas::zero_steps))]
pub(crate) fn zeros(alloc: Global, count: usize) -> Option<Vec<u16>>
    ensures { IfSome result (λ numbers. IsZeros count numbers.items) }
{
    vec![in alloc; 0; count].ok()
}

/// Returns whether the block has only zeros.
pub(crate) fn is_blank(entries: &[u16], block: u16) -> bool
    requires { 64 * block + 64 ≤ length entries.now }
    ensures { IsTrue result ↔ ((k : ℕ) → k < 64 → slice_index entries.now (64 * block + k) ≡ 0) }
{
    let start = SIZE * usize::from(block);
    entries[start..start + SIZE]
        .iter()
        .all(|number| *number == 0)
}

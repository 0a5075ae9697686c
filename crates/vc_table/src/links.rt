//! Links to blocks: the numbers of blocks, at places of a list.

ghost use Rattle.std.specs.Prelude.{◌≡◌, ◌≢◌, ◌+◌, ◌*◌, ◌<◌, ℕ, length, slice_index, slice_set};
ghost use Rattle.vc_table.specs.inner.Pool.{pool_of};
ghost use Rattle.vc_table.specs.inner.Linked.{IsLinked, HasSameBelow};

use crate::blocks::Blocks;

/// Returns the block that the link at this place leads to. If it leads nowhere, it gets the first free block.
pub(crate) fn linked(links: &mut Vec<u16>, place: usize, blocks: &mut Blocks) -> u16
    requires linked { IsLinked links.old.items (pool_of blocks.old) }
    requires within { place < length links.old.items }
    requires ready { blocks.old.first ≢ 0 }
    ensures kept { IsLinked links.new.items (pool_of blocks.new) }
    ensures links { links.new.items ≡ slice_set links.old.items place result }
    ensures here { slice_index links.new.items place ≡ result }
    ensures somewhere { result ≢ 0 }
    ensures entries { blocks.new.entries.items ≡ blocks.old.entries.items }
    ensures same { HasSameBelow links.old.items links.new.items blocks.old.entries.items }
{
    let block = links[place];
    if block != 0 {
        return block;
    }
    let free = blocks.first;
    blocks.first = blocks.next[usize::from(free)];
    links[place] = free;
    free
}

/// Makes the link at this place lead nowhere. The block that it led to, which has only zeros, becomes free.
pub(crate) fn unlink(links: &mut Vec<u16>, place: usize, blocks: &mut Blocks)
    requires linked { IsLinked links.old.items (pool_of blocks.old) }
    requires within { place < length links.old.items }
    requires somewhere { slice_index links.old.items place ≢ 0 }
    requires blank { (k : ℕ) → k < 64
        → slice_index blocks.old.entries.items (64 * slice_index links.old.items place + k) ≡ 0 }
    ensures kept { IsLinked links.new.items (pool_of blocks.new) }
    ensures links { links.new.items ≡ slice_set links.old.items place 0 }
    ensures entries { blocks.new.entries.items ≡ blocks.old.entries.items }
    ensures same { HasSameBelow links.old.items links.new.items blocks.old.entries.items }
{
    let block = links[place];
    links[place] = 0;
    blocks.next[usize::from(block)] = blocks.first;
    blocks.first = block;
}

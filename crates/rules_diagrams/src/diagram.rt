//! Diagrams and the nodes that they are made of.

/// A diagram: its number, or the node at which it begins.
#[derive(Clone, Copy, PartialEq, Eq)]
pub(crate) enum Diagram {
    /// Gives every cell this number.
    Leaf(u32),
    /// The node of this number decides. Nodes are counted from 0, the oldest first.
    Inner(u32),
}

/// A node: a bit, and the diagrams of the cells in which it isn't set and in which it is. Both are made of older nodes, and ask only for
/// later bits.
#[derive(Clone, Copy, PartialEq, Eq)]
pub(crate) struct Node {
    /// The bit. Bit 0 is the highest bit of the first octet, bit 415 the lowest bit of the last.
    pub bit: u16,
    /// The diagram of the cells in which the bit isn't set.
    pub low: Diagram,
    /// The diagram of the cells in which it is set.
    pub high: Diagram,
}

/// The diagrams of the cells in which a bit isn't set and in which it is.
#[derive(Clone, Copy)]
pub(crate) struct Sides {
    /// The diagram of the cells in which the bit isn't set.
    pub low: Diagram,
    /// The diagram of the cells in which the bit is set.
    pub high: Diagram,
}

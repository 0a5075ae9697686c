//! Cells that were read and not answered yet.

ghost use Rattle.std.specs.Prelude.{◌≡◌, []};

use crate::captured_cell::CapturedCell;
use std::alloc::Global;
use std::mem;

/// Cells that were read and not answered yet.
#[derive(Drop)]
pub(crate) struct Queue {
    /// The cells, in order.
    pub(crate) cells: Vec<CapturedCell>,
    /// Room for the cells that are read next.
    pub(crate) spare: Vec<CapturedCell>,
}

impl Queue {
    /// Makes a queue without cells.
    pub(crate) fn new(alloc: Global) -> Queue
        ensures cells { result.cells.items ≡ [] }
        ensures spare { result.spare.items ≡ [] }
    {
        Queue {
            cells: Vec::new(alloc),
            spare: Vec::new(alloc),
        }
    }

    /// Replaces the cells, which were answered, by those that were read after them.
    pub(crate) fn take_next_cells(&mut self)
        ensures cells { self.new.cells.items ≡ self.old.spare.items }
        ensures spare { self.new.spare.items ≡ [] }
    {
        self.cells.clear();
        mem::swap(&mut self.cells, &mut self.spare);
    }
}

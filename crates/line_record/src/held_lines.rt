//! The held lines of a card, and the lowest free one.

ghost use Rattle.std.specs.Prelude.{◌≡◌, ◌≤◌, length, replicate, IfSome};
ghost use Rattle.line_record.specs.inner.FirstFree.{IsFirstFree, HasFreeBelow};

use memchr::memchr;
use std::alloc::Global;
use std::marker::Model;

/// The mark of a free line.
const FREE: u8 = 0;

/// The mark of a held line.
const HELD: u8 = 1;

/// For each line, numbered from 0, whether it is held.
///
/// A setup gets the lowest free line, in whatever order lines were freed, so the same setups and releases give the same
/// lines. A search from line 0 on would cost n setups n * n / 2 steps, so the lowest free line is stored. When that line
/// becomes held, `memchr` finds the next free line, looking at many lines at once.
///
/// A card is often full. So a bound on the free lines is stored too, and the search ends there. When the last free line
/// becomes held, the bound is 0; when one line of a full card becomes free, the bound is just above it. So a release and
/// a setup on a full card search nothing.
#[derive(Debug, Drop)]
pub(crate) struct HeldLines {
    /// The mark of each line.
    marks: Vec<u8>,
    /// The lowest free line, or the number of lines if all are held.
    lowest: u16,
    /// No line from this number on is free.
    above: u16,
}

impl Model for HeldLines {
    ghost use Rattle.std.specs.Prelude.{List, Bool};
    ghost use Rattle.line_record.specs.inner.FirstFree.{are_held, KnowsLowest};

    ghost Value = { List Bool };

    ghost view = { λ h. are_held h.marks.items };

    ghost invariant = { λ h. KnowsLowest h.marks.items h.lowest h.above };
}

impl HeldLines {
    ghost use Rattle.std.specs.Prelude.{◌≡◌, ◌<◌, ℕ, length, replicate, slice_get, slice_set, true, false, Some, IfSome, MatchOption};

    /// Makes this number of free lines. Returns None if an allocation fails.
    pub(crate) fn new(alloc: Global, lines: u16) -> Option<Self>
        ensures { IfSome result (λ held. held ≡ replicate lines false) }
    {
        let marks = free_marks(alloc, lines)?;
        Some(HeldLines {
            marks,
            lowest: 0,
            above: lines,
        })
    }

    /// Returns the lowest free line, if there is one.
    pub(crate) fn lowest_free(&self) -> Option<u16>
        ensures free { MatchOption result
            ((line : ℕ) → line < length self.now → slice_get self.now line ≡ Some true)
            (λ line. slice_get self.now line ≡ Some false) }
        ensures lowest { IfSome result (λ line.
            (lower : ℕ) → lower < line → slice_get self.now lower ≡ Some true) }
    {
        if usize::from(self.lowest) < self.marks.len() {
            Some(self.lowest)
        } else {
            None
        }
    }

    /// Marks the line as held.
    #[tactic(auto, using(crate::proofs::MarkLemmas::mark_steps))]
    pub(crate) fn hold(&mut self, line: u16)
        requires { line < length self.old }
        ensures { self.new ≡ slice_set self.old line true }
    {
        self.marks[usize::from(line)] = HELD;
        if line == self.lowest {
            self.lowest = first_free(&self.marks, line + 1, self.above);
        }
        // If all lines are held, the bound becomes 0, so that the next line that is freed sets it. Otherwise it would stay at the end of
        // a card that was filled from line 0 on.
        if usize::from(self.lowest) == self.marks.len() {
            self.above = 0;
        } else if line + 1 == self.above {
            self.above = line;
        }
    }

    /// Marks the line as free.
    #[tactic(auto, using(crate::proofs::MarkLemmas::mark_steps))]
    pub(crate) fn free(&mut self, line: u16)
        requires { line < length self.old }
        ensures { self.new ≡ slice_set self.old line false }
    {
        self.marks[usize::from(line)] = FREE;
        if line < self.lowest {
            self.lowest = line;
        }
        if line >= self.above {
            self.above = line + 1;
        }
    }
}

/// Returns the marks of this number of free lines, or None if an allocation fails.
fn free_marks(alloc: Global, lines: u16) -> Option<Vec<u8>>
    ensures { IfSome result (λ marks. marks.items ≡ replicate lines FREE) }
{
    vec![in alloc; FREE; usize::from(lines)].ok()
}

/// Returns the first free line from `start` on, or the number of lines if there is none. No line from `end` on is free.
fn first_free(marks: &[u8], start: u16, end: u16) -> u16
    requires within { start ≤ end }
    requires bound { HasFreeBelow marks.now end }
    requires few { length marks.now ≤ 65535 }
    ensures { IsFirstFree marks.now start result }
{
    let (below, _) = marks.split_at(usize::from(end));
    let (_, searched) = below.split_at(usize::from(start));
    match memchr(FREE, searched) {
        Some(more) => start + more as u16,
        None => marks.len() as u16,
    }
}

//! The counts of verdicts.

use crate::line::MOST_CELLS;
use leaky::Verdict;

/// The number of cells with each verdict.
#[derive(Clone, Copy, Debug, Default, PartialEq, Eq)]
pub struct Tally {
    pub passed: u64,
    pub tagged: u64,
    pub discarded: u64,
    pub refused: u64,
}

impl Tally {
    ghost use Rattle.std.specs.Prelude.{◌≡◌, ◌+◌, ◌^◌, ◌<◌, ◌↔◌, IsTrue};
    ghost use Rattle.line_record.specs.Tally.{nothing, counted, count_of, cells_in, plus, total, HasRoom, FitsWords};

    /// Returns the tally of no cell.
    #[inline]
    pub fn new() -> Self
        ensures { result ≡ nothing }
    {
        Tally {
            passed: 0,
            tagged: 0,
            discarded: 0,
            refused: 0,
        }
    }

    /// Returns the number of cells with this verdict.
    #[inline]
    pub fn of(&self, verdict: Verdict) -> u64
        ensures { result ≡ count_of self.now verdict }
    {
        match verdict {
            Verdict::Pass => self.passed,
            Verdict::Tag => self.tagged,
            Verdict::Discard => self.discarded,
            Verdict::Refuse => self.refused,
        }
    }

    /// Counts one more cell with this verdict.
    #[inline(always)]
    pub fn count(&mut self, verdict: Verdict)
        requires { count_of self.old verdict + 1 < 2 ^ 64 }
        ensures { self.new ≡ counted self.old verdict }
    {
        match verdict {
            Verdict::Pass => self.passed += 1,
            Verdict::Tag => self.tagged += 1,
            Verdict::Discard => self.discarded += 1,
            Verdict::Refuse => self.refused += 1,
        }
    }

    /// Returns the number of all cells.
    #[inline]
    pub fn cells(&self) -> u64
        requires { cells_in self.now < 2 ^ 64 }
        ensures { result ≡ cells_in self.now }
    {
        self.passed + self.tagged + self.discarded + self.refused
    }

    /// Returns whether each number is below 2^62, so that one more cell of any verdict can be counted.
    #[inline]
    pub fn has_room(&self) -> bool
        ensures { IsTrue result ↔ HasRoom self.now }
    {
        self.passed < MOST_CELLS
            && self.tagged < MOST_CELLS
            && self.discarded < MOST_CELLS
            && self.refused < MOST_CELLS
    }

    /// Returns the sum of both tallies.
    #[inline]
    pub fn plus(self, other: Tally) -> Tally
        requires { FitsWords (plus self other) }
        ensures { result ≡ plus self other }
    {
        Tally {
            passed: self.passed + other.passed,
            tagged: self.tagged + other.tagged,
            discarded: self.discarded + other.discarded,
            refused: self.refused + other.refused,
        }
    }

    /// Returns the sum of all these tallies.
    pub fn total(tallies: &[Tally]) -> Tally
        requires { FitsWords (total tallies.now) }
        ensures { result ≡ total tallies.now }
    {
        let mut sum = Tally::new();
        for tally in tallies {
            sum = sum.plus(*tally);
        }
        sum
    }
}

//! The entries of a journal.

use gen_arena::Id;
use leaky::Verdict;

/// A judged cell in a journal. In this order its fields take 24 octets; with the small ones in between they would take
/// 32.
#[derive(Clone, Copy, Debug, PartialEq, Eq)]
pub struct Entry {
    /// The moment of arrival, in ticks.
    pub moment: u64,
    /// The program that gave the value.
    pub program: Id,
    /// The value that the program gave: the number of a contract, counted from 1, or any other number, which names none.
    pub value: u32,
    /// The cell loss priority on arrival.
    pub clp: bool,
    pub verdict: Verdict,
}

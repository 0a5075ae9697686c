//! The answers to a cell that arrived.

ghost use Rattle.std.specs.Prelude.{◌≡◌, Ok};
ghost use Rattle.card_core.specs.Sections.{answer_for, answer_to, unjudged_answer};
ghost use Rattle.card_core.specs.Steps.{cell_after};

use gen_arena::Id;
use leaky::Verdict;
use line_record::LineFault;
use upc_cell::Cell;

/// The answer to a cell that arrived. A Pick or a Judge with any other answer than `Judged` changes only the port.
#[derive(Clone, Copy, Debug, PartialEq, Eq)]
pub enum Answer {
    /// The cell was judged.
    Judged {
        /// The number of the line, from 0.
        line: u16,
        /// How many cells with this verdict were judged on the line, this one included.
        number: u64,
        /// The moment of arrival, in ticks.
        moment: u64,
        /// The value that the program gave: the number of a contract, counted from 1, or any other number, which names none.
        value: u32,
        /// The program that gave the value.
        program: Id,
        verdict: Verdict,
        /// The leaving cell: tagged if the verdict is Tag, otherwise unchanged.
        cell: Cell,
    },
    /// The cell belongs to no connection.
    NoConnection,
    /// The picked connection is gone.
    Released,
    /// The picked program isn't live. The core never returns this.
    Stale,
    /// The moment is before that of the connection's last judged cell.
    MomentBack {
        /// The moment of that cell.
        last: u64,
    },
    /// The moment is above 2^62.
    MomentTooLate,
    /// The connection's journal is full, or 2^62 cells were judged on the line.
    JournalFull,
    /// An allocation failed. No cell gets this answer: judging doesn't allocate.
    NoMemory,
}

/// The answer to a judged cell without the cell itself, which the caller has.
#[derive(Clone, Copy, Debug, PartialEq, Eq)]
pub struct Judgement {
    /// How many cells with this verdict were judged on the line, this one included.
    pub number: u64,
    /// The moment of arrival, in ticks.
    pub moment: u64,
    /// The program that gave the value.
    pub program: Id,
    /// The value that the program gave: the number of a contract, counted from 1, or any other number, which names none.
    pub value: u32,
    /// The number of the line, from 0.
    pub line: u16,
    pub verdict: Verdict,
}

/// The reason why a cell that arrived isn't judged. It is small; an [`Answer`] has space for a cell.
#[derive(Clone, Copy, Debug, PartialEq, Eq)]
pub enum Unjudged {
    /// The cell belongs to no connection.
    NoConnection,
    /// The picked connection is gone.
    Released,
    /// The picked program isn't live. The core never returns this.
    Stale,
    /// The line can't judge the cell, for this reason.
    LineFault(LineFault),
}

impl Judgement {
    /// Returns the answer to this cell, with the cell as it leaves.
    pub fn answer(self, cell: &Cell) -> Answer
        ensures { result ≡ answer_to cell.now (Ok self) }
    {
        Answer::Judged {
            line: self.line,
            number: self.number,
            moment: self.moment,
            value: self.value,
            program: self.program,
            verdict: self.verdict,
            cell: leaving(self.verdict, cell),
        }
    }
}

/// Returns the tagged form of the cell if the verdict is Tag, otherwise the cell as it arrived.
fn leaving(verdict: Verdict, cell: &Cell) -> Cell
    ensures { result ≡ cell_after verdict cell.now }
{
    match verdict {
        Verdict::Tag => cell.tagged(),
        Verdict::Pass | Verdict::Discard | Verdict::Refuse => *cell,
    }
}

impl Unjudged {
    /// Returns the answer to the cell.
    pub fn answer(self) -> Answer
        ensures { result ≡ unjudged_answer self }
    {
        match self {
            Unjudged::NoConnection => Answer::NoConnection,
            Unjudged::Released => Answer::Released,
            Unjudged::Stale => Answer::Stale,
            Unjudged::LineFault(fault) => refusal_of(fault),
        }
    }
}

/// Returns the answer for an error of a line.
fn refusal_of(fault: LineFault) -> Answer
    ensures { result ≡ answer_for fault }
{
    match fault {
        LineFault::TooLate => Answer::MomentTooLate,
        LineFault::Back(last) => Answer::MomentBack { last },
        LineFault::Full => Answer::JournalFull,
        LineFault::NoMemory => Answer::NoMemory,
    }
}

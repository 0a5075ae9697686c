//! What a comparison or a search found, and how its run ends.

ghost use Rattle.std.specs.Prelude.{◌≡◌};
ghost use Rattle.cmd_differ.specs.Findings.{ended_by, finding_done};

use text_io::{Done, Ending, RunFault};

/// What `unused` found of one text of rules, or `differ` of two texts, each of rules or with a program.
#[derive(Clone, Copy)]
pub enum Finding {
    /// `differ`: both texts give each cell the same value. `unused`: each rule decides some cell.
    Nothing,
    /// `differ`: the texts give some cell two values. `unused`: some rule decides no cell.
    Something,
    /// A text has a fault.
    Faulty,
    /// Nothing is decided: a limit of the comparison was met, or a program isn't followed at one of its instructions.
    Undecided,
}

/// How a run with this finding ends.
pub(crate) fn done_of(finding: Finding) -> Done
    ensures { result ≡ finding_done finding }
{
    match finding {
        Finding::Nothing => Done::Whole,
        Finding::Something | Finding::Faulty | Finding::Undecided => Done::Ended,
    }
}

/// How a run with this result ends: `Whole` if nothing was found, and `Ended` after any other finding.
pub fn ended_by(found: Result<Finding, RunFault>) -> Ending
    ensures { result ≡ ended_by found }
{
    match found {
        Ok(finding) => Ok(done_of(finding)),
        Err(fault) => Err(fault),
    }
}

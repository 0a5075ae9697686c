//! The sides of a comparison, and their diagrams.

ghost use Rattle.std.specs.Prelude.{◌≡◌, IfOk};
ghost use Rattle.rules_diagrams.specs.inner.CaseLists.{IsShown, decision_with};
ghost use Rattle.rules_diagrams.specs.inner.Values.{IsWithin};

use crate::diagram::Diagram;
use crate::fault::Unfollowed;
use crate::lines::deciding_lines;
use crate::program::program_diagram;
use crate::store::Diagrams;
use bpf_code::Instr;
use rules_cells::{Decision, Rules, decide};
use std::alloc::Global;
use upc_cell::Cell;

/// A side of a comparison: rules, or a program.
#[derive(Clone, Copy)]
pub enum Compared<'a> {
    /// Rules, which decide each cell by a line or otherwise.
    Rules(&'a Rules),
    /// The code of a program, which gives each cell a value.
    Program(&'a [Instr]),
}

/// What is decided for a cell to which the diagram gives this number. Of a program the number is the value. Of rules it stands only for
/// the line and has no value, so `decide` goes through the rules once more for the cell.
pub(crate) fn decision_with(compared: Compared<'_>, cell: &Cell, number: u32) -> Decision
    ensures { result ≡ decision_with compared.entry cell.now number }
{
    match compared {
        Compared::Rules(rules) => decide(rules, cell),
        Compared::Program(_) => Decision {
            line: None,
            value: number,
        },
    }
}

/// The diagram of a side: it gives each cell the number of the line that decides the cell, or the value of the program.
pub(crate) fn shown(
    alloc: Global,
    diagrams: &mut Diagrams,
    compared: Compared<'_>,
) -> Result<Diagram, Unfollowed>
    ensures within { IfOk result (IsWithin diagrams.new) }
    ensures shown { IfOk result (IsShown diagrams.new compared.entry) }
{
    match compared {
        Compared::Rules(rules) => Ok(deciding_lines(alloc, diagrams, rules)?),
        Compared::Program(code) => program_diagram(alloc, diagrams, code),
    }
}

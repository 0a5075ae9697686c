//! The sides of a comparison.

ghost use Rattle.std.specs.Prelude.{◌≡◌, IfOk};
ghost use Rattle.cmd_differ.specs.DifferText.{AreSideCases};
ghost use Rattle.cmd_differ.specs.inner.SidesRead.{IsShownAs, side_read};

use bpf_code::Instr;
use rules_diagrams::{Case, Compared, Uncompared, compare_sides};
use rules_text::PlacedRules;
use std::alloc::Global;

/// A text that was read.
#[derive(Drop)]
pub(crate) enum SideText {
    /// Its rules, and where their lines begin.
    Rules(PlacedRules),
    /// The code of its program.
    Program(Vec<Instr>),
}

/// What is compared of a side.
fn shown(side: &SideText) -> Compared<'_>
    ensures { IsShownAs side.now result }
{
    match side {
        SideText::Rules(placed_rules) => Compared::Rules(&placed_rules.rules),
        SideText::Program(code) => Compared::Program(code.as_slice()),
    }
}

/// The cases of what both sides decide for cells.
pub(crate) fn side_cases(
    alloc: Global,
    old: &SideText,
    new: &SideText,
) -> Result<Vec<Case>, Uncompared>
    ensures { IfOk result (λ cases. AreSideCases (side_read old.now) (side_read new.now) cases.items) }
{
    compare_sides(alloc, shown(old), shown(new))
}

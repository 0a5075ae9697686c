//! The comparison of rules or programs.

ghost use Rattle.std.specs.Prelude.{◌≡◌, ◌==◌, ◌↔◌, ℕ, List, map, IfOk, IsTrue};
ghost use Rattle.rules_diagrams.specs.Cases.{AreCases, AreCasesOf, GiveOneValue, GiveSame};
ghost use Rattle.rules_diagrams.specs.ComparedCases.{AreComparedCases};
ghost use Rattle.rules_diagrams.specs.inner.CaseLists.{IsShown, case_of, have_one_value};
ghost use Rattle.rules_diagrams.specs.inner.Values.{IsWithin};
ghost use Rattle.rules_cells.specs.declared.deciding.Decision.{Decision as Decided};
ghost use Rattle.rules_cells.specs.declared.rules.Rules.{Rules as Written};

use crate::case::Case;
use crate::compared::{Compared, decision_with, shown};
use crate::diagram::Diagram;
use crate::fault::{Uncompared, Undecided, Unfollowed};
use crate::lines::deciding_lines;
use crate::meeting::{Both, Meeting};
use crate::store::Diagrams;
use crate::walk::meetings;
use rules_cells::{Rules, laws};
use std::alloc::Global;

/// The case that belongs to a meeting: what both sides decide for its cell.
fn case_of(old: Compared<'_>, new: Compared<'_>, meeting: &Meeting) -> Case
    ensures { result ≡ case_of old.entry new.entry meeting.now }
{
    Case {
        old: decision_with(old, &meeting.cell, meeting.one),
        new: decision_with(new, &meeting.cell, meeting.other),
        cell: meeting.cell,
    }
}

/// The cases of meetings.
fn cases_of(
    alloc: Global,
    old: Compared<'_>,
    new: Compared<'_>,
    meetings: &[Meeting],
) -> Result<Vec<Case>, Undecided>
    ensures { IfOk result (λ cases. cases.items ≡ map (case_of old.entry new.entry) meetings.now) }
{
    let mut cases = Vec::new(alloc);
    for meeting in meetings {
        cases.push(case_of(old, new, meeting))?;
    }
    Ok(cases)
}

/// Compares old and new rules: returns each pair of decisions that they make for some cell, once, with the least such cell. The cases are
/// in the order of these cells.
///
/// # Errors
///
/// `TooLarge` if there are too many cases to decide: more than [`MOST_NODES`](crate::MOST_NODES) nodes for one side, more than
/// [`MOST_STEPS`](crate::MOST_STEPS) steps, or more than [`MOST_MEETINGS`](crate::MOST_MEETINGS) cases. `NoMemory` if an allocation failed.
pub fn compare(alloc: Global, old: &Rules, new: &Rules) -> Result<Vec<Case>, Undecided>
    ensures { IfOk result (λ cases. AreCases old.now new.now cases.items) }
{
    // A law of `rules_cells`. It does nothing at run time; its contract is a fact that this proof needs.
    laws::the_first_rule_decides();
    let mut one = Diagrams::new(alloc)?;
    let mut other = Diagrams::new(alloc)?;
    let both = Both {
        one: deciding_lines(alloc, &mut one, old)?,
        other: deciding_lines(alloc, &mut other, new)?,
    };
    let met = meetings(alloc, &one, &other, both)?;
    let cases = cases_of(alloc, Compared::Rules(old), Compared::Rules(new), &met)?;
    Ok(cases)
}

/// The diagram of one side. If its program isn't followed, `is_old` says whether the fault is of the old side or of the new one.
fn side_shown(
    alloc: Global,
    diagrams: &mut Diagrams,
    compared: Compared<'_>,
    is_old: bool,
) -> Result<Diagram, Uncompared>
    ensures within { IfOk result (IsWithin diagrams.new) }
    ensures shown { IfOk result (IsShown diagrams.new compared.entry) }
{
    match shown(alloc, diagrams, compared) {
        Ok(diagram) => Ok(diagram),
        Err(Unfollowed::At(place)) => Err(if is_old {
            Uncompared::Old(place)
        } else {
            Uncompared::New(place)
        }),
        Err(Unfollowed::Undecided(why)) => Err(Uncompared::Undecided(why)),
    }
}

/// Compares an old and a new side, each rules or a program, and returns the cases as [`compare`] does. The decision of a program has a
/// value and no line.
///
/// # Errors
///
/// `Old` or `New` if a program can't be followed bit by bit, with the place of the first instruction at which that fails on some path.
/// `TooLarge` and `NoMemory` as for [`compare`]; also `TooLarge` if too much would have to be remembered of a program.
pub fn compare_sides(
    alloc: Global,
    old: Compared<'_>,
    new: Compared<'_>,
) -> Result<Vec<Case>, Uncompared>
    ensures { IfOk result (λ cases. AreComparedCases old.entry new.entry cases.items) }
{
    laws::the_first_rule_decides();
    let mut one = Diagrams::new(alloc)?;
    let mut other = Diagrams::new(alloc)?;
    let both = Both {
        one: side_shown(alloc, &mut one, old, true)?,
        other: side_shown(alloc, &mut other, new, false)?,
    };
    let met = meetings(alloc, &one, &other, both)?;
    let cases = cases_of(alloc, old, new, &met)?;
    Ok(cases)
}

/// Whether both sides give each cell the same value, by the cases of their comparison.
pub fn give_same(cases: &[Case]) -> bool
    ensures rules { (old new : Written) → AreCases old new cases.now → (IsTrue result ↔ GiveSame old new) }
    ensures decisions { (was is : List ℕ → Decided) → AreCasesOf was is cases.now → (IsTrue result ↔ GiveOneValue was is) }
{
    laws::the_first_rule_decides();
    have_one_value(cases)
}

/// Whether both decisions of a case have one value.
fn has_one_value(case: &Case) -> bool
    ensures { result ≡ (case.now.old.value == case.now.new.value) }
{
    case.old.value == case.new.value
}

/// Whether in each case both decisions have one value.
fn have_one_value(cases: &[Case]) -> bool
    ensures { result ≡ have_one_value cases.now }
{
    for case in cases {
        if !has_one_value(case) {
            return false;
        }
    }
    true
}

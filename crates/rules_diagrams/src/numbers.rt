//! The numbers that a diagram gives cells.

ghost use Rattle.std.specs.Prelude.{◌≡◌, ℕ, ◌++◌, ◌∷◌, [], IfOk, OnOk};
ghost use Rattle.std.specs.BTreeSet.{IsOrdered, contains};
ghost use Rattle.std.specs.Ordering.{nat_cmp};
ghost use Rattle.rules_diagrams.specs.inner.Values.{IsWithin};
ghost use Rattle.rules_diagrams.specs.inner.Numbers.{AreGivenNumbers, has_one, places_of};

use crate::diagram::Diagram;
use crate::fault::Undecided;
use crate::meeting::{Both, Meeting};
use crate::store::Diagrams;
use crate::walk::meetings;
use std::alloc::{AllocError, Global};
use std::collections::BTreeSet;

/// The numbers that the first diagram gives in these meetings.
fn ones(alloc: Global, meetings: &[Meeting]) -> Result<BTreeSet<u32>, AllocError>
    ensures { IfOk result (λ numbers. (number : ℕ) → contains nat_cmp numbers number ≡ has_one meetings.now number) }
{
    let mut numbers = BTreeSet::new(alloc);
    for meeting in meetings {
        numbers.insert(meeting.one)?;
    }
    Ok(numbers)
}

/// The numbers that a diagram gives cells.
///
/// # Errors
///
/// Those of [`meetings`].
pub(crate) fn numbers(
    alloc: Global,
    diagrams: &Diagrams,
    diagram: Diagram,
) -> Result<BTreeSet<u32>, Undecided>
    requires { IsWithin diagrams.now diagram }
    ensures { IfOk result (AreGivenNumbers diagrams.now diagram) }
{
    let both = Both {
        one: diagram,
        other: Diagram::Leaf(0),
    };
    let met = meetings(alloc, diagrams, diagrams, both)?;
    let numbers = ones(alloc, &met)?;
    Ok(numbers)
}

/// Appends the place of the line with this number. 0 is the number of no line.
fn add_place(places: &mut Vec<usize>, number: u32) -> Result<(), AllocError>
    ensures { OnOk result (places.new.items ≡ places.old.items ++ places_of (number ∷ [])) }
{
    match number.checked_sub(1) {
        None => Ok(()),
        Some(place) => {
            places.push(place as usize)?;
            Ok(())
        }
    }
}

/// The places of the lines with these numbers. 0 is the number of no line.
pub(crate) fn places_of(alloc: Global, numbers: &BTreeSet<u32>) -> Result<Vec<usize>, AllocError>
    ensures places { IfOk result (λ places. places.items ≡ places_of numbers.now.keys) }
    ensures ordered { IfOk result (λ _. IsOrdered nat_cmp numbers.now) }
{
    let mut places = Vec::new(alloc);
    for number in numbers {
        add_place(&mut places, *number)?;
    }
    Ok(places)
}

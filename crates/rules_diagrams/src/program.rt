//! The diagram of the values of a program.

ghost use Rattle.std.specs.Prelude.{◌≡◌, ◌<◌, ◌^◌, ℕ, List, [], length, Some, slice_get, IfOk, IfSome, OnOk};
ghost use Rattle.std.specs.List.{All, Contains};
ghost use Rattle.bpf_code.specs.Flow.{IsInstrAt};
ghost use Rattle.bpf_code.specs.declared.instr.Instr.{Instr as Written};
ghost use Rattle.rules_diagrams.specs.inner.Following.{IsTold};
ghost use Rattle.rules_diagrams.specs.inner.Programs.{GivesValue, IsBranch};
ghost use Rattle.rules_diagrams.specs.inner.Values.{IsWithin, Keeps};
ghost use Rattle.rules_diagrams.specs.declared.contents.DiagramAt.{DiagramAt as Known};

use crate::contents::{Contents, DiagramAt, FIRST, Followed, are_same};
use crate::diagram::Diagram;
use crate::fault::{Drawn, Undecided, Unfollowed};
use crate::following::follow;
use crate::reaching::{Reached, reach};
use crate::store::Diagrams;
use crate::word::Bit;
use crate::word_tests::test_shown;
use bpf_code::{Instr, Test};
use std::alloc::{AllocError, Global};

/// The diagrams of the values of a program from its places on, as far as they were made.
#[derive(Drop)]
struct DiagramTable {
    /// All of them, those of later places first.
    told: Vec<DiagramAt>,
    /// For each place the index in `told` of the first that is of this place.
    firsts: Vec<usize>,
}

/// The diagram that was told, if it is of this place with these contents.
fn diagram_if(told: &DiagramAt, place: usize, contents: &Contents) -> Option<Diagram>
    ensures { IfSome result (λ diagram. told.now ≡ record { place = place; contents = contents.now; diagram = diagram }) }
{
    if told.place == place && are_same(&told.contents, contents) {
        Some(told.diagram)
    } else {
        None
    }
}

/// The diagram that was told of a place with these contents. What was told of the place begins at index `first` of `told`, without gaps.
fn find(told: &[DiagramAt], first: usize, place: usize, contents: &Contents) -> Option<Diagram>
    ensures { IfSome result (λ diagram. Contains told.now (record { place = place; contents = contents.now; diagram = diagram })) }
{
    for at in first..told.len() {
        let one = &told[at];
        if one.place != place {
            return None;
        }
        let found = diagram_if(one, place, contents);
        if found.is_some() {
            return found;
        }
    }
    None
}

impl DiagramTable {
    /// No diagram, for a program of this many instructions.
    fn new(alloc: Global, places: usize) -> Result<DiagramTable, Unfollowed>
        ensures { IfOk result (λ tellings. tellings.told.items ≡ []) }
    {
        let mut firsts = Vec::new(alloc);
        for _ in 0..places {
            firsts.push(0)?;
        }
        Ok(DiagramTable {
            told: Vec::new(alloc),
            firsts,
        })
    }

    /// Notes that all that is told from now on, until the next call, is of this place.
    fn begin(&mut self, place: usize)
        ensures { self.new.told.items ≡ self.old.told.items }
    {
        let many = self.told.len();
        if let Some(first) = self.firsts.get_mut(place) {
            *first = many;
        }
    }

    /// The diagram that was told of a place with these contents.
    fn diagram(&self, place: usize, contents: &Contents) -> Result<Diagram, Unfollowed>
        ensures { IfOk result (λ diagram. Contains self.now.told.items (record { place = place; contents = contents.now; diagram = diagram })) }
    {
        let first = match self.firsts.get(place) {
            None => 0,
            Some(first) => *first,
        };
        match find(&self.told, first, place, contents) {
            // An accepted program has the diagram, since `reach` lists these contents. That isn't proved, so this is answered as undecided.
            None => Err(Unfollowed::Undecided(Undecided::TooLarge)),
            Some(diagram) => Ok(diagram),
        }
    }
}

/// The diagram of a branch between two diagrams, by a test of a number with a constant.
#[tactic(auto, using(crate::proofs::Nodes::keeps_both, crate::proofs::Nodes::keeps_itself))]
fn branched(
    diagrams: &mut Diagrams,
    test: Test,
    bits: &[Bit],
    k: u32,
    one: Diagram,
    other: Diagram,
) -> Drawn
    requires one { IsWithin diagrams.old one }
    requires other { IsWithin diagrams.old other }
    ensures keeps { Keeps diagrams.old diagrams.new }
    ensures branch { IfOk result (IsBranch diagrams.old diagrams.new test bits.now k one other) }
{
    let met = test_shown(diagrams, test, bits, k)?;
    diagrams.choose(met, one, other)
}

/// The diagram from a place with these contents on, by what was told of later places.
#[tactic(auto, using(crate::proofs::Nodes::keeps_both, crate::proofs::Nodes::keeps_itself))]
fn diagram_from(
    alloc: Global,
    diagrams: &mut Diagrams,
    tellings: &DiagramTable,
    code: &[Instr],
    place: usize,
    contents: &Contents,
) -> Result<Diagram, Unfollowed>
    requires place { place < length code.now }
    requires size { length code.now < 2 ^ 32 }
    requires told { All (IsTold diagrams.old code.now) tellings.now.told.items }
    ensures keeps { Keeps diagrams.old diagrams.new }
    ensures told { IfOk result (λ diagram. IsTold diagrams.new code.now (record { place = place; contents = contents.now; diagram = diagram })) }
{
    match follow(alloc, &code[place], place, contents)? {
        Followed::Ends(value) => Ok(Diagram::Leaf(value)),
        Followed::Continues {
            place: next,
            contents: after,
        } => tellings.diagram(next, &after),
        Followed::Branches {
            test,
            k,
            one,
            other,
        } => {
            let first = tellings.diagram(one, contents)?;
            let second = tellings.diagram(other, contents)?;
            Ok(branched(diagrams, test, &contents.a, k, first, second)?)
        }
        Followed::Stops => Err(Unfollowed::At(place)),
    }
}

/// Makes the diagram from a place on with these contents, if there are any, and adds it to those that are told.
#[tactic(auto, using(crate::proofs::Nodes::keeps_itself))]
fn tell(
    alloc: Global,
    diagrams: &mut Diagrams,
    tellings: &mut DiagramTable,
    code: &[Instr],
    place: usize,
    contents: Option<Contents>,
) -> Result<(), Unfollowed>
    requires place { place < length code.now }
    requires size { length code.now < 2 ^ 32 }
    requires told { All (IsTold diagrams.old code.now) tellings.old.told.items }
    ensures keeps { Keeps diagrams.old diagrams.new }
    ensures told { OnOk result (All (IsTold diagrams.new code.now) tellings.new.told.items) }
{
    let Some(contents) = contents else {
        return Ok(());
    };
    let diagram = diagram_from(alloc, diagrams, tellings, code, place, &contents)?;
    tellings.told.push(DiagramAt {
        place,
        contents,
        diagram,
    })?;
    Ok(())
}

/// Makes the diagrams from a place on, one for each of the contents that are reached there.
fn tell_place(
    alloc: Global,
    diagrams: &mut Diagrams,
    tellings: &mut DiagramTable,
    code: &[Instr],
    place: usize,
    reached: &Reached,
) -> Result<(), Unfollowed>
    requires place { place < length code.now }
    requires size { length code.now < 2 ^ 32 }
    requires told { All (IsTold diagrams.old code.now) tellings.old.told.items }
    ensures keeps { Keeps diagrams.old diagrams.new }
    ensures told { OnOk result (All (IsTold diagrams.new code.now) tellings.new.told.items) }
{
    tellings.begin(place);
    for index in 0..reached.count(place) {
        let contents = reached.contents(place, index);
        tell(alloc, diagrams, tellings, code, place, contents)?;
    }
    Ok(())
}

/// Makes the diagrams of all contents that are reached, from the last place to the first.
fn tell_all(
    alloc: Global,
    diagrams: &mut Diagrams,
    code: &[Instr],
    reached: &Reached,
) -> Result<DiagramTable, Unfollowed>
    requires { length code.now < 2 ^ 32 }
    ensures keeps { Keeps diagrams.old diagrams.new }
    ensures told { IfOk result (λ tellings. All (IsTold diagrams.new code.now) tellings.told.items) }
{
    let mut tellings = DiagramTable::new(alloc, code.len())?;
    let mut left = code.len();
    while left > 0 {
        left -= 1;
        tell_place(alloc, diagrams, &mut tellings, code, left, reached)?;
    }
    Ok(tellings)
}

/// The diagram that gives each cell the value of a program.
///
/// # Errors
///
/// `At` the first instruction that some path meets with operands that aren't followed; `TooLarge` if there are too many cases; `NoMemory`
/// if an allocation failed.
pub(crate) fn program_diagram(
    alloc: Global,
    diagrams: &mut Diagrams,
    code: &[Instr],
) -> Result<Diagram, Unfollowed>
    ensures keeps { Keeps diagrams.old diagrams.new }
    ensures value { IfOk result (GivesValue diagrams.new code.now) }
{
    if code.len() >= u32::MAX as usize {
        return Err(Unfollowed::Undecided(Undecided::TooLarge));
    }
    let reached = reach(alloc, code)?;
    let tellings = tell_all(alloc, diagrams, code, &reached)?;
    tellings.diagram(0, &FIRST)
}

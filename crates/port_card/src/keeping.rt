//! Invariants of the data behind a card's locks. Each function changes nothing: its contract is the invariant.

ghost use Rattle.line_record.specs.Directory.{IsDirectory};
ghost use Rattle.line_record.specs.Line.{IsLine};
ghost use Rattle.port_card.specs.Keeping.{IsOfAccepted};

use card_core::Store;
use gen_arena::Id;
use line_record::{Directory, Line};

/// Line: its entries are a run from the state at the start of the journal to the present state.
// no edit: the body only reads. Planted bugs of the type itself break its invariant
pub fn lines_hold_runs(line: &Line)
    ensures { IsLine line.now }
{
    let _ = line.owner();
}

/// Directory: no two connections have the same line.
// no edit: the body only reads. Planted bugs of the type itself break its invariant
pub fn connections_are_apart(directory: &Directory)
    ensures { IsDirectory directory.now }
{
    let _ = directory.worn();
}

/// Programs: each program is accepted, whichever id names it.
// no edit: the body only reads. Planted bugs of the type itself break its invariant
pub fn programs_are_accepted(store: &Store, id: Id)
    ensures { IsOfAccepted store.now id }
{
    if let Some(program) = store.get(id) {
        let _ = program.code();
    }
}

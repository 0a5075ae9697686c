//! The state of a connection, and the order in which a card lists its connections.

ghost use Rattle.std.specs.Prelude.{◌≡◌, length};
ghost use Rattle.card_core.specs.ConnectionState.{HasLevelsForEach, is_before, is_after};
ghost use Rattle.card_core.specs.inner.Listing.{IsNearest, IsReadState, nearer};

use arrayvec::ArrayVec;
use gen_arena::Id;
use leaky::Contract;
use line_record::{Line, Seating, State};
use upc_cell::Vc;

/// The contracts and the state of a connection: a copy, which later steps of the card don't change.
#[derive(Debug, Drop)]
pub struct ConnectionState {
    /// The number, from 1, of the setup of this connection.
    pub incarnation: u64,
    /// The number of its line, from 0.
    pub line: u16,
    /// The program that names the contracts for its cells.
    pub program: Id,
    /// Its contracts, by number from 1.
    pub contracts: ArrayVec<Contract, 4>,
    /// The moment of its last judged cell, in ticks, or 0 if there was none; the counts of its line, including those of
    /// earlier connections; and the levels of each contract, in the order of the contracts.
    pub state: State,
    /// The number of entries of its journal: of its cells since the last cut, or since the setup.
    pub entries: usize,
}

/// Returns the state of the connection with this seating, which this line serves.
pub(crate) fn state_of(seating: &Seating, line: &Line) -> ConnectionState
    ensures read_state { IsReadState seating.now line.now result }
    ensures sized { HasLevelsForEach result }
{
    ConnectionState {
        incarnation: seating.incarnation,
        line: seating.line,
        program: seating.program,
        contracts: line.contracts_copied(),
        state: line.state().copied(),
        entries: line.entries().len(),
    }
}

/// Returns whether the first connection comes before the other one: by path, and those of one path by channel.
fn is_before(one: Vc, other: Vc) -> bool
    ensures { result ≡ is_before one other }
{
    one.vpi < other.vpi || (one.vpi == other.vpi && one.vci < other.vci)
}

/// Returns the connection `best` that was found so far, or `vc` if it comes after `earlier`, and before `best` if there is one.
fn nearer(best: Option<Vc>, earlier: Option<Vc>, vc: Vc) -> Option<Vc>
    ensures { result ≡ nearer best earlier vc }
{
    if let Some(earlier) = earlier {
        if !is_before(earlier, vc) {
            return best;
        }
    }
    match best {
        Some(best) if !is_before(vc, best) => Some(best),
        _ => Some(vc),
    }
}

/// Returns the first connection after `earlier` that one of the lines serves.
pub(crate) fn next_among(lines: &[Line], earlier: Option<Vc>) -> Option<Vc>
    ensures { IsNearest lines.now (length lines.now) earlier result }
{
    let mut best = None;
    for line in lines {
        if let Some(owner) = line.owner() {
            best = nearer(best, earlier, owner.vc);
        }
    }
    best
}

//! Laws of the logs of a card. Each function does nothing; its contract is the law. The code on which they rest is that of
//! `card_core`, with its edits.

ghost use Rattle.card_isolation.specs.Isolation.{ConnectionsAreIsolated};
ghost use Rattle.card_isolation.specs.OwnCells.{JudgedCellsAreOwn};
ghost use Rattle.card_isolation.specs.Restriction.{EachIsServedAsAlone, KeptConnectionsAreServedAlike};

/// The outcomes of the acts for a connection depend only on these acts.
// no edit: a law has no code to change
pub fn connections_are_isolated()
    ensures { ConnectionsAreIsolated }
{}

/// For any log and any set of connections, the card may have a log without the other connections, with the same acts
/// and the same outcomes for each connection of the set.
// no edit: a law has no code to change
pub fn kept_connections_are_served_alike()
    ensures { KeptConnectionsAreServedAlike }
{}

/// For any log and any connection, the card may have a log without the other connections, with the same acts and the
/// same outcomes for this one.
// no edit: a law has no code to change
pub fn each_is_served_as_alone()
    ensures { EachIsServedAsAlone }
{}

/// The judged cells among a connection's own events are its judged cells in the log.
// no edit: a law has no code to change
pub fn judged_cells_are_own()
    ensures { JudgedCellsAreOwn }
{}

//! Connections in order, and the state of one.

use super::*;
use card_core::ConnectionState;

/// A card with the connections 1/101, 1/100 and 0/700, in this order, and a line to spare.
fn card_of_three(alloc: Global) -> Result<Core, Fail> {
    let mut shape = shape(1, 1, 16);
    shape.lines = 4;
    let mut core = Core::new(alloc, shape)?;
    set_up_three(&mut core, alloc)?;
    Ok(core)
}

/// Sets up these connections.
fn set_up_three(core: &mut Core, alloc: Global) -> Result<(), Fail> {
    let program = load_in(core, alloc, 1)?;
    for (vpi, vci) in [(1, 101), (1, 100), (0, 700)] {
        take(core, Step::Setup(ask(Vc::new(vpi, vci)?, program)?));
    }
    Ok(())
}

/// The path and the channel of the next connection, or 0/0.
fn next_of(core: &Core, after: Option<Vc>) -> (u16, u16) {
    match core.next_vc(after) {
        Some(vc) => (vc.vpi, vc.vci),
        None => (0, 0),
    }
}

#[test]
fn connections_are_listed_by_path_and_channel(rt: HostRuntime) -> Result<(), Fail> {
    let core = card_of_three(rt.alloc())?;
    expect_three(&rt, &core)
}

/// Expects that a card lists these connections in order.
fn expect_three(rt: &impl Abort, core: &Core) -> Result<(), Fail> {
    assert!(rt; next_of(core, None) == (0, 700));
    for (after, next) in [
        ((0, 0), (0, 700)),
        ((0, 700), (1, 100)),
        ((1, 100), (1, 101)),
        ((1, 101), (0, 0)),
    ] {
        let vc = Vc::new(after.0, after.1)?;
        assert!(rt; next_of(core, Some(vc)) == next);
    }
    Ok(())
}

/// The incarnation, the line, the number of contracts, the last moment, the level of bucket 1 then, the passed cells and
/// the entries of a state.
fn numbers_of(state: Option<ConnectionState>) -> Option<(u64, u16, usize, u64, u64, u64, usize)> {
    let state = state?;
    let levels = state.state.levels.first()?;
    Some((
        state.incarnation,
        state.line,
        state.contracts.len(),
        state.state.last,
        levels.fill_at(state.state.last).first,
        state.state.counts.passed,
        state.entries,
    ))
}

/// A cell every ten ticks conforms. Of those at 0, 10 and 15 on 1/100, two do; after that at 10 its bucket has ten
/// ticks, of which five are left at 15.
#[test]
fn a_connection_has_a_state(rt: HostRuntime) -> Result<(), Fail> {
    let mut core = card_of_three(rt.alloc())?;
    for moment in [0, 10, 15] {
        pick_at(&mut core, 0, moment);
        judge_at_port(&mut core, 0);
    }
    expect_state(&rt, &core)
}

/// Expects this state of 1/100, and none of a connection that is not there.
fn expect_state(rt: &impl Abort, core: &Core) -> Result<(), Fail> {
    let state = core.line_state(Vc::new(1, 100)?);
    assert!(rt; numbers_of(state) == Some((2, 1, 1, 15, 5, 2, 3)));
    assert!(rt; core.line_state(Vc::new(1, 102)?).is_none());
    Ok(())
}

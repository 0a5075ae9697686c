//! A connection alone on a card, and the same connection together with another.

use super::*;

/// Sets up a connection with path 1, this channel and its own program, which returns this value.
fn set_up(core: &mut Core, alloc: Global, channel: u16, value: u32) -> Result<(), Fail> {
    let program = load_in(core, alloc, value)?;
    match take(core, Step::Setup(ask(Vc::new(1, channel)?, program)?)) {
        Reply::SetUp(_) => Ok(()),
        _ => Err(Fail::from("not set up")),
    }
}

/// A card with only the connection of channel 100.
fn own_card(alloc: Global) -> Result<Core, Fail> {
    let mut core = Core::new(alloc, shape(1, 1, 16))?;
    set_up(&mut core, alloc, 100, 1)?;
    Ok(core)
}

/// A card on which that connection has another line, incarnation and program id, together with that of channel 101.
fn shared_card(alloc: Global) -> Result<Core, Fail> {
    let mut shape = shape(2, 2, 16);
    shape.lines = 2;
    let mut core = Core::new(alloc, shape)?;
    set_up_both(&mut core, alloc)?;
    Ok(core)
}

/// Sets up both connections, that of channel 101 first.
fn set_up_both(core: &mut Core, alloc: Global) -> Result<(), Fail> {
    set_up(core, alloc, 101, 2)?;
    set_up(core, alloc, 100, 1)
}

/// A cell of path 1 and channel 101 arrives at port 1 and is looked up.
fn pick_another(core: &mut Core, moment: u64) -> bool {
    let enter = Step::Enter {
        port: 1,
        cell: cell_with(&[0x00, 0x10, 0x06, 0x50]),
        moment,
    };
    matches!(take(core, enter), Reply::Entered)
        && matches!(take(core, Step::Pick { port: 1 }), Reply::Picked)
}

/// The moment, the value and the verdict of a judged cell.
fn seen(answer: Option<Answer>) -> Option<(u64, u32, Verdict)> {
    match answer {
        Some(
            Answer::Judged {
                line: _,
                number: _,
                moment,
                value,
                program: _,
                verdict,
                cell: _,
            },
        ) => Some((moment, value, verdict)),
        _ => None,
    }
}

/// The result for a cell of channel 100.
fn by_itself(core: &mut Core, moment: u64) -> Option<(u64, u32, Verdict)> {
    if pick_at(core, 0, moment) {
        seen(judge_at_port(core, 0))
    } else {
        None
    }
}

/// The result for a cell of channel 100 that arrives after one of channel 101 and is judged after it.
fn beside_another(core: &mut Core, moment: u64) -> Option<(u64, u32, Verdict)> {
    if pick_another(core, moment) && pick_at(core, 0, moment) {
        seen(judge_at_port(core, 1))?;
        seen(judge_at_port(core, 0))
    } else {
        None
    }
}

/// Expects that the connection of channel 100 is served on a shared card as on this card, which is its own.
fn expect_as_alone(rt: &impl Abort, alloc: Global, own: &mut Core) -> Result<(), Fail> {
    let mut shared = shared_card(alloc)?;
    for moment in [0, 5, 10, 12, 20] {
        let ours = beside_another(&mut shared, moment);
        assert!(rt; ours.is_some() && ours == by_itself(own, moment));
    }
    Ok(())
}

#[test]
fn a_connection_is_served_as_alone(rt: HostRuntime) -> Result<(), Fail> {
    let mut own = own_card(rt.alloc())?;
    expect_as_alone(&rt, rt.alloc(), &mut own)
}

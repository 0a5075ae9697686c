//! One interleaving of two ports and the desk, step by step, which the page of card_core has as a table with the world
//! after each step; and steps in lists.

use super::*;

/// How many cells the long list of steps has: three steps each, 120,000 in all.
const CELLS: u64 = 40_000;

fn enter(port: u8, moment: u64) -> Step {
    Step::Enter {
        port,
        cell: cell(),
        moment,
    }
}

#[test]
fn a_reload_and_a_release_between_picks_and_judgements(rt: HostRuntime) -> Result<(), Fail> {
    expect(
        &rt,
        rt.alloc(),
        shape(2, 2, 16),
        &[
            (Planned::Load(1), loaded(0, 1)),
            (Planned::Load(2), loaded(1, 1)),
            (Planned::Setup(0), Seen::SetUp(1)),
            entered(0, 0),
            entered(1, 5),
            (Planned::Pick(0), Seen::Picked),
            (Planned::Pick(1), Seen::Picked),
            (Planned::Retire(0), Seen::Refused(DeskFault::Busy)),
            (Planned::Reload(1), Seen::Reloaded(0)),
            (Planned::Judge(0), passed(1, 0, 0)),
            (Planned::Release, journal_of_one_cell(1)),
            (Planned::Judge(1), Seen::Answered(Answer::Released)),
        ],
    )
}

/// The replies of a card to a list of steps: a setup, and then cells at port 0 at these moments.
fn replies_to(
    core: &mut Core,
    alloc: Global,
    wanted: Ask,
    moments: &[u64],
) -> Result<Vec<Reply>, Fail> {
    let mut steps = Vec::new(alloc);
    steps.push(Step::Setup(wanted))?;
    for moment in moments {
        steps.push(enter(0, *moment))?;
        steps.push(Step::Pick { port: 0 })?;
        steps.push(Step::Judge { port: 0 })?;
    }
    let Ok(replies) = core.run(alloc, steps) else {
        return Err(Fail::from("the steps came back"));
    };
    Ok(replies)
}

fn verdicts_of(alloc: Global, replies: &[Reply]) -> Result<Vec<Verdict>, Fail> {
    let mut verdicts = Vec::new(alloc);
    for reply in replies {
        if let Some((verdict, _, _)) = judged(answer_of(reply)) {
            verdicts.push(verdict)?;
        }
    }
    Ok(verdicts)
}

/// Whether the judged cells have these verdicts, in this order.
fn has_verdicts(alloc: Global, replies: &[Reply], wanted: &[Verdict]) -> Result<bool, Fail> {
    let verdicts = verdicts_of(alloc, replies)?;
    Ok(verdicts.as_slice() == wanted)
}

/// The program of a new card with journals of this length, and its replies to a list of steps.
fn replies_of_new(alloc: Global, journal: u64, moments: &[u64]) -> Result<(Id, Vec<Reply>), Fail> {
    let mut core = Core::new(alloc, shape(1, 1, journal))?;
    replies_in(&mut core, alloc, moments)
}

/// The same on this card.
fn replies_in(core: &mut Core, alloc: Global, moments: &[u64]) -> Result<(Id, Vec<Reply>), Fail> {
    let program = load_in(core, alloc, 1)?;
    let wanted = ask_own(program)?;
    let replies = replies_to(core, alloc, wanted, moments)?;
    Ok((program, replies))
}

#[test]
fn steps_in_a_list_are_answered_one_by_one(rt: HostRuntime) -> Result<(), Fail> {
    let (_, replies) = replies_of_new(rt.alloc(), 16, &[0, 5, 10])?;
    let verdicts = [Verdict::Pass, Verdict::Discard, Verdict::Pass];
    assert!(rt; replies.len() == 10);
    assert!(rt; has_verdicts(rt.alloc(), &replies, &verdicts)?);
    Ok(())
}

/// The moments of many cells, ten ticks apart.
fn moments(alloc: Global) -> Result<Vec<u64>, Fail> {
    let mut moments = Vec::new(alloc);
    for turn in 0..CELLS {
        moments.push(turn * 10)?;
    }
    Ok(moments)
}

/// The verdict, the cell's number on the line and the program of the last reply.
fn last_of(replies: &[Reply]) -> Option<(Verdict, u64, Id)> {
    judged(answer_of(replies.last()?))
}

#[test]
fn a_list_has_any_number_of_steps(rt: HostRuntime) -> Result<(), Fail> {
    let moments = moments(rt.alloc())?;
    let (program, replies) = replies_of_new(rt.alloc(), 65536, &moments)?;
    assert!(rt; replies.len() == 120_001);
    assert!(rt; last_of(&replies) == Some((Verdict::Pass, CELLS, program)));
    Ok(())
}

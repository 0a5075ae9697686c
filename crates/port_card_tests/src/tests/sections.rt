//! The locked sections, called without a card.

use super::*;
use card_core::{Store, admit, judge_at, load as put_in, name, release, reload, retire, setup};
use gen_arena::Arena;
use line_record::{Directory, Owner, Seating};

/// Sets up a connection on this line.
fn seat(
    store: &Store,
    directory: &mut Directory,
    line: &mut Line,
    asked: Ask,
) -> Result<Owner, Fail> {
    let Ok(number) = admit(store, directory, &asked) else {
        return Err(Fail::from("not admitted"));
    };
    match setup(directory, line, number, asked) {
        Ok(owner) => Ok(owner),
        Err(_) => Err(Fail::from("not set up")),
    }
}

/// Loads a program into a store.
fn put(store: &mut Store, program: Program) -> Result<Id, Fail> {
    match put_in(store, program) {
        Ok(id) => Ok(id),
        Err(_) => Err(Fail::from("not put in")),
    }
}

/// Two cells arrive on the line: one passes and one is discarded.
fn police(store: &Store, directory: &Directory, line: &mut Line, vc: Vc) -> Result<(), Fail> {
    let Some(seating) = directory.find(vc) else {
        return Err(Fail::from("not found"));
    };
    let Some(named) = name(store, seating.program, &cell(OTHER)) else {
        return Err(Fail::from("not named"));
    };
    for moment in [3, 5] {
        let Answer::Judged { moment: judged, .. } = judge_at(line, vc, &seating, &named, moment)
        else {
            return Err(Fail::from("not judged"));
        };
        if judged != moment {
            return Err(Fail::from("judged at another moment"));
        }
    }
    Ok(())
}

/// The state of a directory: the seatings of both connections, whether it names each program, and a free line.
fn shown(
    directory: &Directory,
    vcs: [Vc; 2],
    programs: [Id; 2],
) -> ([Option<Seating>; 2], [bool; 2], Option<u16>) {
    (
        [directory.find(vcs[0]), directory.find(vcs[1])],
        [directory.names(programs[0]), directory.names(programs[1])],
        directory.free_line(),
    )
}

/// The parts of a card: programs, a directory, and two lines.
#[derive(Drop)]
struct Parts {
    store: Store,
    directory: Directory,
    first: Line,
    second: Line,
}

/// Parts without programs, whose two slots for them have used this generation.
fn new_parts(alloc: Global, used: u32) -> Result<Parts, Fail> {
    let store = Arena::new_from(alloc, 2, used)?;
    let directory = Directory::new(alloc, 3, 1)?;
    let first = Line::new(alloc, 4)?;
    let second = Line::new(alloc, 4)?;
    Ok(Parts {
        store,
        directory,
        first,
        second,
    })
}

#[test]
fn a_release_of_another_connections_line_is_stale(rt: HostRuntime) -> Result<(), Fail> {
    let mut parts = new_parts(rt.alloc(), 0)?;
    let seen = both_seated(rt.alloc(), &mut parts)?;
    expect_stale(&rt, &mut parts, seen.0, seen.1)
}

/// Sets up two connections, each with its own program. Two cells arrive on the second. Returns both connections and both
/// programs.
fn both_seated(alloc: Global, parts: &mut Parts) -> Result<([Vc; 2], [Id; 2]), Fail> {
    let program = put(&mut parts.store, constant(alloc, 1)?)?;
    let another = put(&mut parts.store, constant(alloc, 1)?)?;
    let first = ask(100, program, 0)?;
    let second = ask(101, another, 0)?;
    let vcs = [first.vc, second.vc];
    seat(&parts.store, &mut parts.directory, &mut parts.first, first)?;
    seat(
        &parts.store,
        &mut parts.directory,
        &mut parts.second,
        second,
    )?;
    police(&parts.store, &parts.directory, &mut parts.second, vcs[1])?;
    Ok((vcs, [program, another]))
}

/// Expects that the first connection isn't released on the line of the second, and that nothing changes.
fn expect_stale(
    rt: &impl Abort,
    parts: &mut Parts,
    vcs: [Vc; 2],
    programs: [Id; 2],
) -> Result<(), Fail> {
    let places = shown(&parts.directory, vcs, programs);
    let record = recorded(&parts.second);
    let [vc, _] = vcs;
    if parts.directory.find(vc).is_none() {
        return Err(Fail::from("not found"));
    }
    let fault = release(&mut parts.directory, &mut parts.second, vc).err();
    expect(rt, "the release", fault, Some(DeskFault::Stale));
    let places_then = shown(&parts.directory, vcs, programs);
    expect(rt, "the directory", places_then, places);
    expect(rt, "the line", recorded(&parts.second), record);
    Ok(())
}

/// The connection of a line, its last moment, its journal and its counts.
fn recorded(line: &Line) -> (Option<Owner>, u64, ([Option<Entry>; 3], Tally)) {
    (line.owner(), line.last(), kept(line))
}

#[test]
fn a_worn_store_is_full_and_forgets_what_was_retired(rt: HostRuntime) -> Result<(), Fail> {
    let mut parts = new_parts(rt.alloc(), 4294967294)?;
    expect_forgotten(&rt, rt.alloc(), &mut parts)
}

/// Expects that the first program of a store with one generation left is retired, and that no other takes its slot.
fn expect_forgotten(rt: &impl Abort, alloc: Global, parts: &mut Parts) -> Result<(), Fail> {
    let first = put(&mut parts.store, constant(alloc, 1)?)?;
    let second = put(&mut parts.store, constant(alloc, 2)?)?;
    let generations = (first.generation, second.generation);
    expect(rt, "the last ones", generations, (4294967295, 4294967295));
    let asked = ask(100, first, 0)?;
    let vc = asked.vc;
    seat(&parts.store, &mut parts.directory, &mut parts.first, asked)?;
    let before = reload(&parts.store, &mut parts.directory, vc, second);
    expect(rt, "the program before", before, Ok(first));
    let retired = retire(&mut parts.store, &parts.directory, first).err();
    expect(rt, "the first retirement", retired, None);
    expect_full(rt, &mut parts.store, constant(alloc, 3)?)?;
    let again = retire(&mut parts.store, &parts.directory, first).err();
    expect(rt, "the second", again, Some(DeskFault::NoProgram));
    let is_named = name(&parts.store, first, &cell(DATA)).is_some();
    expect(rt, "a retired program names", is_named, false);
    Ok(())
}

/// Expects that a store gives this program back, which returns 3.
fn expect_full(rt: &impl Abort, store: &mut Store, program: Program) -> Result<(), Fail> {
    let Err((fault, back)) = put_in(store, program) else {
        return Err(Fail::from("a worn slot is filled"));
    };
    let is_back = back.code() == [Instr::RetK(3)].as_slice();
    let found = (fault, is_back);
    expect(rt, "a full store", found, (DeskFault::ProgramsFull, true));
    Ok(())
}

//! Whole cards, step by step.

mod interleaving;
mod isolation;
mod listing;
mod tables;

use super::{ask, cell_with, constant};
use arrayvec::ArrayVec;
use bpf_code::Instr;
use bpf_verify::Program;
use card_core::*;
use gen_arena::{Arena, Id};
use leaky::{Contract, Gcra, Verdict};
use line_record::{Directory, Line, Piece, Tally};
use std::alloc::Global;
use std::process::Abort;
use std::test::Fail;
use tables::{Planned, Seen, empty_journal, entered, expect, journal_of_one_cell, loaded, passed};
use upc_cell::{Cell, Side, Vc};

/// The header of a cell of 1/100 with cell loss priority 0.
const HEADER: [u8; 4] = [0x00, 0x10, 0x06, 0x40];

fn shape(programs: u64, ports: u64, journal: u64) -> Shape {
    Shape {
        programs,
        lines: 1,
        ports,
        journal,
        side: Side::Uni,
    }
}

/// A cell of 1/100 with a payload of zeros.
fn cell() -> Cell {
    cell_with(&HEADER)
}

/// The connection 1/100.
fn ask_own(program: Id) -> Result<Ask, Fail> {
    ask(Vc::new(1, 100)?, program)
}

/// Takes one step. It promises nothing, so the prover carries no contract of a step through a test: what a test says is tested.
fn take(core: &mut Core, step: Step) -> Reply {
    core.step(step)
}

/// Loads a program that returns this value for every cell.
fn load_in(core: &mut Core, alloc: Global, value: u32) -> Result<Id, Fail> {
    let reply = take(core, Step::Load(constant(alloc, value)?));
    match reply {
        Reply::Loaded(id) => Ok(id),
        _ => Err(Fail::from("not loaded")),
    }
}

fn answer_of(reply: &Reply) -> Option<Answer> {
    match reply {
        Reply::Answered(answer) => Some(*answer),
        _ => None,
    }
}

/// A cell arrives at the port and is looked up.
fn pick_at(core: &mut Core, port: u8, moment: u64) -> bool {
    let enter = Step::Enter {
        port,
        cell: cell(),
        moment,
    };
    matches!(take(core, enter), Reply::Entered)
        && matches!(take(core, Step::Pick { port }), Reply::Picked)
}

fn judge_at_port(core: &mut Core, port: u8) -> Option<Answer> {
    answer_of(&take(core, Step::Judge { port }))
}

/// The verdict, the cell's number on the line, and the program that named the contract.
fn judged(answer: Option<Answer>) -> Option<(Verdict, u64, Id)> {
    match answer {
        Some(
            Answer::Judged {
                line: _,
                number,
                moment: _,
                value: _,
                program,
                verdict,
                cell: _,
            },
        ) => Some((verdict, number, program)),
        _ => None,
    }
}

#[test]
fn a_port_takes_its_steps_in_order(rt: HostRuntime) -> Result<(), Fail> {
    let plan = [
        (Planned::Judge(0), Seen::NotNow),
        (Planned::Enter { port: 1, moment: 0 }, Seen::NotNow),
        entered(0, 0),
        (Planned::Enter { port: 0, moment: 0 }, Seen::NotNow),
        (Planned::Load(7), Seen::NotLoaded(DeskFault::Busy, 7)),
        (Planned::Retire(0), Seen::Refused(DeskFault::Busy)),
        (Planned::Pick(0), Seen::Answered(Answer::NoConnection)),
        (Planned::Retire(0), Seen::Refused(DeskFault::NoProgram)),
    ];
    expect(&rt, rt.alloc(), shape(1, 1, 4), &plan)
}

#[test]
fn cells_of_two_ports_meet_on_one_line(rt: HostRuntime) -> Result<(), Fail> {
    let plan = [
        (Planned::Load(1), loaded(0, 1)),
        (Planned::Setup(0), Seen::SetUp(1)),
        entered(0, 10),
        (Planned::Pick(0), Seen::Picked),
        entered(1, 5),
        (Planned::Pick(1), Seen::Picked),
        (Planned::Judge(0), passed(1, 10, 0)),
        (
            Planned::Judge(1),
            Seen::Answered(Answer::MomentBack { last: 10 }),
        ),
        entered(1, 10),
        (Planned::Pick(1), Seen::Picked),
        (Planned::Judge(1), Seen::Answered(Answer::JournalFull)),
    ];
    expect(&rt, rt.alloc(), shape(1, 2, 1), &plan)
}

#[test]
fn a_reload_leaves_a_picked_cell_its_program(rt: HostRuntime) -> Result<(), Fail> {
    let plan = [
        (Planned::Load(1), loaded(0, 1)),
        (Planned::Load(1), loaded(1, 1)),
        (Planned::Setup(0), Seen::SetUp(1)),
        entered(0, 0),
        (Planned::Pick(0), Seen::Picked),
        (Planned::Load(1), Seen::NotLoaded(DeskFault::Busy, 1)),
        (Planned::Reload(1), Seen::Reloaded(0)),
        (Planned::Judge(0), passed(1, 0, 0)),
        (Planned::Retire(0), Seen::Retired(1)),
        (Planned::Load(1), loaded(0, 2)),
        (Planned::Retire(0), Seen::Refused(DeskFault::NoProgram)),
    ];
    expect(&rt, rt.alloc(), shape(2, 1, 4), &plan)
}

#[test]
fn a_connection_that_is_set_up_again_is_another(rt: HostRuntime) -> Result<(), Fail> {
    let plan = [
        (Planned::Load(1), loaded(0, 1)),
        (Planned::Setup(0), Seen::SetUp(1)),
        entered(0, 0),
        (Planned::Pick(0), Seen::Picked),
        (Planned::Judge(0), passed(1, 0, 0)),
        entered(0, 20),
        (Planned::Pick(0), Seen::Picked),
        (Planned::Release, journal_of_one_cell(1)),
        (Planned::Setup(0), Seen::SetUp(2)),
        (Planned::Judge(0), Seen::Answered(Answer::Released)),
        (Planned::Cut, empty_journal(2)),
    ];
    expect(&rt, rt.alloc(), shape(1, 1, 4), &plan)
}

/// The last incarnation of a directory.
const LAST: u64 = 4611686018427387904;

/// Sets up a connection if it is admitted, and returns its incarnation.
fn incarnation_of(
    store: &Store,
    directory: &mut Directory,
    line: &mut Line,
    wanted: Ask,
) -> Result<u64, DeskFault> {
    let number = match admit(store, directory, &wanted) {
        Ok(number) => number,
        Err(fault) => return Err(fault),
    };
    match setup(directory, line, number, wanted) {
        Ok(owner) => Ok(owner.incarnation),
        Err((fault, _)) => Err(fault),
    }
}

/// Whether the directory has the connection, and its line lets it go.
fn is_released(directory: &mut Directory, line: &mut Line, vc: Vc) -> bool {
    pick(directory, vc).is_some() && release(directory, line, vc).is_ok()
}

/// Expects that 1/100 is set up as the last incarnation, and that there is none after its release.
fn expect_one_incarnation(
    rt: &impl Abort,
    store: &Store,
    directory: &mut Directory,
    line: &mut Line,
    program: Id,
) -> Result<(), Fail> {
    let first = incarnation_of(store, directory, line, ask_own(program)?);
    let second = incarnation_of(store, directory, line, ask_own(program)?);
    assert!(rt; first == Ok(LAST) && second == Err(DeskFault::Taken));
    expect_none_left(rt, store, directory, line, program)
}

/// Expects that 1/101 is not there, and that there is no incarnation of 1/100 after its release.
fn expect_none_left(
    rt: &impl Abort,
    store: &Store,
    directory: &mut Directory,
    line: &mut Line,
    program: Id,
) -> Result<(), Fail> {
    let is_other_there = pick(directory, Vc::new(1, 101)?).is_some();
    let is_released = is_released(directory, line, Vc::new(1, 100)?);
    let third = incarnation_of(store, directory, line, ask_own(program)?);
    assert!(rt; !is_other_there && is_released);
    assert!(rt; third == Err(DeskFault::Exhausted));
    Ok(())
}

#[test]
fn the_last_incarnation_is_given_once(rt: HostRuntime) -> Result<(), Fail> {
    let mut store = Arena::new(rt.alloc(), 1)?;
    let mut directory = Directory::new(rt.alloc(), 1, LAST)?;
    let mut line = Line::new(rt.alloc(), 4)?;
    let Ok(program) = load(&mut store, constant(rt.alloc(), 1)?) else {
        return Err(Fail::from("not loaded"));
    };
    expect_one_incarnation(&rt, &store, &mut directory, &mut line, program)
}

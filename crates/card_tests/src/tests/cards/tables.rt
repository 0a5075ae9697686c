//! Tables of steps, each with what its reply says. Every step of a cell or of the desk is about the connection 1/100.

use super::*;

/// A step of a table. A program goes by its number: how many were loaded before it.
#[derive(Clone, Copy)]
pub enum Planned {
    Enter { port: u8, moment: u64 },
    Pick(u8),
    Judge(u8),
    /// Of a program that returns this value for every cell.
    Load(u32),
    Retire(usize),
    /// Under two contracts, each a cell every ten ticks without tolerance.
    Setup(usize),
    Reload(usize),
    Release,
    Cut,
}

/// What a reply says. An entry of a journal and the parts of an owner that no table can get wrong are left out.
#[derive(Clone, Copy, PartialEq, Eq)]
pub enum Seen {
    Entered,
    Picked,
    NotNow,
    /// The cell left line 0 as it came.
    Judged {
        number: u64,
        moment: u64,
        value: u32,
        program: usize,
        verdict: Verdict,
    },
    /// Any other answer to a cell.
    Answered(Answer),
    /// The generation, and the number of the first program that was in the same slot: often its own.
    Loaded {
        slot_of: usize,
        generation: u32,
    },
    /// The returned program gives this value.
    NotLoaded(DeskFault, u32),
    /// The retired program gives this value.
    Retired(u32),
    /// The incarnation. The connection is 1/100.
    SetUp(u64),
    /// The number of the program before.
    Reloaded(usize),
    /// A released or a cut journal of the connection 1/100.
    Journal {
        incarnation: u64,
        entries: usize,
        /// Whether the line is at the end as it was at the start.
        is_still: bool,
        counts: Tally,
    },
    Refused(DeskFault),
    /// A reply about another connection.
    OfAnother(Vc),
}

/// A cell arrives at this port at this moment.
pub fn entered(port: u8, moment: u64) -> (Planned, Seen) {
    (Planned::Enter { port, moment }, Seen::Entered)
}

/// A cell that passed under contract 1.
pub fn passed(number: u64, moment: u64, program: usize) -> Seen {
    Seen::Judged {
        number,
        moment,
        value: 1,
        program,
        verdict: Verdict::Pass,
    }
}

pub fn loaded(slot_of: usize, generation: u32) -> Seen {
    Seen::Loaded {
        slot_of,
        generation,
    }
}

/// The journal of one cell, the first on the line, which passed.
pub fn journal_of_one_cell(incarnation: u64) -> Seen {
    journal(incarnation, 1, false)
}

/// A journal without cells, on a line that has passed one cell before.
pub fn empty_journal(incarnation: u64) -> Seen {
    journal(incarnation, 0, true)
}

/// A journal of a line that has passed one cell.
fn journal(incarnation: u64, entries: usize, is_still: bool) -> Seen {
    Seen::Journal {
        incarnation,
        entries,
        is_still,
        counts: Tally {
            passed: 1,
            tagged: 0,
            discarded: 0,
            refused: 0,
        },
    }
}

/// The id of a program. An id that was never given is used for a number that no program has yet.
fn id_at(programs: &[Id], number: usize) -> Id {
    match programs.get(number) {
        Some(id) => *id,
        None => Id {
            slot: 0,
            generation: 1,
        },
    }
}

/// The number of the program with this id, or how many there are.
fn number_of(programs: &[Id], id: Id) -> usize {
    for (number, other) in programs.iter().enumerate() {
        if *other == id {
            return number;
        }
    }
    programs.len()
}

/// The number of the first program that was in this slot, or how many there are.
fn first_in(programs: &[Id], slot: u16) -> usize {
    for (number, other) in programs.iter().enumerate() {
        if other.slot == slot {
            return number;
        }
    }
    programs.len()
}

/// The value that a program of one instruction gives.
fn value_of(program: &Program) -> u32 {
    match program.code() {
        [Instr::RetK(value)] => *value,
        _ => 0,
    }
}

fn step_of(alloc: Global, programs: &[Id], planned: Planned) -> Result<Step, Fail> {
    let vc = Vc::new(1, 100)?;
    Ok(match planned {
        Planned::Enter { port, moment } => Step::Enter {
            port,
            cell: cell(),
            moment,
        },
        Planned::Pick(port) => Step::Pick { port },
        Planned::Judge(port) => Step::Judge { port },
        Planned::Load(value) => Step::Load(constant(alloc, value)?),
        Planned::Retire(number) => Step::Retire(id_at(programs, number)),
        Planned::Setup(number) => Step::Setup(ask_for_two(id_at(programs, number))?),
        Planned::Reload(number) => Step::Reload {
            vc,
            program: id_at(programs, number),
        },
        Planned::Release => Step::Release(vc),
        Planned::Cut => Step::Cut(vc),
    })
}

/// A connection with two contracts, each a cell every ten ticks without tolerance.
fn ask_for_two(program: Id) -> Result<Ask, Fail> {
    let mut contracts = ArrayVec::new();
    contracts.push(Contract::Cbr1(Gcra::new(10, 0)?));
    contracts.push(Contract::Cbr1(Gcra::new(10, 0)?));
    Ok(Ask {
        vc: Vc::new(1, 100)?,
        program,
        contracts,
    })
}

fn seen_of_answer(programs: &[Id], answer: Answer) -> Seen {
    match answer {
        Answer::Judged {
            line: _,
            number,
            moment,
            value,
            program,
            verdict,
            cell: _,
        } => {
            let as_it_came = Answer::Judged {
                line: 0,
                number,
                moment,
                value,
                program,
                verdict,
                cell: cell(),
            };
            if answer != as_it_came {
                return Seen::Answered(answer);
            }
            Seen::Judged {
                number,
                moment,
                value,
                program: number_of(programs, program),
                verdict,
            }
        }
        _ => Seen::Answered(answer),
    }
}

/// Whether this is the connection of the tables, 1/100.
fn is_own(vc: Vc) -> bool {
    vc.vpi == 1 && vc.vci == 100
}

fn seen_of_piece(piece: &Piece) -> Seen {
    if !is_own(piece.owner().vc) {
        return Seen::OfAnother(piece.owner().vc);
    }
    Seen::Journal {
        incarnation: piece.owner().incarnation,
        entries: piece.entries().len(),
        is_still: piece.start() == piece.end(),
        counts: piece.end().counts,
    }
}

fn seen_of(programs: &[Id], reply: &Reply) -> Seen {
    match reply {
        Reply::Entered => Seen::Entered,
        Reply::Picked => Seen::Picked,
        Reply::NotNow => Seen::NotNow,
        Reply::Answered(answer) => seen_of_answer(programs, *answer),
        Reply::Loaded(id) => Seen::Loaded {
            slot_of: first_in(programs, id.slot),
            generation: id.generation,
        },
        Reply::NotLoaded(fault, program) => Seen::NotLoaded(*fault, value_of(program)),
        Reply::Retired(program) => Seen::Retired(value_of(program)),
        Reply::SetUp(owner) if is_own(owner.vc) => Seen::SetUp(owner.incarnation),
        Reply::SetUp(owner) => Seen::OfAnother(owner.vc),
        Reply::Reloaded(id) => Seen::Reloaded(number_of(programs, *id)),
        Reply::Released(piece) | Reply::Cut(piece) => seen_of_piece(piece),
        Reply::NotSetUp(fault, _) | Reply::Refused(fault) => Seen::Refused(*fault),
    }
}

/// Takes the steps in order on a new card, and expects that each reply says what its row says.
pub fn expect(
    rt: &impl Abort,
    alloc: Global,
    shape: Shape,
    rows: &[(Planned, Seen)],
) -> Result<(), Fail> {
    let mut core = Core::new(alloc, shape)?;
    expect_rows(rt, alloc, &mut core, rows)
}

/// The same on this card. A function that owns a card and can end in several places costs the prover a minute and more.
fn expect_rows(
    rt: &impl Abort,
    alloc: Global,
    core: &mut Core,
    rows: &[(Planned, Seen)],
) -> Result<(), Fail> {
    let mut programs = Vec::new(alloc);
    for (row, (planned, wanted)) in rows.iter().enumerate() {
        let seen = step_seen(alloc, core, &mut programs, *planned)?;
        assert!(rt; seen == *wanted, "row {row}");
    }
    Ok(())
}

/// Takes a step, and returns what its reply says. A loaded program's id is put with the others.
fn step_seen(
    alloc: Global,
    core: &mut Core,
    programs: &mut Vec<Id>,
    planned: Planned,
) -> Result<Seen, Fail> {
    let reply = take(core, step_of(alloc, programs, planned)?);
    if let Reply::Loaded(id) = &reply {
        programs.push(*id)?;
    }
    Ok(seen_of(programs, &reply))
}

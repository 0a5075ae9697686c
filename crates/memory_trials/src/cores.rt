//! The card, step by step. Few functions here have a contract, since they are a test.

use crate::trial::{Attempt, Call, ample_if, refused_if, try_out};
use arrayvec::ArrayVec;
use bpf_code::Instr;
use bpf_verify::{Program, verify};
use card_core::{Answer, Ask, CardFault, Core, DeskFault, PortReply, Reply, Shape, Step};
use gen_arena::Id;
use leaky::Contract;
use std::alloc::{AllocError, Global};
use upc_cell::{Cell, Side, Vc};

/// Two programs, one line, one port.
fn shape() -> Shape {
    Shape {
        programs: 2,
        lines: 1,
        ports: 1,
        journal: 16,
        side: Side::Uni,
    }
}

#[derive(Drop)]
struct MakingCore {
    alloc: Global,
}

impl Call for MakingCore {
    fn make(&mut self) -> Attempt {
        match Core::new(self.alloc, shape()) {
            Ok(core) => ample_if(core.shape() == shape()),
            Err(fault) => refused_if(fault == CardFault::NoMemory),
        }
    }
}

/// `Core::new`.
pub fn try_new_core(alloc: Global) -> Attempt {
    try_out(&mut MakingCore { alloc })
}

/// A program that returns this value for every cell.
fn constant(alloc: Global, value: u32) -> Result<Program, AllocError> {
    let code = vec![in alloc; Instr::RetK(value)]?;
    match verify(code) {
        Ok(program) => Ok(program),
        Err(_) => Err(AllocError),
    }
}

/// Whether this is the program that returns this value for every cell.
fn returns(program: &Program, value: u32) -> bool {
    matches!(program.code(), [Instr::RetK(constant)] if *constant == value)
}

/// The connection of every cell in this file.
fn vc() -> Vc {
    Vc { vpi: 0, vci: 0 }
}

/// Loads two programs.
#[derive(Drop)]
struct Loading<'a> {
    alloc: Global,
    core: &'a mut Core,
    ids: Option<(Id, Id)>,
}

impl Loading<'_> {
    fn steps(&self) -> Result<Vec<Step>, AllocError> {
        let first = Step::Load(constant(self.alloc, 1)?);
        let second = Step::Load(constant(self.alloc, 2)?);
        Ok(vec![in self.alloc; first, second]?)
    }
}

/// Whether these are the steps of `Loading`.
fn are_loads(steps: &[Step]) -> bool {
    match steps {
        [Step::Load(first), Step::Load(second)] => returns(first, 1) && returns(second, 2),
        _ => false,
    }
}

impl Call for Loading<'_> {
    fn make(&mut self) -> Attempt {
        let Ok(steps) = self.steps() else {
            return Attempt::Refused;
        };
        let replies = match self.core.run(self.alloc, steps) {
            Ok(replies) => replies,
            Err(steps) => return refused_if(are_loads(&steps)),
        };
        let [Reply::Loaded(first), Reply::Loaded(second)] = replies.as_slice() else {
            return Attempt::Otherwise;
        };
        self.ids = Some((*first, *second));
        ample_if(first.slot != second.slot && first.generation == 1 && second.generation == 1)
    }
}

/// Sets up the connection with this program.
#[derive(Drop)]
struct SettingUp<'a> {
    alloc: Global,
    core: &'a mut Core,
    program: Id,
}

impl SettingUp<'_> {
    fn steps(&self) -> Result<Vec<Step>, AllocError> {
        let mut contracts = ArrayVec::new();
        contracts.push(Contract::default());
        let ask = Ask {
            vc: vc(),
            program: self.program,
            contracts,
        };
        Ok(vec![in self.alloc; Step::Setup(ask)]?)
    }

    /// Whether this is the request that was made.
    fn is_wanted(&self, ask: &Ask) -> bool {
        let same = matches!(ask.contracts.as_slice(), [one] if *one == Contract::default());
        same && ask.vc == vc() && ask.program == self.program
    }

    /// Whether this is the step that was made.
    fn is_setup(&self, steps: &[Step]) -> bool {
        match steps {
            [Step::Setup(ask)] => self.is_wanted(ask),
            _ => false,
        }
    }
}

impl Call for SettingUp<'_> {
    fn make(&mut self) -> Attempt {
        let Ok(steps) = self.steps() else {
            return Attempt::Refused;
        };
        let replies = match self.core.run(self.alloc, steps) {
            Ok(replies) => replies,
            Err(steps) => return refused_if(self.is_setup(&steps)),
        };
        match replies.as_slice() {
            [Reply::SetUp(owner)] => ample_if(owner.vc == vc() && owner.incarnation == 1),
            [Reply::NotSetUp(DeskFault::NoMemory, ask)] => refused_if(self.is_wanted(ask)),
            _ => Attempt::Otherwise,
        }
    }
}

/// Gives the connection another program between the look-up of a cell and its judgement.
#[derive(Drop)]
struct Policing<'a> {
    alloc: Global,
    core: &'a mut Core,
    first: Id,
    second: Id,
}

impl Policing<'_> {
    fn steps(&self) -> Result<Vec<Step>, AllocError> {
        let enter = Step::Enter {
            port: 0,
            cell: Cell::from([0; 52]),
            moment: 0,
        };
        let reload = Step::Reload {
            vc: vc(),
            program: self.second,
        };
        let in_vain = Step::Load(constant(self.alloc, 3)?);
        let again = Step::Load(constant(self.alloc, 4)?);
        let (pick, judge) = (Step::Pick { port: 0 }, Step::Judge { port: 0 });
        let (retire, once_more) = (Step::Retire(self.first), Step::Retire(self.first));
        Ok(vec![in self.alloc;
            enter, pick, in_vain, reload, judge, retire, again, once_more,
        ]?)
    }

    /// Whether these are the steps that were made.
    fn are_own(&self, steps: &[Step]) -> bool {
        let [
            Step::Enter {
                port: 0,
                cell,
                moment: 0,
            },
            Step::Pick { port: 0 },
            Step::Load(in_vain),
            Step::Reload { vc: of, program },
            Step::Judge { port: 0 },
            Step::Retire(retired),
            Step::Load(again),
            Step::Retire(once_more),
        ] = steps
        else {
            return false;
        };
        let desk = *of == vc() && *program == self.second;
        let loads = returns(in_vain, 3) && returns(again, 4);
        let retires = *retired == self.first && *once_more == self.first;
        *cell == Cell::from([0; 52]) && desk && loads && retires
    }

    fn is_answered_by(&self, replies: &[Reply]) -> bool {
        let [
            Reply::Entered,
            Reply::Picked,
            Reply::NotLoaded(DeskFault::Busy, in_vain),
            Reply::Reloaded(before),
            Reply::Answered(Answer::Judged { program, .. }),
            Reply::Retired(retired),
            Reply::Loaded(id),
            Reply::Refused(DeskFault::NoProgram),
        ] = replies
        else {
            return false;
        };
        returns(in_vain, 3)
            && returns(retired, 1)
            && *before == self.first
            && *program == self.first
            && id.slot == self.first.slot
            && id.generation == 2
    }
}

impl Call for Policing<'_> {
    fn make(&mut self) -> Attempt {
        let Ok(steps) = self.steps() else {
            return Attempt::Refused;
        };
        match self.core.run(self.alloc, steps) {
            Ok(replies) => ample_if(self.is_answered_by(&replies)),
            Err(steps) => refused_if(self.are_own(&steps)),
        }
    }
}

/// Loads two programs, and returns their ids if that succeeds.
fn load_two(alloc: Global, core: &mut Core) -> (Attempt, Option<(Id, Id)>) {
    let mut loading = Loading {
        alloc,
        core,
        ids: None,
    };
    let outcome = try_out(&mut loading);
    (outcome, loading.ids)
}

/// Sets up the connection with this program.
fn set_up(alloc: Global, core: &mut Core, program: Id) -> Attempt {
    try_out(&mut SettingUp {
        alloc,
        core,
        program,
    })
}

/// Polices a cell, with a reload between look-up and judgement.
fn police_one(alloc: Global, core: &mut Core, first: Id, second: Id) -> Attempt {
    try_out(&mut Policing {
        alloc,
        core,
        first,
        second,
    })
}

/// `Core::run`, with a new list wherever a step needs an id that an earlier one returned.
pub fn try_run(alloc: Global) -> Attempt {
    let Ok(mut core) = Core::new(alloc, shape()) else {
        return Attempt::Refused;
    };
    let (loaded, ids) = load_two(alloc, &mut core);
    let Some((first, second)) = ids else {
        return Attempt::Otherwise;
    };
    loaded
        .then(set_up(alloc, &mut core, first))
        .then(police_one(alloc, &mut core, first, second))
}

/// A connection and five of its cells. After the setup, neither the cells nor the release fail, whichever allocation
/// does.
pub fn try_cells(alloc: Global) -> Attempt {
    let Ok(mut core) = Core::new(alloc, shape()) else {
        return Attempt::Refused;
    };
    let (_, ids) = load_two(alloc, &mut core);
    let Some((first, _)) = ids else {
        return Attempt::Refused;
    };
    if set_up_once(alloc, &mut core, first) != Attempt::Ample {
        return Attempt::Refused;
    }
    for moment in 0..5 {
        if !police(&mut core, moment) {
            return Attempt::Otherwise;
        }
    }
    ample_if(hands_out_five(&mut core))
}

/// Sets up the connection with one call.
fn set_up_once(alloc: Global, core: &mut Core, program: Id) -> Attempt {
    let mut setting_up = SettingUp {
        alloc,
        core,
        program,
    };
    setting_up.make()
}

/// The number of entries of a piece, if the reply has one.
fn entries_of(reply: Reply) -> Option<usize> {
    match reply {
        Reply::Cut(piece) | Reply::Released(piece) => Some(piece.entries().len()),
        _ => None,
    }
}

/// Whether the connection's five cells are returned: by the cut, or by the release if the cut has no memory.
fn hands_out_five(core: &mut Core) -> bool {
    let reply = core.step(Step::Cut(vc()));
    let is_refused = matches!(reply, Reply::Refused(DeskFault::NoMemory));
    let cut = entries_of(reply);
    let released = entries_of(core.step(Step::Release(vc())));
    if is_refused {
        released == Some(5)
    } else {
        cut == Some(5) && released == Some(0)
    }
}

/// Whether a cell at this moment was judged.
fn police(core: &mut Core, moment: u64) -> bool {
    core.enter(0, Cell::from([0; 52]), moment);
    core.pick(0);
    matches!(core.judge(0), PortReply::Answered(Answer::Judged { .. }))
}

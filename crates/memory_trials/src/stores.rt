//! Arenas, lines and directories. Few functions here have a contract, since they are a test.

ghost use Rattle.std.specs.Prelude.{◌≡◌, ◌<◌, length};

use crate::trial::{Attempt, Call, ample_if, refused_if, try_out};
use arrayvec::ArrayVec;
use gen_arena::{Arena, ArenaFault, Id};
use leaky::{Contract, Gcra};
use line_record::{DirFault, Directory, Line, LineFault, Owner};
use std::alloc::Global;
use upc_cell::Vc;

/// The number of entries of a journal.
const JOURNAL: u32 = 4;

#[derive(Drop)]
struct MakingArena {
    alloc: Global,
}

impl Call for MakingArena {
    fn make(&mut self) -> Attempt {
        match Arena::<u64>::new(self.alloc, 3) {
            Ok(arena) => ample_if(arena.free() == 3),
            Err(ArenaFault::NoMemory) => Attempt::Refused,
            Err(ArenaFault::NoSlots) => Attempt::Otherwise,
        }
    }
}

/// `Arena::new`.
pub fn try_new_arena(alloc: Global) -> Attempt {
    try_out(&mut MakingArena { alloc })
}

#[derive(Drop)]
struct MakingLine {
    alloc: Global,
}

impl Call for MakingLine {
    fn make(&mut self) -> Attempt {
        match Line::new(self.alloc, JOURNAL) {
            Ok(line) => ample_if(line.is_free()),
            Err(fault) => refused_if(fault == LineFault::NoMemory),
        }
    }
}

/// `Line::new`.
pub fn try_new_line(alloc: Global) -> Attempt {
    try_out(&mut MakingLine { alloc })
}

#[derive(Drop)]
struct Preparing {
    line: Line,
}

impl Call for Preparing {
    fn make(&mut self) -> Attempt
        ensures unchanged { result ≡ Attempt.Refused → self.new.line ≡ self.old.line }
    {
        if self.line.owner().is_some() {
            return Attempt::Otherwise;
        }
        match self.line.prepare() {
            Ok(()) => ample_if(self.line.is_ready()),
            Err(fault) => refused_if(fault == LineFault::NoMemory && self.line.is_free()),
        }
    }
}

/// `Line::prepare`.
pub fn try_prepare(alloc: Global) -> Attempt {
    match Line::new(alloc, JOURNAL) {
        Ok(line) => try_out(&mut Preparing { line }),
        Err(_) => Attempt::Refused,
    }
}

/// The owner of a line: the first incarnation of 1/100.
fn owner() -> Owner {
    Owner {
        vc: Vc { vpi: 1, vci: 100 },
        incarnation: 1,
    }
}

/// One contract: a cell every ten ticks.
fn contracts() -> ArrayVec<Contract, 4>
    ensures { 0 < length result.items }
{
    let mut contracts = ArrayVec::new();
    contracts.push(Contract::default());
    contracts
}

#[derive(Drop)]
struct Opening {
    line: Line,
}

impl Call for Opening {
    fn make(&mut self) -> Attempt
        ensures unchanged { result ≡ Attempt.Refused → self.new.line ≡ self.old.line }
    {
        if self.line.owner().is_some() {
            return Attempt::Otherwise;
        }
        match self.line.open(owner(), contracts()) {
            Ok(()) => ample_if(self.line.owner() == Some(owner())),
            Err((fault, handed_back)) => refused_if(
                fault == LineFault::NoMemory && handed_back == contracts() && self.line.is_free(),
            ),
        }
    }
}

/// `Line::open`.
pub fn try_open(alloc: Global) -> Attempt {
    match Line::new(alloc, JOURNAL) {
        Ok(line) => try_out(&mut Opening { line }),
        Err(_) => Attempt::Refused,
    }
}

/// An id that an arena gave, or none if an allocation fails.
fn some_id(alloc: Global) -> Option<Id> {
    let mut arena = Arena::<u64>::new(alloc, 1).ok()?;
    arena.insert(0).ok()
}

/// A line that serves its owner and has judged one cell.
fn line_of_one_cell(alloc: Global) -> Option<Line> {
    let program = some_id(alloc)?;
    let mut line = Line::new(alloc, JOURNAL).ok()?;
    if line.owner().is_some() || line.open(owner(), contracts()).is_err() {
        return None;
    }
    if line.owner().is_none() || line.judge(0, false, 1, program).is_err() {
        return None;
    }
    Some(line)
}

#[derive(Drop)]
struct Cutting {
    line: Line,
}

impl Call for Cutting {
    fn make(&mut self) -> Attempt
        ensures unchanged { result ≡ Attempt.Refused → self.new.line ≡ self.old.line }
    {
        if self.line.owner().is_none() {
            return Attempt::Otherwise;
        }
        match self.line.cut() {
            Ok(piece) => ample_if(piece.entries().len() == 1 && self.line.entries().is_empty()),
            Err(fault) => {
                refused_if(fault == LineFault::NoMemory && self.line.entries().len() == 1)
            }
        }
    }
}

/// `Line::cut`.
pub fn try_cut(alloc: Global) -> Attempt {
    match line_of_one_cell(alloc) {
        Some(line) => try_out(&mut Cutting { line }),
        None => Attempt::Refused,
    }
}

#[derive(Drop)]
struct MakingDirectory {
    alloc: Global,
}

impl Call for MakingDirectory {
    fn make(&mut self) -> Attempt {
        match Directory::new(self.alloc, 2, 1) {
            Ok(directory) => ample_if(directory.free_line().is_some()),
            Err(fault) => refused_if(fault == DirFault::NoMemory),
        }
    }
}

/// `Directory::new`.
pub fn try_new_directory(alloc: Global) -> Attempt {
    try_out(&mut MakingDirectory { alloc })
}

#[derive(Drop)]
struct Putting {
    directory: Directory,
    program: Id,
}

impl Call for Putting {
    fn make(&mut self) -> Attempt
        ensures unchanged { result ≡ Attempt.Refused → self.new.directory ≡ self.old.directory }
    {
        let vc = owner().vc;
        let Some(line) = self.directory.free_line() else {
            return Attempt::Otherwise;
        };
        if self.directory.worn() || self.directory.find(vc).is_some() {
            return Attempt::Otherwise;
        }
        match self.directory.put(vc, line, self.program) {
            Ok(incarnation) => ample_if(incarnation == 1 && self.directory.find(vc).is_some()),
            Err(fault) => {
                refused_if(fault == DirFault::NoMemory && self.directory.find(vc).is_none())
            }
        }
    }
}

/// `Directory::put`.
pub fn try_put(alloc: Global) -> Attempt {
    let Some(program) = some_id(alloc) else {
        return Attempt::Refused;
    };
    match Directory::new(alloc, 2, 1) {
        Ok(directory) => try_out(&mut Putting { directory, program }),
        Err(_) => Attempt::Refused,
    }
}

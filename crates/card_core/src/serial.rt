//! The core: a card that takes its steps one at a time.

ghost use Rattle.std.specs.Prelude.{◌≡◌, ℕ};

use crate::answer::{Answer, Judgement, Unjudged};
use crate::ask::Ask;
use crate::desk;
use crate::desk_lines::{cut_line, free_lines, release_line, setup_line};
use crate::fault::{CardFault, DeskFault};
use crate::judging::{drop_if_long, judgement_at};
use crate::picking::{Store, name, pick};
use crate::port::{
    Came, Found, Port, are_outside, entered_at, is_idle_at, move_port, outside_ports, picked_at,
};
use crate::reply::{
    PortReply, Reply, of_cut, of_load, of_release, of_reload, of_retire, of_setup, whole,
};
use crate::shape::{Shape, refusal};
use crate::step::Step;
use bpf_verify::Program;
use gen_arena::{Arena, Id};
use line_record::{Directory, Line, Owner, Piece, Seating};
use std::alloc::Global;
use std::marker::Model;
use upc_cell::{Cell, Side, Vc};

/// A card that takes its steps one at a time.
#[derive(Drop)]
pub struct Core {
    shape: Shape,
    pub(crate) store: Store,
    pub(crate) directory: Directory,
    pub(crate) lines: Vec<Line>,
    pub(crate) ports: Vec<Port>,
}

impl Model for Core {
    ghost use Rattle.card_core.specs.Agreement.{CoreView};
    ghost use Rattle.card_core.specs.inner.Ports.{states_of, IsCore};

    ghost Value = { CoreView };

    ghost view = { λ c. record {
      shape = c.shape;
      store = c.store;
      directory = c.directory;
      lines = c.lines.items;
      ports = states_of c.ports.items;
    } };

    ghost invariant = { λ c. IsCore c.directory c.lines.items c.ports.items };
}

impl Core {
    ghost use Rattle.std.specs.Prelude.{◌≡◌, ◌≢◌, ◌⊎◌, ℕ, length, None, Some, Err, IfOk, IfErr, IfSome, IfNone, OnErr, MatchResult};
    ghost use Rattle.card_core.specs.World.{opening_world};
    ghost use Rattle.card_core.specs.Shapes.{shape_fault};
    ghost use Rattle.card_core.specs.declared.step.Step.TheVariants.{Enter, Pick, Judge, Load, Retire, Setup, Reload, Release, Cut};
    ghost use Rattle.card_core.specs.Agreement.{CoreAgrees, Follows, FollowsAll};
    ghost use Rattle.card_core.specs.Arrival.{AnswersArrival, AnswersDropping, IsWorn};
    ghost use Rattle.upc_cell.specs.Connection.{vc_of};
    ghost use Rattle.card_core.specs.Inspection.{load_fault_of, IsRetireFault, PutsIn, TakesOut};
    ghost use Rattle.card_core.specs.Kept.{RefusalKeeps, ReservesNothing, StepReserves, AnswersSteps};
    ghost use Rattle.card_core.specs.Sections.{answer_to};
    ghost use Rattle.card_core.specs.PortReplies.{reply_of};
    ghost use Rattle.card_core.specs.DeskReplies.{load_reply, retire_reply, setup_reply, reload_reply, release_reply, cut_reply};
    ghost use Rattle.card_core.specs.Stale.{IsNeverStale};

    /// Makes a card of this shape, without programs and connections. No port has a cell.
    ///
    /// # Errors
    ///
    /// `Programs`, `Lines`, `Ports` or `Journal` for the first number of the shape that is out of its limits. Otherwise
    /// `NoMemory` if an allocation fails.
    pub fn new(alloc: Global, shape: Shape) -> Result<Self, CardFault>
        ensures agrees { IfOk result (λ core. CoreAgrees core (opening_world shape)) }
        ensures refused { MatchResult result
            (λ _. shape_fault shape ≡ None)
            (λ fault. (shape_fault shape ≡ Some fault)
            ⊎ ((shape_fault shape ≡ None) × (fault ≡ CardFault.NoMemory))) }
    {
        if let Some(fault) = refusal(&shape) {
            return Err(fault);
        }
        let Ok(store) = Arena::new(alloc, shape.programs as u16) else {
            return Err(CardFault::NoMemory);
        };
        let Ok(directory) = Directory::new(alloc, shape.lines as u16, 1) else {
            return Err(CardFault::NoMemory);
        };
        let Some(lines) = free_lines(alloc, shape.lines as usize, shape.journal as u32) else {
            return Err(CardFault::NoMemory);
        };
        let Some(ports) = outside_ports(alloc, shape.ports as usize) else {
            return Err(CardFault::NoMemory);
        };
        Ok(Core {
            shape,
            store,
            directory,
            lines,
            ports,
        })
    }

    /// Returns the shape of the card.
    pub fn shape(&self) -> Shape
        ensures { result ≡ self.now.shape }
    {
        self.shape
    }

    /// Takes one step of a port or of the desk, and returns the reply.
    pub fn step(&mut self, step: Step) -> Reply
        ensures follows { Follows self.old step result self.new }
        ensures unchanged { RefusalKeeps result step self.old self.new }
        ensures reserves { StepReserves result self.old self.new }

        // Judge doesn't allocate. A step uses what it looks up before another step can change it.
        ensures judged { (port : ℕ) → step ≡ Judge port → result ≢ Reply.Answered Answer.NoMemory }
        ensures fresh { IsNeverStale self.old result }
    {
        self.take(step)
    }

    /// Takes one step. This contract implies that the reply is never Stale, and the contract of [`Core::step`] states it.
    fn take(&mut self, step: Step) -> Reply
        ensures follows { Follows self.old step result self.new }
        ensures unchanged { RefusalKeeps result step self.old self.new }
        ensures reserves { StepReserves result self.old self.new }
        ensures judged { (port : ℕ) → step ≡ Judge port → result ≢ Reply.Answered Answer.NoMemory }
    {
        match step {
            Step::Enter { port, cell, moment } => whole(self.enter(port, cell, moment)),
            Step::Pick { port } => whole(self.pick(port)),
            Step::Judge { port } => whole(self.judge(port)),
            Step::Load(program) => of_load(self.load(program)),
            Step::Retire(id) => of_retire(self.retire(id)),
            Step::Setup(ask) => of_setup(self.setup(ask)),
            Step::Reload { vc, program } => of_reload(self.reload(vc, program)),
            Step::Release(vc) => of_release(self.release(vc)),
            Step::Cut(vc) => of_cut(self.cut(vc)),
        }
    }

    /// Takes the steps in order. Allocates the list of replies first.
    ///
    /// # Errors
    ///
    /// If that allocation fails, returns the steps and changes nothing.
    pub fn run(&mut self, alloc: Global, steps: Vec<Step>) -> Result<Vec<Reply>, Vec<Step>>
        ensures follows { IfOk result (λ replies.
            FollowsAll self.old steps.items replies.items self.new) }
        ensures one_each { IfOk result (λ replies. length replies.items ≡ length steps.items) }

        // Each step is taken from the core that the step before left, and each refusal changes no more than it may.
        ensures each { IfOk result (λ replies.
            AnswersSteps self.old steps.items replies.items self.new) }
        ensures returned { IfErr result (λ returned. returned.items ≡ steps.items) }
        ensures unchanged { OnErr result (self.new ≡ self.old) }
    {
        let Ok(mut replies) = Vec::with_capacity(alloc, steps.len()) else {
            return Err(steps);
        };
        for step in steps {
            replies.push_reserved(self.step(step));
        }
        Ok(replies)
    }

    /// A cell enters a port: the step `Enter`.
    pub fn enter(&mut self, port: u8, cell: Cell, moment: u64) -> PortReply
        ensures follows { Follows self.old (Enter port cell moment) (reply_of result) self.new }
        ensures unchanged { RefusalKeeps (reply_of result) (Enter port cell moment) self.old self.new }
        ensures rest { self.new ≡ record self.old { ports = self.new.ports } }
    {
        if !is_idle_at(&self.ports, port) {
            return PortReply::NotNow;
        }
        move_port(&mut self.ports, port, Port::Entered(Came { cell, moment }));
        PortReply::Entered
    }

    /// Looks up the connection of the port's cell and runs its program on the cell: the step `Pick`. The program's value names a contract,
    /// or none.
    pub fn pick(&mut self, port: u8) -> PortReply
        ensures follows { Follows self.old (Pick port) (reply_of result) self.new }
        ensures unchanged { RefusalKeeps (reply_of result) (Pick port) self.old self.new }
        ensures rest { self.new ≡ record self.old { ports = self.new.ports } }
    {
        let Some(came) = entered_at(&self.ports, port) else {
            return PortReply::NotNow;
        };
        let side = self.shape.side;
        match look_up_and_run(&self.store, &self.directory, side, &came.cell, came.moment) {
            Ok(found) => {
                move_port(&mut self.ports, port, Port::Picked(found));
                PortReply::Picked
            }
            Err(reason) => {
                move_port(&mut self.ports, port, Port::Outside);
                PortReply::Answered(reason.answer())
            }
        }
    }

    /// Judges the port's cell by the contract that its program named: the step `Judge`. If the program named none, the verdict is Refuse.
    pub fn judge(&mut self, port: u8) -> PortReply
        ensures follows { Follows self.old (Judge port) (reply_of result) self.new }
        ensures unchanged { RefusalKeeps (reply_of result) (Judge port) self.old self.new }
        ensures reserves { StepReserves (reply_of result) self.old self.new }
        ensures rest { self.new ≡ record self.old { lines = self.new.lines; ports = self.new.ports } }
        ensures memory { reply_of result ≢ Reply.Answered Answer.NoMemory }
    {
        let Some(found) = picked_at(&self.ports, port) else {
            return PortReply::NotNow;
        };
        let answer = judge_line(&mut self.lines, found);
        move_port(&mut self.ports, port, Port::Outside);
        PortReply::Answered(answer)
    }

    /// Takes all steps of a cell at a port: `Enter`, `Pick` and, if its connection is found, `Judge`. Returns the
    /// judgement, or why the cell isn't judged. The cell that leaves is the one passed here, or `Cell::tagged` of it if the verdict is Tag.
    /// Returns None if the port has a cell or there is no such port. Changes nothing unless the cell is judged.
    #[inline(always)]
    pub fn arrive(
        &mut self,
        port: u8,
        cell: &Cell,
        moment: u64,
    ) -> Option<Result<Judgement, Unjudged>>
        ensures answered { IfSome result (λ decision.
            AnswersArrival self.old port cell.now moment (answer_to cell.now decision) self.new) }
        ensures not_now { IfNone result (Follows self.old (Enter port cell.now moment) Reply.NotNow self.new) }
        ensures rest { self.new ≡ record self.old { lines = self.new.lines } }
        ensures reserves { ReservesNothing self.old self.new }
        ensures unchanged { IfNone result (self.new ≡ self.old) }
        ensures refused { IfSome result (λ decision. OnErr decision (self.new ≡ self.old)) }
        ensures memory { IfSome result (λ decision. answer_to cell.now decision ≢ Answer.NoMemory) }
    {
        if !is_idle_at(&self.ports, port) {
            return None;
        }
        // The port isn't written: it has no cell before this call and after it, and nothing reads it in between.
        let side = self.shape.side;
        let picked = look_up_and_run(&self.store, &self.directory, side, cell, moment);
        match picked {
            Ok(found) => Some(judgement_on_line(&mut self.lines, &found)),
            Err(reason) => Some(Err(reason)),
        }
    }

    /// Takes all steps of a cell at a port, as [`Core::arrive`] does, for users who don't keep journals. If the cell's
    /// connection is found, and its journal is full or has `most` entries or more, the journal is dropped before the cell is
    /// judged, as by a cut whose piece nobody keeps. A journal that stays short stays in the processor's cache. Doesn't
    /// allocate. Returns None if the port has a cell or there is no such port. Then nothing changes.
    #[inline(always)]
    pub fn arrive_dropping(
        &mut self,
        port: u8,
        cell: &Cell,
        moment: u64,
        most: usize,
    ) -> Option<Result<Judgement, Unjudged>>
        ensures answered { IfSome result (λ decision.
            AnswersDropping most self.old port cell.now moment (answer_to cell.now decision) self.new) }
        ensures not_now { IfNone result (Follows self.old (Enter port cell.now moment) Reply.NotNow self.new) }
        ensures rest { self.new ≡ record self.old { lines = self.new.lines } }
        ensures reserves { ReservesNothing self.old self.new }
        ensures unchanged { IfNone result (self.new ≡ self.old) }
        ensures memory { IfSome result (λ decision. answer_to cell.now decision ≢ Answer.NoMemory) }

        // The cell finds room in the journal, so JournalFull means that 2^62 cells were judged on the line.
        ensures full { IfSome result (λ decision. answer_to cell.now decision ≡ Answer.JournalFull
            → IsWorn self.old (vc_of self.old.shape.side cell.now)) }
    {
        if !is_idle_at(&self.ports, port) {
            return None;
        }
        let side = self.shape.side;
        let picked = look_up_and_run(&self.store, &self.directory, side, cell, moment);
        match picked {
            Ok(found) => {
                drop_long_journal(&mut self.lines, found.vc, &found.seating, most);
                Some(judgement_on_line(&mut self.lines, &found))
            }
            Err(reason) => Some(Err(reason)),
        }
    }

    /// Loads a program: the step `Load`. Programs are loaded and retired only while no port has a cell, so no program
    /// is retired while a cell is at a port.
    ///
    /// # Errors
    ///
    /// `Busy` if a port has a cell; otherwise `ProgramsFull` if no slot is free. Each error returns the program.
    pub fn load(&mut self, program: Program) -> Result<Id, (DeskFault, Program)>
        ensures follows { Follows self.old (Load program) (load_reply result) self.new }
        ensures unchanged { RefusalKeeps (load_reply result) (Load program) self.old self.new }
        ensures rest { self.new ≡ record self.old { store = self.new.store } }

        // It is refused if and only if there is a fault. Then nothing changes, and the program is returned.
        ensures fault { MatchResult result
            (λ _. load_fault_of self.old ≡ None)
            (λ refused. load_fault_of self.old ≡ Some refused.0) }
        ensures returned { IfErr result (λ refused. refused.1 ≡ program) }
        ensures kept { OnErr result (self.new ≡ self.old) }
        ensures put_in { IfOk result (λ id. PutsIn self.old id program self.new) }
    {
        if !are_outside(&self.ports) {
            return Err((DeskFault::Busy, program));
        }
        desk::load(&mut self.store, program)
    }

    /// Retires a program: the step `Retire`. Like `Load`, it needs every port without a cell.
    ///
    /// # Errors
    ///
    /// `Busy` if a port has a cell; otherwise `NoProgram` if the id isn't live; otherwise `InUse` if some connection
    /// names it.
    pub fn retire(&mut self, id: Id) -> Result<Program, DeskFault>
        ensures follows { Follows self.old (Retire id) (retire_reply result) self.new }
        ensures unchanged { RefusalKeeps (retire_reply result) (Retire id) self.old self.new }
        ensures rest { self.new ≡ record self.old { store = self.new.store } }

        // It is refused if and only if there is a fault. Then nothing changes.
        ensures fault { MatchResult result
            (λ _. IsRetireFault self.old id None)
            (λ fault. IsRetireFault self.old id (Some fault)) }
        ensures kept { OnErr result (self.new ≡ self.old) }
        ensures taken_out { IfOk result (λ program. TakesOut self.old id program self.new) }
    {
        if !are_outside(&self.ports) {
            return Err(DeskFault::Busy);
        }
        desk::retire(&mut self.store, &self.directory, id)
    }

    /// Sets up a connection: the step `Setup`. An allocation may fail even if there is no other error.
    ///
    /// # Errors
    ///
    /// The first of `NoProgram`, `Taken`, `BadContracts`, `NoLine` and `Exhausted` that applies (see [`desk::admit`]).
    /// Otherwise `NoMemory` if an allocation fails. Each error returns the request.
    pub fn setup(&mut self, ask: Ask) -> Result<Owner, (DeskFault, Ask)>
        ensures follows { Follows self.old (Setup ask) (setup_reply result) self.new }
        ensures unchanged { RefusalKeeps (setup_reply result) (Setup ask) self.old self.new }
        ensures reserves { StepReserves (setup_reply result) self.old self.new }
        ensures returned { IfErr result (λ refused. refused.1 ≡ ask) }
        ensures rest { self.new ≡ record self.old { directory = self.new.directory; lines = self.new.lines } }
    {
        let number = match desk::admit(&self.store, &self.directory, &ask) {
            Ok(number) => number,
            Err(fault) => return Err((fault, ask)),
        };
        setup_line(&mut self.directory, &mut self.lines, number, ask)
    }

    /// Gives a connection another program and returns the earlier one: the step `Reload`.
    ///
    /// # Errors
    ///
    /// `NoProgram` if the id isn't live; otherwise `NoConnection` if there is no such connection.
    pub fn reload(&mut self, vc: Vc, program: Id) -> Result<Id, DeskFault>
        ensures follows { Follows self.old (Reload vc program) (reload_reply result) self.new }
        ensures unchanged { RefusalKeeps (reload_reply result) (Reload vc program) self.old self.new }
        ensures rest { self.new ≡ record self.old { directory = self.new.directory } }
    {
        desk::reload(&self.store, &mut self.directory, vc, program)
    }

    /// Releases a connection and returns its last journal: the step `Release`.
    ///
    /// # Errors
    ///
    /// `NoConnection` if there is no such connection.
    pub fn release(&mut self, vc: Vc) -> Result<Piece, DeskFault>
        ensures follows { Follows self.old (Release vc) (release_reply result) self.new }
        ensures unchanged { RefusalKeeps (release_reply result) (Release vc) self.old self.new }
        ensures reserves { StepReserves (release_reply result) self.old self.new }
        ensures rest { self.new ≡ record self.old { directory = self.new.directory; lines = self.new.lines } }
    {
        let Some(seating) = pick(&self.directory, vc) else {
            return Err(DeskFault::NoConnection);
        };
        release_line(&mut self.directory, &mut self.lines, vc, &seating)
    }

    /// Returns a connection's journal and begins a new one: the step `Cut`.
    ///
    /// # Errors
    ///
    /// `NoConnection` if there is no such connection; otherwise `NoMemory` if an allocation fails.
    pub fn cut(&mut self, vc: Vc) -> Result<Piece, DeskFault>
        ensures follows { Follows self.old (Cut vc) (cut_reply result) self.new }
        ensures unchanged { RefusalKeeps (cut_reply result) (Cut vc) self.old self.new }
        ensures reserves { StepReserves (cut_reply result) self.old self.new }
        ensures rest { self.new ≡ record self.old { lines = self.new.lines } }
    {
        let Some(seating) = pick(&self.directory, vc) else {
            return Err(DeskFault::NoConnection);
        };
        cut_line(&mut self.lines, vc, &seating)
    }
}

ghost use Rattle.std.specs.Prelude.{◌<◌, ◌≢◌, length, IfOk, OnErr, MatchResult};
ghost use Rattle.card_core.specs.Sections.{answer_to, unjudged_answer};
ghost use Rattle.upc_cell.specs.Connection.{vc_of};
ghost use Rattle.card_core.specs.inner.Parts.{IsFound, IsMissed, ChangesLine, JudgesOrRefuses, DropsIfLong, HasRoomFor};

/// Returns the seating of the cell's connection, and the value that its program gives for the cell. Every cell passes through this
/// function and [`judgement_on_line`]. Both are inlined, since a call would copy the cell.
#[inline(always)]
fn look_up_and_run(
    store: &Store,
    directory: &Directory,
    side: Side,
    cell: &Cell,
    moment: u64,
) -> Result<Found, Unjudged>
    ensures found { MatchResult result
        (λ found. IsFound store.now directory.now side (record { cell = cell.now; moment = moment }) found)
        (λ reason. IsMissed store.now directory.now (vc_of side cell.now) (unjudged_answer reason)) }
    ensures within { IfOk result (λ found. found.seating.line < directory.now.lines) }
{
    let vc = cell.vc_at(side);
    let Some(seating) = pick(directory, vc) else {
        return Err(Unjudged::NoConnection);
    };
    let Some(named) = name(store, seating.program, cell) else {
        return Err(Unjudged::Stale);
    };
    Ok(Found {
        moment,
        vc,
        seating,
        named,
    })
}

/// Drops the journal of a connection's line, if it is full or has `most` entries or more.
#[inline(always)]
fn drop_long_journal(lines: &mut Vec<Line>, vc: Vc, seating: &Seating, most: usize)
    requires { seating.now.line < length lines.old.items }
    ensures line { ChangesLine lines.old.items seating.now.line
        (λ line next. DropsIfLong most vc seating.now line next × HasRoomFor vc seating.now line next) lines.new.items }
    ensures many { length lines.new.items ≡ length lines.old.items }
{
    let line = &mut lines[usize::from(seating.line)];
    drop_if_long(line, vc, seating, most);
}

/// Judges a picked cell on its line. Returns the judgement without the leaving cell.
#[inline(always)]
fn judgement_on_line(lines: &mut Vec<Line>, found: &Found) -> Result<Judgement, Unjudged>
    requires { found.now.seating.line < length lines.old.items }
    ensures line { ChangesLine lines.old.items found.now.seating.line
        (JudgesOrRefuses found.now (answer_to found.now.named.cell result)) lines.new.items }
    ensures unchanged { OnErr result (lines.new.items ≡ lines.old.items) }
    ensures memory { answer_to found.now.named.cell result ≢ Answer.NoMemory }
    ensures program_live { answer_to found.now.named.cell result ≢ Answer.Stale }
    ensures connection { answer_to found.now.named.cell result ≢ Answer.NoConnection }
{
    let line = &mut lines[usize::from(found.seating.line)];
    judgement_at(line, found.vc, &found.seating, &found.named, found.moment)
}

/// Judges a picked cell on its line.
fn judge_line(lines: &mut Vec<Line>, found: &Found) -> Answer
    requires { found.now.seating.line < length lines.old.items }
    ensures line { ChangesLine lines.old.items found.now.seating.line
        (JudgesOrRefuses found.now result) lines.new.items }
    ensures memory { result ≢ Answer.NoMemory }
{
    match judgement_on_line(lines, found) {
        Ok(judged) => judged.answer(&found.named.cell()),
        Err(reason) => reason.answer(),
    }
}

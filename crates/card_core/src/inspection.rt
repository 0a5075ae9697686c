//! Reads of a core, without a step.

use crate::connection_state::{ConnectionState, next_among, state_of};
use crate::fault::DeskFault;
use crate::picking::pick;
use crate::port::are_outside;
use crate::serial::Core;
use crate::sums::{Totals, totals_of};
use bpf_verify::Program;
use gen_arena::Id;
use line_record::Line;
use upc_cell::Vc;

impl Core {
    ghost use Rattle.std.specs.Prelude.{◌≡◌, ◌^◌, None, IfSome, MatchOption, option_copied};
    ghost use Rattle.gen_arena.specs.Live.{live_value};
    ghost use Rattle.card_core.specs.Agreement.{CoreAgrees};
    ghost use Rattle.card_core.specs.ConnectionState.{HasLevelsForEach, IsLastVc, IsNextVc, IsStateIn};
    ghost use Rattle.card_core.specs.Sums.{totals_of, AreAtMost};
    ghost use Rattle.card_core.specs.World.{World, connection_in};
    ghost use Rattle.card_core.specs.Inspection.{line_at, load_fault_of, IsRetireFault};

    /// Returns the line that serves a connection, with its counts, its journal and its contracts. None if and only if
    /// there is no such connection.
    pub fn line_of(&self, vc: Vc) -> Option<&Line>
        ensures line { option_copied result ≡ line_at self.now vc }
    {
        let seating = pick(&self.directory, vc)?;
        Some(&self.lines[usize::from(seating.line)])
    }

    /// Returns the contracts and the state of a connection. None if and only if there is no such connection. Doesn't
    /// allocate.
    pub fn line_state(&self, vc: Vc) -> Option<ConnectionState>
        // For any world that the core agrees with.
        ensures state { (world : World) → CoreAgrees self.now world → MatchOption result
            (connection_in world.connections vc ≡ None)
            (IsStateIn world vc) }
        ensures sized { IfSome result HasLevelsForEach }
    {
        let seating = pick(&self.directory, vc)?;
        Some(state_of(&seating, &self.lines[usize::from(seating.line)]))
    }

    /// Returns the first connection after `after`, by path and then by channel, or the first of all. None if and only if
    /// there is none. Looks at each line. Doesn't allocate.
    pub fn next_vc(&self, after: Option<Vc>) -> Option<Vc>
        // For any world that the core agrees with.
        ensures { (world : World) → CoreAgrees self.now world → MatchOption result
            (IsLastVc world after)
            (IsNextVc world after) }
    {
        next_among(&self.lines, after)
    }

    /// Returns the program of this id. None if and only if the id isn't live.
    pub fn program_of(&self, id: Id) -> Option<&Program>
        ensures program { option_copied result ≡ live_value self.now.store id }
    {
        self.store.get(id)
    }

    /// Returns for each verdict the sum of the counts of all lines since the card was made.
    pub fn totals(&self) -> Totals
        ensures sums { result ≡ totals_of self.now.lines }
        ensures bounded { AreAtMost result (2 ^ 76) }
    {
        totals_of(&self.lines)
    }

    /// Returns why no program can be loaded now: `Busy` if a port has a cell; otherwise `ProgramsFull` if no slot is
    /// free. None if and only if [`Core::load`] would succeed.
    pub fn load_fault(&self) -> Option<DeskFault>
        ensures { result ≡ load_fault_of self.now }
    {
        if !are_outside(&self.ports) {
            return Some(DeskFault::Busy);
        }
        if self.store.free() == 0 {
            return Some(DeskFault::ProgramsFull);
        }
        None
    }

    /// Returns why the program of this id can't be retired now: `Busy` if a port has a cell; otherwise `NoProgram` if
    /// the id isn't live; otherwise `InUse` if some connection names it. None if and only if [`Core::retire`] would
    /// succeed.
    pub fn retire_fault(&self, id: Id) -> Option<DeskFault>
        ensures { IsRetireFault self.now id result }
    {
        if !are_outside(&self.ports) {
            return Some(DeskFault::Busy);
        }
        if !self.store.holds(id) {
            return Some(DeskFault::NoProgram);
        }
        if self.directory.names(id) {
            return Some(DeskFault::InUse);
        }
        None
    }
}

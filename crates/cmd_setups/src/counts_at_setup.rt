//! The counts that lines had when their connections were set up.

ghost use Rattle.std.specs.Prelude.{◌≡◌, []};
ghost use Rattle.cmd_setups.specs.CountsAtSetup.{counts_of_line};
ghost use Rattle.cmd_setups.specs.inner.CountsSince.{AreOwnCounts, counts_since};

use card_core::Core;
use line_record::Tally;
use std::alloc::{AllocError, Global};
use upc_cell::Vc;

/// The counts that each line had when its present connection was set up. The card counts all cells of a line, also those
/// of connections that were released.
#[derive(Drop)]
pub struct CountsAtSetup {
    /// By the number of the line, from 0. A line beyond the end had counted no cell.
    pub counts: Vec<Tally>,
}

/// Returns the counts without those at the setup.
fn counts_since(counts: Tally, at_setup: Tally) -> Tally
    ensures { result ≡ counts_since counts at_setup }
{
    Tally {
        passed: counts.passed.saturating_sub(at_setup.passed),
        tagged: counts.tagged.saturating_sub(at_setup.tagged),
        discarded: counts.discarded.saturating_sub(at_setup.discarded),
        refused: counts.refused.saturating_sub(at_setup.refused),
    }
}

impl CountsAtSetup {
    ghost use Rattle.std.specs.Prelude.{OnOk};
    ghost use Rattle.card_core.specs.Agreement.{CoreAgrees};
    ghost use Rattle.card_core.specs.World.{World};
    ghost use Rattle.cmd_setups.specs.inner.NotedSetups.{NotesSetup, SetsCounts};

    /// Makes those of a card that has counted no cell.
    pub(crate) fn new(alloc: Global) -> Self
        ensures { result.counts.items ≡ [] }
    {
        CountsAtSetup {
            counts: Vec::new(alloc),
        }
    }

    /// Returns the counts of a line at the setup of its connection.
    fn counts_of_line(&self, line: u16) -> Tally
        ensures { result ≡ counts_of_line self.now.counts.items line }
    {
        match self.counts.get(usize::from(line)) {
            Some(counts) => *counts,
            None => Tally::new(),
        }
    }

    /// Sets the counts of a line.
    fn set(&mut self, line: u16, counts: Tally) -> Result<(), AllocError>
        ensures { OnOk result (SetsCounts self.old.counts.items line counts self.new.counts.items) }
    {
        let place = usize::from(line);
        for _ in self.counts.len()..place + 1 {
            self.counts.push(Tally::new())?;
        }
        self.counts[place] = counts;
        Ok(())
    }

    /// Records what the line of this connection has counted now, just after the setup. If there is no such connection, nothing changes.
    pub(crate) fn record_setup(&mut self, core: &Core, vc: Option<Vc>) -> Result<(), AllocError>
        ensures { OnOk result ((world : World) → CoreAgrees core.now world → NotesSetup world vc self.old.counts.items self.new.counts.items) }
    {
        let Some(vc) = vc else {
            return Ok(());
        };
        match core.line_state(vc) {
            Some(state) => self.set(state.line, state.state.counts),
            None => Ok(()),
        }
    }

    /// Returns the counts of a connection since its setup, if the card has it.
    pub(crate) fn own_counts(&self, core: &Core, vc: Vc) -> Option<Tally>
        ensures { AreOwnCounts core.now self.now.counts.items vc result }
    {
        match core.line_state(vc) {
            Some(state) => Some(counts_since(state.state.counts, self.counts_of_line(state.line))),
            None => None,
        }
    }
}

//! A setup script, carried out command by command, with the counts that each line of the card had when its connection was set up.

ghost use Rattle.std.specs.Prelude.{◌≡◌, OnOk};
ghost use Rattle.card_core.specs.Agreement.{CoreAgrees};
ghost use Rattle.card_core.specs.World.{World};
ghost use Rattle.text_io.specs.Words.{words_of};
ghost use Rattle.cmd_run.specs.ShownCard.{AnswersLine};
ghost use Rattle.text_script.specs.CommandSeen.{command_seen};
ghost use Rattle.text_script.specs.ScriptCommands.{command_of};
ghost use Rattle.cmd_setups.specs.inner.NotedSetups.{IsNewIn, IsSetupOf, MovesNoting};

use crate::counts_at_setup::CountsAtSetup;
use card_core::Core;
use cmd_run::{Policing, ScriptCard};
use std::alloc::{AllocError, Global};
use text_io::{Done, Machine, Turn};
use text_script::{Command, read_command};
use upc_cell::{Side, Vc};

/// Returns the connection that a command sets up.
fn set_up_by(command: Command<'_>) -> Option<Vc>
    ensures { IsSetupOf (command_seen command.entry) result }
{
    match command {
        Command::Setup(vc, _, _) => Some(vc),
        Command::Load(_) => None,
        Command::Retire(_) => None,
        Command::Reload(_, _) => None,
        Command::Release(_) => None,
        Command::Cut(_) => None,
        Command::Cell(_, _) => None,
    }
}

/// Returns the connection that the command of a line sets up.
fn set_up_in(side: Side, line: &[u8]) -> Option<Vc>
    ensures { IsSetupOf (command_of side (words_of line.now)) result }
{
    match read_command(side, line) {
        Some(command) => set_up_by(command),
        None => None,
    }
}

/// Returns the connection that a line sets up, if the card doesn't have it.
fn connection_to_set_up(core: &Core, line: &[u8]) -> Option<Vc>
    ensures { (world : World) → CoreAgrees core.now world → IsNewIn world (command_of world.shape.side (words_of line.now)) result }
{
    let Some(vc) = set_up_in(core.shape().side, line) else {
        return None;
    };
    match core.line_state(vc) {
        Some(_) => None,
        None => Some(vc),
    }
}

/// Carries out a line of a script. If that sets up a connection, records what the connection's line of the card had counted by then.
pub(crate) fn answer_and_record(
    alloc: Global,
    card: &mut ScriptCard,
    at_setup: &mut CountsAtSetup,
    line: &[u8],
    answers: &mut Vec<u8>,
) -> Result<(), AllocError>
    ensures { OnOk result (MovesNoting (AnswersLine line.now) card.old at_setup.old.counts.items card.new at_setup.new.counts.items
        answers.old.items answers.new.items) }
{
    let vc = connection_to_set_up(card.core(), line);
    card.answer(alloc, line, answers)?;
    at_setup.record_setup(card.core(), vc)
}

/// A run of `upc run`, with what the lines of its card had counted when their connections were set up.
#[derive(Drop)]
pub(crate) struct NotedSetups {
    run: Policing,
    at_setup: CountsAtSetup,
}

impl NotedSetups {
    ghost use Rattle.std.specs.Prelude.{None};
    ghost use Rattle.cmd_run.specs.RunText.{RunWorld};
    ghost use Rattle.cmd_run.specs.ShownCard.{ShowsRun};
    ghost use Rattle.cmd_setups.specs.inner.NotedSetups.{AreRunCountsAtSetup, IsNewInRun, NotesInRun};

    /// Makes a run that has no card yet.
    pub(crate) fn new(alloc: Global) -> Self
        ensures { ⟦<NotedSetups as Machine>⟧.shows result None }
    {
        NotedSetups {
            run: Policing::new(alloc),
            at_setup: CountsAtSetup::new(alloc),
        }
    }

    /// Returns the connection that a line sets up, if there is a card and it doesn't have the connection.
    fn connection_to_set_up(&self, line: &[u8]) -> Option<Vc>
        ensures { (world : RunWorld) → ⟦<Policing as Machine>⟧.shows self.now.run world → IsNewInRun world line.now result }
    {
        match self.run.card() {
            Some(card) => connection_to_set_up(card.core(), line),
            None => None,
        }
    }

    /// Records that this connection was set up, if there is one.
    fn record_setup(&mut self, vc: Option<Vc>) -> Result<(), AllocError>
        ensures noted { OnOk result ((world : RunWorld) → ⟦<Policing as Machine>⟧.shows self.old.run world
            → NotesInRun world vc self.old.at_setup.counts.items self.new.at_setup.counts.items) }
        ensures kept { self.new.run ≡ self.old.run }
    {
        match self.run.card() {
            Some(card) => self.at_setup.record_setup(card.core(), vc),
            None => Ok(()),
        }
    }

    /// Returns the card, if there is one, and what its lines had counted when their connections were set up.
    pub(crate) fn into_parts(self) -> (Option<ScriptCard>, CountsAtSetup)
        ensures card { (world : RunWorld) → ⟦<NotedSetups as Machine>⟧.shows self world → ShowsRun result.0 world }
        ensures at_setup { (world : RunWorld) → ⟦<NotedSetups as Machine>⟧.shows self world → AreRunCountsAtSetup result.1.counts.items world }
    {
        let NotedSetups { run, at_setup } = self;
        (run.into_card(), at_setup)
    }
}

impl Machine for NotedSetups {
    ghost use Rattle.cmd_run.specs.RunText.{RunWorld, run_rules};
    ghost use Rattle.cmd_run.specs.inner.RunLaws.{run-total};
    ghost use Rattle.cmd_setups.specs.inner.NotedSetups.{AreRunCountsAtSetup};

    ghost World = { RunWorld };

    ghost shows = { λ noted world. ⟦<Policing as Machine>⟧.shows noted.run world × AreRunCountsAtSetup noted.at_setup.counts.items world };

    ghost rules = { run_rules };

    fn answer(&mut self, line: &[u8], answers: &mut Vec<u8>) -> Result<Turn, AllocError> {
        let vc = self.connection_to_set_up(line);
        let turn = self.run.answer(line, answers)?;
        self.record_setup(vc)?;
        Ok(turn)
    }

    fn close(&self, answers: &mut Vec<u8>) -> Result<Done, AllocError> {
        self.run.close(answers)
    }

    fn refuse(&self, answers: &mut Vec<u8>) -> Result<(), AllocError> {
        self.run.refuse(answers)
    }

    ghost is_total = { run-total };
}

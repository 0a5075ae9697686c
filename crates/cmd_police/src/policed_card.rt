//! The card of a setup script, for programs that ask it cell by cell.

ghost use Rattle.std.specs.Prelude.{◌≡◌, ◌++◌, IfOk, OnOk};
ghost use Rattle.text_io.specs.Words.{is_filled};
ghost use Rattle.cmd_run.specs.RunText.{IsLed};
ghost use Rattle.cmd_police.specs.PolicedCards.{OpensPolicedCard, OpensSetup, PolicedWorld, PolicesOneCell, ShowsPoliced, policed_report};
ghost use Rattle.cmd_setups.specs.SharedTexts.{octets_of_texts};

use crate::police::add_gap;
use crate::preparing::{Prepared, prepare_setup};
use captures::{Fault, Tick};
use captures_text::{CapturedCell, ReadingSummary, add_closing};
use cmd_setups::{
    NotJudged, SetUp, SharedText, TimedCard, add_counts, add_not_judged, add_run_comments,
    add_waiting, set_up, verdict_in,
};
use leaky::Verdict;
use std::alloc::{AllocError, Global};
use text_words::add_text;

/// The card that a setup script opens, the commands that wait, and the cells that it didn't judge.
#[derive(Drop)]
pub struct PolicedCard {
    timed: TimedCard,
    /// How long a tick is.
    tick: Tick,
    not_judged: NotJudged,
    /// The lines of the commands that were carried out.
    answers: Vec<u8>,
}

/// The card that a setup script opens, or its fault.
#[derive(Drop)]
pub enum OpenedCard {
    /// It has a fault, which this text explains.
    Faulty(Vec<u8>),
    /// The card, before the first cell.
    Ready(PolicedCard),
}

/// The card that a setup script opens, or the explanation of its fault. The error is that memory is short.
pub type Opened = Result<OpenedCard, AllocError>;

/// Returns whether a text has octets.
fn is_filled(text: &[u8]) -> bool
    ensures { result ≡ is_filled text.now }
{
    match text {
        [] => false,
        [_, ..] => true,
    }
}

impl PolicedCard {
    /// Carries out the commands whose moment has come, takes all steps of a cell at port 0, and returns its verdict, or None if it isn't
    /// judged. Long journals are dropped, so that 2^62 cells are judged on each line.
    ///
    /// # Errors
    ///
    /// An allocation failed, for a command or its line.
    pub fn judge(&mut self, captured: &CapturedCell) -> Result<Option<Verdict>, AllocError>
        ensures { IfOk result (λ verdict. (before : PolicedWorld) → IsLed before.card → ShowsPoliced self.old before
            → (after : PolicedWorld) × ShowsPoliced self.new after × PolicesOneCell before captured.now verdict after) }
    {
        self.timed.carry_out(captured.moment, &mut self.answers)?;
        let Some(decision) = self.timed.arrive(&captured.cell, captured.moment) else {
            return Ok(None);
        };
        self.not_judged.count(captured.number, &decision);
        Ok(verdict_in(&decision))
    }

    /// Appends the lines of commands, and what `police` prints after its lines about cells: the table of the
    /// connections, the comments about cells that were not judged, commands that were not carried out, the tick and
    /// records that were passed over, and the fault at which the reading ended.
    #[tactic(auto, using(std::proofs::lemmas::List::append_assoc))]
    pub fn add_report(
        &self,
        report: &mut Vec<u8>,
        summary: &ReadingSummary,
        ending: Option<Fault>,
    ) -> Result<(), AllocError>
        ensures { (world : PolicedWorld) → ShowsPoliced self.now world
            → OnOk result (report.new.items ≡ report.old.items ++ policed_report world summary.now ending) }
    {
        add_text(report, &self.answers)?;
        add_gap(report, is_filled(&self.answers))?;
        add_counts(report, self.timed.core(), &self.timed.at_setup)?;
        add_not_judged(report, &self.not_judged)?;
        add_waiting(report, &self.timed.commands)?;
        add_run_comments(report, self.tick, summary)?;
        add_closing(report, summary, ending)
    }
}

/// Carries out the lines of a setup script before the first one with a time, and returns the card that it opens. `times` has for each line
/// its time in nanoseconds from moment 0 on, or None. The report names the tick.
///
/// # Errors
///
/// An allocation failed.
pub fn open_card(alloc: Global, script: &[u8], times: &[Option<u64>], tick: Tick) -> Opened
    ensures { IfOk result (OpensPolicedCard tick.nanoseconds script.now times.now) }
{
    match set_up(alloc, script, times, tick)? {
        SetUp::Faulty(text) => Ok(OpenedCard::Faulty(text)),
        SetUp::Ready(timed) => Ok(OpenedCard::Ready(PolicedCard {
            timed,
            tick,
            not_judged: NotJudged::none(),
            answers: Vec::new(alloc),
        })),
    }
}

/// Opens a card, as [`open_card`] does, by a setup script that may name files of rules and times. `texts` are the octets of these files, in
/// the order of [`files_read`](cmd_setups::files_read). A line `at TIME COMMAND` is carried out before the first cell at or after that time, and so
/// are the lines after it.
///
/// # Errors
///
/// An allocation failed.
pub fn open_setup(alloc: Global, setup: &[u8], texts: &[SharedText], tick: Tick) -> Opened
    ensures { IfOk result (OpensSetup tick.nanoseconds setup.now (octets_of_texts texts.now)) }
{
    match prepare_setup(alloc, setup, texts)? {
        Prepared::Faulty(text) => Ok(OpenedCard::Faulty(text)),
        Prepared::Ready(ready) => open_card(alloc, ready.script(), &ready.times, tick),
    }
}

//! A card, and the commands that wait for their moments.

ghost use Rattle.std.specs.Prelude.{◌≡◌, ◌++◌, [], IfOk, OnOk, option_map};
ghost use Rattle.card_core.specs.Sections.{answer_to};
ghost use Rattle.text_io.specs.Words.{words_of};
ghost use Rattle.cmd_setups.specs.CommandsUnderTraffic.{AnswersUnderTraffic, AnswersWithCounts, command_line, ended_journal, is_answered_plainly};
ghost use Rattle.cmd_setups.specs.CardArrival.{ArrivesWithRoom};
ghost use Rattle.cmd_setups.specs.inner.CommandsShown.{AnswersPlainly, answer_of_counts};
ghost use Rattle.cmd_setups.specs.CommandsShown.{CarriesShown};
ghost use Rattle.cmd_setups.specs.inner.NotedSetups.{MovesNoting};
ghost use Rattle.text_script.specs.CommandSeen.{command_seen};
ghost use Rattle.text_script.specs.ReplyTexts.{channel_name, connection_name};
ghost use Rattle.text_script.specs.ScriptCommands.{command_of};

use crate::columns::add_number_column;
use crate::counts_at_setup::CountsAtSetup;
use crate::noted_setups::answer_and_record;
use crate::stored_commands::{StoredCommands, add_waiting};
use card_core::{Core, Judgement, Unjudged};
use cmd_run::ScriptCard;
use line_record::Tally;
use std::alloc::{AllocError, Global};
use text_io::first_word;
use text_script::{Command, add_tally, read_command};
use text_words::{add_bad_line, add_number, add_text};
use upc_cell::{Cell, Side, Vc};

/// A journal that has this number of entries is dropped before the next cell of its connection. The number is small, so that journals stay
/// in the processor's cache. Nothing printed depends on it.
const JOURNAL_DROPPED_AT: usize = 64;

/// A card, and the commands that wait for their moments.
#[derive(Drop)]
pub struct TimedCard {
    /// Where the answers to commands get memory.
    pub alloc: Global,
    /// The card.
    pub card: ScriptCard,
    /// What the lines of the card had counted when their connections were set up.
    pub at_setup: CountsAtSetup,
    /// The commands.
    pub commands: StoredCommands,
}

/// Returns whether a line is a command that is answered between cells as in `upc run`. `release` and `cut` are answered otherwise.
fn is_answered_plainly(line: &[u8]) -> bool
    ensures { result ≡ is_answered_plainly (words_of line.now) }
{
    match first_word(line) {
        Some((word, _)) => {
            word == b"load".as_slice()
                || word == b"retire".as_slice()
                || word == b"setup".as_slice()
                || word == b"reload".as_slice()
        }
        None => false,
    }
}

/// Appends the answer to a line other than `release` and `cut`, which end a journal. A line that isn't a command to answer between
/// cells is `BadLine`.
fn answer_other(
    alloc: Global,
    card: &mut ScriptCard,
    at_setup: &mut CountsAtSetup,
    line: &[u8],
    answers: &mut Vec<u8>,
) -> Result<(), AllocError>
    ensures { OnOk result (MovesNoting (λ before. AnswersPlainly before line.now) card.old at_setup.old.counts.items
        card.new at_setup.new.counts.items answers.old.items answers.new.items) }
{
    if is_answered_plainly(line) {
        answer_and_record(alloc, card, at_setup, line, answers)
    } else {
        add_bad_line(answers)
    }
}

/// Returns the connection of a command that ends a journal, and the beginning of its answer.
fn journal_ended_by(command: Command<'_>) -> Option<(&'static [u8], Vc)>
    ensures { option_map (λ ended. (ended.0.now, ended.1)) result ≡ ended_journal (command_seen command.entry) }
{
    match command {
        Command::Release(vc) => Some((b"released ", vc)),
        Command::Cut(vc) => Some((b"cut ", vc)),
        Command::Setup(_, _, _) => None,
        Command::Load(_) => None,
        Command::Retire(_) => None,
        Command::Reload(_, _) => None,
        Command::Cell(_, _) => None,
    }
}

/// Returns the connection of a line whose command ends a journal, and the beginning of its answer.
fn ended_journal(side: Side, line: &[u8]) -> Option<(&'static [u8], Vc)>
    ensures { option_map (λ ended. (ended.0.now, ended.1)) result ≡ ended_journal (command_of side (words_of line.now)) }
{
    match read_command(side, line) {
        Some(command) => journal_ended_by(command),
        None => None,
    }
}

/// Appends the channel of a connection, or `*` where connections are virtual paths.
fn add_channel(answers: &mut Vec<u8>, side: Side, vci: u16) -> Result<(), AllocError>
    ensures { OnOk result (answers.new.items ≡ answers.old.items ++ channel_name side vci) }
{
    if side.has_paths() {
        add_text(answers, b"*")
    } else {
        add_number(answers, u64::from(vci))
    }
}

/// Appends the name of a connection.
#[tactic(auto, using(std::proofs::lemmas::List::append_assoc))]
fn add_connection(answers: &mut Vec<u8>, side: Side, vc: Vc) -> Result<(), AllocError>
    ensures { OnOk result (answers.new.items ≡ answers.old.items ++ connection_name side vc) }
{
    add_number(answers, u64::from(vc.vpi))?;
    add_text(answers, b"/")?;
    add_channel(answers, side, vc.vci)
}

/// Appends the answer to a command that ends a journal: a line with the connection's counts since its setup, or, if there is no such
/// connection, `given`, the fault line of `upc run`.
#[tactic(auto, using(std::proofs::lemmas::List::append_assoc))]
fn add_counted(
    answers: &mut Vec<u8>,
    side: Side,
    word: &[u8],
    vc: Vc,
    counts: Option<Tally>,
    given: &[u8],
) -> Result<(), AllocError>
    ensures { OnOk result (answers.new.items ≡ answers.old.items ++ answer_of_counts side word.now vc counts given.now) }
{
    match counts {
        Some(tally) => {
            add_text(answers, word)?;
            add_connection(answers, side, vc)?;
            add_tally(answers, tally)?;
            add_text(answers, b"\n")
        }
        None => add_text(answers, given),
    }
}

/// Appends the answer to a command that ends a journal, which begins with this word.
fn answer_with_counts(
    alloc: Global,
    card: &mut ScriptCard,
    at_setup: &mut CountsAtSetup,
    line: &[u8],
    word: &[u8],
    vc: Vc,
    answers: &mut Vec<u8>,
) -> Result<(), AllocError>
    ensures { OnOk result (MovesNoting (λ before text after. AnswersWithCounts before line.now (word.now, vc) text after)
        card.old at_setup.old.counts.items card.new at_setup.new.counts.items answers.old.items answers.new.items) }
{
    let counts = at_setup.own_counts(card.core(), vc);
    let side = card.core().shape().side;
    let mut given = Vec::new(alloc);
    answer_and_record(alloc, card, at_setup, line, &mut given)?;
    add_counted(answers, side, word, vc, counts, &given)
}

/// Appends the answer to a command between cells.
fn answer_command(
    alloc: Global,
    card: &mut ScriptCard,
    at_setup: &mut CountsAtSetup,
    line: &[u8],
    answers: &mut Vec<u8>,
) -> Result<(), AllocError>
    ensures { OnOk result (MovesNoting (λ before. AnswersUnderTraffic before line.now) card.old at_setup.old.counts.items
        card.new at_setup.new.counts.items answers.old.items answers.new.items) }
{
    match ended_journal(card.core().shape().side, line) {
        Some((word, vc)) => answer_with_counts(alloc, card, at_setup, line, word, vc, answers),
        None => answer_other(alloc, card, at_setup, line, answers),
    }
}

/// Appends the columns of a command before its answer.
#[tactic(auto, using(std::proofs::lemmas::List::append_assoc))]
fn add_moment(answers: &mut Vec<u8>, moment: u64) -> Result<(), AllocError>
    ensures { OnOk result (answers.new.items ≡ answers.old.items ++ command_line moment []) }
{
    add_text(answers, b"command\t")?;
    add_number_column(answers, moment)
}

impl TimedCard {
    // no edit: it returns a field
    /// Returns the core of the card.
    pub fn core(&self) -> &Core
        ensures { result.now ≡ self.now.card.core }
    {
        self.card.core()
    }

    /// Carries out the commands whose moment has come, and appends their lines. Returns whether there are any.
    fn carry_out_all(&mut self, moment: u64, answers: &mut Vec<u8>) -> Result<bool, AllocError>
        ensures { IfOk result (λ carried. CarriesShown self.old moment carried self.new answers.old.items answers.new.items) }
    {
        let mut carried = false;
        while let Some(command) = self.commands.due(moment) {
            add_moment(answers, command.moment)?;
            answer_command(
                self.alloc,
                &mut self.card,
                &mut self.at_setup,
                &command.content,
                answers,
            )?;
            self.commands.next += 1;
            carried = true;
        }
        Ok(carried)
    }

    /// Carries out the commands whose moment has come, and appends their lines, with a fast path when nothing is due. Returns whether there
    /// are any.
    ///
    /// # Errors
    ///
    /// `AllocError` if an allocation failed.
    #[inline(always)]
    pub fn carry_out(&mut self, moment: u64, answers: &mut Vec<u8>) -> Result<bool, AllocError>
        ensures { IfOk result (λ carried. CarriesShown self.old moment carried self.new answers.old.items answers.new.items) }
    {
        match self.commands.due(moment) {
            Some(_) => self.carry_out_all(moment, answers),
            None => Ok(false),
        }
    }

    /// Takes all steps of a cell at port 0 and returns its answer. A long journal of its connection is dropped before the cell is judged,
    /// so that a journal is full only if 2^62 cells were judged on its line. Returns None if the port has a cell; between cells it never
    /// has.
    #[inline(always)]
    pub fn arrive(&mut self, cell: &Cell, moment: u64) -> Option<Result<Judgement, Unjudged>>
        ensures arrives { ArrivesWithRoom self.old.card.core cell.now moment (option_map (λ decision. answer_to cell.now decision) result) self.new.card.core }
        ensures rest { self.new ≡ record self.old { card = record self.old.card { core = self.new.card.core } } }
    {
        self.card.arrive_dropping(cell, moment, JOURNAL_DROPPED_AT)
    }
}

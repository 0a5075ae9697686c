//! The desk of a running card, which carries out the commands of a script.

ghost use Rattle.std.specs.Prelude.{OnOk};

use arrayvec::ArrayVec;
use bpf_verify::Program;
use card_core::Ask;
use cmd_programs::read_code;
use port_card::{Card, Desk, Ledgers};
use std::alloc::{AllocError, Global};
use std::sync::Wait;
use text_card::{add_desk_fault, add_gcra_fault, add_no_such_program};
use text_io::Added;
use text_script::{
    Command, Names, Wanted, add_cut, add_loaded, add_released, add_reloaded, add_retired, add_set,
    checked_contracts, read_command, wanted_contracts,
};
use text_words::{add_bad_hex, add_bad_line, octets_of_word};
use upc_cell::Vc;

/// The desk of a card, and the names of the programs that were loaded. The card is behind locks, so contracts see
/// only which answers a command may have; the names are the desk's own.
#[derive(Drop)]
pub struct ScriptDesk<S: Ledgers> {
    pub desk: Desk<S>,
    pub names: Names,
    pub alloc: Global,
}

impl<S: Ledgers> ScriptDesk<S> {
    ghost use Rattle.std.specs.Prelude.{◌≡◌, OnOk};
    ghost use Rattle.text_io.specs.Words.{words_of};
    ghost use Rattle.text_script.specs.CommandSeen.{command_seen, setup_seen};
    ghost use Rattle.text_script.specs.ScriptCommands.{load, retire, setup, reload, release, cut};
    ghost use Rattle.cmd_ports.specs.LineAnswers.{MayObey};
    ghost use Rattle.cmd_ports.specs.inner.DeskTexts.{AddsReply, MayObeyLine, MayObeySeen};

    /// Loads the program that these hexadecimal digits spell. If they spell none, adds the fault line.
    fn load<R: Wait>(
        &mut self,
        rt: &R,
        card: &Card<S>,
        digits: &[u8],
        answers: &mut Vec<u8>,
    ) -> Added
        ensures { OnOk result (AddsReply (MayObey card.now.side (load digits.now))
            self.old.names self.new.names answers.old.items answers.new.items) }
    {
        let Some(octets) = octets_of_word(self.alloc, digits)? else {
            return add_bad_hex(answers);
        };
        // If there is none, `read_code` has added the fault line.
        let Some(code) = read_code(self.alloc, &octets, answers)? else {
            return Ok(());
        };
        let id = match self.desk.load(rt, card, Program::of_accepted(code)) {
            Ok(id) => id,
            Err((fault, _)) => return add_desk_fault(answers, fault),
        };
        self.names.push(id)?;
        add_loaded(answers, self.names.count() as u64)
    }

    /// Retires a program.
    fn retire<R: Wait>(
        &mut self,
        rt: &R,
        card: &Card<S>,
        number: u64,
        answers: &mut Vec<u8>,
    ) -> Added
        ensures { OnOk result (AddsReply (MayObey card.now.side (retire number))
            self.old.names self.new.names answers.old.items answers.new.items) }
    {
        let Some(id) = self.names.named(number) else {
            return add_no_such_program(answers);
        };
        if let Err(fault) = self.desk.retire(rt, card, id) {
            return add_desk_fault(answers, fault);
        }
        add_retired(answers, number)
    }

    /// Sets up a connection with contracts whose rates may have errors.
    fn setup<R: Wait>(
        &mut self,
        rt: &R,
        card: &Card<S>,
        vc: Vc,
        number: u64,
        wanted: &ArrayVec<Wanted, 4>,
        answers: &mut Vec<u8>,
    ) -> Added
        ensures { OnOk result (AddsReply (MayObey card.now.side (setup vc number wanted.now.items))
            self.old.names self.new.names answers.old.items answers.new.items) }
    {
        let contracts = match checked_contracts(wanted) {
            Ok(contracts) => contracts,
            Err(fault) => return add_gcra_fault(answers, fault),
        };
        let Some(program) = self.names.named(number) else {
            return add_no_such_program(answers);
        };
        let ask = Ask {
            vc,
            program,
            contracts,
        };
        if let Err((fault, _)) = self.desk.setup(rt, card, ask) {
            return add_desk_fault(answers, fault);
        }
        add_set(answers, card.side(), vc)
    }

    /// Sets up a connection with the contracts of these words, if they are one to four contracts.
    fn setup_from_words<R: Wait>(
        &mut self,
        rt: &R,
        card: &Card<S>,
        vc: Vc,
        number: u64,
        words: &[u8],
        answers: &mut Vec<u8>,
    ) -> Added
        ensures { OnOk result (AddsReply (MayObeySeen card.now.side (setup_seen vc number words.now))
            self.old.names self.new.names answers.old.items answers.new.items) }
    {
        let Some(wanted) = wanted_contracts(words) else {
            return add_bad_line(answers);
        };
        self.setup(rt, card, vc, number, &wanted, answers)
    }

    /// Gives a connection another program.
    fn reload<R: Wait>(
        &mut self,
        rt: &R,
        card: &Card<S>,
        vc: Vc,
        number: u64,
        answers: &mut Vec<u8>,
    ) -> Added
        ensures { OnOk result (AddsReply (MayObey card.now.side (reload vc number))
            self.old.names self.new.names answers.old.items answers.new.items) }
    {
        let Some(program) = self.names.named(number) else {
            return add_no_such_program(answers);
        };
        if let Err(fault) = self.desk.reload(rt, card, vc, program) {
            return add_desk_fault(answers, fault);
        }
        add_reloaded(answers, card.side(), vc, number)
    }

    /// Releases a connection.
    fn release<R: Wait>(&mut self, rt: &R, card: &Card<S>, vc: Vc, answers: &mut Vec<u8>) -> Added
        ensures { OnOk result (AddsReply (MayObey card.now.side (release vc))
            self.old.names self.new.names answers.old.items answers.new.items) }
    {
        let piece = match self.desk.release(rt, card, vc) {
            Ok(piece) => piece,
            Err(fault) => return add_desk_fault(answers, fault),
        };
        add_released(answers, card.side(), vc, &piece)
    }

    /// Adds a connection's journal as the answer, and begins a new one.
    fn cut<R: Wait>(&mut self, rt: &R, card: &Card<S>, vc: Vc, answers: &mut Vec<u8>) -> Added
        ensures { OnOk result (AddsReply (MayObey card.now.side (cut vc))
            self.old.names self.new.names answers.old.items answers.new.items) }
    {
        let piece = match self.desk.cut(rt, card, vc) {
            Ok(piece) => piece,
            Err(fault) => return add_desk_fault(answers, fault),
        };
        add_cut(answers, card.side(), vc, &piece)
    }

    /// Carries out a command. A cell is no command of the desk.
    fn obey<R: Wait>(
        &mut self,
        rt: &R,
        card: &Card<S>,
        command: &Command<'_>,
        answers: &mut Vec<u8>,
    ) -> Added
        ensures { OnOk result (AddsReply (MayObeySeen card.now.side (command_seen command.now))
            self.old.names self.new.names answers.old.items answers.new.items) }
    {
        match command {
            Command::Load(digits) => self.load(rt, card, digits, answers),
            Command::Retire(number) => self.retire(rt, card, *number, answers),
            Command::Setup(vc, number, words) => self.setup_from_words(
                rt, card, *vc, *number, words, answers,
            ),
            Command::Reload(vc, number) => self.reload(rt, card, *vc, *number, answers),
            Command::Release(vc) => self.release(rt, card, *vc, answers),
            Command::Cut(vc) => self.cut(rt, card, *vc, answers),
            Command::Cell(..) => add_bad_line(answers),
        }
    }

    /// Answers a line with words that isn't a cell line.
    pub fn answer<R: Wait>(
        &mut self,
        rt: &R,
        card: &Card<S>,
        line: &[u8],
        answers: &mut Vec<u8>,
    ) -> Added
        ensures { OnOk result (AddsReply (MayObeyLine card.now.side (words_of line.now))
            self.old.names self.new.names answers.old.items answers.new.items) }
    {
        let Some(command) = read_command(card.side(), line) else {
            return add_bad_line(answers);
        };
        self.obey(rt, card, &command, answers)
    }
}

ghost use Rattle.std.specs.Prelude.{IfOk, map};
ghost use Rattle.cmd_ports.specs.inner.DeskTexts.{ObeysEach};

/// Answers the desk's lines, one by one. Each has a text of its own.
pub fn answer_each<S: Ledgers, R: Wait>(
    rt: &R,
    card: &Card<S>,
    desk: &mut ScriptDesk<S>,
    lines: &[&[u8]],
) -> Result<Vec<Vec<u8>>, AllocError>
    ensures { IfOk result (λ desk_texts. ObeysEach card.now.side (map (λ line. line.now) lines.now)
        desk.old.names (map (λ text. text.items) desk_texts.items) desk.new.names) }
{
    let mut desk_texts = Vec::new(desk.alloc);
    for line in lines {
        let mut text = Vec::new(desk.alloc);
        desk.answer(rt, card, line, &mut text)?;
        desk_texts.push(text)?;
    }
    Ok(desk_texts)
}

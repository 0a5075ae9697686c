//! The card that a script opened, with the names of its programs. It answers the script's later lines.

use arrayvec::ArrayVec;
use bpf_code::Instr;
use bpf_verify::Program;
use card_core::{Answer, Ask, CardFault, Core, Judgement, Shape, Unjudged};
use cmd_programs::read_code;
use gen_arena::Id;
use std::alloc::Global;
use std::marker::Model;
use text_card::{add_desk_fault, add_gcra_fault, add_judged, add_no_such_program, add_unjudged};
use text_io::Added;
use text_script::{
    Command, Names, Wanted, add_cut, add_loaded, add_released, add_reloaded, add_retired, add_set,
    checked_contracts, named_command, read_common_cell, wanted_contracts, word_and_rest,
};
use text_words::{
    CellWord, add_bad_hex, add_bad_line, add_wrong_length, cell_of_word, octets_of_word,
};
use upc_cell::{Cell, Side, Vc};

/// The port that every cell of a script enters.
const PORT: u8 = 0;

/// A card, and the names of the programs that were loaded.
#[derive(Drop)]
pub struct ScriptCard {
    core: Core,
    names: Names,
}

impl Model for ScriptCard {
    ghost use Rattle.cmd_run.specs.ShownCard.{Held};

    ghost Value = { Held };

    ghost view = { λ card. record { core = card.core; names = card.names } };
}

// The commands that change programs and connections are not inlined, so that the path of a cell doesn't need their stack space.
impl ScriptCard {
    ghost use Rattle.std.specs.Prelude.{◌≡◌, ◌⊎◌, ◌∷◌, [], IfNone, IfOk, IfErr, IfSome, OnOk, MatchResult, None, Some, option_map};
    ghost use Rattle.bpf_verify.specs.Accepted.{IsAccepted};
    ghost use Rattle.card_core.specs.Agreement.{Follows};
    ghost use Rattle.card_core.specs.Arrival.{AnswersDropping, IsWorn};
    ghost use Rattle.card_core.specs.Sections.{answer_to};
    ghost use Rattle.card_core.specs.Shapes.{shape_fault};
    ghost use Rattle.text_card.specs.CardLine.{card_line_shape};
    ghost use Rattle.text_script.specs.ProgramNames.{number_of_program};
    ghost use Rattle.text_script.specs.ScriptCommands.{load, retire, setup, reload, release, cut, cell};
    ghost use Rattle.card_core.specs.declared.reply.Reply.TheVariants.{NotNow};
    ghost use Rattle.card_core.specs.declared.step.Step.TheVariants.{Enter, Load};
    ghost use Rattle.upc_cell.specs.Connection.{vc_of};
    ghost use Rattle.cmd_run.specs.RunText.{AsksConnection, CommandLine, LoadsOctets, Obeys, PolicesCell, TakesCommand, TakesNamed, new_card};
    ghost use Rattle.text_script.specs.CommandSeen.{command_seen, setup_seen};
    ghost use Rattle.cmd_run.specs.ShownCard.{AnswersLine, Moves, ShowsCard};
    ghost use Rattle.cmd_run.specs.inner.Policing.{AnswersCell, ObeysSeen};
    ghost use Rattle.text_io.specs.Words.{words_of};

    /// Makes a card of this shape.
    ///
    /// # Errors
    ///
    /// `Programs`, `Lines`, `Ports` or `Journal` for the first number of the shape that is out of its limits. Otherwise
    /// `NoMemory` if an allocation fails.
    pub fn new(alloc: Global, shape: Shape) -> Result<Self, CardFault>
        ensures shows { IfOk result (λ card. ShowsCard card (new_card shape)) }
        ensures refused { MatchResult result
            (λ _. shape_fault shape ≡ None)
            (λ fault. (shape_fault shape ≡ Some fault) ⊎ (fault ≡ CardFault.NoMemory)) }
    {
        let core = match Core::new(alloc, shape) {
            Ok(core) => core,
            Err(fault) => return Err(fault),
        };
        match Names::new(alloc, shape.programs as usize) {
            Ok(names) => Ok(ScriptCard { core, names }),
            Err(_) => Err(CardFault::NoMemory),
        }
    }

    // no edit: a card has one core
    /// Returns the core of the card, without the names of the programs.
    pub fn core(&self) -> &Core
        ensures { result.now ≡ self.now.core }
    {
        &self.core
    }

    /// Returns the number in the name of a program (1 for `p1`), or 0 if the program has no name.
    pub fn number_of(&self, program: Id) -> usize
        ensures { result ≡ number_of_program self.now.names program }
    {
        self.names.number_of(program)
    }

    /// Returns the side of the card's cells.
    pub(crate) fn side(&self) -> Side
        ensures { result ≡ self.now.core.shape.side }
    {
        self.core.shape().side
    }

    /// Loads the program of this code. The contract alone uses `digits`, the word that spelled the code.
    #[inline(never)]
    fn load_code(&mut self, digits: &[u8], code: Vec<Instr>, answers: &mut Vec<u8>) -> Added
        requires { IsAccepted code.items }
        ensures { OnOk result (Moves (λ before. TakesCommand before (load digits.now) (Load code.items))
            self.old self.new answers.old.items answers.new.items) }
    {
        let id = match self.core.load(Program::of_accepted(code)) {
            Ok(id) => id,
            Err((fault, _)) => return add_desk_fault(answers, fault),
        };
        self.names.push(id)?;
        add_loaded(answers, self.names.count() as u64)
    }

    /// Loads the program that this word of hexadecimal digits spells. If the word spells none, adds the fault line
    /// that says why.
    #[inline(never)]
    fn load(&mut self, alloc: Global, digits: &[u8], answers: &mut Vec<u8>) -> Added
        ensures { OnOk result (Moves (λ before. Obeys before (load digits.now))
            self.old self.new answers.old.items answers.new.items) }
    {
        let Some(octets) = octets_of_word(alloc, digits)? else {
            return add_bad_hex(answers);
        };
        match read_code(alloc, &octets, answers)? {
            Some(code) => self.load_code(digits, code, answers),
            None => Ok(()),
        }
    }

    /// Retires a program.
    #[inline(never)]
    fn retire(&mut self, number: u64, answers: &mut Vec<u8>) -> Added
        ensures { OnOk result (Moves (λ before. Obeys before (retire number))
            self.old self.new answers.old.items answers.new.items) }
    {
        let Some(id) = self.names.named(number) else {
            return add_no_such_program(answers);
        };
        match self.core.retire(id) {
            Ok(_) => add_retired(answers, number),
            Err(fault) => add_desk_fault(answers, fault),
        }
    }

    /// Sets up a connection with these contracts. If a rate is out of its limits, adds the fault line of the first such rate.
    #[inline(never)]
    fn setup(
        &mut self,
        vc: Vc,
        number: u64,
        wanted: &ArrayVec<Wanted, 4>,
        answers: &mut Vec<u8>,
    ) -> Added
        ensures { OnOk result (Moves (λ before. Obeys before (setup vc number wanted.now.items))
            self.old self.new answers.old.items answers.new.items) }
    {
        let contracts = match checked_contracts(wanted) {
            Ok(contracts) => contracts,
            Err(fault) => return add_gcra_fault(answers, fault),
        };
        let Some(program) = self.names.named(number) else {
            return add_no_such_program(answers);
        };
        let ask = Ask {
            vc,
            program,
            contracts,
        };
        let side = self.core.shape().side;
        match self.core.setup(ask) {
            Ok(_) => add_set(answers, side, vc),
            Err((fault, _)) => add_desk_fault(answers, fault),
        }
    }

    /// Sets up a connection with the contracts of these words, if they are one to four contracts.
    #[inline(never)]
    fn setup_from_words(
        &mut self,
        vc: Vc,
        number: u64,
        words: &[u8],
        answers: &mut Vec<u8>,
    ) -> Added
        ensures { OnOk result (Moves (λ before. ObeysSeen before (setup_seen vc number words.now))
            self.old self.new answers.old.items answers.new.items) }
    {
        let Some(wanted) = wanted_contracts(words) else {
            return add_bad_line(answers);
        };
        self.setup(vc, number, &wanted, answers)
    }

    /// Gives a connection another program.
    #[inline(never)]
    fn reload(&mut self, vc: Vc, number: u64, answers: &mut Vec<u8>) -> Added
        ensures { OnOk result (Moves (λ before. Obeys before (reload vc number))
            self.old self.new answers.old.items answers.new.items) }
    {
        let Some(program) = self.names.named(number) else {
            return add_no_such_program(answers);
        };
        let side = self.core.shape().side;
        match self.core.reload(vc, program) {
            Ok(_) => add_reloaded(answers, side, vc, number),
            Err(fault) => add_desk_fault(answers, fault),
        }
    }

    /// Releases a connection.
    #[inline(never)]
    fn release(&mut self, vc: Vc, answers: &mut Vec<u8>) -> Added
        ensures { OnOk result (Moves (λ before. Obeys before (release vc))
            self.old self.new answers.old.items answers.new.items) }
    {
        let side = self.core.shape().side;
        match self.core.release(vc) {
            Ok(piece) => add_released(answers, side, vc, &piece),
            Err(fault) => add_desk_fault(answers, fault),
        }
    }

    /// Returns a connection's journal and begins a new one.
    #[inline(never)]
    fn cut(&mut self, vc: Vc, answers: &mut Vec<u8>) -> Added
        ensures { OnOk result (Moves (λ before. Obeys before (cut vc))
            self.old self.new answers.old.items answers.new.items) }
    {
        let side = self.core.shape().side;
        match self.core.cut(vc) {
            Ok(piece) => add_cut(answers, side, vc, &piece),
            Err(fault) => add_desk_fault(answers, fault),
        }
    }

    /// Takes all steps of a cell at port 0, and returns its judgement, or why it wasn't judged. Returns None if the port has a
    /// cell already, which it never has between commands.
    #[inline(always)]
    fn arrive(&mut self, cell: &Cell, moment: u64) -> Option<Result<Judgement, Unjudged>>
        ensures { AnswersCell self.old cell.now moment (option_map (λ decision. answer_to cell.now decision) result) self.new }
    {
        self.core.arrive(PORT, cell, moment)
    }

    /// Takes all steps of a cell at port 0, and returns its judgement, or why it wasn't judged. If the connection's journal is
    /// full or has `most` entries or more, the journal is dropped before the cell is judged ([`Core::arrive_dropping`]).
    /// Returns None if the port has a cell already, which it never has between commands.
    #[inline(always)]
    pub fn arrive_dropping(
        &mut self,
        cell: &Cell,
        moment: u64,
        most: usize,
    ) -> Option<Result<Judgement, Unjudged>>
        ensures answered { IfSome result (λ decision. AnswersDropping most self.old.core 0 cell.now moment (answer_to cell.now decision) self.new.core) }
        ensures not_now { IfNone result (Follows self.old.core (Enter 0 cell.now moment) NotNow self.new.core) }
        ensures full { IfSome result (λ decision. answer_to cell.now decision ≡ Answer.JournalFull
            → IsWorn self.old.core (vc_of self.old.core.shape.side cell.now)) }
        ensures names { self.new.names ≡ self.old.names }
    {
        self.core.arrive_dropping(PORT, cell, moment, most)
    }

    /// Polices a cell.
    #[inline(always)]
    fn police(&mut self, moment: u64, cell: &Cell, answers: &mut Vec<u8>) -> Added
        ensures { OnOk result (Moves (λ before. PolicesCell before moment cell.now)
            self.old self.new answers.old.items answers.new.items) }
    {
        let side = self.core.shape().side;
        let vc = cell.vc_at(side);
        // Each cell takes all its steps in one call, so port 0 has no cell when the next cell arrives: this is never None.
        let Some(decision) = self.arrive(cell, moment) else {
            return Ok(());
        };
        let judged = match decision {
            Ok(judged) => judged,
            Err(reason) => return add_unjudged(answers, side, vc, reason),
        };
        let number = self.names.number_of(judged.program) as u64;
        add_judged(answers, side, number, vc, cell, &judged)
    }

    /// Polices the cell of a word, if the word spells one.
    #[inline(never)]
    fn cell(&mut self, alloc: Global, moment: u64, word: &[u8], answers: &mut Vec<u8>) -> Added
        ensures { OnOk result (Moves (λ before. Obeys before (cell moment word.now))
            self.old self.new answers.old.items answers.new.items) }
    {
        match cell_of_word(alloc, word)? {
            CellWord::OfCell(cell) => self.police(moment, &cell, answers),
            CellWord::OfOthers(count) => add_wrong_length(answers, count),
            CellWord::NoDigits => add_bad_hex(answers),
        }
    }

    /// Carries out a command.
    fn obey(&mut self, alloc: Global, command: &Command<'_>, answers: &mut Vec<u8>) -> Added
        ensures { OnOk result (Moves (λ before. ObeysSeen before (command_seen command.now))
            self.old self.new answers.old.items answers.new.items) }
    {
        match command {
            Command::Cell(moment, word) => self.cell(alloc, *moment, word, answers),
            Command::Load(digits) => self.load(alloc, digits, answers),
            Command::Retire(number) => self.retire(*number, answers),
            Command::Setup(vc, number, words) => self.setup_from_words(
                *vc, *number, words, answers,
            ),
            Command::Reload(vc, number) => self.reload(*vc, *number, answers),
            Command::Release(vc) => self.release(*vc, answers),
            Command::Cut(vc) => self.cut(*vc, answers),
        }
    }

    /// Carries out the command that the first word of a line and the rest spell. If they spell none, adds `BadLine`.
    fn answer_command(
        &mut self,
        alloc: Global,
        name: &[u8],
        rest: &[u8],
        answers: &mut Vec<u8>,
    ) -> Added
        ensures { OnOk result (Moves (λ before. CommandLine before (name.now ∷ words_of rest.now))
            self.old self.new answers.old.items answers.new.items) }
    {
        match named_command(self.core.shape().side, name, rest) {
            Some(command) => self.obey(alloc, &command, answers),
            None => add_bad_line(answers),
        }
    }

    /// Answers a line that isn't a cell line of the common form. A line without words and a comment get no answer.
    #[inline(never)]
    fn answer_words(&mut self, alloc: Global, line: &[u8], answers: &mut Vec<u8>) -> Added
        ensures { OnOk result (Moves (AnswersLine line.now) self.old self.new answers.old.items answers.new.items) }
    {
        match word_and_rest(line) {
            Some((name, rest)) => self.answer_command(alloc, name, rest, answers),
            None => Ok(()),
        }
    }

    /// Answers a line. A cell line in the common form is read at once, without a search for its words.
    #[inline(always)]
    pub fn answer(&mut self, alloc: Global, line: &[u8], answers: &mut Vec<u8>) -> Added
        ensures { OnOk result (Moves (AnswersLine line.now) self.old self.new answers.old.items answers.new.items) }
    {
        match read_common_cell(line) {
            Some(arrival) => self.police(arrival.moment, &arrival.cell, answers),
            None => self.answer_words(alloc, line, answers),
        }
    }
}

//! The reader of a text, line by line.

ghost use Rattle.std.specs.Prelude.{◌≡◌, ◌+◌, ◌≤◌, ◌<◌, ◌^◌, Ok, Err, IfOk, IfErr, drop, length, None};
ghost use Rattle.rules_text.specs.RulesRead.{line_read};
ghost use Rattle.rules_text.specs.Names.{name_meaning, rule_form};
ghost use Rattle.rules_text.specs.RuleTokens.{rule_tokens, tokens_from};
ghost use Rattle.rules_text.specs.RulesInMemory.{HasPlacedRules, HasRules, placed_rules_read};
ghost use Rattle.rules_text.specs.TextFaults.{IsFaultOf};
ghost use Rattle.rules_text.specs.TextOfRules.{context_of, formed_statement, name_given, placed_rules_at_end, placed_rules_in, placed_fault, rules_in, text_with, text_with_line, text_with_room, with_line, text_with_name};
ghost use Rattle.rules_text.specs.declared.fault.RuleFaultKind.TheVariants.{NoMemory};
ghost use Rattle.rules_text.specs.SeenTokens.{found_seen};
ghost use Rattle.rules_text.specs.inner.SeenFaults.{IsReadAs};
ghost use Rattle.rules_text.specs.inner.SeenNameTable.{IsFoundByLetters};
ghost use Rattle.rules_text.specs.inner.SeenReading.{context_seen, line_statement_seen, name_seen, names_seen, text_seen};

use crate::continued_lines::next_rule_line;
use crate::definition::{is_giving, name_at, name_place};
use crate::fault::{RuleFault, RuleFaultKind, fault_at, fault_in_line};
use crate::lexer::{Found, next_token};
use crate::line_reader::{Context, Statement};
use crate::names::{Form, Name, NameTable};
use crate::place::{RulePlace, TextPlace, fault_of_line, place_after};
use crate::statement_reader::{room_after_line, statement_in};
use rules_cells::{RuleLine, Rules};
use std::alloc::Global;
use upc_cell::Side;

/// The most tokens that names may add to a text. The tokens of a name count each time the name is used.
const MOST_ADDED: usize = 262_144;

/// Rules, and where each of their lines begins in the text.
#[derive(Drop)]
pub struct PlacedRules {
    /// The rules.
    pub rules: Rules,
    /// Where each line of `rules` begins, in the order of the lines.
    pub begins: Vec<RulePlace>,
}

/// What was read of a text so far.
#[derive(Drop)]
struct TextReader {
    /// The rules.
    rules: Rules,
    /// Where their lines begin.
    begins: Vec<RulePlace>,
    /// The names.
    names: NameTable,
    /// How many tokens names may still add.
    room: usize,
    /// How many blocks are open.
    blocks: usize,
    /// Where the head of the outermost open block begins. It means nothing if no block is open.
    head: TextPlace,
    /// Whether a line with a token was read.
    begun: bool,
    /// Whether `otherwise` was read.
    closed: bool,
}

impl TextReader {
    /// Adds a line of rules that begins at `begin`. Its first token is at its column `column`, counted from 1.
    fn take_line(
        &mut self,
        line: RuleLine,
        begin: TextPlace,
        column: usize,
    ) -> Result<(), RuleFaultKind>
        requires blocks { self.old.blocks < 2 ^ 63 }
        requires some { 0 < column }
        requires within { begin.column + column < 2 ^ 64 }
        ensures ok { IfOk result (λ _. with_line (text_seen self.old) (line_read line) begin column ≡ text_seen self.new) }
        ensures blocks { self.new.blocks ≤ self.old.blocks + 1 }
        ensures names { self.new.names ≡ self.old.names }
        ensures err { IfErr result (λ kind. kind ≡ NoMemory) }
    {
        match line {
            RuleLine::Block { .. } => {
                if self.blocks == 0 {
                    self.head = begin.of_first_token(column);
                }
                self.blocks += 1;
            }
            RuleLine::End => self.blocks = self.blocks.saturating_sub(1),
            RuleLine::Rule { .. } => {}
        }
        self.begun = true;
        self.rules.lines.push(line)?;
        self.begins.push(begin.of_rule(column))?;
        Ok(())
    }

    /// Adds the statement of a line that begins at `begin`. The line's first token is at its column `column`, counted from 1.
    fn take(
        &mut self,
        statement: Statement,
        begin: TextPlace,
        column: usize,
    ) -> Result<(), RuleFaultKind>
        requires blocks { self.old.blocks < 2 ^ 63 }
        requires some { 0 < column }
        requires within { begin.column + column < 2 ^ 64 }
        ensures ok { IfOk result (λ _. text_with (text_seen self.old) begin column (line_statement_seen statement) ≡ text_seen self.new) }
        ensures blocks { self.new.blocks ≤ self.old.blocks + 1 }
        ensures names { self.new.names ≡ self.old.names }
        ensures err { IfErr result (λ kind. kind ≡ NoMemory) }
    {
        match statement {
            Statement::Blank => Ok(()),
            Statement::Side(side) => {
                self.rules.side = side;
                self.begun = true;
                Ok(())
            }
            Statement::Value(value) => {
                self.rules.otherwise = value;
                self.closed = true;
                self.begun = true;
                Ok(())
            }
            Statement::Line(line) => self.take_line(line, begin, column),
        }
    }

    /// What the reading of a line needs from the lines before it.
    fn context(&self) -> Context
        ensures { context_seen result ≡ context_of (text_seen self.now) }
    {
        Context {
            side: self.rules.side,
            blocks: self.blocks,
            begun: self.begun,
            room: self.room,
        }
    }

    /// The name that a line gives whose first token is `define` or `contract`. `BadLine` if a line of rules came before.
    fn name_in(&self, alloc: Global, line: &[u8], first: Found) -> Result<Name, RuleFault>
        requires names { IsFoundByLetters self.now.names }
        requires start { first.start < first.end }
        requires end { first.end ≤ length line.now }
        ensures read { IsReadAs result (name_given (text_seen self.now) line.now (found_seen first) (tokens_from (first.end + 1) 0 (drop first.end line.now))) name_seen }
        ensures new { IfOk result (λ name. name_meaning (names_seen self.now.names) name.letters.items ≡ None) }
    {
        if !self.rules.lines.is_empty() {
            return Err(fault_in_line(RuleFaultKind::BadLine, first.start + 1));
        }
        let names = &self.names;
        let place = name_place(names, line, first.end)?;
        name_at(alloc, self.context(), names, line, first.token, place)
    }

    /// The statement of a line that gives no name.
    fn statement(&self, alloc: Global, line: &[u8]) -> Result<Statement, RuleFault>
        requires { IsFoundByLetters self.now.names }
        ensures { IsReadAs result (formed_statement (context_of (text_seen self.now)) (text_seen self.now).names rule_form line.now 1 (rule_tokens line.now)) line_statement_seen }
    {
        statement_in(alloc, self.context(), &self.names, Form::Rule, line, 0)
    }

    /// Takes the tokens that the names in a line add from the number that names may still add.
    fn spend(&mut self, line: &[u8])
        requires { IsFoundByLetters self.old.names }
        ensures room { text_with_room (text_seen self.old) line.now (rule_tokens line.now) ≡ text_seen self.new }
        ensures blocks { self.new.blocks ≡ self.old.blocks }
        ensures names { IsFoundByLetters self.new.names }
    {
        self.room = room_after_line(&self.names, self.room, line);
    }

    /// Adds a name that the text gives.
    fn take_name(&mut self, alloc: Global, name: Name) -> Result<(), RuleFault>
        requires names { IsFoundByLetters self.old.names }
        requires new { name_meaning (names_seen self.old.names) name.letters.items ≡ None }
        ensures names { IfOk result (λ _. IsFoundByLetters self.new.names) }
        ensures ok { IfOk result (λ _. text_with_name (text_seen self.old) (name_seen name) ≡ text_seen self.new) }
        ensures blocks { self.new.blocks ≡ self.old.blocks }
        ensures err { IfErr result (λ fault. fault ≡ placed_fault 0 0 NoMemory) }
    {
        self.begun = true;
        self.names.give(alloc, name)?;
        Ok(())
    }

    /// Reads a line of rules that begins at `begin`. The column of a fault is counted from 1 in the line of rules, and its line is 0:
    /// `fault_of_line` finds the place in the text.
    fn read_line(&mut self, alloc: Global, begin: TextPlace, line: &[u8]) -> Result<(), RuleFault>
        requires names { IsFoundByLetters self.old.names }
        requires blocks { self.old.blocks < 2 ^ 63 }
        requires column { begin.column + length line.now < 2 ^ 64 }
        ensures names { IfOk result (λ _. IsFoundByLetters self.new.names) }
        ensures read { IsReadAs result (text_with_line (text_seen self.old) begin line.now) (λ _. text_seen self.new) }
        ensures blocks { self.new.blocks ≤ self.old.blocks + 1 }
    {
        let Some(first) = next_token(line, 0) else {
            return Ok(());
        };
        let column = first.start + 1;
        if self.closed {
            return Err(fault_in_line(RuleFaultKind::AfterOtherwise, column));
        }
        if is_giving(first.token) {
            let name = self.name_in(alloc, line, first)?;
            self.spend(line);
            return self.take_name(alloc, name);
        }
        let statement = self.statement(alloc, line)?;
        self.spend(line);
        match self.take(statement, begin, column) {
            Ok(()) => Ok(()),
            Err(kind) => Err(fault_in_line(kind, column)),
        }
    }

    /// The rules, once the whole text was read. `Unbalanced` if a block is still open.
    fn finish(self) -> Result<PlacedRules, RuleFault>
        ensures ok { IfOk result (λ placed_rules. placed_rules_at_end (text_seen self) ≡ Ok (placed_rules_read placed_rules)) }
        ensures err { IfErr result (λ fault. placed_rules_at_end (text_seen self) ≡ Err fault) }
    {
        if self.blocks > 0 {
            return Err(fault_at(RuleFaultKind::Unbalanced, self.head.line, self.head.column));
        }
        Ok(PlacedRules {
            rules: self.rules,
            begins: self.begins,
        })
    }
}

/// Reads a text of rules: returns the rules that are defined for it, with the places where their lines begin (`placed_rules_in`).
///
/// # Errors
///
/// The first fault from left to right. A parenthesis that isn't closed is found where its test ends, and an open block where the text ends;
/// the fault then has the place of the `(`, or of the block's first token. `NoMemory`, with line and column 0, if an allocation failed.
pub fn read_with_places(alloc: Global, text: &[u8]) -> Result<PlacedRules, RuleFault>
    ensures rules { IfOk result (HasPlacedRules text.now) }
    ensures fault { IfErr result (IsFaultOf (placed_rules_in text.now)) }
{
    let mut reader = TextReader {
        rules: Rules {
            side: Side::Uni,
            lines: Vec::new(alloc),
            otherwise: 0,
        },
        begins: Vec::new(alloc),
        names: NameTable::new(alloc),
        room: MOST_ADDED,
        blocks: 0,
        head: TextPlace { line: 0, column: 0 },
        begun: false,
        closed: false,
    };
    let mut left = text;
    let mut begin = TextPlace { line: 1, column: 1 };
    while let Some((line, rest)) = next_rule_line(left) {
        if let Err(fault) = reader.read_line(alloc, begin, line) {
            return Err(fault_of_line(begin, line, fault));
        }
        begin = place_after(begin, line);
        left = rest;
    }
    reader.finish()
}

/// Reads a text of rules: returns the rules that are defined for it (`rules_in`).
///
/// # Errors
///
/// Those of [`read_with_places`].
pub fn read_rules(alloc: Global, text: &[u8]) -> Result<Rules, RuleFault>
    ensures rules { IfOk result (HasRules text.now) }
    ensures fault { IfErr result (IsFaultOf (rules_in text.now)) }
{
    let placed_rules = read_with_places(alloc, text)?;
    Ok(placed_rules.rules)
}

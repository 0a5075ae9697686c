//! Reads the statement of a line: passes its tokens to the reader of lines, and in place of a name the tokens that the name means.

ghost use Rattle.std.specs.Prelude.{◌≡◌, ◌+◌, ◌≤◌, ◌<◌, drop, length, map};
ghost use Rattle.rules_text.specs.Names.{ending, meant, read_for, room_left};
ghost use Rattle.rules_text.specs.RuleTokens.{rule_tokens, tokens_from};
ghost use Rattle.rules_text.specs.TextOfRules.{formed_statement};
ghost use Rattle.rules_text.specs.SeenTokens.{found_seen, rule_token_seen};
ghost use Rattle.rules_text.specs.inner.SeenFaults.{IsReadAs};
ghost use Rattle.rules_text.specs.inner.SeenReading.{context_seen, form_seen, line_statement_seen, names_seen, reading_seen};
ghost use Rattle.rules_text.specs.inner.SeenNameTable.{IsFoundByLetters};
ghost use Rattle.rules_text.specs.inner.TokensRead.{token_read, all_tokens_read};

use crate::fault::{RuleFault, RuleFaultKind, fault_in_line};
use crate::lexer::{Found, Token, next_token};
use crate::line_reader::{Context, LineReader, Statement};
use crate::names::{Form, NameTable, admit};
use std::alloc::Global;

impl LineReader {
    /// Reads a token at a column, and gives a fault its column.
    fn read_at(&mut self, context: Context, column: usize, token: Token) -> Result<(), RuleFault>
        ensures { IsReadAs result (token_read (context_seen context) column (reading_seen self.old) (rule_token_seen token)) (λ _. reading_seen self.new) }
    {
        let unbalanced = self.unbalanced_at(column);
        match self.read(context, column, token) {
            Ok(()) => Ok(()),
            Err(RuleFaultKind::Unbalanced) => Err(fault_in_line(
                RuleFaultKind::Unbalanced,
                unbalanced,
            )),
            Err(kind) => Err(fault_in_line(kind, column)),
        }
    }

    /// Reads tokens that all have one column, which is that of the token or of the name that stands there.
    fn read_all(
        &mut self,
        context: Context,
        column: usize,
        tokens: &[Token],
    ) -> Result<(), RuleFault>
        ensures { IsReadAs result (all_tokens_read (context_seen context) column (reading_seen self.old) (map rule_token_seen tokens.now)) (λ _. reading_seen self.new) }
    {
        let mut left = tokens;
        while let [token, rest @ ..] = left {
            self.read_at(context, column, *token)?;
            left = rest;
        }
        Ok(())
    }

    /// Reads a token, or the tokens that it means if it is a name (`meant`).
    fn read_found(
        &mut self,
        context: Context,
        form: Form,
        found: Found,
        meant: &[Token],
    ) -> Result<(), RuleFault>
        requires { found.start < found.end }
        ensures { IsReadAs result (all_tokens_read (context_seen context) (found.start + 1) (reading_seen self.old) (read_for (form_seen form) (rule_token_seen found.token) (map rule_token_seen meant.now))) (λ _. reading_seen self.new) }
    {
        let column = found.start + 1;
        if meant.is_empty() {
            let own = [admit(form, found.token)];
            self.read_all(context, column, &own)
        } else {
            self.read_all(context, column, meant)
        }
    }

    /// Ends a definition: reads `-> refuse` after it, so its test must be complete, as before the `->` of a rule. Nothing is read after a
    /// line of rules or the number of a contract.
    fn read_end(&mut self, context: Context, form: Form, column: usize) -> Result<(), RuleFault>
        ensures { IsReadAs result (all_tokens_read (context_seen context) column (reading_seen self.old) (ending (form_seen form))) (λ _. reading_seen self.new) }
    {
        match form {
            Form::Rule | Form::Value => Ok(()),
            Form::Test | Form::List => {
                let end = [Token::Arrow, Token::Refuse];
                self.read_all(context, column, &end)
            }
        }
    }
}

/// The tokens that are read in place of a token, if it is a name that was given; otherwise none. `room` is how many tokens names may
/// still add.
pub(crate) fn meant_by<'a>(
    names: &'a NameTable,
    room: usize,
    line: &[u8],
    found: Found,
) -> &'a [Token]
    requires names { IsFoundByLetters names.now }
    requires start { found.start < found.end }
    requires end { found.end ≤ length line.now }
    ensures { map rule_token_seen result.now ≡ meant (names_seen names.now) room line.now (found_seen found) }
{
    if found.token.is_name() {
        names.find_within(room, &line[found.start..found.end])
    } else {
        &[]
    }
}

/// How many tokens names may still add after a line. `allowed` is how many they may add before it.
pub(crate) fn room_after_line(names: &NameTable, allowed: usize, line: &[u8]) -> usize
    requires { IsFoundByLetters names.now }
    ensures { result ≡ room_left (names_seen names.now) allowed line.now (rule_tokens line.now) }
{
    let mut room = allowed;
    let mut from = 0;
    while let Some(found) = next_token(line, from) {
        let meant = meant_by(names, room, line, found);
        room = room.saturating_sub(meant.len());
        from = found.end;
    }
    room
}

/// Reads a line from column `start` on, counted from 0, in this form: as a line of rules, as the number of a contract, or as what a name
/// means.
pub(crate) fn statement_in(
    alloc: Global,
    context: Context,
    names: &NameTable,
    form: Form,
    line: &[u8],
    start: usize,
) -> Result<Statement, RuleFault>
    requires names { IsFoundByLetters names.now }
    requires start { start ≤ length line.now }
    ensures { IsReadAs result (formed_statement (context_seen context) (names_seen names.now) (form_seen form) line.now (start + 1) (tokens_from (start + 1) 0 (drop start line.now))) line_statement_seen }
{
    let mut reader = LineReader::new(alloc, form);
    let mut room = context.room;
    let mut from = start;
    while let Some(found) = next_token(line, from) {
        let meant = meant_by(names, room, line, found);
        reader.read_found(context, form, found, meant)?;
        room = room.saturating_sub(meant.len());
        from = found.end;
    }
    let column = from + 1;
    reader.read_end(context, form, column)?;
    reader.finish(column)
}

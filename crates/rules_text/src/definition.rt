//! The lines that give names: those that begin with `define` or `contract`.

ghost use Rattle.std.specs.Prelude.{◌≡◌, ◌≢◌, ◌+◌, ◌≤◌, ◌<◌, ◌++◌, IsTrue, false, Ok, Err, IfOk, IfErr, drop, length, map, slice_range, None, MatchOption};
ghost use Rattle.rules_text.specs.Names.{expanded, name_meaning, read_for, rule_form};
ghost use Rattle.rules_text.specs.RuleTokens.{tokens_from};
ghost use Rattle.rules_text.specs.TextOfRules.{contract_given, contract_number, definition_given, definition_tokens, given_by, gives_name, is_equal, name_found, new_name};
ghost use Rattle.rules_text.specs.SeenTokens.{found_seen, rule_token_seen};
ghost use Rattle.rules_text.specs.inner.SeenFaults.{IsReadAs};
ghost use Rattle.rules_text.specs.inner.SeenReading.{context_seen, line_statement_seen, name_seen, names_seen};
ghost use Rattle.rules_text.specs.inner.SeenNameTable.{IsFoundByLetters};
ghost use Rattle.rules_text.specs.inner.SeenNames.{letters_found, place_seen};
ghost use Rattle.rules_text.specs.declared.fault.RuleFaultKind.TheVariants.{NoMemory};

use crate::fault::{RuleFault, RuleFaultKind, fault_in_line};
use crate::lexer::{Found, Sign, Token, begins_word, next_token};
use crate::line_reader::{Context, Statement};
use crate::names::{Form, Name, NameTable, are_list, meaning};
use crate::statement_reader::{meant_by, statement_in};
use std::alloc::{AllocError, Global};

/// The most names of a text, and the most tokens of a definition.
const MOST: usize = 4096;

/// Where a line gives a name: the columns of its letters, counted from 0, and the column after its `=`.
#[derive(Clone, Copy)]
pub(crate) struct NamePlace {
    pub start: usize,
    pub end: usize,
    pub after: usize,
}

/// Checks that a token is a new name. `NameTaken` for a word of the language and for a name that was given, `BadLine` for any other token,
/// `TooLong` if 4096 names were given.
fn check_name(names: &NameTable, letters: &[u8], token: Token) -> Result<(), RuleFaultKind>
    requires names { IsFoundByLetters names.now }
    requires some { 0 < length letters.now }
    ensures found { letters_found letters.now result ≡ new_name (names_seen names.now) letters.now (rule_token_seen token) }
    ensures new { IfOk result (λ _. name_meaning (names_seen names.now) letters.now ≡ None) }
    ensures placed { IfErr result (λ kind. kind ≢ NoMemory) }
{
    if !token.is_name() {
        return Err(if begins_word(letters[0]) {
            RuleFaultKind::NameTaken
        } else {
            RuleFaultKind::BadLine
        });
    }
    if names.find(letters).is_some() {
        return Err(RuleFaultKind::NameTaken);
    }
    if names.len() >= MOST {
        return Err(RuleFaultKind::TooLong);
    }
    Ok(())
}

/// Whether a token is `=`.
fn equal(token: Token) -> bool
    ensures { result ≡ is_equal (rule_token_seen token) }
{
    matches!(token, Token::Sign(Sign::Equal))
}

/// Finds the name that a line gives, and its `=`, from column `from` on, counted from 0.
pub(crate) fn name_place(
    names: &NameTable,
    line: &[u8],
    from: usize,
) -> Result<NamePlace, RuleFault>
    requires names { IsFoundByLetters names.now }
    requires from { from ≤ length line.now }
    ensures ok { IfOk result (λ place. name_found (names_seen names.now) line.now (from + 1) (tokens_from (from + 1) 0 (drop from line.now)) ≡ Ok (place_seen line.now place)) }
    ensures new { IfOk result (λ place. name_meaning (names_seen names.now) (slice_range line.now place.start place.end) ≡ None) }
    ensures letters { IfOk result (λ place. (place.start < place.end) × (place.end ≤ length line.now)) }
    ensures after { IfOk result (λ place. place.after ≤ length line.now) }
    ensures err { IfErr result (λ fault. name_found (names_seen names.now) line.now (from + 1) (tokens_from (from + 1) 0 (drop from line.now)) ≡ Err fault) }
{
    let Some(name) = next_token(line, from) else {
        return Err(fault_in_line(RuleFaultKind::BadLine, from + 1));
    };
    if let Err(kind) = check_name(names, &line[name.start..name.end], name.token) {
        return Err(fault_in_line(kind, name.start + 1));
    }
    let Some(sign) = next_token(line, name.end) else {
        return Err(fault_in_line(RuleFaultKind::BadLine, name.end + 1));
    };
    if !equal(sign.token) {
        return Err(fault_in_line(RuleFaultKind::BadLine, sign.start + 1));
    }
    Ok(NamePlace {
        start: name.start,
        end: name.end,
        after: sign.end,
    })
}

/// Adds a token of a definition, or the tokens that it means. Returns false, and adds nothing, if the definition would have more than 4096
/// tokens.
fn add_token(tokens: &mut Vec<Token>, found: Found, meant: &[Token]) -> Result<bool, AllocError>
    requires { length tokens.old.items ≤ 4096 }
    ensures added { IfOk result (λ added. IsTrue added → map rule_token_seen tokens.new.items ≡ map rule_token_seen tokens.old.items ++ read_for rule_form (rule_token_seen found.token) (map rule_token_seen meant.now)) }
    ensures few { IfOk result (λ added. IsTrue added → length tokens.new.items ≤ 4096) }
    ensures many { IfOk result (λ added. added ≡ false → 4096 < length tokens.old.items + length (read_for rule_form (rule_token_seen found.token) (map rule_token_seen meant.now))) }
{
    let more = meant.len().max(1);
    if more > MOST - tokens.len() {
        return Ok(false);
    }
    if meant.is_empty() {
        tokens.push(found.token)?;
    } else {
        tokens.extend_from_slice(meant)?;
    }
    Ok(true)
}

/// The tokens of a definition from a column on, counted from 0, with the tokens that names mean in place of the names. None if there are
/// more than 4096.
fn body(
    alloc: Global,
    names: &NameTable,
    allowed: usize,
    line: &[u8],
    after: usize,
) -> Result<Option<Vec<Token>>, AllocError>
    requires names { IsFoundByLetters names.now }
    requires after { after ≤ length line.now }
    ensures { IfOk result (λ found. let wanted = map (λ it. it.token) (expanded (names_seen names.now) allowed rule_form line.now (after + 1) (tokens_from (after + 1) 0 (drop after line.now)))
        in MatchOption found (4096 < length wanted) (λ tokens. (map rule_token_seen tokens.items ≡ wanted) × (length tokens.items ≤ 4096))) }
{
    let mut tokens = Vec::new(alloc);
    let mut room = allowed;
    let mut from = after;
    while let Some(found) = next_token(line, from) {
        let meant = meant_by(names, room, line, found);
        if !add_token(&mut tokens, found, meant)? {
            return Ok(None);
        }
        room = room.saturating_sub(meant.len());
        from = found.end;
    }
    Ok(Some(tokens))
}

/// The tokens that a name means, by a line that begins with `define`.
pub(crate) fn definition(
    alloc: Global,
    context: Context,
    names: &NameTable,
    line: &[u8],
    place: NamePlace,
) -> Result<Vec<Token>, RuleFault>
    requires names { IsFoundByLetters names.now }
    requires letters { (place.start < place.end) × (place.end ≤ length line.now) }
    requires after { place.after ≤ length line.now }
    ensures { let seen = place_seen line.now place
        in IsReadAs result (definition_given (context_seen context) (names_seen names.now) line.now seen (definition_tokens (names_seen names.now) context.room line.now seen))
        (λ tokens. record { letters = seen.letters; tokens = map rule_token_seen tokens.items }) }
{
    let Some(tokens) = body(alloc, names, context.room, line, place.after)? else {
        return Err(fault_in_line(RuleFaultKind::TooLong, place.start + 1));
    };
    let form = if are_list(tokens.as_slice()) {
        Form::List
    } else {
        Form::Test
    };
    // Only a fault matters here: a name's tokens are read again wherever the name is used.
    let _read = statement_in(alloc, context, names, form, line, place.after)?;
    Ok(meaning(alloc, tokens)?)
}

/// The token that a name means, by a line that begins with `contract`: the number of the contract.
pub(crate) fn contract(
    alloc: Global,
    context: Context,
    names: &NameTable,
    line: &[u8],
    place: NamePlace,
) -> Result<Vec<Token>, RuleFault>
    requires names { IsFoundByLetters names.now }
    requires after { place.after ≤ length line.now }
    ensures { let seen = place_seen line.now place
        in IsReadAs result (contract_given (context_seen context) (names_seen names.now) line.now seen)
        (λ tokens. record { letters = seen.letters; tokens = map rule_token_seen tokens.items }) }
{
    let statement = statement_in(alloc, context, names, Form::Value, line, place.after)?;
    let mut tokens = Vec::new(alloc);
    tokens.push(Token::Value(number_of(&statement)))?;
    Ok(tokens)
}

/// The number of a contract.
fn number_of(statement: &Statement) -> u32
    ensures { result ≡ contract_number (line_statement_seen statement.now) }
{
    match statement {
        Statement::Value(value) => *value,
        _ => 0,
    }
}

/// Whether lines that begin with a token give names.
pub(crate) fn is_giving(token: Token) -> bool
    ensures { result ≡ gives_name (rule_token_seen token) }
{
    matches!(token, Token::Define | Token::Contract)
}

/// The name at a place, with what it means. `first` is the first token of the line: `contract`, or else `define`.
pub(crate) fn name_at(
    alloc: Global,
    context: Context,
    names: &NameTable,
    line: &[u8],
    first: Token,
    place: NamePlace,
) -> Result<Name, RuleFault>
    requires names { IsFoundByLetters names.now }
    requires letters { (place.start < place.end) × (place.end ≤ length line.now) }
    requires after { place.after ≤ length line.now }
    ensures read { IsReadAs result (given_by (rule_token_seen first) (context_seen context) (names_seen names.now) line.now (place_seen line.now place)) name_seen }
    ensures letters { IfOk result (λ name. name.letters.items ≡ slice_range line.now place.start place.end) }
{
    let tokens = match first {
        Token::Contract => contract(alloc, context, names, line, place)?,
        _ => definition(alloc, context, names, line, place)?,
    };
    let letters = line[place.start..place.end].to_vec(alloc)?;
    Ok(Name { letters, tokens })
}

//! The names of a text: what they mean, and the table in which each is found.

ghost use Rattle.std.specs.Prelude.{◌≡◌, ◌++◌, ◌∷◌, ◌&&◌, not, [], List, map, length, None, IfOk};
ghost use Rattle.rules_text.specs.Names.{admitted, defined_as, is_list, is_no_path, name_meaning, within_room};
ghost use Rattle.rules_text.specs.RuleTokens.{RuleToken};
ghost use Rattle.rules_text.specs.SeenTokens.{rule_token_seen};
ghost use Rattle.rules_text.specs.inner.SeenReading.{form_seen, name_seen, names_seen};
ghost use Rattle.rules_text.specs.inner.SeenNameTable.{IsFoundByLetters, meaning_seen};

use crate::lexer::Token;
use std::alloc::{AllocError, Global};
use std::collections::BTreeMap;

/// The form in which a line, or a part of it, is read.
#[derive(Clone, Copy)]
pub(crate) enum Form {
    /// A line of rules.
    Rule,
    /// The value of a contract.
    Value,
    /// The test that a name means.
    Test,
    /// The list that a name means.
    List,
}

/// A name.
#[derive(Drop)]
pub(crate) struct Name {
    /// Its letters.
    pub letters: Vec<u8>,
    /// The tokens that it means.
    pub tokens: Vec<Token>,
}

/// Returns the token if this form admits it, otherwise `Unknown`, which fits nowhere. A definition has no `->` and no `{`, and a list has
/// only numbers, names, `,` and `..`.
pub(crate) fn admit(form: Form, token: Token) -> Token
    ensures { rule_token_seen result ≡ admitted (form_seen form) (rule_token_seen token) }
{
    match form {
        Form::Rule | Form::Value => token,
        Form::Test => match token {
            Token::Arrow | Token::LeftBrace => Token::Unknown,
            _ => token,
        },
        Form::List => match token {
            Token::Number(_) | Token::BadNumber | Token::Name | Token::Comma | Token::Dots => token,
            _ => Token::Unknown,
        },
    }
}

/// Whether a list may begin with a token.
fn is_number(token: Token) -> bool
    ensures { (rest : List RuleToken) → is_list (rule_token_seen token ∷ rest) ≡ (result && is_no_path rest) }
{
    matches!(token, Token::Number(_) | Token::BadNumber)
}

/// Whether tokens begin with `/`.
fn begin_with_slash(tokens: &[Token]) -> bool
    ensures { is_no_path (map rule_token_seen tokens.now) ≡ not result }
{
    matches!(tokens, [Token::Slash, ..])
}

/// Whether the tokens of a definition are a list.
pub(crate) fn are_list(tokens: &[Token]) -> bool
    ensures { result ≡ is_list (map rule_token_seen tokens.now) }
{
    match tokens {
        [] => false,
        [first, rest @ ..] => is_number(*first) && !begin_with_slash(rest),
    }
}

/// The tokens that are read in place of a name with this definition: a list as it is, and a test in parentheses, so that `not` before
/// the name denies all of it.
pub(crate) fn meaning(alloc: Global, tokens: Vec<Token>) -> Result<Vec<Token>, AllocError>
    ensures { IfOk result (λ meant. map rule_token_seen meant.items ≡ defined_as (map rule_token_seen tokens.items)) }
{
    if are_list(tokens.as_slice()) {
        return Ok(tokens);
    }
    let mut enclosed = Vec::new(alloc);
    enclosed.push(Token::LeftParenthesis)?;
    enclosed.extend_from_slice(tokens.as_slice())?;
    enclosed.push(Token::RightParenthesis)?;
    Ok(enclosed)
}

/// The names of a text. Each is found by its letters, in a number of comparisons that grows with the logarithm of the number of names.
#[derive(Drop)]
pub(crate) struct NameTable {
    /// The names, in the order in which they were given.
    pub given: Vec<Name>,
    /// The index of each name in `given`, by its letters.
    pub places: BTreeMap<Vec<u8>, usize>,
    /// What is read in place of a name whose tokens are more than names may still add.
    pub beyond: [Token; 1],
}

impl NameTable {
    /// Returns a table without names.
    pub(crate) fn new(alloc: Global) -> NameTable
        ensures empty { names_seen result ≡ [] }
        ensures found { IsFoundByLetters result }
    {
        NameTable {
            given: Vec::new(alloc),
            places: BTreeMap::new(alloc),
            beyond: [Token::NoRoom],
        }
    }

    /// How many names were given.
    pub(crate) fn len(&self) -> usize
        ensures { result ≡ length (names_seen self.now) }
    {
        self.given.len()
    }

    /// The tokens that the name with these letters means, if it was given.
    pub(crate) fn find(&self, letters: &[u8]) -> Option<&[Token]>
        requires { IsFoundByLetters self.now }
        ensures { meaning_seen (λ tokens. tokens.now) result ≡ name_meaning (names_seen self.now) letters.now }
    {
        let place = self.places.get(letters).copied()?;
        let name = self.given.get(place)?;
        Some(name.tokens.as_slice())
    }

    /// The tokens that are read for the name with these letters: those that it means, or `NoRoom` if they are more than `room`. None if no
    /// such name was given.
    pub(crate) fn find_within(&self, room: usize, letters: &[u8]) -> &[Token]
        requires { IsFoundByLetters self.now }
        ensures { map rule_token_seen result.now ≡ within_room room (name_meaning (names_seen self.now) letters.now) }
    {
        match self.find(letters) {
            Some(tokens) => {
                if tokens.len() > room {
                    &self.beyond
                } else {
                    tokens
                }
            }
            None => &[],
        }
    }

    /// Gives a name.
    pub(crate) fn give(&mut self, alloc: Global, name: Name) -> Result<(), AllocError>
        requires found { IsFoundByLetters self.old }
        requires new { name_meaning (names_seen self.old) name.letters.items ≡ None }
        ensures given { IfOk result (λ _. names_seen self.new ≡ names_seen self.old ++ name_seen name ∷ []) }
        ensures found { IfOk result (λ _. IsFoundByLetters self.new) }
    {
        let letters = name.letters.as_slice().to_vec(alloc)?;
        let place = self.given.len();
        self.given.push(name)?;
        let _before = self.places.insert(letters, place)?;
        Ok(())
    }
}

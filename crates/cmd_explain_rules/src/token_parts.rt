//! What a token of a line of rules is.

ghost use Rattle.std.specs.Prelude.{◌≡◌};
ghost use Rattle.rules_text.specs.RulesRead.{field_read};
ghost use Rattle.rules_text.specs.SeenTokens.{rule_token_seen};
ghost use Rattle.cmd_explain_rules.specs.Parts.{field_subject, part_of, sign_part};

use bpf_code::Size;
use rules_cells::Field;
use rules_text::{Sign, Token};

/// What numbers are compared with. Of octets it is their size, by which an offset is judged too.
#[derive(Clone, Copy)]
pub enum Subject {
    /// `gfc`
    Gfc,
    /// `vpi`, and a path before `/`.
    Vpi,
    /// `vci`, and the channels of a path.
    Vci,
    /// `pti`
    Pti,
    /// `clp`
    Clp,
    /// `octet`, `half` or `word`.
    Octets(Size),
}

/// What a token is.
#[derive(Clone, Copy)]
pub enum Part {
    /// A word that is a test.
    Test,
    /// A field of the header.
    Field(Subject),
    /// `octet`, `half` or `word`.
    Size(Size),
    /// `not` or `!`
    Not,
    /// `and` or `&&`
    And,
    /// `or` or `||`
    Or,
    /// `otherwise`
    Otherwise,
    /// `refuse` or `drop`
    Refuse,
    /// `side`
    Side,
    /// `uni` or `nni`
    SideName,
    /// `define`
    Define,
    /// `contract`
    Contract,
    /// `->`
    Arrow,
    /// `{`
    LeftBrace,
    /// `}`
    RightBrace,
    /// `(`
    LeftParenthesis,
    /// `)`
    RightParenthesis,
    /// `&`
    Mask,
    /// `,`
    Comma,
    /// `..`
    Dots,
    /// `/`
    Slash,
    /// `*`
    Star,
    /// A sign before a list: `=`, `==` or `!=`.
    Equal,
    /// A sign before a number: `<`, `<=`, `>` or `>=`.
    Order,
    /// A word that begins with a digit.
    Number,
    /// Any other word.
    Name,
    /// Any other octet.
    Other,
}

/// Returns what numbers after a field are compared with.
fn field_subject(field: Field) -> Subject
    ensures { result ≡ field_subject (field_read field) }
{
    match field {
        Field::Gfc => Subject::Gfc,
        Field::Vpi => Subject::Vpi,
        Field::Vci => Subject::Vci,
        Field::Pti => Subject::Pti,
        Field::Clp => Subject::Clp,
        Field::Octets(octets) => Subject::Octets(octets.size),
    }
}

/// Returns what a sign is: one before a list, or one before a number.
fn sign_part(sign: Sign) -> Part
    ensures { result ≡ sign_part sign }
{
    match sign {
        Sign::Equal | Sign::Unequal => Part::Equal,
        _ => Part::Order,
    }
}

/// Returns what a token is.
pub(crate) fn part_of(token: Token) -> Part
    ensures { result ≡ part_of (rule_token_seen token) }
{
    match token {
        Token::Test(_) => Part::Test,
        Token::Field(field) => Part::Field(field_subject(field)),
        Token::Octets(size) => Part::Size(size),
        Token::Not => Part::Not,
        Token::And => Part::And,
        Token::Or => Part::Or,
        Token::Otherwise => Part::Otherwise,
        Token::Refuse => Part::Refuse,
        Token::Side => Part::Side,
        Token::Uni | Token::Nni => Part::SideName,
        Token::Define => Part::Define,
        Token::Contract => Part::Contract,
        Token::Arrow => Part::Arrow,
        Token::LeftBrace => Part::LeftBrace,
        Token::RightBrace => Part::RightBrace,
        Token::LeftParenthesis => Part::LeftParenthesis,
        Token::RightParenthesis => Part::RightParenthesis,
        Token::Mask => Part::Mask,
        Token::Comma => Part::Comma,
        Token::Dots => Part::Dots,
        Token::Slash => Part::Slash,
        Token::Star => Part::Star,
        Token::Sign(sign) => sign_part(sign),
        Token::Number(_) | Token::BadNumber => Part::Number,
        Token::Name => Part::Name,
        Token::Value(_) | Token::NoRoom | Token::Unknown => Part::Other,
    }
}

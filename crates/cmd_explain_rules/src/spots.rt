//! What may come next in a line of rules.

ghost use Rattle.std.specs.Prelude.{◌≡◌};
ghost use Rattle.cmd_explain_rules.specs.Spots.{after_equal, after_name, after_number, after_single, after_value, defines_after, first_spot, place_after, spot_after, spot_from, subject_after, takes_list, takes_test};

use crate::rule_tokens::RuleWord;
use crate::token_parts::{Part, Subject};
use bpf_code::Size;

/// What comes next in a line.
#[derive(Clone, Copy)]
pub enum Place {
    /// The first token.
    Start,
    /// A unit of a test.
    Unit,
    /// `and`, `or`, or the end of the test.
    Operator,
    /// The offset of octets.
    Offset,
    /// After a field: `&`, a sign or a number.
    Relation,
    /// A mask.
    Mask,
    /// After a mask: a sign or a number.
    Sign,
    /// The number after `<`, `<=`, `>` or `>=`.
    Constant,
    /// After the first number of a range.
    Dots,
    /// The number after `..`.
    High,
    /// After a range.
    Comma,
    /// A number of a list.
    Low,
    /// `/` after a path.
    Slash,
    /// The channels of a path.
    Channel,
    /// `->` after `otherwise`.
    Arrow,
    /// A value.
    Value,
    /// The name of a side.
    Side,
    /// Nothing more.
    End,
    /// A new name.
    NewName,
    /// `=` after a new name.
    Equal,
    /// What a new name means: a test or a list, after the `=` of `define`.
    Body,
}

/// A place in a line.
#[derive(Clone, Copy)]
pub struct Spot {
    /// What comes next.
    pub place: Place,
    /// What the numbers here are compared with.
    pub subject: Subject,
    /// Whether the line begins with `define`.
    pub defines: bool,
}

/// Returns whether a test may begin at a place.
pub(crate) fn takes_test(place: Place) -> bool
    ensures { result ≡ takes_test place }
{
    matches!(place, Place::Start | Place::Unit | Place::Body)
}

/// Returns whether a number of a list comes at a place.
pub(crate) fn takes_list(place: Place) -> bool
    ensures { result ≡ takes_list place }
{
    matches!(
        place,
        Place::Relation | Place::Sign | Place::Low | Place::Channel
    )
}

/// Returns what comes after a single number, or a name that means one, at a place that takes no list. At any other place that place itself
/// comes.
fn after_single(place: Place) -> Place
    ensures { result ≡ after_single place }
{
    match place {
        Place::Offset => Place::Relation,
        Place::Mask => Place::Sign,
        Place::Constant => Place::Operator,
        Place::High => Place::Comma,
        Place::Value => Place::End,
        _ => place,
    }
}

/// Returns what comes after a number or a name at a place: `of_test` where a test may begin, `of_list` where a number of a list may come,
/// and anywhere else what comes after a single number.
fn after_value(place: Place, of_test: Place, of_list: Place) -> Place
    ensures { result ≡ after_value place of_test of_list }
{
    if takes_test(place) {
        of_test
    } else if takes_list(place) {
        of_list
    } else {
        after_single(place)
    }
}

/// Returns what comes after a number.
fn after_number(place: Place) -> Place
    ensures { result ≡ after_number place }
{
    match place {
        Place::Body => Place::Dots,
        _ => after_value(place, Place::Slash, Place::Dots),
    }
}

/// Returns what comes after a name.
fn after_name(place: Place) -> Place
    ensures { result ≡ after_name place }
{
    match place {
        Place::Body => Place::Comma,
        Place::NewName => Place::Equal,
        _ => after_value(place, Place::Operator, Place::Comma),
    }
}

/// Returns what comes after `=` or `!=`.
fn after_equal(defines: bool, place: Place) -> Place
    ensures { result ≡ after_equal defines place }
{
    match place {
        Place::Equal => { if defines { Place::Body } else { Place::Value } }
        _ => Place::Low,
    }
}

/// Returns what comes after a token.
fn place_after(defines: bool, place: Place, part: Part) -> Place
    ensures { result ≡ place_after defines place part }
{
    match part {
        Part::Test => Place::Operator,
        Part::Field(_) => Place::Relation,
        Part::Size(_) => Place::Offset,
        Part::Not => Place::Unit,
        Part::And => Place::Unit,
        Part::Or => Place::Unit,
        Part::Otherwise => Place::Arrow,
        Part::Refuse => Place::End,
        Part::Side => Place::Side,
        Part::SideName => Place::End,
        Part::Define => Place::NewName,
        Part::Contract => Place::NewName,
        Part::Arrow => Place::Value,
        Part::LeftBrace => Place::End,
        Part::RightBrace => Place::End,
        Part::LeftParenthesis => Place::Unit,
        Part::RightParenthesis => Place::Operator,
        Part::Mask => Place::Mask,
        Part::Comma => Place::Low,
        Part::Dots => Place::High,
        Part::Slash => Place::Channel,
        Part::Star => Place::Operator,
        Part::Equal => after_equal(defines, place),
        Part::Order => Place::Constant,
        Part::Number => after_number(place),
        Part::Name => after_name(place),
        Part::Other => place,
    }
}

/// Returns what numbers after a token are compared with.
fn subject_after(before: Subject, part: Part) -> Subject
    ensures { result ≡ subject_after before part }
{
    match part {
        Part::Field(subject) => subject,
        Part::Size(size) => Subject::Octets(size),
        Part::Not => Subject::Vpi,
        Part::And => Subject::Vpi,
        Part::Or => Subject::Vpi,
        Part::LeftParenthesis => Subject::Vpi,
        Part::Slash => Subject::Vci,
        Part::Define => Subject::Octets(Size::Word),
        _ => before,
    }
}

/// Returns whether a line begins with `define`.
fn defines_after(before: bool, part: Part) -> bool
    ensures { result ≡ defines_after before part }
{
    match part {
        Part::Define => true,
        _ => before,
    }
}

/// Returns the place after a token.
fn spot_after(spot: Spot, part: Part) -> Spot
    ensures { result ≡ spot_after spot part }
{
    Spot {
        place: place_after(spot.defines, spot.place, part),
        subject: subject_after(spot.subject, part),
        defines: defines_after(spot.defines, part),
    }
}

/// Returns what may come at a column, by the tokens before it.
pub(crate) fn spot_before(column: usize, words: &[RuleWord]) -> Spot
    ensures { result ≡ spot_from column first_spot words.now }
{
    let mut left = words;
    let mut spot = Spot {
        place: Place::Start,
        subject: Subject::Vpi,
        defines: false,
    };
    while let [word, rest @ ..] = left {
        if word.column >= column {
            return spot;
        }
        spot = spot_after(spot, word.part);
        left = rest;
    }
    spot
}

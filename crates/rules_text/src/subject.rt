//! The left side of a comparison, which is a field or octets with a mask, and the numbers on its right side.

ghost use Rattle.std.specs.Prelude.{◌≡◌, [], ◌∷◌, ◌++◌, None, IfOk};
ghost use Rattle.rules_text.specs.LineGrammar.{field_of_list, list_test};
ghost use Rattle.rules_text.specs.Subjects.{header_read, most_of_field, number_within, octets_at_token, octets_read, value_read};
ghost use Rattle.rules_text.specs.RulesRead.{compared, comparing, field_read, relation_read, test_read};
ghost use Rattle.rules_text.specs.declared.lexer.Sign.TheVariants.{Equal as equal_sign};
ghost use Rattle.rules_text.specs.SeenTokens.{rule_token_seen};
ghost use Rattle.rules_text.specs.inner.SeenReading.{field_found, list_seen};

use crate::fault::RuleFaultKind;
use crate::group::all_of_two;
use crate::lexer::{Sign, Token};
use bpf_code::Size;
use rules_cells::{Field, Octets, Relation, Span, Test};
use std::alloc::{AllocError, Global};
use upc_cell::Side;

/// A field or octets of a cell, with a mask if there is one.
#[derive(Clone, Copy)]
pub(crate) struct Subject {
    /// The number.
    pub field: Field,
    /// The mask.
    pub mask: Option<u32>,
}

/// What the numbers of a list are for.
#[derive(Clone, Copy)]
pub(crate) enum ListOf {
    /// The field has one of them.
    Field(Subject),
    /// The field has none of them.
    Denied(Subject),
    /// They are channels of this path.
    Path(u32),
}

/// The field of the header that this name denotes at this side. `BadLine` for GFC between nodes, where the header has none.
pub(crate) fn header_field(side: Side, name: Field) -> Result<Field, RuleFaultKind>
    ensures { field_found result ≡ header_read side (field_read name) }
{
    match (side, name) {
        (Side::Nni, Field::Gfc) | (Side::NniPaths, Field::Gfc) | (_, Field::Octets(_)) => Err(
            RuleFaultKind::BadLine,
        ),
        _ => Ok(name),
    }
}

/// The relation to a constant.
pub(crate) fn relation_of(sign: Sign, k: u32) -> Relation
    ensures { relation_read result ≡ compared sign k }
{
    match sign {
        Sign::Equal => Relation::Equal(k),
        Sign::Unequal => Relation::Unequal(k),
        Sign::Less => Relation::Less(k),
        Sign::AtMost => Relation::AtMost(k),
        Sign::Greater => Relation::Greater(k),
        Sign::AtLeast => Relation::AtLeast(k),
    }
}

/// The octets at an offset, if they are all in the cell.
fn octets_at(size: Size, at: u32) -> Result<Field, RuleFaultKind>
    ensures { field_found result ≡ octets_read size at }
{
    let last = match size {
        Size::Octet => 51,
        Size::Half => 50,
        Size::Word => 48,
    };
    if last < at {
        return Err(RuleFaultKind::OutsideCell);
    }
    Ok(Field::Octets(Octets { size, at }))
}

/// The octets at the offset that a token is.
pub(crate) fn octets_of(size: Size, token: Token) -> Result<Field, RuleFaultKind>
    ensures { field_found result ≡ octets_at_token size (rule_token_seen token) }
{
    match token {
        Token::Number(at) => octets_at(size, at),
        Token::BadNumber => Err(RuleFaultKind::BadNumber),
        _ => Err(RuleFaultKind::BadLine),
    }
}

/// The largest number that a field can have.
fn most_of(field: Field, side: Side) -> u32
    ensures { result ≡ most_of_field side (field_read field) }
{
    match field {
        Field::Gfc => 15,
        Field::Vpi => u32::from(side.last_vpi()),
        Field::Vci => 65535,
        Field::Pti => 7,
        Field::Clp => 1,
        Field::Octets(octets) => match octets.size {
            Size::Octet => 255,
            Size::Half => 65535,
            Size::Word => u32::MAX,
        },
    }
}

/// The number that a token spells, if the field can have it at this side.
pub(crate) fn number_for(token: Token, field: Field, side: Side) -> Result<u32, RuleFaultKind>
    ensures { result ≡ number_within (most_of_field side (field_read field)) (rule_token_seen token) }
{
    match token {
        Token::Number(k) => {
            if most_of(field, side) < k {
                Err(RuleFaultKind::TooLarge)
            } else {
                Ok(k)
            }
        }
        Token::BadNumber => Err(RuleFaultKind::BadNumber),
        _ => Err(RuleFaultKind::BadLine),
    }
}

/// The value that a token stands for: a number, that of a contract, or 0 for `refuse`.
pub(crate) fn value_of(token: Token) -> Result<u32, RuleFaultKind>
    ensures { result ≡ value_read (rule_token_seen token) }
{
    match token {
        Token::Refuse => Ok(0),
        Token::Number(value) | Token::Value(value) => Ok(value),
        Token::BadNumber => Err(RuleFaultKind::BadNumber),
        _ => Err(RuleFaultKind::BadLine),
    }
}

/// The field whose numbers a list has.
pub(crate) fn field_of(of: ListOf) -> Field
    ensures { field_read result ≡ field_of_list (list_seen of) }
{
    match of {
        ListOf::Field(subject) | ListOf::Denied(subject) => subject.field,
        ListOf::Path(_) => Field::Vci,
    }
}

/// The test of the cells in which a field is this number.
pub(crate) fn equal(field: Field, k: u32) -> Test
    ensures { test_read result ≡ comparing (field_read field) None (compared equal_sign k) }
{
    Test::Compare {
        field,
        mask: None,
        relation: Relation::Equal(k),
    }
}

/// The test that a list is. `last` is its last range, and `others` are those before.
pub(crate) fn test_of_list(
    alloc: Global,
    of: ListOf,
    last: Span,
    others: Vec<Span>,
) -> Result<Test, AllocError>
    ensures { IfOk result (λ test. test_read test ≡ list_test (list_seen of) (others.items ++ last ∷ [])) }
{
    // `In` takes one span apart from the others. Every list has a last one, and the order of spans changes no meaning.
    let relation = Relation::In {
        first: last,
        others,
    };
    match of {
        ListOf::Field(subject) => Ok(compared(subject, relation)),
        ListOf::Denied(subject) => Ok(Test::Not(Box::new(alloc, compared(subject, relation))?)),
        ListOf::Path(path) => {
            let channels = Subject {
                field: Field::Vci,
                mask: None,
            };
            all_of_two(alloc, equal(Field::Vpi, path), compared(channels, relation))
        }
    }
}

/// The test that compares a subject as a relation says.
pub(crate) fn compared(subject: Subject, relation: Relation) -> Test
    ensures { test_read result ≡ comparing (field_read subject.field) subject.mask (relation_read relation) }
{
    Test::Compare {
        field: subject.field,
        mask: subject.mask,
        relation,
    }
}

//! Which line of rules decides a cell.

ghost use Rattle.std.specs.Prelude.{◌≡◌, ◌<◌, ◌≤◌, ◌+◌, ◌^◌, drop};
ghost use Rattle.byteorder.specs.Endian.{big_number};
ghost use Rattle.bpf_interp.specs.Packet.{octets_loaded};
ghost use Rattle.rules_code.specs.PlainTests.{is_among, is_in, kept_bits};
ghost use Rattle.rules_cells.specs.Decisions.{decision_from, decision_of, passed_after, value_given};
ghost use Rattle.rules_cells.specs.Fields.{is_so, number_in};
ghost use Rattle.rules_cells.specs.Tests.{is_met};
ghost use Rattle.rules_cells.specs.inner.MetTests.{each_is_met, some_is_met};

use crate::field::{Field, Octets};
use crate::relation::Relation;
use crate::rules::{RuleLine, Rules};
use crate::test::Test;
use bpf_code::Size;
use byteorder::{BigEndian, ByteOrder};
use rules_code::Span;
use upc_cell::{Cell, Side};

/// What rules decide for a cell.
#[derive(Clone, Copy)]
pub struct Decision {
    /// The rule that decides: its index among the lines of rules, counted from 0. None if no rule decides.
    pub line: Option<usize>,
    /// The value of the cell.
    pub value: u32,
}

/// The number in some octets of a cell.
fn octets_number(octets: Octets, cell: &Cell) -> u32
    ensures { result ≡ big_number (octets_loaded octets.size) (drop octets.at cell.now) }
{
    let from = &cell.bytes()[octets.at as usize..];
    match octets.size {
        Size::Octet => u32::from(from[0]),
        Size::Half => u32::from(BigEndian::read_u16(from)),
        Size::Word => BigEndian::read_u32(from),
    }
}

/// The number that a field has in a cell, the header read at this side.
fn number_in(side: Side, field: Field, cell: &Cell) -> u32
    ensures { result ≡ number_in side field cell.now }
{
    match field {
        Field::Gfc => u32::from(cell.gfc()),
        Field::Vpi => u32::from(cell.vpi_at(side)),
        Field::Vci => u32::from(cell.vci()),
        Field::Pti => u32::from(cell.pti()),
        Field::Clp => u32::from(cell.clp()),
        Field::Octets(octets) => octets_number(octets, cell),
    }
}

/// The bits of a number that a mask keeps.
fn kept_bits(mask: Option<u32>, number: u32) -> u32
    ensures { result ≡ kept_bits mask number }
{
    match mask {
        None => number,
        Some(mask) => number & mask,
    }
}

/// Whether a number is in a span.
fn is_in(span: Span, number: u32) -> bool
    ensures { result ≡ is_in span number }
{
    span.low <= number && number <= span.high
}

/// Whether a number is in one of these spans.
fn is_among(spans: &[Span], number: u32) -> bool
    ensures { result ≡ is_among spans.now number }
{
    for span in spans {
        if is_in(*span, number) {
            return true;
        }
    }
    false
}

/// Whether a number is as the relation says.
fn is_so(relation: &Relation, number: u32) -> bool
    ensures { result ≡ is_so relation.now number }
{
    match relation {
        Relation::Equal(k) => number == *k,
        Relation::Unequal(k) => number != *k,
        Relation::Less(k) => number < *k,
        Relation::AtMost(k) => number <= *k,
        Relation::Greater(k) => number > *k,
        Relation::AtLeast(k) => number >= *k,
        Relation::In { first, others } => is_in(*first, number) || is_among(others, number),
    }
}

/// Whether a test holds of a cell, the cell's header read at this side.
#[cycle(is_met)]
fn is_met(side: Side, test: &Test, cell: &Cell) -> bool
    ensures { result ≡ is_met side test.now cell.now }
{
    match test {
        Test::Any => true,
        Test::F5 => cell.pti() == 4 || cell.pti() == 5,
        Test::User => cell.pti() <= 3,
        Test::Compare {
            field,
            mask,
            relation,
        } => is_so(relation, kept_bits(*mask, number_in(side, *field, cell))),
        Test::Not(test) => !is_met(side, test, cell),
        Test::AllOf(tests) => all_are_met(side, tests, cell),
        Test::AnyOf(tests) => one_is_met(side, tests, cell),
    }
}

/// Whether each of these tests holds of a cell.
#[cycle(is_met)]
fn all_are_met(side: Side, tests: &[Test], cell: &Cell) -> bool
    ensures { result ≡ each_is_met side tests.now cell.now }
{
    for test in tests {
        if !is_met(side, test, cell) {
            return false;
        }
    }
    true
}

/// Whether at least one of these tests holds of a cell.
#[cycle(is_met)]
fn one_is_met(side: Side, tests: &[Test], cell: &Cell) -> bool
    ensures { result ≡ some_is_met side tests.now cell.now }
{
    for test in tests {
        if is_met(side, test, cell) {
            return true;
        }
    }
    false
}

/// The value that a line gives, where this many blocks are passed over. None if the line gives no value.
fn value_given(side: Side, line: &RuleLine, passed: usize, cell: &Cell) -> Option<u32>
    ensures { result ≡ value_given side line.now passed cell.now }
{
    match line {
        RuleLine::Rule { test, value } if passed == 0 && is_met(side, test, cell) => Some(*value),
        _ => None,
    }
}

/// How many blocks are passed over after a line, where `passed` are passed over before it.
fn passed_after(side: Side, line: &RuleLine, passed: usize, cell: &Cell) -> usize
    requires { passed < 2 ^ 63 }
    ensures passed { result ≡ passed_after side line.now passed cell.now }
    ensures one { result ≤ passed + 1 }
{
    match line {
        RuleLine::Rule { .. } => passed,
        RuleLine::Block { test } => {
            if passed == 0 && is_met(side, test, cell) {
                0
            } else {
                passed + 1
            }
        }
        RuleLine::End => passed.saturating_sub(1),
    }
}

/// What lines decide for a cell.
fn decided(side: Side, lines: &[RuleLine], otherwise: u32, cell: &Cell) -> Decision
    ensures { result ≡ decision_from side lines.now 0 0 otherwise cell.now }
{
    let mut place = 0usize;
    let mut passed = 0usize;
    while place < lines.len() {
        let line = &lines[place];
        if let Some(value) = value_given(side, line, passed, cell) {
            return Decision {
                line: Some(place),
                value,
            };
        }
        passed = passed_after(side, line, passed, cell);
        place += 1;
    }
    Decision {
        line: None,
        value: otherwise,
    }
}

/// Decides a cell by rules: returns the line that decides it, and its value. Its time grows with the length of the rules, and it allocates
/// nothing.
pub fn decide(rules: &Rules, cell: &Cell) -> Decision
    ensures { result ≡ decision_of rules.now cell.now }
{
    decided(rules.side, &rules.lines, rules.otherwise, cell)
}

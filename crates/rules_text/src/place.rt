//! Places in a text, and where lines of rules begin.

ghost use Rattle.std.specs.Prelude.{◌≡◌, ◌+◌, ◌≤◌, ◌<◌, ◌^◌, length};
ghost use Rattle.rules_text.specs.ContinuedLines.{first_token_place, place_next, place_past, rule_place};
ghost use Rattle.rules_text.specs.TextOfRules.{fault_of_line};

use crate::fault::RuleFault;

/// Where a line of rules begins, as it is printed: the number of its source line, and a column if the line doesn't begin that source line.
#[derive(Clone, Copy)]
pub struct RulePlace {
    /// The number of the source line, counted from 1.
    pub line: usize,
    /// The column of the first token, counted from 1; none if the source line begins with this line of rules.
    pub column: Option<usize>,
}

/// A place in a text, both numbers counted from 1.
#[derive(Clone, Copy)]
pub struct TextPlace {
    /// The number of the source line.
    pub line: usize,
    /// The column.
    pub column: usize,
}

impl TextPlace {
    /// The place after an octet at this place.
    fn next(self, octet: u8) -> TextPlace
        requires line { self.line + 1 < 2 ^ 64 }
        requires column { self.column + 1 < 2 ^ 64 }
        ensures seen { result ≡ place_next self octet }
        ensures line { result.line ≤ self.line + 1 }
        ensures column { result.column ≤ self.column + 1 }
    {
        if octet == b'\n' {
            TextPlace {
                line: self.line + 1,
                column: 1,
            }
        } else {
            TextPlace {
                line: self.line,
                column: self.column + 1,
            }
        }
    }

    /// The place of the first token of a line of rules that begins at this place. The token is at `column` of the line, counted from 1.
    pub(crate) fn of_first_token(self, column: usize) -> TextPlace
        requires some { 0 < column }
        requires within { self.column + column < 2 ^ 64 }
        ensures { result ≡ first_token_place self column }
    {
        TextPlace {
            line: self.line,
            column: self.column + (column - 1),
        }
    }

    /// Where a line of rules begins, as it is printed. It begins at this place, and its first token is at `column` of it, counted from 1.
    pub(crate) fn of_rule(self, column: usize) -> RulePlace
        requires some { 0 < column }
        requires within { self.column + column < 2 ^ 64 }
        ensures { result ≡ rule_place self column }
    {
        let first = self.of_first_token(column);
        RulePlace {
            line: self.line,
            column: if self.column == 1 {
                None
            } else {
                Some(first.column)
            },
        }
    }
}

/// Returns the place after the last of these octets. The first is at `begin`.
#[tactic(auto, unfolding(crate::specs::ContinuedLines::place_past))]
pub fn place_after(begin: TextPlace, octets: &[u8]) -> TextPlace
    requires line { begin.line + length octets.now < 2 ^ 64 }
    requires column { begin.column + length octets.now < 2 ^ 64 }
    ensures seen { result ≡ place_past begin octets.now }
    ensures line { result.line ≤ begin.line + length octets.now }
    ensures column { result.column ≤ begin.column + length octets.now }
{
    let mut place = begin;
    let mut left = octets;
    while let [octet, rest @ ..] = left {
        place = place.next(*octet);
        left = rest;
    }
    place
}

/// Gives a fault of a line of rules its place in the text. The line begins at `begin`, and the fault has a column of it. A fault with
/// column 0 has no place, and stays as it is.
pub(crate) fn fault_of_line(begin: TextPlace, line: &[u8], fault: RuleFault) -> RuleFault
    requires line { begin.line + length line.now < 2 ^ 64 }
    requires column { begin.column + length line.now < 2 ^ 64 }
    ensures { result ≡ fault_of_line begin line.now fault }
{
    if fault.column == 0 {
        return fault;
    }
    let before = line.len().min(fault.column - 1);
    let place = place_after(begin, &line[..before]);
    RuleFault {
        line: place.line,
        column: place.column,
        kind: fault.kind,
    }
}

//! What is wrong with a token of a line of rules.

ghost use Rattle.std.specs.Prelude.{◌≡◌, ◌++◌, true, false, OnOk};
ghost use Rattle.cmd_explain_rules.specs.Reasons.{compared_at, expected, greatest, joining_reason, listing_reason, number_reason, offsets, range_words, reason, start_reason, too_large_words, unit_reason};

use crate::spots::{Place, Spot};
use crate::token_parts::{Part, Subject};
use bpf_code::Size;
use std::alloc::AllocError;
use text_words::add_text;

impl Place {
    /// Returns what may come at a place, in words. `defines` says whether the line begins with `define`.
    pub(crate) fn expected(self, defines: bool) -> &'static [u8]
        ensures { result.now ≡ expected defines self }
    {
        if defines {
            self.expected_in_definition()
        } else {
            self.expected_in_rule()
        }
    }

    /// Returns what may come at a place of a line that begins with `define`, in words.
    fn expected_in_definition(self) -> &'static [u8]
        ensures { result.now ≡ expected true self }
    {
        match self {
            Place::Operator => b"`and`, `or` or the end of the line comes next",
            Place::Dots => {
                b"`..`, `,` or the end of the line comes next, and in a test also `and` or `or`"
            }
            Place::Comma => {
                b"`,` or the end of the line comes next, and in a test also `and` or `or`"
            }
            _ => self.expected_in_rule(),
        }
    }

    /// Returns what may come at a place of any other line, in words.
    fn expected_in_rule(self) -> &'static [u8]
        ensures { result.now ≡ expected false self }
    {
        match self {
            Place::Start => {
                b"a line begins with a test, `}`, `otherwise`, `side`, `contract` or `define`"
            }
            Place::Unit => b"a test comes here, as `vpi 1`, `1/32`, `oam` or a name",
            Place::Operator => b"`and`, `or`, `->` or `{` comes next",
            Place::Offset => b"the offset of the octets comes next, a number",
            Place::Relation => {
                b"a number, a list, a sign or `&` comes after a field, as in `vci 5, 32..127`"
            }
            Place::Mask => b"a mask comes after `&`, a number",
            Place::Sign => {
                b"a number, a list or a sign comes after a mask, as in `& 0xf0 = 0x30`"
            }
            Place::Constant => b"a number comes after this sign",
            Place::Dots => b"`..`, `,`, `and`, `or`, `->` or `{` comes next",
            Place::High => b"the last number of a range comes after `..`",
            Place::Comma => b"`,`, `and`, `or`, `->` or `{` comes next",
            Place::Low => b"a number of a list comes next",
            Place::Slash => {
                b"a number that begins a test is a path, and `/` comes after it, as in `1/32`"
            }
            Place::Channel => {
                b"the channels of the path come after `/`: a list, or `*` for all of them"
            }
            Place::Arrow => b"`->` comes after `otherwise`",
            Place::Value => b"a value comes next: a number, the name of a contract, or `refuse`",
            Place::Side => b"`uni` or `nni` comes after `side`",
            Place::End => b"nothing more comes in this line",
            Place::NewName => b"a new name comes next, which begins with a letter or `_`",
            Place::Equal => b"`=` comes after a new name",
            Place::Body => b"a test or a list of numbers comes after `=`",
        }
    }

    /// Returns what is said of the last number of a range.
    fn range_words(self) -> &'static [u8]
        ensures { result.now ≡ range_words self }
    {
        match self {
            Place::High => b"the last number of a range is at least its first, and ",
            _ => b"",
        }
    }
}

impl Part {
    /// Returns why a token begins no unit of a test.
    fn unit_reason(self) -> &'static [u8]
        ensures { result.now ≡ unit_reason self }
    {
        match self {
            Part::Field(Subject::Gfc) => b"between nodes (`side nni`) the header has no gfc",
            _ => Place::Unit.expected(false),
        }
    }

    /// Returns why a token begins no line.
    fn start_reason(self) -> &'static [u8]
        ensures { result.now ≡ start_reason self }
    {
        match self {
            Part::Contract | Part::Define => b"names are given before the first rule or block",
            Part::Otherwise => b"`otherwise` comes outside of blocks, and a `}` ends a block",
            Part::Side => b"`side` comes in the first line that has words",
            Part::Field(Subject::Gfc) => self.unit_reason(),
            _ => Place::Start.expected(false),
        }
    }

    /// Returns why a token isn't in a list, or `other`.
    fn listing_reason(self, other: &'static [u8]) -> &'static [u8]
        ensures { result.now ≡ listing_reason self other.now }
    {
        match self {
            Part::LeftBrace => b"a list has no braces, as in `vci 1, 2`",
            _ => other,
        }
    }

    /// Returns what is said of a token whose number is too large.
    pub(crate) fn too_large_words(self) -> &'static [u8]
        ensures { result.now ≡ too_large_words self }
    {
        match self {
            Part::Name => b" means a number that doesn't fit here; ",
            _ => b" doesn't fit here; ",
        }
    }
}

/// Returns why a token doesn't come after a unit of a test or a number of a list, or `other`.
fn joining_reason(octets: &[u8], other: &'static [u8]) -> &'static [u8]
    ensures { result.now ≡ joining_reason octets.now other.now }
{
    if octets == b"-".as_slice() {
        return b"a range is written with `..`, as in `32..127`";
    }
    if octets == b"&".as_slice() {
        return b"tests are joined by `and` or `&&`; a mask comes right after a field";
    }
    if octets == b"|".as_slice() {
        return b"tests are joined by `or` or `||`";
    }
    other
}

/// Returns why a token doesn't come at a place.
pub(crate) fn reason(defines: bool, place: Place, part: Part, octets: &[u8]) -> &'static [u8]
    ensures { result.now ≡ reason defines place part octets.now }
{
    let other = place.expected(defines);
    match place {
        Place::Start => part.start_reason(),
        Place::Unit => part.unit_reason(),
        Place::Operator => joining_reason(octets, other),
        Place::Dots => joining_reason(octets, other),
        Place::Comma => joining_reason(octets, other),
        Place::Relation => part.listing_reason(other),
        Place::Sign => part.listing_reason(other),
        Place::Low => part.listing_reason(other),
        Place::Channel => part.listing_reason(other),
        Place::Body => part.listing_reason(other),
        _ => other,
    }
}

impl Subject {
    /// Returns the greatest number that may come after a field, in words.
    fn greatest(self) -> &'static [u8]
        ensures { result.now ≡ greatest self }
    {
        match self {
            Subject::Gfc => b"gfc is at most 15",
            Subject::Vpi => b"vpi is at most 255, and between nodes (`side nni`) at most 4095",
            Subject::Vci => b"vci is at most 65535",
            Subject::Pti => b"pti is at most 7",
            Subject::Clp => b"clp is at most 1",
            Subject::Octets(Size::Octet) => b"one octet is at most 255",
            Subject::Octets(Size::Half) => b"two octets are at most 65535",
            Subject::Octets(Size::Word) => b"four octets are at most 4294967295",
        }
    }

    /// Returns which offsets may come after `octet`, `half` or `word`, in words.
    pub(crate) fn offsets(self) -> &'static [u8]
        ensures { result.now ≡ offsets self }
    {
        match self {
            Subject::Octets(Size::Octet) => b"`octet` takes an offset of 0 to 51",
            Subject::Octets(Size::Half) => b"`half` takes an offset of 0 to 50",
            Subject::Octets(Size::Word) => b"`word` takes an offset of 0 to 48",
            _ => b"an offset is at most 51",
        }
    }
}

/// Returns what numbers at a place are compared with.
fn compared_at(spot: Spot) -> Subject
    ensures { result ≡ compared_at spot spot.place }
{
    match spot.place {
        Place::Body => Subject::Vpi,
        _ => spot.subject,
    }
}

/// Appends the rule that a number at a place breaks.
#[tactic(auto, using(std::proofs::lemmas::List::append_assoc))]
pub(crate) fn add_number_reason(answers: &mut Vec<u8>, spot: Spot) -> Result<(), AllocError>
    ensures { OnOk result (answers.new.items ≡ answers.old.items ++ number_reason spot) }
{
    add_text(answers, spot.place.range_words())?;
    add_text(answers, compared_at(spot).greatest())
}

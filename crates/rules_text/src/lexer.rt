//! The tokens of a line.

ghost use Rattle.std.specs.Prelude.{◌≡◌, ◌+◌, ◌≤◌, ◌<◌, ◌∷◌, ◌==◌, [], false, not, length, slice_index, take, drop, map, MatchOption, IfSome};
ghost use Rattle.bpf_asm.specs.Tokens.{is_word};
ghost use Rattle.text_io.specs.Words.{is_blank, is_digit};
ghost use Rattle.rules_text.specs.LineGrammar.{lacks_room, may_be_name};
ghost use Rattle.rules_text.specs.TextOfRules.{starts_word};
ghost use Rattle.rules_text.specs.RuleTokens.{begins_with_feed, first_cut, letters_len, long_marks, longest_mark, row_token, rule_words, separates, short_marks, token_of_letters, tokens_from};
ghost use Rattle.rules_text.specs.SeenTokens.{found_seen, rule_token_seen};
ghost use Rattle.rules_text.specs.inner.SeenCuts.{cut_seen, some_token};
ghost use Rattle.rules_text.specs.inner.SeenLines.{skipped};

use crate::class::Class;
use bpf_asm::number;
use bpf_code::Size;
use rules_cells::Field;

/// How a number is related to a constant.
#[derive(Clone, Copy)]
pub enum Sign {
    /// `=`
    Equal,
    /// `!=`
    Unequal,
    /// `<`
    Less,
    /// `<=`
    AtMost,
    /// `>`
    Greater,
    /// `>=`
    AtLeast,
}

/// A token.
#[derive(Clone, Copy)]
pub enum Token {
    /// A word that is a test.
    Test(Class),
    Not,
    And,
    Or,
    Otherwise,
    Refuse,
    Side,
    Uni,
    Nni,
    Define,
    Contract,
    /// Any other word, which may be a name.
    Name,
    /// The number of a contract, read in place of the contract's name. No text spells this token.
    Value(u32),
    /// Read in place of a name whose tokens are more than names may still add. No text spells this token.
    NoRoom,
    /// The name of a field of the header.
    Field(Field),
    /// `octet`, `half` or `word`.
    Octets(Size),
    /// A number of at most 4294967295.
    Number(u32),
    /// A word that begins with a digit and is no such number.
    BadNumber,
    /// `->`
    Arrow,
    /// `{`
    LeftBrace,
    /// `}`
    RightBrace,
    /// `(`
    LeftParenthesis,
    /// `)`
    RightParenthesis,
    /// `&`
    Mask,
    /// `,`
    Comma,
    /// `..`
    Dots,
    /// `/`
    Slash,
    /// `*`
    Star,
    /// A sign that compares: `=`, `==`, `!=`, `<`, `<=`, `>` or `>=`.
    Sign(Sign),
    /// Anything else.
    Unknown,
}

impl Token {
    /// Whether this is a word that may be a name.
    pub(crate) fn is_name(self) -> bool
        ensures { result ≡ may_be_name (rule_token_seen self) }
    {
        matches!(self, Token::Name)
    }

    /// Whether this was read in place of a name whose tokens are more than names may still add.
    pub(crate) fn lacks_room(self) -> bool
        ensures { result ≡ lacks_room (rule_token_seen self) }
    {
        matches!(self, Token::NoRoom)
    }
}

/// A token in its line.
#[derive(Clone, Copy)]
pub struct Found {
    /// The token.
    pub token: Token,
    /// The column of its first octet, counted from 0.
    pub start: usize,
    /// The column after it.
    pub end: usize,
}

/// A token, and how many octets it has.
#[derive(Clone, Copy)]
struct Cut {
    token: Token,
    size: usize,
}

/// The words of the language (`rule_words`), each with its token.
pub const WORDS: [(&[u8], Token); 40] = [
    (b"any", Token::Test(Class::Any)),
    (b"user", Token::Test(Class::User)),
    (b"oam", Token::Test(Class::Oam)),
    (b"oamf4", Token::Test(Class::F4)),
    (b"oamf4s", Token::Test(Class::F4Segment)),
    (b"oamf4e", Token::Test(Class::F4End)),
    (b"oamf5", Token::Test(Class::F5)),
    (b"oamf5s", Token::Test(Class::F5Segment)),
    (b"oamf5e", Token::Test(Class::F5End)),
    (b"rm", Token::Test(Class::Rm)),
    (b"metasig", Token::Test(Class::MetaSignalling)),
    (b"bcast", Token::Test(Class::Broadcast)),
    (b"signal", Token::Test(Class::Signalling)),
    (b"ilmi", Token::Test(Class::Ilmi)),
    (b"idle", Token::Test(Class::Idle)),
    (b"oamf4sc", Token::Test(Class::F4Segment)),
    (b"oamf4ec", Token::Test(Class::F4End)),
    (b"metac", Token::Test(Class::MetaSignalling)),
    (b"bcc", Token::Test(Class::Broadcast)),
    (b"sc", Token::Test(Class::Signalling)),
    (b"ilmic", Token::Test(Class::Ilmi)),
    (b"not", Token::Not),
    (b"and", Token::And),
    (b"or", Token::Or),
    (b"otherwise", Token::Otherwise),
    (b"refuse", Token::Refuse),
    (b"drop", Token::Refuse),
    (b"side", Token::Side),
    (b"uni", Token::Uni),
    (b"nni", Token::Nni),
    (b"define", Token::Define),
    (b"contract", Token::Contract),
    (b"gfc", Token::Field(Field::Gfc)),
    (b"vpi", Token::Field(Field::Vpi)),
    (b"vci", Token::Field(Field::Vci)),
    (b"pti", Token::Field(Field::Pti)),
    (b"clp", Token::Field(Field::Clp)),
    (b"octet", Token::Octets(Size::Octet)),
    (b"half", Token::Octets(Size::Half)),
    (b"word", Token::Octets(Size::Word)),
];

/// The marks of two octets.
const LONG_MARKS: [(&[u8], Token); 8] = [
    (b"->", Token::Arrow),
    (b"..", Token::Dots),
    (b"&&", Token::And),
    (b"||", Token::Or),
    (b"==", Token::Sign(Sign::Equal)),
    (b"!=", Token::Sign(Sign::Unequal)),
    (b"<=", Token::Sign(Sign::AtMost)),
    (b">=", Token::Sign(Sign::AtLeast)),
];

/// The marks of one octet.
const SHORT_MARKS: [(&[u8], Token); 12] = [
    (b"{", Token::LeftBrace),
    (b"}", Token::RightBrace),
    (b"(", Token::LeftParenthesis),
    (b")", Token::RightParenthesis),
    (b"&", Token::Mask),
    (b",", Token::Comma),
    (b"/", Token::Slash),
    (b"*", Token::Star),
    (b"!", Token::Not),
    (b"=", Token::Sign(Sign::Equal)),
    (b"<", Token::Sign(Sign::Less)),
    (b">", Token::Sign(Sign::Greater)),
];

/// The token that a table has for these octets, if it has one.
fn found_in(octets: &[u8], rows: &[(&[u8], Token)]) -> Option<Token>
    ensures { some_token result ≡ row_token octets.now (map (λ row. (row.0.now, rule_token_seen row.1)) rows.now) }
{
    let mut left = rows;
    while let [row, rest @ ..] = left {
        if octets == row.0 {
            return Some(row.1);
        }
        left = rest;
    }
    None
}

/// The token of these octets, if they are a word of the language.
fn known_word(octets: &[u8]) -> Option<Token>
    ensures { some_token result ≡ row_token octets.now rule_words }
{
    found_in(octets, &WORDS)
}

/// The token of these octets, if they are a mark of two octets.
fn long_mark(octets: &[u8]) -> Option<Token>
    ensures { some_token result ≡ row_token octets.now long_marks }
{
    found_in(octets, &LONG_MARKS)
}

/// The token of these octets, if they are a mark of one octet.
fn short_mark(octets: &[u8]) -> Option<Token>
    ensures { some_token result ≡ row_token octets.now short_marks }
{
    found_in(octets, &SHORT_MARKS)
}

/// Whether an octet is a space or a tab.
fn blank(octet: u8) -> bool
    ensures { result ≡ is_blank octet }
{
    octet == b' ' || octet == b'\t'
}

/// Whether octets begin with a line feed.
fn begins_with_feed(octets: &[u8]) -> bool
    ensures { result ≡ begins_with_feed octets.now }
{
    matches!(octets, [b'\n', ..])
}

/// Whether the octet at index `at` separates tokens: a space, a tab, a line feed, a carriage return before one, or `;`.
fn separates(line: &[u8], at: usize) -> bool
    requires { at < length line.now }
    ensures { result ≡ separates (slice_index line.now at) (drop (at + 1) line.now) }
{
    let octet = line[at];
    blank(octet)
        || (octet == b'\n'
            || (octet == b';' || (octet == b'\r' && begins_with_feed(&line[at + 1..]))))
}

/// Whether an octet begins a comment: `#`.
fn begins_comment(octet: u8) -> bool
    ensures { result ≡ (octet == 35) }
{
    octet == b'#'
}

/// Whether a source line goes on after an octet.
fn goes_on(octet: u8) -> bool
    ensures { result ≡ not (octet == 10) }
{
    octet != b'\n'
}

/// Passes over the octet at index `at`, if it belongs to no token: returns whether the octet after it is in a comment. None if a token
/// begins at `at`. `comment` says whether the octet at `at` is in a comment.
fn passed(line: &[u8], at: usize, comment: bool) -> Option<bool>
    requires { at < length line.now }
    ensures { MatchOption result ((comment ≡ false) × (separates (slice_index line.now at) (drop (at + 1) line.now) ≡ false) × ((slice_index line.now at == 35) ≡ false))
        (λ next. tokens_from (at + 1) (skipped comment (drop at line.now)) (drop at line.now) ≡ tokens_from (at + 1 + 1) (skipped next (drop (at + 1) line.now)) (drop (at + 1) line.now)) }
{
    if comment {
        return Some(goes_on(line[at]));
    }
    if separates(line, at) {
        return Some(false);
    }
    if begins_comment(line[at]) {
        return Some(true);
    }
    None
}

/// Returns whether an octet is an ASCII digit.
pub fn digit(octet: u8) -> bool
    ensures { result ≡ is_digit octet }
{
    b'0' <= octet && octet <= b'9'
}

/// Returns whether an octet belongs to words: an ASCII letter, a digit or `_`.
pub fn word_octet(octet: u8) -> bool
    ensures { result ≡ is_word octet }
{
    digit(octet)
        || (b'A' <= octet && octet <= b'Z')
        || (b'a' <= octet && octet <= b'z')
        || octet == b'_'
}

/// Whether a word begins with an octet.
pub(crate) fn begins_word(octet: u8) -> bool
    ensures { result ≡ starts_word octet }
{
    word_octet(octet) && !digit(octet)
}

/// The index of the first octet from `from` on that belongs to a token, or the length of the line. Spaces, tabs, line ends, `;` and
/// comments are passed over.
fn after_blanks(line: &[u8], from: usize) -> usize
    requires { from ≤ length line.now }
    ensures least { from ≤ result }
    ensures most { result ≤ length line.now }
    ensures tokens { tokens_from (from + 1) 0 (drop from line.now) ≡ tokens_from (result + 1) 0 (drop result line.now) }
    ensures stops { result < length line.now → (separates (slice_index line.now result) (drop (result + 1) line.now) ≡ false) × ((slice_index line.now result == 35) ≡ false) }
{
    let mut comment = false;
    for at in from..line.len() {
        match passed(line, at, comment) {
            Some(next) => comment = next,
            None => return at,
        }
    }
    line.len()
}

/// How many octets of words a text begins with.
fn word_len(text: &[u8]) -> usize
    ensures within { result ≤ length text.now }
    ensures letters { result ≡ letters_len text.now }
{
    for (at, octet) in text.iter().enumerate() {
        if !word_octet(*octet) {
            return at;
        }
    }
    text.len()
}

/// The token of a word.
#[tactic(auto, unfolding(crate::specs::RuleTokens::token_of_letters))]
fn word_token(word: &[u8]) -> Token
    requires { 0 < length word.now }
    ensures { rule_token_seen result ≡ token_of_letters word.now }
{
    if digit(word[0]) {
        match number(word) {
            Some(value) => Token::Number(value),
            None => Token::BadNumber,
        }
    } else {
        match known_word(word) {
            Some(token) => token,
            None => Token::Name,
        }
    }
}

/// The longest mark that octets begin with, or one octet as `Unknown` if they begin with none.
fn mark(octets: &[u8]) -> Cut
    requires { 0 < length octets.now }
    ensures seen { cut_seen result ≡ longest_mark (row_token (take 2 octets.now) long_marks) (row_token (take 1 octets.now) short_marks) }
    ensures some { 0 < result.size }
    ensures within { result.size ≤ length octets.now }
{
    let two = octets.len().min(2);
    if let Some(token) = long_mark(&octets[..two]) {
        return Cut { token, size: two };
    }
    match short_mark(&octets[..1]) {
        Some(token) => Cut { token, size: 1 },
        None => Cut {
            token: Token::Unknown,
            size: 1,
        },
    }
}

/// The token that octets begin with. They begin neither with what separates tokens nor with a comment.
#[tactic(auto, unfolding(crate::specs::RuleTokens::first_cut))]
fn first_token(octets: &[u8]) -> Cut
    requires { 0 < length octets.now }
    ensures seen { cut_seen result ≡ first_cut octets.now }
    ensures some { 0 < result.size }
    ensures within { result.size ≤ length octets.now }
{
    if !word_octet(octets[0]) {
        return mark(octets);
    }
    let size = word_len(octets);
    Cut {
        token: word_token(&octets[..size]),
        size,
    }
}

/// Returns the first token of a line of rules from column `from` on, counted from 0. None if no token follows.
pub fn next_token(line: &[u8], from: usize) -> Option<Found>
    requires { from ≤ length line.now }
    ensures tokens { MatchOption result (tokens_from (from + 1) 0 (drop from line.now) ≡ [])
        (λ found. tokens_from (from + 1) 0 (drop from line.now) ≡ found_seen found ∷ tokens_from (found.end + 1) 0 (drop found.end line.now)) }
    ensures places { IfSome result (λ found. (found.start < found.end) × (from < found.end) × (found.end ≤ length line.now)) }
{
    let start = after_blanks(line, from);
    if start == line.len() {
        return None;
    }
    let first = first_token(&line[start..]);
    Some(Found {
        token: first.token,
        start,
        end: start + first.size,
    })
}

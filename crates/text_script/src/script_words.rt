//! The words of a script: numbers, names of programs and of connections, rates and contracts.

ghost use Rattle.std.specs.Prelude.{◌≡◌, ◌<◌, ◌≤◌, length, option_map};
ghost use Rattle.text_script.specs.declared.script_words.Rate.{Rate as TheRate};
ghost use Rattle.text_script.specs.declared.script_words.Wanted.{Wanted as TheWanted};
ghost use Rattle.text_script.specs.ScriptWords.{channel_named, cut_at, number_of_digits, number_up_to, program_of, rate_of, two_rates, vc_named, wanted_of};
ghost use Rattle.text_script.specs.inner.Digits.{with_digit};

use memchr::memchr;
use upc_cell::{Side, Vc};

/// A rate as a script requests it. Its numbers may be outside the limits of a rate.
#[derive(Clone, Copy)]
pub struct Rate {
    /// The time between two cells, in ticks.
    pub increment: u64,
    /// How much too early a cell may arrive, in ticks.
    pub limit: u64,
}

/// A contract as a script requests it. Of two rates the first is that of the peak.
#[derive(Clone, Copy)]
pub enum Wanted {
    Cbr1(Rate),
    Vbr1(Rate, Rate),
    Vbr2(Rate, Rate),
    Vbr3(Rate, Rate),
}

/// CBR.1 with increment 0 and limit 0, which is never valid. It fills the places of a list that have no contract yet.
impl Default for Wanted {
    ghost use Rattle.text_script.specs.ScriptWords.{IsBlankContract};

    ghost is_default = { IsBlankContract };

    fn default() -> Wanted {
        Wanted::Cbr1(Rate {
            increment: 0,
            limit: 0,
        })
    }
}

/// The greatest value to which any digit can be appended: with 9 it becomes 2^64 - 7.
const MOST_BEFORE: u64 = 1844674407370955160;

/// Returns the value with one more digit appended. None if the octet isn't a digit or the new value is above 2^64 - 1.
/// A value up to `MOST_BEFORE` needs no overflow test.
#[inline(always)]
fn shifted(value: u64, octet: u8) -> Option<u64>
    ensures { result ≡ with_digit value octet }
{
    if octet < b'0' || octet > b'9' {
        return None;
    }
    let digit = u64::from(octet - b'0');
    if value <= MOST_BEFORE {
        return Some(10 * value + digit);
    }
    match value.checked_mul(10) {
        Some(tens) => tens.checked_add(digit),
        None => None,
    }
}

/// A number of at most this many digits is at most 2^64 - 1.
const FEW_DIGITS: usize = 19;

/// Returns the value with one more digit appended. None if the octet isn't a digit. The value is at most `MOST_BEFORE`, so nothing
/// overflows.
#[inline(always)]
fn appended(value: u64, octet: u8) -> Option<u64>
    requires { value ≤ MOST_BEFORE }
    ensures { result ≡ with_digit value octet }
{
    let digit = u64::from(octet).wrapping_sub(u64::from(b'0'));
    if digit > 9 {
        return None;
    }
    Some(10 * value + digit)
}

/// Returns the number of a word of few digits, without overflow tests.
#[inline(always)]
fn short_number(word: &[u8]) -> Option<u64>
    requires some { 0 < length word.now }
    requires few { length word.now ≤ FEW_DIGITS }
    ensures { result ≡ number_of_digits word.now }
{
    let mut value = 0u64;
    let mut rest = word;
    while let [octet, after @ ..] = rest {
        let Some(next) = appended(value, *octet) else {
            return None;
        };
        value = next;
        rest = after;
    }
    Some(value)
}

/// Returns the number of a word of many digits, if it is at most 2^64 - 1.
#[inline(never)]
fn long_number(word: &[u8]) -> Option<u64>
    requires { 0 < length word.now }
    ensures { result ≡ number_of_digits word.now }
{
    let mut value = 0u64;
    let mut rest = word;
    while let [octet, after @ ..] = rest {
        let Some(next) = shifted(value, *octet) else {
            return None;
        };
        value = next;
        rest = after;
    }
    Some(value)
}

/// Returns the number that a word spells, if it is at most 2^64 - 1.
#[inline(always)]
pub fn number(word: &[u8]) -> Option<u64>
    ensures { result ≡ number_of_digits word.now }
{
    if word.is_empty() {
        None
    } else if word.len() <= FEW_DIGITS {
        short_number(word)
    } else {
        long_number(word)
    }
}

/// Returns the number of a word, if it is at most `most`.
fn number_at_most(most: u16, word: &[u8]) -> Option<u16>
    ensures { result ≡ number_up_to most word.now }
{
    match number(word) {
        Some(number) if number <= u64::from(most) => Some(number as u16),
        _ => None,
    }
}

/// Returns the number in a program's name, 1 for `p1`. None if the word isn't such a name.
pub fn program(word: &[u8]) -> Option<u64>
    ensures { result ≡ program_of word.now }
{
    match word {
        [b'p', digits @ ..] => number(digits),
        _ => None,
    }
}

/// Returns the channel of a word on a card of this side: a number, or 0 for `*` where connections are virtual paths.
pub fn channel_of(side: Side, word: &[u8]) -> Option<u16>
    ensures { result ≡ channel_named side word.now }
{
    if !side.has_paths() {
        return number_at_most(u16::MAX, word);
    }
    if word == b"*".as_slice() {
        Some(0)
    } else {
        None
    }
}

/// Returns the virtual connection of two words on a card of this side.
pub fn connection(side: Side, path: &[u8], channel: &[u8]) -> Option<Vc>
    ensures { result ≡ vc_named side path.now channel.now }
{
    let Some(vpi) = number_at_most(side.last_vpi(), path) else {
        return None;
    };
    let Some(vci) = channel_of(side, channel) else {
        return None;
    };
    // A path above the last one of the side is refused where it is read, so there is no error here.
    match Vc::new_at(side, vpi, vci) {
        Ok(vc) => Some(vc),
        Err(_) => None,
    }
}

/// Returns the text before the first `mark` and that after it. None if there is no `mark`.
fn split_at_mark(mark: u8, text: &[u8]) -> Option<(&[u8], &[u8])>
    ensures { option_map (λ parts. (parts.0.now, parts.1.now)) result ≡ cut_at mark text.now }
{
    match memchr(mark, text) {
        Some(place) => Some((&text[..place], &text[place + 1..])),
        None => None,
    }
}

/// Returns the rate of a word `INCREMENT/LIMIT`, both in ticks. None if the word has another form.
fn one_rate(word: &[u8]) -> Option<Rate>
    ensures { result ≡ rate_of word.now }
{
    let (increment, limit) = split_at_mark(b'/', word)?;
    Some(Rate {
        increment: number(increment)?,
        limit: number(limit)?,
    })
}

/// Returns the rates of a word `PEAK:SUSTAINED`. None if the word has another form.
fn both_rates(word: &[u8]) -> Option<(Rate, Rate)>
    ensures { (join : TheRate → TheRate → TheWanted) → option_map (λ both. join both.0 both.1) result ≡ two_rates join word.now }
{
    let (peak, sustained) = split_at_mark(b':', word)?;
    Some((one_rate(peak)?, one_rate(sustained)?))
}

/// Returns the contract of a word, such as `cbr1:10/5` or `vbr1:10/5:20/100`. None if the word has another form.
pub fn wanted_contract(word: &[u8]) -> Option<Wanted>
    ensures { result ≡ wanted_of word.now }
{
    let (kind, after) = split_at_mark(b':', word)?;
    if kind == b"cbr1".as_slice() {
        return Some(Wanted::Cbr1(one_rate(after)?));
    }
    if kind == b"vbr1".as_slice() {
        let (peak, sustained) = both_rates(after)?;
        return Some(Wanted::Vbr1(peak, sustained));
    }
    if kind == b"vbr2".as_slice() {
        let (peak, sustained) = both_rates(after)?;
        return Some(Wanted::Vbr2(peak, sustained));
    }
    if kind == b"vbr3".as_slice() {
        let (peak, sustained) = both_rates(after)?;
        return Some(Wanted::Vbr3(peak, sustained));
    }
    None
}

//! The words of a contract.

ghost use Rattle.std.specs.Prelude.{◌≡◌, ◌-◌, ◌^◌, ◌≤◌, ◌∷◌, length, IfOk, IfErr, Ok, Err, option_map};
ghost use Rattle.text_script.specs.ScriptWords.{cut_at, number_of_digits};
ghost use Rattle.text_io.specs.Words.{words_of};
ghost use Rattle.cmd_size.specs.SizeWords.{cbr_of, cell_rate_of, duration_of, ended_with, figures_of, if_none_left, in_smaller, millions_of, millionths_of, named_value, named_word, vbr_of};

use crate::fault::SizeFault;
use crate::figures::{CellRate, Figures, Sustained, VbrKind};
use memchr::memchr;
use text_io::first_word;
use text_script::number;

/// Returns how many smaller units a number of units has, of which each has `scale`. None if the word is no number, or above 2^64 - 1.
fn in_units(digits: &[u8], scale: u64) -> Option<u64>
    ensures { result ≡ in_smaller scale digits.now }
{
    let count = number(digits)?;
    count.checked_mul(scale)
}

/// Returns the nanoseconds that a time spells: a number, and then ns, us, ms or s. None if the word is no time, or one of more than
/// 2^64 - 1 nanoseconds.
pub fn duration(word: &[u8]) -> Option<u64>
    ensures { result ≡ duration_of word.now }
{
    if let Some(digits) = word.strip_suffix(b"ns") {
        return in_units(digits, 1);
    }
    if let Some(digits) = word.strip_suffix(b"us") {
        return in_units(digits, 1000);
    }
    if let Some(digits) = word.strip_suffix(b"ms") {
        return in_units(digits, 1000000);
    }
    if let Some(digits) = word.strip_suffix(b"s") {
        return in_units(digits, 1000000000);
    }
    None
}

/// Returns the text before the first point and that after it. None if there is no point.
fn cut_at_point(text: &[u8]) -> Option<(&[u8], &[u8])>
    ensures { option_map (λ parts. (parts.0.now, parts.1.now)) result ≡ cut_at 46 text.now }
{
    match memchr(b'.', text) {
        Some(place) => Some((&text[..place], &text[place + 1..])),
        None => None,
    }
}

/// Returns what the last of so many decimals counts, in millionths.
fn millionths_of_last(decimals: usize) -> u64
    requires { decimals ≤ 6 }
    ensures { result ≡ 10 ^ (6 - decimals) }
{
    match decimals {
        0 => 1000000,
        1 => 100000,
        2 => 10000,
        3 => 1000,
        4 => 100,
        5 => 10,
        _ => 1,
    }
}

/// Returns the millionths of one to six decimals.
fn millionths(digits: &[u8]) -> Option<u64>
    ensures { result ≡ millionths_of digits.now }
{
    if digits.len() > 6 {
        return None;
    }
    in_units(digits, millionths_of_last(digits.len()))
}

/// Returns a number of millions, which may have up to six decimals.
fn millions(word: &[u8]) -> Option<u64>
    ensures { result ≡ millions_of word.now }
{
    let Some((whole, decimals)) = cut_at_point(word) else {
        return in_units(word, 1000000);
    };
    let whole = number(whole)?;
    let part = millionths(decimals)?;
    whole.checked_mul(1000000)?.checked_add(part)
}

/// Returns a rate of cells.
fn cell_rate(word: &[u8]) -> Option<CellRate>
    ensures { result ≡ cell_rate_of word.now }
{
    match word.strip_suffix(b"Mbit/s") {
        Some(digits) => Some(CellRate::Bits(millions(digits)?)),
        None => Some(CellRate::Cells(number(word)?)),
    }
}

/// Returns the word after this name, and the rest of the line.
fn word_after<'a>(name: &[u8], line: &'a [u8]) -> Result<(&'a [u8], &'a [u8]), SizeFault>
    ensures word { IfOk result (λ found. named_word name.now (words_of line.now) ≡ Ok (found.0.now, words_of found.1.now)) }
    ensures fault { IfErr result (λ fault. named_word name.now (words_of line.now) ≡ Err fault) }
{
    let Some((word, rest)) = first_word(line) else {
        return Err(SizeFault::BadLine);
    };
    let Some((value, rest)) = first_word(rest) else {
        return Err(SizeFault::BadLine);
    };
    if word == name {
        Ok((value, rest))
    } else {
        Err(SizeFault::BadLine)
    }
}

/// Returns the rate after this name, and the rest of the line.
fn rate_after<'a>(name: &[u8], line: &'a [u8]) -> Result<(CellRate, &'a [u8]), SizeFault>
    ensures rate { IfOk result (λ found. named_value cell_rate_of name.now (words_of line.now) ≡ Ok (found.0, words_of found.1.now)) }
    ensures fault { IfErr result (λ fault. named_value cell_rate_of name.now (words_of line.now) ≡ Err fault) }
{
    let (word, rest) = word_after(name, line)?;
    Ok((cell_rate(word).ok_or(SizeFault::BadNumber)?, rest))
}

/// Returns the time after this name, in nanoseconds, and the rest of the line.
fn time_after<'a>(name: &[u8], line: &'a [u8]) -> Result<(u64, &'a [u8]), SizeFault>
    ensures time { IfOk result (λ found. named_value duration_of name.now (words_of line.now) ≡ Ok (found.0, words_of found.1.now)) }
    ensures fault { IfErr result (λ fault. named_value duration_of name.now (words_of line.now) ≡ Err fault) }
{
    let (word, rest) = word_after(name, line)?;
    Ok((duration(word).ok_or(SizeFault::BadNumber)?, rest))
}

/// Reads `cdvt TIME tick TIME`, to the end of the line.
fn ending(pcr: CellRate, sustained: Option<Sustained>, line: &[u8]) -> Result<Figures, SizeFault>
    ensures { result ≡ ended_with pcr sustained (words_of line.now) }
{
    let (cdvt, rest) = time_after(b"cdvt", line)?;
    let (tick, rest) = time_after(b"tick", rest)?;
    match first_word(rest) {
        Some(_) => Err(SizeFault::BadLine),
        None => Ok(Figures {
            pcr,
            sustained,
            cdvt,
            tick,
        }),
    }
}

/// Reads `pcr RATE cdvt TIME tick TIME`.
fn cbr(line: &[u8]) -> Result<Figures, SizeFault>
    ensures { result ≡ cbr_of (words_of line.now) }
{
    let (pcr, rest) = rate_after(b"pcr", line)?;
    ending(pcr, None, rest)
}

/// Reads `pcr RATE scr RATE mbs NUMBER cdvt TIME tick TIME`.
fn vbr(kind: VbrKind, line: &[u8]) -> Result<Figures, SizeFault>
    ensures { result ≡ vbr_of kind (words_of line.now) }
{
    let (pcr, rest) = rate_after(b"pcr", line)?;
    let (scr, rest) = rate_after(b"scr", rest)?;
    let (word, rest) = word_after(b"mbs", rest)?;
    let mbs = number(word).ok_or(SizeFault::BadNumber)?;
    ending(pcr, Some(Sustained { kind, scr, mbs }), rest)
}

/// Returns the figures of a contract, from the first word of a line and the rest of it.
pub(crate) fn figures(name: &[u8], rest: &[u8]) -> Result<Figures, SizeFault>
    ensures { result ≡ figures_of (name.now ∷ words_of rest.now) }
{
    if name == b"cbr1".as_slice() {
        cbr(rest)
    } else if name == b"vbr1".as_slice() {
        vbr(VbrKind::Vbr1, rest)
    } else if name == b"vbr2".as_slice() {
        vbr(VbrKind::Vbr2, rest)
    } else if name == b"vbr3".as_slice() {
        vbr(VbrKind::Vbr3, rest)
    } else {
        Err(SizeFault::BadLine)
    }
}

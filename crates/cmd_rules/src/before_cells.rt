//! The text of rules that comes before the cells of an input.

ghost use Rattle.std.specs.Prelude.{◌≡◌, ◌≢◌, [], ◌∷◌, ◌++◌, ◌+◌, ◌-◌, ◌<◌, ◌≤◌, ◌⊎◌, true, false, drop, option_map, Err, IfOk, OnOk};
ghost use Rattle.text_io.specs.Failures.{read_failures};
ghost use Rattle.text_io.specs.Gathered.{gathered};
ghost use Rattle.cmd_rules.specs.RulesAnswers.{most_rules_octets};
ghost use Rattle.cmd_rules.specs.WhyText.{before_comment, is_cells_line, says_cells};
ghost use Rattle.cmd_rules.specs.inner.RulesTaken.{HasRulesBefore, IsUpTo, TakesOctet, TakesRules};

use crate::whole_text::MOST_RULES_OCTETS;
use std::alloc::{AllocError, Global};
use text_io::{Input, LineWords, RunFault, before_return, line_words};

/// The maximum number of octets of the line `cells`, as of the lines after it.
const MOST_LINE_OCTETS: usize = 70000;

/// The line before its comment, which begins at the first `#`.
fn before_comment(line: &[u8]) -> &[u8]
    ensures { result.now ≡ before_comment line.now }
{
    let mut at = 0;
    while at < line.len() {
        if line[at] == b'#' {
            return &line[..at];
        }
        at += 1;
    }
    line
}

/// Whether the content of a line says that cells follow.
fn says_cells(content: &[u8]) -> bool
    ensures { result ≡ says_cells content.now }
{
    match line_words(before_comment(content)) {
        LineWords::One(word) => word == b"cells".as_slice(),
        LineWords::Silent => false,
        LineWords::Several => false,
    }
}

/// Whether a line that a line feed ends says that cells follow.
fn is_ended_cells_line(line: &[u8]) -> bool
    ensures { result ≡ is_cells_line (record { octets = line.now; ended = true }) }
{
    line.len() <= MOST_LINE_OCTETS && says_cells(before_return(line))
}

/// Whether the last line of an input, which no line feed ends, says that cells follow.
fn is_last_cells_line(line: &[u8]) -> bool
    ensures { result ≡ is_cells_line (record { octets = line.now; ended = false }) }
{
    line.len() <= MOST_LINE_OCTETS && says_cells(line)
}

/// Reads the next octet, or nothing at the end of the input. It reads no more than one, since what comes after the line `cells` has to stay
/// in the input.
fn next_octet<I: Input>(input: &mut I) -> Result<Option<u8>, RunFault>
    ensures octet { I.is_known → IfOk result (λ found. TakesOctet found (I.rest input.old) (I.rest input.new)) }
    ensures reading { I.failures input.new ≡ read_failures result (I.failures input.old) }
    ensures fault { result ≢ Err RunFault.WriteFailed }
{
    let mut room = [0u8; 1];
    match input.take(&mut room) {
        Err(_) => Err(RunFault::ReadFailed),
        Ok(0) => Ok(None),
        Ok(_) => Ok(Some(room[0])),
    }
}

/// Whether a text is over the limit, whatever follows. Its last line begins at `start`. The lines before that are over the limit; or the
/// whole text is, and its last line is too long to be the line `cells`.
fn is_over(octets: usize, start: usize) -> bool
    ensures over { result ≡ true → (most_rules_octets < start) ⊎ ((most_rules_octets < octets) × (MOST_LINE_OCTETS < octets - start)) }
    ensures lines { result ≡ false → start ≤ most_rules_octets }
    ensures within { result ≡ false → octets ≤ most_rules_octets + MOST_LINE_OCTETS }
{
    start > MOST_RULES_OCTETS as usize
        || (octets > MOST_RULES_OCTETS as usize && octets.saturating_sub(start) > MOST_LINE_OCTETS)
}

/// The text of the rules of an input that was read to its end: all of it, but without its last line if that is the line `cells`. The last
/// line begins at `start`.
fn text_at_end(text: Vec<u8>, start: usize) -> Vec<u8>
    requires { IsUpTo text.items start }
    ensures { HasRulesBefore text.items result.items [] }
{
    let mut text = text;
    if is_last_cells_line(&text[start..]) {
        text.truncate(start);
        return text;
    }
    text
}

/// The text, if it is within the limit.
fn within_limit(text: Vec<u8>) -> Option<Vec<u8>>
    ensures { option_map (λ text. text.items) result ≡ gathered most_rules_octets text.items }
{
    if text.len() > MOST_RULES_OCTETS as usize {
        return None;
    }
    Some(text)
}

/// Appends an octet to a text whose last line begins at `start`. Returns where the last line begins then.
fn put_octet(text: &mut Vec<u8>, start: usize, octet: u8) -> Result<usize, AllocError>
    requires up_to { IsUpTo text.old.items start }
    requires rules { octet ≡ 10 → is_cells_line (record { octets = drop start text.old.items; ended = true }) ≡ false }
    ensures octets { OnOk result (text.new.items ≡ text.old.items ++ octet ∷ []) }
    ensures up_to { IfOk result (IsUpTo text.new.items) }
{
    text.push(octet)?;
    if octet == b'\n' {
        Ok(text.len())
    } else {
        Ok(start)
    }
}

/// Reads the text of rules: the lines before the line `cells`, or the whole input if it has no such line. The line `cells` is read too, and
/// nothing after it. Returns none once the text is over the limit.
///
/// # Errors
///
/// `ReadFailed` if the input failed, `NoMemory` if an allocation fails.
pub(crate) fn read_rules_before<I: Input>(
    alloc: Global,
    input: &mut I,
) -> Result<Option<Vec<u8>>, RunFault>
    ensures taken { I.is_known → IfOk result (λ found. TakesRules (option_map (λ text. text.items) found) (I.rest input.old) (I.rest input.new)) }
    ensures reading { I.failures input.new ≡ read_failures result (I.failures input.old) }
    ensures fault { result ≢ Err RunFault.WriteFailed }
{
    let mut text = Vec::new(alloc);
    let mut start = 0;
    while !is_over(text.len(), start) {
        match next_octet(input) {
            Err(fault) => return Err(fault),
            Ok(None) => return Ok(within_limit(text_at_end(text, start))),
            Ok(Some(octet)) => {
                if octet == b'\n' && is_ended_cells_line(&text[start..]) {
                    text.truncate(start);
                    return Ok(Some(text));
                }
                match put_octet(&mut text, start, octet) {
                    Ok(place) => start = place,
                    Err(_) => return Err(RunFault::NoMemory),
                }
            }
        }
    }
    Ok(None)
}

//! The explanation of a fault of a text of rules.

ghost use Rattle.std.specs.Prelude.{◌≡◌, ◌++◌, codes, OnOk};
ghost use Rattle.cmd_explain_script.specs.Places.{quoted};
ghost use Rattle.rules_text.specs.ContinuedLines.{rule_lines};
ghost use Rattle.cmd_explain_rules.specs.WordsFound.{words_found};
ghost use Rattle.cmd_explain_rules.specs.RuleReasons.{early_end_sentence, rule_misfit_sentence, rule_word_column, given_sentence, misfit_sentence, no_rule_number_sentence, blamed_octets, part_blamed, inside_words, outside_sentence, place_of_fault, placed_explanation, rule_explanation, rule_sentence, taken_sentence, too_large_sentence, too_long_sentence, unbalanced_sentence};

use crate::meant_words::add_unknown;
use crate::near_names::near_name;
use crate::reasons::{add_number_reason, reason};
use crate::rule_lines::{
    column_within, depth_before, depth_of, giving_line, line_holding, word_at,
};
use crate::rule_tokens::{RuleWord, rule_word_octets, words_found};
use crate::spots::{Place, Spot, spot_before};
use crate::token_parts::Part;
use cmd_explain_script::{add_place, add_quoted};
use rules_text::{RuleFault, RuleFaultKind, TextPlace};
use std::alloc::{AllocError, Global};
use text_words::{add_number, add_text};

/// Nothing, once the text was appended, or that an allocation failed.
type Added = Result<(), AllocError>;

/// Appends the sentence about a token that doesn't fit, for this reason.
#[tactic(auto, using(std::proofs::lemmas::List::append_assoc))]
fn add_misfit(answers: &mut Vec<u8>, octets: &[u8], why: &[u8]) -> Added
    ensures { OnOk result (answers.new.items ≡ answers.old.items ++ misfit_sentence octets.now why.now) }
{
    add_quoted(answers, octets)?;
    add_text(answers, b" doesn't fit here; ")?;
    add_text(answers, why)?;
    Ok(())
}

/// Appends the sentence about a line that ends too early.
#[tactic(auto, using(std::proofs::lemmas::List::append_assoc))]
fn add_early_end(answers: &mut Vec<u8>, spot: Spot) -> Added
    ensures { OnOk result (answers.new.items ≡ answers.old.items ++ early_end_sentence spot) }
{
    add_text(answers, b"the line ends too early; ")?;
    add_text(answers, spot.place.expected(spot.defines))
}

/// Appends the sentence about a token that doesn't fit, or about a line that ends too early.
fn add_bad_line(answers: &mut Vec<u8>, spot: Spot, octets: &[u8], part: Part) -> Added
    ensures { OnOk result (answers.new.items ≡ answers.old.items ++ rule_misfit_sentence spot octets.now part) }
{
    match octets {
        [] => add_early_end(answers, spot),
        [_, ..] => {
            let why = reason(spot.defines, spot.place, part, octets);
            add_misfit(answers, octets, why)
        }
    }
}

/// Appends the sentence about a word that is no number.
#[tactic(auto, using(std::proofs::lemmas::List::append_assoc))]
fn add_no_number(answers: &mut Vec<u8>, word: &[u8]) -> Added
    ensures { OnOk result (answers.new.items ≡ answers.old.items ++ no_rule_number_sentence word.now) }
{
    add_quoted(answers, word)?;
    add_text(
        answers,
        b" is no number; a number has decimal digits, or hexadecimal digits after 0x, and is at most 4294967295",
    )
}

/// Appends the sentence about a number that is too large.
#[tactic(auto, using(std::proofs::lemmas::List::append_assoc))]
fn add_too_large(answers: &mut Vec<u8>, spot: Spot, octets: &[u8], part: Part) -> Added
    ensures { OnOk result (answers.new.items ≡ answers.old.items ++ too_large_sentence spot octets.now part) }
{
    add_quoted(answers, octets)?;
    add_text(answers, part.too_large_words())?;
    add_number_reason(answers, spot)
}

/// Appends the sentence about octets that aren't all in a cell.
#[tactic(auto, using(std::proofs::lemmas::List::append_assoc))]
fn add_outside(answers: &mut Vec<u8>, spot: Spot) -> Added
    ensures { OnOk result (answers.new.items ≡ answers.old.items ++ outside_sentence spot) }
{
    add_text(answers, b"a cell has the octets 0 to 51; ")?;
    add_text(answers, spot.subject.offsets())
}

/// Returns the sentence about a parenthesis or a block without its other end. `depth` is how many parentheses are open where the test of
/// the line ends.
fn unbalanced_sentence(part: Part, depth: usize) -> &'static [u8]
    ensures { result.now ≡ unbalanced_sentence part depth }
{
    match part {
        Part::RightParenthesis => b"no `(` is open here",
        Part::RightBrace => b"no block is open here",
        _ => {
            if depth > 0 {
                b"this `(` isn't closed; its `)` comes before the test ends"
            } else {
                b"this block isn't closed; a `}` ends it"
            }
        }
    }
}

/// Returns the sentence about a line that is too long.
fn too_long_sentence(spot: Spot) -> &'static [u8]
    ensures { result.now ≡ too_long_sentence spot.place }
{
    match spot.place {
        Place::NewName => b"a name means at most 4096 tokens, and a text gives at most 4096 names",
        _ => {
            b"a test has at most 4096 comparisons and words, and names add at most 262144 tokens to a text"
        }
    }
}

/// Appends the sentence about a name that the source line of this number gives.
#[tactic(auto, using(std::proofs::lemmas::List::append_assoc))]
fn add_given(answers: &mut Vec<u8>, name: &[u8], number: usize) -> Added
    ensures { OnOk result (answers.new.items ≡ answers.old.items ++ given_sentence name.now number) }
{
    add_quoted(answers, name)?;
    add_text(answers, b" is given by line ")?;
    add_number(answers, number as u64)?;
    add_text(answers, b"; a name is given once")?;
    Ok(())
}

/// Appends that a name is a word of the language.
#[tactic(auto, using(std::proofs::lemmas::List::append_assoc))]
fn add_no_name(answers: &mut Vec<u8>, name: &[u8]) -> Added
    ensures { OnOk result (answers.new.items ≡ answers.old.items ++ (quoted name.now ++ codes " is a word of rules, and no name")) }
{
    add_quoted(answers, name)?;
    add_text(answers, b" is a word of rules, and no name")
}

/// Appends the sentence about a name that is taken.
fn add_taken(answers: &mut Vec<u8>, name: &[u8], part: Part, found: Option<usize>) -> Added
    ensures { OnOk result (answers.new.items ≡ answers.old.items ++ taken_sentence name.now part found) }
{
    match part {
        Part::Name => add_given(answers, name, found.unwrap_or(0)),
        _ => add_no_name(answers, name),
    }
}

/// Returns where a fault is.
fn place_of_fault(fault: RuleFault) -> TextPlace
    ensures { result ≡ place_of_fault fault }
{
    TextPlace {
        line: fault.line,
        column: fault.column,
    }
}

/// Appends the sentence about a fault. `content` is the line of rules that has it, and `words` are its tokens. `spot`, `octets` and `part`
/// are of the token at the fault.
fn add_sentence(
    alloc: Global,
    answers: &mut Vec<u8>,
    text: &[u8],
    kind: RuleFaultKind,
    fault: TextPlace,
    content: &[u8],
    words: &[RuleWord],
    spot: Spot,
    octets: &[u8],
    part: Part,
) -> Added
    requires { words.now ≡ words_found content.now }
    ensures { OnOk result (answers.new.items ≡ answers.old.items ++ rule_sentence (rule_lines text.now) kind fault content.now spot octets.now part) }
{
    match kind {
        RuleFaultKind::BadLine => add_bad_line(answers, spot, octets, part),
        RuleFaultKind::BadNumber => add_no_number(answers, octets),
        RuleFaultKind::TooLarge => add_too_large(answers, spot, octets, part),
        RuleFaultKind::OutsideCell => add_outside(answers, spot),
        RuleFaultKind::AfterOtherwise => add_text(answers, b"no line comes after `otherwise`"),
        RuleFaultKind::Unbalanced => {
            add_text(answers, unbalanced_sentence(part, depth_of(words)))
        }
        RuleFaultKind::TooDeep => {
            add_text(
                answers,
                b"at most 64 blocks and parentheses are open at once",
            )
        }
        RuleFaultKind::TooLong => add_text(answers, too_long_sentence(spot)),
        RuleFaultKind::NoMemory => Ok(()),
        RuleFaultKind::UnknownName => {
            let named = near_name(alloc, spot.place, octets, fault, text)?;
            add_unknown(answers, spot, octets, named)
        }
        RuleFaultKind::NameTaken => add_taken(
            answers,
            octets,
            part,
            giving_line(alloc, text, octets)?,
        ),
    }
}

/// Returns the column of a fault, if there is a token.
fn rule_word_column(column: usize, word: Option<RuleWord>) -> Option<usize>
    ensures { result ≡ rule_word_column column word }
{
    match word {
        Some(_) => Some(column),
        None => None,
    }
}

/// Returns the octets of a token, if there is one.
fn blamed_octets(text: &[u8], word: Option<RuleWord>) -> &[u8]
    ensures { result.now ≡ blamed_octets text.now word }
{
    match word {
        Some(word) => rule_word_octets(text, word),
        None => &[],
    }
}

/// Returns what a token is, if there is one.
fn part_blamed(word: Option<RuleWord>) -> Part
    ensures { result ≡ part_blamed word }
{
    match word {
        Some(word) => word.part,
        None => Part::Other,
    }
}

/// Appends that a parenthesis is open, where a token doesn't fit or the line ends too early, if `depth` isn't 0.
fn add_inside(answers: &mut Vec<u8>, kind: RuleFaultKind, depth: usize) -> Added
    ensures { OnOk result (answers.new.items ≡ answers.old.items ++ inside_words kind depth) }
{
    match kind {
        RuleFaultKind::BadLine if depth > 0 => add_text(answers, b"; a `(` is open here"),
        _ => Ok(()),
    }
}

/// Appends the explanation of a fault on a line of rules with this content, at this column of it.
#[tactic(auto, using(std::proofs::lemmas::List::append_assoc))]
fn add_placed(
    alloc: Global,
    answers: &mut Vec<u8>,
    text: &[u8],
    fault: RuleFault,
    column: usize,
    content: &[u8],
) -> Added
    ensures { OnOk result (answers.new.items
        ≡ answers.old.items ++ placed_explanation (rule_lines text.now) fault column content.now (words_found content.now)) }
{
    let words = words_found(alloc, content)?;
    let blamed = word_at(column, &words);
    add_place(answers, fault.line, rule_word_column(fault.column, blamed))?;
    let spot = spot_before(column, &words);
    let octets = blamed_octets(content, blamed);
    add_sentence(
        alloc,
        answers,
        text,
        fault.kind,
        place_of_fault(fault),
        content,
        &words,
        spot,
        octets,
        part_blamed(blamed),
    )?;
    add_inside(answers, fault.kind, depth_before(column, &words))?;
    answers.push(b'\n')?;
    Ok(())
}

/// Appends the explanation of a fault of a text of rules: its source line, the column of the token that is wrong, and a sentence.
///
/// # Errors
///
/// `AllocError` if an allocation failed.
pub fn add_rule_explanation(
    alloc: Global,
    answers: &mut Vec<u8>,
    text: &[u8],
    fault: RuleFault,
) -> Result<(), AllocError>
    ensures { OnOk result (answers.new.items ≡ answers.old.items ++ rule_explanation text.now fault) }
{
    if fault.line == 0 {
        return add_text(
            answers,
            b"the code of these rules has more than 4096 instructions\n",
        );
    }
    let place = place_of_fault(fault);
    let (begin, line) = line_holding(text, fault.kind, place);
    let column = column_within(line, begin, place);
    add_placed(alloc, answers, text, fault, column, line)
}

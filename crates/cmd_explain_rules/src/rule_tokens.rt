//! The tokens of a line of rules.

ghost use Rattle.std.specs.Prelude.{◌≡◌, IfOk};
ghost use Rattle.cmd_explain_rules.specs.WordsFound.{rule_word_octets, words_found};

use crate::token_parts::{Part, part_of};
use cmd_explain_script::{after, front};
use rules_text::next_token;
use std::alloc::{AllocError, Global};

/// A token of a line.
#[derive(Clone, Copy)]
pub struct RuleWord {
    /// The column of its first octet, counted from 1.
    pub column: usize,
    /// The column after it.
    pub after: usize,
    /// What it is.
    pub part: Part,
}

/// Returns the tokens of a line.
pub(crate) fn words_found(alloc: Global, line: &[u8]) -> Result<Vec<RuleWord>, AllocError>
    ensures { IfOk result (λ words. words.items ≡ words_found line.now) }
{
    let mut words = Vec::new(alloc);
    let mut at = 0;
    while let Some(found) = next_token(line, at) {
        words.push(RuleWord {
            column: found.start + 1,
            after: found.end + 1,
            part: part_of(found.token),
        })?;
        at = found.end;
    }
    Ok(words)
}

/// Returns the octets of a token of a line.
pub(crate) fn rule_word_octets(text: &[u8], word: RuleWord) -> &[u8]
    ensures { result.now ≡ rule_word_octets text.now word }
{
    front(
        after(text, word.column.saturating_sub(1)),
        word.after.saturating_sub(word.column),
    )
}

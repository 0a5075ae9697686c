//! The hints about a text of rules that a run prints beside its answer. Each hint is a line that begins with the same octets (`front`).

ghost use Rattle.std.specs.Prelude.{◌≡◌, OnOk, option_map};
ghost use Rattle.rules_text.specs.TextOfRules.{placed_rules_in};
ghost use Rattle.text_io.specs.Devices.{Adds};
ghost use Rattle.cmd_explain_rules.specs.HintComments.{AreHintsAbout, AreHintsOn, text_of_comments};
ghost use Rattle.cmd_explain_rules.specs.inner.CommentsFound.{MayBeCommentsFound};

use crate::rule_hints::add_rule_hints;
use cmd_rules::MOST_RULES_OCTETS;
use rules_text::{RuleFault, RuleFaultKind, read_with_places};
use std::alloc::{AllocError, Global};

/// The hints about rules as comments.
#[derive(Drop)]
pub enum Comments {
    /// The comments, a line each.
    Made(Vec<u8>),
    /// An allocation failed, so there are none.
    NoMemory,
}

impl Comments {
    /// Returns the text of the comments, or one that says that no memory was left for them.
    pub fn text(&self) -> &[u8]
        ensures { result.now ≡ text_of_comments self.now }
    {
        match self {
            Comments::Made(text) => text,
            Comments::NoMemory => b"# hint: not decided: out of memory\n",
        }
    }
}

/// Appends the hints about a text within the limit, each after these octets.
fn add_hints_on(
    alloc: Global,
    answers: &mut Vec<u8>,
    front: &[u8],
    text: &[u8],
) -> Result<(), AllocError>
    ensures { OnOk result (Adds (AreHintsOn front.now (placed_rules_in text.now)) answers.old.items answers.new.items) }
{
    match read_with_places(alloc, text) {
        Ok(placed_rules) => add_rule_hints(alloc, answers, front, &placed_rules),
        Err(
            RuleFault {
                kind: RuleFaultKind::NoMemory,
                ..
            },
        ) => Err(AllocError),
        Err(_) => Ok(()),
    }
}

/// Appends the hints about a text of rules, each after these octets. A text with a fault or over its limit has none. If the search would
/// take too much work, one hint says that nothing is decided.
///
/// # Errors
///
/// `AllocError` if an allocation fails.
pub fn add_hints_about(
    alloc: Global,
    answers: &mut Vec<u8>,
    front: &[u8],
    octets: &[u8],
) -> Result<(), AllocError>
    ensures { OnOk result (Adds (AreHintsAbout front.now octets.now) answers.old.items answers.new.items) }
{
    if octets.len() > MOST_RULES_OCTETS as usize {
        return Ok(());
    }
    add_hints_on(alloc, answers, front, octets)
}

/// Returns the comments about a text. `found` is None if the text is over the limit.
pub(crate) fn comments_found(alloc: Global, found: &Option<Vec<u8>>) -> Comments
    ensures { MayBeCommentsFound (option_map (λ text. text.items) found.now) (text_of_comments result) }
{
    let mut comments = Vec::new(alloc);
    let added = match found {
        Some(text) => add_hints_on(alloc, &mut comments, b"# ", text),
        None => Ok(()),
    };
    match added {
        Ok(()) => Comments::Made(comments),
        Err(_) => Comments::NoMemory,
    }
}

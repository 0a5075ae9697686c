//! `upc-lab rules`, with hints about the rules beside the answer.

ghost use Rattle.std.specs.Prelude.{option_map, IfOk};
ghost use Rattle.cmd_rules.specs.RulesAnswers.{AnswersBy};
ghost use Rattle.cmd_rules.specs.RulesText.{IsRulesText, MayBeRulesText, PrintsRules};
ghost use Rattle.text_io.specs.Devices.{Adds};
ghost use Rattle.text_io.specs.Serving.{IsServed};
ghost use Rattle.cmd_explain_rules.specs.HintComments.{MayBeHintComments, text_of_comments};

use crate::hint_comments::{Comments, comments_found};
use cmd_rules::{MOST_RULES_OCTETS, answer_by_octets};
use std::alloc::{AllocError, Global};
use text_io::{Done, Ending, Input, Output, RunFault, gather, give_last};
use text_words::add_too_long;

/// Answers a text. `found` is None if the text is over the limit.
fn answer_found(
    alloc: Global,
    found: &Option<Vec<u8>>,
    answers: &mut Vec<u8>,
) -> Result<Done, AllocError>
    ensures { IfOk result (λ done. Adds (λ answer. AnswersBy PrintsRules (option_map (λ text. text.items) found.now) answer done)
        answers.old.items answers.new.items) }
{
    match found {
        Some(text) => answer_by_octets(alloc, text, answers),
        None => {
            add_too_long(answers)?;
            Ok(Done::Ended)
        }
    }
}

/// Answers a text of rules as `compile_rules` of `cmd_rules` does, and puts the hints about it as comments into
/// `comments`, in place of what was there.
///
/// # Errors
///
/// See [`RunFault`].
pub fn compile_with_hints<I: Input, O: Output>(
    alloc: Global,
    input: &mut I,
    output: &mut O,
    comments: &mut Comments,
) -> Ending
    ensures served { IsServed MayBeRulesText I.Input input.old input.new O.Output output.old output.new result }
    ensures printed { I.is_known → O.is_known → IfOk result (λ done.
        Adds (λ answer. IsRulesText (I.rest input.old) answer done) (O.held output.old) (O.held output.new)) }
    ensures hinted { I.is_known → IfOk result (λ done. MayBeHintComments (I.rest input.old) (text_of_comments comments.new)) }
{
    let found = match gather(alloc, input, MOST_RULES_OCTETS) {
        Ok(found) => found,
        Err(fault) => return Err(fault),
    };
    let mut answers = Vec::new(alloc);
    match answer_found(alloc, &found, &mut answers) {
        Err(_) => Err(RunFault::NoMemory),
        Ok(done) => {
            let ended = give_last(output, &mut answers, done);
            *comments = comments_found(alloc, &found);
            ended
        }
    }
}

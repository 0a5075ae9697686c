//! Programs that answer a whole input at once.

ghost use Rattle.std.specs.Prelude.{List, ℕ, IfOk, option_map};
ghost use Rattle.text_io.specs.Devices.{Adds};
ghost use Rattle.text_io.specs.Gathered.{AnswersGathered, gathered};
ghost use Rattle.text_io.specs.Serving.{IsServed};
ghost use Rattle.text_io.specs.declared.ending.Done.{Done as TheDone};

use crate::delivery::give_last;
use crate::device::{Input, Output};
use crate::ending::{Answered, Done, Ending, RunFault};
use crate::gathering::gather;
use std::alloc::Global;

/// A program that gets a whole input at once and answers it.
///
/// `prints` relates octets to the texts that it answers them by, and to how the run then ends. `allows` is a wider
/// relation, by which all octets have a text: if a device fails, the output is a prefix of such a text.
pub trait Answerer {
    ghost prints: { Self → List ℕ → List ℕ → TheDone → Type 0 };

    ghost allows: { Self → List ℕ → List ℕ → TheDone → Type 0 };

    /// Appends the answer to an input within the limit to the answers.
    fn answer(&self, alloc: Global, octets: &[u8], answers: &mut Vec<u8>) -> Answered
        ensures { IfOk result (λ done.
            Adds (λ text. prints self.now octets.now text done) answers.old.items answers.new.items) };

    ghost is_wider: { (me : Self) (octets text : List ℕ) (done : TheDone) → prints me octets text done → allows me octets text done };

    ghost is_total: { (me : Self) (octets : List ℕ) → (text : List ℕ) × (done : TheDone) × allows me octets text done };
}

/// Answers what was gathered, or an input over the limit by this text.
fn answer_found<A: Answerer>(
    alloc: Global,
    answerer: &A,
    found: Option<Vec<u8>>,
    too_long: &[u8],
    answers: &mut Vec<u8>,
) -> Answered
    ensures { IfOk result (λ done.
        Adds (λ text. AnswersGathered too_long.now (A.prints answerer.now) (option_map (λ octets. octets.items) found) text done)
        answers.old.items answers.new.items) }
{
    match found {
        Some(octets) => answerer.answer(alloc, &octets, answers),
        None => {
            answers.extend_from_slice(too_long)?;
            Ok(Done::Ended)
        }
    }
}

/// Answers a whole input of at most `most` octets by one text. Of a longer one `most` + 1 octets are read, and the answer is `too_long`.
///
/// # Errors
///
/// See [`RunFault`].
pub fn answer_whole<I: Input, O: Output, A: Answerer>(
    alloc: Global,
    input: &mut I,
    output: &mut O,
    most: u32,
    too_long: &[u8],
    answerer: &A,
) -> Ending
    ensures served { IsServed (λ octets. AnswersGathered too_long.now (A.allows answerer.now) (gathered most octets))
        I.Input input.old input.new O.Output output.old output.new result }
    ensures printed { I.is_known → O.is_known → IfOk result (λ done.
        Adds (λ text. AnswersGathered too_long.now (A.prints answerer.now) (gathered most (I.rest input.old)) text done)
        (O.held output.old) (O.held output.new)) }
{
    let found = match gather(alloc, input, most) {
        Ok(found) => found,
        Err(fault) => return Err(fault),
    };
    let mut answers = Vec::new(alloc);
    match answer_found(alloc, answerer, found, too_long, &mut answers) {
        Err(_) => Err(RunFault::NoMemory),
        Ok(done) => give_last(output, &mut answers, done),
    }
}

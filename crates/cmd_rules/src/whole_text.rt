//! A whole input that is a text of rules, answered once.

ghost use Rattle.std.specs.Prelude.{IfOk};
ghost use Rattle.text_io.specs.Devices.{Adds};
ghost use Rattle.text_io.specs.Serving.{IsServed};
ghost use Rattle.cmd_rules.specs.RulesAnswers.{IsAnswerBy, MayBeAnswerBy};
ghost use Rattle.cmd_rules.specs.inner.PrintedAs.{prints_as};

use crate::assembling::answer_by_source;
use crate::compiling::answer_by_octets;
use std::alloc::Global;
use text_io::{Answered, Answerer, Ending, Input, Output, answer_whole};
use text_words::TOO_LONG;

/// The maximum number of octets of a text of rules.
pub const MOST_RULES_OCTETS: u32 = 1048576;

/// What the program of a text of rules is printed as.
#[derive(Clone, Copy)]
pub(crate) enum Printed {
    /// Its octets.
    Octets,
    /// Its source.
    Source,
}

impl Answerer for Printed {
    ghost use Rattle.cmd_rules.specs.inner.PrintedAs.{MayPrint, may-answer, prints_as};
    ghost use Rattle.std.proofs.Common.{inl};

    ghost prints = { prints_as };

    ghost allows = { λ printed. MayPrint (prints_as printed) };

    fn answer(&self, alloc: Global, octets: &[u8], answers: &mut Vec<u8>) -> Answered {
        match *self {
            Printed::Octets => answer_by_octets(alloc, octets, answers),
            Printed::Source => answer_by_source(alloc, octets, answers),
        }
    }

    ghost is_wider = { λ printed text answer done prints. inl prints };

    ghost is_total = { may-answer };
}

/// Answers a text of rules by its program, or by its fault with line and column.
///
/// # Errors
///
/// See [`text_io::RunFault`].
pub(crate) fn answer_rules<I: Input, O: Output>(
    alloc: Global,
    printed: Printed,
    input: &mut I,
    output: &mut O,
) -> Ending
    ensures served { IsServed (MayBeAnswerBy (prints_as printed)) I.Input input.old input.new O.Output output.old output.new result }
    ensures printed { I.is_known → O.is_known → IfOk result (λ done.
        Adds (λ answer. IsAnswerBy (prints_as printed) (I.rest input.old) answer done) (O.held output.old) (O.held output.new)) }
{
    answer_whole(alloc, input, output, MOST_RULES_OCTETS, TOO_LONG, &printed)
}

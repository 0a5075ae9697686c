//! Where the arrivals of a card come from, and where its answers go.

ghost use Rattle.std.specs.Prelude.{◌≡◌, ◌∷◌, ◌++◌, [], List, Option, Result, MatchOption};
ghost use Rattle.card_core.specs.declared.answer.Judgement.{Judgement};
ghost use Rattle.card_core.specs.declared.answer.Unjudged.{Unjudged};
ghost use Rattle.card_shelf.specs.declared.arrival.Arrival.{Arrival};

use card_shelf::{Arrival, Decision};

/// The source of a card's arrivals, and the sink of the answers to them.
///
/// A feeder doesn't have to store the answers: a sink that counts them may show every list of answers with these counts.
pub trait Feeder {
    /// The arrivals that are still to come, in their order.
    ghost coming: { Self → List Arrival };

    /// These may be all the answers that the feeder has taken, the first one first.
    ghost has_taken: { Self → List (Option (Result Judgement Unjudged)) → Type 0 };

    /// An arrival was given, and its answer may be taken now.
    ghost awaits: { Self → Type 0 };

    /// Gives the next arrival, or None at the end.
    fn next_arrival(&mut self) -> Option<Arrival>
        ensures next { MatchOption result
            ((coming self.old ≡ []) × (coming self.new ≡ []))
            (λ arrival. (coming self.old ≡ arrival ∷ coming self.new) × awaits self.new) }
        ensures kept { (answers : _) → has_taken self.old answers → has_taken self.new answers };

    /// Takes the card's answer to the arrival that was given last: that of `Core::arrive` at port 0.
    fn take_answer(&mut self, answer: Option<Decision>)
        requires { awaits self.old }
        ensures taken { (answers : _) → has_taken self.old answers → has_taken self.new (answers ++ answer ∷ []) }
        ensures coming { coming self.new ≡ coming self.old };
}

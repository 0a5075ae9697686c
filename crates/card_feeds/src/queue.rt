//! A feeder with its arrivals and its answers in memory.

ghost use Rattle.std.specs.Prelude.{◌≡◌, ◌∷◌, ◌++◌, ℕ, [], List, Option, Result, MatchOption, IfOk, IfErr, OnOk, OnErr, drop, length, ◌<◌};
ghost use Rattle.card_core.specs.declared.answer.Judgement.{Judgement};
ghost use Rattle.card_core.specs.declared.answer.Unjudged.{Unjudged};
ghost use Rattle.card_shelf.specs.declared.arrival.Arrival.{Arrival};

use crate::feeder::Feeder;
use card_shelf::{Arrival, Decision};
use std::alloc::{AllocError, Global};
use std::marker::Model;
use std::mem;

/// A feeder with its arrivals and its answers in memory, which it allocates when it is made.
#[derive(Drop)]
pub struct Queue {
    arrivals: Vec<Arrival>,
    given: usize,
    answers: Vec<Option<Decision>>,
}

impl Model for Queue {
    ghost use Rattle.std.specs.Prelude.{length, vec_capacity};
    ghost use Rattle.card_feeds.specs.Queue.{QueueView};
    ghost use Rattle.card_feeds.specs.inner.Queues.{IsQueue};

    ghost Value = { QueueView };

    ghost view = { λ q. record { arrivals = q.arrivals.items; given = q.given; answers = q.answers.items } };

    ghost invariant = { λ q. IsQueue (length q.arrivals.items) q.given (length q.answers.items) (vec_capacity q.answers) };
}

impl Queue {
    /// A queue of these arrivals, without answers, and with room for an answer to each.
    pub fn new(alloc: Global, arrivals: Vec<Arrival>) -> Result<Queue, AllocError>
        ensures arrivals { IfOk result (λ queue. queue.arrivals ≡ arrivals.items) }
        ensures given { IfOk result (λ queue. queue.given ≡ 0) }
        ensures answers { IfOk result (λ queue. queue.answers ≡ []) }
    {
        let answers = Vec::with_capacity(alloc, arrivals.len())?;
        Ok(Queue {
            arrivals,
            given: 0,
            answers,
        })
    }

    /// Takes other arrivals in place of its own, and forgets the answers. Returns the arrivals that it had.
    ///
    /// # Errors
    ///
    /// An allocation failed. The arrivals are returned, and the queue is as before.
    pub fn refill(&mut self, arrivals: Vec<Arrival>) -> Result<Vec<Arrival>, Vec<Arrival>>
        ensures arrivals { OnOk result (self.new.arrivals ≡ arrivals.items) }
        ensures given { OnOk result (self.new.given ≡ 0) }
        ensures answers { OnOk result (self.new.answers ≡ []) }
        ensures earlier { IfOk result (λ earlier. earlier.items ≡ self.old.arrivals) }
        ensures returned { IfErr result (λ returned. returned.items ≡ arrivals.items) }
        ensures unchanged { OnErr result (self.new ≡ self.old) }
    {
        if arrivals.len() > self.arrivals.len() {
            let more = arrivals.len() - self.answers.len();
            if self.answers.reserve(more).is_err() {
                return Err(arrivals);
            }
        }
        self.answers.clear();
        self.given = 0;
        Ok(mem::replace(&mut self.arrivals, arrivals))
    }

    /// The answers that were taken, in the order of the arrivals.
    pub fn answers(&self) -> &[Option<Decision>]
        ensures { result.now ≡ self.now.answers }
    {
        &self.answers
    }

    /// All arrivals, those that were given and those to come.
    pub fn arrivals(&self) -> &[Arrival]
        ensures { result.now ≡ self.now.arrivals }
    {
        &self.arrivals
    }
}

impl Feeder for Queue {
    ghost coming = { λ q. drop q.given q.arrivals };

    ghost has_taken = { λ q answers. q.answers ≡ answers };

    ghost awaits = { λ q. length q.answers < q.given };

    fn next_arrival(&mut self) -> Option<Arrival> {
        if self.given == self.arrivals.len() {
            return None;
        }
        let arrival = self.arrivals[self.given];
        self.given += 1;
        Some(arrival)
    }

    fn take_answer(&mut self, answer: Option<Decision>) {
        self.answers.push_reserved(answer);
    }
}

//! A card with its feeder.

ghost use Rattle.std.specs.Prelude.{◌≡◌};
ghost use Rattle.card_feeds.specs.Feeding.{IsFed};

use crate::feeder::Feeder;
use card_core::Core;

/// A card, and the feeder that it has for itself. It refers to no other lane.
#[derive(Drop)]
pub struct Lane<F> {
    pub core: Core,
    pub feeder: F,
    /// Keeps what one thread writes two lines of a cache away from what the next one reads.
    apart: [u64; 16],
}

impl<F> Lane<F> {
    /// A card with its feeder.
    pub fn new(core: Core, feeder: F) -> Lane<F>
        ensures core { result.core ≡ core }
        ensures feeder { result.feeder ≡ feeder }
    {
        Lane {
            core,
            feeder,
            apart: [0; 16],
        }
    }
}

impl<F: Feeder> Lane<F> {
    /// Answers the arrivals of the feeder in their order, each by `Core::arrive` at port 0, until there are no more.
    /// Nothing is allocated, unless the feeder allocates.
    pub fn run(&mut self)
        ensures fed { IsFed self.old.core (F.coming self.old.feeder) (F.has_taken self.old.feeder)
            self.new.core (F.coming self.new.feeder) (F.has_taken self.new.feeder) }
    {
        while let Some(arrival) = self.feeder.next_arrival() {
            let answer = self.core.arrive(0, &arrival.cell, arrival.moment);
            self.feeder.take_answer(answer);
        }
    }
}

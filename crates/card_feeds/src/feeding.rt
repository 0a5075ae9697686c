//! Each card on one thread, side by side with the others.

ghost use Rattle.std.specs.Prelude.{◌≡◌, ℕ, Some, length, slice_get};
ghost use Rattle.card_feeds.specs.Feeding.{IsFed};
ghost use Rattle.card_feeds.specs.Lanes.{lane_cards, lane_queues, HasTakenMore, FeedAsOneCard};

use crate::feeder::Feeder;
use crate::lane::Lane;
use std::thread;
use std::thread::Threads;

/// Answers the arrivals of each lane's feeder until there are no more. The caller's thread runs one lane, and each other one has a
/// thread where one can be made. Returns when all lanes have ended. The threads share nothing.
pub fn each_card<R: Threads + Sync, F: Feeder + Send>(rt: &R, lanes: &mut [Lane<F>])
    ensures fed { (number : ℕ) (lane next : _) → slice_get lanes.old number ≡ Some lane
        → slice_get lanes.new number ≡ Some next
        → IsFed lane.core (F.coming lane.feeder) (F.has_taken lane.feeder)
        next.core (F.coming next.feeder) (F.has_taken next.feeder) }
    ensures as_one { FeedAsOneCard (lane_cards lanes.old) (lane_queues F.coming lanes.old)
        (HasTakenMore F.has_taken lanes.old lanes.new) (lane_cards lanes.new) }
    ensures sized { length lanes.new ≡ length lanes.old }
{
    feed_each(rt, lanes);
}

/// The same. [`each_card`] adds that the answers are those of one card, which follows from these clauses.
fn feed_each<R: Threads + Sync, F: Feeder + Send>(rt: &R, lanes: &mut [Lane<F>])
    ensures fed { (number : ℕ) (lane next : _) → slice_get lanes.old number ≡ Some lane
        → slice_get lanes.new number ≡ Some next
        → IsFed lane.core (F.coming lane.feeder) (F.has_taken lane.feeder)
        next.core (F.coming next.feeder) (F.has_taken next.feeder) }
    ensures sized { length lanes.new ≡ length lanes.old }
{
    let threads = lanes.len().max(1);
    thread::for_each_mut(rt, lanes, threads, &|_, lane| lane.run());
}

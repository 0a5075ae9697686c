//! Laws of cards with feeders. These functions do nothing: the contract of each is a law.

ghost use Rattle.card_feeds.specs.Mixing.{FedCardsAnswerAsOneCard};

/// If each card has served its own queue, the answers are those of one card that takes all arrivals, in every mix of the
/// queues. Each connection has to be on one card.
// no edit: a law has no code to change
pub fn fed_cards_answer_as_one_card()
    ensures { FedCardsAnswerAsOneCard }
{}

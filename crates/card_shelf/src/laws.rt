//! Laws of shelves. These functions do nothing: the contract of each is a law.

ghost use Rattle.card_shelf.specs.Life.{CallsKeepACardBeside, ShelvesAnswerAsOneCard};
ghost use Rattle.card_shelf.specs.Logs.{CardsGoOnByTheirArrivals, WaysAreShort};
ghost use Rattle.card_shelf.specs.OneCard.{ShelvesDecideAsOneCard, TheSameActsSuffice};

/// A card that has answered arrivals has taken their steps, and its log has grown by them.
pub fn cards_go_on_by_their_arrivals()
    ensures { CardsGoOnByTheirArrivals }
{}

/// The steps of arrivals, with which a log goes on, are at most three for each.
pub fn ways_are_short()
    ensures { WaysAreShort }
{}

/// If each arrival is answered by its own card, one after another, the answers are those of one card with all the
/// connections.
pub fn shelves_decide_as_one_card()
    ensures { ShelvesDecideAsOneCard }
{}

/// If the same was done for each connection, in the same order, a card is beside a shelf.
pub fn the_same_acts_suffice()
    ensures { TheSameActsSuffice }
{}

/// If a card is beside a shelf, and both grant the same call, the outcomes are the same, and the card is beside the shelf
/// afterwards. The call is a batch of arrivals or a call of the desk.
pub fn calls_keep_a_card_beside()
    ensures { CallsKeepACardBeside }
{}

/// For any list of batches and granted calls of the desk, policed on any number of threads, the answers of a shelf are those
/// of one card that takes the same calls, and the arrivals one after another. Line numbers, counts and ids are left out.
pub fn shelves_answer_as_one_card()
    ensures { ShelvesAnswerAsOneCard }
{}

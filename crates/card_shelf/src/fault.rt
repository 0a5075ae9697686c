//! Why a shelf can't be made, why a program is loaded on no card or retired from none, and why a room is too small.

use card_core::{CardFault, DeskFault};
use thiserror::Error;

/// Why a shelf can't be made. It is printed as its number and its name, a card's fault as the card's.
#[derive(Clone, Copy, Debug, PartialEq, Eq, Error)]
pub enum ShelfFault {
    /// The number of cards isn't 1 to 64.
    #[error("6 Cards")]
    Cards,
    /// A card of this shape can't be made.
    #[error("{0}")]
    Card(CardFault),
}

/// Why a program was loaded on no card, or retired from none. It is printed as its number and its name, with the number of
/// the card and its reason.
#[derive(Clone, Copy, Debug, PartialEq, Eq, Error)]
pub enum ProgramFault {
    /// An allocation failed.
    #[error("1 NoMemory")]
    NoMemory,
    /// The list does not have one id for each card.
    #[error("2 Ids")]
    Ids,
    /// The card of this number, from 0, is the first that has a reason to refuse, and this is its reason.
    #[error("3 Card {0}: {1}")]
    Card(usize, DeskFault),
}

/// Why a batch doesn't fit a room. It is printed as its number and its name.
#[derive(Clone, Copy, Debug, PartialEq, Eq, Error)]
pub enum NoRoom {
    /// The batch has more arrivals than the room is for.
    #[error("1 Arrivals")]
    Arrivals,
    /// The shelf has more cards than the room is for.
    #[error("2 Cards")]
    Cards,
}

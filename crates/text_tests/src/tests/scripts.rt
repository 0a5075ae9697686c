//! The lines of a card and of cells, and the contracts of a script.

mod card_faults;
mod rates;
mod replies;

//! The eight ledgers of a card: for each verdict one for the lines and one for the seats.

ghost use Rattle.port_card.specs.Names.{Names, no_names};

use std::marker::{Brand, PhantomData};
use std::sync::ledger::Ledger;

/// Tells the ledgers of one card from those of others. The card, its seats and its desk share it as a type parameter. A program passes
/// [`Brand`], and the proof of the caller chooses the names of the ledgers.
pub trait Ledgers {
    ghost names: { Names };
}

impl Ledgers for Brand {
    ghost names = { no_names };
}

/// Counts the cells passed, by line.
pub(crate) struct PassedOnLines<S>(PhantomData<S>);

impl<S: Ledgers> Ledger for PassedOnLines<S> {
    ghost name = { S.names.passed_on_lines };

    ghost parts = { S.names.lines };
}

/// Counts the cells passed, by seat.
pub(crate) struct PassedAtSeats<S>(PhantomData<S>);

impl<S: Ledgers> Ledger for PassedAtSeats<S> {
    ghost name = { S.names.passed_at_seats };

    ghost parts = { S.names.ports };
}

/// Counts the cells tagged, by line.
pub(crate) struct TaggedOnLines<S>(PhantomData<S>);

impl<S: Ledgers> Ledger for TaggedOnLines<S> {
    ghost name = { S.names.tagged_on_lines };

    ghost parts = { S.names.lines };
}

/// Counts the cells tagged, by seat.
pub(crate) struct TaggedAtSeats<S>(PhantomData<S>);

impl<S: Ledgers> Ledger for TaggedAtSeats<S> {
    ghost name = { S.names.tagged_at_seats };

    ghost parts = { S.names.ports };
}

/// Counts the cells discarded, by line.
pub(crate) struct DiscardedOnLines<S>(PhantomData<S>);

impl<S: Ledgers> Ledger for DiscardedOnLines<S> {
    ghost name = { S.names.discarded_on_lines };

    ghost parts = { S.names.lines };
}

/// Counts the cells discarded, by seat.
pub(crate) struct DiscardedAtSeats<S>(PhantomData<S>);

impl<S: Ledgers> Ledger for DiscardedAtSeats<S> {
    ghost name = { S.names.discarded_at_seats };

    ghost parts = { S.names.ports };
}

/// Counts the cells refused, by line.
pub(crate) struct RefusedOnLines<S>(PhantomData<S>);

impl<S: Ledgers> Ledger for RefusedOnLines<S> {
    ghost name = { S.names.refused_on_lines };

    ghost parts = { S.names.lines };
}

/// Counts the cells refused, by seat.
pub(crate) struct RefusedAtSeats<S>(PhantomData<S>);

impl<S: Ledgers> Ledger for RefusedAtSeats<S> {
    ghost name = { S.names.refused_at_seats };

    ghost parts = { S.names.ports };
}

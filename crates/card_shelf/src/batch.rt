//! What is written down while a batch of arrivals is policed.

ghost use Rattle.std.specs.Prelude.{◌≡◌, ◌≤◌, [], IfOk, length, vec_capacity};
ghost use Rattle.card_shelf.specs.inner.Rooms.{HaveRoom, ListsHaveRoom, BatchHasRoom};

use crate::arrival::Decision;
use std::alloc::{AllocError, Global};

/// The lists of a batch: which arrivals are whose, and the answers.
#[derive(Drop)]
pub(crate) struct Batch {
    /// For each card the places of its arrivals.
    pub(crate) dealt: Vec<Vec<usize>>,
    /// For each arrival the number of its card.
    pub(crate) numbers: Vec<u8>,
    /// The answers, in the order of the arrivals.
    pub(crate) decisions: Vec<Decision>,
}

impl Batch {
    /// Empty lists for this number of cards. Each has room for this number of arrivals.
    pub(crate) fn new(alloc: Global, cards: usize, most: usize) -> Result<Batch, AllocError>
        ensures cards { IfOk result (λ batch. length batch.dealt.items ≡ cards) }
        ensures room { IfOk result (λ batch. BatchHasRoom cards most batch) }
        ensures empty { IfOk result (λ batch. batch.decisions.items ≡ []) }
    {
        let dealt = place_lists(alloc, cards, most)?;
        let numbers = Vec::with_capacity(alloc, most)?;
        let decisions = Vec::with_capacity(alloc, most)?;
        Ok(Batch {
            dealt,
            numbers,
            decisions,
        })
    }
}

/// For each of the cards an empty list of places, with room for this number of them.
fn place_lists(alloc: Global, cards: usize, most: usize) -> Result<Vec<Vec<usize>>, AllocError>
    ensures cards { IfOk result (λ lists. length lists.items ≡ cards) }
    ensures room { IfOk result (λ lists. HaveRoom most lists.items) }
{
    let mut lists = Vec::with_capacity(alloc, cards)?;
    for _ in 0..cards {
        lists.push_reserved(Vec::with_capacity(alloc, most)?);
    }
    Ok(lists)
}

/// For each of the cards an empty list of decisions, with room for this number of them.
pub(crate) fn empty_decision_lists(
    alloc: Global,
    cards: usize,
    most: usize,
) -> Result<Vec<Vec<Decision>>, AllocError>
    ensures cards { IfOk result (λ lists. length lists.items ≡ cards) }
    ensures room { IfOk result (λ lists. ListsHaveRoom 0 most lists.items) }
{
    let mut lists = Vec::with_capacity(alloc, cards)?;
    for _ in 0..cards {
        lists.push_reserved(Vec::with_capacity(alloc, most)?);
    }
    Ok(lists)
}

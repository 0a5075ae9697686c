//! Each call of the desk once: shelves, connections and programs come and go.

use super::{
    HEADERS, ask, cell_with, constant, expect, id_for, load, open_shelf, outcome, set_up, shape,
    vc_at,
};
use card_core::{CardFault, DeskFault, Reply, Unjudged};
use card_shelf::{Arrival, Decision, ProgramFault, Shelf, ShelfFault};
use gen_arena::Id;
use std::alloc::Global;
use std::process::Abort;
use std::test::Fail;
use std::thread::Threads;
use upc_cell::Vc;

/// What a reply says, in a word.
fn word_of(reply: &Reply) -> &'static str {
    match reply {
        Reply::Reloaded(_) => "reloaded",
        Reply::Cut(_) => "cut",
        Reply::Released(_) => "released",
        Reply::Retired(_) => "retired",
        Reply::Refused(DeskFault::InUse) => "in use",
        _ => "otherwise",
    }
}

/// What a card of the shelf says when this program is retired, or that there is no such card.
fn retired_on(shelf: &mut Shelf, card: usize, id: Id) -> &'static str {
    match shelf.retire_on(card, id) {
        Some(reply) => word_of(&reply),
        None => "no card",
    }
}

/// The only decision about this arrival.
fn decision_about<R: Threads + Sync>(
    rt: &R,
    alloc: Global,
    shelf: &mut Shelf,
    arrival: Arrival,
    threads: usize,
) -> Result<Decision, Fail> {
    let decisions = shelf.police(rt, alloc, &[arrival], threads)?;
    match decisions.as_slice() {
        [one] => Ok(*one),
        _ => Err(Fail::from("not one decision")),
    }
}

#[test]
fn a_connection_comes_and_goes_on_its_card(rt: HostRuntime) -> Result<(), Fail> {
    let mut shelf = open_shelf(rt.alloc(), 3)?;
    expect_coming_and_going(&rt, rt.alloc(), &mut shelf)
}

/// Expects it of 1/100 on a shelf with all connections.
fn expect_coming_and_going<R: Threads + Sync + Abort>(
    rt: &R,
    alloc: Global,
    shelf: &mut Shelf,
) -> Result<(), Fail> {
    let vc = vc_at(0);
    let card = shelf.card_of(vc);
    let second = load(shelf, card, constant(alloc, 1)?)?;
    expect_reloaded(rt, shelf, vc, second);
    let arrival = Arrival {
        cell: cell_with(&HEADERS[0]),
        moment: 7,
    };
    let _ = decision_about(rt, alloc, shelf, arrival, 0)?;
    expect_one_entry(rt, shelf, vc);
    expect_gone(rt, shelf, vc, second);
    let gone = decision_about(rt, alloc, shelf, arrival, 2)?;
    expect(rt, "a cell then", gone, Err(Unjudged::NoConnection));
    Ok(())
}

/// Expects that a connection gets this program, which is then in use.
fn expect_reloaded(rt: &impl Abort, shelf: &mut Shelf, vc: Vc, program: Id) {
    let card = shelf.card_of(vc);
    let reloaded = word_of(&shelf.reload(vc, program));
    expect(rt, "a reload", reloaded, "reloaded");
    let retired = retired_on(shelf, card, program);
    expect(rt, "a retirement", retired, "in use");
}

/// Expects that the journal of a connection has one entry.
fn expect_one_entry(rt: &impl Abort, shelf: &mut Shelf, vc: Vc) {
    let reply = shelf.cut(vc);
    let found = (word_of(&reply), outcome(&reply));
    expect(rt, "a cut", found, ("cut", Some(1)));
}

/// Expects that a connection is released and its program retired.
fn expect_gone(rt: &impl Abort, shelf: &mut Shelf, vc: Vc, program: Id) {
    let card = shelf.card_of(vc);
    let released = word_of(&shelf.release(vc));
    expect(rt, "a release", released, "released");
    let retired = retired_on(shelf, card, program);
    expect(rt, "a retirement", retired, "retired");
}

#[test]
fn a_shelf_has_1_to_64_cards_of_a_shape(rt: HostRuntime) -> Result<(), Fail> {
    let mut bad = shape();
    bad.ports = 0;
    for (shape, cards, fault) in [
        (shape(), 0, ShelfFault::Cards),
        (bad, 65, ShelfFault::Cards),
        (bad, 64, ShelfFault::Card(CardFault::Ports)),
    ] {
        let found = Shelf::new(rt.alloc(), shape, cards).err();
        expect(&rt, "a shelf", (cards, found), (cards, Some(fault)));
    }
    let mut shelf = Shelf::new(rt.alloc(), shape(), 64)?;
    expect_cards(&rt, rt.alloc(), &mut shelf)
}

/// Expects that the cards of a shelf of 64 go from 0 to 63.
fn expect_cards(rt: &impl Abort, alloc: Global, shelf: &mut Shelf) -> Result<(), Fail> {
    let found = (shelf.cards(), shelf.shape());
    expect(rt, "the shelf", found, (64, shape()));
    let refused = shelf.load_on(64, constant(alloc, 1)?).is_err();
    expect(rt, "a program for card 64", refused, true);
    let id = load(shelf, 63, constant(alloc, 1)?)?;
    let found = (retired_on(shelf, 64, id), retired_on(shelf, 63, id));
    expect(rt, "retirements", found, ("no card", "retired"));
    Ok(())
}

/// Loads a program on every card, and returns its ids.
fn load_on_all(alloc: Global, shelf: &mut Shelf) -> Result<Vec<Id>, Fail> {
    match shelf.load(alloc, constant(alloc, 1)?) {
        Ok(ids) => Ok(ids),
        Err(_) => Err(Fail::from("not loaded")),
    }
}

#[test]
fn a_program_is_retired_from_every_card_or_from_none(rt: HostRuntime) -> Result<(), Fail> {
    let mut shelf = Shelf::new(rt.alloc(), shape(), 3)?;
    expect_retired(&rt, rt.alloc(), &mut shelf)
}

/// Expects it of a program on a new shelf.
fn expect_retired(rt: &impl Abort, alloc: Global, shelf: &mut Shelf) -> Result<(), Fail> {
    let ids = load_on_all(alloc, shelf)?;
    expect_ids_retired(rt, shelf, &ids)
}

/// Expects it of the program with these ids, also while a connection has it.
fn expect_ids_retired(rt: &impl Abort, shelf: &mut Shelf, ids: &[Id]) -> Result<(), Fail> {
    let vc = Vc::new(1, 100)?;
    let card = shelf.card_of(vc);
    let program = id_for(shelf, ids, vc)?;
    set_up(shelf, ask(vc, program)?)?;
    let in_use = ProgramFault::Card(card, DeskFault::InUse);
    let gone = ProgramFault::Card(0, DeskFault::NoProgram);
    expect(rt, "in use", shelf.retire(ids), Err(in_use));
    let released = word_of(&shelf.release(vc));
    expect(rt, "a release", released, "released");
    expect(rt, "no ids", shelf.retire(&[]), Err(ProgramFault::Ids));
    expect(rt, "retired", shelf.retire(ids), Ok(()));
    expect(rt, "gone", shelf.retire(ids), Err(gone));
    Ok(())
}

#[test]
fn a_full_card_keeps_a_program_off_every_card(rt: HostRuntime) -> Result<(), Fail> {
    let mut shelf = Shelf::new(rt.alloc(), shape(), 3)?;
    expect_kept_off(&rt, rt.alloc(), &mut shelf)
}

/// Expects it of a new shelf, whose third card is filled.
fn expect_kept_off(rt: &impl Abort, alloc: Global, shelf: &mut Shelf) -> Result<(), Fail> {
    let before = load_on_all(alloc, shelf)?.len();
    let last = load(shelf, 2, constant(alloc, 1)?)?;
    let refused = refused(alloc, shelf)?;
    let retired = retired_on(shelf, 2, last);
    let after = load_on_all(alloc, shelf)?.len();
    let full = ProgramFault::Card(2, DeskFault::ProgramsFull);
    expect(rt, "the ids", (before, after), (3, 3));
    expect(rt, "a program for all", refused, (full, 1));
    expect(rt, "a retirement", retired, "retired");
    Ok(())
}

/// Why a program isn't loaded on every card, and how many instructions come back.
fn refused(alloc: Global, shelf: &mut Shelf) -> Result<(ProgramFault, usize), Fail> {
    match shelf.load(alloc, constant(alloc, 1)?) {
        Err((fault, program)) => Ok((fault, program.code().len())),
        Ok(_) => Err(Fail::from("loaded")),
    }
}

//! Tests of `card_core`, `card_shelf` and `card_feeds`, and what they share.

mod cards;
mod feeds;
mod shelf;

use arrayvec::ArrayVec;
use bpf_code::Instr;
use bpf_verify::{Program, verify};
use card_core::Ask;
use gen_arena::Id;
use leaky::{Contract, Gcra};
use std::alloc::Global;
use std::test::Fail;
use upc_cell::{Cell, Vc};

/// A cell with this header and a payload of zeros.
fn cell_with(header: &[u8; 4]) -> Cell {
    let mut octets = [0u8; 52];
    octets[..4].copy_from_slice(header);
    Cell::from(octets)
}

/// A program that returns this value for every cell.
fn constant(alloc: Global, value: u32) -> Result<Program, Fail> {
    let code = vec![in alloc; Instr::RetK(value)]?;
    Ok(verify(code)?)
}

/// A connection with one contract: a cell every ten ticks, without tolerance.
fn ask(vc: Vc, program: Id) -> Result<Ask, Fail> {
    let mut contracts = ArrayVec::new();
    contracts.push(Contract::Cbr1(Gcra::new(10, 0)?));
    Ok(Ask {
        vc,
        program,
        contracts,
    })
}

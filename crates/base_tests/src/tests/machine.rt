//! Values and steps of programs on cells.

use crate::tests::expecting::expect;
use crate::tests::instructions::SEPARATION;
use bpf_code::{By, Instr, Op, Size, Test};
use bpf_interp::{Outcome, run};
use bpf_verify::{MOST_LAID_OUT, verify};
use std::alloc::{AllocError, Global};
use std::process::Abort;
use std::test::Fail;
use upc_cell::Cell;

/// A user data cell of VPI 1, VCI 100.
const USER: [u8; 4] = [0x00, 0x10, 0x06, 0x40];

/// An end-to-end OAM cell of the same connection.
const OAM: [u8; 4] = [0x00, 0x10, 0x06, 0x4a];

/// A cell with this header and a payload of zeros that ends with 01 02 03 04.
fn cell_of(header: [u8; 4]) -> Result<Cell, Fail> {
    let mut octets = [0; 52];
    octets[..4].copy_from_slice(&header);
    for last in 1..=4u8 {
        octets[47 + last as usize] = last;
    }
    Ok(Cell::from_bytes(&octets)?)
}

/// Value and steps of a code on the cell with this header.
fn outcome(alloc: Global, code: &[Instr], header: [u8; 4]) -> Result<(u32, u32), Fail> {
    let program = verify(code.to_vec(alloc)?)?;
    let Outcome { value, steps } = run(&program, &cell_of(header)?);
    Ok((value, steps))
}

/// Expects this value and these steps of a code on a user data cell.
fn expect_outcome(
    rt: &impl Abort,
    alloc: Global,
    code: &[Instr],
    wanted: (u32, u32),
) -> Result<(), Fail> {
    let found = outcome(alloc, code, USER)?;
    expect(rt, "value and steps", found, wanted);
    Ok(())
}

fn load(size: Size, k: u32) -> Instr {
    Instr::LoadAbs { size, k }
}

fn alu(op: Op, by: By) -> Instr {
    Instr::Alu { op, by }
}

#[test]
fn a_program_separates_user_data_from_oam(rt: HostRuntime) -> Result<(), Fail> {
    for (header, wanted) in [(USER, (1, 4)), (OAM, (2, 4))] {
        let found = outcome(rt.alloc(), &SEPARATION, header)?;
        expect(&rt, "value and steps", found, wanted);
    }
    Ok(())
}

#[test]
fn loads_end_at_the_end_of_the_cell(rt: HostRuntime) -> Result<(), Fail> {
    for (first, last, expected) in [
        (load(Size::Octet, 52), Instr::RetK(1), (0, 1)),
        (load(Size::Word, 48), Instr::RetA, (16909060, 2)),
        (load(Size::Word, 49), Instr::RetA, (0, 1)),
    ] {
        expect_outcome(&rt, rt.alloc(), &[first, last], expected)?;
    }
    Ok(())
}

#[test]
fn an_offset_by_x_does_not_wrap(rt: HostRuntime) -> Result<(), Fail> {
    let code = [
        Instr::LdxImm(0xffffffff),
        Instr::LoadInd {
            size: Size::Octet,
            k: 1,
        },
        Instr::RetK(7),
    ];
    expect_outcome(&rt, rt.alloc(), &code, (0, 2))
}

#[test]
fn arithmetic_has_its_limits(rt: HostRuntime) -> Result<(), Fail> {
    for op in [Op::Div, Op::Mod] {
        let by_zero = [Instr::LdxImm(0), alu(op, By::X), Instr::RetK(1)];
        expect_outcome(&rt, rt.alloc(), &by_zero, (0, 2))?;
    }
    let word = load(Size::Word, 0);
    let inverted = alu(Op::Xor, By::Imm(u32::MAX));
    for (code, expected) in [
        (
            &[Instr::LoadImm(23), alu(Op::Mod, By::Imm(7)), Instr::RetA][..],
            (2, 3),
        ),
        (
            &[
                Instr::LoadImm(u32::MAX),
                Instr::LdxImm(10),
                alu(Op::Mod, By::X),
                Instr::RetA,
            ][..],
            (5, 4),
        ),
        (&[word, inverted, Instr::RetA][..], (4293917119, 3)),
        (
            &[word, Instr::Tax, alu(Op::Xor, By::X), Instr::RetA][..],
            (0, 4),
        ),
        (
            &[
                Instr::LdxImm(32),
                Instr::LoadImm(1),
                alu(Op::Lsh, By::X),
                Instr::RetA,
            ][..],
            (0, 4),
        ),
        (
            &[Instr::LoadImm(1), Instr::Neg, Instr::RetA][..],
            (4294967295, 3),
        ),
    ] {
        expect_outcome(&rt, rt.alloc(), code, expected)?;
    }
    Ok(())
}

#[test]
fn a_header_length_is_four_times_four_bits(rt: HostRuntime) -> Result<(), Fail> {
    let code = [Instr::LdxMsh(2), Instr::Txa, Instr::RetA];
    expect_outcome(&rt, rt.alloc(), &code, (24, 3))
}

#[test]
fn scratch_words_hold_what_was_stored(rt: HostRuntime) -> Result<(), Fail> {
    let code = [
        Instr::LoadImm(5),
        Instr::Store(15),
        Instr::LdxImm(9),
        Instr::StoreX(0),
        Instr::LdxMem(15),
        Instr::LoadMem(0),
        alu(Op::Sub, By::X),
        Instr::RetA,
    ];
    expect_outcome(&rt, rt.alloc(), &code, (4, 8))?;
    let unreached = [Instr::RetK(0), Instr::LoadMem(3), Instr::RetA];
    expect_outcome(&rt, rt.alloc(), &unreached, (0, 1))
}

/// Equal instructions up to this length, the last replaced by another.
fn ended_by(
    alloc: Global,
    each: Instr,
    length: usize,
    last: Instr,
) -> Result<Vec<Instr>, AllocError> {
    let mut code = [each].repeat(alloc, length)?;
    if let Some(at_end) = code.last_mut() {
        *at_end = last;
    }
    Ok(code)
}

#[test]
fn the_longest_program_takes_a_step_an_instruction(rt: HostRuntime) -> Result<(), Fail> {
    let code = ended_by(rt.alloc(), Instr::Jump(0), 4096, Instr::RetK(7))?;
    expect_outcome(&rt, rt.alloc(), &code, (7, 4096))
}

/// The outcome of a code, and of the same code followed by enough unreachable returns that it isn't laid out.
fn both_ways(alloc: Global, code: &[Instr], header: [u8; 4]) -> Result<[(u32, u32); 2], Fail> {
    let after = [Instr::RetK(0)].repeat(alloc, MOST_LAID_OUT)?;
    let longer = [code, after.as_slice()].concat(alloc)?;
    Ok([
        outcome(alloc, code, header)?,
        outcome(alloc, &longer, header)?,
    ])
}

/// Expects this value and these steps of a code on a user data cell, laid out or not.
fn expect_both_ways(
    rt: &impl Abort,
    alloc: Global,
    code: &[Instr],
    wanted: (u32, u32),
) -> Result<(), Fail> {
    let found = both_ways(alloc, code, USER)?;
    expect(rt, "either way", found, [wanted; 2]);
    Ok(())
}

fn branch(test: Test, k: u32, jt: u8, jf: u8) -> Instr {
    let by = By::Imm(k);
    Instr::Branch { test, by, jt, jf }
}

fn and(k: u32) -> Instr {
    alu(Op::And, By::Imm(k))
}

/// Two instructions before `ret #2` and `ret #1`, and the outcome on a user data cell.
fn pairs() -> [([Instr; 2], (u32, u32)); 11] {
    let half_at_x = Instr::LoadInd {
        size: Size::Half,
        k: 46,
    };
    [
        (
            [load(Size::Word, 0), branch(Test::Eq, 0x00100640, 0, 1)],
            (2, 3),
        ),
        (
            [load(Size::Half, 50), branch(Test::Eq, 0x0304, 0, 1)],
            (2, 3),
        ),
        ([load(Size::Octet, 3), branch(Test::Eq, 0x41, 0, 1)], (1, 3)),
        (
            [load(Size::Half, 50), branch(Test::Set, 0x0100, 1, 0)],
            (1, 3),
        ),
        ([half_at_x, branch(Test::Eq, 0, 0, 1)], (2, 3)),
        ([load(Size::Word, 0), and(0xff00)], (2, 3)),
        ([load(Size::Half, 2), and(0xf)], (2, 3)),
        ([load(Size::Octet, 52), and(0xff)], (0, 1)),
        ([and(0), branch(Test::Eq, 0, 0, 1)], (2, 3)),
        ([and(0), branch(Test::Ge, 1, 0, 1)], (1, 3)),
        ([Instr::LdxImm(9), Instr::Txa], (2, 3)),
    ]
}

/// A code that stores, masks, adds and shifts the last half word of a cell.
fn sums() -> [Instr; 12] {
    [
        load(Size::Half, 50),
        Instr::Store(3),
        Instr::LoadMem(3),
        alu(Op::Rsh, By::Imm(4)),
        and(0xff),
        Instr::Tax,
        Instr::LdxMem(3),
        Instr::LoadMem(3),
        alu(Op::Add, By::X),
        alu(Op::Or, By::Imm(1)),
        alu(Op::Lsh, By::Imm(1)),
        Instr::RetA,
    ]
}

#[test]
fn instructions_run_by_twos_do_what_each_does(rt: HostRuntime) -> Result<(), Fail> {
    for ([first, second], expected) in pairs() {
        let whole = [first, second, Instr::RetK(2), Instr::RetK(1)];
        expect_both_ways(&rt, rt.alloc(), &whole, expected)?;
        let [by_twos, singly] = both_ways(rt.alloc(), &whole, OAM)?;
        expect(&rt, "either way", by_twos, singly);
    }
    let expected = (((0x0304 + 0x0304) | 1) << 1, 12);
    expect_both_ways(&rt, rt.alloc(), &sums(), expected)
}

#[test]
fn the_longest_code_that_is_laid_out_runs_as_a_longer_one(rt: HostRuntime) -> Result<(), Fail> {
    for (length, expected) in [
        (MOST_LAID_OUT, (1022, 512)),
        (MOST_LAID_OUT + 1, (1024, 513)),
    ] {
        let code = ended_by(rt.alloc(), alu(Op::Add, By::Imm(2)), length, Instr::RetA)?;
        expect_outcome(&rt, rt.alloc(), &code, expected)?;
    }
    Ok(())
}

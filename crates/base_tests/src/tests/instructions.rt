//! Every row of the instruction table, encoded and decoded, and octets that spell no instruction.

use crate::tests::expecting::{expect, expect_printed};
use bpf_code::*;
use std::test::Fail;

/// The operand of every instruction in the test of the table.
const K: u32 = 0x01020304;

const IMM: By = By::Imm(K);

fn load_abs(size: Size) -> Instr {
    Instr::LoadAbs { size, k: K }
}

fn load_ind(size: Size) -> Instr {
    Instr::LoadInd { size, k: K }
}

fn alu(op: Op, by: By) -> Instr {
    Instr::Alu { op, by }
}

fn branch(test: Test, by: By) -> Instr {
    Instr::Branch {
        test,
        by,
        jt: 2,
        jf: 255,
    }
}

/// The low octet of each number of the instruction table, and its instruction.
fn table() -> [(u8, Instr); 49] {
    [
        (0x20, load_abs(Size::Word)),
        (0x28, load_abs(Size::Half)),
        (0x30, load_abs(Size::Octet)),
        (0x40, load_ind(Size::Word)),
        (0x48, load_ind(Size::Half)),
        (0x50, load_ind(Size::Octet)),
        (0x00, Instr::LoadImm(K)),
        (0x60, Instr::LoadMem(K)),
        (0x80, Instr::LoadLen),
        (0x01, Instr::LdxImm(K)),
        (0x61, Instr::LdxMem(K)),
        (0x81, Instr::LdxLen),
        (0xb1, Instr::LdxMsh(K)),
        (0x02, Instr::Store(K)),
        (0x03, Instr::StoreX(K)),
        (0x04, alu(Op::Add, IMM)),
        (0x14, alu(Op::Sub, IMM)),
        (0x24, alu(Op::Mul, IMM)),
        (0x34, alu(Op::Div, IMM)),
        (0x44, alu(Op::Or, IMM)),
        (0x54, alu(Op::And, IMM)),
        (0x64, alu(Op::Lsh, IMM)),
        (0x74, alu(Op::Rsh, IMM)),
        (0x94, alu(Op::Mod, IMM)),
        (0xa4, alu(Op::Xor, IMM)),
        (0x0c, alu(Op::Add, By::X)),
        (0x1c, alu(Op::Sub, By::X)),
        (0x2c, alu(Op::Mul, By::X)),
        (0x3c, alu(Op::Div, By::X)),
        (0x4c, alu(Op::Or, By::X)),
        (0x5c, alu(Op::And, By::X)),
        (0x6c, alu(Op::Lsh, By::X)),
        (0x7c, alu(Op::Rsh, By::X)),
        (0x9c, alu(Op::Mod, By::X)),
        (0xac, alu(Op::Xor, By::X)),
        (0x84, Instr::Neg),
        (0x05, Instr::Jump(K)),
        (0x15, branch(Test::Eq, IMM)),
        (0x25, branch(Test::Gt, IMM)),
        (0x35, branch(Test::Ge, IMM)),
        (0x45, branch(Test::Set, IMM)),
        (0x1d, branch(Test::Eq, By::X)),
        (0x2d, branch(Test::Gt, By::X)),
        (0x3d, branch(Test::Ge, By::X)),
        (0x4d, branch(Test::Set, By::X)),
        (0x06, Instr::RetK(K)),
        (0x16, Instr::RetA),
        (0x07, Instr::Tax),
        (0x87, Instr::Txa),
    ]
}

#[test]
fn each_row_of_the_table_is_read_written_and_read_again(rt: HostRuntime) {
    for (code, instr) in table() {
        let read = decode_one(&[0, code, 2, 255, 1, 2, 3, 4]);
        expect(&rt, "read", read, Ok(instr));
        let again = decode_one(&encode_one(instr));
        expect(&rt, "written and read again", again, read);
    }
}

#[test]
fn no_other_code_is_known(rt: HostRuntime) {
    let mut known = 0u32;
    for high in 0..=255u8 {
        for low in 0..=255u8 {
            if decode_one(&[high, low, 0, 0, 0, 0, 0, 0]).is_ok() {
                known = known.saturating_add(1);
            }
        }
    }
    expect(&rt, "the known codes", known, 49);
}

#[test]
fn unused_fields_are_written_as_0(rt: HostRuntime) {
    for (instr, octets) in [
        (Instr::Tax, [0x00, 0x07, 0, 0, 0, 0, 0, 0]),
        (alu(Op::Div, By::X), [0x00, 0x3c, 0, 0, 0, 0, 0, 0]),
        (branch(Test::Set, IMM), [0x00, 0x45, 2, 255, 1, 2, 3, 4]),
    ] {
        expect(&rt, "the octets", encode_one(instr), octets);
    }
}

/// `ldb [3]`, `and #0xe`, `jge #8` with offsets 1 and 0, `ret #1`, `ret #2`
const OCTETS: [u8; 40] = [
    0x00, 0x30, 0x00, 0x00, 0x00, 0x00, 0x00, 0x03, 0x00, 0x54, 0x00, 0x00, 0x00, 0x00, 0x00, 0x0e,
    0x00, 0x35, 0x01, 0x00, 0x00, 0x00, 0x00, 0x08, 0x00, 0x06, 0x00, 0x00, 0x00, 0x00, 0x00, 0x01,
    0x00, 0x06, 0x00, 0x00, 0x00, 0x00, 0x00, 0x02,
];

/// The instructions of these octets. The program gives 1 for user data and 2 for OAM cells.
pub const SEPARATION: [Instr; 5] = [
    Instr::LoadAbs {
        size: Size::Octet,
        k: 3,
    },
    Instr::Alu {
        op: Op::And,
        by: By::Imm(0xe),
    },
    Instr::Branch {
        test: Test::Ge,
        by: By::Imm(8),
        jt: 1,
        jf: 0,
    },
    Instr::RetK(1),
    Instr::RetK(2),
];

#[test]
fn a_program_is_read_and_written_in_order(rt: HostRuntime) -> Result<(), Fail> {
    let code = decode(rt.alloc(), &OCTETS)?;
    expect(&rt, "read", code.as_slice(), SEPARATION.as_slice());
    let octets = encode(rt.alloc(), &SEPARATION)?;
    expect(&rt, "written", octets.as_slice(), OCTETS.as_slice());
    Ok(())
}

/// More octets than a line of 70,000 characters can spell.
const MANY_OCTETS: usize = 80_008;

#[test]
fn a_long_code_is_read_and_written(rt: HostRuntime) -> Result<(), Fail> {
    let octets = vec![in rt.alloc(); 0u8; MANY_OCTETS]?;
    let code = decode(rt.alloc(), &octets)?;
    let loads = vec![in rt.alloc(); Instr::LoadImm(0); 10_001]?;
    assert_eq!(rt; code.as_slice(), loads.as_slice());
    let written = encode(rt.alloc(), &code)?;
    assert_eq!(rt; written.as_slice(), octets.as_slice());
    Ok(())
}

#[test]
fn refused_octets_name_their_fault(rt: HostRuntime) -> Result<(), Fail> {
    let unknown = DecodeFault::UnknownCode {
        at: 1,
        code: 0x000e,
    };
    for (octets, fault) in [
        (&[0; 12][..], DecodeFault::Ragged),
        (
            &[0, 7, 0, 0, 0, 0, 0, 0, 0, 0x0e, 0, 0, 0, 0, 0, 0],
            unknown,
        ),
    ] {
        let found = decode(rt.alloc(), octets).err();
        expect(&rt, "the fault", found, Some(fault));
    }
    Ok(())
}

/// Each error of octets with its text.
const FAULTS: [(DecodeFault, &str); 3] = [
    (DecodeFault::Ragged, "1 Ragged"),
    (
        DecodeFault::UnknownCode {
            at: 1000,
            code: 0x000e,
        },
        "2 UnknownCode 1000 000e",
    ),
    (DecodeFault::NoMemory, "3 NoMemory"),
];

#[test]
fn each_fault_prints_its_number_and_name(rt: HostRuntime) -> Result<(), Fail> {
    expect_printed(&rt, rt.alloc(), &FAULTS)?;
    let full = (EncodeFault::NoMemory, "1 NoMemory");
    expect_printed(&rt, rt.alloc(), &[full])
}

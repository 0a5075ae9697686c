//! Codes at the limits of each rule, with their errors.

use crate::tests::expecting::{expect, expect_printed};
use bpf_code::{By, Instr, Op, Size, Test};
use bpf_verify::*;
use std::alloc::{AllocError, Global};
use std::process::Abort;
use std::test::Fail;

/// `ldb [offset]`
fn load_octet(offset: u32) -> Instr {
    Instr::LoadAbs {
        size: Size::Octet,
        k: offset,
    }
}

/// Arithmetic with a constant or with X
fn alu(op: Op, by: By) -> Instr {
    Instr::Alu { op, by }
}

/// `jeq #number`, skipping `jt` or `jf` instructions
fn jump_if_equal(number: u32, jt: u8, jf: u8) -> Instr {
    Instr::Branch {
        test: Test::Eq,
        by: By::Imm(number),
        jt,
        jf,
    }
}

/// The error of a code, if it is refused.
fn fault_in(code: Vec<Instr>) -> Option<Fault> {
    match verify(code) {
        Ok(_) => None,
        Err(Refused { fault, code: _ }) => Some(fault),
    }
}

/// The error of a code and the returned code, if it is refused.
fn refused(code: Vec<Instr>) -> Option<(Fault, Vec<Instr>)> {
    match verify(code) {
        Ok(_) => None,
        Err(Refused { fault, code }) => Some((fault, code)),
    }
}

/// Expects that a code is refused with this error, and returned.
fn assert_refused(
    rt: &impl Abort,
    alloc: Global,
    code: &[Instr],
    wanted: Fault,
) -> Result<(), Fail> {
    let (fault, back) = refused(code.to_vec(alloc)?).ok_or("a faulty code is accepted")?;
    expect(rt, "the fault", fault, wanted);
    expect(rt, "the code", back.as_slice(), code);
    Ok(())
}

/// One instruction, followed by a number of equal instructions.
fn before(
    alloc: Global,
    first: Instr,
    other: Instr,
    others: usize,
) -> Result<Vec<Instr>, AllocError> {
    let others = [other].repeat(alloc, others)?;
    [&[first][..], others.as_slice()].concat(alloc)
}

fn is_shared<T: Send + Sync>() {}

#[test]
fn a_program_may_pass_between_threads() {
    is_shared::<Program>();
}

/// Each error with its text.
const FAULTS: [(Fault, &str); 8] = [
    (Fault::Empty, "1 Empty"),
    (Fault::TooLong, "2 TooLong"),
    (Fault::BadScratch { at: 4095 }, "3 BadScratch 4095"),
    (Fault::ZeroDivisor { at: 10 }, "4 ZeroDivisor 10"),
    (Fault::BadShift { at: 1 }, "5 BadShift 1"),
    (Fault::JumpOutside { at: 0 }, "6 JumpOutside 0"),
    (Fault::NoReturn, "7 NoReturn"),
    (Fault::Unwritten { at: 2, word: 15 }, "8 Unwritten 2 15"),
];

/// The text of a refusal for this error.
fn text_of_refusal(alloc: Global, fault: Fault) -> Result<String, AllocError> {
    let code = Vec::new(alloc);
    let refused = Refused { code, fault };
    format!(in alloc; "{refused}")
}

#[test]
fn each_fault_prints_its_number_and_name(rt: HostRuntime) -> Result<(), Fail> {
    expect_printed(&rt, rt.alloc(), &FAULTS)?;
    for (fault, line) in FAULTS {
        let text = text_of_refusal(rt.alloc(), fault)?;
        expect(&rt, "a refusal", text.as_str(), line);
    }
    Ok(())
}

#[test]
fn each_fault_of_an_instruction_has_its_place(rt: HostRuntime) -> Result<(), Fail> {
    let divided = alu(Op::Div, By::Imm(0));
    for (code, fault) in [
        // The first bad instruction decides, before the return at the end is checked.
        ([Instr::LoadMem(16), divided], Fault::BadScratch { at: 0 }),
        ([divided, Instr::RetK(1)], Fault::ZeroDivisor { at: 0 }),
        (
            [alu(Op::Mod, By::Imm(0)), Instr::RetK(1)],
            Fault::ZeroDivisor { at: 0 },
        ),
        (
            [alu(Op::Lsh, By::Imm(32)), Instr::RetA],
            Fault::BadShift { at: 0 },
        ),
        (
            [jump_if_equal(0, 1, 0), Instr::RetK(1)],
            Fault::JumpOutside { at: 0 },
        ),
        // A jump outside decides before the return at the end is checked.
        (
            [load_octet(0), Instr::Jump(0)],
            Fault::JumpOutside { at: 1 },
        ),
    ] {
        assert_refused(&rt, rt.alloc(), &code, fault)?;
    }
    Ok(())
}

#[test]
fn each_fault_of_a_code_is_found(rt: HostRuntime) -> Result<(), Fail> {
    let either_way = jump_if_equal(0, 0, 1);
    for (code, fault) in [
        (&[][..], Fault::Empty),
        (&[load_octet(0)], Fault::NoReturn),
        (
            &[either_way, Instr::Store(0), Instr::LoadMem(0), Instr::RetA],
            Fault::Unwritten { at: 2, word: 0 },
        ),
        // Of two reads of words that no path stores, the first is reported.
        (
            &[Instr::LoadMem(3), Instr::LoadMem(1), Instr::RetA],
            Fault::Unwritten { at: 0, word: 3 },
        ),
        (
            &[
                Instr::Store(2),
                Instr::LdxMem(9),
                Instr::LoadMem(1),
                Instr::RetA,
            ],
            Fault::Unwritten { at: 1, word: 9 },
        ),
    ] {
        assert_refused(&rt, rt.alloc(), code, fault)?;
    }
    let long = before(rt.alloc(), Instr::RetK(1), Instr::RetK(1), 4096)?;
    assert_refused(&rt, rt.alloc(), &long, Fault::TooLong)
}

#[test]
fn accepted_codes_are_handed_through(rt: HostRuntime) -> Result<(), Fail> {
    let either_way = jump_if_equal(0x4a, 0, 1);
    for code in [
        &[load_octet(3), either_way, Instr::RetK(2), Instr::RetK(1)][..],
        // No path reaches the read after the first return, so it isn't checked.
        &[Instr::RetK(0), Instr::LoadMem(3), Instr::RetA],
        // Division by X is checked only when the program runs.
        &[Instr::LdxImm(0), alu(Op::Div, By::X), Instr::RetK(1)],
        &[Instr::LdxImm(0), alu(Op::Mod, By::X), Instr::RetK(1)],
        &[
            alu(Op::Mod, By::Imm(7)),
            alu(Op::Xor, By::Imm(0)),
            Instr::RetA,
        ],
    ] {
        assert_accepted(&rt, code.to_vec(rt.alloc())?)?;
    }
    Ok(())
}

/// Expects that a code is accepted, and handed through.
fn assert_accepted(rt: &impl Abort, code: Vec<Instr>) -> Result<(), Fail> {
    let copy = code.clone()?;
    match verify(code) {
        Ok(program) => assert_eq!(rt; program.code(), copy.as_slice()),
        Err(refused) => assert!(rt; false, "refused: {refused}"),
    }
    Ok(())
}

#[test]
fn jumps_reach_as_far_as_the_code(rt: HostRuntime) -> Result<(), Fail> {
    let outside = Some(Fault::JumpOutside { at: 0 });
    for (first, returns, fault) in [
        (jump_if_equal(0, 255, 0), 256, None),
        (jump_if_equal(0, 255, 0), 255, outside),
        (Instr::Jump(u32::MAX), 1, outside),
    ] {
        let code = before(rt.alloc(), first, Instr::RetK(1), returns)?;
        let found = (returns, fault_in(code));
        expect(&rt, "before this many returns", found, (returns, fault));
    }
    Ok(())
}

#[test]
fn the_longest_code_has_4096_instructions(rt: HostRuntime) -> Result<(), Fail> {
    for (jumps, fault) in [(4095, None), (4096, Some(Fault::TooLong))] {
        let mut code = [Instr::Jump(0)].repeat(rt.alloc(), jumps)?;
        code.push(Instr::RetK(7))?;
        let found = (jumps, fault_in(code));
        expect(&rt, "after this many jumps", found, (jumps, fault));
    }
    Ok(())
}

/// A store of word 15, a thousand branches that may each skip a store of word 0, and a read.
fn ladder(alloc: Global, read: u32) -> Result<Vec<Instr>, AllocError> {
    let branch = Instr::Branch {
        test: Test::Set,
        by: By::Imm(1),
        jt: 0,
        jf: 1,
    };
    let rungs = [branch, Instr::Store(0)].repeat(alloc, 1000)?;
    let ends = [Instr::LoadMem(read), Instr::RetA];
    [&[Instr::Store(15)][..], rungs.as_slice(), &ends].concat(alloc)
}

#[test]
fn a_word_is_written_where_every_path_stores_it(rt: HostRuntime) -> Result<(), Fail> {
    let alloc = rt.alloc();
    let missing = Fault::Unwritten { at: 2001, word: 0 };
    for (word, fault) in [(15, None), (0, Some(missing))] {
        let found = (word, fault_in(ladder(alloc, word)?));
        expect(&rt, "a read of this word", found, (word, fault));
    }
    Ok(())
}

//! Listings of codes.

use crate::tests::expecting::{expect, expect_printed};
use bpf_asm::{assemble, listing};
use bpf_code::{Instr, decode_one};
use std::alloc::Global;
use std::process::Abort;
use std::test::Fail;

/// Codes, and their listings or the first jump outside.
const LISTINGS: [(&str, &str); 14] = [
    ("", ""),
    ("0016000000000000", "L0: ret a\n"),
    (
        "0005000000000000 0016000000000000",
        "L0: ja L1\nL1: ret a\n",
    ),
    (
        "0045000100000007 0087000000000000 0016000000000000",
        "L0: jset #7, L1, L2\nL1: txa\nL2: ret a\n",
    ),
    (
        "00480000ffffffff 00b100000000000e 0081000000000000",
        "L0: ldh [x+4294967295]\nL1: ldxb 4*([14]&0xf)\nL2: ldx #len\n",
    ),
    ("0005000000000000", "1 JumpOutside 0"),
    ("0005000000000001 0016000000000000", "1 JumpOutside 0"),
    ("00050000ffffffff 0016000000000000", "1 JumpOutside 0"),
    (
        "0005000000000000 0005000000000001 00050000ffffffff",
        "1 JumpOutside 1",
    ),
    (
        "001d000000000000 0016000000000000",
        "L0: jeq x, L1, L1\nL1: ret a\n",
    ),
    ("001d010000000000 0016000000000000", "1 JumpOutside 0"),
    ("001d000100000000 0016000000000000", "1 JumpOutside 0"),
    (
        "0084000000000000 001d000100000000 0016000000000000",
        "1 JumpOutside 1",
    ),
    (
        "0016000000000000 0016000000000000 001dffff00000000",
        "1 JumpOutside 2",
    ),
];

/// A rule on the payload type of cells, as written by hand.
const BY_PAYLOAD_TYPE: &[u8] = b"ldb [3]
and #0xe
jge #8, oam, data ; maintenance cells
data: ret #1
oam: ret #2
";

/// The octets of that rule.
const ITS_OCTETS: &str =
    "0030000000000003 005400000000000e 0035010000000008 0006000000000001 0006000000000002";

/// Its listing.
const ITS_LISTING: &str = "L0: ldb [3]\nL1: and #14\nL2: jge #8, L4, L3\nL3: ret #1\nL4: ret #2\n";

/// The instruction of these digits.
fn instr_of(word: &str) -> Option<Instr> {
    let octets = u64::from_str_radix(word, 16).ok()?;
    decode_one(&octets.to_be_bytes()).ok()
}

/// The instructions of these words of digits.
fn code_of(alloc: Global, digits: &str) -> Result<Vec<Instr>, Fail> {
    let mut code = Vec::new(alloc);
    for word in digits.split_whitespace() {
        let instr = instr_of(word).ok_or("an unknown code")?;
        code.push(instr)?;
    }
    Ok(code)
}

/// Expects this listing of a code, or this error.
fn expect_listing(rt: &impl Abort, alloc: Global, digits: &str, answer: &str) -> Result<(), Fail> {
    let code = code_of(alloc, digits)?;
    match listing(alloc, &code) {
        Ok(text) => expect(rt, digits, text.as_slice(), answer.as_bytes()),
        Err(fault) => expect_printed(rt, alloc, &[(fault, answer)])?,
    }
    Ok(())
}

/// Expects that a source means this code.
fn expect_code(rt: &impl Abort, alloc: Global, source: &[u8], digits: &str) -> Result<(), Fail> {
    let code = assemble(alloc, source)?;
    let wanted = code_of(alloc, digits)?;
    expect(rt, "the code", code.as_slice(), wanted.as_slice());
    Ok(())
}

#[test]
fn a_listing_labels_each_line_by_its_place(rt: HostRuntime) -> Result<(), Fail> {
    expect_code(&rt, rt.alloc(), BY_PAYLOAD_TYPE, ITS_OCTETS)?;
    expect_listing(&rt, rt.alloc(), ITS_OCTETS, ITS_LISTING)
}

#[test]
fn a_code_has_its_listing_or_its_first_jump_outside(rt: HostRuntime) -> Result<(), Fail> {
    for (digits, answer) in LISTINGS {
        expect_listing(&rt, rt.alloc(), digits, answer)?;
    }
    Ok(())
}

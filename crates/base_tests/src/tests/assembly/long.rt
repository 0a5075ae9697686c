//! A source of many lines.

use crate::tests::expecting::expect;
use bpf_asm::{assemble, listing};
use bpf_code::Instr;
use std::alloc::{AllocError, Global};
use std::process::Abort;
use std::test::Fail;

/// The number of instructions without labels.
const PLAIN: u32 = 65536;

/// A jump over all of them, these instructions with blank lines and comments between, and a return.
fn long_source(alloc: Global) -> Result<Vec<u8>, AllocError> {
    let plain = "tax\n\n; nothing\n".repeat(alloc, PLAIN as usize)?;
    Ok(
        ["ja end\n", plain.as_str(), "end: ret a"]
            .concat(alloc)?
            .into_bytes(),
    )
}

/// Expects the code of that source: this number of instructions, the jump first, the return last.
fn expect_long(rt: &impl Abort, code: &[Instr]) {
    expect(rt, "the instructions", code.len(), PLAIN as usize + 2);
    let first = Some(Instr::Jump(PLAIN));
    expect(rt, "the first", code.first().copied(), first);
    expect(rt, "the last", code.last().copied(), Some(Instr::RetA));
}

#[test]
fn a_long_source_is_assembled_and_listed(rt: HostRuntime) -> Result<(), Fail> {
    let source = long_source(rt.alloc())?;
    let code = assemble(rt.alloc(), &source)?;
    expect_long(&rt, &code);
    let text = listing(rt.alloc(), &code)?;
    let again = assemble(rt.alloc(), &text)?;
    assert_eq!(rt; again.as_slice(), code.as_slice());
    Ok(())
}

//! The texts of all errors.

use crate::tests::expecting::expect_printed;
use bpf_asm::{AsmFault, AsmKind, ListFault};
use std::test::Fail;

/// Each kind of error in a source, with its text.
const KINDS: [(AsmKind, &str); 8] = [
    (AsmKind::BadLine, "1 BadLine"),
    (AsmKind::BadNumber, "2 BadNumber"),
    (AsmKind::LabelTwice, "3 LabelTwice"),
    (AsmKind::UnknownLabel, "4 UnknownLabel"),
    (AsmKind::Backward, "5 Backward"),
    (AsmKind::TooFar, "6 TooFar"),
    (AsmKind::DanglingLabel, "7 DanglingLabel"),
    (AsmKind::NoMemory, "8 NoMemory"),
];

/// Errors in sources, with their lines.
const FAULTS: [(AsmFault, &str); 3] = [
    (
        AsmFault {
            line: 0,
            kind: AsmKind::NoMemory,
        },
        "8 NoMemory 0",
    ),
    (
        AsmFault {
            line: 1,
            kind: AsmKind::BadLine,
        },
        "1 BadLine 1",
    ),
    (
        AsmFault {
            line: 1048576,
            kind: AsmKind::TooFar,
        },
        "6 TooFar 1048576",
    ),
];

/// Errors in codes.
const LIST_FAULTS: [(ListFault, &str); 3] = [
    (ListFault::JumpOutside(0), "1 JumpOutside 0"),
    (ListFault::JumpOutside(4095), "1 JumpOutside 4095"),
    (ListFault::NoMemory, "2 NoMemory"),
];

#[test]
fn each_kind_has_its_text(rt: HostRuntime) -> Result<(), Fail> {
    expect_printed(&rt, rt.alloc(), &KINDS)
}

#[test]
fn a_fault_of_a_source_has_its_line(rt: HostRuntime) -> Result<(), Fail> {
    expect_printed(&rt, rt.alloc(), &FAULTS)
}

#[test]
fn each_fault_of_a_code_has_its_text(rt: HostRuntime) -> Result<(), Fail> {
    expect_printed(&rt, rt.alloc(), &LIST_FAULTS)
}

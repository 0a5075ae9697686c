//! Each fault line is `fault`, the part that found the error, and the error as its own crate prints it.

use bpf_asm::{AsmFault, AsmKind};
use bpf_code::DecodeFault;
use bpf_verify::Fault;
use cmd_programs::{add_asm_fault, add_decode_fault, add_verify_fault};
use std::process::Abort;
use std::string::String;
use std::test::Fail;

/// Expects that the answers are this line.
fn expect(rt: &impl Abort, answers: &Vec<u8>, line: &String) {
    assert_eq!(rt; answers.as_slice(), line.as_bytes());
}

#[test]
fn a_fault_of_octets_is_printed_as_itself(rt: HostRuntime) -> Result<(), Fail> {
    let unknown = DecodeFault::UnknownCode { at: 3, code: 0xb4 };
    for fault in [DecodeFault::Ragged, unknown] {
        let mut answers = Vec::new(rt.alloc());
        add_decode_fault(&mut answers, fault)?;
        let line = format!(in rt.alloc(); "fault decode {fault}\n")?;
        expect(&rt, &answers, &line);
    }
    Ok(())
}

#[test]
fn a_fault_of_a_code_is_printed_as_itself(rt: HostRuntime) -> Result<(), Fail> {
    for fault in [
        Fault::Empty,
        Fault::TooLong,
        Fault::BadScratch { at: 1 },
        Fault::ZeroDivisor { at: 2 },
        Fault::BadShift { at: 3 },
        Fault::JumpOutside { at: 4 },
        Fault::NoReturn,
        Fault::Unwritten { at: 5, word: 15 },
    ] {
        let mut answers = Vec::new(rt.alloc());
        add_verify_fault(&mut answers, fault)?;
        let line = format!(in rt.alloc(); "fault verify {fault}\n")?;
        expect(&rt, &answers, &line);
    }
    Ok(())
}

#[test]
fn a_fault_of_a_source_is_printed_as_itself(rt: HostRuntime) -> Result<(), Fail> {
    for kind in [
        AsmKind::BadLine,
        AsmKind::BadNumber,
        AsmKind::LabelTwice,
        AsmKind::UnknownLabel,
        AsmKind::Backward,
        AsmKind::TooFar,
        AsmKind::DanglingLabel,
        AsmKind::NoMemory,
    ] {
        let fault = AsmFault { line: 7, kind };
        let mut answers = Vec::new(rt.alloc());
        add_asm_fault(&mut answers, fault)?;
        let line = format!(in rt.alloc(); "fault asm {fault}\n")?;
        expect(&rt, &answers, &line);
    }
    Ok(())
}

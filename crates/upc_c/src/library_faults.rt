//! The errors of the libraries below, as C gets them.

ghost use Rattle.std.specs.Prelude.{◌≡◌};
ghost use Rattle.upc_c.specs.LibraryFaults.{asm_fault_for_c, check_fault_for_c, decode_fault_for_c, list_fault_for_c, rule_fault_for_c};
ghost use Rattle.upc_c.specs.inner.Numbered.{IsNumbered};

use crate::fault::{
    OF_ASSEMBLY, OF_DECODING, OF_RULES, OF_THE_CHECK, UpcFault, fault_at, out_of_memory,
};
use bpf_asm::{AsmFault, AsmKind, ListFault};
use bpf_code::DecodeFault;
use bpf_verify::Fault;
use rules_text::{RuleFault, RuleFaultKind};

/// Returns the error for C of octets that are no code.
pub(crate) fn decode_fault_for_c(found: DecodeFault) -> UpcFault
    ensures fault { result ≡ decode_fault_for_c found }
    ensures numbered { IsNumbered result }
{
    match found {
        DecodeFault::Ragged => fault_at(OF_DECODING, 1, 0),
        DecodeFault::UnknownCode { at, code } => UpcFault {
            code: u32::from(code),
            ..fault_at(OF_DECODING, 2, at)
        },
        DecodeFault::NoMemory => out_of_memory(),
    }
}

/// Returns the error for C of a source that means no code.
pub(crate) fn asm_fault_for_c(found: AsmFault) -> UpcFault
    ensures fault { result ≡ asm_fault_for_c found }
    ensures numbered { IsNumbered result }
{
    match found.kind {
        AsmKind::NoMemory => out_of_memory(),
        // The kinds have their numbers from 1 on, in order.
        kind => fault_at(OF_ASSEMBLY, kind as u32 + 1, found.line),
    }
}

/// Returns the error for C of a code that is no program.
pub(crate) fn check_fault_for_c(found: Fault) -> UpcFault
    ensures fault { result ≡ check_fault_for_c found }
    ensures numbered { IsNumbered result }
{
    match found {
        Fault::Empty => fault_at(OF_THE_CHECK, 1, 0),
        Fault::TooLong => fault_at(OF_THE_CHECK, 2, 0),
        Fault::BadScratch { at } => fault_at(OF_THE_CHECK, 3, at),
        Fault::ZeroDivisor { at } => fault_at(OF_THE_CHECK, 4, at),
        Fault::BadShift { at } => fault_at(OF_THE_CHECK, 5, at),
        Fault::JumpOutside { at } => fault_at(OF_THE_CHECK, 6, at),
        Fault::NoReturn => fault_at(OF_THE_CHECK, 7, 0),
        Fault::Unwritten { at, word } => UpcFault {
            word,
            ..fault_at(OF_THE_CHECK, 8, at)
        },
    }
}

/// Returns the error for C of a code without a listing.
pub(crate) fn list_fault_for_c(found: ListFault) -> UpcFault
    ensures fault { result ≡ list_fault_for_c found }
    ensures numbered { IsNumbered result }
{
    match found {
        ListFault::JumpOutside(at) => fault_at(OF_THE_CHECK, 6, at),
        ListFault::NoMemory => out_of_memory(),
    }
}

/// Returns the error for C of a text of rules.
pub(crate) fn rule_fault_for_c(found: RuleFault) -> UpcFault
    ensures fault { result ≡ rule_fault_for_c found }
    ensures numbered { IsNumbered result }
{
    let number = match found.kind {
        RuleFaultKind::BadLine => 1,
        RuleFaultKind::BadNumber => 2,
        RuleFaultKind::TooLarge => 3,
        RuleFaultKind::OutsideCell => 4,
        RuleFaultKind::AfterOtherwise => 5,
        RuleFaultKind::Unbalanced => 6,
        RuleFaultKind::TooDeep => 7,
        RuleFaultKind::TooLong => 8,
        RuleFaultKind::NoMemory => return out_of_memory(),
        RuleFaultKind::UnknownName => 10,
        RuleFaultKind::NameTaken => 11,
    };
    UpcFault {
        column: found.column,
        ..fault_at(OF_RULES, number, found.line)
    }
}

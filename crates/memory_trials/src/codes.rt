//! Codes: decoding, encoding, assembling and listing. Few functions here have a contract, since they are a test.

use crate::trial::{Attempt, Call, ample_if, refused_if, try_out};
use bpf_asm::{AsmKind, ListFault, assemble, listing};
use bpf_code::{DecodeFault, EncodeFault, Instr, decode, encode};
use std::alloc::Global;

/// The octets of `tax` and `ret #1`.
const OCTETS: [u8; 16] = [0, 7, 0, 0, 0, 0, 0, 0, 0, 6, 0, 0, 0, 0, 0, 1];

/// A source with a label and a jump to it.
const SOURCE: &[u8; 37] = b"  ja end ; over one\n  tax\nend: ret #1";

/// The code of that source.
const ASSEMBLED: [Instr; 3] = [Instr::Jump(1), Instr::Tax, Instr::RetK(1)];

/// The listing of that code.
const LISTING: &[u8; 29] = b"L0: ja L2\nL1: tax\nL2: ret #1\n";

#[derive(Drop)]
struct Decoding {
    alloc: Global,
}

impl Call for Decoding {
    fn make(&mut self) -> Attempt {
        match decode(self.alloc, &OCTETS) {
            Ok(code) => ample_if(code.as_slice() == [Instr::Tax, Instr::RetK(1)].as_slice()),
            Err(DecodeFault::NoMemory) => Attempt::Refused,
            Err(_) => Attempt::Otherwise,
        }
    }
}

/// `decode`.
pub fn try_decode(alloc: Global) -> Attempt {
    try_out(&mut Decoding { alloc })
}

#[derive(Drop)]
struct Encoding {
    alloc: Global,
}

impl Call for Encoding {
    fn make(&mut self) -> Attempt {
        match encode(self.alloc, &[Instr::Tax, Instr::RetK(1)]) {
            Ok(octets) => ample_if(octets.as_slice() == OCTETS.as_slice()),
            Err(EncodeFault::NoMemory) => Attempt::Refused,
        }
    }
}

/// `encode`.
pub fn try_encode(alloc: Global) -> Attempt {
    try_out(&mut Encoding { alloc })
}

#[derive(Drop)]
struct Assembling {
    alloc: Global,
}

impl Call for Assembling {
    fn make(&mut self) -> Attempt {
        match assemble(self.alloc, SOURCE) {
            Ok(code) => ample_if(code.as_slice() == ASSEMBLED.as_slice()),
            Err(fault) => refused_if(fault.kind == AsmKind::NoMemory),
        }
    }
}

/// `assemble`.
pub fn try_assemble(alloc: Global) -> Attempt {
    try_out(&mut Assembling { alloc })
}

#[derive(Drop)]
struct Listing {
    alloc: Global,
}

impl Call for Listing {
    fn make(&mut self) -> Attempt {
        match listing(self.alloc, &ASSEMBLED) {
            Ok(text) => ample_if(text.as_slice() == LISTING.as_slice()),
            Err(ListFault::NoMemory) => Attempt::Refused,
            Err(_) => Attempt::Otherwise,
        }
    }
}

/// `listing`.
pub fn try_listing(alloc: Global) -> Attempt {
    try_out(&mut Listing { alloc })
}

//! Encoding.

ghost use Rattle.std.specs.Prelude.{◌≡◌, ◌≤◌, ◌+◌, ℕ, unwrap_or, IfOk};
ghost use Rattle.bpf_code.specs.Encoding.{octets_of_instr, code_octets};
ghost use Rattle.bpf_code.specs.OctetSpelling.{Spells, SpellsPlainly, UnusedAreZero};
ghost use Rattle.bpf_code.specs.Table.{code_of, jt_of, jf_of, k_of};

use crate::instr::By::{self, Imm, X};
use crate::instr::{Instr, Op, Size, Test};
use byteorder::{BigEndian, ByteOrder};
use std::alloc::Global;
use thiserror::Error;

/// The fields of an instruction. Those that it doesn't use are 0.
struct Fields {
    code: u16,
    jt: u8,
    jf: u8,
    k: u32,
}

/// The bits that the size adds to the code of a load.
fn size_bits(size: Size) -> u16
    ensures absolute { (k : ℕ) → code_of (Instr.LoadAbs size k) ≡ 0x0020 + result }
    ensures indirect { (k : ℕ) → code_of (Instr.LoadInd size k) ≡ 0x0040 + result }
    ensures small { result ≤ 0x10 }
{
    match size {
        Size::Word => 0x00,
        Size::Half => 0x08,
        Size::Octet => 0x10,
    }
}

/// The bits that the operation adds to the code of arithmetic.
fn op_bits(op: Op) -> u16
    ensures by_constant { (k : ℕ) → code_of (Instr.Alu op (By.Imm k)) ≡ 0x0004 + result }
    ensures by_x { code_of (Instr.Alu op By.X) ≡ 0x000c + result }
    ensures small { result ≤ 0xa0 }
{
    match op {
        Op::Add => 0x00,
        Op::Sub => 0x10,
        Op::Mul => 0x20,
        Op::Div => 0x30,
        Op::Or => 0x40,
        Op::And => 0x50,
        Op::Lsh => 0x60,
        Op::Rsh => 0x70,
        Op::Mod => 0x90,
        Op::Xor => 0xa0,
    }
}

/// The bits that the test adds to the code of a branch.
fn test_bits(test: Test) -> u16
    ensures by_constant { (k jt jf : ℕ) → code_of (Instr.Branch test (By.Imm k) jt jf) ≡ 0x0005 + result }
    ensures by_x { (jt jf : ℕ) → code_of (Instr.Branch test By.X jt jf) ≡ 0x000d + result }
    ensures small { result ≤ 0x40 }
{
    match test {
        Test::Eq => 0x10,
        Test::Gt => 0x20,
        Test::Ge => 0x30,
        Test::Set => 0x40,
    }
}

impl Fields {
    /// The fields of an instruction that has a code alone.
    fn plain(code: u16) -> Fields
        ensures { result ≡ record { code = code; jt = 0; jf = 0; k = 0 } }
    {
        Fields::with_k(code, 0)
    }

    /// The fields of an instruction that has a code and an operand.
    fn with_k(code: u16, k: u32) -> Fields
        ensures { result ≡ record { code = code; jt = 0; jf = 0; k = k } }
    {
        Fields {
            code,
            jt: 0,
            jf: 0,
            k,
        }
    }

    /// The fields of arithmetic.
    fn of_arithmetic(op: Op, by: By) -> Fields
        ensures code { result.code ≡ code_of (Instr.Alu op by) }
        ensures jt { result.jt ≡ 0 }
        ensures jf { result.jf ≡ 0 }
        ensures k { result.k ≡ unwrap_or (k_of (Instr.Alu op by)) 0 }
    {
        match by {
            Imm(k) => Fields::with_k(0x0004 + op_bits(op), k),
            X => Fields::plain(0x000c + op_bits(op)),
        }
    }

    /// The fields of a branch.
    fn of_branch(test: Test, by: By, jt: u8, jf: u8) -> Fields
        ensures code { result.code ≡ code_of (Instr.Branch test by jt jf) }
        ensures jt { result.jt ≡ jt }
        ensures jf { result.jf ≡ jf }
        ensures k { result.k ≡ unwrap_or (k_of (Instr.Branch test by jt jf)) 0 }
    {
        let (code, k) = match by {
            Imm(k) => (0x0005 + test_bits(test), k),
            X => (0x000d + test_bits(test), 0),
        };
        Fields { code, jt, jf, k }
    }

    /// The fields of an instruction, by the instruction table.
    fn of(instr: Instr) -> Fields
        ensures code { result.code ≡ code_of instr }
        ensures jt { result.jt ≡ unwrap_or (jt_of instr) 0 }
        ensures jf { result.jf ≡ unwrap_or (jf_of instr) 0 }
        ensures k { result.k ≡ unwrap_or (k_of instr) 0 }
    {
        match instr {
            Instr::LoadAbs { size, k } => Fields::with_k(0x0020 + size_bits(size), k),
            Instr::LoadInd { size, k } => Fields::with_k(0x0040 + size_bits(size), k),
            Instr::LoadImm(k) => Fields::with_k(0x0000, k),
            Instr::LoadMem(k) => Fields::with_k(0x0060, k),
            Instr::LoadLen => Fields::plain(0x0080),
            Instr::LdxImm(k) => Fields::with_k(0x0001, k),
            Instr::LdxMem(k) => Fields::with_k(0x0061, k),
            Instr::LdxLen => Fields::plain(0x0081),
            Instr::LdxMsh(k) => Fields::with_k(0x00b1, k),
            Instr::Store(k) => Fields::with_k(0x0002, k),
            Instr::StoreX(k) => Fields::with_k(0x0003, k),
            Instr::Alu { op, by } => Fields::of_arithmetic(op, by),
            Instr::Neg => Fields::plain(0x0084),
            Instr::Jump(k) => Fields::with_k(0x0005, k),
            Instr::Branch { test, by, jt, jf } => Fields::of_branch(test, by, jt, jf),
            Instr::RetK(k) => Fields::with_k(0x0006, k),
            Instr::RetA => Fields::plain(0x0016),
            Instr::Tax => Fields::plain(0x0007),
            Instr::Txa => Fields::plain(0x0087),
        }
    }
}

/// Encodes one instruction. Fields that it doesn't use are 0.
pub fn encode_one(instr: Instr) -> [u8; 8]
    ensures spells { Spells result instr }
    ensures unused { UnusedAreZero result instr }
    ensures octets { result ≡ octets_of_instr instr }
{
    let Fields { code, jt, jf, k } = Fields::of(instr);
    let mut octets = [0, 0, jt, jf, 0, 0, 0, 0];
    BigEndian::write_u16(&mut octets, code);
    BigEndian::write_u32(&mut octets[4..], k);
    octets
}

/// Why a code could not be encoded.
#[derive(Clone, Copy, Debug, PartialEq, Eq, Error)]
pub enum EncodeFault {
    /// An allocation failed.
    #[error("1 NoMemory")]
    NoMemory,
}

/// Encodes a code, eight octets an instruction. Fields that an instruction doesn't use are 0.
///
/// # Errors
///
/// `NoMemory` if an allocation fails.
pub fn encode(alloc: Global, code: &[Instr]) -> Result<Vec<u8>, EncodeFault>
    ensures spells { IfOk result (λ octets. SpellsPlainly octets.items code.now) }
    ensures octets { IfOk result (λ octets. octets.items ≡ code_octets code.now) }
{
    let mut octets = Vec::with_capacity(alloc, 8 * code.len()).map_err(|_| EncodeFault::NoMemory)?;
    for instr in code {
        let Ok(()) = octets.extend_from_slice(&encode_one(*instr)) else {
            return Err(EncodeFault::NoMemory);
        };
    }
    Ok(octets)
}

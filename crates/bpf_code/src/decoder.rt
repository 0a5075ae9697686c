//! Decoding.

ghost use Rattle.std.specs.Prelude.{◌≡◌, ◌≢◌, ◌↔◌, ◌<◌, ◌%◌, ◌⊎◌, ℕ, List, length, IfErr, IfNone, IfOk, IfSome, OnErr};
ghost use Rattle.std.specs.Result.{IsOkUnless};
ghost use Rattle.bpf_code.specs.Decoding.{IsDecodeFault};
ghost use Rattle.bpf_code.specs.Fields.{instr_code};
ghost use Rattle.bpf_code.specs.OctetSpelling.{IsFirstUnknown, Spells, SpellsCode};
ghost use Rattle.bpf_code.specs.Table.{code_of};
ghost use Rattle.bpf_code.specs.declared.instr.By.{By};
ghost use Rattle.bpf_code.specs.declared.instr.Instr.{Instr};
ghost use Rattle.bpf_code.specs.declared.instr.Op.{Op};
ghost use Rattle.bpf_code.specs.declared.instr.Test.{Test};

use crate::instr::By::{Imm, X};
use crate::instr::Instr;
use crate::instr::Op::{Add, And, Div, Lsh, Mod, Mul, Or, Rsh, Sub, Xor};
use crate::instr::Size::{Half, Octet, Word};
use crate::instr::Test::{Eq, Ge, Gt, Set};
use byteorder::{BigEndian, ByteOrder};
use std::alloc::Global;
use thiserror::Error;

/// Why octets are not a code.
#[derive(Clone, Copy, Debug, PartialEq, Eq, Error)]
pub enum DecodeFault {
    /// The number of octets is not a multiple of 8.
    #[error("1 Ragged")]
    Ragged,
    /// The first eight octets that spell no instruction: their place, in instructions from 0, and the number in the
    /// first two of them.
    #[error("2 UnknownCode {at} {code:04x}")]
    UnknownCode { at: usize, code: u16 },
    /// An allocation failed.
    #[error("3 NoMemory")]
    NoMemory,
}

/// Decodes arithmetic and branches, by the instruction table. Returns None for any other code.
fn operation(octets: &[u8; 8]) -> Option<Instr>
    ensures spelled { IfSome result (λ i. Spells octets.now i) }
    ensures no_arithmetic { IfNone result ((op : Op) (by : By) → code_of (Instr.Alu op by) ≢ instr_code octets.now) }
    ensures no_branch { IfNone result ((test : Test) (by : By) (jt jf : ℕ) →
        code_of (Instr.Branch test by jt jf) ≢ instr_code octets.now) }
{
    let (jt, jf) = (octets[2], octets[3]);
    let imm = Imm(BigEndian::read_u32(&octets[4..]));
    let arithmetic = |op, by| Instr::Alu { op, by };
    let branch = |test, by| Instr::Branch { test, by, jt, jf };
    Some(match BigEndian::read_u16(octets) {
        0x0004 => arithmetic(Add, imm),
        0x0014 => arithmetic(Sub, imm),
        0x0024 => arithmetic(Mul, imm),
        0x0034 => arithmetic(Div, imm),
        0x0044 => arithmetic(Or, imm),
        0x0054 => arithmetic(And, imm),
        0x0064 => arithmetic(Lsh, imm),
        0x0074 => arithmetic(Rsh, imm),
        0x0094 => arithmetic(Mod, imm),
        0x00a4 => arithmetic(Xor, imm),
        0x000c => arithmetic(Add, X),
        0x001c => arithmetic(Sub, X),
        0x002c => arithmetic(Mul, X),
        0x003c => arithmetic(Div, X),
        0x004c => arithmetic(Or, X),
        0x005c => arithmetic(And, X),
        0x006c => arithmetic(Lsh, X),
        0x007c => arithmetic(Rsh, X),
        0x009c => arithmetic(Mod, X),
        0x00ac => arithmetic(Xor, X),
        0x0015 => branch(Eq, imm),
        0x0025 => branch(Gt, imm),
        0x0035 => branch(Ge, imm),
        0x0045 => branch(Set, imm),
        0x001d => branch(Eq, X),
        0x002d => branch(Gt, X),
        0x003d => branch(Ge, X),
        0x004d => branch(Set, X),
        _ => return None,
    })
}

/// Decodes any instruction, by the instruction table. Returns None for a code that isn't in it.
fn instruction(octets: &[u8; 8]) -> Option<Instr>
    ensures spelled { IfSome result (λ i. Spells octets.now i) }
    ensures no_row { IfNone result ((i : Instr) → code_of i ≢ instr_code octets.now) }
{
    let k = BigEndian::read_u32(&octets[4..]);
    Some(match BigEndian::read_u16(octets) {
        0x0020 => Instr::LoadAbs { size: Word, k },
        0x0028 => Instr::LoadAbs { size: Half, k },
        0x0030 => Instr::LoadAbs { size: Octet, k },
        0x0040 => Instr::LoadInd { size: Word, k },
        0x0048 => Instr::LoadInd { size: Half, k },
        0x0050 => Instr::LoadInd { size: Octet, k },
        0x0000 => Instr::LoadImm(k),
        0x0060 => Instr::LoadMem(k),
        0x0080 => Instr::LoadLen,
        0x0001 => Instr::LdxImm(k),
        0x0061 => Instr::LdxMem(k),
        0x0081 => Instr::LdxLen,
        0x00b1 => Instr::LdxMsh(k),
        0x0002 => Instr::Store(k),
        0x0003 => Instr::StoreX(k),
        0x0084 => Instr::Neg,
        0x0005 => Instr::Jump(k),
        0x0006 => Instr::RetK(k),
        0x0016 => Instr::RetA,
        0x0007 => Instr::Tax,
        0x0087 => Instr::Txa,
        _ => return operation(octets),
    })
}

/// Decodes one instruction. Fields that it doesn't use may hold anything.
///
/// # Errors
///
/// The code in the first two octets, if the octets spell no instruction.
pub fn decode_one(octets: &[u8; 8]) -> Result<Instr, u16>
    ensures spelled { (i : Instr) → (Spells octets.now i ↔ (result ≡ Ok i)) }
    ensures nothing_spelled { OnErr result ((i : Instr) → ¬ Spells octets.now i) }
    ensures code { IfErr result (λ code. code ≡ instr_code octets.now) }
{
    instruction(octets).ok_or(BigEndian::read_u16(octets))
}

/// Decodes a code, eight octets an instruction.
///
/// # Errors
///
/// `Ragged` if the number of octets is not a multiple of 8. Otherwise `NoMemory` if the allocation fails, whatever the
/// octets are. Otherwise `UnknownCode` for the first eight octets that spell no instruction.
pub fn decode(alloc: Global, octets: &[u8]) -> Result<Vec<Instr>, DecodeFault>
    ensures code { IfOk result (λ code. SpellsCode octets.now code.items) }
    ensures fault { IfErr result (IsDecodeFault octets.now) }

    // Each of these three clauses fixes the result, except that NoMemory may replace that of the last two.
    ensures ragged { 0 < length octets.now % 8 → result ≡ Err DecodeFault.Ragged }
    ensures unknown { (at code : ℕ) → length octets.now % 8 ≡ 0 → IsFirstUnknown octets.now at code →
        (result ≡ Err (DecodeFault.UnknownCode at code)) ⊎ (result ≡ Err DecodeFault.NoMemory) }
    ensures spelled { (code : List Instr) → SpellsCode octets.now code → IsOkUnless result DecodeFault.NoMemory }
{
    let (eights, rest) = octets.as_chunks::<8>();
    if !rest.is_empty() {
        return Err(DecodeFault::Ragged);
    }
    let mut code = Vec::with_capacity(alloc, eights.len()).map_err(|_| DecodeFault::NoMemory)?;
    for (at, eight) in eights.iter().enumerate() {
        match decode_one(eight) {
            Ok(instr) => code.push_reserved(instr),
            Err(unknown) => return Err(DecodeFault::UnknownCode { at, code: unknown }),
        }
    }
    Ok(code)
}

//! The listing of a code.

ghost use Rattle.std.specs.Prelude.{◌≡◌, ◌+◌, ◌<◌, ◌^◌, ◌++◌, ℕ, decimal, IfErr, IfNone, IfOk, IfSome, MatchBool, OnOk};
ghost use Rattle.bpf_code.specs.declared.instr.Instr.{Instr};
ghost use Rattle.bpf_asm.specs.Listing.{IsFirstLeaving, IsListFault, Leaves, StaysWithin, instruction_text, label_at, line_text, listing_of};
ghost use Rattle.bpf_asm.specs.inner.Staying.{NoneLeaves};
ghost use Rattle.bpf_code.specs.Widths.{FitsFields};
ghost use Rattle.bpf_asm.specs.inner.OperandWidths.{OperandFits};
ghost use Rattle.bpf_asm.specs.Meaning.{IsMeaning};
ghost use Rattle.bpf_asm.specs.StatementSpelling.{load_name, op_name, operand, spelling_octets, test_name};

use crate::fault::ListFault;
use crate::mnemonic::{OPS, TESTS};
use bpf_code::{By, Instr, Op, Size, Test};
use itoa::Buffer;
use std::alloc::{AllocError, Global};

/// The mnemonics of packet loads into A, in the order of `Size`.
const LOADS: [&[u8]; 3] = [b"ld", b"ldh", b"ldb"];

/// The mnemonic of a packet load into A.
fn load_text(size: Size) -> &'static [u8]
    ensures { result.now ≡ load_name size }
{
    LOADS[size as usize]
}

/// The mnemonic of arithmetic.
fn op_text(op: Op) -> &'static [u8]
    ensures { result.now ≡ op_name op }
{
    OPS[op as usize].0
}

/// The mnemonic of a branch.
fn test_text(test: Test) -> &'static [u8]
    ensures { result.now ≡ test_name test }
{
    TESTS[test as usize].0
}

/// Writes a number between two texts.
fn put_number(text: &mut Vec<u8>, front: &[u8], number: u32, back: &[u8]) -> Result<(), AllocError>
    ensures written { OnOk result (text.new.items ≡ text.old.items ++ (front.now ++ (decimal number ++ back.now))) }
    ensures width { number < 2 ^ 32 }
{
    let mut buffer = Buffer::new();
    text.extend_from_slice(front)?;
    text.extend_from_slice(buffer.format(number).as_bytes())?;
    text.extend_from_slice(back)
}

/// Writes a text and then the label of a place.
fn put_label(text: &mut Vec<u8>, front: &[u8], place: usize) -> Result<(), AllocError>
    ensures { OnOk result (text.new.items ≡ text.old.items ++ (front.now ++ label_at place)) }
{
    let mut buffer = Buffer::new();
    text.extend_from_slice(front)?;
    text.extend_from_slice(b"L")?;
    text.extend_from_slice(buffer.format(place).as_bytes())
}

/// Writes the operand of arithmetic or of a branch.
fn put_operand(text: &mut Vec<u8>, by: By) -> Result<(), AllocError>
    ensures written { OnOk result (text.new.items ≡ text.old.items ++ spelling_octets (operand by)) }
    ensures width { OnOk result (OperandFits by) }
{
    match by {
        By::Imm(k) => put_number(text, b"#", k, b""),
        By::X => text.extend_from_slice(b"x"),
    }
}

/// Writes the branch at a place, with both labels.
#[tactic(auto, unfolding(crate::specs::Listing::instruction_text, crate::specs::StatementSpelling::spellings))]
fn put_branch(
    text: &mut Vec<u8>,
    place: usize,
    test: Test,
    by: By,
    jt: u8,
    jf: u8,
) -> Result<(), AllocError>
    requires met { place + 1 + jt < 2 ^ 64 }
    requires unmet { place + 1 + jf < 2 ^ 64 }
    ensures written { OnOk result (text.new.items ≡ text.old.items ++ instruction_text place (Instr.Branch test by jt jf)) }
    ensures wide { OnOk result (FitsFields (Instr.Branch test by jt jf)) }
{
    text.extend_from_slice(test_text(test))?;
    text.extend_from_slice(b" ")?;
    put_operand(text, by)?;
    put_label(text, b", ", place + 1 + jt as usize)?;
    put_label(text, b", ", place + 1 + jf as usize)
}

/// Writes the spelling of the instruction at a place.
#[tactic(auto, unfolding(crate::specs::Listing::instruction_text, crate::specs::StatementSpelling::spellings))]
fn put_instruction(text: &mut Vec<u8>, place: usize, instr: Instr) -> Result<(), AllocError>
    requires { StaysWithin (2 ^ 64) place instr }
    ensures written { OnOk result (text.new.items ≡ text.old.items ++ instruction_text place instr) }
    ensures wide { OnOk result (FitsFields instr) }
{
    match instr {
        Instr::LoadAbs { size, k } => {
            text.extend_from_slice(load_text(size))?;
            put_number(text, b" [", k, b"]")
        }
        Instr::LoadInd { size, k } => {
            text.extend_from_slice(load_text(size))?;
            put_number(text, b" [x+", k, b"]")
        }
        Instr::LoadImm(k) => put_number(text, b"ld #", k, b""),
        Instr::LoadMem(k) => put_number(text, b"ld M[", k, b"]"),
        Instr::LoadLen => text.extend_from_slice(b"ld #len"),
        Instr::LdxImm(k) => put_number(text, b"ldx #", k, b""),
        Instr::LdxMem(k) => put_number(text, b"ldx M[", k, b"]"),
        Instr::LdxLen => text.extend_from_slice(b"ldx #len"),
        Instr::LdxMsh(k) => put_number(text, b"ldxb 4*([", k, b"]&0xf)"),
        Instr::Store(k) => put_number(text, b"st M[", k, b"]"),
        Instr::StoreX(k) => put_number(text, b"stx M[", k, b"]"),
        Instr::Alu { op, by } => {
            text.extend_from_slice(op_text(op))?;
            text.extend_from_slice(b" ")?;
            put_operand(text, by)
        }
        Instr::Neg => text.extend_from_slice(b"neg"),
        Instr::Jump(k) => put_label(text, b"ja ", place + 1 + k as usize),
        Instr::Branch { test, by, jt, jf } => put_branch(text, place, test, by, jt, jf),
        Instr::RetK(k) => put_number(text, b"ret #", k, b""),
        Instr::RetA => text.extend_from_slice(b"ret a"),
        Instr::Tax => text.extend_from_slice(b"tax"),
        Instr::Txa => text.extend_from_slice(b"txa"),
    }
}

/// Writes the line of the instruction at a place.
#[tactic(auto, unfolding(crate::specs::Listing::line_text))]
fn put_line(text: &mut Vec<u8>, place: usize, instr: Instr) -> Result<(), AllocError>
    requires { StaysWithin (2 ^ 64) place instr }
    ensures written { OnOk result (text.new.items ≡ text.old.items ++ line_text place instr) }
    ensures wide { OnOk result (FitsFields instr) }
{
    put_label(text, b"", place)?;
    text.extend_from_slice(b": ")?;
    put_instruction(text, place, instr)?;
    text.extend_from_slice(b"\n")
}

/// Returns whether some target of an instruction is outside the code, if `following` instructions follow it.
fn leaves(following: usize, instr: Instr) -> bool
    ensures { (place : ℕ) → MatchBool result
        (Leaves (place + 1 + following) place instr) (StaysWithin (place + 1 + following) place instr) }
{
    match instr {
        Instr::Jump(k) => k as usize >= following,
        Instr::Branch { jt, jf, .. } => jt as usize >= following || jf as usize >= following,
        _ => false,
    }
}

/// Returns the first place with a target outside the code.
fn first_leaving(code: &[Instr]) -> Option<usize>
    ensures found { IfSome result (IsFirstLeaving code.now) }
    ensures none { IfNone result (NoneLeaves code.now) }
{
    for (at, instr) in code.iter().enumerate() {
        if leaves(code.len() - at - 1, *instr) {
            return Some(at);
        }
    }
    None
}

/// Returns the listing of a code: a line for each instruction, with its place as a label and its spelling. The
/// listing is a source that means the same code.
///
/// # Errors
///
/// `JumpOutside` if some target is outside the code; otherwise only `NoMemory`, after an allocation failure.
pub fn listing(alloc: Global, code: &[Instr]) -> Result<Vec<u8>, ListFault>
    ensures text { IfOk result (λ text. text.items ≡ listing_of code.now) }
    ensures meaning { IfOk result (λ text. IsMeaning text.items code.now) }
    ensures outside { (place : ℕ) → IsFirstLeaving code.now place → result ≡ Err (ListFault.JumpOutside place) }
    ensures fault { IfErr result (IsListFault code.now) }
{
    if let Some(at) = first_leaving(code) {
        return Err(ListFault::JumpOutside(at));
    }
    let mut text = Vec::new(alloc);
    for (at, instr) in code.iter().enumerate() {
        put_line(&mut text, at, *instr).map_err(|_| ListFault::NoMemory)?;
    }
    Ok(text)
}

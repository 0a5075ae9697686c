//! What one instruction makes of what is known of a machine.

ghost use Rattle.std.specs.Prelude.{◌≡◌, ◌≤◌, ◌<◌, ◌+◌, ◌^◌, ℕ, List, ◌∷◌, Some, slice_get, option_map, IfOk, IfSome};
ghost use Rattle.bpf_code.specs.declared.instr.Instr.{Instr as Written};
ghost use Rattle.bpf_interp.specs.Arithmetic.{negated as minus};
ghost use Rattle.bpf_interp.specs.Packet.{octets_loaded};
ghost use Rattle.bpf_interp.specs.State.{At};
ghost use Rattle.bpf_interp.specs.Step.{Does};
ghost use Rattle.rules_diagrams.specs.CellNumbers.{octets_number};
ghost use Rattle.rules_diagrams.specs.inner.Following.{AreLoaded, IsFollowed, IsPutInto, LoadsAt, OnEach};
ghost use Rattle.rules_diagrams.specs.inner.Registers.{at_with};
ghost use Rattle.rules_diagrams.specs.inner.Words.{word_number};
ghost use Rattle.rules_diagrams.specs.declared.contents.Register.{Register as Into};

use crate::contents::{Contents, Followed, Made, Register, with_word};
use crate::fault::Undecided;
use crate::operations::{operand_constant, operated};
use crate::word::{Bit, constant, constant_of, shifted_left, spelled};
use bpf_code::{By, Instr, Size, Test};
use std::alloc::{AllocError, Global};
use upc_cell::CELL_OCTETS;

/// Continues at the next place with what an instruction makes of a register.
fn with(register: Register, place: usize, contents: &Contents, made: Made) -> Followed
    requires { place + 1 < 2 ^ 64 }
    ensures { (i : Written) → IsPutInto register i contents.now made → IsFollowed i place contents.now result }
{
    match made {
        Made::Unknown => Followed::Stops,
        Made::Ends(value) => Followed::Ends(value),
        Made::Word(word) => Followed::Continues {
            place: place + 1,
            contents: with_word(contents, register, word),
        },
    }
}

/// Continues at the next place with another scratch word.
fn stored(place: usize, contents: &Contents, k: u32, word: [Bit; 32]) -> Followed
    requires { place + 1 < 2 ^ 64 }
    ensures { (i : Written)
        → (k < 16 → OnEach contents.now (λ cell a x m. Does cell i place a x m (At (place + 1) a x ((k, word_number word (octets_number cell)) ∷ m))))
        → IsFollowed i place contents.now result }
{
    if k >= 16 {
        return Followed::Stops;
    }
    let mut scratch = contents.scratch;
    scratch[k as usize] = Some(word);
    Followed::Continues {
        place: place + 1,
        contents: Contents {
            scratch,
            ..*contents
        },
    }
}

/// A scratch word, if it is known.
fn recalled(contents: &Contents, k: u32) -> Option<[Bit; 32]>
    ensures { IfSome result (λ word. (k < 16) × (slice_get contents.now.scratch k ≡ Some (Some word))) }
{
    if k >= 16 {
        return None;
    }
    contents.scratch[k as usize]
}

/// How many octets are loaded.
fn octets_of(size: Size) -> u16
    ensures many { result ≡ octets_loaded size }
    ensures most { result ≤ 4 }
{
    match size {
        Size::Word => 4,
        Size::Half => 2,
        Size::Octet => 1,
    }
}

/// The bits of some octets of the cell, if it has all of them.
fn loaded(alloc: Global, at: u64, size: Size) -> Result<Option<Vec<Bit>>, AllocError>
    ensures { IfOk result (λ found. AreLoaded at (octets_loaded size) (option_map (λ bits. bits.items) found)) }
{
    let many = octets_of(size);
    if at.saturating_add(u64::from(many)) > CELL_OCTETS as u64 {
        return Ok(None);
    }
    let bits = spelled(alloc, at as u16 * 8, many * 8, 32 - u32::from(many) * 8)?;
    Ok(Some(bits))
}

/// A load of octets of the cell into A.
fn load(
    alloc: Global,
    instr: &Instr,
    at: u64,
    size: Size,
    contents: &Contents,
) -> Result<Made, AllocError>
    requires { LoadsAt instr.now at (octets_loaded size) contents.now }
    ensures { IfOk result (IsPutInto Into.A instr.now contents.now) }
{
    match loaded(alloc, at, size)? {
        None => Ok(Made::Ends(0)),
        Some(bits) => Ok(Made::from_bits(bits)),
    }
}

/// A load of four times the low four bits of an octet into X.
fn quarter_loaded(alloc: Global, k: u32, contents: &Contents) -> Result<Made, AllocError>
    ensures { IfOk result (IsPutInto Into.X (Written.LdxMsh k) contents.now) }
{
    match loaded(alloc, u64::from(k), Size::Octet)? {
        None => Ok(Made::Ends(0)),
        Some(octet) => {
            let low = shifted_left(alloc, &octet, 0, 4)?;
            let bits = shifted_left(alloc, &low, 2, 32)?;
            Ok(Made::from_bits(bits))
        }
    }
}

/// A load of octets from X on.
fn indirect(alloc: Global, size: Size, k: u32, contents: &Contents) -> Result<Made, AllocError>
    ensures { IfOk result (IsPutInto Into.A (Written.LoadInd size k) contents.now) }
{
    match constant_of(&contents.x) {
        None => Ok(Made::Unknown),
        Some(x) => load(
            alloc,
            &Instr::LoadInd { size, k },
            u64::from(x) + u64::from(k),
            size,
            contents,
        ),
    }
}

/// A load of a scratch word.
fn recall(k: u32, contents: &Contents) -> Made
    ensures a { IsPutInto Into.A (Written.LoadMem k) contents.now result }
    ensures x { IsPutInto Into.X (Written.LdxMem k) contents.now result }
{
    match recalled(contents, k) {
        None => Made::Unknown,
        Some(word) => Made::Word(word),
    }
}

/// Minus `a`, modulo 2^32.
fn negative(a: u32) -> u32
    ensures { result ≡ minus a }
{
    0u32.wrapping_sub(a)
}

/// The negative of A, if it is a constant.
fn negated(alloc: Global, contents: &Contents) -> Result<Made, AllocError>
    ensures { IfOk result (IsPutInto Into.A Written.Neg contents.now) }
{
    match constant_of(&contents.a) {
        None => Ok(Made::Unknown),
        Some(a) => {
            let bits = constant(alloc, negative(a), 32)?;
            Ok(Made::from_bits(bits))
        }
    }
}

/// A branch by a comparison with a constant.
fn branched(test: Test, by: By, jt: u8, jf: u8, place: usize, contents: &Contents) -> Followed
    requires { place < 2 ^ 32 }
    ensures { IsFollowed (Written.Branch test by jt jf) place contents.now result }
{
    match operand_constant(by, contents) {
        None => Followed::Stops,
        Some(k) => Followed::Branches {
            test,
            k,
            one: place + 1 + usize::from(jt),
            other: place + 1 + usize::from(jf),
        },
    }
}

/// The end of the program with A, if it is a constant.
fn returned(place: usize, contents: &Contents) -> Followed
    ensures { IsFollowed Written.RetA place contents.now result }
{
    match constant_of(&contents.a) {
        None => Followed::Stops,
        Some(a) => Followed::Ends(a),
    }
}

/// A load of a constant.
fn load_constant(
    alloc: Global,
    register: Register,
    instr: &Instr,
    k: u32,
    contents: &Contents,
) -> Result<Made, AllocError>
    requires { (cell : List ℕ) (place a x : ℕ) (m : List (ℕ × ℕ)) → Does cell instr.now place a x m (at_with register (place + 1) k a x m) }
    ensures { IfOk result (IsPutInto register instr.now contents.now) }
{
    let bits = constant(alloc, k, 32)?;
    Ok(Made::from_bits(bits))
}

/// What an instruction makes of A, if it changes that alone.
fn made_of_a(alloc: Global, instr: &Instr, contents: &Contents) -> Result<Made, AllocError>
    ensures { IfOk result (IsPutInto Into.A instr.now contents.now) }
{
    match *instr {
        Instr::LoadAbs { size, k } => load(alloc, instr, k.into(), size, contents),
        Instr::LoadInd { size, k } => indirect(alloc, size, k, contents),
        Instr::LoadImm(k) => load_constant(alloc, Register::A, instr, k, contents),
        Instr::LoadLen => load_constant(alloc, Register::A, instr, CELL_OCTETS as u32, contents),
        Instr::LoadMem(k) => Ok(recall(k, contents)),
        Instr::Alu { op, by } => operated(alloc, op, by, contents),
        Instr::Neg => negated(alloc, contents),
        Instr::Txa => Ok(Made::Word(contents.x)),
        _ => Ok(Made::Unknown),
    }
}

/// What an instruction makes of X, if it changes that alone.
fn made_of_x(alloc: Global, instr: &Instr, contents: &Contents) -> Result<Made, AllocError>
    ensures { IfOk result (IsPutInto Into.X instr.now contents.now) }
{
    match *instr {
        Instr::LdxImm(k) => load_constant(alloc, Register::X, instr, k, contents),
        Instr::LdxLen => load_constant(alloc, Register::X, instr, CELL_OCTETS as u32, contents),
        Instr::LdxMem(k) => Ok(recall(k, contents)),
        Instr::LdxMsh(k) => quarter_loaded(alloc, k, contents),
        Instr::Tax => Ok(Made::Word(contents.a)),
        _ => Ok(Made::Unknown),
    }
}

/// What an instruction makes of what is known of a machine at this place.
pub(crate) fn follow(
    alloc: Global,
    instr: &Instr,
    place: usize,
    contents: &Contents,
) -> Result<Followed, Undecided>
    requires { place < 2 ^ 32 }
    ensures { IfOk result (IsFollowed instr.now place contents.now) }
{
    match *instr {
        Instr::Store(k) => Ok(stored(place, contents, k, contents.a)),
        Instr::StoreX(k) => Ok(stored(place, contents, k, contents.x)),
        Instr::Jump(k) => Ok(Followed::Continues {
            place: place + 1 + k as usize,
            contents: *contents,
        }),
        Instr::Branch { test, by, jt, jf } => Ok(branched(test, by, jt, jf, place, contents)),
        Instr::RetK(k) => Ok(Followed::Ends(k)),
        Instr::RetA => Ok(returned(place, contents)),
        Instr::LdxImm(_) | Instr::LdxLen | Instr::LdxMem(_) | Instr::LdxMsh(_) | Instr::Tax => {
            let made = made_of_x(alloc, instr, contents)?;
            Ok(with(Register::X, place, contents, made))
        }
        _ => {
            let made = made_of_a(alloc, instr, contents)?;
            Ok(with(Register::A, place, contents, made))
        }
    }
}

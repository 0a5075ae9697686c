//! The scratch words that every path to a place stores.
//!
//! Each place has a mask with a bit for each scratch word that every path to the place stores. As long as the check knows no
//! path to the place, all bits are set. Jumps go forward, so when the check reaches a place, every path has narrowed its mask.

ghost use Rattle.std.specs.Prelude.{◌≡◌, ◌≢◌, ℕ, ◌+◌, ◌<◌, ◌≤◌, ◌↔◌, length, min, slice_index, IfSome, IfNone, Some};
ghost use Rattle.std.specs.Int.{bit_at};
ghost use Rattle.bpf_code.specs.Flow.{LeadsTo};
ghost use Rattle.bpf_code.specs.Scratch.{ReadsWord, StoresWord};

use crate::verifier::MOST_INSTRUCTIONS;
use bpf_code::Instr;

/// One place more than the longest program has, so that each place has a next one.
pub(crate) const MASK_PLACES: usize = MOST_INSTRUCTIONS + 1;

/// The number of masks for a short code. A short code has fewer instructions, so that each place has a next one.
pub(crate) const SHORT_PLACES: usize = 256;

/// Returns the word that an instruction reads and a mask lacks, if there is one.
pub(crate) fn unwritten_word(instr: Instr, mask: u16) -> Option<u32>
    requires { (word : ℕ) → ReadsWord instr word → word < 16 }
    ensures none { IfNone result ((word : ℕ) → ReadsWord instr word → bit_at mask word ≡ 1) }
    ensures some { IfSome result (λ word. ReadsWord instr word × (bit_at mask word ≡ 0)) }
{
    match word_read(instr) {
        Some(word) if mask >> word & 1 == 0 => Some(word),
        _ => None,
    }
}

/// Returns a mask, with the word that an instruction stores added to it.
pub(crate) fn with_stored(instr: Instr, mask: u16) -> u16
    requires { (word : ℕ) → StoresWord instr word → word < 16 }
    ensures stored { (word : ℕ) → StoresWord instr word → bit_at result word ≡ 1 }
    ensures others { (word : ℕ) → ¬ StoresWord instr word → bit_at result word ≡ bit_at mask word }
{
    match word_stored(instr) {
        Some(word) => mask | 1 << word,
        None => mask,
    }
}

/// Hands the mask after an instruction to its successors; a return has none. Returns the new mask of the place
/// `at + 1`, so that the caller needn't read it: a processor is slow to read what it has just written.
pub(crate) fn pass_on(written: &mut [u16], at: usize, instr: Instr, mask: u16) -> u16
    requires place { at + 1 < length written.old }
    requires within { (next : ℕ) → LeadsTo at instr next → next < length written.old }
    ensures successors { (next word : ℕ) → LeadsTo at instr next
        → bit_at (slice_index written.new next) word
        ≡ min (bit_at (slice_index written.old next) word) (bit_at mask word) }
    ensures others { (place : ℕ) → ¬ LeadsTo at instr place
        → slice_index written.new place ≡ slice_index written.old place }
    ensures after { result ≡ slice_index written.new (at + 1) }
{
    match instr {
        Instr::Jump(skipped) => {
            narrow(written, at, skipped, mask);
            written[at + 1]
        }
        Instr::Branch { jt, jf, .. } => {
            let there = narrow(written, at, u32::from(jt), mask);
            let here = narrow(written, at, u32::from(jf), mask);
            match (jt, jf) {
                (_, 0) => here,
                (0, _) => there,
                _ => written[at + 1],
            }
        }
        Instr::RetK(_) | Instr::RetA => written[at + 1],
        _ => narrow(written, at, 0, mask),
    }
}

/// Narrows the mask of the place to which a jump over this many instructions leads: it keeps only the words that are
/// also in `mask`, that of one more path to the place. Returns the narrowed mask.
fn narrow(written: &mut [u16], at: usize, skipped: u32, mask: u16) -> u16
    requires { at + 1 + skipped < length written.old }
    ensures place { (place word : ℕ) → place ≡ at + 1 + skipped
        → bit_at (slice_index written.new place) word
        ≡ min (bit_at (slice_index written.old place) word) (bit_at mask word) }
    ensures others { (other : ℕ) → other ≢ at + 1 + skipped
        → slice_index written.new other ≡ slice_index written.old other }
    ensures words { result ≡ slice_index written.new (at + 1 + skipped) }
{
    let place = at + 1 + skipped as usize;
    let narrowed = written[place] & mask;
    written[place] = narrowed;
    narrowed
}

/// Returns the scratch word that an instruction reads, if it reads one.
fn word_read(instr: Instr) -> Option<u32>
    ensures { (word : ℕ) → ReadsWord instr word ↔ (result ≡ Some word) }
{
    match instr {
        Instr::LoadMem(word) | Instr::LdxMem(word) => Some(word),
        _ => None,
    }
}

/// Returns the scratch word that an instruction stores, if it stores one.
fn word_stored(instr: Instr) -> Option<u32>
    ensures { (word : ℕ) → StoresWord instr word ↔ (result ≡ Some word) }
{
    match instr {
        Instr::Store(word) | Instr::StoreX(word) => Some(word),
        _ => None,
    }
}

//! Laws of the definitions. Each function does nothing; its contract is the law.

ghost use Rattle.std.specs.Prelude.{◌≡◌, ◌≢◌, ◌⊎◌, ℕ, List};
ghost use Rattle.bpf_code.specs.Decoding.{IsDecodeFault};
ghost use Rattle.bpf_code.specs.EarlierTable.{SpelledCodeEarlier};
ghost use Rattle.bpf_code.specs.Encoding.{code_octets};
ghost use Rattle.bpf_code.specs.Flow.{IsInstrAt};
ghost use Rattle.bpf_code.specs.OctetSpelling.{SpellsCode, SpellsPlainly};
ghost use Rattle.bpf_code.specs.Widths.{FitsFields};
ghost use Rattle.bpf_code.specs.declared.decoder.DecodeFault.{DecodeFault as TheFault};
ghost use Rattle.bpf_code.specs.declared.instr.Instr.{Instr};

use crate::decoder::DecodeFault;

/// Octets spell at most one code.
pub fn octets_spell_one_code()
    ensures { (octets : List ℕ) (one other : List Instr) →
        SpellsCode octets one → SpellsCode octets other → one ≡ other }
{}

/// Octets spell a code or have an error other than NoMemory.
pub fn octets_spell_a_code_or_are_faulty()
    ensures { (octets : List ℕ) → ((code : List Instr) × SpellsCode octets code)
        ⊎ ((fault : TheFault) × (fault ≢ DecodeFault.NoMemory) × IsDecodeFault octets fault) }
{}

/// Octets with 0 in all unused fields, as `encode` writes them, spell their code and no other.
pub fn plain_octets_spell_their_code()
    ensures { (octets : List ℕ) (code : List Instr) → SpellsPlainly octets code
        → SpellsCode octets code × ((other : List Instr) → SpellsCode octets other → other ≡ code) }
{}

/// Octets that spell a code have no error other than NoMemory.
pub fn octets_of_a_code_have_no_fault()
    ensures { (octets : List ℕ) (code : List Instr) (fault : TheFault) → SpellsCode octets code
        → fault ≢ DecodeFault.NoMemory → ¬ IsDecodeFault octets fault }
{}

/// Octets have at most one error other than NoMemory.
pub fn octets_have_one_fault()
    ensures { (octets : List ℕ) (one other : TheFault)
        → one ≢ DecodeFault.NoMemory → other ≢ DecodeFault.NoMemory
        → IsDecodeFault octets one → IsDecodeFault octets other → one ≡ other }
{}

/// The octets that `encode` writes spell the code, with 0 in all unused fields, if each instruction fits its fields.
pub fn written_octets_spell_their_code()
    ensures { (code : List Instr) → ((place : ℕ) (i : Instr) → IsInstrAt code place i → FitsFields i)
        → SpellsPlainly (code_octets code) code }
{}

/// Octets that spelled a code before `mod` and `xor` were added still spell that code, and no other.
pub fn earlier_codes_are_spelled_as_before()
    ensures { (octets : List ℕ) (code : List Instr) → SpelledCodeEarlier octets code
        → SpellsCode octets code × ((other : List Instr) → SpellsCode octets other → other ≡ code) }
{}

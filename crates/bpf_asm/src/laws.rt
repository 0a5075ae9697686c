//! Laws of the definitions. Each function does nothing; its contract is the law.

ghost use Rattle.std.specs.Prelude.{◌≡◌, ◌⊎◌, ℕ, List};
ghost use Rattle.bpf_asm.specs.Faults.{IsFault};
ghost use Rattle.bpf_asm.specs.Grammar.{IsOneOf};
ghost use Rattle.bpf_asm.specs.Meaning.{IsMeaning};
ghost use Rattle.bpf_asm.specs.StatementSpelling.{Statement, spellings};
ghost use Rattle.bpf_asm.specs.Tokens.{Token};
ghost use Rattle.bpf_asm.specs.declared.fault.AsmFault.{AsmFault};
ghost use Rattle.bpf_code.specs.Encoding.{code_octets};
ghost use Rattle.bpf_code.specs.OctetSpelling.{SpellsPlainly};
ghost use Rattle.bpf_code.specs.declared.instr.Instr.{Instr};

/// A source means at most one code.
pub fn a_source_means_one_code()
    ensures { (source : List ℕ) (one other : List Instr) →
        IsMeaning source one → IsMeaning source other → one ≡ other }
{}

/// A source that means a code has no fault.
pub fn a_source_has_no_code_beside_a_fault()
    ensures { (source : List ℕ) (code : List Instr) (fault : AsmFault) →
        IsMeaning source code → ¬ IsFault source fault }
{}

/// A source has at most one fault.
pub fn a_source_has_one_fault()
    ensures { (source : List ℕ) (one other : AsmFault) →
        IsFault source one → IsFault source other → one ≡ other }
{}

/// A source means a code or has a fault.
pub fn a_source_has_a_code_or_a_fault()
    ensures { (source : List ℕ) → ((code : List Instr) × IsMeaning source code) ⊎ ((fault : AsmFault) × IsFault source fault) }
{}

/// Tokens spell at most one statement.
pub fn tokens_spell_one_statement()
    ensures { (tokens : List Token) (one other : Statement) →
        IsOneOf tokens (spellings one) → IsOneOf tokens (spellings other) → one ≡ other }
{}

/// If a source means a code, the octets that `encode` writes for it spell that code, with 0 in each field that
/// an instruction does not use.
pub fn octets_of_a_source_spell_its_code()
    ensures { (source : List ℕ) (code : List Instr) →
        IsMeaning source code → SpellsPlainly (code_octets code) code }
{}

//! Laws of the definitions. Each function does nothing; its contract is the law.

ghost use Rattle.std.specs.Prelude.{◌≡◌, ℕ, ◌↔◌, ◌⊎◌, List, [], ◌∷◌, ◌++◌, reverse};
ghost use Rattle.bpf_code.specs.declared.instr.Instr.{Instr};
ghost use Rattle.bpf_verify.specs.declared.fault.Fault.{Fault};
ghost use Rattle.bpf_verify.specs.Accepted.{IsAccepted};
ghost use Rattle.bpf_verify.specs.Faults.{FailsFirst};
ghost use Rattle.bpf_verify.specs.Paths.{IsPath, IsWrittenAt};
ghost use Rattle.bpf_verify.specs.Walks.{IsWalk, IsWrittenOnEveryWalk};

/// A path is a list of places that begins at 0 and goes from successor to successor: the places that it passed, in
/// order, and then the place that it reaches.
pub fn paths_are_walks()
    ensures { (code : List Instr) (passed : List ℕ) (place : ℕ)
        → IsPath code passed place ↔ IsWalk code (reverse passed ++ place ∷ []) }
{}

/// Every path to a read passes a store of its word if and only if, in every list of places that begins at 0, goes
/// from successor to successor and ends in a read, an earlier place stores the word.
pub fn written_on_paths_is_written_on_walks()
    ensures { (code : List Instr)
        → ((place : ℕ) → IsWrittenAt code place) ↔ IsWrittenOnEveryWalk code }
{}

/// Two faults that come first in a code are the same.
pub fn one_fault_comes_first()
    ensures { (code : List Instr) (one other : Fault)
        → FailsFirst code one → FailsFirst code other → one ≡ other }
{}

/// A code is accepted if and only if no fault comes first.
pub fn accepted_without_fault()
    ensures { (code : List Instr) → IsAccepted code ↔ ((fault : Fault) → ¬ FailsFirst code fault) }
{}

/// Every code is accepted, or some fault comes first in it.
pub fn a_code_is_accepted_or_faulty()
    ensures { (code : List Instr) → IsAccepted code ⊎ ((fault : Fault) × FailsFirst code fault) }
{}

//! Laws of the definitions. Each function does nothing; its contract is the law.

ghost use Rattle.std.specs.Prelude.{◌≡◌, ◌≤◌, ◌↔◌, ℕ, List, length};
ghost use Rattle.bpf_code.specs.declared.instr.Instr.{Instr};
ghost use Rattle.bpf_interp.specs.Runs.{IsRun};
ghost use Rattle.bpf_interp.specs.State.{State};
ghost use Rattle.bpf_interp.specs.Value.{Value};
ghost use Rattle.bpf_verify.specs.Accepted.{IsAccepted};

/// A code has a value on a packet, after a number of steps, if and only if there is a run with that value and number.
pub fn a_value_is_the_end_of_a_run()
    ensures { (code : List Instr) (packet : List ℕ) (value steps : ℕ) →
        (((states : List State) × IsRun code packet states value steps) ↔ Value code packet value steps) }
{}

/// A code has at most one value on a packet, after one number of steps.
pub fn a_code_has_at_most_one_value()
    ensures { (code : List Instr) (packet : List ℕ) (one other one_steps other_steps : ℕ) →
        Value code packet one one_steps → Value code packet other other_steps →
        (one ≡ other) × (one_steps ≡ other_steps) }
{}

/// An accepted code has exactly one value on every packet, after at most as many steps as it has instructions.
pub fn an_accepted_code_has_one_value()
    ensures { (code : List Instr) (packet : List ℕ) → IsAccepted code →
        (value steps : ℕ) × Value code packet value steps × (steps ≤ length code)
        × ((other other_steps : ℕ) → Value code packet other other_steps
        → (other ≡ value) × (other_steps ≡ steps)) }
{}

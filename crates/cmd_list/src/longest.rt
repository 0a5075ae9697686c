//! The longest run of an accepted code: the most instructions that some path through it begins.
//!
//! Jumps lead forward. So one pass from the last instruction to the first knows, at each place, the longest run from every
//! place that its instruction leads to.

ghost use Rattle.std.specs.Prelude.{◌≡◌, ◌⊎◌, ℕ, ◌+◌, ◌<◌, ◌≤◌, length, slice_index};
ghost use Rattle.bpf_code.specs.Flow.{IsReturn, LeadsTo};
ghost use Rattle.bpf_verify.specs.Accepted.{IsAccepted};
ghost use Rattle.cmd_list.specs.LongestRun.{IsLongestRun};

use bpf_code::Instr;
use bpf_verify::MOST_INSTRUCTIONS;

/// Returns the number of instructions of the longest run, in one pass and without an allocation.
pub(crate) fn longest_run(code: &[Instr]) -> u16
    requires { IsAccepted code.now }
    ensures { IsLongestRun code.now result }
{
    let mut longest = [0; MOST_INSTRUCTIONS];
    for place in (0..code.len()).rev() {
        longest[place] = 1 + longest_onward(&longest, place, code[place]);
    }
    longest[0]
}

/// Returns the number of instructions of the longest run after an instruction, by those from later places. After a return
/// there is none.
fn longest_onward(longest: &[u16], place: usize, instr: Instr) -> u16
    requires { (next : ℕ) → LeadsTo place instr next → next < length longest.now }
    ensures reached { (IsReturn instr × (result ≡ 0))
        ⊎ ((next : ℕ) × LeadsTo place instr next × (result ≡ slice_index longest.now next)) }
    ensures most { (next : ℕ) → LeadsTo place instr next → slice_index longest.now next ≤ result }
{
    match instr {
        Instr::Jump(skipped) => longest_after(longest, place, skipped),
        Instr::Branch { jt, jf, .. } => {
            let met = longest_after(longest, place, u32::from(jt));
            let unmet = longest_after(longest, place, u32::from(jf));
            met.max(unmet)
        }
        Instr::RetK(_) | Instr::RetA => 0,
        _ => longest_after(longest, place, 0),
    }
}

/// Returns the number of instructions of the longest run from the place after this many skipped instructions.
fn longest_after(longest: &[u16], place: usize, skipped: u32) -> u16
    requires { place + 1 + skipped < length longest.now }
    ensures { result ≡ slice_index longest.now (place + 1 + skipped) }
{
    longest[place + 1 + skipped as usize]
}

//! Rules for classes of cells, compiled to programs.

ghost use Rattle.std.specs.Prelude.{◌≡◌, ◌≢◌, ◌⊎◌, ℕ, List, IfOk, IfErr};
ghost use Rattle.upc_c.specs.Faults.{AnswersCall, out_of_memory};
ghost use Rattle.upc_c.specs.Programs.{IsBufferFault, IsWritten};
ghost use Rattle.upc_c.specs.CompiledRules.{IsCompiled, IsRulesRefusal};
ghost use Rattle.upc_c.specs.inner.Numbered.{IsNumbered};

use crate::fault::{UpcFault, out_of_memory, report};
use crate::library_faults::rule_fault_for_c;
use crate::room::write_to;
use bpf_code::encode;
use rules_text::compile_text;
use std::alloc::Global;

/// Returns the octets of the program of the rules.
fn compiled(alloc: Global, rules: &[u8]) -> Result<Vec<u8>, UpcFault>
    ensures octets { IfOk result (λ octets. IsCompiled rules.now octets.items) }
    ensures fault { IfErr result (λ fault. IsRulesRefusal rules.now fault ⊎ (fault ≡ out_of_memory)) }
    ensures numbered { IfErr result IsNumbered }
{
    let code = match compile_text(alloc, rules) {
        Ok(code) => code,
        Err(found) => return Err(rule_fault_for_c(found)),
    };
    match encode(alloc, &code) {
        Ok(octets) => Ok(octets),
        Err(_) => Err(out_of_memory()),
    }
}

/// Compiles a text of rules: writes the octets of its program to the buffer, and their number to `count`. The check accepts
/// the program, and the program gives each cell the value of the rules. Returns the result of the error, or 0.
#[unsafe(no_mangle)]
pub extern "C" fn upc_rules_compile(
    alloc: Global,
    rules: &[u8],
    room: &mut [u8],
    count: &mut usize,
    fault: &mut UpcFault,
) -> u32
    ensures answers { AnswersCall result fault.new }
    ensures compiled { result ≡ 0 → (octets : List ℕ) × IsCompiled rules.now octets
        × IsWritten octets room.old room.new count.new }
    ensures refused { result ≢ 0 → IsRulesRefusal rules.now fault.new ⊎ (fault.new ≡ out_of_memory)
        ⊎ ((octets : List ℕ) × IsCompiled rules.now octets × IsBufferFault octets room.old fault.new) }
    ensures left { result ≢ 0 → room.new ≡ room.old }
    ensures count_left { result ≢ 0 → count.new ≡ count.old }
{
    match compiled(alloc, rules) {
        Ok(octets) => write_to(room, count, &octets, fault),
        Err(found) => report(fault, found),
    }
}

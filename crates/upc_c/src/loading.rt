//! Programs that C loads into a card.

ghost use Rattle.std.specs.Prelude.{◌≡◌, ◌≢◌, ◌<◌, ◌%◌, length, IfOk, IfErr, OnErr};
ghost use Rattle.card_core.specs.declared.reply.Reply.TheVariants.{Loaded};
ghost use Rattle.card_core.specs.declared.step.Step.TheVariants.{Load};
ghost use Rattle.upc_c.specs.CardDesk.{IsDeskFault, IsLoaded, IsLoadFault};
ghost use Rattle.upc_c.specs.CardHandle.{CardTakes, card_in};
ghost use Rattle.upc_c.specs.Faults.{AnswersCall, ragged};
ghost use Rattle.upc_c.specs.inner.Numbered.{IsNumbered};

use crate::card::UpcCard;
use crate::desk_fault::desk_fault_for_c;
use crate::fault::{ForC, UpcFault, report, report_success};
use crate::id::{UpcId, id_for_c};
use crate::program_octets::accepted;
use crate::stepping::with_core;
use bpf_verify::Program;
use gen_arena::Id;
use std::alloc::Global;

/// Takes the step `Load`.
fn load_on(alloc: Global, card: &mut UpcCard, program: Program) -> ForC<Id>
    ensures loaded { IfOk result (λ id. CardTakes card.old card.new (Load program) (Loaded id)) }
    ensures refused { IfErr result (IsDeskFault card.old card.new (Load program)) }
    ensures left { OnErr result (card_in card.new ≡ card_in card.old) }
    ensures numbered { IfErr result IsNumbered }
{
    let loaded = with_core(alloc, card, |core| core.load(program))?;
    match loaded {
        Ok(id) => Ok(id),
        Err((found, program)) => {
            drop(program);
            Err(desk_fault_for_c(found))
        }
    }
}

/// Loads the program that the octets spell, and writes its id, which no other program of the card ever has. Returns the
/// result of the error, or 0.
#[unsafe(no_mangle)]
pub extern "C" fn upc_card_load(
    alloc: Global,
    card: &mut UpcCard,
    octets: &[u8],
    id: &mut UpcId,
    fault: &mut UpcFault,
) -> u32
    ensures answers { AnswersCall result fault.new }
    ensures loaded { result ≡ 0 → IsLoaded card.old card.new octets.now id.new }
    ensures refused { result ≢ 0 → IsLoadFault card.old card.new octets.now fault.new }
    ensures ragged { 0 < length octets.now % 8 → fault.new ≡ ragged }
    ensures left { result ≢ 0 → card_in card.new ≡ card_in card.old }
    ensures id_left { result ≢ 0 → id.new ≡ id.old }
{
    let program = match accepted(alloc, octets) {
        Ok(program) => program,
        Err(found) => return report(fault, found),
    };
    match load_on(alloc, card, program) {
        Ok(loaded) => {
            *id = id_for_c(loaded);
            report_success(fault)
        }
        Err(found) => report(fault, found),
    }
}

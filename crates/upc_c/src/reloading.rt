//! Programs that C retires, or gives to a connection instead of another.

ghost use Rattle.std.specs.Prelude.{◌≡◌, ◌≢◌, List, IfOk, IfErr, OnErr, OnOk};
ghost use Rattle.bpf_code.specs.declared.instr.Instr.{Instr};
ghost use Rattle.card_core.specs.declared.reply.Reply.TheVariants.{Reloaded, Retired};
ghost use Rattle.card_core.specs.declared.step.Step.TheVariants.{Reload, Retire};
ghost use Rattle.upc_c.specs.CardDesk.{IsConnectionFault, IsDeskFault, IsReloaded, IsRetired, id_of};
ghost use Rattle.upc_c.specs.CardHandle.{CardTakes, card_in};
ghost use Rattle.upc_c.specs.Faults.{AnswersCall};
ghost use Rattle.upc_c.specs.inner.Numbered.{IsNumbered};

use crate::card::UpcCard;
use crate::desk_fault::desk_fault_for_c;
use crate::fault::{ForC, UpcFault, report, report_success};
use crate::id::{UpcId, id_for_c, id_of};
use crate::setting_up::vc_on;
use crate::stepping::with_core;
use bpf_verify::Program;
use gen_arena::Id;
use std::alloc::Global;
use upc_cell::Vc;

/// Takes the step `Retire`.
fn retire_on(alloc: Global, card: &mut UpcCard, id: Id) -> ForC<Program>
    ensures retired { IfOk result (λ program. CardTakes card.old card.new (Retire id) (Retired program)) }
    ensures refused { IfErr result (IsDeskFault card.old card.new (Retire id)) }
    ensures left { OnErr result (card_in card.new ≡ card_in card.old) }
    ensures numbered { IfErr result IsNumbered }
{
    let retired = with_core(alloc, card, |core| core.retire(id))?;
    match retired {
        Ok(program) => Ok(program),
        Err(found) => Err(desk_fault_for_c(found)),
    }
}

/// Takes the step `Reload`.
fn reload_on(alloc: Global, card: &mut UpcCard, vc: Vc, program: Id) -> ForC<Id>
    ensures reloaded { IfOk result (λ id. CardTakes card.old card.new (Reload vc program) (Reloaded id)) }
    ensures refused { IfErr result (IsDeskFault card.old card.new (Reload vc program)) }
    ensures left { OnErr result (card_in card.new ≡ card_in card.old) }
    ensures numbered { IfErr result IsNumbered }
{
    let reloaded = with_core(alloc, card, |core| core.reload(vc, program))?;
    match reloaded {
        Ok(id) => Ok(id),
        Err(found) => Err(desk_fault_for_c(found)),
    }
}

/// Retires a program that no connection names. Returns the result of the error, or 0.
#[unsafe(no_mangle)]
pub extern "C" fn upc_card_retire(
    alloc: Global,
    card: &mut UpcCard,
    program: &UpcId,
    fault: &mut UpcFault,
) -> u32
    ensures answers { AnswersCall result fault.new }
    ensures retired { result ≡ 0 → IsRetired card.old card.new program.now }
    ensures refused { result ≢ 0 → IsDeskFault card.old card.new (Retire (id_of program.now)) fault.new }
    ensures left { result ≢ 0 → card_in card.new ≡ card_in card.old }
{
    match retire_on(alloc, card, id_of(program)) {
        Ok(_) => report_success(fault),
        Err(found) => report(fault, found),
    }
}

/// Gives the connection on this path and channel another program, and writes the id of the earlier program. The connection's
/// buckets and its journal are unchanged. Returns the result of the error, or 0.
#[unsafe(no_mangle)]
pub extern "C" fn upc_card_reload(
    alloc: Global,
    card: &mut UpcCard,
    path: u16,
    channel: u16,
    program: &UpcId,
    earlier: &mut UpcId,
    fault: &mut UpcFault,
) -> u32
    ensures answers { AnswersCall result fault.new }
    ensures reloaded { result ≡ 0 → IsReloaded card.old card.new path channel program.now earlier.new }
    ensures refused { result ≢ 0 → IsConnectionFault card.old card.new path channel
        (λ vc. Reload vc (id_of program.now)) fault.new }
    ensures left { result ≢ 0 → card_in card.new ≡ card_in card.old }
    ensures earlier_left { result ≢ 0 → earlier.new ≡ earlier.old }
{
    let vc = match vc_on(alloc, card, path, channel) {
        Ok(vc) => vc,
        Err(found) => return report(fault, found),
    };
    match reload_on(alloc, card, vc, id_of(program)) {
        Ok(id) => {
            *earlier = id_for_c(id);
            report_success(fault)
        }
        Err(found) => report(fault, found),
    }
}

//! Connections that C sets up on a card.

ghost use Rattle.std.specs.Prelude.{◌≡◌, ◌≢◌, ◌⊎◌, None, IfOk, IfErr};
ghost use Rattle.card_core.specs.declared.reply.Reply.TheVariants.{SetUp};
ghost use Rattle.card_core.specs.declared.step.Step.TheVariants.{Setup};
ghost use Rattle.upc_c.specs.CardDesk.{HasNoPath, IsDeskFault, IsSetUp, IsSetupFault, IsVc, path_too_large};
ghost use Rattle.upc_c.specs.CardHandle.{CardTakes, card_in, card_missing};
ghost use Rattle.upc_c.specs.Faults.{AnswersCall, out_of_memory};
ghost use Rattle.upc_c.specs.inner.Numbered.{IsNumbered};

use crate::card::UpcCard;
use crate::contract::UpcContract;
use crate::contracts::contracts_of;
use crate::desk_fault::desk_fault_for_c;
use crate::fault::{ForC, OF_THE_CALL, UpcFault, fault_at, report, report_success};
use crate::id::{UpcId, id_of};
use crate::stepping::{shape_on, with_core};
use card_core::Ask;
use line_record::Owner;
use std::alloc::Global;
use upc_cell::Vc;

/// Returns the virtual connection of this path and channel, if the card's side has such a path.
pub(crate) fn vc_on(alloc: Global, card: &mut UpcCard, path: u16, channel: u16) -> ForC<Vc>
    ensures vc { IfOk result (IsVc card.old path channel) }
    ensures fault { IfErr result (λ fault. ((card_in card.old ≡ None) × (fault ≡ card_missing))
        ⊎ (HasNoPath card.old path × (fault ≡ path_too_large))) }
    ensures kept { card_in card.new ≡ card_in card.old }
    ensures numbered { IfErr result IsNumbered }
{
    let shape = shape_on(alloc, card)?;
    match Vc::new_at(shape.side, path, channel) {
        Ok(vc) => Ok(vc),
        Err(_) => Err(fault_at(OF_THE_CALL, 10, 0)),
    }
}

/// Takes the step `Setup`.
fn setup_on(alloc: Global, card: &mut UpcCard, ask: Ask) -> ForC<Owner>
    ensures set { IfOk result (λ owner. CardTakes card.old card.new (Setup ask) (SetUp owner)) }
    ensures refused { IfErr result (IsDeskFault card.old card.new (Setup ask)) }
    ensures left { IfErr result (λ fault. fault ≢ out_of_memory → card_in card.new ≡ card_in card.old) }
    ensures numbered { IfErr result IsNumbered }
{
    let set = with_core(alloc, card, |core| core.setup(ask))?;
    match set {
        Ok(owner) => Ok(owner),
        Err((found, _)) => Err(desk_fault_for_c(found)),
    }
}

/// Sets up a connection on this path and channel, with one to four contracts. The program names one of them for each
/// cell, by its number from 1. Returns the result of the error, or 0.
#[unsafe(no_mangle)]
pub extern "C" fn upc_card_setup(
    alloc: Global,
    card: &mut UpcCard,
    path: u16,
    channel: u16,
    program: &UpcId,
    contracts: &[UpcContract],
    fault: &mut UpcFault,
) -> u32
    ensures answers { AnswersCall result fault.new }
    ensures set { result ≡ 0 → IsSetUp card.old card.new path channel program.now contracts.now }
    ensures refused { result ≢ 0
        → IsSetupFault card.old card.new path channel program.now contracts.now fault.new }
    ensures left { result ≢ 0 → fault.new ≢ out_of_memory → card_in card.new ≡ card_in card.old }
{
    let contracts = match contracts_of(contracts) {
        Ok(contracts) => contracts,
        Err(found) => return report(fault, found),
    };
    let vc = match vc_on(alloc, card, path, channel) {
        Ok(vc) => vc,
        Err(found) => return report(fault, found),
    };
    let ask = Ask {
        vc,
        program: id_of(program),
        contracts,
    };
    match setup_on(alloc, card, ask) {
        Ok(_) => report_success(fault),
        Err(found) => report(fault, found),
    }
}

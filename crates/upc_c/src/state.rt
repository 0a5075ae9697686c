//! The state of a connection, as C reads it.

ghost use Rattle.std.specs.Prelude.{◌≡◌, ◌≢◌, ◌<◌, ◌≤◌, length, IfNone, IfSome, IfErr, IfOk, OnErr};
ghost use Rattle.card_core.specs.ConnectionState.{HasLevelsForEach};
ghost use Rattle.upc_c.specs.CardHandle.{card_in};
ghost use Rattle.upc_c.specs.CardInspection.{IsLookUpFault};
ghost use Rattle.upc_c.specs.CardState.{HasState, IsStateFault};
ghost use Rattle.upc_c.specs.Faults.{AnswersCall, no_room};
ghost use Rattle.upc_c.specs.inner.Numbered.{IsNumbered};
ghost use Rattle.upc_c.specs.inner.WrittenState.{AreMetersOf, IsMissingIn, IsStateOf, IsStateOn, IsWrittenState, levels_for_c, state_for_c};

use crate::card::UpcCard;
use crate::contract::{UpcContract, contract_for_c};
use crate::counts::{UpcCounts, counts_for_c};
use crate::desk_fault::desk_fault_for_c;
use crate::fault::{ForC, OF_THE_CALL, UpcFault, fault_at, report, report_success};
use crate::id::{UpcId, id_for_c};
use crate::meter::UpcLevels;
use crate::setting_up::vc_on;
use crate::stepping::with_core;
use card_core::{ConnectionState, Core, DeskFault};
use leaky::{Contract, Levels};
use std::alloc::Global;
use upc_cell::Vc;

/// A contract and its state.
#[repr(C)]
#[derive(Clone, Copy, Debug)]
pub struct UpcMeter {
    /// The contract.
    pub contract: UpcContract,
    /// The theoretical arrival times of its buckets, in ticks.
    pub levels: UpcLevels,
}

/// The state of a connection, without its contracts.
#[repr(C)]
#[derive(Clone, Copy, Debug)]
pub struct UpcState {
    /// The number, from 1, of its setup among those of the card.
    pub incarnation: u64,
    /// The moment of its last judged cell, in ticks, or 0 if there was none.
    pub last: u64,
    /// The number of cells in its journal.
    pub cells: usize,
    /// The number of its contracts, 1 to 4.
    pub contracts: usize,
    /// The counts of its line, including those of earlier connections.
    pub counts: UpcCounts,
    /// The program that names the contracts for its cells.
    pub program: UpcId,
    /// The number of its line, from 0.
    pub line: u16,
}

/// Returns the levels as C has them.
fn levels_for_c(levels: &Levels) -> UpcLevels
    ensures { result ≡ levels_for_c levels.now }
{
    UpcLevels {
        first: levels.first,
        second: levels.second,
    }
}

/// Writes the contracts with their levels to the front of the buffer.
fn write_meters(room: &mut [UpcMeter], contracts: &[Contract], levels: &[Levels])
    requires fits { length contracts.now ≤ length room.old }
    requires one_each { length levels.now ≡ length contracts.now }
    ensures { AreMetersOf contracts.now levels.now room.old room.new (length contracts.now) }
{
    for (place, contract) in contracts.iter().enumerate() {
        room[place] = UpcMeter {
            contract: contract_for_c(contract),
            levels: levels_for_c(&levels[place]),
        };
    }
}

/// Returns the state as C has it, without its contracts.
fn state_for_c(state: &ConnectionState) -> UpcState
    ensures { result ≡ state_for_c state.now }
{
    UpcState {
        incarnation: state.incarnation,
        last: state.state.last,
        cells: state.entries,
        contracts: state.contracts.len(),
        counts: counts_for_c(state.state.counts),
        program: id_for_c(state.program),
        line: state.line,
    }
}

/// Writes the contracts and levels of the state to the buffer, and the rest of the state to `written`.
fn write_state(state: &ConnectionState, room: &mut [UpcMeter], written: &mut UpcState) -> ForC<()>
    requires { HasLevelsForEach state.now }
    ensures written { IfOk result (λ _. IsWrittenState state.now room.old room.new written.new) }
    ensures short { IfErr result (λ _. length room.old < length state.now.contracts.items) }
    ensures fault { IfErr result (λ fault. fault ≡ no_room (length state.now.contracts.items)) }
    ensures room_left { OnErr result (room.new ≡ room.old) }
    ensures left { OnErr result (written.new ≡ written.old) }
    ensures numbered { IfErr result IsNumbered }
{
    let contracts = state.contracts.as_slice();
    if contracts.len() > room.len() {
        return Err(fault_at(OF_THE_CALL, 2, contracts.len()));
    }
    write_meters(room, contracts, state.state.levels.as_slice());
    *written = state_for_c(state);
    Ok(())
}

/// Returns the state of the connection, if there is one.
pub(crate) fn state_in(core: &Core, vc: Vc) -> Option<ConnectionState>
    ensures state { IfSome result (IsStateOf core.now vc) }
    ensures sized { IfSome result HasLevelsForEach }
    ensures none { IfNone result (IsMissingIn core.now vc) }
{
    core.line_state(vc)
}

/// Returns the state of the connection on this path and channel.
pub(crate) fn state_on(
    alloc: Global,
    card: &mut UpcCard,
    path: u16,
    channel: u16,
) -> ForC<ConnectionState>
    ensures state { IfOk result (IsStateOn card.old path channel) }
    ensures sized { IfOk result HasLevelsForEach }
    ensures fault { IfErr result (IsLookUpFault card.old path channel) }
    ensures kept { card_in card.new ≡ card_in card.old }
    ensures numbered { IfErr result IsNumbered }
{
    let vc = match vc_on(alloc, card, path, channel) {
        Ok(vc) => vc,
        Err(found) => return Err(found),
    };
    let state = with_core(alloc, card, |core| state_in(core, vc))?;
    match state {
        Some(state) => Ok(state),
        None => Err(desk_fault_for_c(DeskFault::NoConnection)),
    }
}

/// Writes the contracts of the connection on this path and channel with their levels to the front of the buffer, and the
/// rest of its state to `state`. Returns the result of the error, or 0.
#[unsafe(no_mangle)]
pub extern "C" fn upc_card_state(
    alloc: Global,
    card: &mut UpcCard,
    path: u16,
    channel: u16,
    room: &mut [UpcMeter],
    state: &mut UpcState,
    fault: &mut UpcFault,
) -> u32
    ensures answers { AnswersCall result fault.new }
    ensures state { result ≡ 0 → HasState card.old path channel room.old room.new state.new }
    ensures refused { result ≢ 0 → IsStateFault card.old path channel room.old fault.new }
    ensures kept { card_in card.new ≡ card_in card.old }
    ensures room_left { result ≢ 0 → room.new ≡ room.old }
    ensures left { result ≢ 0 → state.new ≡ state.old }
{
    let found = match state_on(alloc, card, path, channel) {
        Ok(found) => found,
        Err(refused) => return report(fault, refused),
    };
    match write_state(&found, room, state) {
        Ok(()) => report_success(fault),
        Err(refused) => report(fault, refused),
    }
}

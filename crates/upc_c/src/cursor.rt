//! The connections of a card in order, as C lists them.

ghost use Rattle.std.specs.Prelude.{◌≡◌, ◌≢◌, ◌<◌, ◌⊎◌, None, IfErr, IfOk};
ghost use Rattle.upc_c.specs.CardDesk.{HasNoPath, path_too_large};
ghost use Rattle.upc_c.specs.CardHandle.{card_in, card_missing};
ghost use Rattle.upc_c.specs.CardState.{IsCursor, IsCursorFault, IsNextOn};
ghost use Rattle.upc_c.specs.Faults.{AnswersCall};
ghost use Rattle.upc_c.specs.inner.Numbered.{IsNumbered};
ghost use Rattle.upc_c.specs.inner.WrittenState.{IsFoundOn};

use crate::card::UpcCard;
use crate::desk_fault::desk_fault_for_c;
use crate::fault::{UpcFault, report, report_success};
use crate::setting_up::vc_on;
use crate::stepping::with_core;
use card_core::DeskFault;
use std::alloc::Global;
use upc_cell::Vc;

/// A connection of a card, from which the next one is found. All zeros are before the first.
#[repr(C)]
#[derive(Clone, Copy, Debug)]
pub struct UpcCursor {
    /// 0 before the first connection; then path and channel are ignored.
    pub begun: u32,
    /// The path of the connection.
    pub path: u16,
    /// The channel of the connection.
    pub channel: u16,
}

/// Returns the connection at which the cursor is, if it has begun.
fn earlier_of(alloc: Global, card: &mut UpcCard, cursor: &UpcCursor) -> Result<Option<Vc>, UpcFault>
    ensures at { IfOk result (IsCursor card.old cursor.now) }
    ensures fault { IfErr result (λ fault. ((card_in card.old ≡ None) × (fault ≡ card_missing))
        ⊎ ((0 < cursor.now.begun) × HasNoPath card.old cursor.now.path × (fault ≡ path_too_large))) }
    ensures kept { card_in card.new ≡ card_in card.old }
    ensures numbered { IfErr result IsNumbered }
{
    if cursor.begun == 0 {
        return Ok(None);
    }
    match vc_on(alloc, card, cursor.path, cursor.channel) {
        Ok(vc) => Ok(Some(vc)),
        Err(found) => Err(found),
    }
}

/// Returns the next connection after this one, or the first, if there is one.
fn next_on(alloc: Global, card: &mut UpcCard, earlier: Option<Vc>) -> Result<Option<Vc>, UpcFault>
    ensures found { IfOk result (IsFoundOn card.old earlier) }
    ensures fault { IfErr result (λ fault. (card_in card.old ≡ None) × (fault ≡ card_missing)) }
    ensures kept { card_in card.new ≡ card_in card.old }
    ensures numbered { IfErr result IsNumbered }
{
    with_core(alloc, card, |core| core.next_vc(earlier))
}

/// Moves the cursor to the next connection, by path and then by channel. Returns the result of the error, or 0.
#[unsafe(no_mangle)]
pub extern "C" fn upc_card_next(
    alloc: Global,
    card: &mut UpcCard,
    cursor: &mut UpcCursor,
    fault: &mut UpcFault,
) -> u32
    ensures answers { AnswersCall result fault.new }
    ensures next { result ≡ 0 → IsNextOn card.old cursor.old cursor.new }
    ensures refused { result ≢ 0 → IsCursorFault card.old cursor.old fault.new }
    ensures kept { card_in card.new ≡ card_in card.old }
    ensures left { result ≢ 0 → cursor.new ≡ cursor.old }
{
    let earlier = match earlier_of(alloc, card, cursor) {
        Ok(earlier) => earlier,
        Err(found) => return report(fault, found),
    };
    match next_on(alloc, card, earlier) {
        Ok(Some(vc)) => {
            *cursor = UpcCursor {
                begun: 1,
                path: vc.vpi,
                channel: vc.vci,
            };
            report_success(fault)
        }
        Ok(None) => report(fault, desk_fault_for_c(DeskFault::NoConnection)),
        Err(found) => report(fault, found),
    }
}

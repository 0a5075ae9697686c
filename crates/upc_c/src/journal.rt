//! Journals of connections that C cuts or releases.

ghost use Rattle.std.specs.Prelude.{◌≡◌, ◌≢◌, ◌⊎◌, ◌≤◌, length, IfOk, IfErr, OnErr, IfSome, IfNone};
ghost use Rattle.card_core.specs.Agreement.{Follows};
ghost use Rattle.card_core.specs.Kept.{RefusalKeeps};
ghost use Rattle.card_core.specs.declared.step.Step.TheVariants.{Release, Cut};
ghost use Rattle.upc_c.specs.CardDesk.{IsDeskFault};
ghost use Rattle.upc_c.specs.CardHandle.{CardTakes, card_in};
ghost use Rattle.upc_c.specs.CardJournal.{IsCut, IsHandedOut, IsJournalFault, IsReleased, journal_for_c};
ghost use Rattle.upc_c.specs.Faults.{AnswersCall};
ghost use Rattle.upc_c.specs.inner.HandOut.{IsLongerIn, IsLongerOn, IsShortIn, replied, handing_reply, step_of};
ghost use Rattle.upc_c.specs.inner.ReachedCore.{IsReachedCore};
ghost use Rattle.upc_c.specs.inner.Numbered.{IsNumbered};

use crate::card::UpcCard;
use crate::counts::{UpcCounts, counts_for_c};
use crate::desk_fault::desk_fault_for_c;
use crate::entry::{UpcEntry, write_entries};
use crate::fault::{ForC, OF_THE_CALL, UpcFault, card_missing, fault_at, report, report_success};
use crate::setting_up::vc_on;
use crate::state::state_in;
use crate::stepping::{put_core, take_core};
use card_core::{Core, DeskFault};
use line_record::Piece;
use std::alloc::Global;
use upc_cell::Vc;

/// The part of a journal besides its entries, as C gets it.
#[repr(C)]
#[derive(Clone, Copy, Debug)]
pub struct UpcJournal {
    /// The number of its cells: those judged since the last cut, or since the setup.
    pub cells: usize,
    /// The counts of its line before the first cell.
    pub before: UpcCounts,
    /// The counts of its line after the last cell.
    pub after: UpcCounts,
}

/// Which of the two steps returns the journal.
#[derive(Clone, Copy)]
pub(crate) enum HandOut {
    /// `Release`: the connection ends.
    AtEnd,
    /// `Cut`: the connection remains, with an empty journal.
    GoingOn,
}

/// Returns the part of a journal besides its entries, as C has it.
fn journal_for_c(piece: &Piece) -> UpcJournal
    ensures { result ≡ journal_for_c piece.now }
{
    UpcJournal {
        cells: piece.entries().len(),
        before: counts_for_c(piece.start().counts),
        after: counts_for_c(piece.end().counts),
    }
}

/// Takes the step that `when` names, and returns the journal.
fn hand_out(core: &mut Core, vc: Vc, when: HandOut) -> Result<Piece, DeskFault>
    ensures follows { Follows core.old (step_of when vc) (replied when result) core.new }
    ensures unchanged { RefusalKeeps (replied when result) (step_of when vc) core.old core.new }
{
    match when {
        HandOut::AtEnd => core.release(vc),
        HandOut::GoingOn => core.cut(vc),
    }
}

/// Takes the step on a connection whose journal has at most `most` cells, so that the returned journal has no more.
fn hand_out_short(core: &mut Core, vc: Vc, when: HandOut, most: usize) -> Result<Piece, DeskFault>
    requires reached { IsReachedCore core.old }
    requires short { IsShortIn core.old vc most }
    ensures follows { Follows core.old (step_of when vc) (replied when result) core.new }
    ensures unchanged { RefusalKeeps (replied when result) (step_of when vc) core.old core.new }
    ensures reached { IsReachedCore core.new }
    ensures fits { IfOk result (λ piece. length piece.entries ≤ most) }
{
    hand_out(core, vc, when)
}

/// Returns the number of cells in the connection's journal, if it is above `most`.
fn too_many(core: &Core, vc: Vc, most: usize) -> Option<usize>
    ensures longer { IfSome result (IsLongerIn core.now vc most) }
    ensures fits { IfNone result (IsShortIn core.now vc most) }
{
    let Some(state) = state_in(core, vc) else {
        return None;
    };
    if state.entries <= most {
        return None;
    }
    Some(state.entries)
}

/// Takes the step on the card, if the journal has at most `most` cells. Otherwise the card is unchanged.
fn hand_out_on(alloc: Global, card: &mut UpcCard, vc: Vc, when: HandOut, most: usize) -> ForC<Piece>
    ensures handed { IfOk result (λ piece. CardTakes card.old card.new (step_of when vc) (handing_reply when piece)) }
    ensures fits { IfOk result (λ piece. length piece.entries ≤ most) }
    ensures refused { IfErr result (λ fault.
        IsDeskFault card.old card.new (step_of when vc) fault ⊎ IsLongerOn card.old vc most fault) }
    ensures left { OnErr result (card_in card.new ≡ card_in card.old) }
    ensures numbered { IfErr result IsNumbered }
{
    let Some(mut core) = take_core(alloc, card) else {
        return Err(card_missing());
    };
    if let Some(cells) = too_many(&core, vc, most) {
        put_core(card, core);
        return Err(fault_at(OF_THE_CALL, 2, cells));
    }
    let handed = hand_out_short(&mut core, vc, when, most);
    put_core(card, core);
    match handed {
        Ok(piece) => Ok(piece),
        Err(found) => Err(desk_fault_for_c(found)),
    }
}

/// Takes the step on this path and channel, and writes the journal's entries to the buffer and the rest to `journal`.
fn hand_out_to(
    alloc: Global,
    card: &mut UpcCard,
    path: u16,
    channel: u16,
    when: HandOut,
    room: &mut [UpcEntry],
    journal: &mut UpcJournal,
) -> ForC<()>
    ensures handed { IfOk result (λ _. IsHandedOut card.old card.new path channel
        (step_of when) (handing_reply when) room.old room.new journal.new) }
    ensures refused { IfErr result (IsJournalFault card.old card.new path channel (step_of when) room.old) }
    ensures left { OnErr result (card_in card.new ≡ card_in card.old) }
    ensures room_left { OnErr result (room.new ≡ room.old) }
    ensures journal_left { OnErr result (journal.new ≡ journal.old) }
    ensures numbered { IfErr result IsNumbered }
{
    let vc = match vc_on(alloc, card, path, channel) {
        Ok(vc) => vc,
        Err(found) => return Err(found),
    };
    match hand_out_on(alloc, card, vc, when, room.len()) {
        Ok(piece) => {
            write_entries(room, piece.entries());
            *journal = journal_for_c(&piece);
            Ok(())
        }
        Err(found) => Err(found),
    }
}

/// Releases the connection on this path and channel, writes the entries of its last journal to the front of the buffer,
/// and writes the counts before and after them. Returns the result of the error, or 0.
#[unsafe(no_mangle)]
pub extern "C" fn upc_card_release(
    alloc: Global,
    card: &mut UpcCard,
    path: u16,
    channel: u16,
    room: &mut [UpcEntry],
    journal: &mut UpcJournal,
    fault: &mut UpcFault,
) -> u32
    ensures answers { AnswersCall result fault.new }
    ensures released { result ≡ 0 → IsReleased card.old card.new path channel room.old room.new journal.new }
    ensures refused { result ≢ 0 → IsJournalFault card.old card.new path channel Release room.old fault.new }
    ensures left { result ≢ 0 → card_in card.new ≡ card_in card.old }
    ensures room_left { result ≢ 0 → room.new ≡ room.old }
    ensures journal_left { result ≢ 0 → journal.new ≡ journal.old }
{
    match hand_out_to(alloc, card, path, channel, HandOut::AtEnd, room, journal) {
        Ok(()) => report_success(fault),
        Err(found) => report(fault, found),
    }
}

/// Cuts the journal of the connection on this path and channel, writes its entries to the front of the buffer, and
/// writes the counts before and after them. The buckets and the last moment are unchanged. Returns the result of the
/// error, or 0.
#[unsafe(no_mangle)]
pub extern "C" fn upc_card_cut(
    alloc: Global,
    card: &mut UpcCard,
    path: u16,
    channel: u16,
    room: &mut [UpcEntry],
    journal: &mut UpcJournal,
    fault: &mut UpcFault,
) -> u32
    ensures answers { AnswersCall result fault.new }
    ensures cut { result ≡ 0 → IsCut card.old card.new path channel room.old room.new journal.new }
    ensures refused { result ≢ 0 → IsJournalFault card.old card.new path channel Cut room.old fault.new }
    ensures left { result ≢ 0 → card_in card.new ≡ card_in card.old }
    ensures room_left { result ≢ 0 → room.new ≡ room.old }
    ensures journal_left { result ≢ 0 → journal.new ≡ journal.old }
{
    match hand_out_to(alloc, card, path, channel, HandOut::GoingOn, room, journal) {
        Ok(()) => report_success(fault),
        Err(found) => report(fault, found),
    }
}

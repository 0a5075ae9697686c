//! The table of the counts of each connection.

ghost use Rattle.std.specs.Prelude.{◌≡◌, ◌<◌, ◌^◌, ◌++◌, List, ℕ, OnOk, codes, decimal};
ghost use Rattle.card_core.specs.Agreement.{CoreAgrees};
ghost use Rattle.card_core.specs.World.{World};
ghost use Rattle.text_script.specs.ReplyTexts.{channel_name};
ghost use Rattle.cmd_setups.specs.Columns.{in_column};
ghost use Rattle.cmd_setups.specs.ConnectionCounts.{connection_counts, counts_heading, counts_line, counts_lines};
ghost use Rattle.cmd_setups.specs.CountsAtSetup.{AreCountsAtSetup};
ghost use Rattle.cmd_setups.specs.OrderNumber.{order_number};

use crate::columns::{add_channel_column, add_number_column};
use crate::counts_at_setup::CountsAtSetup;
use card_core::Core;
use line_record::Tally;
use std::alloc::AllocError;
use text_words::{add_number, add_text};
use upc_cell::{Side, Vc};

/// Appends the heading of the table.
fn add_counts_heading(answers: &mut Vec<u8>) -> Result<(), AllocError>
    ensures { OnOk result (answers.new.items ≡ answers.old.items ++ counts_heading) }
{
    add_text(answers, b"vpi\tvci\tpassed\ttagged\tdiscarded\trefused\n")
}

/// Appends the columns of a connection before the last one.
#[tactic(auto, using(std::proofs::lemmas::List::append_assoc))]
fn add_first_counts(
    answers: &mut Vec<u8>,
    side: Side,
    vc: Vc,
    counts: Tally,
) -> Result<(), AllocError>
    ensures { (rest : List ℕ) → OnOk result (answers.new.items ++ rest ≡ answers.old.items ++ (in_column (decimal vc.vpi)
        ++ (in_column (channel_name side vc.vci) ++ (in_column (decimal counts.passed) ++ (in_column (decimal counts.tagged)
        ++ (in_column (decimal counts.discarded) ++ rest)))))) }
{
    add_number_column(answers, u64::from(vc.vpi))?;
    add_channel_column(answers, side, vc.vci)?;
    add_number_column(answers, counts.passed)?;
    add_number_column(answers, counts.tagged)?;
    add_number_column(answers, counts.discarded)
}

/// Appends a number and a line feed.
#[tactic(auto, using(std::proofs::lemmas::List::append_assoc))]
fn add_last_count(answers: &mut Vec<u8>, count: u64) -> Result<(), AllocError>
    ensures { OnOk result (answers.new.items ≡ answers.old.items ++ (decimal count ++ codes "\n")) }
{
    add_number(answers, count)?;
    add_text(answers, b"\n")
}

/// Appends the line of a connection.
pub(crate) fn add_counts_line(
    answers: &mut Vec<u8>,
    side: Side,
    vc: Vc,
    counts: Tally,
) -> Result<(), AllocError>
    ensures { OnOk result (answers.new.items ≡ answers.old.items ++ counts_line side vc counts) }
{
    add_first_counts(answers, side, vc, counts)?;
    add_last_count(answers, counts.refused)
}

/// Appends the line of this connection, if the card has it.
fn add_counts_of(
    answers: &mut Vec<u8>,
    core: &Core,
    at_setup: &CountsAtSetup,
    vc: Vc,
) -> Result<(), AllocError>
    ensures { (world : World) → CoreAgrees core.now world → AreCountsAtSetup at_setup.now.counts.items world
        → OnOk result (answers.new.items ≡ answers.old.items ++ connection_counts world vc) }
{
    match at_setup.own_counts(core, vc) {
        Some(counts) => add_counts_line(answers, core.shape().side, vc, counts),
        None => Ok(()),
    }
}

/// Returns the number of a connection in the order of path and channel.
pub(crate) fn order_number(vc: Vc) -> u64
    ensures number { result ≡ order_number vc }
    ensures bounded { result < 2 ^ 28 }
    ensures channel { vc.vci < 65536 }
{
    65536 * u64::from(vc.vpi) + u64::from(vc.vci)
}

/// Appends the lines of all connections, in order of path and channel.
fn add_all_counts(
    answers: &mut Vec<u8>,
    core: &Core,
    at_setup: &CountsAtSetup,
) -> Result<(), AllocError>
    ensures { (world : World) → CoreAgrees core.now world → AreCountsAtSetup at_setup.now.counts.items world
        → OnOk result (answers.new.items ≡ answers.old.items ++ counts_lines world) }
{
    let mut earlier = None;
    // The connections with a smaller number have their lines already.
    let mut least = 0;
    while let Some(vc) = core.next_vc(earlier) {
        let number = order_number(vc);
        // A card lists its connections in this order. The test is there for the proof that the loop ends.
        if number < least {
            break;
        }
        add_counts_of(answers, core, at_setup, vc)?;
        earlier = Some(vc);
        least = number + 1;
    }
    Ok(())
}

/// Appends the table: its heading, and the line of each connection, in order of path and channel.
///
/// # Errors
///
/// `AllocError` if an allocation failed.
#[tactic(auto, using(std::proofs::lemmas::List::append_assoc))]
pub fn add_counts(
    answers: &mut Vec<u8>,
    core: &Core,
    at_setup: &CountsAtSetup,
) -> Result<(), AllocError>
    ensures { (world : World) → CoreAgrees core.now world → AreCountsAtSetup at_setup.now.counts.items world → OnOk result (answers.new.items
        ≡ answers.old.items ++ (counts_heading ++ counts_lines world)) }
{
    add_counts_heading(answers)?;
    add_all_counts(answers, core, at_setup)
}

//! The lines of `fit`. Each function appends to the answers.

ghost use Rattle.std.specs.Prelude.{◌≡◌, ◌++◌, [], IfOk, OnOk, codes, decimal, flat_map};
ghost use Rattle.std.specs.Map.{values_of};
ghost use Rattle.cmd_fit.specs.FitText.{channel_column, connection_columns, fit_fault_line, fit_line, fit_lines, flow_key, heading, limit_columns, put_in_order, value_column};
ghost use Rattle.cmd_fit.specs.inner.FlowPlaces.{IsSmall};

use crate::fault::FitFault;
use crate::flow::Flow;
use crate::flow_fit::FlowFit;
use std::alloc::{AllocError, Global};
use std::collections::BTreeMap;
use text_words::{add_number, add_numbered, add_text};
use upc_cell::{Side, Vc};

/// Appends the heading.
pub(crate) fn add_heading(answers: &mut Vec<u8>, valued: bool) -> Result<(), AllocError>
    ensures { OnOk result (answers.new.items ≡ answers.old.items ++ heading valued) }
{
    if valued {
        add_text(answers, b"vpi\tvci\tvalue\tcells\tlimit\trecord\n")
    } else {
        add_text(answers, b"vpi\tvci\tcells\tlimit\trecord\n")
    }
}

/// Appends a number and a tab.
#[tactic(auto, using(std::proofs::lemmas::List::append_assoc))]
fn add_column(answers: &mut Vec<u8>, number: u64) -> Result<(), AllocError>
    ensures { OnOk result (answers.new.items ≡ answers.old.items ++ (decimal number ++ codes "\t")) }
{
    add_number(answers, number)?;
    add_text(answers, b"\t")
}

/// Appends the channel of a connection and a tab, or a star where connections are virtual paths.
fn add_channel(answers: &mut Vec<u8>, side: Side, vci: u16) -> Result<(), AllocError>
    ensures { OnOk result (answers.new.items ≡ answers.old.items ++ channel_column side vci) }
{
    if side.has_paths() {
        add_text(answers, b"*\t")
    } else {
        add_column(answers, u64::from(vci))
    }
}

/// Appends the columns of a connection.
#[tactic(auto, using(std::proofs::lemmas::List::append_assoc))]
fn add_connection(answers: &mut Vec<u8>, side: Side, vc: Vc) -> Result<(), AllocError>
    ensures { OnOk result (answers.new.items ≡ answers.old.items ++ connection_columns side vc) }
{
    add_column(answers, u64::from(vc.vpi))?;
    add_channel(answers, side, vc.vci)
}

/// Appends a value and a tab, if rules are given.
fn add_value(answers: &mut Vec<u8>, valued: bool, value: u32) -> Result<(), AllocError>
    ensures { OnOk result (answers.new.items ≡ answers.old.items ++ value_column valued value) }
{
    if valued {
        add_column(answers, u64::from(value))
    } else {
        Ok(())
    }
}

/// Appends the columns after those of the flow, and ends the line.
#[tactic(auto, using(std::proofs::lemmas::List::append_assoc))]
fn add_limit(answers: &mut Vec<u8>, fit: &FlowFit) -> Result<(), AllocError>
    ensures { OnOk result (answers.new.items ≡ answers.old.items ++ limit_columns fit.now) }
{
    add_column(answers, fit.cells)?;
    add_column(answers, fit.limit)?;
    add_number(answers, fit.number)?;
    add_text(answers, b"\n")
}

/// Appends the line of a flow.
#[tactic(auto, using(std::proofs::lemmas::List::append_assoc))]
fn add_fit_line(
    answers: &mut Vec<u8>,
    side: Side,
    valued: bool,
    fit: &FlowFit,
) -> Result<(), AllocError>
    ensures { OnOk result (answers.new.items ≡ answers.old.items ++ fit_line side valued fit.now) }
{
    add_connection(answers, side, fit.flow.vc)?;
    add_value(answers, valued, fit.flow.value)?;
    add_limit(answers, fit)
}

/// Returns the number that orders flows by path, channel and value.
pub(crate) fn key_of(flow: Flow) -> u64
    ensures key { result ≡ flow_key flow }
    ensures small { IsSmall flow }
{
    let connection = 65536 * u32::from(flow.vc.vpi) + u32::from(flow.vc.vci);
    4294967296 * u64::from(connection) + u64::from(flow.value)
}

/// Returns the states in order of path, channel and value.
fn in_order(alloc: Global, fits: &[FlowFit]) -> Result<BTreeMap<u64, FlowFit>, AllocError>
    ensures { IfOk result (λ ordered. ordered.entries ≡ put_in_order [] fits.now) }
{
    let mut ordered = BTreeMap::new(alloc);
    for fit in fits {
        ordered.insert(key_of(fit.flow), *fit)?;
    }
    Ok(ordered)
}

/// Appends the lines of these states.
fn add_ordered(
    answers: &mut Vec<u8>,
    side: Side,
    valued: bool,
    ordered: &BTreeMap<u64, FlowFit>,
) -> Result<(), AllocError>
    ensures { OnOk result (answers.new.items ≡ answers.old.items ++ flat_map (fit_line side valued) (values_of ordered.now.entries)) }
{
    for fit in ordered.values() {
        add_fit_line(answers, side, valued, fit)?;
    }
    Ok(())
}

/// Appends the lines of these states, in order of path, channel and value.
pub(crate) fn add_fit_lines(
    alloc: Global,
    answers: &mut Vec<u8>,
    side: Side,
    valued: bool,
    fits: &[FlowFit],
) -> Result<(), AllocError>
    ensures { OnOk result (answers.new.items ≡ answers.old.items ++ fit_lines side valued fits.now) }
{
    let ordered = in_order(alloc, fits)?;
    add_ordered(answers, side, valued, &ordered)
}

/// Appends the answer to a cell that ends the run, whose record has this number.
pub(crate) fn add_fit_fault(
    answers: &mut Vec<u8>,
    fault: FitFault,
    number: u64,
) -> Result<(), AllocError>
    ensures { OnOk result (answers.new.items ≡ answers.old.items ++ fit_fault_line fault number) }
{
    match fault {
        FitFault::TooManyConnections => {
            add_numbered(answers, b"fault fit 1 TooManyConnections ", number as usize)
        }
        FitFault::TooLarge => add_numbered(answers, b"fault fit 2 TooLarge ", number as usize),
    }
}

//! The least limits of the connections of a capture.

ghost use Rattle.std.specs.Prelude.{◌≡◌, is_some, option_map};
ghost use Rattle.text_io.specs.Serving.{IsServed};
ghost use Rattle.upc_cell.specs.Header.{clp_of};
ghost use Rattle.cmd_fit.specs.FitAsked.{IsFitAsked, scope_of};
ghost use Rattle.cmd_fit.specs.FitText.{IsFitText, fit_start};
ghost use Rattle.cmd_fit.specs.Fits.{is_of_class};
ghost use Rattle.cmd_fit.specs.Flows.{cell_value, flow_of};
ghost use Rattle.cmd_fit.specs.inner.FitShown.{fit_world};
ghost use Rattle.cmd_fit.specs.inner.RulesHeld.{rules_held};

use crate::cell_values::CellValues;
use crate::fit_lines::{add_fit_fault, add_heading};
use crate::flow::Flow;
use crate::flows::Flows;
use crate::given_rules::{GivenRules, read_given};
use captures::Fault;
use captures_text::{
    CapturedCell, CellFollower, FitChoice, Followed, ReadingSummary, add_closing, follow_cells,
    write_faults,
};
use std::alloc::Global;
use std::thread::Threads;
use text_io::{Added, Ending, Input, Output, RunFault, Turn};
use upc_cell::{Cell, Side};

/// Returns the cell loss priority of a cell.
fn clp_number(cell: &Cell) -> u8
    ensures { result ≡ clp_of cell.now }
{
    if cell.clp() { 1 } else { 0 }
}

/// Returns whether a cell has this cell loss priority, or none is asked for.
fn is_of_class(cell: &Cell, clp: Option<u8>) -> bool
    ensures { result ≡ is_of_class clp cell.now }
{
    match clp {
        None => true,
        Some(clp) => clp_number(cell) == clp,
    }
}

/// Returns the value of a cell, or 0 without rules.
fn cell_value(values: &Option<CellValues>, cell: &Cell) -> u32
    ensures { result ≡ cell_value (rules_held values.now) cell.now }
{
    match values {
        Some(values) => values.value(cell),
        None => 0,
    }
}

/// A run of `fit`.
#[derive(Drop)]
pub(crate) struct FitRun {
    alloc: Global,
    /// The increment of each bucket, in ticks.
    increment: u64,
    /// The side at which headers are read.
    side: Side,
    /// The rules by whose values lines are told apart, if any are given.
    values: Option<CellValues>,
    /// The cell loss priority of the cells that are read, if not all are.
    clp: Option<u8>,
    flows: Flows,
}

impl FitRun {
    /// Starts a run.
    fn new(alloc: Global, choice: FitChoice, values: Option<CellValues>) -> FitRun
        ensures { fit_world result ≡ fit_start (scope_of choice (rules_held values)) }
    {
        FitRun {
            alloc,
            increment: choice.increment,
            side: choice.side,
            values,
            clp: choice.clp,
            flows: Flows::new(alloc),
        }
    }

    /// Returns whether rules are given.
    fn is_valued(&self) -> bool
        ensures { result ≡ is_some (rules_held self.now.values) }
    {
        match &self.values {
            Some(_) => true,
            None => false,
        }
    }

    /// Returns the flow of a cell.
    fn flow_of(&self, cell: &Cell) -> Flow
        ensures { result ≡ flow_of self.now.side (rules_held self.now.values) cell.now }
    {
        Flow {
            vc: cell.vc_at(self.side),
            value: cell_value(&self.values, cell),
        }
    }
}

impl CellFollower for FitRun {
    ghost use Rattle.std.specs.Prelude.{◌≡◌};
    ghost use Rattle.captures_text.specs.inner.FixedRules.{fixed_total};
    ghost use Rattle.cmd_fit.specs.FitText.{FitWorld, fit_closes, fit_rules, fit_steps};
    ghost use Rattle.cmd_fit.specs.inner.FitShown.{fit_world};

    ghost World = { FitWorld };

    ghost shows = { λ run world. world ≡ fit_world run };

    ghost rules = { fit_rules };

    fn follow_cell(&mut self, captured: &CapturedCell, answers: &mut Vec<u8>) -> Followed {
        if !is_of_class(&captured.cell, self.clp) {
            return Ok(Turn::GoesOn);
        }
        let flow = self.flow_of(&captured.cell);
        match self
            .flows
            .take(self.increment, flow, captured.moment, captured.number)?
        {
            None => Ok(Turn::GoesOn),
            Some(fault) => {
                add_fit_fault(answers, fault, captured.number)?;
                Ok(Turn::Ends)
            }
        }
    }

    fn close(&self, summary: &ReadingSummary, end: Option<Fault>, answers: &mut Vec<u8>) -> Added {
        let valued = self.is_valued();
        add_heading(answers, valued)?;
        self.flows
            .add_lines(self.alloc, answers, self.side, valued)?;
        add_closing(answers, summary, end)
    }

    ghost is_total = { fixed_total fit_steps fit_closes };
}

/// Answers a capture by the least limits of its flows.
fn fit_cells<R: Threads, I: Input + Send, O: Output>(
    rt: &R,
    threads: usize,
    alloc: Global,
    choice: FitChoice,
    values: Option<CellValues>,
    input: &mut I,
    output: &mut O,
) -> Ending
    ensures { IsServed (IsFitText (scope_of choice (rules_held values)) choice.tick.nanoseconds choice.link choice.timing)
        I.Input input.old input.new O.Output output.old output.new result }
{
    let mut run = FitRun::new(alloc, choice, values);
    follow_cells(
        rt,
        threads,
        alloc,
        choice.tick,
        choice.link,
        choice.timing,
        input,
        output,
        &mut run,
    )
}

/// Answers a capture by a table. For each connection it has the least limit, in ticks, under which all cells of the
/// connection conform to one bucket of the choice's increment: the observed cell delay variation. A line for each
/// connection, in order of path and channel, has its path, its channel, the number of its cells, the limit, and the number of the
/// first record whose cell needs that limit. `upc-lab cells` writes the same cells at the same moments. Headers are
/// read at the side of the choice, which also says whether connections are virtual channels or paths. If a cell loss
/// priority is asked for, a line is about the cells that have it, and the others count for nothing.
///
/// `rules` are the octets of a text of rules, if one is given. A line is then about the cells of a connection to which
/// the rules give one value, and has that value after the channel; the lines of a connection are in order of their
/// values. Cells with the value 0, which a card refuses, have a line too. A text with a fault is answered by the fault,
/// and nothing is read.
///
/// The run ends at a cell of a 65,536th connection, or of a 65,536th line if rules are given, and at a cell after which 64 bits don't hold
/// the number of its line's cells or the ticks in its bucket. If no link is asked for, a cell of a second link ends the run. Comments say
/// how many records were passed over and why. Memory is bounded: that of [`follow_cells`], at most some 60 MB with 65,535 lines, less than
/// one MB with a few hundred, and the rules with their code.
///
/// With `threads` above 1, records are read on one thread while the cells of earlier ones are answered on another, as
/// in [`follow_cells`]. The output is the same as with one.
///
/// # Errors
///
/// See [`RunFault`].
pub fn fit_capture<R: Threads, I: Input + Send, O: Output>(
    rt: &R,
    threads: usize,
    alloc: Global,
    choice: FitChoice,
    rules: Option<&[u8]>,
    input: &mut I,
    output: &mut O,
) -> Ending
    ensures { IsServed (IsFitAsked choice (option_map (λ text. text.now) rules.entry)) I.Input input.old input.new O.Output output.old output.new result }
{
    match read_given(alloc, rules) {
        Err(_) => Err(RunFault::NoMemory),
        Ok(GivenRules::Faulty(answer)) => write_faults(output, answer),
        Ok(GivenRules::Held(values)) => {
            fit_cells(rt, threads, alloc, choice, values, input, output)
        }
    }
}

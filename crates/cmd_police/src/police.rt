//! The cells of a capture, policed.

ghost use Rattle.std.specs.Prelude.{◌≡◌, ◌≤◌, ◌++◌, ◌||◌, List, ℕ, IfOk, OnOk, option_map};
ghost use Rattle.card_core.specs.Sections.{answer_to};
ghost use Rattle.card_core.specs.Agreement.{CoreAgrees};
ghost use Rattle.card_core.specs.World.{Connection, World};
ghost use Rattle.line_record.specs.History.{numbered};
ghost use Rattle.text_io.specs.Serving.{IsServed};
ghost use Rattle.upc_cell.specs.Connection.{vc_of};
ghost use Rattle.cmd_police.specs.PoliceLines.{excess_of_answer};
ghost use Rattle.cmd_police.specs.PoliceText.{IsPoliceText, police_gap};
ghost use Rattle.cmd_setups.specs.inner.ExcessLeft.{IsKeptOnLine, LeavesConnection, excess_left, first_met};
ghost use Rattle.cmd_police.specs.StoredRules.{shown_stored};
ghost use Rattle.cmd_setups.specs.SpanCounts.{spans_start, ticks_of_span};
ghost use Rattle.cmd_police.specs.inner.PoliceShown.{AddsCell};
ghost use Rattle.cmd_setups.specs.SpansShown.{ShowsSpans, own_begun_after};

use crate::cell_columns::add_cell_columns;
use crate::cell_lines::{add_heading_once, has_line};
use crate::program_rules::LoadedRules;
use crate::rule_column::end_line;
use crate::scope::PoliceScope;
use captures::{Fault, Tick};
use captures_text::{
    CapturedCell, CellFollower, Followed, LineChoice, ReadingSummary, add_closing, follow_cells,
    write_faults,
};
use card_core::{Core, Judgement, Unjudged};
use cmd_run::ScriptCard;
use cmd_setups::{
    NotJudged, SetUp, SpanLength, Spans, TimedCard, add_counts, add_not_judged, add_run_comments,
    add_waiting, set_up,
};
use leaky::{Excess, Levels, Verdict, excess_at};
use line_record::Line;
use std::alloc::{AllocError, Global};
use std::thread::Threads;
use text_io::{Added, Ending, Input, Output, RunFault, Turn};
use upc_cell::{Cell, Side, Vc};

/// Returns the item with this number, counted from 1, if there is one.
fn numbered<T: Copy>(items: &[T], number: u32) -> Option<T>
    ensures { result ≡ numbered items.now number }
{
    if number == 0 {
        return None;
    }
    items.get(number as usize - 1).copied()
}

/// Returns the levels by which the excess of a cell that didn't pass is found. `levels` are those after the cell. They are those before it,
/// too, unless it was tagged: then it conformed to bucket 1 and filled it, so bucket 1 counts as empty.
fn levels_to_explain(verdict: Verdict, levels: Levels) -> Levels
    ensures first { result.first ≡ first_met verdict levels.first }
    ensures second { result.second ≡ levels.second }
{
    match verdict {
        Verdict::Tag => Levels {
            first: 0,
            second: levels.second,
        },
        Verdict::Pass | Verdict::Discard | Verdict::Refuse => levels,
    }
}

/// Returns by how much a cell came too early that was judged on this line and didn't pass. The line is as the cell left it.
fn excess_left(line: &Line, judged: &Judgement, clp: bool) -> Option<Excess>
    ensures { (connection : Connection) → IsKeptOnLine connection line.now → line.now.state.last ≤ judged.now.moment
        → result ≡ excess_left connection judged.now.value judged.now.verdict clp judged.now.moment }
{
    let contract = numbered(line.contracts(), judged.value)?;
    let levels = numbered(line.state().levels.as_slice(), judged.value)?;
    let met = levels_to_explain(judged.verdict, levels);
    excess_at(&contract, &met, clp, judged.moment)
}

/// Returns by how much a cell with this answer came too early. Its line is read only if it didn't pass, and as the cell left the line: a
/// cell changes no bucket to which it doesn't conform.
fn excess_of(
    core: &Core,
    vc: Vc,
    clp: bool,
    decision: &Result<Judgement, Unjudged>,
) -> Option<Excess>
    ensures { (before after : World) (cell : List ℕ) → CoreAgrees core.now after
        → LeavesConnection before.connections after.connections vc clp (answer_to cell decision.now)
        → result ≡ excess_of_answer before vc clp (answer_to cell decision.now) }
{
    let Ok(judged) = decision else {
        return None;
    };
    if judged.verdict == Verdict::Pass {
        return None;
    }
    let line = core.line_of(vc)?;
    excess_left(line, judged, clp)
}

/// Appends the text for a cell that arrived with this answer. Returns whether the heading was written, now or before. The card is as the
/// cell left it.
#[inline(always)]
fn add_cell(
    answers: &mut Vec<u8>,
    side: Side,
    lines: LineChoice,
    rules: &Option<LoadedRules>,
    has_heading: bool,
    captured: &CapturedCell,
    decision: &Result<Judgement, Unjudged>,
    card: &ScriptCard,
) -> Result<bool, AllocError>
    ensures { IfOk result (AddsCell side lines (shown_stored rules.now) has_heading captured.now (vc_of side captured.now.cell)
        (answer_to captured.now.cell decision.now) card.now answers.old.items answers.new.items) }
{
    if !has_line(lines, decision) {
        return Ok(has_heading);
    }
    let cell = &captured.cell;
    let vc = cell.vc_at(side);
    let clp = cell.clp();
    let excess = excess_of(card.core(), vc, clp, decision);
    add_heading_once(answers, has_heading, rules)?;
    add_cell_columns(
        answers,
        side,
        captured.number,
        captured.moment,
        vc,
        clp,
        decision,
        excess,
    )?;
    end_line(answers, rules, card, decision, cell)?;
    Ok(true)
}

/// Appends an empty line if there are lines before it.
pub(crate) fn add_gap(answers: &mut Vec<u8>, has_lines: bool) -> Added
    ensures { OnOk result (answers.new.items ≡ answers.old.items ++ police_gap has_lines) }
{
    if !has_lines {
        return Ok(());
    }
    answers.push(b'\n')?;
    Ok(())
}

/// Returns whether lines are written before the table.
fn has_lines_before(has_heading: bool, spans: &Spans, commanded: bool) -> bool
    ensures { result ≡ ((has_heading || own_begun_after spans.now) || commanded) }
{
    has_heading || spans.is_begun_after() || commanded
}

/// What is chosen for a run of `police`.
#[derive(Clone, Copy)]
pub struct PoliceChoice {
    /// How many threads may work at once.
    pub threads: usize,
    /// Which cells are policed, and what is written about them.
    pub scope: PoliceScope,
}

/// A run of `police`.
#[derive(Drop)]
pub(crate) struct PoliceRun {
    /// Which cells have lines.
    lines: LineChoice,
    /// The rules that these lines show, if they show rules.
    rules: Option<LoadedRules>,
    /// How long a tick is.
    tick: Tick,
    timed: TimedCard,
    /// Whether commands were carried out.
    commanded: bool,
    /// Whether the heading was written.
    has_heading: bool,
    spans: Spans,
    not_judged: NotJudged,
}

impl CellFollower for PoliceRun {
    ghost use Rattle.cmd_police.specs.PoliceText.{PoliceWorld, police_rules};
    ghost use Rattle.cmd_police.specs.inner.PoliceShown.{ShowsPolice};
    ghost use Rattle.cmd_police.specs.inner.PoliceTotal.{police-total};

    ghost World = { PoliceWorld };

    ghost shows = { ShowsPolice };

    ghost rules = { police_rules };

    #[inline(always)]
    fn follow_cell(&mut self, captured: &CapturedCell, answers: &mut Vec<u8>) -> Followed {
        let cell = &captured.cell;
        let moment = captured.moment;
        let carried = self.timed.carry_out(moment, answers)?;
        self.commanded |= carried;
        let side = self.timed.core().shape().side;
        self.spans.go_on(moment, answers)?;
        let Some(decision) = self.timed.arrive(cell, moment) else {
            return Ok(Turn::GoesOn);
        };
        self.has_heading = add_cell(
            answers,
            side,
            self.lines,
            &self.rules,
            self.has_heading,
            captured,
            &decision,
            &self.timed.card,
        )?;
        self.spans.count(side, cell, &decision)?;
        self.not_judged.count(captured.number, &decision);
        Ok(Turn::GoesOn)
    }

    fn close(&self, summary: &ReadingSummary, end: Option<Fault>, answers: &mut Vec<u8>) -> Added {
        self.spans.add_present(answers)?;
        add_gap(
            answers,
            has_lines_before(self.has_heading, &self.spans, self.commanded),
        )?;
        add_counts(answers, self.timed.core(), &self.timed.at_setup)?;
        add_not_judged(answers, &self.not_judged)?;
        add_waiting(answers, &self.timed.commands)?;
        add_run_comments(answers, self.tick, summary)?;
        add_closing(answers, summary, end)
    }

    ghost is_total = { police-total };
}

/// Returns the spans of a run at first.
fn spans_of(alloc: Global, side: Side, scope: PoliceScope, tick: Tick) -> Spans
    ensures { ShowsSpans result (spans_start side (option_map (λ nanoseconds. ticks_of_span nanoseconds tick.nanoseconds) scope.every)) }
{
    let length = match scope.every {
        Some(nanoseconds) => Some(SpanLength::new(nanoseconds, tick)),
        None => None,
    };
    Spans::new(alloc, side, length)
}

/// Polices the cells of a capture by a card that a setup script opens. `times` has for each line of the script its time in nanoseconds from
/// moment 0 on, or None. A line with a time is carried out before the first cell at or after that time. A script with a fault is explained,
/// and nothing is policed. Cells count, and have their moments, as in `upc-lab cells`. Long journals are dropped, so that 2^62 cells are
/// judged on each line. If rules are given, the line of each cell shows the rule that gave the cell its value. If spans are asked for, lines
/// after the last cell of each span have the counts of each connection in that span. At the end a table has the counts of each connection
/// since its setup. docs/LAB.md has the format.
///
/// With more than one thread, records are read on one thread while the cells of earlier ones are judged on another, as in
/// [`follow_cells`]. The output is the same.
///
/// Memory is bounded: that of the card, of the counts of each connection in one span, and that of [`follow_cells`].
///
/// # Errors
///
/// See [`RunFault`].
pub fn police_capture<R: Threads, I: Input + Send, O: Output>(
    rt: &R,
    alloc: Global,
    setup: &[u8],
    times: &[Option<u64>],
    rules: Option<LoadedRules>,
    choice: PoliceChoice,
    tick: Tick,
    input: &mut I,
    output: &mut O,
) -> Ending
    ensures { IsServed (IsPoliceText choice.scope tick.nanoseconds (shown_stored rules) setup.now times.now) I.Input input.old input.new O.Output output.old output.new result }
{
    match set_up(alloc, setup, times, tick) {
        Err(_) => Err(RunFault::NoMemory),
        Ok(SetUp::Faulty(text)) => write_faults(output, text),
        Ok(SetUp::Ready(timed)) => {
            let spans = spans_of(alloc, timed.core().shape().side, choice.scope, tick);
            let mut run = PoliceRun {
                lines: choice.scope.lines,
                rules,
                tick,
                timed,
                commanded: false,
                has_heading: false,
                spans,
                not_judged: NotJudged::none(),
            };
            follow_cells(
                rt,
                choice.threads,
                alloc,
                tick,
                choice.scope.link,
                choice.scope.timing,
                input,
                output,
                &mut run,
            )
        }
    }
}

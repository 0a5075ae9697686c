//! The spans of time of a run.

ghost use Rattle.std.specs.Prelude.{◌≡◌, ◌++◌, OnOk, option_map};
ghost use Rattle.card_core.specs.Sections.{answer_to};
ghost use Rattle.upc_cell.specs.Connection.{vc_of};
ghost use Rattle.cmd_setups.specs.SpanCounts.{SpansWorld, span_begin, next_span, spans_after, spans_at, spans_start};
ghost use Rattle.cmd_setups.specs.SpansShown.{ShowsSpans, length_ticks, own_begun_after, own_ended_text, own_text};

use crate::columns::verdict_in;
use crate::span_length::SpanLength;
use crate::span_rows::{SpanRows, add_rows, count_row};
use card_core::{Judgement, Unjudged};
use std::alloc::{AllocError, Global};
use std::collections::BTreeMap;
use upc_cell::{Cell, Side};

/// The spans of time of a run. Only the rows of the present span take memory: at most one for each connection.
#[derive(Drop)]
pub struct Spans {
    /// The side of the card.
    pub side: Side,
    /// How long a span is, if spans are written.
    pub length: Option<SpanLength>,
    /// The moment at which the present span begins.
    pub begin: u64,
    /// The counts in the present span.
    pub rows: SpanRows,
    /// Whether the heading was written.
    pub begun: bool,
}

impl Spans {
    /// Begins the first span.
    pub fn new(alloc: Global, side: Side, length: Option<SpanLength>) -> Spans
        ensures { ShowsSpans result (spans_start side (length_ticks length)) }
    {
        Spans {
            side,
            length,
            begin: 0,
            rows: BTreeMap::new(alloc),
            begun: false,
        }
    }

    /// Returns the moment at which the span of this moment begins, or 0 if spans aren't written.
    #[inline(always)]
    fn span_begin(&self, moment: u64) -> u64
        ensures { result ≡ span_begin (length_ticks self.now.length) moment }
    {
        match self.length {
            Some(length) => length.begin_of(moment),
            None => 0,
        }
    }

    /// Appends the text about the present span.
    ///
    /// # Errors
    ///
    /// `AllocError` if an allocation failed.
    pub fn add_present(&self, answers: &mut Vec<u8>) -> Result<(), AllocError>
        ensures { OnOk result (answers.new.items ≡ answers.old.items ++ own_text self.now) }
    {
        add_rows(answers, self.side, self.begun, self.begin, &self.rows)
    }

    /// Returns whether the heading is written once the present span has its lines.
    pub fn is_begun_after(&self) -> bool
        ensures { result ≡ own_begun_after self.now }
    {
        self.begun || !self.rows.is_empty()
    }

    /// Ends the present span with its text, and begins the next one at this moment.
    fn begin_next(&mut self, begin: u64, answers: &mut Vec<u8>) -> Result<(), AllocError>
        ensures text { OnOk result (answers.new.items ≡ answers.old.items ++ own_text self.old) }
        ensures next { (spans : SpansWorld) → ShowsSpans self.old spans → OnOk result (ShowsSpans self.new (next_span spans begin)) }
    {
        self.add_present(answers)?;
        self.begun = self.is_begun_after();
        self.rows.clear();
        self.begin = begin;
        Ok(())
    }

    /// Appends the text about the present span if a cell at this moment ends it, and begins the span of that moment then.
    ///
    /// # Errors
    ///
    /// `AllocError` if an allocation failed.
    #[inline(always)]
    pub fn go_on(&mut self, moment: u64, answers: &mut Vec<u8>) -> Result<(), AllocError>
        ensures text { OnOk result (answers.new.items ≡ answers.old.items ++ own_ended_text self.old moment) }
        ensures spans { (spans : SpansWorld) → ShowsSpans self.old spans → OnOk result (ShowsSpans self.new (spans_at spans moment)) }
    {
        let begin = self.span_begin(moment);
        if self.begin >= begin {
            return Ok(());
        }
        self.begin_next(begin, answers)
    }

    /// Counts a cell at this side with this answer in the present span.
    ///
    /// # Errors
    ///
    /// `AllocError` if an allocation failed.
    #[inline(always)]
    pub fn count(
        &mut self,
        side: Side,
        cell: &Cell,
        decision: &Result<Judgement, Unjudged>,
    ) -> Result<(), AllocError>
        ensures { (spans : SpansWorld) → ShowsSpans self.old spans
            → OnOk result (ShowsSpans self.new (spans_after spans (vc_of side cell.now) (answer_to cell.now decision.now))) }
    {
        if self.length.is_none() {
            return Ok(());
        }
        match verdict_in(decision) {
            Some(verdict) => count_row(&mut self.rows, cell.vc_at(side), verdict),
            None => Ok(()),
        }
    }
}

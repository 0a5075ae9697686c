//! The draft of a code, whose labels are not resolved yet.

ghost use Rattle.std.specs.Prelude.{◌≡◌, ◌++◌, List, [], ◌∷◌, length};
ghost use Rattle.bpf_asm.specs.Grammar.{SourceLine};
ghost use Rattle.bpf_asm.specs.inner.Pending.{IsPending};
ghost use Rattle.bpf_asm.specs.inner.Seen.{line_seen};
ghost use Rattle.bpf_asm.specs.inner.Drafts.{drafted};

use crate::fault::AsmKind;
use crate::labels::Labels;
use crate::line::{LentLine, read_line};
use crate::statement::LentStatement;
use bpf_code::Instr;
use std::alloc::{AllocError, Global};

/// An instruction with labels, its line and its place.
#[derive(Clone, Copy)]
pub(crate) struct Unresolved<'a> {
    /// Its line, counted from 1.
    pub line: usize,
    /// Its place, counted from 0.
    pub place: usize,
    /// The instruction.
    pub statement: LentStatement<'a>,
}

/// What was read so far. The draft keeps nothing of a line without label and instruction. Of an instruction without labels
/// it keeps only the [`Instr`].
#[derive(Drop)]
pub(crate) struct Draft<'a> {
    /// The instructions, with offsets of 0 in those with labels.
    pub code: Vec<Instr>,
    /// The instructions with labels, in order.
    pub unresolved: Vec<Unresolved<'a>>,
    /// The places of the labels.
    pub labels: Labels<'a>,
    /// The first line, counted from 0, whose label no instruction follows yet.
    pub dangling: Option<usize>,
}

/// Returns the instruction of a statement, with offsets of 0 if it has labels.
fn first_form(statement: LentStatement<'_>) -> Instr
    ensures { result ≡ drafted statement.entry }
{
    match statement {
        LentStatement::Plain(instr) => instr,
        LentStatement::Jump(_) => Instr::Jump(0),
        LentStatement::Branch { test, by, .. } => Instr::Branch {
            test,
            by,
            jt: 0,
            jf: 0,
        },
    }
}

/// Returns the first line whose label no instruction follows yet, after one more line.
fn pending_after(pending: Option<usize>, at: usize, lent: &LentLine<'_>) -> Option<usize>
    ensures { (before : List SourceLine) → length before ≡ at → IsPending before pending →
        IsPending (before ++ line_seen lent.now ∷ []) result }
{
    match lent.statement {
        Some(_) => None,
        None => match pending {
            Some(first) => Some(first),
            None => match lent.label {
                Some(_) => Some(at),
                None => None,
            },
        },
    }
}

impl<'a> Draft<'a> {
    ghost use Rattle.std.specs.Prelude.{◌≡◌, ◌++◌, ◌+◌, ◌-◌, ◌^◌, ◌<◌, ℕ, List, [], ◌∷◌, false, length, IfErr, IfOk, IsTrue, OnOk};
    ghost use Rattle.bpf_asm.specs.Grammar.{SourceLine};
    ghost use Rattle.bpf_asm.specs.inner.Counts.{statement_count};
    ghost use Rattle.bpf_asm.specs.inner.LabelPlaces.{label_place};
    ghost use Rattle.bpf_asm.specs.inner.Seen.{line_seen};
    ghost use Rattle.bpf_asm.specs.inner.Drafts.{AgreesWith, Drafts, IsAddFault, IsTakeFault, IsTwice, AddsLine, drafted, unresolved_of};

    /// Returns the draft of no lines.
    pub(crate) fn new(alloc: Global) -> Draft<'a>
        ensures { Drafts [] result }
    {
        Draft {
            code: Vec::new(alloc),
            unresolved: Vec::new(alloc),
            labels: Labels::new(alloc),
            dangling: None,
        }
    }

    /// Sets the place of a line's label, if it has one, to the next place. Returns whether the label is new.
    fn define(&mut self, lent: LentLine<'a>) -> Result<bool, AllocError>
        ensures code { self.new.code ≡ self.old.code }
        ensures unresolved { self.new.unresolved ≡ self.old.unresolved }
        ensures dangling { self.new.dangling ≡ self.old.dangling }
        ensures twice { IfOk result (λ fresh. fresh ≡ false → (lines : List SourceLine) (count : ℕ) →
            AgreesWith lines (label_place self.old.labels) count → IsTwice lines (line_seen lent.entry)) }
        ensures agree { IfOk result (λ fresh. IsTrue fresh → (lines : List SourceLine) →
            AgreesWith lines (label_place self.old.labels) (length self.old.code.items) →
            AgreesWith (lines ++ line_seen lent.entry ∷ []) (label_place self.new.labels)
            (length self.old.code.items + statement_count (line_seen lent.entry).statement)) }
    {
        match lent.label {
            Some(label) => self.labels.define(label, self.code.len()),
            None => Ok(true),
        }
    }

    /// Adds the statement of a line, which is counted from 1.
    fn put(&mut self, line: usize, statement: LentStatement<'a>) -> Result<(), AllocError>
        ensures labels { self.new.labels ≡ self.old.labels }
        ensures dangling { self.new.dangling ≡ self.old.dangling }
        ensures code { OnOk result (self.new.code.items ≡ self.old.code.items ++ drafted statement.entry ∷ []) }
        ensures unresolved { OnOk result (self.new.unresolved.items ≡ self.old.unresolved.items
            ++ unresolved_of line (length self.old.code.items) statement.entry) }
    {
        match statement {
            LentStatement::Plain(_) => {}
            _ => self.unresolved.push(Unresolved {
                line,
                place: self.code.len(),
                statement,
            })?,
        }
        self.code.push(first_form(statement))?;
        Ok(())
    }

    /// Adds the label and the statement of a line, which is counted from 0.
    fn add(&mut self, at: usize, lent: LentLine<'a>) -> Result<(), AsmKind>
        requires { at < 2 ^ 64 - 1 }
        ensures drafts { OnOk result ((lines : List SourceLine) → length lines ≡ at → Drafts lines self.old →
            Drafts (lines ++ line_seen lent.entry ∷ []) self.new) }
        ensures fault { (lines : List SourceLine) → Drafts lines self.old →
            IfErr result (IsAddFault lines (line_seen lent.entry)) }
    {
        match self.define(lent) {
            Ok(true) => {}
            Ok(false) => return Err(AsmKind::LabelTwice),
            Err(_) => return Err(AsmKind::NoMemory),
        }
        self.dangling = pending_after(self.dangling, at, &lent);
        match lent.statement {
            None => Ok(()),
            Some(statement) => self.put(at + 1, statement).map_err(|_| AsmKind::NoMemory),
        }
    }

    /// Reads a line, which is counted from 0, and adds its label and its statement.
    pub(crate) fn take_line(&mut self, at: usize, line: &'a [u8]) -> Result<(), AsmKind>
        requires { at < 2 ^ 64 - 1 }
        ensures taken { OnOk result ((lines : List SourceLine) → length lines ≡ at → Drafts lines self.old →
            AddsLine lines self.new line.entry.now) }
        ensures fault { (lines : List SourceLine) → Drafts lines self.old →
            IfErr result (IsTakeFault lines line.entry.now) }
    {
        match read_line(line) {
            Ok(lent) => self.add(at, lent),
            Err(kind) => Err(kind),
        }
    }
}

//! Labels become offsets.

ghost use Rattle.std.specs.Prelude.{◌≤◌, ℕ, List, option_copied, IfErr, IfOk};
ghost use Rattle.bpf_asm.specs.Faults.{IsFirstOperandFault, IsOperandFault, IsStatementFault};
ghost use Rattle.bpf_asm.specs.Grammar.{SourceLine};
ghost use Rattle.bpf_asm.specs.Labels.{IsOffset, statements_of};
ghost use Rattle.bpf_asm.specs.Meaning.{IsSide, MeanFrom, Means};
ghost use Rattle.bpf_asm.specs.inner.LabelPlaces.{label_place};
ghost use Rattle.bpf_asm.specs.inner.Seen.{statement_seen};
ghost use Rattle.bpf_asm.specs.inner.Drafts.{AgreesWith, Drafts, IsSideFault};

use crate::fault::{AsmFault, AsmKind};
use crate::labels::Labels;
use crate::statement::LentStatement;
use crate::unresolved::Draft;
use bpf_code::Instr;

/// The largest offset of a branch, whose fields have 8 bits.
const MOST_BRANCH: usize = 255;

/// The largest offset of `ja`, whose field has 32 bits.
const MOST_JUMP: usize = 4294967295;

/// Returns the offset of a label in the instruction at a place, if it is at most `most`.
fn offset<'a>(
    labels: &Labels<'a>,
    place: usize,
    label: &'a [u8],
    most: usize,
) -> Result<usize, AsmKind>
    ensures ok { (lines : List SourceLine) (count : ℕ) → AgreesWith lines (label_place labels.now) count →
        IfOk result (IsOffset lines place (record { label = label.entry.now; most = most })) }
    ensures fits { IfOk result (λ offset. offset ≤ most) }
    ensures fault { (lines : List SourceLine) (count : ℕ) → AgreesWith lines (label_place labels.now) count →
        IfErr result (IsOperandFault lines place (record { label = label.entry.now; most = most })) }
{
    match labels.find(label) {
        None => Err(AsmKind::UnknownLabel),
        Some(target) => {
            if target <= place {
                return Err(AsmKind::Backward);
            }
            let offset = target - place - 1;
            if offset > most {
                Err(AsmKind::TooFar)
            } else {
                Ok(offset)
            }
        }
    }
}

/// Returns the offset of one side of a branch.
fn side<'a>(labels: &Labels<'a>, place: usize, label: Option<&'a [u8]>) -> Result<u8, AsmKind>
    ensures ok { (lines : List SourceLine) (count : ℕ) → AgreesWith lines (label_place labels.now) count →
        IfOk result (IsSide lines place (option_copied label.entry)) }
    ensures fault { (lines : List SourceLine) (count : ℕ) → AgreesWith lines (label_place labels.now) count →
        IfErr result (IsSideFault lines place (option_copied label.entry)) }
{
    match label {
        None => Ok(0),
        Some(label) => match offset(labels, place, label, MOST_BRANCH) {
            Ok(offset) => Ok(offset as u8),
            Err(kind) => Err(kind),
        },
    }
}

/// Returns the instruction that a statement at a place means.
fn resolved<'a>(
    labels: &Labels<'a>,
    place: usize,
    statement: LentStatement<'a>,
) -> Result<Instr, AsmKind>
    ensures ok { (lines : List SourceLine) (count : ℕ) → AgreesWith lines (label_place labels.now) count →
        IfOk result (Means lines place (statement_seen statement.entry)) }
    ensures fault { (lines : List SourceLine) (count : ℕ) → AgreesWith lines (label_place labels.now) count →
        IfErr result (IsStatementFault lines place (statement_seen statement.entry)) }
{
    match statement {
        LentStatement::Plain(instr) => Ok(instr),
        LentStatement::Jump(label) => match offset(labels, place, label, MOST_JUMP) {
            Ok(offset) => Ok(Instr::Jump(offset as u32)),
            Err(kind) => Err(kind),
        },
        LentStatement::Branch {
            test,
            by,
            met,
            unmet,
        } => match side(labels, place, met) {
            Err(kind) => Err(kind),
            Ok(jt) => match side(labels, place, unmet) {
                Err(kind) => Err(kind),
                Ok(jf) => Ok(Instr::Branch { test, by, jt, jf }),
            },
        },
    }
}

/// Resolves the labels of a draft in place, and returns its code. An instruction follows each label of the draft.
pub(crate) fn resolve_all(draft: Draft<'_>) -> Result<Vec<Instr>, AsmFault>
    requires { (lines : List SourceLine) × Drafts lines draft }
    ensures code { (lines : List SourceLine) → Drafts lines draft.entry →
        IfOk result (λ code. MeanFrom lines 0 (statements_of lines) code.items) }
    ensures fault { (lines : List SourceLine) → Drafts lines draft.entry → IfErr result (IsFirstOperandFault lines) }
{
    let Draft {
        mut code,
        unresolved,
        labels,
        dangling: _,
    } = draft;
    for jump in &unresolved {
        match resolved(&labels, jump.place, jump.statement) {
            Ok(instr) => code[jump.place] = instr,
            Err(kind) => {
                return Err(AsmFault {
                    line: jump.line,
                    kind,
                });
            }
        }
    }
    Ok(code)
}

//! The judgement of a picked cell, on the line that the caller passes. If its program named no contract, the verdict is Refuse.

ghost use Rattle.std.specs.Prelude.{◌≡◌, ◌≢◌, ◌+◌, ◌<◌, ◌↔◌, length, IsTrue, IfOk, IfSome, OnErr, MatchOption, Some, None};
ghost use Rattle.line_record.specs.History.{IsNoNumber};
ghost use Rattle.line_record.specs.Line.{IsLine};
ghost use Rattle.line_record.specs.Tally.{counted, count_of};
ghost use Rattle.card_core.specs.Sections.{holder, is_owned_by, answer_to, judging_refusal, judged_in_answer, JudgesAt};
ghost use Rattle.card_core.specs.inner.Parts.{DropsIfLong};

use crate::answer::{Answer, Judgement, Unjudged};
use crate::picking::Named;
use leaky::Verdict;
use line_record::{Line, Seating};
use upc_cell::{Vc, same_vc};

/// Judges a cell on the line of its connection, by the contract that its program named. Copies no cell: [`Judgement::answer`] adds the
/// leaving cell. Each judged cell of a card is judged here. Doesn't allocate.
///
/// # Errors
///
/// `Released` if the line doesn't serve the picked connection; otherwise the error of [`Line::judge`]. Then nothing
/// changes.
#[inline(always)]
pub fn judgement_at(
    line: &mut Line,
    vc: Vc,
    seating: &Seating,
    named: &Named,
    moment: u64,
) -> Result<Judgement, Unjudged>
    // It is judged if and only if there is no reason to refuse it.
    ensures judged { MatchOption (judging_refusal line.old vc seating.now moment)
        (JudgesAt line.old seating.now named.now moment (answer_to named.now.cell result) line.new)
        (λ refused. (answer_to named.now.cell result ≡ refused) × (line.new ≡ line.old)) }

    // The fields of the judgement.
    ensures line { IfOk result (λ judged. judged.line ≡ seating.now.line) }
    ensures number { IfOk result (λ judged.
        judged.number ≡ count_of line.old.state.counts judged.verdict + 1) }
    ensures moment { IfOk result (λ judged. judged.moment ≡ moment) }
    ensures value { IfOk result (λ judged. judged.value ≡ named.now.value) }
    ensures program { IfOk result (λ judged. judged.program ≡ named.now.program) }

    // A connection has at most four contracts, so 0 and any number above 4 name none.
    ensures unnamed { IfOk result (λ judged.
        IsNoNumber judged.value → judged.verdict ≡ Verdict.Refuse) }

    // The line's invariant holds before. Its owner is unchanged, and it counts the cell exactly if the cell was judged.
    ensures kept { IsLine line.old }
    ensures owner { line.new.owner ≡ line.old.owner }
    ensures counts { IfOk result (λ judged.
        line.new.state.counts ≡ counted line.old.state.counts judged.verdict) }
    ensures unchanged { OnErr result (line.new ≡ line.old) }

    // The answer is never NoMemory, Stale or NoConnection: nothing is allocated, and nothing is looked up.
    ensures memory { answer_to named.now.cell result ≢ Answer.NoMemory }
    ensures program_live { answer_to named.now.cell result ≢ Answer.Stale }
    ensures connection { answer_to named.now.cell result ≢ Answer.NoConnection }
{
    if !serves(line, vc, seating) {
        return Err(Unjudged::Released);
    }
    match line.judge(moment, named.cell().clp(), named.value(), named.program()) {
        Ok(entry) => Ok(Judgement {
            line: seating.line,
            number: line.counts().of(entry.verdict),
            moment: entry.moment,
            value: entry.value,
            program: entry.program,
            verdict: entry.verdict,
        }),
        Err(fault) => Err(Unjudged::LineFault(fault)),
    }
}

/// Judges a cell on the line of its connection, by the contract that its program named, and returns the answer with the
/// leaving cell. Doesn't allocate. [`judgement_at`] judges in the same way, and copies no cell.
#[inline]
pub fn judge_at(line: &mut Line, vc: Vc, seating: &Seating, named: &Named, moment: u64) -> Answer
    // It is judged if and only if there is no reason to refuse it.
    ensures judged { MatchOption (judging_refusal line.old vc seating.now moment)
        (JudgesAt line.old seating.now named.now moment result line.new)
        (λ refused. (result ≡ refused) × (line.new ≡ line.old)) }

    // The line's invariant holds before. Its owner is unchanged, and it counts the cell exactly if the cell was judged.
    ensures kept { IsLine line.old }
    ensures owner { line.new.owner ≡ line.old.owner }
    ensures counts { IfSome (judged_in_answer result) (λ judged.
        line.new.state.counts ≡ counted line.old.state.counts judged.verdict) }
    ensures unchanged { judged_in_answer result ≡ None → line.new ≡ line.old }

    // A connection has at most four contracts, so 0 and any number above 4 name none.
    ensures unnamed { IfSome (judged_in_answer result) (λ judged.
        IsNoNumber judged.value → judged.verdict ≡ Verdict.Refuse) }

    // The answer is never NoMemory, Stale or NoConnection: nothing is allocated, and nothing is looked up.
    ensures memory { result ≢ Answer.NoMemory }
    ensures program_live { result ≢ Answer.Stale }
    ensures connection { result ≢ Answer.NoConnection }
{
    match judgement_at(line, vc, seating, named, moment) {
        Ok(judgement) => judgement.answer(&named.cell()),
        Err(reason) => reason.answer(),
    }
}

/// Drops the journal of a line that serves the connection, if it is full or has `most` entries or more. Doesn't
/// allocate.
#[inline(always)]
pub(crate) fn drop_if_long(line: &mut Line, vc: Vc, seating: &Seating, most: usize)
    ensures dropped { DropsIfLong most vc seating.now line.old line.new }
    ensures room { line.new.owner ≡ Some (holder vc seating.now) → length line.new.entries < line.new.journal }
    ensures owner { line.new.owner ≡ line.old.owner }
    ensures state { line.new.state ≡ line.old.state }
{
    if line.is_long(most) && serves(line, vc, seating) {
        line.drop_journal();
    }
}

/// Returns whether the line serves the picked connection. The incarnations are compared too, since the virtual connection may have
/// been released and set up again.
pub(crate) fn serves(line: &Line, vc: Vc, seating: &Seating) -> bool
    ensures test { result ≡ is_owned_by line.now.owner (holder vc seating.now) }
    ensures owner { IsTrue result ↔ (line.now.owner ≡ Some (holder vc seating.now)) }
    ensures kept { IsLine line.now }
{
    match line.owner() {
        Some(owner) => same_vc(owner.vc, vc) && owner.incarnation == seating.incarnation,
        None => false,
    }
}

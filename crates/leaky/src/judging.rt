//! The verdict on a cell.

ghost use Rattle.std.specs.Prelude.{◌≡◌, ◌≢◌, ◌^◌, ◌≤◌, Some, None};
ghost use Rattle.leaky.specs.Contract.{Buckets, verdict_under, verdict_of, charged_under, buckets_after};
ghost use Rattle.leaky.specs.KeptState.{Agrees, IsChargedBy};

use crate::contract::Contract;
use crate::gcra::Gcra;
use crate::levels::Levels;
use crate::verdict::Verdict;

/// The last moment at which a cell can be judged, in ticks: 2^62.
pub const LAST_MOMENT: u64 = 4611686018427387904;

/// Judges a cell of this cell loss priority at `moment`, in ticks, and updates the levels. The clauses are about buckets that weren't
/// charged after `moment`, so they are about cells that come in the order of their moments. Doesn't allocate.
#[inline(always)]
pub fn judge(contract: &Contract, levels: &mut Levels, clp: bool, moment: u64) -> Verdict
    requires { moment ≤ 2 ^ 62 }

    // For any buckets that the levels represent: their verdict, and the new levels represent the buckets after it.
    ensures verdict { (buckets : Buckets) → Agrees levels.old buckets → IsChargedBy buckets moment
        → result ≡ verdict_of contract.now buckets clp moment }
    ensures levels { (buckets : Buckets) → Agrees levels.old buckets → IsChargedBy buckets moment
        → Agrees levels.new (buckets_after contract.now buckets clp moment) }
    ensures judged { result ≢ Verdict.Refuse }
{
    match (contract, clp) {
        (Contract::Cbr1(peak), _) => judge_by_peak(peak, levels, moment),
        (Contract::Vbr1(peak, sustained), _) => judge_by_both(peak, sustained, levels, moment),
        (Contract::Vbr2(peak, _), true) => judge_by_peak(peak, levels, moment),
        (Contract::Vbr2(peak, sustained), false) => judge_by_both(peak, sustained, levels, moment),
        (Contract::Vbr3(peak, _), true) => judge_by_peak(peak, levels, moment),
        (Contract::Vbr3(peak, sustained), false) => judge_or_tag(peak, sustained, levels, moment),
    }
}

/// Bucket 1 decides alone.
#[inline]
fn judge_by_peak(peak: &Gcra, levels: &mut Levels, moment: u64) -> Verdict
    requires { moment ≤ 2 ^ 62 }
    ensures verdict { (buckets : Buckets) → Agrees levels.old buckets → IsChargedBy buckets moment
        → result ≡ verdict_under peak.now None Verdict.Discard buckets moment }
    ensures levels { (buckets : Buckets) → Agrees levels.old buckets → IsChargedBy buckets moment
        → Agrees levels.new (charged_under result peak.now None buckets moment) }
    ensures judged { result ≢ Verdict.Refuse }
{
    if peak.admits(levels.first, moment) {
        levels.first = peak.due_after(levels.first, moment);
        Verdict::Pass
    } else {
        Verdict::Discard
    }
}

/// Both buckets decide.
#[inline]
fn judge_by_both(peak: &Gcra, sustained: &Gcra, levels: &mut Levels, moment: u64) -> Verdict
    requires { moment ≤ 2 ^ 62 }
    ensures verdict { (buckets : Buckets) → Agrees levels.old buckets → IsChargedBy buckets moment
        → result ≡ verdict_under peak.now (Some sustained.now) Verdict.Discard buckets moment }
    ensures levels { (buckets : Buckets) → Agrees levels.old buckets → IsChargedBy buckets moment
        → Agrees levels.new (charged_under result peak.now (Some sustained.now) buckets moment) }
    ensures judged { result ≢ Verdict.Refuse }
{
    if !peak.admits(levels.first, moment) || !sustained.admits(levels.second, moment) {
        return Verdict::Discard;
    }
    levels.first = peak.due_after(levels.first, moment);
    levels.second = sustained.due_after(levels.second, moment);
    Verdict::Pass
}

/// Bucket 1 decides whether the cell is discarded, bucket 2 whether it is tagged.
#[inline]
fn judge_or_tag(peak: &Gcra, sustained: &Gcra, levels: &mut Levels, moment: u64) -> Verdict
    requires { moment ≤ 2 ^ 62 }
    ensures verdict { (buckets : Buckets) → Agrees levels.old buckets → IsChargedBy buckets moment
        → result ≡ verdict_under peak.now (Some sustained.now) Verdict.Tag buckets moment }
    ensures levels { (buckets : Buckets) → Agrees levels.old buckets → IsChargedBy buckets moment
        → Agrees levels.new (charged_under result peak.now (Some sustained.now) buckets moment) }
    ensures judged { result ≢ Verdict.Refuse }
{
    if !peak.admits(levels.first, moment) {
        return Verdict::Discard;
    }
    levels.first = peak.due_after(levels.first, moment);
    if !sustained.admits(levels.second, moment) {
        return Verdict::Tag;
    }
    levels.second = sustained.due_after(levels.second, moment);
    Verdict::Pass
}

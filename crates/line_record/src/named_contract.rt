//! The verdict of the contract that a program names.

ghost use Rattle.std.specs.Prelude.{◌≡◌, ◌≢◌, ℕ, ◌^◌, ◌<◌, ◌≤◌, Some, None, length, slice_set};
ghost use Rattle.leaky.specs.Contract.{Buckets, verdict_of, buckets_after};
ghost use Rattle.leaky.specs.KeptState.{Agrees, IsChargedBy};
ghost use Rattle.line_record.specs.History.{numbered};
ghost use Rattle.leaky.specs.declared.contract.Contract.{Contract as AContract};
ghost use Rattle.leaky.specs.declared.levels.Levels.{Levels as SomeLevels};

use arrayvec::ArrayVec;
use leaky::{Contract, Levels, Verdict};

/// Returns the verdict of the contract of this number, counted from 1, and updates its levels. If there is no such
/// contract, returns Refuse and changes nothing.
#[inline(always)]
pub(crate) fn judge_named(
    contracts: &[Contract],
    levels: &mut ArrayVec<Levels, 4>,
    clp: bool,
    moment: u64,
    number: u32,
) -> Verdict
    requires one_each { length levels.old.items ≡ length contracts.now }
    requires in_time { moment ≤ 2 ^ 62 }
    ensures sized { length levels.new.items ≡ length levels.old.items }

    // For the contract that is named.
    ensures verdict { (contract : AContract) (before : SomeLevels) (buckets : Buckets)
        → numbered contracts.now number ≡ Some contract
        → numbered levels.old.items number ≡ Some before
        → Agrees before buckets → IsChargedBy buckets moment
        → result ≡ verdict_of contract buckets clp moment }
    ensures levels { (contract : AContract) (before after : SomeLevels) (buckets : Buckets)
        → numbered contracts.now number ≡ Some contract
        → numbered levels.old.items number ≡ Some before
        → numbered levels.new.items number ≡ Some after
        → Agrees before buckets → IsChargedBy buckets moment
        → Agrees after (buckets_after contract buckets clp moment) }

    // For all others.
    ensures others { (other : ℕ) → other ≢ number
        → numbered levels.new.items other ≡ numbered levels.old.items other }
    ensures none { numbered contracts.now number ≡ None
        → (result ≡ Verdict.Refuse) × (levels.new ≡ levels.old) }
{
    if number == 0 {
        return Verdict::Refuse;
    }
    // There are as many levels as contracts. The number of levels is tested, since it lies nearer in memory to the levels, which are read
    // next.
    let place = number as usize - 1;
    if place >= levels.len() {
        return Verdict::Refuse;
    }
    let mut after = levels[place];
    let verdict = leaky::judge(&contracts[place], &mut after, clp, moment);
    put(levels, place, after);
    verdict
}

/// Writes the levels of one contract.
#[inline]
fn put(levels: &mut ArrayVec<Levels, 4>, place: usize, after: Levels)
    requires { place < length levels.old.items }
    ensures { levels.new.items ≡ slice_set levels.old.items place after }
{
    levels[place] = after;
}

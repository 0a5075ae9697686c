//! A meter whose state the caller stores.

ghost use Rattle.std.specs.Prelude.{◌≡◌, ◌≢◌, ◌^◌, ◌≤◌, ◌==◌, not, IfOk, IfErr};
ghost use Rattle.leaky.specs.declared.contract.Contract.{Contract as TheContract};
ghost use Rattle.upc_c.specs.GivenContract.{IsGivenContract, AreAContract};
ghost use Rattle.upc_c.specs.Faults.{AnswersCall};
ghost use Rattle.upc_c.specs.Judging.{AreLevels, IsJudged, IsMeterFault, number_of_verdict};
ghost use Rattle.upc_c.specs.inner.Numbered.{IsNumbered};

use crate::contract::{UpcContract, contract_of};
use crate::fault::{ForC, OF_AN_ARRIVAL, OF_THE_CALL, UpcFault, fault_at, report, report_success};
use leaky::{Contract, LAST_MOMENT, Levels, MOST_TICKS, Verdict, judge};

/// The greatest theoretical arrival time: 2^62 + 2^49.
const LAST_LEVEL: u64 = LAST_MOMENT + 2 * MOST_TICKS;

/// The state of one contract: the theoretical arrival time of each of its two buckets, in ticks. Both
/// are 0 before the first cell.
#[repr(C)]
#[derive(Clone, Copy, Debug)]
pub struct UpcLevels {
    /// The theoretical arrival time of bucket 1.
    pub first: u64,
    /// The theoretical arrival time of bucket 2.
    pub second: u64,
}

/// Returns the number of a verdict in C.
#[inline]
pub(crate) fn number_of_verdict(verdict: Verdict) -> u32
    ensures { result ≡ number_of_verdict verdict }
{
    match verdict {
        Verdict::Pass => 0,
        Verdict::Tag => 1,
        Verdict::Discard => 2,
        Verdict::Refuse => 3,
    }
}

/// Checks the contract, the levels and the moment. Returns the contract by which a cell is judged, or the first error.
#[inline]
pub(crate) fn check_meter(given: &UpcContract, levels: &UpcLevels, moment: u64) -> ForC<Contract>
    ensures contract { IfOk result (IsGivenContract given.now) }
    ensures levels { IfOk result (λ _. AreLevels levels.now) }
    ensures moment { IfOk result (λ _. moment ≤ 2 ^ 62) }
    ensures numbers { IfOk result (λ _. AreAContract given.now) }
    ensures fault { IfErr result (IsMeterFault given.now levels.now moment) }
    ensures numbered { IfErr result IsNumbered }
{
    let contract = contract_of(given)?;
    if levels.first > LAST_LEVEL || levels.second > LAST_LEVEL {
        return Err(fault_at(OF_THE_CALL, 4, 0));
    }
    if moment > LAST_MOMENT {
        return Err(fault_at(OF_AN_ARRIVAL, 5, 0));
    }
    Ok(contract)
}

/// Returns the verdict on a cell of this cell loss priority, and the levels after it.
#[inline]
fn judge_cell(contract: &Contract, levels: &mut UpcLevels, clp: bool, moment: u64) -> u32
    requires levels { AreLevels levels.old }
    requires moment { moment ≤ 2 ^ 62 }
    ensures { IsJudged contract.now levels.old clp moment result levels.new }
{
    let mut kept = Levels {
        first: levels.first,
        second: levels.second,
    };
    let verdict = judge(contract, &mut kept, clp, moment);
    *levels = UpcLevels {
        first: kept.first,
        second: kept.second,
    };
    number_of_verdict(verdict)
}

/// Judges a cell of cell loss priority 0, or 1 if `clp` is any other number, at a moment of at most 2^62 ticks, and
/// updates the levels. Returns the result of the error, or 0.
#[unsafe(no_mangle)]
pub extern "C" fn upc_judge(
    contract: &UpcContract,
    levels: &mut UpcLevels,
    clp: u32,
    moment: u64,
    verdict: &mut u32,
    fault: &mut UpcFault,
) -> u32
    ensures answers { AnswersCall result fault.new }
    ensures judged { result ≡ 0 → (it : TheContract) × IsGivenContract contract.now it
        × AreLevels levels.old × (moment ≤ 2 ^ 62)
        × IsJudged it levels.old (not (clp == 0)) moment verdict.new levels.new }
    ensures refused { result ≢ 0 → IsMeterFault contract.now levels.old moment fault.new }
    ensures left { result ≢ 0 → levels.new ≡ levels.old }
    ensures verdict_left { result ≢ 0 → verdict.new ≡ verdict.old }
{
    match check_meter(contract, levels, moment) {
        Ok(found) => {
            *verdict = judge_cell(&found, levels, clp != 0, moment);
            report_success(fault)
        }
        Err(found) => report(fault, found),
    }
}

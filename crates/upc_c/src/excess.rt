//! By how much a cell comes too early, from the state that the caller stores.

ghost use Rattle.std.specs.Prelude.{◌≡◌, ◌≢◌, ◌^◌, ◌≤◌, ◌==◌, not};
ghost use Rattle.leaky.specs.declared.contract.Contract.{Contract as TheContract};
ghost use Rattle.upc_c.specs.ExcessForC.{IsExcessForC};
ghost use Rattle.upc_c.specs.Faults.{AnswersCall};
ghost use Rattle.upc_c.specs.GivenContract.{IsGivenContract};
ghost use Rattle.upc_c.specs.Judging.{AreLevels, IsMeterFault};

use crate::contract::UpcContract;
use crate::fault::{UpcFault, report, report_success};
use crate::meter::{UpcLevels, check_meter};
use leaky::{Contract, Levels, excess_at};

/// The first bucket that a cell meets and doesn't conform to, and by how much the cell comes too early for that bucket.
#[repr(C)]
#[derive(Clone, Copy, Debug)]
pub struct UpcExcess {
    /// The number of the bucket, 1 or 2, or 0 if the cell conforms to each bucket that it meets.
    pub bucket: u32,
    /// By how much the level is above the limit, in ticks, or 0.
    pub ticks: u64,
}

/// Returns the excess of a cell of this cell loss priority.
fn excess_of(contract: &Contract, levels: &UpcLevels, clp: bool, moment: u64) -> UpcExcess
    requires { AreLevels levels.now }
    ensures { IsExcessForC contract.now levels.now clp moment result }
{
    let kept = Levels {
        first: levels.first,
        second: levels.second,
    };
    match excess_at(contract, &kept, clp, moment) {
        Some(excess) => UpcExcess {
            bucket: u32::from(excess.bucket.number()),
            ticks: excess.ticks,
        },
        None => UpcExcess {
            bucket: 0,
            ticks: 0,
        },
    }
}

/// Writes by how much a cell of cell loss priority 0, or 1 if `clp` is any other number, comes too early at a moment of
/// at most 2^62 ticks. Returns the result of the error, or 0.
#[unsafe(no_mangle)]
pub extern "C" fn upc_excess_of(
    contract: &UpcContract,
    levels: &UpcLevels,
    clp: u32,
    moment: u64,
    excess: &mut UpcExcess,
    fault: &mut UpcFault,
) -> u32
    ensures answers { AnswersCall result fault.new }
    ensures excess { result ≡ 0 → (it : TheContract) × IsGivenContract contract.now it
        × AreLevels levels.now × (moment ≤ 2 ^ 62)
        × IsExcessForC it levels.now (not (clp == 0)) moment excess.new }
    ensures refused { result ≢ 0 → IsMeterFault contract.now levels.now moment fault.new }
    ensures left { result ≢ 0 → excess.new ≡ excess.old }
{
    match check_meter(contract, levels, moment) {
        Ok(found) => {
            *excess = excess_of(&found, levels, clp != 0, moment);
            report_success(fault)
        }
        Err(found) => report(fault, found),
    }
}

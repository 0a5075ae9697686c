//! Burst tolerances.

ghost use Rattle.std.specs.Prelude.{◌≡◌, ◌≢◌};
ghost use Rattle.leaky.specs.Tolerance.{tolerance_of};
ghost use Rattle.upc_c.specs.Bursts.{HasTolerance, IsBurstFault};
ghost use Rattle.upc_c.specs.Faults.{AnswersCall};

use crate::fault::{OF_A_BURST, UpcFault, fault_at, report, report_success};
use leaky::{BtFault, burst_tolerance};

/// Writes the burst tolerance in ticks for a maximum burst size of `mbs` cells. `ts` is the increment of the
/// sustainable cell rate and `tp` that of the peak cell rate, both in ticks. Returns the result of the error, or 0.
#[unsafe(no_mangle)]
pub extern "C" fn upc_burst_tolerance(
    mbs: u64,
    ts: u64,
    tp: u64,
    ticks: &mut u64,
    fault: &mut UpcFault,
) -> u32
    ensures answers { AnswersCall result fault.new }
    ensures tolerance { result ≡ 0 → HasTolerance mbs ts tp × (ticks.new ≡ tolerance_of mbs ts tp) }
    ensures refused { result ≢ 0 → IsBurstFault mbs ts tp fault.new }
    ensures left { result ≢ 0 → ticks.new ≡ ticks.old }
{
    match burst_tolerance(mbs, ts, tp) {
        Ok(tolerance) => {
            *ticks = tolerance;
            report_success(fault)
        }
        Err(BtFault::ZeroMbs) => report(fault, fault_at(OF_A_BURST, 1, 0)),
        Err(BtFault::PeakSlower) => report(fault, fault_at(OF_A_BURST, 2, 0)),
        Err(BtFault::TooLarge) => report(fault, fault_at(OF_A_BURST, 3, 0)),
    }
}

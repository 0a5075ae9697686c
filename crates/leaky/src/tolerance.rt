//! Burst tolerances.

ghost use Rattle.std.specs.Prelude.{◌≡◌, ◌-◌, ◌*◌, ◌^◌, ◌<◌, ◌≤◌, ◌↔◌, IsOk, IfOk, IsErrOf};
ghost use Rattle.leaky.specs.Tolerance.{tolerance_of};

use crate::gcra::MOST_TICKS;
use std::error::Error;
use std::fmt;

/// Why there is no burst tolerance. Printed as its number and its name.
#[derive(Clone, Copy, Debug, PartialEq, Eq)]
pub enum BtFault {
    /// The maximum burst size is 0.
    ZeroMbs,
    /// The peak cell rate is lower than the sustainable cell rate.
    PeakSlower,
    /// The tolerance is above 2^48.
    TooLarge,
}

impl fmt::Display for BtFault {
    ghost use Rattle.std.specs.Prelude.{Some};
    ghost use Rattle.leaky.specs.Faults.{bt_fault_text};

    ghost output = { λ fault. Some (bt_fault_text fault) };

    fn fmt<W: fmt::Write>(&self, f: &mut fmt::Formatter<W>) -> fmt::Result {
        f.write_str(match self {
            BtFault::ZeroMbs => "1 ZeroMbs",
            BtFault::PeakSlower => "2 PeakSlower",
            BtFault::TooLarge => "3 TooLarge",
        })
    }
}

impl Error for BtFault {}

/// The burst tolerance `(mbs - 1)(ts - tp)` in ticks (ITU-T I.371). `mbs` is the maximum burst size in cells, `ts`
/// the increment of the sustainable cell rate, `tp` that of the peak cell rate. It is the least limit with which a
/// bucket of increment `ts` admits `mbs` cells at the peak rate ([`crate::laws::tolerances_are_exact`]).
///
/// # Errors
///
/// `ZeroMbs` if `mbs` is 0; otherwise `PeakSlower` if `ts` is below `tp`; otherwise `TooLarge` if the tolerance is
/// above 2^48.
pub fn burst_tolerance(mbs: u64, ts: u64, tp: u64) -> Result<u64, BtFault>
    ensures value { IfOk result (λ ticks. ticks ≡ tolerance_of mbs ts tp) }
    ensures ok { IsOk result ↔ ((0 < mbs) × (tp ≤ ts) × (tolerance_of mbs ts tp ≤ 2 ^ 48)) }

    ensures zero { IsErrOf result BtFault.ZeroMbs ↔ (mbs ≡ 0) }
    ensures slower { IsErrOf result BtFault.PeakSlower ↔ ((0 < mbs) × (ts < tp)) }
    ensures large { IsErrOf result BtFault.TooLarge
        ↔ ((0 < mbs) × (tp ≤ ts) × (2 ^ 48 < tolerance_of mbs ts tp)) }
{
    if mbs == 0 {
        return Err(BtFault::ZeroMbs);
    }
    if ts < tp {
        return Err(BtFault::PeakSlower);
    }
    match (mbs - 1).checked_mul(ts - tp) {
        Some(ticks) if ticks <= MOST_TICKS => Ok(ticks),
        _ => Err(BtFault::TooLarge),
    }
}

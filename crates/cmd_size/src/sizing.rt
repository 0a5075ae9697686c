//! The buckets of a contract.

ghost use Rattle.std.specs.Prelude.{◌≡◌, ◌^◌, ◌+◌, ◌*◌, ◌<◌, ◌≤◌, IfOk, IfSome, Ok, Some};
ghost use Rattle.cmd_size.specs.Increments.{IsFastEnough, IsGreatest, increment_of, one_cell, sent_in};
ghost use Rattle.leaky.specs.Tolerance.{tolerance_of};
ghost use Rattle.cmd_size.specs.Senders.{AdmitsOnTime, AdmitsSustained};
ghost use Rattle.cmd_size.specs.CellRates.{units_of, units_per_cell};
ghost use Rattle.cmd_size.specs.Sizing.{AreGreatest, IsBucket, Tolerates, increment_in, limit_within, sized_rate, sizes_of, sizes_with, sustained_limit};

use crate::fault::SizeFault;
use crate::figures::{CellRate, Figures, Sustained};
use leaky::{BtFault, MOST_TICKS, burst_tolerance};

/// The nanoseconds in a second. The longest tick is as long.
const SECOND: u64 = 1000000000;

/// A bucket, and the rate that it polices.
#[derive(Clone, Copy)]
pub struct SizedRate {
    /// The increment, in ticks.
    pub increment: u64,
    /// The limit, in ticks.
    pub limit: u64,
    /// The rate that the bucket polices, in cells a second, rounded down.
    pub policed: u64,
    /// By how much that rate, before it is rounded, is above the rate asked for: in hundredths of a percent of the rate
    /// asked for, rounded down.
    pub distance: u64,
    /// Whether that rate is above the rate asked for by more than one percent.
    pub coarse: bool,
}

/// The buckets of a contract.
#[derive(Clone, Copy)]
pub struct Sizes {
    /// The bucket of the peak rate.
    pub peak: SizedRate,
    /// The bucket of the sustained rate. CBR.1 has none.
    pub sustained: Option<SizedRate>,
}

/// Returns the units that the rate has in a second.
fn units(rate: CellRate) -> u64
    ensures { result ≡ units_of rate }
{
    match rate {
        CellRate::Cells(count) => count,
        CellRate::Bits(count) => count,
    }
}

/// Returns the size of a cell in billionths of the rate's unit, which is a cell or a bit. Divided by the units a second, it gives the
/// nanoseconds between two cells.
fn cell(rate: CellRate) -> u64
    ensures cell { result ≡ one_cell rate }
    ensures bounded { result ≤ 424000000000 }
{
    match rate {
        CellRate::Cells(_) => SECOND,
        CellRate::Bits(_) => 424 * SECOND,
    }
}

/// Returns the increment of a rate.
fn increment(rate: CellRate, tick: u64) -> Result<u64, SizeFault>
    requires { 0 < tick }
    ensures value { result ≡ increment_in rate tick }
    ensures greatest { IfOk result (IsGreatest rate tick) }
    ensures some { IfOk result (λ ticks. 0 < ticks) }
    ensures bounded { IfOk result (λ ticks. ticks ≤ 2 ^ 48) }
    ensures units { IfOk result (λ ticks. 0 < units_of rate) }
{
    let units = units(rate);
    if units == 0 {
        return Err(SizeFault::ZeroRate);
    }
    match cell(rate) / units / tick {
        0 => Err(SizeFault::TooFast),
        ticks => Ok(ticks),
    }
}

/// Returns the bucket with this increment and this limit, and the rate that it polices.
fn bucket(rate: CellRate, tick: u64, increment: u64, limit: u64) -> SizedRate
    requires tick { 0 < tick }
    requires increment { 0 < increment }
    requires units { 0 < units_of rate }
    requires fast { IsFastEnough rate tick increment }
    ensures { result ≡ sized_rate rate tick increment limit }
{
    // In the time of one increment, in nanoseconds, a sender at the rate asked for sends `sent` billionths of a unit: at most a cell,
    // since the increment was rounded down.
    let time = increment * tick;
    let sent = time * units(rate);
    let above = cell(rate) - sent;
    SizedRate {
        increment,
        limit,
        policed: SECOND / time,
        distance: 10000 * above / sent,
        coarse: 100 * above > sent,
    }
}

/// Returns the limit, if a bucket may have it.
fn within(limit: u64) -> Result<u64, SizeFault>
    ensures value { result ≡ limit_within limit }
    ensures same { IfOk result (λ value. value ≡ limit) }
{
    if limit > MOST_TICKS {
        return Err(SizeFault::TooLarge);
    }
    Ok(limit)
}

/// Returns the limit of the bucket of the sustained rate.
fn burst_limit(mbs: u64, increment: u64, peak: u64, tolerance: u64) -> Result<u64, SizeFault>
    ensures value { result ≡ sustained_limit mbs increment peak tolerance }
    ensures limit { IfOk result (λ limit. limit ≡ tolerance_of mbs increment peak + tolerance) }
    ensures slower { IfOk result (λ limit. peak ≤ increment) }
{
    match burst_tolerance(mbs, increment, peak) {
        Ok(burst) => match burst.checked_add(tolerance) {
            Some(limit) => within(limit),
            None => Err(SizeFault::TooLarge),
        },
        Err(BtFault::ZeroMbs) => Err(SizeFault::ZeroMbs),
        Err(BtFault::PeakSlower) => Err(SizeFault::PeakSlower),
        Err(BtFault::TooLarge) => Err(SizeFault::TooLarge),
    }
}

/// Returns both buckets, where the peak rate has this increment and the tolerance this many ticks.
fn both(figures: Figures, peak: u64, tolerance: u64, asked: Sustained) -> Result<Sizes, SizeFault>
    requires tick { 0 < figures.tick }
    requires units { 0 < units_of figures.pcr }
    requires some { 0 < peak }
    requires fast { IsFastEnough figures.pcr figures.tick peak }
    requires tolerance { figures.cdvt ≤ tolerance * figures.tick }
    ensures value { result ≡ sizes_with figures peak tolerance (Some asked) }
    ensures peak { IfOk result (λ sizes. (sizes.peak.increment ≡ peak) × (sizes.peak.limit ≡ tolerance)) }
    ensures greatest { IfOk result (λ sizes. IfSome sizes.sustained (λ rate. IsGreatest asked.scr figures.tick rate.increment)) }
    ensures limit { IfOk result (λ sizes. IfSome sizes.sustained (λ rate. tolerance ≤ rate.limit)) }
    ensures bounded { IfOk result (λ sizes. IfSome sizes.sustained IsBucket) }
    ensures admits { IfOk result (λ sizes. AdmitsSustained figures (Some asked) sizes.sustained) }
{
    let increment = increment(asked.scr, figures.tick)?;
    let limit = burst_limit(asked.mbs, increment, peak, tolerance)?;
    Ok(Sizes {
        peak: bucket(figures.pcr, figures.tick, peak, tolerance),
        sustained: Some(bucket(asked.scr, figures.tick, increment, limit)),
    })
}

/// Returns the buckets that police a contract.
///
/// The increment of a rate is the greatest whose rate is at least the one asked for. The limit of the peak rate is the
/// cell delay variation tolerance in ticks, rounded up; that of the sustained rate is the burst tolerance and the same
/// ticks. So no bucket is stricter than the contract.
///
/// # Errors
///
/// `BadNumber` if the tick isn't 1 nanosecond to 1 second; otherwise the first of these, the peak rate before the
/// sustained rate: `ZeroRate` if a rate is 0, `TooFast` if it is above a cell a tick; then `ZeroMbs` and `PeakSlower`
/// as for [`burst_tolerance`], and `TooLarge` if a limit is above 2^48 ticks.
pub fn sized(figures: Figures) -> Result<Sizes, SizeFault>
    ensures sizes { result ≡ sizes_of figures }
    ensures peak_increment { IfOk result (λ sizes. IsGreatest figures.pcr figures.tick sizes.peak.increment) }
    ensures peak_limit { IfOk result (λ sizes. Tolerates figures.cdvt figures.tick sizes.peak) }
    ensures peak_admits { IfOk result (λ sizes. AdmitsOnTime figures figures.pcr sizes.peak) }
    ensures peak_bounded { IfOk result (λ sizes. IsBucket sizes.peak) }
    ensures sustained_increment { IfOk result (λ sizes. AreGreatest figures.sustained figures.tick sizes.sustained) }
    ensures sustained_limit { IfOk result (λ sizes. IfSome sizes.sustained (Tolerates figures.cdvt figures.tick)) }
    ensures sustained_admits { IfOk result (λ sizes. AdmitsSustained figures figures.sustained sizes.sustained) }
    ensures sustained_bounded { IfOk result (λ sizes. IfSome sizes.sustained IsBucket) }
{
    if figures.tick == 0 || figures.tick > SECOND {
        return Err(SizeFault::BadNumber);
    }
    let peak = increment(figures.pcr, figures.tick)?;
    let tolerance = figures.cdvt.div_ceil(figures.tick);
    match figures.sustained {
        Some(asked) => both(figures, peak, tolerance, asked),
        None => Ok(Sizes {
            peak: bucket(figures.pcr, figures.tick, peak, within(tolerance)?),
            sustained: None,
        }),
    }
}

//! By how much a cell comes too early.

ghost use Rattle.std.specs.Prelude.{◌≡◌, ◌<◌, ◌-◌, IfSome, option_copied};
ghost use Rattle.leaky.specs.Contract.{Buckets, peak_of, sustained_of};
ghost use Rattle.leaky.specs.Excess.{excess_at, bucket_number};
ghost use Rattle.leaky.specs.KeptState.{Agrees, IsChargedBy};

use crate::contract::Contract;
use crate::gcra::Gcra;
use crate::levels::Levels;

/// One of the two buckets of a contract.
#[derive(Clone, Copy, Debug, PartialEq, Eq)]
pub enum WhichBucket {
    /// Bucket 1, which has the peak cell rate.
    Peak,
    /// Bucket 2, which has the sustainable cell rate.
    Sustained,
}

impl WhichBucket {
    /// The number of the bucket: 1 or 2.
    pub fn number(self) -> u8
        ensures { result ≡ bucket_number self }
    {
        match self {
            WhichBucket::Peak => 1,
            WhichBucket::Sustained => 2,
        }
    }
}

/// A bucket that a cell doesn't conform to, and by how much the cell comes too early for it.
#[derive(Clone, Copy, Debug, PartialEq, Eq)]
pub struct Excess {
    /// The first bucket that the cell meets and doesn't conform to.
    pub bucket: WhichBucket,
    /// By how much the level is above the limit at the cell's moment, in ticks, which is at least 1. A cell that comes
    /// so many ticks later conforms to this bucket, and none that comes earlier
    /// ([`crate::laws::excesses_are_least_delays`]).
    pub ticks: u64,
}

/// Returns by how much a cell of this cell loss priority at `moment`, in ticks, comes too early. None exactly if it
/// conforms to each bucket that it meets, so that [`crate::judge`] passes it. Doesn't allocate.
///
/// `levels` are those before the cell is judged. Discard leaves them unchanged, so the levels after that verdict give the same result. Tag
/// charges bucket 1 and leaves bucket 2 unchanged: after that verdict, pass levels whose `first` is 0, so that bucket 2 gives the result.
pub fn excess_at(contract: &Contract, levels: &Levels, clp: bool, moment: u64) -> Option<Excess>
    // For any buckets that the levels represent.
    ensures excess { (buckets : Buckets) → Agrees levels.now buckets → IsChargedBy buckets moment
        → result ≡ excess_at contract.now buckets clp moment }
    ensures some { IfSome result (λ excess. 0 < excess.ticks) }
{
    let ticks = over(peak_of(contract), levels.first, moment);
    if ticks > 0 {
        return Some(Excess {
            bucket: WhichBucket::Peak,
            ticks,
        });
    }
    let ticks = over(sustained_of(contract, clp)?, levels.second, moment);
    if ticks > 0 {
        return Some(Excess {
            bucket: WhichBucket::Sustained,
            ticks,
        });
    }
    None
}

/// Returns by how much the level at `moment` is above the limit, when `due` is the theoretical arrival time.
fn over(gcra: Gcra, due: u64, moment: u64) -> u64
    ensures { result ≡ (due - moment) - gcra.limit }
{
    due.saturating_sub(moment).saturating_sub(gcra.limit)
}

/// Returns the rate of bucket 1.
fn peak_of(contract: &Contract) -> Gcra
    ensures { result ≡ peak_of contract.now }
{
    match contract {
        Contract::Cbr1(peak)
        | Contract::Vbr1(peak, _)
        | Contract::Vbr2(peak, _)
        | Contract::Vbr3(peak, _) => *peak,
    }
}

/// Returns the rate of bucket 2, if a cell of this cell loss priority meets it.
fn sustained_of(contract: &Contract, clp: bool) -> Option<Gcra>
    ensures { result ≡ sustained_of contract.now clp }
{
    match (contract, clp) {
        (Contract::Cbr1(_), _) => None,
        (Contract::Vbr1(_, sustained), _) => Some(*sustained),
        (Contract::Vbr2(_, sustained) | Contract::Vbr3(_, sustained), false) => Some(*sustained),
        (Contract::Vbr2(_, _) | Contract::Vbr3(_, _), true) => None,
    }
}

//! Laws of the definitions that this crate's contracts cite. Each function does nothing; its contract is the law.

ghost use Rattle.leaky.specs.Laws.{SchedulingGivesTheBucketsVerdicts, BurstsAreBounded, FillingsAreBounded, ContractsBoundBursts, ChargesAreFillings, FillingsShow, TaggedCellsCameUntagged, LevelsStandForBuckets, LevelsFollowBuckets, ChargesKeepUp, TolerancesAreExact, PassedCellsHaveNoExcess, ExcessesAreLeastDelays};

/// Virtual scheduling and the leaky bucket give the same verdicts.
pub fn scheduling_gives_the_buckets_verdicts()
    ensures { SchedulingGivesTheBucketsVerdicts }
{}

/// In any span of `d` ticks at most `1 + (d + limit) / increment` cells conform.
pub fn bursts_are_bounded()
    ensures { BurstsAreBounded }
{}

/// The same bound holds for any cells that all conform to one bucket and fill it.
pub fn fillings_are_bounded()
    ensures { FillingsAreBounded }
{}

/// The same bound holds for the cells that charge bucket 1, and for those that charge bucket 2.
pub fn contracts_bound_bursts()
    ensures { ContractsBoundBursts }
{}

/// A cell fills exactly the buckets that its verdict charges; it leaves the others unchanged.
pub fn charges_are_fillings()
    ensures { ChargesAreFillings }
{}

/// A filled bucket differs from the bucket before.
pub fn fillings_show()
    ensures { FillingsShow }
{}

/// A tagged cell had cell loss priority 0.
pub fn tagged_cells_came_untagged()
    ensures { TaggedCellsCameUntagged }
{}

/// Some buckets agree with any levels, so the contract of `judge`, which is about all such buckets, is not vacuous.
pub fn levels_stand_for_buckets()
    ensures { LevelsStandForBuckets }
{}

/// After any cells with moments up to 2^62, some levels agree with the buckets.
pub fn levels_follow_buckets()
    ensures { LevelsFollowBuckets }
{}

/// If no bucket was charged later than the cell's moment before the cell, none is after it. So the next cell may
/// come at that moment or later.
pub fn charges_keep_up()
    ensures { ChargesKeepUp }
{}

/// A bucket of the sustainable rate admits a burst of `mbs` cells at the peak rate exactly if its limit is at least
/// the burst tolerance. The peak rate is at least the sustainable rate.
pub fn tolerances_are_exact()
    ensures { TolerancesAreExact }
{}

/// A cell has no excess exactly if it passes.
pub fn passed_cells_have_no_excess()
    ensures { PassedCellsHaveNoExcess }
{}

/// The ticks of an excess are the least delay after which a cell conforms to the bucket that it names.
pub fn excesses_are_least_delays()
    ensures { ExcessesAreLeastDelays }
{}

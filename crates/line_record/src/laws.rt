//! Laws of the definitions that this crate's contracts cite. Each function does nothing; its contract is the law.

ghost use Rattle.line_record.specs.Laws.{HistoriesHaveStates, StatesStandForBuckets, RunsJoin, RunsFollowHistories, CellsAreJudgedInTurn, EachCellIsJudged, CountedCellsFill, HistoriesBoundBursts, TotalsCount, TotalsJoin, PartsAreWithin, VerdictsCount, EntriesCount};

/// For every history whose moments never go back, up to 2^62, some state agrees with it.
pub fn histories_have_states()
    ensures { HistoriesHaveStates }
{}

/// Every state represents some buckets.
pub fn states_stand_for_buckets()
    ensures { StatesStandForBuckets }
{}

/// Runs that follow one another make one run.
pub fn runs_join()
    ensures { RunsJoin }
{}

/// A run from a state that agrees with a history has the history's verdicts.
pub fn runs_follow_histories()
    ensures { RunsFollowHistories }
{}

/// Judging cells in two parts is judging them as one list.
pub fn cells_are_judged_in_turn()
    ensures { CellsAreJudgedInTurn }
{}

/// Judging gives each cell one verdict and changes nothing else of it.
pub fn each_cell_is_judged()
    ensures { EachCellIsJudged }
{}

/// A cell is counted for a bucket exactly if it filled that bucket.
pub fn counted_cells_fill()
    ensures { CountedCellsFill }
{}

/// In any span of `d` ticks at most `1 + (d + limit) / increment` cells of a history charge one bucket of a contract.
pub fn histories_bound_bursts()
    ensures { HistoriesBoundBursts }
{}

/// A cell that is counted in one tally is counted in the total.
pub fn totals_count()
    ensures { TotalsCount }
{}

/// The total of tallies in two parts is the sum of both totals.
pub fn totals_join()
    ensures { TotalsJoin }
{}

/// A part has at most as many cells of each verdict as the whole.
pub fn parts_are_within()
    ensures { PartsAreWithin }
{}

/// Verdicts can be counted part by part or one by one, and each counts once.
pub fn verdicts_count()
    ensures { VerdictsCount }
{}

/// Entries are counted by their verdicts.
pub fn entries_count()
    ensures { EntriesCount }
{}

//! Cells at the limits of each contract, with their verdicts.

use super::expecting::{expect, expect_printed};
use leaky::*;
use std::process::Abort;
use std::test::Fail;

/// Expects these verdicts on cells of these CLPs and moments, from the initial state.
fn assert_verdicts(rt: &impl Abort, contract: &Contract, cells: &[(bool, u32, Verdict)]) {
    let mut levels = Levels::new();
    for (clp, moment, wanted) in cells {
        let found = judge(contract, &mut levels, *clp, u64::from(*moment));
        expect(rt, "a verdict", (*moment, found), (*moment, *wanted));
    }
}

/// After a cell at 0 the next is due at 10. With a limit of 5 a cell conforms from 5 on, and the next is then due at
/// 20.
#[test]
fn equality_at_the_limit_conforms(rt: HostRuntime) -> Result<(), Fail> {
    assert_verdicts(
        &rt,
        &Contract::Cbr1(Gcra::new(10, 5)?),
        &[
            (false, 0, Verdict::Pass),
            (false, 4, Verdict::Discard),
            (false, 5, Verdict::Pass),
            (false, 14, Verdict::Discard),
            (false, 15, Verdict::Pass),
        ],
    );
    assert_verdicts(
        &rt,
        &Contract::Vbr1(Gcra::new(1, 0)?, Gcra::new(10, 5)?),
        &[
            (false, 0, Verdict::Pass),
            (false, 4, Verdict::Discard),
            (false, 5, Verdict::Pass),
        ],
    );
    assert_verdicts(
        &rt,
        &Contract::Cbr1(Gcra::new(10, 0)?),
        &[
            (false, 0, Verdict::Pass),
            (false, 9, Verdict::Discard),
            (false, 10, Verdict::Pass),
        ],
    );
    Ok(())
}

#[test]
fn peak_rate_alone(rt: HostRuntime) -> Result<(), Fail> {
    let contract = Contract::Cbr1(Gcra::new(10, 5)?);
    assert_verdicts(
        &rt,
        &contract,
        &[
            (false, 0, Verdict::Pass),
            (false, 6, Verdict::Pass),
            (false, 14, Verdict::Discard),
            (false, 15, Verdict::Pass),
        ],
    );
    Ok(())
}

#[test]
fn both_rates_for_every_cell(rt: HostRuntime) -> Result<(), Fail> {
    let contract = Contract::Vbr1(Gcra::new(5, 0)?, Gcra::new(20, 20)?);
    assert_verdicts(
        &rt,
        &contract,
        &[
            (true, 0, Verdict::Pass),
            (true, 5, Verdict::Pass),
            (true, 10, Verdict::Discard),
            (true, 20, Verdict::Pass),
        ],
    );
    Ok(())
}

/// The cell at 18 fails only on bucket 2. If it charged bucket 1, the last cell would be discarded.
#[test]
fn a_discarded_cell_charges_no_bucket(rt: HostRuntime) -> Result<(), Fail> {
    let contract = Contract::Vbr2(Gcra::new(5, 0)?, Gcra::new(20, 20)?);
    assert_verdicts(
        &rt,
        &contract,
        &[
            (false, 0, Verdict::Pass),
            (false, 5, Verdict::Pass),
            (false, 18, Verdict::Discard),
            (false, 20, Verdict::Pass),
        ],
    );
    Ok(())
}

#[test]
fn a_tagged_cell_charges_bucket_1_alone(rt: HostRuntime) -> Result<(), Fail> {
    let contract = Contract::Vbr3(Gcra::new(5, 0)?, Gcra::new(20, 20)?);
    assert_verdicts(
        &rt,
        &contract,
        &[
            (false, 0, Verdict::Pass),
            (false, 5, Verdict::Pass),
            (false, 10, Verdict::Tag),
            (false, 12, Verdict::Discard),
            (false, 20, Verdict::Pass),
        ],
    );
    Ok(())
}

/// If the first cell charged bucket 2, the third of the first table would be tagged.
#[test]
fn cells_of_clp_1_leave_bucket_2_alone(rt: HostRuntime) -> Result<(), Fail> {
    let contract = Contract::Vbr3(Gcra::new(5, 0)?, Gcra::new(20, 20)?);
    assert_verdicts(
        &rt,
        &contract,
        &[
            (true, 0, Verdict::Pass),
            (false, 5, Verdict::Pass),
            (false, 10, Verdict::Pass),
        ],
    );
    assert_verdicts(
        &rt,
        &contract,
        &[
            (true, 0, Verdict::Pass),
            (true, 5, Verdict::Pass),
            (true, 10, Verdict::Pass),
            (true, 20, Verdict::Pass),
        ],
    );
    Ok(())
}

#[test]
fn the_greatest_numbers_are_judged(rt: HostRuntime) -> Result<(), Fail> {
    let contract = Contract::Cbr1(Gcra::new(MOST_TICKS, MOST_TICKS)?);
    let mut levels = Levels::new();
    assert_eq!(rt;
        judge(&contract, &mut levels, false, LAST_MOMENT),
        Verdict::Pass
    );
    assert_eq!(rt;
        judge(&contract, &mut levels, false, LAST_MOMENT),
        Verdict::Pass
    );
    let third = judge(&contract, &mut levels, false, LAST_MOMENT);
    let found = (third, levels.first, levels.second);
    let greatest = LAST_MOMENT + 2 * MOST_TICKS;
    expect(&rt, "a third", found, (Verdict::Discard, greatest, 0));
    Ok(())
}

#[test]
fn rates_out_of_range_are_refused(rt: HostRuntime) {
    for (increment, limit, fault) in [
        (0, 0, GcraFault::ZeroIncrement),
        (0, MOST_TICKS + 1, GcraFault::ZeroIncrement),
        (281474976710657, 0, GcraFault::TooLarge),
        (1, 281474976710657, GcraFault::TooLarge),
    ] {
        let found = Gcra::new(increment, limit);
        expect(&rt, "a rate", (increment, found), (increment, Err(fault)));
    }
}

#[test]
fn burst_tolerances(rt: HostRuntime) {
    for (cells, sustained, peak, wanted) in [
        (3, 20, 5, Ok(30)),
        (1, 20, 5, Ok(0)),
        (0, 20, 5, Err(BtFault::ZeroMbs)),
        (3, 5, 20, Err(BtFault::PeakSlower)),
        (281474976710658, 2, 1, Err(BtFault::TooLarge)),
        (281474976710657, 2, 1, Ok(MOST_TICKS)),
        (u64::MAX, u64::MAX, 0, Err(BtFault::TooLarge)),
    ] {
        let found = burst_tolerance(cells, sustained, peak);
        expect(&rt, "a tolerance", (cells, found), (cells, wanted));
    }
}

#[test]
fn defaults(rt: HostRuntime) -> Result<(), Fail> {
    let rate = Gcra::new(1, 0)?;
    expect(&rt, "a rate", Gcra::default(), rate);
    expect(&rt, "a contract", Contract::default(), Contract::Cbr1(rate));
    expect(&rt, "levels", Levels::default(), Levels::new());
    Ok(())
}

#[test]
fn faults_are_printed_by_number_and_name(rt: HostRuntime) -> Result<(), Fail> {
    expect_printed(&rt, rt.alloc(), &[(GcraFault::TooLarge, "2 TooLarge")])?;
    expect_printed(&rt, rt.alloc(), &[(BtFault::PeakSlower, "2 PeakSlower")])
}

/// The number of the bucket of an excess, and its ticks.
fn numbers_of(excess: Option<Excess>) -> Option<(u8, u64)> {
    let excess = excess?;
    Some((excess.bucket.number(), excess.ticks))
}

/// Expects this excess, by bucket and ticks, of a cell of this CLP and moment.
fn assert_excess(
    rt: &impl Abort,
    contract: &Contract,
    levels: &Levels,
    cells: &[(bool, u64, Option<(u8, u64)>)],
) {
    for (clp, moment, wanted) in cells {
        let found = numbers_of(excess_at(contract, levels, *clp, *moment));
        expect(rt, "an excess", (*moment, found), (*moment, *wanted));
    }
}

/// After a cell at 0, bucket 1 is due at 10 with a limit of 5, and bucket 2 at 40 with a limit of 12. So a cell of CLP 0
/// conforms to bucket 1 from 5 on and to bucket 2 from 28 on. One of CLP 1 doesn't meet bucket 2 of VBR.3.
#[test]
fn an_excess_names_the_bucket_and_the_ticks(rt: HostRuntime) -> Result<(), Fail> {
    let contract = Contract::Vbr3(Gcra::new(10, 5)?, Gcra::new(40, 12)?);
    let mut levels = Levels::new();
    judge(&contract, &mut levels, false, 0);
    assert_excess(
        &rt,
        &contract,
        &levels,
        &[
            (false, 0, Some((1, 5))),
            (false, 4, Some((1, 1))),
            (true, 4, Some((1, 1))),
            (false, 5, Some((2, 23))),
            (true, 5, None),
            (false, 27, Some((2, 1))),
            (false, 28, None),
        ],
    );
    let wanted = Fill {
        first: 2,
        second: 32,
    };
    expect(&rt, "what is left at 8", levels.fill_at(8), wanted);
    Ok(())
}

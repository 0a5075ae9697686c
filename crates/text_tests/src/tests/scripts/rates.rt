//! The contracts of a script.

use arrayvec::ArrayVec;
use leaky::{Contract, Gcra};
use std::test::Fail;
use text_script::{Rate, Wanted, checked_contracts};

/// The largest number of ticks of a rate.
const MOST: u64 = 281474976710656;

fn rate(increment: u64, limit: u64) -> Rate {
    Rate { increment, limit }
}

#[test]
fn each_kind_of_contract_is_made_as_it_was_asked_for(rt: HostRuntime) -> Result<(), Fail> {
    let mut wanted = ArrayVec::new();
    wanted.push(Wanted::Cbr1(rate(1, 0)));
    wanted.push(Wanted::Vbr1(rate(2, 3), rate(4, 5)));
    wanted.push(Wanted::Vbr2(rate(6, 7), rate(8, 9)));
    wanted.push(Wanted::Vbr3(rate(MOST, MOST), rate(10, 11)));
    let contracts = checked_contracts(&wanted)?;
    assert_eq!(rt;
        contracts.as_slice(),
        [
            Contract::Cbr1(Gcra::new(1, 0)?),
            Contract::Vbr1(Gcra::new(2, 3)?, Gcra::new(4, 5)?),
            Contract::Vbr2(Gcra::new(6, 7)?, Gcra::new(8, 9)?),
            Contract::Vbr3(Gcra::new(MOST, MOST)?, Gcra::new(10, 11)?),
        ]
        .as_slice()
    );
    Ok(())
}

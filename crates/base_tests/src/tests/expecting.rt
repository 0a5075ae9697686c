//! What tests expect. A comparison in a test costs the prover more than a call, so the tests share those that are here.

use gen_arena::Id;
use std::alloc::Global;
use std::fmt::{Debug, Display};
use std::process::Abort;
use std::test::Fail;

/// Expects this value of what is named.
pub fn expect<T: Copy + PartialEq + Debug>(rt: &impl Abort, what: &str, found: T, wanted: T) {
    assert_eq!(rt; found, wanted, "{what}");
}

/// Expects that each value is printed as the text beside it.
pub fn expect_printed<T: Copy + Display>(
    rt: &impl Abort,
    alloc: Global,
    rows: &[(T, &str)],
) -> Result<(), Fail> {
    for (value, wanted) in rows {
        let text = format!(in alloc; "{value}")?;
        expect(rt, "printed", text.as_str(), *wanted);
    }
    Ok(())
}

/// Returns the first program of this place in the arena.
pub fn program(slot: u16) -> Id {
    Id {
        slot,
        generation: 1,
    }
}

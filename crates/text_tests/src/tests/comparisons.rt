//! Comparisons of texts of rules, and the least cell that shows a case. `upc-lab differ` compares sides, so no input of it shows these.

use rules_cells::Rules;
use rules_diagrams::{Case, compare, give_same};
use rules_text::read_rules;
use std::alloc::Global;
use std::fmt::Debug;
use std::process::Abort;
use std::test::Fail;

/// Expects this value of what is named. A comparison in a test costs the prover more than a call.
fn expect<T: Copy + PartialEq + Debug>(rt: &impl Abort, what: &str, found: T, wanted: T) {
    assert_eq!(rt; found, wanted, "{what}");
}

/// How many cases two texts have, and whether they give each cell the same value.
fn compared(alloc: Global, old: &[u8], new: &[u8]) -> Result<(usize, bool), Fail> {
    let cases = cases_of(alloc, old, new)?;
    Ok((cases.len(), give_same(&cases)))
}

/// The cases of two texts.
fn cases_of(alloc: Global, old: &[u8], new: &[u8]) -> Result<Vec<Case>, Fail> {
    let old = read_rules(alloc, old)?;
    cases_with(alloc, &old, new)
}

/// The cases of rules and of a new text.
fn cases_with(alloc: Global, old: &Rules, new: &[u8]) -> Result<Vec<Case>, Fail> {
    let new = read_rules(alloc, new)?;
    Ok(compare(alloc, old, &new)?)
}

/// Two texts, how many cases they have, and whether they give each cell the same value.
const TEXTS: [(&[u8], &[u8], usize, bool); 5] = [
    (
        b"vpi 1 -> 1\nvpi 2 -> 2\n",
        b"vpi 2 -> 2\nvpi 1 -> 1\n",
        3,
        true,
    ),
    (b"vpi 1 -> 1\n", b"vpi 1 -> 2\n", 2, false),
    (
        b"vpi 1 {\nclp 1 -> 3\nany -> 1\n}\n",
        b"vpi 1 and clp 1 -> 3\nvpi 1 -> 1\n",
        3,
        true,
    ),
    (b"word 8 > 7 -> 1\n", b"not (word 8 <= 7) -> 1\n", 2, true),
    (b"vci 32..127 -> 1\n", b"vci 32..126 -> 1\n", 3, false),
];

#[test]
fn texts_agree_on_every_cell_or_on_not_all(rt: HostRuntime) -> Result<(), Fail> {
    for (old, new, cases, same) in TEXTS {
        let found = compared(rt.alloc(), old, new)?;
        expect(&rt, "the cases", found, (cases, same));
    }
    Ok(())
}

#[test]
fn a_case_has_the_least_cell_that_shows_it(rt: HostRuntime) -> Result<(), Fail> {
    let (old, new) = (b"vci 32..127 -> 1\n", b"vci 32..126 -> 1\n");
    let cases = cases_of(rt.alloc(), old, new)?;
    expect(&rt, "the cases", cases.len(), 3);
    match cases.last() {
        Some(last) => expect_case(&rt, last),
        None => return Err(Fail::new("no case")),
    }
    Ok(())
}

/// Expects that a case is shown by the cell of 0/127, to which the old text gives 1 and the new one 0.
fn expect_case(rt: &impl Abort, case: &Case) {
    let mut octets = [0; 52];
    octets[2] = 7;
    octets[3] = 0xf0;
    expect(rt, "the cell", *case.cell.bytes(), octets);
    expect(rt, "the values", (case.old.value, case.new.value), (1, 0));
}

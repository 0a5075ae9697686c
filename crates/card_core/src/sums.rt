//! The sums of the counts of a card's lines.

ghost use Rattle.std.specs.Prelude.{◌≡◌, ◌+◌, ◌*◌, ◌^◌, ◌<◌, ◌≤◌, length};
ghost use Rattle.card_core.specs.Sums.{totals_of, AreAtMost};

use line_record::{Line, Tally};

/// The number of cells with each verdict, over several lines. The counts of one line fit in 64 bits; their sums may
/// not.
#[derive(Clone, Copy, Debug, PartialEq, Eq)]
pub struct Totals {
    pub passed: u128,
    pub tagged: u128,
    pub discarded: u128,
    pub refused: u128,
}

/// Returns the sums over these lines.
pub(crate) fn totals_of(lines: &[Line]) -> Totals
    requires { length lines.now ≤ 4096 }
    ensures sums { result ≡ totals_of lines.now }
    ensures bounded { AreAtMost result (2 ^ 76) }
{
    let mut passed = 0u128;
    let mut tagged = 0u128;
    let mut discarded = 0u128;
    let mut refused = 0u128;
    for line in lines {
        let Tally {
            passed: more_passed,
            tagged: more_tagged,
            discarded: more_discarded,
            refused: more_refused,
        } = line.counts();
        passed += u128::from(more_passed);
        tagged += u128::from(more_tagged);
        discarded += u128::from(more_discarded);
        refused += u128::from(more_refused);
    }
    Totals {
        passed,
        tagged,
        discarded,
        refused,
    }
}

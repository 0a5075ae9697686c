//! The words that are tests.

ghost use Rattle.std.specs.Prelude.{◌≡◌, IfOk};
ghost use Rattle.rules_text.specs.RulesRead.{test_read};
ghost use Rattle.rules_text.specs.TestWords.{f4_cell, idle_cell};
ghost use Rattle.rules_text.specs.SeenTokens.{class_seen};

use crate::group::any_of_two;
use crate::subject::equal;
use bpf_code::Size;
use rules_cells::{Field, Octets, Relation, Span, Test};
use std::alloc::{AllocError, Global};

/// The cells of which a word that is a test holds, by ITU-T I.361 and I.610.
#[derive(Clone, Copy)]
pub enum Class {
    /// Every cell.
    Any,
    /// User data.
    User,
    /// OAM of a path or of a channel.
    Oam,
    /// OAM of a path.
    F4,
    /// OAM of a segment of a path.
    F4Segment,
    /// OAM of a path from end to end.
    F4End,
    /// OAM of a channel.
    F5,
    /// OAM of a segment of a channel.
    F5Segment,
    /// OAM of a channel from end to end.
    F5End,
    /// Resource management.
    Rm,
    /// Meta-signalling.
    MetaSignalling,
    /// Broadcast signalling.
    Broadcast,
    /// Signalling from point to point.
    Signalling,
    /// Local management.
    Ilmi,
    /// Idle cells.
    Idle,
}

/// The test that holds of the cells of a class.
pub(crate) fn test_of(alloc: Global, class: Class) -> Result<Test, AllocError>
    ensures { IfOk result (λ test. test_read test ≡ class_seen class) }
{
    match class {
        Class::Any => Ok(Test::Any),
        Class::User => Ok(Test::User),
        Class::Oam => any_of_two(alloc, f4(alloc), Test::F5),
        Class::F4 => Ok(f4(alloc)),
        Class::F4Segment => Ok(equal(Field::Vci, 3)),
        Class::F4End => Ok(equal(Field::Vci, 4)),
        Class::F5 => Ok(Test::F5),
        Class::F5Segment => Ok(equal(Field::Pti, 4)),
        Class::F5End => Ok(equal(Field::Pti, 5)),
        Class::Rm => Ok(equal(Field::Pti, 6)),
        Class::MetaSignalling => Ok(equal(Field::Vci, 1)),
        Class::Broadcast => Ok(equal(Field::Vci, 2)),
        Class::Signalling => Ok(equal(Field::Vci, 5)),
        Class::Ilmi => Ok(equal(Field::Vci, 16)),
        Class::Idle => Ok(idle()),
    }
}

/// The test of OAM cells of a path: VCI 3 or 4.
fn f4(alloc: Global) -> Test
    ensures { test_read result ≡ f4_cell }
{
    Test::Compare {
        field: Field::Vci,
        mask: None,
        relation: Relation::In {
            first: Span { low: 3, high: 4 },
            others: Vec::new(alloc),
        },
    }
}

/// The test of idle cells: octets 0 to 3 are the number 1.
fn idle() -> Test
    ensures { test_read result ≡ idle_cell }
{
    let first = Octets {
        size: Size::Word,
        at: 0,
    };
    equal(Field::Octets(first), 1)
}

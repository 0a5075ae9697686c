//! A card under a pointer whose type C doesn't see.

ghost use Rattle.std.specs.Prelude.{◌≡◌, Option};
ghost use Rattle.card_core.specs.Agreement.{CoreView};

use crate::hidden::Hidden;
use card_core::Core;
use std::alloc::Global;
use std::marker::{Model, Send};

/// A card in a box, or none. C has the pointer and never reads what it points to.
#[repr(C)]
#[derive(Drop)]
pub struct HiddenCard {
    at: *mut u8,
    alloc: Global,
    pub(crate) ghost core: { Option CoreView },
}

impl Model for HiddenCard {
    ghost use Rattle.std.specs.Prelude.{Option};
    ghost use Rattle.card_core.specs.Agreement.{CoreView};
    ghost use Rattle.card_core.specs.contracts.serial.Core.{the_row};
    ghost use Rattle.upc_c.specs.inner.Hidden.{owned_for_c};

    ghost also_owns = { λ h. owned_for_c the_row h.alloc h.at h.core };
}

// A card may move to another thread, since its box may.
unsafe impl Send for HiddenCard {}

impl HiddenCard {
    /// Hides the type of a core from C.
    pub(crate) fn of(hidden: Hidden<Core>) -> HiddenCard
        ensures { result.core ≡ hidden.value }
    {
        let Hidden { at, alloc } = hidden;
        HiddenCard {
            at: at as *mut u8,
            alloc,
        }
    }

    /// Takes the core back, with its type.
    pub(crate) fn into_hidden(self) -> Hidden<Core>
        ensures { result.value ≡ self.core }
    {
        let HiddenCard { at, alloc } = self;
        Hidden {
            at: at as *mut Core,
            alloc,
        }
    }
}

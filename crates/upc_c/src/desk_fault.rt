//! The errors of the desk, as C gets them.

ghost use Rattle.std.specs.Prelude.{◌≡◌};
ghost use Rattle.upc_c.specs.CardDesk.{desk_fault_for_c};
ghost use Rattle.upc_c.specs.inner.Numbered.{IsNumbered};

use crate::fault::{OF_THE_DESK, UpcFault, fault_at, out_of_memory};
use card_core::DeskFault;

/// Returns the error for C of a step that the desk refused.
pub(crate) fn desk_fault_for_c(found: DeskFault) -> UpcFault
    ensures fault { result ≡ desk_fault_for_c found }
    ensures numbered { IsNumbered result }
{
    let number = match found {
        DeskFault::NoProgram => 1,
        DeskFault::NoConnection => 2,
        DeskFault::Taken => 3,
        DeskFault::NoLine => 4,
        DeskFault::InUse => 5,
        DeskFault::ProgramsFull => 6,
        DeskFault::Exhausted => 7,
        DeskFault::BadContracts => 8,
        DeskFault::Busy => 9,
        DeskFault::NoMemory => return out_of_memory(),
        DeskFault::Stale => 11,
    };
    fault_at(OF_THE_DESK, number, 0)
}

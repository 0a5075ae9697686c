//! The ports of the core, and their states.

ghost use Rattle.std.specs.Prelude.{◌≡◌, IfSome, option_copied, replicate, slice_get, slice_set};
ghost use Rattle.std.specs.List.{list_all};
ghost use Rattle.card_core.specs.inner.Ports.{is_free_port, is_idle, came_in, found_in};

use crate::picking::Named;
use line_record::Seating;
use std::alloc::Global;
use upc_cell::{Cell, Vc};

/// A cell that entered a port.
#[derive(Clone, Copy, Debug)]
pub(crate) struct Came {
    pub(crate) cell: Cell,
    pub(crate) moment: u64,
}

/// A cell whose connection was found, and the value that its program gave, which may name no contract.
#[derive(Clone, Copy, Debug)]
pub(crate) struct Found {
    pub(crate) moment: u64,
    pub(crate) vc: Vc,
    pub(crate) seating: Seating,
    pub(crate) named: Named,
}

/// The state of a port.
#[derive(Clone, Copy, Debug)]
pub(crate) enum Port {
    /// The port has no cell.
    Outside,
    /// A cell entered.
    Entered(Came),
    /// The connection of its cell was found.
    Picked(Found),
}

/// Returns whether no port has a cell.
pub(crate) fn are_outside(ports: &[Port]) -> bool
    ensures { result ≡ list_all is_free_port ports.now }
{
    ports.iter().all(|port| matches!(port, Port::Outside))
}

/// Returns whether there is a port of this number that has no cell.
pub(crate) fn is_idle_at(ports: &[Port], port: u8) -> bool
    ensures { result ≡ is_idle (slice_get ports.now port) }
{
    match ports.get(usize::from(port)) {
        Some(Port::Outside) => true,
        Some(Port::Entered(_) | Port::Picked(_)) | None => false,
    }
}

/// Returns the cell that entered the port of this number, if there is one. The port keeps the cell.
pub(crate) fn entered_at(ports: &[Port], port: u8) -> Option<&Came>
    ensures { option_copied result ≡ came_in (slice_get ports.now port) }
{
    match ports.get(usize::from(port)) {
        Some(Port::Entered(came)) => Some(came),
        Some(Port::Outside | Port::Picked(_)) | None => None,
    }
}

/// Returns the picked cell of the port of this number, if there is one. The port keeps the cell.
pub(crate) fn picked_at(ports: &[Port], port: u8) -> Option<&Found>
    ensures { option_copied result ≡ found_in (slice_get ports.now port) }
{
    match ports.get(usize::from(port)) {
        Some(Port::Picked(found)) => Some(found),
        Some(Port::Outside | Port::Entered(_)) | None => None,
    }
}

/// Sets the state of the port of this number, if there is such a port.
pub(crate) fn move_port(ports: &mut Vec<Port>, port: u8, next: Port)
    ensures { ports.new.items ≡ slice_set ports.old.items port next }
{
    if let Some(here) = ports.get_mut(usize::from(port)) {
        *here = next;
    }
}

/// Makes this many ports without a cell. Returns None if an allocation fails.
pub(crate) fn outside_ports(alloc: Global, many: usize) -> Option<Vec<Port>>
    ensures { IfSome result (λ ports. ports.items ≡ replicate many Port.Outside) }
{
    let Ok(mut ports) = Vec::with_capacity(alloc, many) else {
        return None;
    };
    for _ in 0..many {
        ports.push_reserved(Port::Outside);
    }
    Some(ports)
}

//! The size of a card, as C gives it.

ghost use Rattle.std.specs.Prelude.{◌≡◌, ◌<◌, IfOk, IfErr};
ghost use Rattle.upc_c.specs.CardMaking.{IsShapeOf};
ghost use Rattle.upc_c.specs.CellHeader.{side_number};
ghost use Rattle.upc_c.specs.Faults.{unknown_side};

use crate::fault::{ForC, OF_THE_CALL, fault_at};
use card_core::Shape;
use upc_cell::Side;

/// The size of a card, and the header of its cells.
#[repr(C)]
#[derive(Clone, Copy, Debug)]
pub struct UpcShape {
    /// Where the header of its cells is read: 0 at the user network interface, 1 between nodes of the network. 2 and 3 are the same two
    /// interfaces, on a card whose connections are virtual paths.
    pub side: u32,
    /// The greatest number of programs, 1 to 1024.
    pub programs: u64,
    /// The greatest number of connections, 1 to 4096.
    pub lines: u64,
    /// The number of ports, 1 to 16.
    pub ports: u64,
    /// The greatest number of cells in a journal, 1 to 65536.
    pub journal: u64,
}

/// Returns the side of this number.
pub(crate) fn side_of(number: u32) -> ForC<Side>
    ensures side { IfOk result (λ side. number ≡ side_number side) }
    ensures unknown { IfErr result (λ _. 3 < number) }
    ensures fault { IfErr result (λ fault. fault ≡ unknown_side) }
{
    match number {
        0 => Ok(Side::Uni),
        1 => Ok(Side::Nni),
        2 => Ok(Side::UniPaths),
        3 => Ok(Side::NniPaths),
        _ => Err(fault_at(OF_THE_CALL, 5, 0)),
    }
}

/// Returns the shape as C has it.
pub(crate) fn shape_for_c(shape: Shape) -> UpcShape
    ensures { IsShapeOf result shape }
{
    UpcShape {
        side: match shape.side {
            Side::Uni => 0,
            Side::Nni => 1,
            Side::UniPaths => 2,
            Side::NniPaths => 3,
        },
        programs: shape.programs,
        lines: shape.lines,
        ports: shape.ports,
        journal: shape.journal,
    }
}

/// Returns the shape with these numbers.
pub(crate) fn shape_of(given: &UpcShape) -> ForC<Shape>
    ensures shape { IfOk result (IsShapeOf given.now) }
    ensures unknown { IfErr result (λ _. 3 < given.now.side) }
    ensures fault { IfErr result (λ fault. fault ≡ unknown_side) }
{
    let side = side_of(given.side)?;
    Ok(Shape {
        programs: given.programs,
        lines: given.lines,
        ports: given.ports,
        journal: given.journal,
        side,
    })
}

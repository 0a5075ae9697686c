//! Cells: the fields of a header, and the tag.

ghost use Rattle.std.specs.Prelude.{◌≡◌, ◌≢◌, length, IfOk, IfErr};
ghost use Rattle.upc_cell.specs.Tagged.{tagged_form};
ghost use Rattle.upc_cell.specs.declared.side.Side.{Side as TheSide};
ghost use Rattle.upc_c.specs.CellHeader.{IsCellFault, IsFieldsFault, fields_at, side_number};
ghost use Rattle.upc_c.specs.Faults.{AnswersCall};
ghost use Rattle.upc_c.specs.inner.Numbered.{IsNumbered};

use crate::fault::{ForC, OF_A_CELL, UpcFault, fault_at, report, report_success};
use crate::shape::side_of;
use upc_cell::{Cell, CellFault, Side};

/// The fields of a cell's header (ITU-T I.361).
#[repr(C)]
#[derive(Clone, Copy, Debug)]
pub struct UpcFields {
    /// The virtual path identifier: 0 to 255 at the user network interface, 0 to 4095 between nodes of the network.
    pub vpi: u16,
    /// The virtual channel identifier.
    pub vci: u16,
    /// Generic flow control, 0 to 15; 0 between nodes of the network.
    pub gfc: u8,
    /// The payload type, 0 to 7.
    pub pti: u8,
    /// The cell loss priority: 1 for a cell of low priority, otherwise 0.
    pub clp: u8,
}

/// Returns the cell of these octets.
#[inline]
pub(crate) fn cell_of(octets: &[u8]) -> ForC<Cell>
    ensures length { IfOk result (λ _. length octets.now ≡ 52) }
    ensures cell { IfOk result (λ cell. cell ≡ octets.now) }
    ensures fault { IfErr result (IsCellFault octets.now) }
    ensures numbered { IfErr result IsNumbered }
{
    match Cell::from_bytes(octets) {
        Ok(cell) => Ok(cell),
        Err(CellFault::WrongLength(count)) => Err(fault_at(OF_A_CELL, 1, count)),
    }
}

/// Returns the fields of a cell's header, read at this side.
#[inline]
fn fields_of(cell: &Cell, side: Side) -> UpcFields
    ensures { result ≡ fields_at side cell.now }
{
    UpcFields {
        vpi: cell.vpi_at(side),
        vci: cell.vci(),
        gfc: match side {
            Side::Uni => cell.gfc(),
            Side::Nni => 0,
            Side::UniPaths => cell.gfc(),
            Side::NniPaths => 0,
        },
        pti: cell.pti(),
        clp: if cell.clp() { 1 } else { 0 },
    }
}

/// Reads the header of a cell of 52 octets, at the user network interface (`side` 0 or 2) or between nodes of the network
/// (1 or 3). Returns the result of the error, or 0.
#[unsafe(no_mangle)]
pub extern "C" fn upc_cell_fields(
    octets: &[u8],
    side: u32,
    fields: &mut UpcFields,
    fault: &mut UpcFault,
) -> u32
    ensures answers { AnswersCall result fault.new }
    ensures read { result ≡ 0 → (at : TheSide) × (side ≡ side_number at) × (length octets.now ≡ 52)
        × (fields.new ≡ fields_at at octets.now) }
    ensures refused { result ≢ 0 → IsFieldsFault octets.now side fault.new }
    ensures left { result ≢ 0 → fields.new ≡ fields.old }
{
    match (cell_of(octets), side_of(side)) {
        (Ok(cell), Ok(side)) => {
            *fields = fields_of(&cell, side);
            report_success(fault)
        }
        (Ok(_), Err(found)) => report(fault, found),
        (Err(found), _) => report(fault, found),
    }
}

/// Tags the cell of 52 octets: its cell loss priority becomes 1. Returns the result of the error, or 0.
#[unsafe(no_mangle)]
pub extern "C" fn upc_cell_tag(octets: &mut [u8], fault: &mut UpcFault) -> u32
    ensures answers { AnswersCall result fault.new }
    ensures tagged { result ≡ 0 → (length octets.old ≡ 52) × (octets.new ≡ tagged_form octets.old) }
    ensures refused { result ≢ 0 → IsCellFault octets.old fault.new }
    ensures left { result ≢ 0 → octets.new ≡ octets.old }
{
    match cell_of(octets) {
        Ok(cell) => {
            octets.copy_from_slice(cell.tagged().bytes());
            report_success(fault)
        }
        Err(found) => report(fault, found),
    }
}

//! The cell, and the fields of its header.

ghost use Rattle.std.specs.Prelude.{◌≡◌, ◌≢◌, ◌≤◌, ◌/◌, ◌↔◌, ℕ, length, slice_index, IfOk, IfErr, IsOk, IsTrue};
ghost use Rattle.upc_cell.specs.Header.{header_number, gfc_of, vpi_of, vci_of, pti_of, clp_of, has_low_priority};
ghost use Rattle.upc_cell.specs.Side.{vci_at, vpi_at, last_vpi};
ghost use Rattle.upc_cell.specs.Connection.{vc_of};
ghost use Rattle.upc_cell.specs.Tagged.{tagged_form};

use crate::side::Side;
use crate::vc::Vc;
use byteorder::{BigEndian, ByteOrder};
use std::marker::Model;
use thiserror::Error;

/// The number of octets of a cell without its header error check: 4 of header, 48 of payload.
pub const CELL_OCTETS: usize = 52;

/// Why octets are not a cell.
#[derive(Clone, Copy, PartialEq, Eq, Debug, Error)]
pub enum CellFault {
    /// The number of octets, which is not 52.
    #[error("1 WrongLength {0}")]
    WrongLength(usize),
}

/// A cell: 52 octets, without the header error check (ITU-T I.361). Octets 0 to 3 are the header, octets 4 to 51 the
/// payload. A cell does not record the side at which it arrived: methods without a `Side` read the header as at the
/// user network interface.
///
/// Contracts see a cell as the list of its octets.
#[derive(Clone, Copy, PartialEq, Eq, Debug)]
pub struct Cell {
    octets: [u8; CELL_OCTETS],
}

impl Model for Cell {
    ghost use Rattle.std.specs.Prelude.{ℕ, List};

    ghost Value = { List ℕ };

    ghost view = { λ c. c.octets };

    ghost inverse = { λ octets. record { octets = octets } };
}

impl From<[u8; CELL_OCTETS]> for Cell {
    ghost from_gives = { λ octets cell. cell ≡ octets };

    /// Makes a cell of 52 octets.
    fn from(octets: [u8; CELL_OCTETS]) -> Cell {
        Cell { octets }
    }
}

impl Cell {
    /// Makes a cell of these octets.
    ///
    /// # Errors
    ///
    /// `WrongLength` with the number of octets, exactly if it is not 52.
    pub fn from_bytes(octets: &[u8]) -> Result<Cell, CellFault>
        ensures accepted { IsOk result ↔ (length octets.now ≡ 52) }
        ensures cell { IfOk result (λ cell. cell ≡ octets.now) }
        ensures fault { IfErr result (λ fault. fault ≡ CellFault.WrongLength (length octets.now)) }
    {
        if octets.len() != CELL_OCTETS {
            return Err(CellFault::WrongLength(octets.len()));
        }
        let mut whole = [0u8; CELL_OCTETS];
        whole.copy_from_slice(octets);
        Ok(Cell { octets: whole })
    }

    /// The 52 octets.
    pub fn bytes(&self) -> &[u8; CELL_OCTETS]
        ensures { result.now ≡ self.now }
    {
        &self.octets
    }

    /// Octets 0 to 3 as one number, octet 0 highest.
    fn header(&self) -> u32
        ensures { result ≡ header_number self.now }
    {
        BigEndian::read_u32(self.bytes())
    }

    /// Generic flow control, 0 to 15. Only the user network interface has this field.
    pub fn gfc(&self) -> u8
        ensures { result ≡ gfc_of self.now }
    {
        (self.header() >> 28) as u8
    }

    /// Virtual path identifier at the user network interface, 0 to 255.
    pub fn vpi(&self) -> u16
        ensures { result ≡ vpi_of self.now }
    {
        (self.header() >> 20 & 0xff) as u16
    }

    /// Virtual path identifier at this side, 0 to 255 or 0 to 4095.
    pub fn vpi_at(&self, side: Side) -> u16
        ensures path { result ≡ vpi_at side self.now }
        ensures width { result ≤ last_vpi side }
    {
        match side {
            Side::Uni => self.vpi(),
            Side::Nni => (self.header() >> 20) as u16,
            Side::UniPaths => self.vpi(),
            Side::NniPaths => (self.header() >> 20) as u16,
        }
    }

    /// The channel of the cell's connection at this side: the virtual channel identifier, or 0 where connections are
    /// virtual paths.
    fn vci_at(&self, side: Side) -> u16
        ensures { result ≡ vci_at side self.now }
    {
        match side {
            Side::Uni => self.vci(),
            Side::Nni => self.vci(),
            Side::UniPaths => 0,
            Side::NniPaths => 0,
        }
    }

    /// Virtual channel identifier, 0 to 65535.
    pub fn vci(&self) -> u16
        ensures { result ≡ vci_of self.now }
    {
        (self.header() >> 4 & 0xffff) as u16
    }

    /// Payload type, 0 to 7. 0 to 3 are user data; 4 is OAM F5 of a segment, and 5 OAM F5 end to end.
    pub fn pti(&self) -> u8
        ensures { result ≡ pti_of self.now }
    {
        (self.header() >> 1 & 7) as u8
    }

    /// Returns whether the cell has low priority: its cell loss priority is 1.
    pub fn clp(&self) -> bool
        ensures priority { IsTrue result ↔ (clp_of self.now ≡ 1) }
        ensures test { result ≡ has_low_priority self.now }
    {
        self.header() & 1 == 1
    }

    /// The virtual connection in the header, read at the user network interface.
    pub fn vc(&self) -> Vc
        ensures connection { result ≡ vc_of Side.Uni self.now }
        ensures vpi { result.vpi ≡ vpi_of self.now }
        ensures vci { result.vci ≡ vci_of self.now }
    {
        self.vc_at(Side::Uni)
    }

    /// The cell's virtual connection at this side. Where connections are virtual paths, its channel is 0.
    pub fn vc_at(&self, side: Side) -> Vc
        ensures connection { result ≡ vc_of side self.now }
        ensures vpi { result.vpi ≡ vpi_at side self.now }
        ensures vci { result.vci ≡ vci_at side self.now }
    {
        Vc {
            vpi: self.vpi_at(side),
            vci: self.vci_at(side),
        }
    }

    /// The tagged cell: the same octets, with cell loss priority 1.
    pub fn tagged(&self) -> Cell
        ensures form { result ≡ tagged_form self.now }
        ensures priority { clp_of result ≡ 1 }
        ensures fields { header_number result / 2 ≡ header_number self.now / 2 }
        ensures high_bits { slice_index result 3 / 2 ≡ slice_index self.now 3 / 2 }
        ensures others { (place : ℕ) → place ≢ 3 → slice_index result place ≡ slice_index self.now place }
    {
        let mut octets = self.octets;
        // Keeps the seven high bits. Written with `/` and `*`, as `tagged_form` is.
        octets[3] = octets[3] / 2 * 2 + 1;
        Cell { octets }
    }
}

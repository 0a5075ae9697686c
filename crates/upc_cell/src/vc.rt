//! Virtual connections.

ghost use Rattle.std.specs.Prelude.{◌≡◌, ◌+◌, ◌*◌, ◌≤◌, ◌↔◌, IfOk, IfErr, IsOk};
ghost use Rattle.std.specs.Hash as fed;
ghost use Rattle.std.proofs.Common.{rules};
ghost use Rattle.upc_cell.specs.Side.{last_vpi};

use crate::side::Side;
use std::hash::{Hash, Hasher};
use thiserror::Error;

/// Why two numbers are not a virtual connection.
#[derive(Clone, Copy, PartialEq, Eq, Debug, Error)]
pub enum VcFault {
    /// The virtual path identifier is above the highest at this side.
    #[error("1 VpiTooLarge")]
    VpiTooLarge,
}

/// A virtual connection (ITU-T I.361): a virtual path (0 to 255 at the user network interface, 0 to 4095 between
/// nodes of the network) and a virtual channel in it (0 to 65535). Ordered by path, then by channel.
#[derive(Clone, Copy, PartialEq, Eq, PartialOrd, Ord, Debug)]
pub struct Vc {
    /// The virtual path identifier.
    pub vpi: u16,
    /// The virtual channel identifier. It is 0 where connections are virtual paths.
    pub vci: u16,
    pub ghost of_an_interface: { vpi ≤ 4095 },
}

impl Vc {
    /// Makes the virtual connection of this path and channel at the user network interface.
    ///
    /// # Errors
    ///
    /// `VpiTooLarge` exactly if the path is above 255.
    pub fn new(vpi: u16, vci: u16) -> Result<Vc, VcFault>
        ensures accepted { IsOk result ↔ (vpi ≤ 255) }
        ensures path { IfOk result (λ vc. vc.vpi ≡ vpi) }
        ensures channel { IfOk result (λ vc. vc.vci ≡ vci) }
    {
        Vc::new_at(Side::Uni, vpi, vci)
    }

    /// Makes the virtual connection of this path and channel at this side.
    ///
    /// # Errors
    ///
    /// `VpiTooLarge` exactly if the path is above 255 at the user network interface, or above 4095 between nodes of
    /// the network.
    pub fn new_at(side: Side, vpi: u16, vci: u16) -> Result<Vc, VcFault>
        ensures accepted { IsOk result ↔ (vpi ≤ last_vpi side) }
        ensures path { IfOk result (λ vc. vc.vpi ≡ vpi) }
        ensures channel { IfOk result (λ vc. vc.vci ≡ vci) }
    {
        if vpi > side.last_vpi() {
            return Err(VcFault::VpiTooLarge);
        }
        Ok(Vc { vpi, vci })
    }
}

/// Hashes path and channel as one number of 32 bits, in one call.
impl Hash for Vc {
    ghost hash_input = { λ vc. fed.u32 (65536 * vc.vpi + vc.vci) };

    ghost respects_eq = { Prim.search rules };

    fn hash<H: Hasher>(&self, state: &mut H) {
        state.write_u32(65536 * u32::from(self.vpi) + u32::from(self.vci));
    }
}

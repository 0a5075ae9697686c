//! The interfaces at which a header is read, and what a connection is there.

/// The highest virtual path identifier at the user network interface.
const LAST_VPI_OF_USERS: u16 = 255;

/// The highest virtual path identifier between nodes of the network.
const LAST_VPI_OF_NODES: u16 = 4095;

/// The interface at which a header is read (ITU-T I.361), and what a connection is there. Between a user and the network
/// the four highest bits of the header are generic flow control; between two nodes of the network they are the high
/// bits of the path. A connection is a virtual channel, or a virtual path with all its channels (ITU-T I.311).
#[derive(Clone, Copy, PartialEq, Eq, Debug)]
pub enum Side {
    /// The user network interface: a path has 8 bits. Connections are virtual channels.
    Uni,
    /// The network node interface: a path has 12 bits. Connections are virtual channels.
    Nni,
    /// The user network interface. Connections are virtual paths.
    UniPaths,
    /// The network node interface. Connections are virtual paths.
    NniPaths,
}

impl Side {
    ghost use Rattle.std.specs.Prelude.{◌≡◌};
    ghost use Rattle.upc_cell.specs.Side.{has_paths, last_vpi};

    /// The highest virtual path identifier at this side: 255 or 4095.
    pub fn last_vpi(self) -> u16
        ensures { result ≡ last_vpi self }
    {
        match self {
            Side::Uni => LAST_VPI_OF_USERS,
            Side::Nni => LAST_VPI_OF_NODES,
            Side::UniPaths => LAST_VPI_OF_USERS,
            Side::NniPaths => LAST_VPI_OF_NODES,
        }
    }

    /// Whether connections are virtual paths.
    pub fn has_paths(self) -> bool
        ensures { result ≡ has_paths self }
    {
        match self {
            Side::Uni => false,
            Side::Nni => false,
            Side::UniPaths => true,
            Side::NniPaths => true,
        }
    }
}

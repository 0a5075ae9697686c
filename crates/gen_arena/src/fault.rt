//! Why an arena could not be made.

use thiserror::Error;

/// Why an arena could not be made. `Display` prints the number and the name, as `1 NoSlots`.
#[derive(Clone, Copy, Debug, PartialEq, Eq, Hash, Error)]
pub enum ArenaFault {
    /// The number of slots was 0.
    #[error("1 NoSlots")]
    NoSlots,
    /// The allocation of the slots failed.
    #[error("2 NoMemory")]
    NoMemory,
}

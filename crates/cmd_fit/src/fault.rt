//! Why a cell ends a run.

use thiserror::Error;

/// Why a cell ends a run. Printed as its number and its name.
#[derive(Clone, Copy, Debug, Error)]
pub enum FitFault {
    /// It is of a 65,536th connection; with rules, of a 65,536th flow, which is a connection and a value.
    #[error("1 TooManyConnections")]
    TooManyConnections,
    /// 64 bits don't hold the number of its flow's cells, or the ticks in the flow's bucket after it.
    #[error("2 TooLarge")]
    TooLarge,
}

//! The steps of the core.

use crate::ask::Ask;
use bpf_verify::Program;
use gen_arena::Id;
use upc_cell::{Cell, Vc};

/// One step of the core. A cell takes up to three steps at its port. Steps of other ports and of the
/// desk may come between them.
#[derive(Debug, Drop)]
pub enum Step {
    /// A cell enters a port that has none. From then until its answer no program is loaded or retired.
    Enter {
        /// The number of the port, from 0.
        port: u8,
        cell: Cell,
        /// The moment of arrival, in ticks.
        moment: u64,
    },
    /// The connection of the port's cell is looked up, and its program gives a value for the cell, which names a contract or none.
    Pick {
        /// The number of the port, from 0.
        port: u8,
    },
    /// The port's cell is judged by the contract that was named. If none was, the verdict is Refuse.
    Judge {
        /// The number of the port, from 0.
        port: u8,
    },
    /// A program is loaded.
    Load(Program),
    /// A program is retired.
    Retire(Id),
    /// A connection is set up.
    Setup(Ask),
    /// A connection gets another program. Its buckets and its journal are unchanged.
    Reload {
        vc: Vc,
        program: Id,
    },
    /// A connection is released.
    Release(Vc),
    /// A connection's journal is returned, and a new one begins.
    Cut(Vc),
}

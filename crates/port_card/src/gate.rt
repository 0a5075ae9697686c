//! A hook between the look-up and the judgement of a cell. It has no contract: a card promises as much with any gate.

/// A hook between the look-up and the judgement of a cell. A test uses it to make a port wait for another thread. At
/// that time the port holds only the read lock of the programs.
pub trait Gate {
    /// Called when a cell at the port of this number, from 0, has been looked up and isn't judged yet.
    fn between(&self, port: u8);
}

/// Doesn't wait: cells are judged right after their look-up.
#[derive(Clone, Copy, Debug)]
pub struct NoWait;

impl Gate for NoWait {
    fn between(&self, _port: u8) {}
}

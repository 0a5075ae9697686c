//! The records of a capture, one after the other, and their links.

ghost use Rattle.std.specs.Prelude.{IfOk};
ghost use Rattle.cmd_fit.specs.inner.LinksSteps.{StepsLinks};

use crate::link_table::LinkTable;
use captures::{Fault, Next, Reader};
use captures_text::WINDOW_ROOM;
use std::alloc::AllocError;
use text_io::Window;

/// How a reading goes on.
#[derive(Clone, Copy)]
pub(crate) enum StepOutcome {
    /// A frame was read, and there may be more among the octets that wait.
    GoesOn,
    /// More octets are wanted.
    NeedsOctets,
    /// The octets begin with no frame.
    Broken(Fault),
}

/// What reads the records of a capture.
#[derive(Drop)]
pub(crate) struct LinksReading {
    /// The octets that wait.
    pub(crate) window: Window<WINDOW_ROOM>,
    pub(crate) reader: Reader,
    pub(crate) table: LinkTable,
}

impl LinksReading {
    /// Reads the next frame among the octets that wait.
    pub(crate) fn step(&mut self) -> Result<StepOutcome, AllocError>
        ensures { IfOk result (λ outcome. StepsLinks self.old outcome self.new) }
    {
        match self.reader.next(self.window.octets()) {
            Next::Unfinished => Ok(StepOutcome::NeedsOctets),
            Next::Broken(fault) => Ok(StepOutcome::Broken(fault)),
            Next::Skipped(block, own) => {
                self.table.skip_block(block);
                self.window.skip(own);
                Ok(StepOutcome::GoesOn)
            }
            Next::Taken(record_read, own) => {
                self.table.take(&record_read)?;
                self.window.skip(own);
                Ok(StepOutcome::GoesOn)
            }
        }
    }
}

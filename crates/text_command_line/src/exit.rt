//! The exit status of a program.

ghost use Rattle.std.specs.Prelude.{◌≡◌};
ghost use Rattle.text_command_line.specs.ExitStatus.{status_of};

use text_io::{Done, Ending};

/// The exit status for the result of a run: 0 if the whole input was answered, 1 if a fault line ended the run, 3 if it
/// failed.
pub fn status(ended: &Ending) -> u8
    ensures { result ≡ status_of ended.now }
{
    match ended {
        Ok(Done::Whole) => 0,
        Ok(Done::Ended) => 1,
        Err(_) => 3,
    }
}

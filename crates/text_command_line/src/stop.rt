//! Why the words of a command line give no choice.

ghost use Rattle.clap.specs.Values.{kind_of};
ghost use Rattle.text_command_line.specs.inner.StopFor.{IsStopFor};

use clap::Error;
use clap::error::ErrorKind;
use std::alloc::Global;

/// Why the words give no choice. A text is the whole message, with its last line feed.
#[derive(Drop)]
pub enum Stop {
    /// Help or the version was requested. The text goes to the standard output, and the exit status is 0.
    Help(String),
    /// A word is wrong, or there is one too many. The text goes to standard error, and the exit status is 2.
    Words(String),
    /// An allocation failed; the exit status is 3.
    NoMemory,
}

/// Returns why an error of `clap` gives no choice: the words ask for help or the version, a word is wrong, or an allocation failed. The
/// text is clap's.
pub(crate) fn stop_for(alloc: Global, error: Error) -> Stop
    ensures { IsStopFor (kind_of error) result }
{
    let kind = error.kind();
    let Ok(text) = error.to_string(alloc) else {
        return Stop::NoMemory;
    };
    match kind {
        ErrorKind::OutOfMemory => Stop::NoMemory,
        ErrorKind::DisplayHelp | ErrorKind::DisplayVersion => Stop::Help(text),
        _ => Stop::Words(text),
    }
}

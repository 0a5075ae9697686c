//! Messages on the error output.

ghost use Rattle.text_command_line.specs.Messages.{WritesMessage};

use text_io::{Output, give_all};

/// Writes a message to the error output. If that fails too, the failure is ignored.
pub fn write_message<E: Output>(errors: &mut E, text: &[u8])
    ensures { E.is_known → WritesMessage E.Output errors.old errors.new text.now }
{
    let _ = give_all(errors, text);
}

//! Which of two texts are programs.

ghost use Rattle.std.specs.Prelude.{◌≡◌, codes};
ghost use Rattle.text_command_line.specs.Arguments.{text_named, texts_of};
ghost use Rattle.cmd_options.specs.DifferOptions.{programs_named, programs_of};

use text_command_line::{Value, text_of};

/// Which of the texts before and after a change are programs. The others are rules.
#[derive(Clone, Copy)]
pub enum Programs {
    /// Both are rules.
    Neither,
    /// The text before the change.
    Old,
    /// The text after it.
    New,
    /// Both.
    Both,
}

/// Returns which texts a word says to be programs.
fn programs_named(word: &str) -> Option<Programs>
    ensures { result ≡ programs_named word.now }
{
    match word {
        "old" => Some(Programs::Old),
        "new" => Some(Programs::New),
        "both" => Some(Programs::Both),
        _ => None,
    }
}

/// Returns which texts the value of `--program` says to be programs.
pub(crate) fn programs_of(values: &[Value]) -> Option<Programs>
    ensures { result ≡ programs_of (text_named (texts_of values.now) (codes "program")) }
{
    match text_of(values, "program") {
        None => Some(Programs::Neither),
        Some(word) => programs_named(word),
    }
}

//! A command line as `clap` reads it.

ghost use Rattle.std.specs.Prelude.{◌≡◌, ◌∷◌, IfOk, map};
ghost use Rattle.std.specs.String.{string_bytes};

use std::alloc::{AllocError, Global};

/// Puts the name of a command before the words, because `clap` takes the first word as the name.
pub(crate) fn line_of(
    alloc: Global,
    name: &str,
    mut words: Vec<String>,
) -> Result<Vec<String>, AllocError>
    ensures { IfOk result (λ all. map string_bytes all.items ≡ name.now ∷ map string_bytes words.items) }
{
    let name = String::from_str(alloc, name)?;
    words.insert(0, name)?;
    Ok(words)
}

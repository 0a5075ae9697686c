//! Names of files in messages.

ghost use Rattle.std.specs.Prelude.{◌≡◌, ◌++◌, OnOk};
ghost use Rattle.cmd_setups.specs.FileNames.{escaped_name, escaped_octet, is_printable};

use std::alloc::{AllocError, Global};

/// Returns whether an octet is printable ASCII, and no backslash.
fn is_printable(octet: u8) -> bool
    ensures { result ≡ is_printable octet }
{
    octet >= 32 && octet < 127 && octet != b'\\'
}

/// Appends an octet of a name: itself, or a backslash, `x` and its two hexadecimal digits.
#[tactic(auto, using(std::proofs::lemmas::List::append_assoc))]
fn add_escaped_octet(alloc: Global, text: &mut Vec<u8>, octet: u8) -> Result<(), AllocError>
    ensures { OnOk result (text.new.items ≡ text.old.items ++ escaped_octet octet) }
{
    if is_printable(octet) {
        text.push(octet)?;
        return Ok(());
    }
    let digits = hex::encode(alloc, &[octet])?;
    text.extend_from_slice(b"\\x")?;
    text.extend_from_slice(digits.as_bytes())?;
    Ok(())
}

/// Appends the name of a file in printable ASCII: each other octet, and the backslash, as a backslash, `x` and two hexadecimal digits.
///
/// # Errors
///
/// `AllocError` if an allocation failed.
#[tactic(auto, using(std::proofs::lemmas::List::append_assoc))]
pub fn add_escaped_name(alloc: Global, text: &mut Vec<u8>, name: &[u8]) -> Result<(), AllocError>
    ensures { OnOk result (text.new.items ≡ text.old.items ++ escaped_name name.now) }
{
    let mut left = name;
    while let [octet, rest @ ..] = left {
        add_escaped_octet(alloc, text, *octet)?;
        left = rest;
    }
    Ok(())
}

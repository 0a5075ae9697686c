//! The octets of a file of rules, for all lines that name it.

ghost use Rattle.std.specs.Prelude.{◌≡◌, IfOk};
ghost use Rattle.cmd_setups.specs.SharedTexts.{octets_of_text};

use std::alloc::{AllocError, Global};
use std::rc::Rc;

/// The octets of a file of rules. Lines that name the same file share them.
#[derive(Drop)]
pub struct SharedText {
    /// The octets.
    pub octets: Rc<Vec<u8>>,
}

impl SharedText {
    /// Makes a text of these octets.
    ///
    /// # Errors
    ///
    /// `AllocError` if an allocation failed.
    pub fn new(alloc: Global, octets: Vec<u8>) -> Result<SharedText, AllocError>
        ensures { IfOk result (λ text. octets_of_text text ≡ octets.items) }
    {
        match Rc::new(alloc, octets) {
            Ok(octets) => Ok(SharedText { octets }),
            Err(_) => Err(AllocError),
        }
    }

    // no edit: without an allocator there is no other text
    /// Returns the same text for another line.
    ///
    /// # Errors
    ///
    /// `AllocError` if as many lines share the text as can be counted.
    pub fn share(&self) -> Result<SharedText, AllocError>
        ensures { IfOk result (λ text. octets_of_text text ≡ octets_of_text self.now) }
    {
        let octets = self.octets.clone()?;
        Ok(SharedText { octets })
    }

    /// Returns the octets.
    pub fn as_slice(&self) -> &[u8]
        ensures { result.now ≡ octets_of_text self.now }
    {
        self.octets.as_slice()
    }
}

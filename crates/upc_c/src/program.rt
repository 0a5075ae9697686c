//! A program that C has.

ghost use Rattle.std.specs.Prelude.{◌≡◌, ◌↔◌, None};

use crate::hidden::HiddenProgram;

/// A program, or none: all zeros are none. C must not make a second copy of it, or read or write its content. It may move
/// it to another place if it no longer uses the earlier one: what it owns depends on its value, and not on its place.
#[repr(C)]
#[derive(Drop)]
pub struct UpcProgram {
    /// 0 if there is no program.
    pub(crate) live: u32,
    /// The address of the program.
    pub(crate) inner: HiddenProgram,
    pub ghost marked: { (live ≡ 0) ↔ (inner.code ≡ None) },
}

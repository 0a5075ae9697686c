//! A card that C has.

ghost use Rattle.std.specs.Option.{ForSome};
ghost use Rattle.std.specs.Prelude.{◌≡◌, ◌↔◌, None};
ghost use Rattle.upc_c.specs.inner.ReachedCore.{IsReachedCore};

use crate::hidden::HiddenCard;

/// A card, or none: all zeros are none. C must not make a second copy of it, or read or write its content. It may move
/// it to another place if it no longer uses the earlier one: what it owns depends on its value, and not on its place.
#[repr(C)]
#[derive(Drop)]
pub struct UpcCard {
    /// 0 if there is no card.
    pub(crate) live: u32,
    /// The address of the card.
    pub(crate) inner: HiddenCard,
    pub ghost marked: { (live ≡ 0) ↔ (inner.core ≡ None) },
    pub ghost reached: { ForSome inner.core IsReachedCore },
}

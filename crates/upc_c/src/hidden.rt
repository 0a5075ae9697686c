//! A value under a pointer, or none.

mod card;
mod program;

ghost use Rattle.std.specs.Prelude.{◌≡◌, ◌≢◌, Option, Some, None};

pub use card::HiddenCard;
pub use program::HiddenProgram;
use std::alloc::{Allocator, Global};
use std::marker::Model;
use std::ptr::null_mut;

/// The pointer and the allocator of a box, or of no box. No export takes a struct with a type parameter, so `HiddenProgram` and
/// `HiddenCard` are the same two words for C.
pub(crate) struct Hidden<T, A: Allocator = Global> {
    at: *mut T,
    alloc: A,
    pub(crate) ghost value: { Option T },
}

impl<T, A: Allocator> Model for Hidden<T, A> {
    ghost use Rattle.upc_c.specs.inner.Hidden.{owned};

    ghost also_owns = { λ h. owned (A.dealloc_token h.alloc) T.row h.at h.value };
}

impl<T, A: Allocator> Hidden<T, A> {
    /// Takes a box apart.
    pub(crate) fn of(whole: Box<T, A>) -> Hidden<T, A>
    where
        T: Drop,
        ensures { result.value ≡ Some whole.value }
    {
        let (at, alloc) = Box::into_raw_with_allocator(whole);
        Hidden { at, alloc }
    }

    /// Makes the box again. There has to be a value.
    pub(crate) fn into_box(self) -> Box<T, A>
        requires { self.value ≢ None }
        ensures { self.value ≡ Some result.value }
    {
        let Hidden { at, alloc } = self;
        unsafe { Box::from_raw(alloc, at) }
    }

    /// Makes a hidden value without a box.
    pub(crate) fn none(alloc: A) -> Hidden<T, A>
        ensures { result.value ≡ None }
    {
        Hidden {
            at: null_mut(),
            alloc,
        }
    }
}

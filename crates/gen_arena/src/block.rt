//! The block: a row of boxes in raw memory, each with room for one `E`.
//!
//! A box has a value or is blank. Only the proofs know which, so reading requires that the box has a value, and
//! writing that it is blank. No value is read twice or overwritten, and no box is read before it is written. Only
//! the functions of this file use a pointer.
//!
//! `also_owns` says what memory a type owns besides its fields, and `also_shares` what a `&` to it has of that (`ftrue`:
//! nothing). specs/inner/BlockMemory.antt has the definitions that both use.

ghost use Rattle.std.specs.Prelude.{◌≡◌, ℕ, ◌<◌, List, Option, Some, None, length, replicate, get_or, slice_set, IfOk, ⊤};
ghost use Rattle.std.specs.Borrow.{sem};
ghost use Rattle.std.specs.Vec.Ownership.{FitsInBlock};
ghost use base.Fml.{ftrue};
ghost use denote.RawPtr.{Ptr};
ghost use Rattle.gen_arena.specs.inner.Boxes.{BoxHolds};
ghost use Rattle.gen_arena.specs.inner.BlockMemory.{row_owned, row_lent, way_back};

use std::alloc::{AllocError, Allocator};
use std::marker::{Model, PhantomData, Send, Sync};
use std::mem::{align_of, size_of};

/// The address of a block. It owns nothing.
pub struct Start<E> {
    to: *mut E,
}

impl<E> Clone for Start<E> {
    ghost is_clone = { λ one other. other ≡ one };

    ghost is_infallible = { λ _. ⊤ };

    fn clone(&self) -> Result<Start<E>, AllocError> {
        Ok(*self)
    }
}

impl<E> Copy for Start<E> {}

unsafe impl<E> Send for Start<E> {}

unsafe impl<E> Sync for Start<E> {}

/// The owner of a block's boxes. It has size 0.
pub struct Boxes<E> {
    of: PhantomData<*const E>,
    ghost start: { Ptr },
    ghost held: { List (Option E) },
}

impl<E> Model for Boxes<E> {
    ghost also_owns = { λ c. row_owned E.row c.start c.held };

    ghost also_shares = { λ c _ κ. row_lent E.row c.start c.held κ };
}

unsafe impl<E: Send> Send for Boxes<E> {}

unsafe impl<E: Sync> Sync for Boxes<E> {}

/// The permission to return a block of `count` boxes to its allocator. It has size 0, and a `&` to it gives no
/// access.
pub struct Deed<E, A: Allocator> {
    of: PhantomData<*const (E, A)>,
    ghost start: { Ptr },
    ghost count: { ℕ },
    ghost from: { A },
}

impl<E, A: Allocator> Model for Deed<E, A> {
    ghost also_owns = { λ d. way_back E.row (A.dealloc_token d.from) d.start d.count };

    ghost also_shares = { λ _ _ _. ftrue };
}

unsafe impl<E, A: Allocator + Send> Send for Deed<E, A> {}

unsafe impl<E, A: Allocator> Sync for Deed<E, A> {}

/// Allocates a block of `count` blank boxes.
pub(crate) fn make<E, A: Allocator>(
    alloc: &A,
    count: usize,
) -> Result<(Start<E>, Boxes<E>, Deed<E, A>), AllocError>
    requires { FitsInBlock E.row count }
    ensures { IfOk result (λ made. (made.1.start ≡ made.0.to) × (made.1.held ≡ replicate count None) × (made.2.start ≡ made.0.to) × (made.2.count ≡ count) × (made.2.from ≡ alloc.now)) }
{
    match alloc.allocate(count * size_of::<E>(), align_of::<E>()) {
        Ok(block) => {
            let start = Start {
                to: block as *mut E,
            };
            Ok((start, Boxes { of: PhantomData }, Deed { of: PhantomData }))
        }
        Err(refused) => Err(refused),
    }
}

/// Deallocates a block whose boxes are all blank.
pub(crate) fn give_back<E, A: Allocator>(
    alloc: &A,
    start: Start<E>,
    count: usize,
    boxes: Boxes<E>,
    deed: Deed<E, A>,
)
    requires { (boxes.start ≡ start.to) × (boxes.held ≡ replicate count None) × (deed.start ≡ start.to) × (deed.count ≡ count) × (deed.from ≡ alloc.now) }
{
    let Boxes { of: _ } = boxes;
    let Deed { of: _ } = deed;
    unsafe {
        alloc.deallocate(start.to as *mut u8, count * size_of::<E>(), align_of::<E>());
    }
}

impl<E> Boxes<E> {
    ghost use Rattle.gen_arena.specs.inner.BoxLends.{lends_box};

    /// Writes a value into a blank box.
    pub(crate) fn put(&mut self, start: Start<E>, k: usize, value: E)
        requires { (start.to ≡ self.old.start) × (k < length self.old.held) × (get_or self.old.held k None ≡ None) }
        ensures { (self.new.start ≡ self.old.start) × (self.new.held ≡ slice_set self.old.held k (Some value)) }
    {
        unsafe { start.to.add(k).write(value) }
    }

    /// Moves the value out of a box. The box is blank afterwards.
    pub(crate) fn take(&mut self, start: Start<E>, k: usize) -> E
        requires { (start.to ≡ self.old.start) × BoxHolds self.old.held k }
        ensures value { get_or self.old.held k None ≡ Some result }
        ensures blank { (self.new.start ≡ self.old.start) × (self.new.held ≡ slice_set self.old.held k None) }
    {
        unsafe { start.to.add(k).read() }
    }

    /// Borrows the value in a box.
    pub(crate) fn lend(&self, start: Start<E>, k: usize) -> &E
        requires { (start.to ≡ self.now.start) × BoxHolds self.now.held k }
        ensures { get_or self.now.held k None ≡ Some result.now }
    {
        unsafe { &*start.to.add(k) }
    }

    /// Borrows the value in a box mutably. When the borrow ends, the box has the value that was last written through it.
    pub(crate) fn lend_mut(&mut self, start: Start<E>, k: usize) -> &mut E
        requires { (start.to ≡ self.old.start) × BoxHolds self.old.held k }
        ensures* writes_back { sem 𝓛 (lends_box E.row self.entry k result) }
        ensures value { get_or self.old.held k None ≡ Some result.now }
    {
        unsafe { &mut *start.to.add(k) }
    }
}

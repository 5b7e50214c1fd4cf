//! Values in heap blocks of their own, each reached by its pointer.
ghost use Rattle.std.specs.Prelude.{◌≡◌, ◌≤◌, ◌↔◌, IsTrue, List, [], ◌∷◌, Some};
ghost use Rattle.std.specs.Borrow.{sem};
ghost use Rattle.std.specs.Mem.{type_size};
ghost use Rattle.std.specs.Ptr.{null_ptr};
ghost use Rattle.std_alloc.specs.Box.{box_allocator};
ghost use denote.RawPtr.{block_of as number_at, Testable};
ghost use Rattle.node_store.specs.Blocks.{Lying, lying, found_in, without_block, LiesAt, IsAt, LieApart, LieAtStarts};
ghost use Rattle.node_store.specs.Ownership.{blocks_own, blocks_lent};

use std::alloc::{Allocator, Global};
use std::marker::{Model, PhantomData, Send, Sync};

/// Where a block lies. It owns nothing, and says nothing of whether the block is still there.
#[derive(Clone, Copy)]
pub(crate) struct Place {
    ptr: *const u8,
}

unsafe impl Send for Place {}

unsafe impl Sync for Place {}

impl Place {
    /// A place where no block lies.
    pub(crate) fn nowhere() -> Place
        ensures { result.ptr ≡ null_ptr }
    {
        Place {
            ptr: std::ptr::null(),
        }
    }

    /// Whether it is null.
    #[inline(always)]
    pub(crate) fn is_nowhere(self) -> bool
        requires { Testable self.ptr }
        ensures { IsTrue result ↔ (self.ptr ≡ null_ptr) }
    {
        self.ptr.is_null()
    }
}

/// The owner of many blocks, each with a value. It takes no space.
pub(crate) struct Blocks<T, A: Allocator> {
    mark: PhantomData<*const (T, A)>,
    ghost held: { List (Lying T A) },
}

impl<T, A: Allocator> Model for Blocks<T, A> {
    ghost also_owns = { λ b. blocks_own T.row A.dealloc_token b.held };

    ghost also_shares = { λ b _ κ. blocks_lent T.row b.held κ };
}

// A block goes with its owner, and a `&` to it reaches no handle.
unsafe impl<T: Send, A: Allocator + Send> Send for Blocks<T, A> {}

unsafe impl<T: Sync, A: Allocator> Sync for Blocks<T, A> {}

impl<T, A: Allocator> Blocks<T, A> {
    ghost use Rattle.node_store.specs.BlocksLends.{lends_block};

    /// The owner of no block.
    pub(crate) fn new() -> Blocks<T, A>
        ensures { result.held ≡ [] }
    {
        Blocks { mark: PhantomData }
    }

    /// Ends an owner that has no block left.
    pub(crate) fn end(self)
        requires { self.held ≡ [] }
    {
        let Blocks { mark: _ } = self;
    }

    /// The value in the block that lies there.
    #[inline(always)]
    pub(crate) fn get(&self, place: Place) -> &T
        requires { LiesAt self.now.held place.ptr }
        ensures { (h : Lying T A) → found_in (number_at place.ptr) self.now.held ≡ Some h → result.now ≡ h.value }
    {
        unsafe { &*(place.ptr as *const T) }
    }

    /// The value in the block that lies there, for writing.
    #[inline(always)]
    pub(crate) fn get_mut(&mut self, place: Place) -> &mut T
        requires { LiesAt self.old.held place.ptr }
        ensures* writes_back { sem 𝓛 (lends_block T.row A.row A.Allocator self.entry place.ptr result) }
        ensures value { (h : Lying T A) → found_in (number_at place.ptr) self.old.held ≡ Some h → result.now ≡ h.value }
    {
        unsafe { &mut *(place.ptr as *mut T) }
    }

    /// Says that no two values lie at one place. It does nothing.
    #[inline(always)]
    pub(crate) fn lie_apart(&mut self)
        requires { 1 ≤ type_size T.row }
        ensures same { self.new ≡ self.old }
        ensures apart { LieApart self.old.held }
    {}
}

impl<T> Blocks<T, Global> {
    /// Says that each value lies at the start of its block. It does nothing.
    #[inline(always)]
    pub(crate) fn lie_at_starts(&mut self)
        ensures same { self.new ≡ self.old }
        ensures starts { LieAtStarts self.old.held }
    {}
}

impl<T: Drop, A: Allocator> Blocks<T, A> {
    /// Takes over a box's block, and returns where it lies and the handle that frees it.
    #[inline(always)]
    pub(crate) fn put(&mut self, block: Box<T, A>) -> (Place, A)
        ensures held { self.new.held ≡ lying result.0.ptr (box_allocator block) block.value ∷ self.old.held }
        ensures alloc { result.1 ≡ box_allocator block }
    {
        let (at, alloc) = Box::into_raw_with_allocator(block);
        (
            Place {
                ptr: at as *const u8,
            },
            alloc,
        )
    }

    /// Gives the block that lies there out as a box.
    #[inline(always)]
    pub(crate) fn take(&mut self, place: Place, alloc: A) -> Box<T, A>
        requires { IsAt self.old.held place.ptr alloc }
        ensures value { found_in (number_at place.ptr) self.old.held ≡ Some (lying place.ptr alloc result.value) }
        ensures held { self.new.held ≡ without_block (number_at place.ptr) self.old.held }
        ensures alloc { box_allocator result ≡ alloc }
    {
        unsafe { Box::from_raw(alloc, place.ptr as *mut T) }
    }
}

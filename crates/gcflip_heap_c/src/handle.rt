//! The handle by which C holds a heap.

ghost use Rattle.std.specs.Prelude.{◌≡◌, ℕ, Option, Some, None, IsSome, MatchBool, MatchOption};
ghost use Rattle.std.specs.Borrow.{sem};
ghost use Rattle.gc_model.specs.State.{State};
ghost use Rattle.gc_collected.specs.Collected.{Beside};
ghost use Rattle.gcflip_heap_c.specs.Handle.{owns_heap, coded_state, coded_beside, coded_roots_left};

use gc_collected::CollectedHeap;
use gc_in_c::Parts;
use std::alloc::Global;
use std::marker::Model;
use std::mem::replace;
use std::ptr::null_mut;

/// A handle: a pointer to a heap, or null. Contracts see the state of the heap, if there is one; beside it how flips are checked, the memory
/// that waits, and what the last flip left; and how many looks at extra roots are left.
#[repr(C)]
#[derive(Drop)]
pub struct GcflipHeap {
    at: *mut u8,
    alloc: Global,
    ghost state: { Option State } by { coded_state },
    ghost beside: { Beside } by { coded_beside },
    ghost roots_left: { ℕ } by { coded_roots_left },
}

impl Model for GcflipHeap {
    ghost also_owns = { λ handle. owns_heap handle.alloc handle.at handle.state handle.beside handle.roots_left };
}

impl GcflipHeap {
    ghost use Rattle.gcflip_heap_c.specs.Internal.Lending.{LendsHeap};

    /// Returns a handle without a heap.
    pub(crate) fn empty(alloc: Global) -> GcflipHeap
        ensures { result.state ≡ None }
    {
        let at: *mut u8 = null_mut();
        GcflipHeap { at, alloc }
    }

    /// Returns whether the handle has no heap.
    pub(crate) fn is_empty(&mut self) -> bool
        ensures { MatchBool result (self.old.state ≡ None) (IsSome self.old.state) × (self.new ≡ self.old) }
    {
        self.at.is_null()
    }

    /// Lends the heap.
    pub(crate) fn heap_mut(&mut self) -> &mut CollectedHeap
        requires { IsSome self.old.state }
        ensures* writes_back { sem 𝓛 (LendsHeap self.entry result) }
        ensures value { (self.old.state ≡ Some result.now.core) × (self.old.beside ≡ result.now.beside) × (self.old.roots_left ≡ result.now.roots_left) }
    {
        let at = self.at as *mut CollectedHeap;
        unsafe { &mut *at }
    }

    /// Returns a handle that has this heap.
    pub(crate) fn full(heap: Box<CollectedHeap>) -> GcflipHeap
        ensures state { result.state ≡ Some heap.value.core }
        ensures beside { result.beside ≡ heap.value.beside }
        ensures left { result.roots_left ≡ heap.value.roots_left }
    {
        GcflipHeap::of_parts(Parts::of(heap))
    }

    /// Takes the heap out of the handle, if it has one.
    pub(crate) fn take(&mut self, alloc: Global) -> Option<Box<CollectedHeap>>
        ensures heap { MatchOption result (self.old.state ≡ None) (λ heap. self.old.state ≡ Some heap.value.core) }
        ensures empty { self.new.state ≡ None }
    {
        if self.is_empty() {
            return None;
        }
        Some(
            replace(self, GcflipHeap::empty(alloc))
                .into_parts()
                .into_box(),
        )
    }

    fn of_parts(parts: Parts<CollectedHeap, Global>) -> GcflipHeap
        ensures { (result.state ≡ Some parts.value.core) × (result.beside ≡ parts.value.beside) × (result.roots_left ≡ parts.value.roots_left) }
    {
        let Parts { at, alloc } = parts;
        let at = at as *mut u8;
        GcflipHeap { at, alloc }
    }

    fn into_parts(self) -> Parts<CollectedHeap, Global>
        requires { IsSome self.state }
        ensures { (Some result.value.core ≡ self.state) × (result.value.beside ≡ self.beside) × (result.value.roots_left ≡ self.roots_left) }
    {
        let GcflipHeap { at, alloc } = self;
        let at = at as *mut CollectedHeap;
        Parts { at, alloc }
    }
}

unsafe impl Send for GcflipHeap {}

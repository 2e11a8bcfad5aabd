//! The handle by which C holds one end of a heap.

ghost use Rattle.std.specs.Prelude.{◌≡◌, Option, Some, None, IsSome, MatchBool, MatchOption};
ghost use Rattle.std.specs.Borrow.{sem};
ghost use Rattle.gcflip_beside_c.specs.declared.end.End.{End as AnEnd};
ghost use Rattle.gcflip_beside_c.specs.Handle.{owns_end, coded_end};

use crate::end::End;
use gc_in_c::Parts;
use std::alloc::Global;
use std::marker::Model;
use std::mem::replace;
use std::ptr::null_mut;

/// A handle: a pointer to an end, or null. Contracts see the end, if there is one. C has a type of its own for each end, with the same bytes.
#[repr(C)]
#[derive(Drop)]
pub struct GcflipEnd {
    at: *mut u8,
    alloc: Global,
    ghost end: { Option AnEnd } by { coded_end },
}

impl Model for GcflipEnd {
    ghost also_owns = { λ handle. owns_end handle.alloc handle.at handle.end };
}

impl GcflipEnd {
    ghost use Rattle.gcflip_beside_c.specs.Internal.Lending.{LendsEnd};

    /// Returns a handle without an end.
    pub(crate) fn empty(alloc: Global) -> GcflipEnd
        ensures { result.end ≡ None }
    {
        let at: *mut u8 = null_mut();
        GcflipEnd { at, alloc }
    }

    /// Returns whether the handle has no end.
    pub(crate) fn is_empty(&mut self) -> bool
        ensures { MatchBool result (self.old.end ≡ None) (IsSome self.old.end) × (self.new ≡ self.old) }
    {
        self.at.is_null()
    }

    /// Lends the end.
    pub(crate) fn end_mut(&mut self) -> &mut End
        requires { IsSome self.old.end }
        ensures* writes_back { sem 𝓛 (LendsEnd self.entry result) }
        ensures value { self.old.end ≡ Some result.now }
    {
        let at = self.at as *mut End;
        unsafe { &mut *at }
    }

    /// Returns a handle that has this end.
    pub(crate) fn full(end: Box<End>) -> GcflipEnd
        ensures { result.end ≡ Some end.value }
    {
        GcflipEnd::of_parts(Parts::of(end))
    }

    /// Takes the end out of the handle, if it has one.
    pub(crate) fn take(&mut self, alloc: Global) -> Option<Box<End>>
        ensures end { MatchOption result (self.old.end ≡ None) (λ end. self.old.end ≡ Some end.value) }
        ensures empty { self.new.end ≡ None }
    {
        if self.is_empty() {
            return None;
        }
        Some(
            replace(self, GcflipEnd::empty(alloc))
                .into_parts()
                .into_box(),
        )
    }

    fn of_parts(parts: Parts<End, Global>) -> GcflipEnd
        ensures { result.end ≡ Some parts.value }
    {
        let Parts { at, alloc } = parts;
        let at = at as *mut u8;
        GcflipEnd { at, alloc }
    }

    fn into_parts(self) -> Parts<End, Global>
        requires { IsSome self.end }
        ensures { Some result.value ≡ self.end }
    {
        let GcflipEnd { at, alloc } = self;
        let at = at as *mut End;
        Parts { at, alloc }
    }
}

unsafe impl Send for GcflipEnd {}

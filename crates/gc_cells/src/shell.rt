//! A vector whose words are elsewhere, and the way to put them back.
ghost use Rattle.std.specs.Prelude.{◌≡◌, ℕ, ◌<◌, List, length};
ghost use Rattle.std.specs.Vec.{with_items};
ghost use base.Fml.{ftrue, fex, fall, fwand, fsep, feq};
ghost use denote.Builtin.{u64};
ghost use Rattle.bytes.specs.Ownership.{Extent, extent_code};
ghost use Rattle.atomic_table.specs.Seated.{strip};

use crate::strip::Strip;
use std::alloc::Allocator;
use std::marker::{Move, Owns};

/// A `Vec` whose words have become a `Strip`. It has the right to free their memory, once they are back. Follows the block of the toolchain's `bytes`.
pub(crate) struct Shell<A: Allocator> {
    vec: Vec<u64, A>,
}

impl<A: Allocator> Owns for Shell<A> {
    ghost Value = { Extent };

    ghost coded = { extent_code };

    ghost shr_at = { λ _ _ _. ftrue };
}

impl<A: Allocator> Move for Shell<A> {
    ghost own_val = { λ e vs. fex Inside (λ v. fsep (feq ℕ v.vec.len e.len) (fall (List ℕ) (λ xs. fwand (fsep (feq ℕ (length xs) e.len) (strip u64 e.ptr xs)) (Fields.own_val (record { vec = with_items v.vec xs }) vs)))) };
}

// A `&` to a `Shell` gives no access to anything, so any threads may share one.
unsafe impl<A: Allocator + Send> Send for Shell<A> {}

unsafe impl<A: Allocator> Sync for Shell<A> {}

/// Takes the words out of a vector, which begin at `ptr`. Copies nothing.
pub(crate) fn detach<A: Allocator>(ptr: *mut u64, vec: Vec<u64, A>) -> (Strip<u64>, Shell<A>)
    requires { (ptr ≡ vec.ptr) × (0 < vec.len) }
    ensures { (result.0.ptr ≡ vec.ptr) × (result.0.items ≡ vec.items) × (result.1.ptr ≡ vec.ptr) × (result.1.len ≡ vec.len) }
{
    (Strip { ptr }, Shell { vec })
}

/// Puts words back into the vector from which they were taken. They may have changed meanwhile.
pub(crate) fn attach<A: Allocator>(strip: Strip<u64>, shell: Shell<A>) -> Vec<u64, A>
    requires { (strip.ptr ≡ shell.ptr) × (length strip.items ≡ shell.len) }
    ensures { result.items ≡ strip.items }
{
    let Strip { ptr: _ } = strip;
    let Shell { vec } = shell;
    vec
}

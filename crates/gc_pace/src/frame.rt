//! Frames, which are stacks in the extra roots.

use gc_collected::CollectedHeap;
use gc_graph::{Reply, Slot};

/// A frame: the extra roots from `first` on and below `end` as a stack. Those below `top` hold its values. Those from `top` on and below
/// `high` may hold values that the program dropped when it lowered `top`. C sees the same record.
#[repr(C)]
#[derive(Clone, Copy, Debug, Drop, PartialEq, Eq)]
pub struct Frame {
    /// The first extra root of the frame.
    pub first: u32,
    /// The extra root behind its last one.
    pub end: u32,
    /// The extra root that the next push sets.
    pub top: u32,
    /// The extra root behind the last one that may hold a value. If it is below `top`, it counts as `top`.
    pub high: u32,
}

impl Frame {
    ghost use Rattle.std.specs.Prelude.{◌≡◌, ◌<◌, ◌-◌, ◌↔◌, None, IfSome, IsSome, IsTrue};
    ghost use Rattle.gc_pace.specs.Frames.{HasFrame, pushed, popped, trimmed, pop_step, store_step, trim_step};

    /// Returns whether the numbers of the frame are in order, and the heap has its roots.
    #[inline(always)]
    pub fn is_in(&self, heap: &CollectedHeap) -> bool
        ensures { IsTrue result ↔ HasFrame self.now heap.now.core }
    {
        self.first <= self.top
            && self.top <= self.end
            && self.high <= self.end
            && self.end <= heap.extra_roots()
    }

    /// Copies the value of slot `s` to the top, and moves the top up. If `high` is below the new top, raises it there. Returns `Done`,
    /// or `None` if the frame is full. Does not allocate.
    #[inline(always)]
    pub fn push(&mut self, heap: &mut CollectedHeap, m: u8, s: Slot) -> Option<Reply>
        requires mutator { m < heap.old.core.mutators }
        requires frame { HasFrame self.old heap.old.core }
        ensures full { (result ≡ None) ↔ (self.old.top ≡ self.old.end) }
        ensures none { result ≡ None → (self.new ≡ self.old) × (heap.new ≡ heap.old) }
        ensures step { IfSome result (λ reply. store_step heap.old.core m self.old.top s ≡ (reply, heap.new.core)) }
        ensures frame { IsSome result → self.new ≡ pushed self.old }
        ensures beside { heap.new.beside ≡ heap.old.beside }
    {
        let top = self.top;
        if top == self.end {
            return None;
        }
        self.top = top + 1;
        if self.high <= top {
            self.high = top + 1;
        }
        let _done = heap.store(m, top, s);
        Some(Reply::Done)
    }

    /// Moves the top down, copies the value there into slot `d`, and sets that root to nil. If no root above it may hold a value, moves
    /// `high` down too. Returns `Done`, or `None` if the frame is empty. Does not allocate.
    #[inline(always)]
    pub fn pop(&mut self, heap: &mut CollectedHeap, m: u8, d: Slot) -> Option<Reply>
        requires mutator { m < heap.old.core.mutators }
        requires frame { HasFrame self.old heap.old.core }
        ensures empty { (result ≡ None) ↔ (self.old.top ≡ self.old.first) }
        ensures none { result ≡ None → (self.new ≡ self.old) × (heap.new ≡ heap.old) }
        ensures step { IfSome result (λ reply. pop_step heap.old.core m d (self.old.top - 1) ≡ (reply, heap.new.core)) }
        ensures frame { IsSome result → self.new ≡ popped self.old }
        ensures beside { heap.new.beside ≡ heap.old.beside }
    {
        let top = self.top;
        if top == self.first {
            return None;
        }
        self.top = top - 1;
        if self.high <= top {
            self.high = top - 1;
        }
        let _done = heap.load(m, d, top - 1);
        heap.clear(top - 1, top);
        Some(Reply::Done)
    }

    /// Sets at most `most` of the roots from `top` on and below `high` to nil, the last ones, and lowers `high` to the first of them.
    /// Does not allocate. `most` 0 clears none.
    pub fn trim(&mut self, heap: &mut CollectedHeap, most: u32)
        requires { HasFrame self.old heap.old.core }
        ensures step { trim_step heap.old.core self.old most ≡ heap.new.core }
        ensures frame { self.new ≡ trimmed self.old most }
        ensures beside { heap.new.beside ≡ heap.old.beside }
    {
        let low = self.top.max(self.high.saturating_sub(most));
        heap.clear(low, self.high);
        self.high = low;
    }
}

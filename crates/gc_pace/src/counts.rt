//! The counts of a heap, from which a policy decides when to collect and how fast.

ghost use Rattle.std.specs.Prelude.{◌≡◌, ◌<◌, ◌^◌};
ghost use Rattle.gc_pace.specs.Counts.{logged_in};
ghost use Rattle.gc_pace.specs.Pace.{units_of};

use gc_collected::CollectedHeap;

/// The sizes of a heap, and how far its open collection has come. Sizes and addresses are in words. C sees the same record.
#[repr(C)]
#[derive(Clone, Copy, Debug, Drop, PartialEq, Eq)]
pub struct Counts {
    /// The size of the mutators' space.
    pub size: u32,
    /// The first word that no object takes.
    pub end: u32,
    /// The number of words that no object takes.
    pub free: u32,
    /// The number of mutators.
    pub mutators: u32,
    /// The number of extra roots.
    pub extra_roots: u32,
    /// 1 if a collection is open, otherwise 0. If it is 0, so are all members after it but `roots_left`.
    pub is_open: u32,
    /// The size of the new space (to-space).
    pub new_size: u32,
    /// The first word of the new space that no replica takes.
    pub new_end: u32,
    /// The address of the replica at the scan pointer, or `new_end` if all replicas are scanned.
    pub scan_place: u32,
    /// The number of fields of that replica that are already scanned.
    pub scan_field: u32,
    /// The number of entries in all logs, or 4,294,967,295 if there are more.
    pub logged: u32,
    /// The number of looks at extra roots until the open collection knows each of them, or that a collection takes which begins now.
    pub roots_left: u32,
}

/// Returns the number of entries in all logs, up to the largest `u32`.
#[tactic(auto, using(crate::proofs::Logged::entries_next, crate::proofs::Logged::entries_end))]
fn logged_in(heap: &CollectedHeap) -> u32
    ensures { result ≡ logged_in heap.now.core }
{
    heap.is_sound();
    let mut total: u128 = 0;
    for m in 0..heap.mutators() {
        total += heap.log_len(m) as u128;
    }
    total.min(u128::from(u32::MAX)) as u32
}

/// Returns the units of work that so many looks make up, rounded up.
pub(crate) fn units_of(looks: u32) -> u64
    ensures value { result ≡ units_of looks }
    ensures bound { result < 2 ^ 28 }
{
    (u64::from(looks) + 31) / 32
}

impl Counts {
    ghost use Rattle.std.specs.Prelude.{◌≡◌, ◌<◌, ◌^◌};
    ghost use Rattle.gc_pace.specs.Counts.{counts_in};
    ghost use Rattle.gc_pace.specs.Pace as paces;

    /// Reads the counts of a heap.
    pub fn of(heap: &CollectedHeap) -> Counts
        ensures { result ≡ counts_in heap.now }
    {
        let mut counts = Counts {
            size: heap.size(),
            end: heap.end(),
            free: heap.free(),
            mutators: u32::from(heap.mutators()),
            extra_roots: heap.extra_roots(),
            is_open: 0,
            new_size: 0,
            new_end: 0,
            scan_place: 0,
            scan_field: 0,
            logged: logged_in(heap),
            roots_left: heap.roots_left(),
        };
        if let Some(space) = heap.new_space() {
            counts.is_open = 1;
            counts.new_size = space.size;
            counts.new_end = space.end;
            counts.scan_place = space.scan_place;
            counts.scan_field = u32::from(space.scan_field);
        }
        counts
    }

    /// Returns an upper bound on the units of work that are left until the flip, if no mutator acts.
    pub(crate) fn steps_left(&self) -> u64
        ensures value { result ≡ paces.steps_left self.now }
        ensures bound { result < 2 ^ 34 }
    {
        let unscanned = self.end.saturating_sub(self.scan_place);
        u64::from(unscanned) + u64::from(self.logged) + units_of(self.roots_left) + 1
    }
}

//! A table: words that threads share, with their memory.
ghost use Rattle.std.specs.Prelude.{◌≡◌, ◌<◌, [], length, IfOk, IfErr};
ghost use Rattle.core.specs.Mem.Slots.{lease_ptr, lease_len, lease_heap};
ghost use Rattle.atomic_table.specs.Table.{opening, Final, Seen};

use crate::send_lease::SendLease;
use crate::shared::{Seat, Shared, TableRule};
use crate::shell::{Shell, attach, detach};
use crate::strip::Strip;
use core::slots::{release, reserve};
use std::alloc::Allocator;

/// Words that threads share, in the memory of the vector from which they came. A table that is dropped frees them. It has no slots, and `slot_lease` is
/// the right to free the empty row of them.
pub struct Table<S, V, K, P: TableRule<S, V, K>, A: Allocator> {
    pub shared: Shared<S, V, K, P>,
    shell: Shell<A>,
    slot_lease: SendLease<S, A>,
    heap: A,
    ghost kept: { (shell.ptr ≡ shared.words) × (shell.len ≡ shared.table_id.words) },
    ghost empty: { shared.table_id.slots ≡ 0 },
    ghost leased: { (lease_ptr slot_lease.lease ≡ shared.slots) × (lease_len slot_lease.lease ≡ 0) × (lease_heap slot_lease.lease ≡ heap) },
}

impl<S, V, K, P: TableRule<S, V, K>, A: Allocator> Table<S, V, K, P, A> {
    /// Makes a table of these words, at least one, and returns it with its first seat. Copies no word. Returns the vector if an allocation fails; its words
    /// are then unchanged.
    pub fn of_vec(
        alloc: A,
        mut words: Vec<u64, A>,
        about: &K,
    ) -> Result<(Table<S, V, K, P, A>, Seat<S, V>), Vec<u64, A>>
        requires some { 0 < length words.items }
        requires holds { P.holds about.now (opening words.items [] (P.first about.now words.items)) }
        ensures ok { IfOk result (λ t. (t.0.shared.table_id.words ≡ length words.items) × (t.0.shared.table_id.slots ≡ 0) × (t.1.table_id ≡ t.0.shared.table_id) × (t.1.id ≡ 0) × (t.1.me ≡ (P.first about.now words.items, [])) × (t.0.shared.key ≡ about.now)) }
        ensures err { IfErr result (λ back. back.items ≡ words.items) }
    {
        let Ok((slots, slot_lease)) = (unsafe { reserve(&alloc, &[]) }) else {
            return Err(words);
        };
        let ptr = words.as_mut_ptr();
        let (strip, shell) = detach(ptr, words);
        let (shared, seat) = Shared::deal(about, strip, Strip::of(slots));
        let table = Table {
            shared,
            shell,
            slot_lease: SendLease::new(slot_lease),
            heap: alloc,
        };
        Ok((table, seat))
    }

    /// Returns the words in the vector from which they came, as they are now that no thread shares them. Copies no word.
    pub fn into_vec(self, mut seat: Seat<S, V>) -> Vec<u64, A>
        requires { seat.table_id ≡ self.shared.table_id }
        ensures { Final (Seen (P.holds self.shared.key) seat.id seat.me.0) result.items [] }
    {
        let Table {
            shared,
            shell,
            slot_lease,
            heap,
        } = self;
        let (words, slots) = shared.gather_with(&mut seat);
        release(&heap, slots.into_slots(0), slot_lease.into_lease());
        attach(words, shell)
    }
}

impl<S, V, K, P: TableRule<S, V, K>, A: Allocator> Drop for Table<S, V, K, P, A> {
    fn drop(self) {
        let Table {
            shared,
            shell,
            slot_lease,
            heap,
        } = self;
        let (words, slots) = shared.gather();
        release(&heap, slots.into_slots(0), slot_lease.into_lease());
        drop(attach(words, shell));
    }
}

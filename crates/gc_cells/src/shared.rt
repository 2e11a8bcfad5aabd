//! The words as threads share them, and what one thread knows of them.
ghost use Rattle.core.specs.Prelude.{◌≡◌, ℕ, List, [], length};
ghost use Rattle.atomic_table.specs.Table.{State, Me, opening, Final, Seen};
ghost use Rattle.atomic_table.specs.Seated.{TableId, table_id_coded, table_owns, table_shares, seat_owns};

use crate::strip::Strip;
use std::marker::{Model, PhantomData};

/// The fact `holds` about the words and the views of all seats, which is true between any two steps. The user of this crate chooses it. `V` is what a seat knows,
/// and `K` the key, which is fixed when the table is made. `S` is the type of the values that a table of the toolchain has in slots. A table of this crate has none.
pub trait TableRule<S, V, K> {
    ghost holds: { K → State S V → Type 0 };
    // The view of the first seat, for a table with this key that begins with these words.
    ghost first: { K → List ℕ → V };
}

/// The words of a table, on which threads step through a `&`. Contracts name a table by its `table_id`.
pub struct Shared<S, V, K, P: TableRule<S, V, K>> {
    pub(crate) words: *mut u64,
    pub(crate) slots: *mut S,
    marker: PhantomData<(P, V, K)>,
    pub ghost table_id: { TableId } by { table_id_coded },
    pub ghost key: { K },
}

impl<S, V, K, P: TableRule<S, V, K>> Model for Shared<S, V, K, P> {
    ghost also_owns = { λ t. table_owns S.row V.row.coded.code (P.holds t.key) t.words t.slots t.table_id };

    ghost also_shares = { λ t _ κ. table_shares S.row V.row.coded.code (P.holds t.key) t.words t.slots t.table_id κ };
}

/// The right to step on a table, and its view: what its owner knows of the words. It has no bytes. Only its own steps change its view. A seat that is dropped
/// leaves its view behind, so the rule has to hold of that view from then on.
pub struct Seat<S, V> {
    pub(crate) marker: PhantomData<(S, V)>,
    pub ghost table_id: { TableId } by { table_id_coded },
    pub ghost id: { ℕ },
    pub ghost me: { Me S V },
}

impl<S, V> Model for Seat<S, V> {
    ghost also_owns = { λ s. seat_owns S.row V.row.coded.code s.table_id s.id s.me };
}

impl<S, V, K, P: TableRule<S, V, K>> Shared<S, V, K, P> {
    /// Puts words under the rule, and returns the first seat.
    pub(crate) fn deal(
        about: &K,
        words: Strip<u64>,
        slots: Strip<S>,
    ) -> (Shared<S, V, K, P>, Seat<S, V>)
        requires { P.holds about.now (opening words.items slots.items (P.first about.now words.items)) }
        ensures counts { (result.0.table_id.words ≡ length words.items) × (result.0.table_id.slots ≡ length slots.items) × (result.1.table_id ≡ result.0.table_id) }
        ensures places { (result.0.words ≡ words.ptr) × (result.0.slots ≡ slots.ptr) × (result.0.key ≡ about.now) }
        ensures seat { (result.1.id ≡ 0) × (result.1.me ≡ (P.first about.now words.items, [])) }
    {
        let Strip { ptr: words } = words;
        let Strip { ptr: slots } = slots;
        (
            Shared {
                words,
                slots,
                marker: PhantomData,
            },
            Seat {
                marker: PhantomData,
            },
        )
    }

    /// Returns the words as they are at the end, in a state that meets the rule and has the seat's view. No thread shares them any more.
    pub(crate) fn gather_with(self, seat: &mut Seat<S, V>) -> (Strip<u64>, Strip<S>)
        requires { seat.old.table_id ≡ self.table_id }
        ensures places { (result.0.ptr ≡ self.words) × (length result.0.items ≡ self.table_id.words) × (result.1.ptr ≡ self.slots) × (length result.1.items ≡ self.table_id.slots) }
        ensures values { Final (Seen (P.holds self.key) seat.old.id seat.old.me.0) result.0.items result.1.items }
    {
        let Shared {
            words,
            slots,
            marker: _,
        } = self;
        (Strip { ptr: words }, Strip { ptr: slots })
    }

    /// Returns the words as they are at the end, in a state that meets the rule.
    pub(crate) fn gather(self) -> (Strip<u64>, Strip<S>)
        ensures places { (result.0.ptr ≡ self.words) × (length result.0.items ≡ self.table_id.words) × (result.1.ptr ≡ self.slots) × (length result.1.items ≡ self.table_id.slots) }
        ensures values { Final (P.holds self.key) result.0.items result.1.items }
    {
        let Shared {
            words,
            slots,
            marker: _,
        } = self;
        (Strip { ptr: words }, Strip { ptr: slots })
    }
}

impl<S, V> Drop for Seat<S, V> {
    fn drop(self) {
        let Self { marker: _ } = self;
    }
}

unsafe impl<S: Send, V> Send for Seat<S, V> {}

unsafe impl<S: Send, V, K, P: TableRule<S, V, K>> Send for Shared<S, V, K, P> {}

unsafe impl<S: Send, V, K, P: TableRule<S, V, K>> Sync for Shared<S, V, K, P> {}

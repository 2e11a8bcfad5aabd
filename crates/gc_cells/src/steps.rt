//! The steps of a seat. Each is sequentially consistent.
ghost use Rattle.core.specs.Prelude.{◌≡◌, ◌<◌, [], ◌==◌};
ghost use mathlib.Core.Option.{none};
ghost use prog.Atomic.{either};
ghost use Rattle.atomic_table.specs.Table.{step, Allows, Splits, Joins};

use crate::shared::{Seat, Shared, TableRule};
use atomic_table::{Join, Play, Split, exchange};
use std::marker::{Brand, PhantomData};
use std::sync::atomic::Ordering::SeqCst;
use std::sync::atomic::raw;

impl<S, V, K, P: TableRule<S, V, K>> Shared<S, V, K, P> {
    /// Cuts the view of a seat in two, and returns a new seat with the second part. A view changes only at a step, so this loads word 0 and ignores what it finds.
    pub fn split_seat<M: Split<V>>(&self, seat: &mut Seat<S, V>) -> Seat<S, V>
        requires { (seat.old.table_id ≡ self.now.table_id) × (0 < self.now.table_id.words) × Splits (P.holds self.now.key) seat.old.id seat.old.me.0 (M.left seat.old.me.0) (M.right seat.old.me.0) }
        ensures { (seat.new.table_id ≡ seat.old.table_id) × (seat.new.id ≡ seat.old.id) × (seat.new.me ≡ (M.left seat.old.me.0, seat.old.me.1)) × (result.table_id ≡ seat.old.table_id) × (result.me ≡ (M.right seat.old.me.0, [])) }
    {
        unsafe { raw::load::<Brand>(self.words, SeqCst) };
        Seat {
            marker: PhantomData,
        }
    }

    // Gives `seat` both views, and leaves `other` with a spent one.
    fn merge<M: Join<V>>(&self, seat: &mut Seat<S, V>, other: &mut Seat<S, V>)
        requires { (seat.old.table_id ≡ self.now.table_id) × (other.old.table_id ≡ self.now.table_id) × (0 < self.now.table_id.words) × Joins (P.holds self.now.key) seat.old.id seat.old.me.0 other.old.id other.old.me.0 (M.both seat.old.me.0 other.old.me.0) M.spent }
        ensures { (seat.new.table_id ≡ seat.old.table_id) × (seat.new.id ≡ seat.old.id) × (seat.new.me ≡ (M.both seat.old.me.0 other.old.me.0, seat.old.me.1)) }
    {
        unsafe { raw::load::<Brand>(self.words, SeqCst) };
    }

    /// Joins the view of `other`, which is spent, to that of a seat. Loads word 0, as `split_seat` does.
    pub fn join_seat<M: Join<V>>(&self, seat: &mut Seat<S, V>, mut other: Seat<S, V>)
        requires { (seat.old.table_id ≡ self.now.table_id) × (other.table_id ≡ self.now.table_id) × (other.me.1 ≡ []) × (0 < self.now.table_id.words) × Joins (P.holds self.now.key) seat.old.id seat.old.me.0 other.id other.me.0 (M.both seat.old.me.0 other.me.0) M.spent }
        ensures { (seat.new.table_id ≡ seat.old.table_id) × (seat.new.id ≡ seat.old.id) × (seat.new.me ≡ (M.both seat.old.me.0 other.me.0, seat.old.me.1)) }
    {
        self.merge::<M>(seat, &mut other);
    }

    /// Returns the word at this place, counted from 0.
    pub fn load<M: Play<S, V>>(&self, seat: &mut Seat<S, V>, word: usize) -> u64
        requires { (seat.old.table_id ≡ self.now.table_id) × (word < self.now.table_id.words) × Allows (P.holds self.now.key) self.now.table_id.slots seat.old.id seat.old.me word (λ n. n) (M.then (step self.now.table_id.slots word 0 0 none) seat.old.me) }
        ensures { (seat.new.table_id ≡ seat.old.table_id) × (seat.new.id ≡ seat.old.id) × M.then (step self.now.table_id.slots word 0 0 none) seat.old.me result seat.new.me }
    {
        unsafe { raw::load::<Brand>(self.words.add(word), SeqCst) }
    }

    /// Writes `new` to the word at this place, counted from 0.
    pub fn store<M: Play<S, V>>(&self, seat: &mut Seat<S, V>, word: usize, new: u64)
        requires { (seat.old.table_id ≡ self.now.table_id) × (word < self.now.table_id.words) × Allows (P.holds self.now.key) self.now.table_id.slots seat.old.id seat.old.me word (λ _. new) (λ _. M.then (step self.now.table_id.slots word new 0 none) seat.old.me new) }
        ensures { (seat.new.table_id ≡ seat.old.table_id) × (seat.new.id ≡ seat.old.id) × M.then (step self.now.table_id.slots word new 0 none) seat.old.me new seat.new.me }
    {
        unsafe { raw::store::<Brand>(self.words.add(word), new, SeqCst) }
    }

    /// Writes `new` to the word at this place, counted from 0, if it is `old`. Returns the word as it was.
    pub fn compare_exchange<M: Play<S, V>>(
        &self,
        seat: &mut Seat<S, V>,
        word: usize,
        old: u64,
        new: u64,
    ) -> u64
        requires { (seat.old.table_id ≡ self.now.table_id) × (word < self.now.table_id.words) × Allows (P.holds self.now.key) self.now.table_id.slots seat.old.id seat.old.me word (λ n. either (n == old) new n) (M.then (step self.now.table_id.slots word old new none) seat.old.me) }
        ensures { (seat.new.table_id ≡ seat.old.table_id) × (seat.new.id ≡ seat.old.id) × M.then (step self.now.table_id.slots word old new none) seat.old.me result seat.new.me }
    {
        unsafe { exchange::<Brand>(self.words.add(word), old, new) }
    }
}

//! What a runtime needs for its decisions, and what a debugger shows: sizes, logs, and both spaces with their links.

ghost use Rattle.std.specs.Prelude.{◌≡◌, ◌<◌, None, length, slice_get};
ghost use Rattle.std.specs.Option.{option_map};
ghost use Rattle.gc_graph.specs.Graph.{name_of, root};
ghost use Rattle.gc_graph.specs.Slots.{place};
ghost use Rattle.gc_heap.specs.Raws.{raw_numbers};
ghost use Rattle.gc_words.specs.Views.{image_of};
ghost use Rattle.gc_copy.specs.Entries.{entry_in};
ghost use Rattle.gc_model.specs.State.{heap_end};
ghost use Rattle.gc_collected.specs.Readings.{ShowsHeap, heap_image, new_words, new_space, log_of};

use crate::collected_heap::CollectedHeap;
use gc_copy::{LogEntry, heaps_have_addresses_as_names, images_show_links, link_mark};
use gc_graph::Slot;
use gc_words::{ImageRef, OldAddr, ShapeFault, lower_links, no_fault_where_shaped, walk_image};

/// The new space of an open collection, and how far the scan has come.
#[derive(Clone, Copy, Debug, PartialEq, Eq)]
pub struct NewSpace {
    /// The number of words in the new space (to-space).
    pub size: u32,
    /// The first word that no replica takes.
    pub end: u32,
    /// The address of the replica at the scan pointer, or `end` if all replicas are scanned.
    pub scan_place: u32,
    /// The number of fields of that replica that are already scanned.
    pub scan_field: u16,
}

impl CollectedHeap {
    /// Returns the number of words in the mutators' space.
    pub fn size(&self) -> u32
        ensures { result ≡ self.now.core.size }
    {
        self.heap.space().size()
    }

    /// Returns the first word of the mutators' space that no object takes.
    pub fn end(&self) -> u32
        ensures { result ≡ heap_end self.now.core }
    {
        self.heap.space().end()
    }

    /// Returns the number of words in the mutators' space that no object takes.
    pub fn free(&self) -> u32
        ensures { result ≡ self.now.core.heap.free }
    {
        self.heap.space().free()
    }

    /// Returns how far the open collection has come, or `None` if none is open.
    pub fn new_space(&self) -> Option<NewSpace>
        ensures { result ≡ new_space self.now.core }
    {
        let collection = self.collection.as_ref()?;
        Some(NewSpace {
            size: collection.size(),
            end: collection.end(),
            scan_place: collection.scan_place(),
            scan_field: collection.scan_field(),
        })
    }

    /// Returns the numbers in the fields of the raw object that mutator `m`'s slot refers to, or `None` if it refers to no raw object.
    pub fn raw_numbers(&self, m: u8, slot: Slot) -> Option<&[u64]>
        requires { m < self.now.core.mutators }
        ensures { option_map (λ numbers. numbers.now) result ≡ raw_numbers self.now.core.heap.graph slot m }
    {
        self.raw_numbers_root(self.place(m, slot))
    }

    /// Returns the address of the object that mutator `m`'s slot refers to, or `None` if it refers to none. A flip gives objects
    /// other addresses.
    pub fn address(&self, m: u8, slot: Slot) -> Option<OldAddr>
        requires { m < self.now.core.mutators }
        ensures { option_map (λ a. a.0) result ≡ name_of (root self.now.core.heap.graph (place slot m)) }
    {
        self.address_root(self.place(m, slot))
    }

    /// Returns the address of the object that root `s` refers to, as `address` does.
    pub fn address_root(&self, s: u32) -> Option<OldAddr>
        requires { s < length self.now.core.heap.graph.roots }
        ensures { option_map (λ a. a.0) result ≡ name_of (root self.now.core.heap.graph s) }
    {
        // Here the prover learns that the heap is sound.
        let _ = self.heap.space();
        self.heap.target_root(s)
    }

    /// Returns the number of entries in mutator `m`'s log: 0 if no collection is open.
    pub fn log_len(&self, m: u8) -> usize
        requires { m < self.now.core.mutators }
        ensures { result ≡ length (log_of self.now.core m) }
    {
        match &self.collection {
            None => 0,
            Some(collection) => collection.log_len(m),
        }
    }

    /// Returns entry `k` of mutator `m`'s log, counted from the oldest, or `None` if there is no such entry.
    pub fn log_entry(&self, m: u8, k: usize) -> Option<LogEntry>
        requires { m < self.now.core.mutators }
        ensures { option_map entry_in result ≡ slice_get (log_of self.now.core m) k }
    {
        match &self.collection {
            None => None,
            Some(collection) => collection.log_entry(m, k),
        }
    }

    /// Returns the mutators' space and the roots. The low 32 bits of an original's link are its replica's address. All other bits of
    /// links may have any value: `copy_words` copies the exact links.
    pub fn image(&self) -> ImageRef<'_>
        ensures shows { ShowsHeap self.now.core (image_of result) }
        ensures count { length result.words.now ≡ length (heap_image self.now.core).words }
    {
        heaps_have_addresses_as_names();
        images_show_links();
        // Here the prover learns that the heap and the collection are sound.
        let _ = self.heap.space();
        if let Some(collection) = &self.collection {
            let _ = collection.new_image(&[]);
        }
        self.heap.image()
    }

    /// Returns where the words of the mutators' space are not shaped. It is proved that they are, unless somebody else writes into the heap's
    /// memory, so callers that show these words ask before they walk over them. Reads each header.
    pub fn old_fault(&self) -> Option<ShapeFault>
        ensures { result ≡ None }
    {
        no_fault_where_shaped();
        walk_image(self.heap.image()).err()
    }

    /// Returns where the words of the open collection's new space (to-space) are not shaped, as `old_fault` does, and `None` if no
    /// collection is open.
    pub fn new_fault(&self) -> Option<ShapeFault>
        ensures { result ≡ None }
    {
        no_fault_where_shaped();
        let collection = self.collection.as_ref()?;
        walk_image(collection.new_image(&[])).err()
    }

    /// Copies the words of the mutators' space with their exact links, for callers that show them to a person or to C.
    pub fn copy_words(&self, words: &mut [u64])
        requires { length words.old ≡ length (heap_image self.now.core).words }
        ensures { words.new ≡ (heap_image self.now.core).words }
    {
        // Here the prover learns that the heap is sound.
        let _ = self.heap.space();
        words.copy_from_slice(self.heap.image().words);
        match &self.collection {
            None => lower_links(words, link_mark(self.epoch)),
            Some(collection) => lower_links(words, link_mark(collection.epoch())),
        }
    }

    /// Returns the words of the open collection's new space (to-space) with its links, or `None` if none is open.
    pub fn new_words(&self) -> Option<&[u64]>
        ensures { option_map (λ words. words.now) result ≡ new_words self.now.core }
    {
        images_show_links();
        let collection = self.collection.as_ref()?;
        Some(collection.new_image(&[]).words)
    }
}

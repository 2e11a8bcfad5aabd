mod beginning;
mod copying;
mod flipping;
mod logging;
mod mutating;
mod reading;
mod room;
mod roots;
mod stepping;

use crate::log::MutationLog;
pub use copying::link_mark;
pub use flipping::Swapped;
use gc_words::{Addr, Space};
pub use room::Room;
pub use roots::MissingRoot;
use std::marker::Model;
pub use stepping::StepRun;

/// An open collection: the new space (to-space) with its replicas, a mutation log for each mutator, and the scan pointer.
/// Replicas lie in the new space in the order in which they were placed.
///
/// While it is open, an original's link is its replica's address, and a replica's link is its original's. So the collector finds
/// replicas without a table, and the certificate can be read off the links. Only this type sets links. Its calls take the heap
/// that the collection belongs to.
///
/// The links of originals have a mark, 2^32 times the epoch, in addition to the replica's address. In epoch 0 they have none. From epoch 1 on,
/// the links that replicas have need not be cleared at a flip: they are addresses, so they are below the mark of the next collection, and
/// lead nowhere. Nor do links of an earlier epoch have to be cleared when a collection is given up.
#[derive(Debug, Drop)]
pub struct Collection {
    space: Space,
    logs: Vec<MutationLog>,
    // The scan pointer: a replica or the new end, and the number of the replica's fields that are scanned.
    scan_place: Addr,
    scan_field: u16,
    // The mark that the links of originals have in addition to the places of their replicas, as a multiple of 2^32.
    epoch: u32,
    // The number of replicas.
    replicas: u32,
}

impl Model for Collection {
    ghost use Rattle.std.specs.Prelude.{◌≡◌, length};
    ghost use Rattle.gc_words.specs.Image.{blocks};
    ghost use Rattle.gc_copy.specs.Words.{CollectionWords, IsCollection};

    ghost Value = { CollectionWords };

    ghost view = { λ c. record {
      space = c.space;
      logs = c.logs.items;
      scan_place = c.scan_place.0;
      scan_field = c.scan_field;
      epoch = c.epoch;
    } };

    ghost invariant = { λ c. IsCollection (record {
      space = c.space;
      logs = c.logs.items;
      scan_place = c.scan_place.0;
      scan_field = c.scan_field;
      epoch = c.epoch;
    }) × (c.replicas ≡ length (blocks c.space.words)) };
}

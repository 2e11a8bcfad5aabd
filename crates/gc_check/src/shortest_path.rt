//! Shortest paths from the roots of an image to an address, found in breadth.

ghost use Rattle.std.specs.Prelude.{◌≡◌, ◌≤◌, ◌^◌, None, IfOk, IfSome, length};
ghost use Rattle.gc_graph.specs.Graph.{Reachable};
ghost use Rattle.gc_words.specs.Image.{IsShaped, graph_of};
ghost use Rattle.gc_words.specs.Views.{image_of};
ghost use Rattle.gc_check.specs.Internal.Visits.{AreAllVisited, AreVisits};
ghost use Rattle.gc_check.specs.Paths.{IsShortest, PathLeadsTo};

use crate::starts::{Starts, StartsFault};
use crate::visits::{Visit, first_reference, path_back, visit_reachable};
use gc_graph::NoMemory;
use gc_words::ImageRef;
use std::alloc::Global;

/// A path from a root: the place of the root among the roots, and the fields that lead on from it.
#[derive(Debug, Drop)]
pub struct Path {
    pub place: u64,
    pub fields: Vec<u64>,
}

/// Returns a shortest path from a root to a reference to this address, or `None` if no path leads there. The address need not be
/// that of an object. Returns `None` if the image is not shaped, and `NoMemory` if an allocation fails. Visits each reachable object once.
pub fn path_to(alloc: Global, image: ImageRef, address: u32) -> Result<Option<Path>, NoMemory>
    ensures leads { IfOk result (λ found. IfSome found (λ path. PathLeadsTo (image_of image.entry) path address)) }
    ensures shortest { IfOk result (λ found. IfSome found (λ path. IsShortest (image_of image.entry) path address)) }
    ensures none { IfOk result (λ found. found ≡ None → IsShaped (image_of image.entry)
        → Reachable (graph_of (image_of image.entry)) address → ⊥) }
{
    let starts = match Starts::new(alloc, image) {
        Ok(starts) => starts,
        Err(StartsFault::NotShaped(_)) => return Ok(None),
        Err(StartsFault::NoMemory) => return Err(NoMemory),
    };
    let visits = visit_reachable(alloc, &starts)?;
    path_by(alloc, &starts, visits.as_slice(), address)
}

// Returns the path to the first reference to this address, in the order of the visits.
fn path_by(
    alloc: Global,
    starts: &Starts,
    visits: &[Visit],
    address: u32,
) -> Result<Option<Path>, NoMemory>
    requires visits { AreVisits starts.now visits.now }
    requires all { AreAllVisited starts.now visits.now }
    requires few { length visits.now ≤ 2 ^ 32 }
    ensures leads { IfOk result (λ found. IfSome found (λ path. PathLeadsTo starts.now path address)) }
    ensures shortest { IfOk result (λ found. IfSome found (λ path. IsShortest starts.now path address)) }
    ensures none { IfOk result (λ found. found ≡ None → Reachable (graph_of starts.now) address → ⊥) }
{
    match first_reference(starts, visits, address) {
        Some(reference) => Ok(Some(path_back(alloc, visits, reference)?)),
        None => Ok(None),
    }
}

ghost use Rattle.std.specs.Prelude.{◌≡◌, ◌≢◌, ◌⊎◌, ◌≤◌, ◌<◌, ℕ, List, Some, take, length};
ghost use Rattle.gc_graph.specs.Graph.{Ref, Reachable, at_path};
ghost use Rattle.gc_words.specs.Image.{IsShaped, graph_of};
ghost use Rattle.gc_check.specs.InC.{done, no_memory};
ghost use Rattle.gcflip_c.specs.Answers.{no_path, long_path};
ghost use Rattle.gcflip_c.specs.Images.{image};

use crate::answer::{LONG_PATH, NO_PATH};
use gc_check::{DONE, NO_MEMORY, path_to};
use gc_graph::NoMemory;
use gc_words::ImageRef;
use std::alloc::Global;

/// Finds a shortest path from a root to a reference to this address. Returns 0 (found), 51 (no path leads there, or the image is not
/// shaped), 1 (an allocation failed) or 52 (there is no room for the fields of the path). With 0 it writes the place of the root, the fields
/// that lead on from it, and their number; with 52 it writes their number alone; otherwise it writes nothing.
#[unsafe(no_mangle)]
pub extern "C" fn gcflip_path(
    alloc: Global,
    size: u32,
    end: u32,
    raws: bool,
    words: &[u64],
    roots: &[u64],
    address: u32,
    place: &mut u64,
    fields: &mut [u64],
    count: &mut usize,
) -> u32
    ensures answers { (result ≡ done) ⊎ ((result ≡ no_path) ⊎ ((result ≡ long_path) ⊎ (result ≡ no_memory))) }
    ensures leads { result ≡ done → at_path (graph_of (image size end raws words.now roots.now)) place.new (take count.new fields.new) ≡ Some (Ref address) }
    // No path that leads there has fewer fields.
    ensures shortest { result ≡ done → (p : ℕ) (fs : List ℕ)
        → at_path (graph_of (image size end raws words.now roots.now)) p fs ≡ Some (Ref address) → count.new ≤ length fs }
    ensures none { result ≡ no_path → IsShaped (image size end raws words.now roots.now)
        → Reachable (graph_of (image size end raws words.now roots.now)) address → ⊥ }
    ensures room { result ≡ long_path → length fields.old < count.new }
    ensures unwritten { result ≢ done → (place.new ≡ place.old) × (fields.new ≡ fields.old) }
    ensures silent { result ≢ done → result ≢ long_path → count.new ≡ count.old }
{
    let image = ImageRef {
        size,
        end,
        words,
        roots,
        raws,
    };
    let path = match path_to(alloc, image, address) {
        Ok(Some(path)) => path,
        Ok(None) => return NO_PATH,
        Err(NoMemory) => return NO_MEMORY,
    };
    let found = path.fields.len();
    *count = found;
    if found > fields.len() {
        return LONG_PATH;
    }
    fields[..found].copy_from_slice(path.fields.as_slice());
    *place = path.place;
    DONE
}

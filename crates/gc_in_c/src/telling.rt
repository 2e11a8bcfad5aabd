//! A number that a call writes to C's variable, if there is one, and a test of the places that C passes.

ghost use Rattle.std.specs.Prelude.{◌<◌, ◌↔◌, IsTrue};
ghost use Rattle.std.specs.List.{AllByRecursion};
ghost use Rattle.gc_in_c.specs.Telling.{TellsNumber};

use crate::answer::{DONE, NO_OBJECT};

/// Writes this number to `number`, if there is one, and returns `DONE`. Otherwise writes nothing, and returns `NO_OBJECT`.
pub fn tell_number(found: Option<u32>, number: &mut u32) -> u32
    ensures { TellsNumber found number.old number.new result }
{
    match found {
        None => NO_OBJECT,
        Some(n) => {
            *number = n;
            DONE
        }
    }
}

/// Returns whether each of these places has a root, if there are `roots` roots.
pub fn are_places(places: &[u32], roots: usize) -> bool
    ensures { IsTrue result ↔ AllByRecursion (λ p. p < roots) places.now }
{
    for place in places {
        if *place as usize >= roots {
            return false;
        }
    }
    true
}

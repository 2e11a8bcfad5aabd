ghost use Rattle.std.specs.Prelude.{IsTrue};
ghost use Rattle.gc_monitor.specs.Outline.{ImageOutline, outline_in};

use crate::outline::Outline;

/// A checker that went along with a collection, and knows both spaces as they are now.
pub trait Watcher {
    // Holds of a checker and the outlines of two images that it accepts.
    ghost accepted: { Self → ImageOutline → ImageOutline → Type 0 };

    // Holds of a checker and the outlines of two images that it does not refuse.
    ghost sure: { Self → ImageOutline → ImageOutline → Type 0 };

    /// Returns whether the certificate of the pairs that it has seen holds of the images with these outlines. Where it is not sure,
    /// the answer is no.
    fn accepts(&self, old: Outline, new: Outline) -> bool
        ensures yes { IsTrue result → accepted self.now (outline_in old.entry) (outline_in new.entry) }
        ensures sure { sure self.now (outline_in old.entry) (outline_in new.entry) → IsTrue result };
}

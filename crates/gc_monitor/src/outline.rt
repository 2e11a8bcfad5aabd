ghost use Rattle.std.specs.Prelude.{◌≡◌, ◌++◌, length, replicate, slice_index_or};
ghost use Rattle.gc_words.specs.Views.{image_of};
ghost use Rattle.gc_monitor.specs.Outline.{outline_in, outline_of};

use gc_words::ImageRef;

/// The numbers and the roots of an image, without its words. A flip asks a checker that went along about two of them.
#[derive(Clone, Copy, Debug)]
pub struct Outline<'a> {
    /// The size of the space in words.
    pub size: u32,
    /// The address of the first free word, which is the end of the last object.
    pub end: u32,
    /// The number of words in the image.
    pub count: usize,
    /// The first roots.
    pub roots: &'a [u64],
    /// The number of further roots, which are all nil.
    pub nils: u32,
    /// Whether headers of raw objects count.
    pub raws: bool,
}

impl<'a> Outline<'a> {
    /// Returns the outline of this image, with so many nils behind its roots. Reads no root.
    pub fn with_nils(image: ImageRef<'a>, nils: u32) -> Outline<'a>
        ensures { outline_in result
            ≡ outline_of (record (image_of image.entry) { roots = (image_of image.entry).roots ++ replicate nils 0 }) }
    {
        Outline {
            size: image.size,
            end: image.end,
            count: image.words.len(),
            roots: image.roots,
            nils,
            raws: image.raws,
        }
    }

    /// Returns the number of roots.
    pub(crate) fn count_roots(self) -> usize
        ensures { result ≡ length (outline_in self.entry).roots }
    {
        self.roots.len() + self.nils as usize
    }

    /// Returns the root at this place, or nil past the last one.
    pub(crate) fn root_at(self, place: usize) -> u64
        ensures { result ≡ slice_index_or (outline_in self.entry).roots place 0 }
    {
        if place < self.roots.len() {
            self.roots[place]
        } else {
            0
        }
    }
}

use gc_words::{ImageRef, Pair};

/// An image that owns its words and roots. Its numbers may be anything.
#[derive(Debug, Drop)]
pub struct Image {
    /// The size of the space in words.
    pub size: u32,
    /// The address of the first free word.
    pub end: u32,
    /// The words 0 to `end - 1`, including links.
    pub words: Vec<u64>,
    pub roots: Vec<u64>,
    /// Whether headers of raw objects count. They do in a text of version 2.
    pub raws: bool,
}

impl Image {
    ghost use Rattle.std.specs.Prelude.{◌≡◌};
    ghost use Rattle.gc_words.specs.Views.{image_of};
    ghost use Rattle.gc_cert.specs.Views.{image_in};

    /// Returns the same image, borrowed.
    pub fn as_ref(&self) -> ImageRef<'_>
        ensures { image_of result ≡ image_in self.now }
    {
        ImageRef {
            size: self.size,
            end: self.end,
            words: &self.words,
            roots: &self.roots,
            raws: self.raws,
        }
    }
}

/// Two images, and the pairs of objects in the old one and replicas in the new one.
#[derive(Debug, Drop)]
pub struct PairFile {
    pub old: Image,
    pub new: Image,
    pub pairs: Vec<Pair>,
}

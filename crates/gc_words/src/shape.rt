ghost use Rattle.std.specs.Prelude.{◌≡◌, ◌<◌, ◌≤◌, None, Some, MatchResult, length};
ghost use Rattle.gc_words.specs.Fault.{shape_fault, words_fault};
ghost use Rattle.gc_words.specs.Views.{image_of};
ghost use Rattle.gc_words.specs.Walking.{next_of, next_in};

use crate::header::Header;
use crate::image::ImageRef;
use gc_graph::object_words;
use thiserror::Error;

/// The words of a space are not shaped.
#[derive(Clone, Copy, Debug, PartialEq, Eq, Error)]
#[error("not shaped")]
pub struct ShapeFault {
    /// The first address at which an object should start and none does, or from which an object runs past the end. It is 0 if
    /// the number of words is not the end, if word 0 is not 0, or if the end of an image does not lie within its size.
    pub at: u64,
}

/// Checks that these are the words of a space up to its end: a reserved 0, and objects back to back from word 1. `raws` says
/// whether headers of raw objects count.
#[tactic(auto, using(crate::proofs::Steps::same_fault, crate::proofs::Steps::no_step, crate::proofs::Steps::framed))]
pub fn walk(words: &[u64], end: u32, raws: bool) -> Result<(), ShapeFault>
    requires { 1 ≤ end }
    ensures { MatchResult result
        (λ _. words_fault raws end words.now ≡ None)
        (λ fault. words_fault raws end words.now ≡ Some fault.at) }
{
    let len = words.len();
    if len != end as usize || words[0] != 0 {
        return Err(ShapeFault { at: 0 });
    }
    let mut at = 1;
    while at < len {
        match next_in(words, at, raws) {
            Some(next) => at = next,
            None => return Err(ShapeFault { at: at as u64 }),
        }
    }
    Ok(())
}

/// Checks that an image is shaped: its end lies within its size, and `walk` accepts its words. Makes no assumption about the image.
pub fn walk_image(image: ImageRef) -> Result<(), ShapeFault>
    ensures { MatchResult result
        (λ _. shape_fault (image_of image.entry) ≡ None)
        (λ fault. shape_fault (image_of image.entry) ≡ Some fault.at) }
{
    if (1..=image.size).contains(&image.end) {
        walk(image.words, image.end, image.raws)
    } else {
        Err(ShapeFault { at: 0 })
    }
}

/// Returns the place after the object that starts here, or `None` if this word is not a header or the object runs past
/// the last word. `raws` says whether headers of raw objects count.
pub fn next_in(words: &[u64], at: usize, raws: bool) -> Option<usize>
    requires { at < length words.now }
    ensures { result ≡ next_in raws words.now at }
{
    let header = Header::read_in(words[at], raws)?;
    let taken = object_words(header.len()) as usize;
    if taken <= words.len() - at {
        Some(at + taken)
    } else {
        None
    }
}

/// Returns the same if headers of raw objects count.
pub(crate) fn next_start(words: &[u64], at: usize) -> Option<usize>
    requires { at < length words.now }
    ensures { result ≡ next_of words.now at }
{
    next_in(words, at, true)
}

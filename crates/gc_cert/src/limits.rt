ghost use Rattle.std.specs.Prelude.{◌≡◌, ◌↔◌, ◌≤◌, length, map, IsTrue};
ghost use Rattle.std.specs.List.{AllByRecursion};
ghost use Rattle.gc_graph.specs.Limits.{most_words, most_roots, most_pairs};
ghost use Rattle.gc_words.specs.Image.{IsShaped};
ghost use Rattle.gc_words.specs.Views.{image_of, addresses};
ghost use Rattle.gc_cert.specs.Grammar.{IsWord, AreAddresses, HasText, HasImageText};
ghost use Rattle.gc_cert.specs.Counts.{HasCounts};
ghost use Rattle.gc_cert.specs.Views.{pair_of};

use gc_words::{ImageRef, MOST_PAIRS, MOST_ROOTS, MOST_WORDS, Pair};

/// Returns whether a space may have this many words, or end there.
fn is_size(n: u32) -> bool
    ensures { IsTrue result ↔ ((1 ≤ n) × (n ≤ most_words)) }
{
    n >= 1 && n <= MOST_WORDS
}

/// Returns whether there are this many words. Each `u64` is a word of a text.
fn are_words(words: &[u64], count: u32) -> bool
    ensures words { AllByRecursion IsWord words.now }
    ensures count { IsTrue result ↔ (length words.now ≡ count) }
{
    words.len() == count as usize
}

/// Returns whether these are few enough roots.
fn are_roots(roots: &[u64]) -> bool
    ensures words { AllByRecursion IsWord roots.now }
    ensures count { IsTrue result ↔ (length roots.now ≤ most_roots) }
{
    roots.len() <= MOST_ROOTS
}

/// Returns whether these are few enough pairs.
fn are_pairs(pairs: &[Pair]) -> bool
    ensures addresses { AllByRecursion AreAddresses (map addresses pairs.now) }
    ensures count { IsTrue result ↔ (length pairs.now ≤ most_pairs) }
{
    for pair in pairs {
        // Reading a pair tells the prover that its numbers are in the range of their type.
        let (_old, _new) = (pair.old.0, pair.new.0);
    }
    pairs.len() <= MOST_PAIRS
}

/// Returns whether an image has a text. A shaped one with few enough words and roots has one.
fn image_fits(image: &ImageRef<'_>) -> bool
    ensures text { IsTrue result ↔ HasImageText (image_of image.now) }
    ensures shaped { IsShaped (image_of image.now) → image.now.size ≤ most_words → length image.now.roots.now ≤ most_roots → IsTrue result }
{
    is_size(image.size)
        && is_size(image.end)
        && are_words(image.words, image.end)
        && are_roots(image.roots)
}

/// Returns whether two images and pairs have a text: each number is in its range, each image has as many words as its
/// end says, and raw headers count in both images or in neither. Shaped images that agree on raw headers, with few
/// enough roots and pairs, have a text. Call this before `write_pair` on images of your own. Does not allocate.
pub fn pair_fits(old: ImageRef<'_>, new: ImageRef<'_>, pairs: &[Pair]) -> bool
    ensures text { IsTrue result ↔ HasText (pair_of old.entry new.entry pairs.now) }
    ensures shaped { HasCounts (pair_of old.entry new.entry pairs.now) → IsTrue result }
{
    image_fits(&old) && image_fits(&new) && old.raws == new.raws && are_pairs(pairs)
}

//! The layout of objects in words, and walks over objects.

ghost use Rattle.std.specs.Prelude.{◌≡◌, ◌<◌, ◌≤◌, ◌+◌, ◌-◌, length, IsOk, slice_index};
ghost use Rattle.gc_words.specs.Image.{walk_words, blocks, is_start};
ghost use Rattle.gc_words.specs.Spelling.{spelled, no_links, link_at};
ghost use Rattle.gc_words.specs.Layout.{link_place, field_place};

use crate::shape::next_start;
use crate::value::Addr;

/// Returns the place of the link word of the object that starts here.
pub(crate) fn link_index(at: usize) -> usize
    requires { at < usize.MAX }
    ensures { result ≡ link_place at }
{
    at + 1
}

/// Returns the place of field word `i` of the object that starts here.
pub fn field_index(at: Addr, i: u16) -> usize
    ensures { result ≡ field_place at.0 i }
{
    at.0 as usize + 2 + usize::from(i)
}

/// Returns whether an object starts at this place. Walks from the first object.
pub(crate) fn has_start(words: &[u64], place: usize) -> bool
    requires { IsOk (walk_words words.now) }
    ensures { result ≡ is_start words.now place }
{
    let mut at = 1;
    while at < words.len() && at < place {
        at = next_start(words, at).unwrap();
    }
    at < words.len() && at == place
}

/// Sets all links to 0.
pub(crate) fn clear_links(words: &mut [u64])
    requires some { 1 ≤ length words.old }
    requires reserved { slice_index words.old 0 ≡ 0 }
    requires walked { IsOk (walk_words words.old) }
    ensures { words.new ≡ spelled no_links (blocks words.old) }
{
    let mut at = 1;
    while at < words.len() {
        let next = next_start(words, at).unwrap();
        words[link_index(at)] = 0;
        at = next;
    }
}

/// Takes this number from each link, or sets the link to 0 if it is not larger.
pub fn lower_links(words: &mut [u64], mark: u64)
    requires some { 1 ≤ length words.old }
    requires reserved { slice_index words.old 0 ≡ 0 }
    requires walked { IsOk (walk_words words.old) }
    ensures { words.new ≡ spelled (λ a. link_at words.old a - mark) (blocks words.old) }
{
    let mut at = 1;
    while at < words.len() {
        let next = next_start(words, at).unwrap();
        let place = link_index(at);
        words[place] = words[place].saturating_sub(mark);
        at = next;
    }
}

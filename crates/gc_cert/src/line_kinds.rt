ghost use Rattle.std.specs.Prelude.{◌≡◌, ◌≤◌, ◌∷◌, ◌++◌, ℕ, List, decimal, MatchOption};
ghost use Rattle.gc_text.specs.Lines.{newline};
ghost use Rattle.gc_text.specs.Reading.{NoneIsFirst};
ghost use Rattle.gc_cert.specs.Grammar.{heading, pair_line, count_line, size_line, IsWord, AreAddresses, AreSizes};
ghost use Rattle.gc_cert.specs.Internal.Sections.{Nothing, AnyFlag};

use gc_text::{Front, LineKind};
use gc_words::MOST_WORDS;

/// Takes exactly this line.
fn take_line(front: &mut Front<'_>, wanted: &[u8]) -> Option<()>
    ensures { MatchOption result (NoneIsFirst Nothing (λ _. wanted.now) front.old)
        (λ _. front.old ≡ wanted.now ++ newline ∷ front.new) }
{
    front.literal(wanted)?;
    front.byte(b'\n')?;
    Some(())
}

/// Takes the first line, and returns whether raw headers count.
fn take_heading(front: &mut Front<'_>) -> Option<bool>
    ensures { MatchOption result (NoneIsFirst AnyFlag heading front.old)
        (λ raws. front.old ≡ heading raws ++ newline ∷ front.new) }
{
    if front.literal(b"heappair 1\n").is_some() {
        Some(false)
    } else if front.literal(b"heappair 2\n").is_some() {
        Some(true)
    } else {
        None
    }
}

/// Takes a word of a space.
#[inline(always)]
fn take_word(front: &mut Front<'_>) -> Option<u64>
    ensures { MatchOption result (NoneIsFirst IsWord decimal front.old)
        (λ word. IsWord word × (front.old ≡ decimal word ++ newline ∷ front.new)) }
{
    let word = front.number(u64::MAX)?;
    front.byte(b'\n')?;
    Some(word)
}

/// Takes a name and a count.
fn take_count(front: &mut Front<'_>, name: &[u8], most: u64) -> Option<u64>
    ensures { MatchOption result (NoneIsFirst (λ n. n ≤ most) (count_line name.now) front.old)
        (λ count. (count ≤ most) × (front.old ≡ count_line name.now count ++ newline ∷ front.new)) }
{
    front.literal(name)?;
    front.byte(b' ')?;
    let count = front.number(most)?;
    front.byte(b'\n')?;
    Some(count)
}

/// Takes a name, and the size and the end of an image.
fn take_sizes(front: &mut Front<'_>, name: &[u8]) -> Option<(u32, u32)>
    ensures { MatchOption result (NoneIsFirst AreSizes (λ s. size_line name.now s.0 s.1) front.old)
        (λ s. AreSizes s × (front.old ≡ size_line name.now s.0 s.1 ++ newline ∷ front.new)) }
{
    front.literal(name)?;
    front.byte(b' ')?;
    let size = front.number(u64::from(MOST_WORDS))? as u32;
    front.byte(b' ')?;
    let end = front.number(u64::from(MOST_WORDS))? as u32;
    front.byte(b'\n')?;
    if size == 0 || end == 0 {
        return None;
    }
    Some((size, end))
}

/// Takes an old and a new address.
#[inline(always)]
fn take_pair(front: &mut Front<'_>) -> Option<(u32, u32)>
    ensures { MatchOption result (NoneIsFirst AreAddresses pair_line front.old)
        (λ pair. AreAddresses pair × (front.old ≡ pair_line pair ++ newline ∷ front.new)) }
{
    let old = front.number(4294967295)? as u32;
    front.byte(b' ')?;
    let new = front.number(4294967295)? as u32;
    front.byte(b'\n')?;
    Some((old, new))
}

/// The kind of exactly this line.
#[derive(Drop)]
pub struct Exactly<'a> {
    pub wanted: &'a [u8],
}

impl<'a> LineKind for Exactly<'a> {
    type Value = ();

    ghost fits = { λ _ value. Nothing value };

    ghost line = { λ kind _. kind.wanted.now };

    fn take(&self, front: &mut Front<'_>) -> Option<()> {
        take_line(front, self.wanted)
    }
}

/// The first line, which says whether raw headers count.
#[derive(Drop)]
pub struct Heading;

impl LineKind for Heading {
    type Value = bool;

    ghost fits = { λ _ value. AnyFlag value };

    ghost line = { λ _ value. heading value };

    fn take(&self, front: &mut Front<'_>) -> Option<bool> {
        take_heading(front)
    }
}

/// A word of a space or of its roots.
#[derive(Drop)]
pub struct Word;

impl LineKind for Word {
    type Value = u64;

    ghost fits = { λ _ value. IsWord value };

    ghost line = { λ _ value. decimal value };

    #[inline(always)]
    fn take(&self, front: &mut Front<'_>) -> Option<u64> {
        take_word(front)
    }
}

/// A name and a count.
#[derive(Drop)]
pub struct Count<'a> {
    pub name: &'a [u8],
    pub most: u64,
}

impl<'a> LineKind for Count<'a> {
    type Value = u64;

    ghost fits = { λ kind value. value ≤ kind.most };

    ghost line = { λ kind value. count_line kind.name.now value };

    fn take(&self, front: &mut Front<'_>) -> Option<u64> {
        take_count(front, self.name, self.most)
    }
}

/// A name, and the size and the end of an image.
#[derive(Drop)]
pub struct Sizes<'a> {
    pub name: &'a [u8],
}

impl<'a> LineKind for Sizes<'a> {
    type Value = (u32, u32);

    ghost fits = { λ _ value. AreSizes value };

    ghost line = { λ kind value. size_line kind.name.now value.0 value.1 };

    fn take(&self, front: &mut Front<'_>) -> Option<(u32, u32)> {
        take_sizes(front, self.name)
    }
}

/// An old and a new address.
#[derive(Drop)]
pub struct Addresses;

impl LineKind for Addresses {
    type Value = (u32, u32);

    ghost fits = { λ _ value. AreAddresses value };

    ghost line = { λ _ value. pair_line value };

    #[inline(always)]
    fn take(&self, front: &mut Front<'_>) -> Option<(u32, u32)> {
        take_pair(front)
    }
}

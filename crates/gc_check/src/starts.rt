use crate::verdict::CheckFault;
use gc_words::{ImageRef, Refusal, ShapeFault, is_marked, mark, next_in};
use std::alloc::{AllocError, Global};
use std::marker::Model;

/// The table of the places at which the objects of a shaped image start. Contracts see the image.
#[derive(Drop)]
pub(crate) struct Starts<'a> {
    image: ImageRef<'a>,
    /// A bit for each place.
    marks: Vec<u64>,
}

impl<'a> Model for Starts<'a> {
    ghost use Rattle.gc_words.specs.Image.{Image};
    ghost use Rattle.gc_words.specs.Views.{image_of};
    ghost use Rattle.gc_check.specs.Internal.Tables.{MarksStarts};

    ghost Value = { Image };

    ghost view = { λ starts. image_of starts.image };

    ghost invariant = { λ starts. MarksStarts starts.image.words.now starts.marks.items };
}

impl<'a> Starts<'a> {
    ghost use Rattle.std.specs.Prelude.{◌≡◌, ◌<◌, None, MatchResult, IsOk, IsTrue, length};
    ghost use Rattle.gc_words.specs.Image.{is_start, walk_words};
    ghost use Rattle.gc_words.specs.Fault.{shape_fault};
    ghost use Rattle.gc_words.specs.Views.{image_of};
    ghost use Rattle.gc_check.specs.Internal.Starts.{IsStartsFault, starts_from};

    /// Builds the table by one walk over the image's words. Returns `NotShaped` with the first place at which the image
    /// is not shaped. Allocates once, or not at all if the size, the end, the number of words or word 0 is wrong.
    pub(crate) fn new(alloc: Global, image: ImageRef<'a>) -> Result<Starts<'a>, StartsFault>
        ensures { MatchResult result
            (λ starts. (shape_fault (image_of image.entry) ≡ None) × (starts ≡ image_of image.entry))
            (IsStartsFault (shape_fault (image_of image.entry))) }
    {
        if !is_framed(image) {
            return Err(StartsFault::NotShaped(ShapeFault { at: 0 }));
        }
        let mut marks = vec![in alloc; 0u64; image.words.len() / 64 + 1]?;
        match mark_starts(image.words, image.raws, marks.as_mut_slice()) {
            Ok(()) => Ok(Starts { image, marks }),
            Err(fault) => Err(StartsFault::NotShaped(fault)),
        }
    }

    /// Returns the number of places: one for each word of the image.
    pub(crate) fn places(&self) -> usize
        ensures { result ≡ length self.now.words }
    {
        self.image.words.len()
    }

    /// Returns the number of objects.
    pub(crate) fn count(&self) -> usize
        ensures { result ≡ starts_from self.now.words 0 (length self.now.words) }
    {
        let mut count = 0;
        for place in 0..self.places() {
            if self.is_marked(place) {
                count += 1;
            }
        }
        count
    }

    /// Returns the words of the image.
    pub(crate) fn words(&self) -> &[u64]
        ensures value { result.now ≡ self.now.words }
        ensures walked { IsOk (walk_words self.now.words) }
    {
        self.image.words
    }

    /// Returns the roots of the image.
    pub(crate) fn roots(&self) -> &[u64]
        ensures { result.now ≡ self.now.roots }
    {
        self.image.roots
    }

    /// Returns whether an object starts at this place.
    #[tactic(auto, using(crate::proofs::StartMarks::no_start_past))]
    pub(crate) fn contains(&self, place: u32) -> bool
        ensures start { result ≡ is_start self.now.words place }
        ensures within { IsTrue result → place < length self.now.words }
    {
        let place = place as usize;
        place < self.image.words.len() && self.is_marked(place)
    }

    // Returns whether an object starts at this place of the image.
    fn is_marked(&self, place: usize) -> bool
        requires { place < length self.now.words }
        ensures { result ≡ is_start self.now.words place }
    {
        is_marked(self.marks.as_slice(), place)
    }
}

/// The reason why an image has no table of starts.
#[derive(Clone, Copy, Debug)]
pub(crate) enum StartsFault {
    NotShaped(ShapeFault),
    /// An allocation failed.
    NoMemory,
}

impl From<AllocError> for StartsFault {
    ghost use Rattle.std.specs.Prelude.{◌≡◌};
    ghost use Rattle.gc_check.specs.declared.starts.StartsFault.TheVariants as faults;

    ghost from_gives = { λ _ made. made ≡ faults.NoMemory };

    fn from(_refused: AllocError) -> StartsFault {
        StartsFault::NoMemory
    }
}

impl StartsFault {
    ghost use Rattle.std.specs.Prelude.{ℕ, Option};
    ghost use Rattle.std.specs.Option.{option_map};
    ghost use Rattle.gc_words.specs.declared.refusal.Refusal.TheVariants.{OldShape, NewShape};
    ghost use Rattle.gc_check.specs.Internal.Starts.{IsStartsFault};
    ghost use Rattle.gc_check.specs.Verdict.{IsRefusalOf};

    /// Returns this fault as one of a check, for the old image.
    pub(crate) fn of_old(self) -> CheckFault
        ensures { (fault : Option ℕ) → IsStartsFault fault self
            → IsRefusalOf (option_map (λ at. OldShape at) fault) result }
    {
        match self {
            StartsFault::NotShaped(fault) => CheckFault::Refused(Refusal::OldShape {
                at: fault.at,
            }),
            StartsFault::NoMemory => CheckFault::NoMemory,
        }
    }

    /// Returns this fault as one of a check, for the new image.
    pub(crate) fn of_new(self) -> CheckFault
        ensures { (fault : Option ℕ) → IsStartsFault fault self
            → IsRefusalOf (option_map (λ at. NewShape at) fault) result }
    {
        match self {
            StartsFault::NotShaped(fault) => CheckFault::Refused(Refusal::NewShape {
                at: fault.at,
            }),
            StartsFault::NoMemory => CheckFault::NoMemory,
        }
    }
}

ghost use Rattle.std.specs.Prelude.{◌≡◌, ◌+◌, ◌/◌, if◌then◌else◌, length, replicate, None, Some, MatchResult};
ghost use Rattle.std.specs.Result.{result_err};
ghost use Rattle.gc_words.specs.Image.{walk_all};
ghost use Rattle.gc_words.specs.Fault.{shape_fault};
ghost use Rattle.gc_words.specs.Views.{image_of};
ghost use Rattle.gc_check.specs.Internal.Tables.{MarksStarts};

// Returns whether size, end, number of words and word 0 are right for a shaped image.
fn is_framed(image: ImageRef) -> bool
    ensures { shape_fault (image_of image.entry)
        ≡ (if result then result_err (walk_all image.entry.raws image.entry.words.now) else Some 0) }
{
    image.size >= 1
        && (1..=image.size).contains(&image.end)
        && image.words.len() == image.end as usize
        && image.words[0] == 0
}

// Marks the places at which objects start, up to the first place where an object should start and none does.
#[tactic(auto, using(crate::proofs::StartMarks::none_marked, crate::proofs::StartMarks::marks_next, gc_words::proofs::Public::same_fault))]
fn mark_starts(words: &[u64], raws: bool, marks: &mut [u64]) -> Result<(), ShapeFault>
    requires unmarked { marks.old ≡ replicate (length words.now / 64 + 1) 0 }
    ensures { MatchResult result
        (λ _. (result_err (walk_all raws words.now) ≡ None) × MarksStarts words.now marks.new)
        (λ fault. result_err (walk_all raws words.now) ≡ Some fault.at) }
{
    let mut at = 1;
    while at < words.len() {
        let Some(next) = next_in(words, at, raws) else {
            return Err(ShapeFault { at: at as u64 });
        };
        mark(marks, at);
        at = next;
    }
    Ok(())
}

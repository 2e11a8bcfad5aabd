//! What the texts and the libraries for C say of a refusal.

ghost use Rattle.std.specs.Prelude.{◌≡◌, ◌≤◌, length};
ghost use Rattle.gc_check.specs.Verdict.{refusal_parts};

use gc_words::Refusal;

/// A refusal's number, its name, and its places.
#[derive(Drop)]
pub(crate) struct RefusalParts {
    pub(crate) number: u32,
    pub(crate) name: &'static [u8],
    /// The address, the pair or the root that is refused.
    pub(crate) place: Option<u64>,
    /// The field that is refused, if a field is.
    pub(crate) field: Option<u64>,
}

fn parts(number: u32, name: &'static [u8], place: Option<u64>, field: Option<u64>) -> RefusalParts
    ensures number { result.number ≡ number }
    ensures name { result.name.now ≡ name.now }
    ensures place { result.place ≡ place }
    ensures field { result.field ≡ field }
{
    RefusalParts {
        number,
        name,
        place,
        field,
    }
}

/// Returns the parts of a refusal.
#[tactic(auto, unfolding(crate::specs::Verdict::refusal_parts))]
pub(crate) fn parts_of(refusal: Refusal) -> RefusalParts
    ensures number { result.number ≡ (refusal_parts refusal).0 }
    ensures name { result.name.now ≡ (refusal_parts refusal).1 }
    ensures place { result.place ≡ (refusal_parts refusal).2 }
    ensures field { result.field ≡ (refusal_parts refusal).3 }
    ensures short { length result.name.now ≤ 13 }
{
    match refusal {
        Refusal::OldShape { at } => parts(1, b"OldShape", Some(at), None),
        Refusal::NewShape { at } => parts(2, b"NewShape", Some(at), None),
        Refusal::RootCount => parts(3, b"RootCount", None, None),
        Refusal::OldNotStart { k } => parts(4, b"OldNotStart", Some(k), None),
        Refusal::NewNotStart { k } => parts(5, b"NewNotStart", Some(k), None),
        Refusal::NotRising { k } => parts(6, b"NotRising", Some(k), None),
        Refusal::Twice { k } => parts(7, b"Twice", Some(k), None),
        Refusal::HeaderDiffers { k } => parts(8, b"HeaderDiffers", Some(k), None),
        Refusal::FieldDiffers { k, i } => parts(9, b"FieldDiffers", Some(k), Some(i)),
        Refusal::RootDiffers { slot } => parts(10, b"RootDiffers", Some(slot), None),
    }
}

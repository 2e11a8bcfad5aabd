//! Laws that follow from the definitions. A function that calls one of these may use what it says.

ghost use Rattle.std.specs.Prelude.{◌≡◌, ◌<◌, ◌≤◌, ◌↔◌, ℕ, Bool, List, Some, None, IsOk, IsSome, IsTrue};
ghost use Rattle.std.specs.List.{AllZip};
ghost use Rattle.gc_graph.specs.Graph.{Value};
ghost use Rattle.gc_graph.specs.Correspond.{Corresponding};
ghost use Rattle.gc_words.specs.Word.{IsHeader, HasAddress, header_word, read_header, word_of, is_value, value_of, read_value};
ghost use Rattle.gc_words.specs.Image.{Block, Image, IsShaped, walk_all, walk_words, block_at, header_at, field_at, graph_of};
ghost use Rattle.gc_words.specs.Certificate.{Certified};
ghost use Rattle.gc_words.specs.Fault.{shape_fault, first_difference, first_fault, IsFirstFault};
ghost use Rattle.gc_words.specs.FaultPlace.{DifferFirstAt, ShapeFailsAt};
ghost use Rattle.gc_words.specs.Rows.{WordRows, PairRows};
ghost use Rattle.gc_words.specs.declared.header.Header.{Header};
ghost use Rattle.gc_words.specs.declared.refusal.Refusal.{Refusal};

/// The worked examples hold of the definitions, by computation.
pub fn worked_rows()
    ensures words { WordRows }
    ensures pairs { PairRows }
{}

/// An image has no fault of shape if and only if it is shaped.
#[tactic(auto, using(crate::proofs::Faults::shaped, crate::proofs::Faults::no_shape_fault))]
pub fn no_fault_where_shaped()
    ensures { (image : Image) → (shape_fault image ≡ None) ↔ IsShaped image }
{}

/// A certificate has no first fault if and only if it holds.
pub fn no_fault_where_certified()
    ensures { (old new : Image) (pairs : List (ℕ × ℕ))
        → (first_fault old new pairs ≡ None) ↔ Certified old new pairs }
{}

/// A fault is the first if and only if its condition fails at its place and all conditions before it hold. This is so for
/// one fault at most.
#[tactic(auto, using(crate::proofs::FirstFault::first_fails, crate::proofs::FoundFault::fault_found, crate::proofs::FoundFault::one_first))]
pub fn first_fault_is_first()
    ensures exact { (old new : Image) (pairs : List (ℕ × ℕ)) (refusal : Refusal)
        → (first_fault old new pairs ≡ Some refusal) ↔ IsFirstFault old new pairs refusal }
    ensures one { (old new : Image) (pairs : List (ℕ × ℕ)) (refusal other : Refusal)
        → IsFirstFault old new pairs refusal → IsFirstFault old new pairs other → refusal ≡ other }
{}

/// The first difference of two lists of words is the first place at which the two words do not correspond or only one list has a
/// word. There is none if and only if the lists are equally long and correspond word by word.
pub fn first_difference_is_first()
    ensures at { (alike : ℕ → ℕ → Bool) (vs ws : List ℕ) (i : ℕ)
        → (first_difference alike 0 vs ws ≡ Some i) ↔ DifferFirstAt alike vs ws i }
    ensures none { (alike : ℕ → ℕ → Bool) (vs ws : List ℕ)
        → (first_difference alike 0 vs ws ≡ None) ↔ AllZip (λ v w. IsTrue (alike v w)) vs ws }
{}

/// The fault of an image's shape is the first. At address 0 the sizes or word 0 are wrong. At any other address these are right,
/// objects lie back to back from word 1 up to there, words are left, and no object that ends within them starts there.
#[tactic(auto, using(crate::proofs::FaultPlace::shape_fails, crate::proofs::FaultPlace::failing_shape))]
pub fn shape_fault_is_first()
    ensures { (image : Image) (at : ℕ) → (shape_fault image ≡ Some at) ↔ ShapeFailsAt image at }
{}

/// If a certificate holds, the graphs of the two images correspond.
pub fn certified_graphs_correspond()
    ensures { (old new : Image) (pairs : List (ℕ × ℕ))
        → Certified old new pairs → Corresponding pairs (graph_of old) (graph_of new) }
{}

/// If a walk reaches the end when headers of raw objects do not count, it meets the same objects when they count.
#[tactic(auto, using(crate::proofs::Walks::same_walk))]
pub fn raws_change_no_objects()
    ensures { (raws : Bool) (words : List ℕ)
        → IsOk (walk_all raws words) → walk_all raws words ≡ walk_words words }
{}

/// Decoding inverts encoding, and only encoded words decode.
#[tactic(auto, using(crate::proofs::Graphs::value_read_back, crate::proofs::Graphs::word_read_back, crate::proofs::Graphs::meaning_back, crate::proofs::Graphs::meant, crate::proofs::Walks::read_back, crate::proofs::Walks::written_back))]
pub fn words_are_read_back()
    ensures value { (v : Value) → HasAddress v → read_value (word_of v) ≡ Some v }
    ensures value_word { (word : ℕ) (v : Value)
        → read_value word ≡ Some v → (word_of v ≡ word) × HasAddress v }
    ensures meaning { (v : Value)
        → HasAddress v → IsTrue (is_value (word_of v)) × (value_of (word_of v) ≡ v) }
    ensures meaning_word { (word : ℕ)
        → IsTrue (is_value word) → (word_of (value_of word) ≡ word) × HasAddress (value_of word) }
    ensures header { (h : Header) → IsHeader h → read_header (header_word h) ≡ Some h }
    ensures header_word { (word : ℕ) (h : Header)
        → read_header word ≡ Some h → IsHeader h × (header_word h ≡ word) }
{}

/// An object has the number of fields that its header gives.
#[tactic(auto, using(crate::proofs::Fields::block_of_header, crate::proofs::Fields::field_within, crate::proofs::Fields::field_past))]
pub fn objects_have_their_fields()
    ensures block { (words : List ℕ) (start : ℕ) (h : Header)
        → header_at words start ≡ Some h
        → (b : Block) × (block_at words start ≡ Some b) × (b.header ≡ h) }
    ensures within { (words : List ℕ) (start i : ℕ) (h : Header)
        → IsOk (walk_words words) → header_at words start ≡ Some h
        → i < h.len → IsSome (field_at words start i) }
    ensures past { (words : List ℕ) (start i : ℕ) (h : Header)
        → IsOk (walk_words words) → header_at words start ≡ Some h
        → h.len ≤ i → field_at words start i ≡ None }
{}

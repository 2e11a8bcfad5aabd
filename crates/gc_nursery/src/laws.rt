//! Laws about minor collections. In them `front` and `young` are the words of the old and of the young objects, and `after` and `kept` those
//! after the collection.

ghost use Rattle.std.specs.Prelude.{◌≡◌, ◌<◌, ◌≤◌, ◌-◌, ℕ, List, [], ◌∷◌, ◌++◌, length, map, replicate, slice_get, slice_set, IsOk, Some, true};
ghost use Rattle.std.specs.List.{All};
ghost use Rattle.gc_graph.specs.Limits.{largest_space};
ghost use Rattle.gc_graph.specs.Graph.{Ref};
ghost use Rattle.gc_words.specs.Word.{word_of, words_correspond};
ghost use Rattle.gc_words.specs.Layout.{field_place};
ghost use Rattle.gc_words.specs.Spelling.{block_words};
ghost use Rattle.gc_words.specs.Closed.{IsFieldWord, IsRootWord};
ghost use Rattle.gc_words.specs.declared.header.Header.{Header};
ghost use Rattle.gc_words.specs.Image.{Block, block_in, block_at, fresh_block, walk};
ghost use Rattle.gc_words.specs.Certificate.{Certified};
ghost use Rattle.gc_words.specs.Space.{CanPlace};
ghost use Rattle.gc_check.specs.Headline.{Replicated};
ghost use Rattle.gc_nursery.specs.Encoding.{IsEncoded, young_image, rebased};
ghost use Rattle.gc_nursery.specs.Major.{IsUnderWay};
ghost use Rattle.gc_nursery.specs.Rows.{Rows};
ghost use Rattle.gc_nursery.specs.Minor.{MinorCertified, words_correspond_above, young_blocks, word_of_field, IsStanding, IsMinor, IsCandidate, AreReplicas, whole, identity, remember};

/// A minor collection's certificate, with each old object as its own replica, is a certificate of the whole heap. So
/// mutators cannot tell the heaps apart, and if each object that was kept is a replica, the heap stands as before,
/// with nothing remembered and no object young.
pub fn minor_certificates_certify_whole_heaps()
    ensures certified { (size : ℕ) (front after young survivors roots new_roots : List ℕ) (remembered pairs : List (ℕ × ℕ))
        → IsStanding size front young roots remembered
        → IsMinor size front after young survivors roots new_roots remembered pairs
        → Certified (whole size front young roots) (whole size after survivors new_roots) (identity front ++ pairs) }
    ensures replicated { (size : ℕ) (front after young survivors roots new_roots : List ℕ) (remembered pairs : List (ℕ × ℕ))
        → IsStanding size front young roots remembered
        → IsMinor size front after young survivors roots new_roots remembered pairs
        → Replicated (whole size front young roots) (whole size after survivors new_roots) (identity front ++ pairs) }
    ensures stands { (size : ℕ) (front after young survivors roots new_roots : List ℕ) (remembered pairs : List (ℕ × ℕ))
        → IsStanding size front young roots remembered
        → IsMinor size front after young survivors roots new_roots remembered pairs
        → AreReplicas (length front) survivors pairs
        → IsStanding size (after ++ survivors) [] new_roots [] }
{
    gc_check::certified_is_replicated();
}

/// A heap that was just opened stands, and what commands do keeps it standing. A new object is young. A write to an old object adds its field to the
/// remembered set just when the new word refers to a young object and the one before did not; a write to a young one
/// adds nothing, and neither does a root.
#[tactic(auto, using(crate::proofs::Stands::opened))]
pub fn commands_keep_heaps_standing()
    ensures opened { (size count : ℕ) → 1 ≤ size → size ≤ largest_space
        → IsStanding size (0 ∷ []) [] (replicate count 0) [] }
    ensures made { (size : ℕ) (front young roots : List ℕ) (remembered : List (ℕ × ℕ)) (h : Header) (place : ℕ)
        → IsStanding size front young roots remembered
        → CanPlace (record { size = size; words = front ++ young }) h
        → IsStanding size front (young ++ block_words 0 (fresh_block h)) (slice_set roots place (word_of (Ref (length (front ++ young))))) remembered }
    ensures old_field { (size : ℕ) (front young roots : List ℕ) (remembered : List (ℕ × ℕ)) (a i old w : ℕ) (b : Block)
        → IsStanding size front young roots remembered
        → block_at front a ≡ Some b → slice_get b.fields i ≡ Some old → IsFieldWord (front ++ young) b.header w
        → IsStanding size (slice_set front (field_place a i) w) young roots (remember (length front) old w a i remembered) }
    ensures young_field { (size : ℕ) (front young roots : List ℕ) (remembered : List (ℕ × ℕ)) (a i old w : ℕ) (b : Block)
        → IsStanding size front young roots remembered
        → block_in (young_blocks (length front) young) a ≡ Some b → slice_get b.fields i ≡ Some old
        → IsFieldWord (front ++ young) b.header w
        → IsStanding size front (slice_set young (field_place a i - length front) w) roots remembered }
    ensures root { (size : ℕ) (front young roots : List ℕ) (remembered : List (ℕ × ℕ)) (place w : ℕ)
        → IsStanding size front young roots remembered → IsRootWord (front ++ young) w
        → IsStanding size front young (slice_set roots place w) remembered }
{}

/// With the least base no object is old, so words correspond as in any certificate.
pub fn base_one_is_the_present_certificate()
    ensures { (pairs : List (ℕ × ℕ)) (v w : ℕ)
        → words_correspond_above 1 pairs v w ≡ words_correspond pairs v w }
{}

/// All young objects may become old where they lie: nothing is copied, and nothing is remembered.
pub fn young_objects_may_grow_old_in_place()
    ensures { (size : ℕ) (front young roots : List ℕ) (remembered : List (ℕ × ℕ))
        → IsStanding size front young roots remembered → IsStanding size (front ++ young) [] roots [] }
{}

/// A checker of whole images serves: if a certificate holds of the images of the young objects, in which a reference to an old object
/// is a number that no young field and no root has, then the minor collection is certified.
pub fn encoded_certificates_are_enough()
    ensures { (code : ℕ → ℕ) (size new_size base : ℕ) (young survivors roots new_roots : List ℕ) (pairs : List (ℕ × ℕ))
        → 1 ≤ base → IsOk (walk true 0 base young) → IsOk (walk true 0 base survivors)
        → IsEncoded code base young roots → IsEncoded code base survivors new_roots
        → All (λ p. (base ≤ p.0) × (base ≤ p.1)) pairs
        → Certified (young_image size code base young roots) (young_image new_size code base survivors new_roots) (rebased base pairs)
        → MinorCertified base young survivors roots new_roots pairs }
{}

/// Nothing is refused for being asked in small: a certificate of the whole heap in which each old object is its own
/// replica is one of the minor collection.
pub fn minor_certificates_lose_nothing()
    ensures { (size : ℕ) (front after young survivors roots new_roots : List ℕ) (remembered pairs : List (ℕ × ℕ))
        → IsStanding size front young roots remembered
        → IsCandidate size front after survivors remembered pairs
        → Certified (whole size front young roots) (whole size after survivors new_roots) (identity front ++ pairs)
        → MinorCertified (length front) young survivors (map (word_of_field front) remembered ++ roots)
        (map (word_of_field after) remembered ++ new_roots) pairs }
{}

/// A collection of the old objects that is open goes on across a minor one, if the remembered fields are logged: replicas are of old
/// objects alone, and a field that is neither due nor remembered has its word.
pub fn major_collections_go_on()
    ensures { (size : ℕ) (front after young survivors roots new_roots : List ℕ) (remembered young_pairs : List (ℕ × ℕ))
        (replicas : List ℕ) (pairs due : List (ℕ × ℕ)) (base : ℕ)
        → IsStanding size front young roots remembered
        → IsMinor size front after young survivors roots new_roots remembered young_pairs
        → All (λ p. p.0 < length front) pairs
        → IsUnderWay (length front) front replicas pairs due
        → IsUnderWay base (after ++ survivors) replicas pairs (remembered ++ due) }
{}

/// What an adapter for a nursery rests on: if the heap stands before, the old objects have changed in their remembered fields alone,
/// and a certificate holds of the two images of the young objects, with the remembered fields as further roots, then the whole heap has
/// a replica of each object, and each old object is its own.
pub fn encoded_certificates_certify_whole_heaps()
    ensures { (code : ℕ → ℕ) (size old_size new_size : ℕ) (front after young survivors roots new_roots : List ℕ) (remembered pairs : List (ℕ × ℕ))
        → IsStanding size front young roots remembered
        → IsCandidate size front after survivors remembered pairs
        → length (after ++ survivors) ≤ size
        → IsEncoded code (length front) young (map (word_of_field front) remembered ++ roots)
        → IsEncoded code (length front) survivors (map (word_of_field after) remembered ++ new_roots)
        → Certified (young_image old_size code (length front) young (map (word_of_field front) remembered ++ roots))
        (young_image new_size code (length front) survivors (map (word_of_field after) remembered ++ new_roots))
        (rebased (length front) pairs)
        → Replicated (whole size front young roots) (whole size after survivors new_roots) (identity front ++ pairs) }
{
    encoded_certificates_are_enough();
    minor_certificates_certify_whole_heaps();
}

/// The worked examples hold of the definitions, by computation.
pub fn worked_rows()
    ensures { Rows }
{}

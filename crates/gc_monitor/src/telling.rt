//! Laws: the tables of a standing checker tell the truth of the words, whoever the collector is, as long as the words are written as these
//! laws say.

ghost use Rattle.std.specs.Prelude.{◌≡◌, ◌≤◌, ◌∷◌, ◌++◌, [], ℕ, List, length, take, slice_index, slice_index_or, slice_set, IsTrue, IsSome};
ghost use Rattle.gc_words.specs.Certificate.{Certified};
ghost use Rattle.gc_words.specs.Image.{Image, field_at, is_start};
ghost use Rattle.gc_words.specs.Layout.{field_place, link_place};
ghost use Rattle.gc_monitor.specs.Events.{Applied, Freed, Looked, Made, Placed, PlacedBy, Saw, Wrote, flipped_tables, opening_tables};
ghost use Rattle.gc_monitor.specs.Origins.{pairs_in};
ghost use Rattle.gc_monitor.specs.Outline.{outline_of};
ghost use Rattle.gc_monitor.specs.Claims.{Accepts};
ghost use Rattle.gc_monitor.specs.Tables.{RowsAgree, Tables, watch_of};
ghost use Rattle.gc_monitor.specs.Telling.{Tells};
ghost use Rattle.gc_monitor.specs.Watch.{IsSeen, NewIsDue, Watches};

/// A yes of tables that tell the truth is sound. Nothing is assumed of the collector.
pub fn a_yes_is_sound()
    ensures told { (old new : Image) (t : Tables) → Tells old.words new.words t → Accepts t (outline_of old) (outline_of new)
        → Certified old new (pairs_in t.origins) }
    // It is enough that the tables agree, and that their watch is true of the words.
    ensures watched { (old new : Image) (t : Tables) → RowsAgree t → Watches old.words new.words (watch_of t)
        → Accepts t (outline_of old) (outline_of new) → Certified old new (pairs_in t.origins) }
{}

/// Each event of a standing checker leaves its tables telling the truth.
pub fn events_keep_telling()
    ensures opening { (old : List ℕ) (room : ℕ) → 1 ≤ length old → slice_index old 0 ≡ 0
        → Tells old (0 ∷ []) (opening_tables room) }
    ensures made { (old new : List ℕ) (t after : Tables)
        → Tells old new t → Made old t after → Tells old new after }
    ensures saw { (old new : List ℕ) (t after : Tables) (word : ℕ)
        → Tells old new t → Saw word t after → slice_index old (length t.olds) ≡ word → length after.olds ≤ length old → Tells old new after }
    ensures placed { (old new : List ℕ) (t after : Tables)
        → Tells old new t → Placed old new t after → Tells old new after }
    ensures placed_by { (old new : List ℕ) (t after : Tables) (word a : ℕ)
        → Tells old new t → PlacedBy word a t after → slice_index old a ≡ word → slice_index new (length t.news) ≡ word → length after.news ≤ length new
        → Tells old new after }
    ensures looked { (old new : List ℕ) (t after : Tables) (b i : ℕ)
        → Tells old new t → Looked old new b i t after → Tells old new after }
    ensures applied { (old new : List ℕ) (t after : Tables) (a i : ℕ)
        → Tells old new t → Applied old new a i t after → Tells old new after }
    ensures wrote { (old new : List ℕ) (t after : Tables) (a i : ℕ)
        → Tells old new t → Wrote a i t after → Tells old new after }
    ensures flipped { (old new : List ℕ) (t : Tables)
        → Tells old new t → Tells new (0 ∷ []) (flipped_tables t) }
    ensures dropped { (old new : List ℕ) (t after : Tables)
        → Tells old new t → Freed t after → Tells old (0 ∷ []) after }
{}

/// Words may be written: a field of the old space if it is told, one of the new space if it is due or looked at then, links, and words
/// behind the last.
pub fn writes_keep_telling()
    ensures written { (old new : List ℕ) (t after : Tables) (a i x : ℕ)
        → Tells old new t → IsSome (field_at (take (length t.olds) old) a i) → Wrote a i t after
        → Tells (slice_set old (field_place a i) x) new after }
    // Where all words are objects, the field or the link may also be one behind the walk.
    ensures anywhere { (old new : List ℕ) (t after : Tables) (a i x : ℕ)
        → Tells old new t → IsSeen (length old) old → IsSome (field_at old a i) → Wrote a i t after
        → Tells (slice_set old (field_place a i) x) new after }
    ensures link_anywhere { (old new : List ℕ) (t : Tables) (a x : ℕ)
        → Tells old new t → IsSeen (length old) old → IsTrue (is_start old a) → Tells (slice_set old (link_place a) x) new t }
    ensures brought { (old new : List ℕ) (t after : Tables) (b i x : ℕ)
        → Tells old new t → Looked old (slice_set new (field_place b i) x) b i t after
        → Tells old (slice_set new (field_place b i) x) after }
    // The field of an original is written untold, and that of its replica too, and then they are looked at.
    ensures both { (old new : List ℕ) (t after : Tables) (a b i x y : ℕ)
        → Tells old new t → slice_index_or t.origins b 0 ≡ a
        → Looked (slice_set old (field_place a i) x) (slice_set new (field_place b i) y) b i t after
        → Tells (slice_set old (field_place a i) x) (slice_set new (field_place b i) y) after }
    ensures due { (old new : List ℕ) (t : Tables) (b i x : ℕ)
        → Tells old new t → IsSome (field_at (take (length t.news) new) b i) → NewIsDue (watch_of t) b i
        → Tells old (slice_set new (field_place b i) x) t }
    ensures old_link { (old new : List ℕ) (t : Tables) (a x : ℕ)
        → Tells old new t → IsTrue (is_start (take (length t.olds) old) a)
        → Tells (slice_set old (link_place a) x) new t }
    ensures new_link { (old new : List ℕ) (t : Tables) (b x : ℕ)
        → Tells old new t → IsTrue (is_start (take (length t.news) new) b)
        → Tells old (slice_set new (link_place b) x) t }
    ensures old_more { (old new more : List ℕ) (t : Tables) → Tells old new t → Tells (old ++ more) new t }
    ensures new_more { (old new more : List ℕ) (t : Tables) → Tells old new t → Tells old (new ++ more) t }
{}

//! Laws: consequences of the definitions. They need no history.

ghost use Rattle.std.specs.Prelude.{◌≡◌, ℕ, List, ◌≤◌, ◌<◌, ◌-◌, ◌/◌, ◌^◌, Some, length};
ghost use Rattle.gc_bytes.specs.Text.{AreBytes, overwritten};
ghost use Rattle.gc_bytes.specs.Vector.{AreWords};
ghost use Rattle.gc_graph.specs.Legal.{IsLegal, IsLegalFrom};
ghost use Rattle.gc_graph.specs.Limits.{largest_space};
ghost use Rattle.gc_heap.specs.ExtraRoots.{opening_with};
ghost use Rattle.gc_heap.specs.declared.options.HeapOptions.{HeapOptions};
ghost use Rattle.gc_graph.specs.declared.reply.Reply.{Reply};
ghost use Rattle.gc_model.specs.State.{State, opening_state};
ghost use Rattle.gc_collected.specs.Bytes.{OnlyText, text_in, write_step};
ghost use Rattle.gc_collected.specs.Vectors.{OnlyVector, vector_in, write_words_step};
ghost use Rattle.gc_copy.specs.Opening.{opening_state_with};
ghost use Rattle.gc_model.specs.Runs.{AreEvents, AreRootEvents};
ghost use Rattle.gc_model.specs.declared.event.Event.{Event};
ghost use Rattle.gc_collected.specs.Replies.{told_in};
ghost use Rattle.gc_collected.specs.Collected.{after_flips, opening_turns};
ghost use Rattle.gc_collected.specs.declared.checks.Checking.{Checking};

use gc_bytes::{changed_texts_are_read_again, changed_vectors_are_read_again};

/// In every run, with commands and steps in any interleaving, mutators get replies that are possible without a
/// collector. The one exception is that an allocation may find the heap full.
pub fn runs_are_legal()
    ensures slots { (size mutators : ℕ) (events : List Event)
        → 1 ≤ size → size ≤ largest_space → AreEvents mutators events
        → IsLegal mutators (told_in (opening_state size mutators) events) }
    // The same for a heap with extra roots, whose commands may name them.
    ensures extra_roots { (options : HeapOptions) (events : List Event)
        → 1 ≤ options.size → options.size ≤ largest_space → AreRootEvents options.mutators events
        → IsLegalFrom (opening_with options).graph (told_in (opening_state_with options) events) }
{}

/// Of n flips of a heap whose flips check both spaces whole, all did. Of n flips of one whose checker goes along, each one with the number
/// `whole_each` did, so n / `whole_each`, or none if it is 0.
pub fn flips_are_counted()
    ensures at_flip { (n : ℕ) → n < 2 ^ 64 → (after_flips n (opening_turns Checking.AtFlip)).checks ≡ record { along = 0; whole = n } }
    ensures along { (n : ℕ) → n < 2 ^ 64 → (after_flips n (opening_turns (Checking.Along 0))).checks ≡ record { along = n; whole = 0 } }
    ensures each { (e n : ℕ) → 1 ≤ e → e < 2 ^ 32 → n < 2 ^ 64
        → (after_flips n (opening_turns (Checking.Along e))).checks ≡ record { along = n - n / e; whole = n / e } }
{}

/// Where bytes were written over those of a root's text, the root refers to the text with these bytes, and nothing else has changed.
pub fn written_texts_are_read_again()
    ensures { (old new : State) (m p at : ℕ) (bytes text : List ℕ) → AreBytes bytes → p < length old.heap.graph.roots → text_in old.heap.graph p ≡ Some text
        → write_step old m p at bytes ≡ (Reply.Done, new) → OnlyText old.heap new.heap p (overwritten text at bytes) }
{
    changed_texts_are_read_again();
}

/// Where words were written over those of a root's vector, the root refers to the vector with these words, and nothing else has changed.
pub fn written_vectors_are_read_again()
    ensures { (old new : State) (m p at : ℕ) (words vector : List ℕ) → AreWords words → p < length old.heap.graph.roots → vector_in old.heap.graph p ≡ Some vector
        → write_words_step old m p at words ≡ (Reply.Done, new) → OnlyVector old.heap new.heap p (overwritten vector at words) }
{
    changed_vectors_are_read_again();
}

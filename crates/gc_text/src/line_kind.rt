use crate::front::Front;

/// A kind of line, with the value that such a line has.
pub trait LineKind {
    ghost use Rattle.std.specs.Prelude.{◌≡◌, ◌∷◌, ◌++◌, ⊤, ℕ, List, MatchOption};
    ghost use Rattle.gc_text.specs.Lines.{newline};
    ghost use Rattle.gc_text.specs.Reading.{NoneIsFirst};

    type Value;

    // What a caller must establish about the kind.
    ghost is_sound: { Self → Type 0 } = { λ _. ⊤ };

    // The values that have a line.
    ghost fits: { Self → Self.Value → Type 0 };

    // The line of a value, without its line feed.
    ghost line: { Self → Self.Value → List ℕ };

    /// Takes a line of this kind, and its line feed, from the front of a text.
    fn take(&self, front: &mut Front<'_>) -> Option<Self::Value>
        requires { is_sound self.now }
        ensures { MatchOption result (NoneIsFirst (fits self.now) (line self.now) front.old)
            (λ value. fits self.now value × (front.old ≡ line self.now value ++ newline ∷ front.new)) };
}

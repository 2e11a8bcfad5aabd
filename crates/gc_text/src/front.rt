use crate::decimals::front_number;
use std::marker::Model;

/// The rest of a text. A call takes something from its front, or returns `None` and takes nothing.
#[derive(Drop)]
pub struct Front<'a> {
    rest: &'a [u8],
}

impl<'a> Model for Front<'a> {
    ghost use Rattle.std.specs.Prelude.{List, ℕ};

    ghost Value = { List ℕ };

    ghost view = { λ f. f.rest.now };
}

impl<'a> Front<'a> {
    ghost use Rattle.std.specs.Prelude.{◌≡◌, ◌≢◌, ◌≤◌, ◌∷◌, ◌++◌, ℕ, List, MatchOption, IsSome};
    ghost use Rattle.gc_text.specs.Fronts.{BeginsWithNumber, FindsNumber};

    /// Starts at the front of the text.
    #[inline(always)]
    pub fn new(text: &'a [u8]) -> Self
        ensures { result ≡ text.entry.now }
    {
        Front { rest: text }
    }

    /// Returns what is left.
    #[inline(always)]
    pub fn rest(&self) -> &'a [u8]
        ensures { result.now ≡ self.now }
    {
        self.rest
    }

    /// Takes the first byte if it is `byte`.
    #[inline(always)]
    pub fn byte(&mut self, byte: u8) -> Option<()>
        ensures { MatchOption result ((self.new ≡ self.old) × ((rest : List ℕ) → self.old ≢ byte ∷ rest))
            (λ _. self.old ≡ byte ∷ self.new) }
    {
        match self.rest {
            [first, rest @ ..] if *first == byte => {
                self.rest = rest;
                Some(())
            }
            _ => None,
        }
    }

    /// Takes these bytes.
    pub fn literal(&mut self, wanted: &[u8]) -> Option<()>
        ensures taken { MatchOption result (self.new ≡ self.old) (λ _. self.old ≡ wanted.now ++ self.new) }
        ensures found { (rest : List ℕ) → self.old ≡ wanted.now ++ rest → IsSome result × (self.new ≡ rest) }
    {
        if self.rest.len() < wanted.len() {
            return None;
        }
        if &self.rest[..wanted.len()] != wanted {
            return None;
        }
        self.rest = &self.rest[wanted.len()..];
        Some(())
    }

    /// Takes a decimal number that is at most `most`. It ends at the first byte that is not a digit.
    #[inline(always)]
    pub fn number(&mut self, most: u64) -> Option<u64>
        ensures taken { MatchOption result
            ((self.new ≡ self.old) × ((n : ℕ) (rest : List ℕ) → n ≤ most → ¬ BeginsWithNumber self.old n rest))
            (λ n. (n ≤ most) × BeginsWithNumber self.old n self.new) }
        ensures found { FindsNumber most self.old result self.new }
    {
        let (n, rest) = front_number(self.rest)?;
        if n > most {
            return None;
        }
        self.rest = rest;
        Some(n)
    }
}

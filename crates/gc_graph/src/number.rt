use std::marker::Model;

/// A number that a slot or a field can hold: 0 to 2^63 - 1.
#[derive(Clone, Copy, Debug, PartialEq, Eq)]
pub struct Number {
    value: u64,
}

impl Model for Number {
    ghost use Rattle.std.specs.Prelude.{ℕ, ◌<◌, ◌^◌};

    ghost Value = { ℕ };

    ghost view = { λ n. n.value };

    ghost invariant = { λ n. n.value < 2 ^ 63 };

    ghost inverse = { λ n. record { value = n } };
}

impl Number {
    ghost use Rattle.std.specs.Prelude.{◌≡◌, ◌<◌, ◌^◌, SomeIff};

    /// Returns the number if it is below 2^63.
    pub fn new(value: u64) -> Option<Number>
        ensures { SomeIff result (value < 2 ^ 63) value }
    {
        if value < 1 << 63 {
            Some(Number { value })
        } else {
            None
        }
    }

    pub(crate) fn zero() -> Number
        ensures { result ≡ 0 }
    {
        Number { value: 0 }
    }

    /// Returns the number as a `u64`.
    pub fn get(self) -> u64
        ensures value { result ≡ self }
        ensures bound { result < 2 ^ 63 }
    {
        self.value
    }
}

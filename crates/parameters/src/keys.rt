//! Keys in a row.
ghost use Rattle.std.specs.Prelude.{◌≡◌, ◌≤◌, IfSome, IsSome, ◌↔◌};
ghost use Rattle.parameters.specs.Keys.{IsKeySpan, count_of};

use std::marker::Model;

/// The greatest key that a scenario's text can say.
pub const MAX_SWEEP_KEY: u64 = 9_223_372_036_854_775_807;

/// The keys from a first to a last one.
#[derive(Clone, Copy, Debug, PartialEq, Eq)]
pub struct KeySpan {
    first: u64,
    last: u64,
}

impl Model for KeySpan {
    ghost use Rattle.parameters.specs.Keys.{IsKeySpan, KeyRange};

    ghost Value = { KeyRange };

    ghost view = { λ k. record { first = k.first; last = k.last } };

    ghost invariant = { λ k. IsKeySpan k.first k.last };

    ghost inverse = { λ k. record { first = k.first; last = k.last } };
}

impl KeySpan {
    /// Returns the keys from the first to the last, if the first is at most the last one, and that at most
    /// [`MAX_SWEEP_KEY`].
    pub fn of(first: u64, last: u64) -> Option<KeySpan>
        ensures value { IfSome result (λ k. k ≡ record { first = first; last = last }) }
        ensures some { IsSome result ↔ IsKeySpan first last }
    {
        if first > last || last > MAX_SWEEP_KEY {
            return None;
        }
        Some(KeySpan { first, last })
    }

    /// Returns the first key.
    pub fn first(self) -> u64
        ensures value { result ≡ self.first }
        ensures span { IsKeySpan self.first self.last }
    {
        self.first
    }

    /// Returns the last key.
    pub fn last(self) -> u64
        ensures value { result ≡ self.last }
        ensures span { IsKeySpan self.first self.last }
    {
        self.last
    }

    /// Returns how many keys there are.
    pub fn count(self) -> u64
        ensures { result ≡ count_of self }
    {
        self.last - self.first + 1
    }
}

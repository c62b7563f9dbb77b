//! Pulses in a row.
ghost use Rattle.std.specs.Prelude.{◌≡◌, IfSome, IsSome, ◌↔◌};
ghost use Rattle.parameters.specs.Pulses.{IsPulseSpan, is_within};

use std::marker::Model;

/// The pulses from a first to a last one, counted from 1 on.
#[derive(Clone, Copy, Debug, PartialEq, Eq)]
pub struct PulseSpan {
    first: u32,
    last: u32,
}

impl Model for PulseSpan {
    ghost use Rattle.parameters.specs.Pulses.{IsPulseSpan, PulseRange};

    ghost Value = { PulseRange };

    ghost view = { λ p. record { first = p.first; last = p.last } };

    ghost invariant = { λ p. IsPulseSpan p.first p.last };

    ghost inverse = { λ p. record { first = p.first; last = p.last } };
}

impl PulseSpan {
    /// Returns the span, if the first pulse is at least 1, and at most the last one.
    pub fn of(first: u32, last: u32) -> Option<PulseSpan>
        ensures value { IfSome result (λ p. p ≡ record { first = first; last = last }) }
        ensures some { IsSome result ↔ IsPulseSpan first last }
    {
        if first < 1 || first > last {
            return None;
        }
        Some(PulseSpan { first, last })
    }

    /// Returns the first pulse.
    pub fn first(self) -> u32
        ensures { result ≡ self.first }
    {
        self.first
    }

    /// Returns whether the pulse of this number is among them.
    pub fn contains(self, pulse: u32) -> bool
        ensures { result ≡ is_within self pulse }
    {
        self.first <= pulse && pulse <= self.last
    }
}

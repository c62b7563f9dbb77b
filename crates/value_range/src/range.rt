//! Ranges, and what two of them span or have in common.

ghost use Rattle.std.specs.Prelude.{◌≡◌, ℕ, ◌^◌, ◌<◌, ◌≤◌, ◌↔◌, SomeIff, IfSome, IfNone};
ghost use Rattle.value_range.specs.Span.{Span, span, just, full_of, is_single, hull_of, meet_of, Contains, IsInside};
ghost use Rattle.bpf_insn.specs.Arithmetic.{bits_of};

use bpf_insn::Width;
use std::marker::Model;

/// The numbers from `lo` to `hi`: at least one.
#[derive(Clone, Copy, Debug)]
pub struct Range {
    pub(crate) lo: u64,
    pub(crate) hi: u64,
}

impl Model for Range {
    ghost use Rattle.std.specs.Prelude.{◌≤◌};
    ghost use Rattle.value_range.specs.Span.{Span, span};

    ghost Value = { Span };

    ghost view = { λ r. span r.lo r.hi };

    ghost invariant = { λ r. r.lo ≤ r.hi };

    ghost inverse = { λ a. record { lo = a.lo; hi = a.hi } };
}

impl Range {
    /// Returns the numbers from `lo` to `hi`, or none if there is no such number.
    pub fn of(lo: u64, hi: u64) -> Option<Range>
        ensures { SomeIff result (lo ≤ hi) (span lo hi) }
    {
        if lo <= hi {
            Some(Range { lo, hi })
        } else {
            None
        }
    }

    /// Returns the range of one number.
    pub fn single(value: u64) -> Range
        ensures { result ≡ just value }
    {
        Range {
            lo: value,
            hi: value,
        }
    }

    /// Returns the range of every number of the width.
    pub fn full(width: Width) -> Range
        ensures { result ≡ full_of (bits_of width) }
    {
        match width {
            Width::W32 => Range {
                lo: 0,
                hi: u64::from(u32::MAX),
            },
            Width::W64 => Range {
                lo: 0,
                hi: u64::MAX,
            },
        }
    }

    /// Returns the least number.
    pub fn lo(&self) -> u64
        ensures value { result ≡ self.now.lo }
        ensures ordered { self.now.lo ≤ self.now.hi }
    {
        self.lo
    }

    /// Returns the greatest number.
    pub fn hi(&self) -> u64
        ensures value { result ≡ self.now.hi }
        ensures small { self.now.hi < 2 ^ 64 }
    {
        self.hi
    }
}

/// Returns the least range that contains both.
pub fn hull(a: Range, b: Range) -> Range
    ensures exact { result ≡ hull_of a b }
    ensures first { IsInside a result }
    ensures second { IsInside b result }
    ensures least { (c : Span) → IsInside a c → IsInside b c → IsInside result c }
{
    Range {
        lo: a.lo.min(b.lo),
        hi: a.hi.max(b.hi),
    }
}

fn common(a: Range, b: Range) -> Option<Range>
    ensures { result ≡ meet_of a b }
{
    Range::of(a.lo.max(b.lo), a.hi.min(b.hi))
}

/// Returns the common numbers, or none if there is no such number.
pub fn meet(a: Range, b: Range) -> Option<Range>
    ensures exact { result ≡ meet_of a b }
    ensures common { IfSome result (λ m. (x : ℕ) → Contains m x ↔ (Contains a x × Contains b x)) }
    ensures none { IfNone result ((x : ℕ) → Contains a x → Contains b x → ⊥) }
{
    common(a, b)
}

/// Whether one number alone is a member.
pub(crate) fn is_single_range(a: Range) -> bool
    ensures { result ≡ is_single a }
{
    a.lo == a.hi
}

/// How many numbers the width has.
pub(crate) fn count(width: Width) -> u128
    ensures { result ≡ 2 ^ bits_of width }
{
    match width {
        Width::W32 => 1 << 32,
        Width::W64 => 1 << 64,
    }
}

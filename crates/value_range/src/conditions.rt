//! What a condition leaves of two ranges.

ghost use Rattle.std.specs.Prelude.{◌≡◌, ℕ, false, ◌-◌, ◌^◌, ◌&&◌, nat_lt, IsSomeAnd};
ghost use Rattle.bpf_insn.specs.Arithmetic.{bits_of, holds};
ghost use Rattle.value_range.specs.Span.{is_single, meet_of, Contains};
ghost use Rattle.value_range.specs.Conditions.{less, at_most, turned, both, without, signed, refined, on_way, decided, branch_of};

use crate::arithmetic::half;
use crate::range::{Range, count, is_single_range, meet};
use bpf_insn::{Cond, Width};

fn condition_on_way(taken: bool, cond: Cond) -> Cond
    ensures { result ≡ on_way taken cond }
{
    if taken {
        return cond;
    }
    match cond {
        Cond::Eq => Cond::Ne,
        Cond::Ne => Cond::Eq,
        Cond::Set => Cond::Set,
        Cond::Lt => Cond::Ge,
        Cond::Le => Cond::Gt,
        Cond::Gt => Cond::Le,
        Cond::Ge => Cond::Lt,
        Cond::Slt => Cond::Sge,
        Cond::Sle => Cond::Sgt,
        Cond::Sgt => Cond::Sle,
        Cond::Sge => Cond::Slt,
    }
}

fn equal_pair(a: Range, b: Range) -> Option<(Range, Range)>
    ensures { result ≡ both (meet_of a b) }
{
    match meet(a, b) {
        Some(m) => Some((m, m)),
        None => None,
    }
}

fn less_pair(a: Range, b: Range) -> Option<(Range, Range)>
    ensures { result ≡ less a b }
{
    if a.lo < b.hi {
        Some((
            Range {
                lo: a.lo,
                hi: a.hi.min(b.hi - 1),
            },
            Range {
                lo: b.lo.max(a.lo + 1),
                hi: b.hi,
            },
        ))
    } else {
        None
    }
}

fn at_most_pair(a: Range, b: Range) -> Option<(Range, Range)>
    ensures { result ≡ at_most a b }
{
    if a.lo <= b.hi {
        Some((
            Range {
                lo: a.lo,
                hi: a.hi.min(b.hi),
            },
            Range {
                lo: b.lo.max(a.lo),
                hi: b.hi,
            },
        ))
    } else {
        None
    }
}

fn greater_pair(a: Range, b: Range) -> Option<(Range, Range)>
    ensures { result ≡ turned (less b a) }
{
    match less_pair(b, a) {
        Some((y, x)) => Some((x, y)),
        None => None,
    }
}

fn at_least_pair(a: Range, b: Range) -> Option<(Range, Range)>
    ensures { result ≡ turned (at_most b a) }
{
    match at_most_pair(b, a) {
        Some((y, x)) => Some((x, y)),
        None => None,
    }
}

/// `a` without the single number of `b`, if that is an end of `a`.
fn without_end(a: Range, b: Range) -> Range
    requires { is_single a && is_single b ≡ false }
    ensures { result ≡ without a b }
{
    if b.lo != b.hi {
        a
    } else if a.lo == b.lo {
        Range {
            lo: a.lo + 1,
            hi: a.hi,
        }
    } else if a.hi == b.lo {
        Range {
            lo: a.lo,
            hi: a.hi - 1,
        }
    } else {
        a
    }
}

/// Whether no number has the sign bit.
fn are_nonnegative(width: Width, a: Range, b: Range) -> bool
    ensures { let half = 2 ^ (bits_of width - 1) in
        result ≡ (nat_lt a.hi half && nat_lt b.hi half) }
{
    a.hi < half(width) && b.hi < half(width)
}

/// A signed condition is the unsigned one of numbers without the sign bit; it leaves others as they
/// are.
fn signed_pair(
    width: Width,
    a: Range,
    b: Range,
    pair: Option<(Range, Range)>,
) -> Option<(Range, Range)>
    ensures { result ≡ signed (bits_of width) a b pair }
{
    if are_nonnegative(width, a, b) {
        pair
    } else {
        Some((a, b))
    }
}

/// The pair if the condition holds, of ranges of numbers of the width.
fn refine(cond: Cond, width: Width, a: Range, b: Range) -> Option<(Range, Range)>
    requires { is_single a && is_single b ≡ false }
    ensures { result ≡ refined cond (bits_of width) a b }
{
    match cond {
        Cond::Eq => equal_pair(a, b),
        Cond::Ne => Some((without_end(a, b), without_end(b, a))),
        Cond::Set => Some((a, b)),
        Cond::Lt => less_pair(a, b),
        Cond::Le => at_most_pair(a, b),
        Cond::Gt => greater_pair(a, b),
        Cond::Ge => at_least_pair(a, b),
        Cond::Slt => signed_pair(width, a, b, less_pair(a, b)),
        Cond::Sle => signed_pair(width, a, b, at_most_pair(a, b)),
        Cond::Sgt => signed_pair(width, a, b, greater_pair(a, b)),
        Cond::Sge => signed_pair(width, a, b, at_least_pair(a, b)),
    }
}

/// Two single numbers decide.
fn decide(cond: Cond, width: Width, a: Range, b: Range, taken: bool) -> Option<(Range, Range)>
    ensures { result ≡ decided cond width a b taken }
{
    if bpf_insn::holds(cond, width, a.lo, b.lo) == taken {
        Some((a, b))
    } else {
        None
    }
}

fn branch_pair(cond: Cond, width: Width, a: Range, b: Range, taken: bool) -> Option<(Range, Range)>
    ensures { result ≡ branch_of cond width a b taken }
{
    if is_single_range(a) && is_single_range(b) {
        decide(cond, width, a, b, taken)
    } else if u128::from(a.hi) < count(width) && u128::from(b.hi) < count(width) {
        refine(condition_on_way(taken, cond), width, a, b)
    } else {
        Some((a, b))
    }
}

/// Returns what is left of two ranges if the condition falls as `taken` says, or none if it can't (docs/RANGES.md,
/// "Conditions on ranges").
pub fn branch(cond: Cond, width: Width, a: Range, b: Range, taken: bool) -> Option<(Range, Range)>
    ensures exact { result ≡ branch_of cond width a b taken }
    ensures contains { (x y : ℕ) → Contains a x → Contains b y → holds cond width x y ≡ taken →
        IsSomeAnd result (λ p. Contains p.0 x × Contains p.1 y) }
{
    branch_pair(cond, width, a, b, taken)
}

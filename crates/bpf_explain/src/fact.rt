//! What is told of a slot, and its text.

ghost use Rattle.std.specs.Prelude.{◌≡◌, ◌++◌, List, OnOk, Some, codes, string_bytes};
ghost use Rattle.bpf_explain.specs.declared.fact.Fact.{Fact as FactOf};
ghost use Rattle.bpf_explain.specs.Facts.{fact_text, kind_text, fact_list, range_text, remark};

use bpf_verify::AbstractValue;
use std::alloc::AllocError;
use std::fmt;
use std::fmt::Write;
use value_range::Range;

/// One thing that is known.
#[derive(Clone, Copy)]
pub(crate) enum Fact {
    /// Nothing reaches the slot.
    NotReached,
    /// A register is of a kind.
    Register {
        number: u32,
        kind: AbstractValue,
    },
    /// A double word of the stack is of a kind.
    Dword {
        number: u32,
        kind: AbstractValue,
    },
    /// The stack bytes from the first to the last are written, and neither the one before nor the one after surely is.
    Written {
        first: u32,
        last: u32,
    },
    /// A load takes the double word of these stack bytes whole.
    Holds {
        first: u32,
        last: u32,
        kind: AbstractValue,
    },
    /// A load may take these stack bytes, and all are written.
    HasWritten {
        first: u32,
        last: u32,
    },
    /// A load may take this stack byte, and it may be unwritten.
    MayLack {
        byte: u32,
    },
}

/// One number, or two with those between them.
#[derive(Clone, Copy)]
struct RangeText {
    lo: u64,
    hi: u64,
}

impl fmt::Display for RangeText {
    ghost output = { λ range. Some (range_text range.lo range.hi) };

    fn fmt<W: fmt::Write>(&self, f: &mut fmt::Formatter<W>) -> fmt::Result {
        let RangeText { lo, hi } = *self;
        if lo == hi {
            write!(f, "{lo}")
        } else {
            write!(f, "{lo}..{hi}")
        }
    }
}

/// The numbers of a range.
fn numbers(range: Range) -> RangeText
    ensures lo { result.lo ≡ range.lo }
    ensures hi { result.hi ≡ range.hi }
{
    RangeText {
        lo: range.lo(),
        hi: range.hi(),
    }
}

/// The bytes from one to another.
fn bytes(first: u32, last: u32) -> RangeText
    ensures lo { result.lo ≡ first }
    ensures hi { result.hi ≡ last }
{
    RangeText {
        lo: u64::from(first),
        hi: u64::from(last),
    }
}

/// A kind.
#[derive(Clone, Copy)]
struct KindText(AbstractValue);

impl fmt::Display for KindText {
    ghost output = { λ text. Some (kind_text text.0) };

    fn fmt<W: fmt::Write>(&self, f: &mut fmt::Formatter<W>) -> fmt::Result {
        match self.0 {
            AbstractValue::Unset => write!(f, "unset"),
            AbstractValue::Number(range) => write!(f, "{}", numbers(range)),
            AbstractValue::Pointer(region, range) => write!(f, "{region}+{}", numbers(range)),
        }
    }
}

impl fmt::Display for Fact {
    ghost output = { λ fact. Some (fact_text fact) };

    fn fmt<W: fmt::Write>(&self, f: &mut fmt::Formatter<W>) -> fmt::Result {
        match *self {
            Fact::NotReached => write!(f, "not reached"),
            Fact::Register { number, kind } => write!(f, "r{number} = {}", KindText(kind)),
            Fact::Dword { number, kind } => write!(f, "dword {number} = {}", KindText(kind)),
            Fact::Written { first, last } => write!(f, "written {}", bytes(first, last)),
            Fact::Holds { first, last, kind } => {
                write!(f, "stack {} = {}", bytes(first, last), KindText(kind))
            }
            Fact::HasWritten { first, last } => write!(f, "stack {} written", bytes(first, last)),
            Fact::MayLack { byte } => write!(f, "stack {byte} unwritten"),
        }
    }
}

/// Adds a fact after a comma and a blank.
pub(crate) fn add_fact(told: &mut String, fact: Fact) -> Result<(), AllocError>
    ensures { OnOk result (string_bytes told.new ≡ string_bytes told.old ++ (codes ", " ++ fact_text fact)) }
{
    write!(told, ", {fact}")
}

/// Adds what is told after an instruction: the facts, of which each is after a comma.
#[tactic(auto, using(crate::proofs::Listing::remarked, crate::proofs::Listing::unremarked))]
pub(crate) fn add_remark(text: &mut String, told: &str) -> Result<(), AllocError>
    ensures { (facts : List FactOf) → told.now ≡ fact_list facts →
        OnOk result (string_bytes text.new ≡ string_bytes text.old ++ remark facts) }
{
    match told.strip_prefix(',') {
        Some(facts) => write!(text, " #{facts}"),
        None => Ok(()),
    }
}

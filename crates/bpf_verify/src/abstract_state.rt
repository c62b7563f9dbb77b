//! What is known of a machine's state at a slot.

ghost use Rattle.std.specs.Prelude.{◌≡◌, ℕ, ◌+◌, ◌-◌, ◌<◌, ◌≤◌, ◌*◌, Some, true, IfOk, OnOk, length, slice_set};
ghost use Rattle.node_env.specs.Dwords.{dword_of};
ghost use Rattle.value_range.specs.Span.{span};
ghost use Rattle.bpf_verify.specs.declared.abstract_value.AbstractValue.TheVariants as kinds;
ghost use Rattle.bpf_verify.specs.States.{kind_of, joined_kind, joined_state, entry_state};
ghost use Rattle.bpf_verify.specs.Outcomes.{cleared, put_kind, with_entries, with_entry, with_kind, with_written};
ghost use Rattle.bpf_verify.specs.inner.Rows.{kind_numbered, kept_entry_in, abstract_of};

use crate::abstract_value::AbstractValue;
use crate::marks::Marks;
use bpf_insn::Reg;
use node_env::{Region, STACK_BYTES, STACK_DWORDS, Shape};
use std::alloc::{AllocError, Global};
use value_range::{Range, hull};

/// How many registers there are.
pub const REGISTERS: usize = 11;

/// An abstract state (docs/VERIFIER.md): what is known of each register, the stack bytes that are surely written, and
/// what is known of each double word of the stack.
#[derive(Drop)]
pub struct AbstractState {
    pub(crate) kinds: Kinds,
    pub(crate) marks: Marks,
    /// None if nothing is known.
    pub(crate) entries: Option<Box<Entries>>,
}

/// What is known of a register that is of either kind.
fn joined(a: AbstractValue, b: AbstractValue) -> AbstractValue
    ensures { result ≡ joined_kind a b }
{
    match a {
        AbstractValue::Unset => AbstractValue::Unset,
        AbstractValue::Number(x) => match b {
            AbstractValue::Number(y) => AbstractValue::Number(hull(x, y)),
            AbstractValue::Unset | AbstractValue::Pointer(..) => AbstractValue::Unset,
        },
        AbstractValue::Pointer(region, x) => match b {
            AbstractValue::Pointer(other, y) => {
                if region == other {
                    AbstractValue::Pointer(region, hull(x, y))
                } else {
                    AbstractValue::Unset
                }
            }
            AbstractValue::Unset | AbstractValue::Number(_) => AbstractValue::Unset,
        },
    }
}

fn join_kinds(kinds: &mut [AbstractValue], others: &[AbstractValue])
    requires { length others.now ≡ length kinds.old }
    ensures { (number : ℕ) → kind_numbered kinds.new number
        ≡ joined_kind (kind_numbered kinds.old number) (kind_numbered others.now number) }
{
    for number in 0..kinds.len() {
        kinds[number] = joined(kinds[number], others[number]);
    }
}

fn no_entries() -> [AbstractValue; STACK_DWORDS]
    ensures { (dword : ℕ) → kind_numbered result dword ≡ kinds.Unset }
{
    [AbstractValue::Unset; STACK_DWORDS]
}

/// Takes away what is known of the double words of the stack's bytes from `first` on, before `end`.
#[tactic(auto, using(crate::proofs::KindLaws::forgotten))]
fn clear(kinds: &mut [AbstractValue; STACK_DWORDS], first: u32, end: u32)
    requires some { first ≤ end }
    requires inside { end ≤ STACK_BYTES }
    ensures { (other : ℕ) → kind_numbered kinds.new other ≡ cleared (kind_numbered kinds.old) first end other }
{
    for dword in first / 8..(end + 7) / 8 {
        kinds[dword as usize] = AbstractValue::Unset;
    }
}

/// What is known of each register.
#[derive(Clone, Copy)]
pub(crate) struct Kinds {
    pub(crate) list: [AbstractValue; REGISTERS],
}

/// What is known of each double word of the stack.
#[derive(Clone, Copy)]
pub(crate) struct Entries {
    pub(crate) kinds: [AbstractValue; STACK_DWORDS],
}

impl Entries {
    ghost use Rattle.std.specs.Prelude.{◌≡◌, IfOk};

    fn boxed(&self, alloc: Global) -> Result<Box<Entries>, AllocError>
        ensures { IfOk result (λ held. held.value ≡ self.now) }
    {
        Ok(Box::new(alloc, *self)?)
    }
}

#[tactic(auto, using(crate::proofs::KindLaws::joined_unset))]
fn join_entries(ours: &mut Option<Box<Entries>>, theirs: &Option<Box<Entries>>)
    ensures { (dword : ℕ) → kept_entry_in ours.new dword
        ≡ joined_kind (kept_entry_in ours.old dword) (kept_entry_in theirs.now dword) }
{
    match theirs {
        None => *ours = None,
        Some(held) => match ours {
            None => {}
            Some(mine) => join_kinds(&mut mine.kinds, &held.kinds),
        },
    }
}

/// The numbers below a limit that isn't 0.
pub(crate) fn below(limit: u32) -> Range
    requires { 1 ≤ limit }
    ensures { result ≡ span 0 (limit - 1) }
{
    up_to(u64::from(limit - 1))
}

/// The numbers up to one.
pub(crate) fn up_to(greatest: u64) -> Range
    ensures { result ≡ span 0 greatest }
{
    hull(Range::single(0), Range::single(greatest))
}

impl AbstractState {
    /// Returns what is known of a register.
    #[inline(always)]
    pub fn kind(&self, register: Reg) -> AbstractValue
        ensures { result ≡ kind_of (abstract_of self.now) register }
    {
        self.kinds.list[register.number() as usize]
    }

    /// Returns what is known of the register of a number, 0 to 10.
    pub fn kind_numbered(&self, number: u32) -> AbstractValue
        requires { number < REGISTERS }
        ensures { result ≡ (abstract_of self.now).kinds number }
    {
        self.kinds.list[number as usize]
    }

    /// A register is of a kind from now on.
    #[inline(always)]
    pub(crate) fn set_kind(&mut self, register: Reg, kind: AbstractValue)
        ensures { abstract_of self.new ≡ with_kind (abstract_of self.old) register kind }
    {
        self.kinds.list[register.number() as usize] = kind;
    }

    /// This many stack bytes are written too.
    #[inline(always)]
    pub(crate) fn write(&mut self, first: u32, count: u32)
        requires { first + count ≤ STACK_BYTES }
        ensures { abstract_of self.new ≡ with_written (abstract_of self.old) (Some first) count }
    {
        self.marks.add_all(first, count);
    }

    /// What is known of the double word that a stack byte is in.
    #[inline(always)]
    pub(crate) fn entry_of(&self, byte: u32) -> AbstractValue
        requires { byte < STACK_BYTES }
        ensures { result ≡ kept_entry_in self.now.entries (dword_of byte) }
    {
        match &self.entries {
            None => AbstractValue::Unset,
            Some(held) => held.kinds[(byte / 8) as usize],
        }
    }

    /// Returns what is known of the double word of this number, 0 to 63, of the stack: its bytes are those from eight
    /// times its number on.
    pub fn dword(&self, number: u32) -> AbstractValue
        requires { number < STACK_DWORDS }
        ensures { result ≡ (abstract_of self.now).entries number }
    {
        match &self.entries {
            None => AbstractValue::Unset,
            Some(held) => held.kinds[number as usize],
        }
    }

    /// Returns whether a stack byte, 0 to 511, is surely written.
    pub fn is_written(&self, byte: u32) -> bool
        requires { byte < STACK_BYTES }
        ensures { result ≡ (abstract_of self.now).written byte }
    {
        self.marks.has(byte)
    }

    /// Whether nothing is known of any double word.
    #[inline(always)]
    pub(crate) fn holds_none(&self) -> bool
        ensures { result ≡ true → (dword : ℕ) → kept_entry_in self.now.entries dword ≡ kinds.Unset }
    {
        self.entries.is_none()
    }

    fn set_entry(
        &mut self,
        alloc: Global,
        dword: u32,
        kind: AbstractValue,
    ) -> Result<(), AllocError>
        requires { 8 * dword < STACK_BYTES }
        ensures entries { OnOk result ((other : ℕ) → kept_entry_in self.new.entries other
            ≡ put_kind (kept_entry_in self.old.entries) dword kind other) }
        ensures kinds { self.new.kinds ≡ self.old.kinds }
        ensures marks { self.new.marks ≡ self.old.marks }
    {
        match &mut self.entries {
            Some(held) => held.kinds[dword as usize] = kind,
            empty => {
                let mut kinds = no_entries();
                kinds[dword as usize] = kind;
                *empty = Some(Box::new(alloc, Entries { kinds })?);
            }
        }
        Ok(())
    }

    /// The eight bytes from a place on hold a value.
    pub(crate) fn hold(
        &mut self,
        alloc: Global,
        first: u32,
        value: AbstractValue,
    ) -> Result<(), AllocError>
        requires { first + 8 ≤ STACK_BYTES }
        ensures { OnOk result (abstract_of self.new ≡ with_entry (abstract_of self.old) (Some first) value) }
    {
        match value {
            AbstractValue::Number(_) => self.marks.add_all(first, 8),
            AbstractValue::Unset | AbstractValue::Pointer(..) => self.marks.take_all(first, 8),
        }
        self.set_entry(alloc, first / 8, value)
    }

    /// Nothing is known any more of the double words of the stack's bytes from `first` on, before `end`.
    pub(crate) fn forget(&mut self, first: u32, end: u32)
        requires some { first ≤ end }
        requires inside { end ≤ STACK_BYTES }
        ensures { abstract_of self.new ≡ with_entries (abstract_of self.old)
            (cleared (abstract_of self.old).entries first end) }
    {
        match &mut self.entries {
            None => {}
            Some(held) => clear(&mut held.kinds, first, end),
        }
    }

    /// The same again.
    #[inline(always)]
    pub(crate) fn copied(&self, alloc: Global) -> Result<AbstractState, AllocError>
        ensures { IfOk result (λ known. abstract_of known ≡ abstract_of self.now) }
    {
        let mut entries = None;
        if let Some(held) = &self.entries {
            entries = Some(held.boxed(alloc)?);
        }
        Ok(AbstractState {
            kinds: self.kinds,
            marks: self.marks,
            entries,
        })
    }

    /// What is known where a run begins.
    pub(crate) fn entry(shape: Shape) -> AbstractState
        ensures { abstract_of result ≡ entry_state shape }
    {
        let mut kinds = [AbstractValue::Unset; REGISTERS];
        kinds[1] = AbstractValue::Pointer(Region::Mem, Range::single(0));
        kinds[2] = AbstractValue::Number(below(shape.nodes()));
        kinds[10] = AbstractValue::Pointer(Region::Stack, Range::single(u64::from(STACK_BYTES)));
        AbstractState {
            kinds: Kinds { list: kinds },
            marks: Marks::none(),
            entries: None,
        }
    }

    /// Leaves what is known of both.
    pub(crate) fn join(&mut self, other: &AbstractState)
        ensures { abstract_of self.new ≡ joined_state (abstract_of self.old) (abstract_of other.now) }
    {
        join_kinds(&mut self.kinds.list, &other.kinds.list);
        self.marks.keep_common(&other.marks);
        join_entries(&mut self.entries, &other.entries);
    }
}

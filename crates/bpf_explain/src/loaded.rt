//! What is known of the bytes that a load may take.

ghost use Rattle.std.specs.Prelude.{◌≡◌, ◌<◌, ◌≤◌, ◌++◌, ◌∷◌, [], IfSome, OnOk, string_bytes};
ghost use Rattle.bpf_insn.specs.Operands.{load_of};
ghost use Rattle.bpf_verify.specs.Findings.{abstract_of};
ghost use Rattle.bpf_explain.specs.Facts.{fact_list};
ghost use Rattle.bpf_explain.specs.Known.{first_unwritten, load_facts, taken_fact, written_fact};

use crate::access::stack_bytes;
use crate::fact::{Fact, add_fact};
use bpf_insn::{Access, Insn, load_of};
use bpf_verify::{AbstractState, is_unset, takes_dword};
use node_env::{STACK_BYTES, Shape};
use std::alloc::AllocError;

/// The first stack byte from one on, before an end, that may be unwritten.
#[tactic(auto, using(crate::proofs::Listing::unwritten_here, crate::proofs::Listing::unwritten_past, crate::proofs::Listing::unwritten_end))]
pub(crate) fn first_unwritten(known: &AbstractState, first: u32, end: u32) -> Option<u32>
    requires { end ≤ STACK_BYTES }
    ensures byte { result ≡ first_unwritten (abstract_of known.now) first end }
    ensures within { IfSome result (λ byte. (first ≤ byte) × (byte < end)) }
{
    for byte in first..end {
        if !known.is_written(byte) {
            return Some(byte);
        }
    }
    None
}

/// Adds whether the stack bytes that a load may take are written.
fn add_written_fact(
    told: &mut String,
    known: &AbstractState,
    first: u32,
    end: u32,
) -> Result<(), AllocError>
    requires some { first < end }
    requires inside { end ≤ STACK_BYTES }
    ensures { OnOk result (string_bytes told.new ≡ string_bytes told.old
        ++ fact_list (written_fact first end (first_unwritten (abstract_of known.now) first end) ∷ [])) }
{
    match first_unwritten(known, first, end) {
        Some(byte) => add_fact(told, Fact::MayLack { byte }),
        None => add_fact(
            told,
            Fact::HasWritten {
                first,
                last: end - 1,
            },
        ),
    }
}

/// Adds what is known of the stack bytes that a load may take.
fn add_taken_fact(
    told: &mut String,
    known: &AbstractState,
    first: u32,
    end: u32,
    whole: bool,
) -> Result<(), AllocError>
    requires some { first < end }
    requires inside { end ≤ STACK_BYTES }
    ensures { OnOk result (string_bytes told.new ≡ string_bytes told.old
        ++ fact_list (taken_fact (abstract_of known.now) first end whole ∷ [])) }
{
    if !whole || is_unset(known.dword(first / 8)) {
        return add_written_fact(told, known, first, end);
    }
    let kind = known.dword(first / 8);
    add_fact(
        told,
        Fact::Holds {
            first,
            last: end - 1,
            kind,
        },
    )
}

/// Adds what is known of the bytes that a load from the stack may take.
pub(crate) fn add_load_facts(
    told: &mut String,
    shape: Shape,
    insn: &Insn,
    known: &AbstractState,
) -> Result<(), AllocError>
    ensures { OnOk result (string_bytes told.new ≡ string_bytes told.old
        ++ fact_list (load_facts shape (abstract_of known.now) (load_of insn.now))) }
{
    let Some(Access { base, off, count }) = load_of(insn) else {
        return Ok(());
    };
    match stack_bytes(shape, known.kind(base), off, count) {
        None => Ok(()),
        Some((first, end)) => {
            let whole = takes_dword(known.kind(base), off, count);
            add_taken_fact(told, known, first, end, whole)
        }
    }
}

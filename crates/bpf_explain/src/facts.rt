//! Which facts are told of a slot.

ghost use Rattle.std.specs.Prelude.{◌≡◌, ◌<◌, ◌++◌, [], ◌∷◌, OnOk, map, string_bytes};
ghost use Rattle.bpf_insn.specs.Operands.{registers_in};
ghost use Rattle.bpf_verify.specs.Findings.{abstract_of};
ghost use Rattle.bpf_explain.specs.Facts.{fact_list};
ghost use Rattle.bpf_explain.specs.Known as known_facts;
ghost use Rattle.bpf_explain.specs.declared.fact.Fact.TheVariants.{NotReached};

use crate::fact::{Fact, add_fact};
use crate::loaded::{add_load_facts, first_unwritten};
use bpf_insn::{Insn, Reads, Reg};
use bpf_verify::{AbstractState, REGISTERS, is_unset, registers_of};
use node_env::{STACK_BYTES, STACK_DWORDS, Shape};
use parameters::Detail;
use std::alloc::AllocError;

fn add_register(told: &mut String, known: &AbstractState, register: Reg) -> Result<(), AllocError>
    ensures { OnOk result (string_bytes told.new ≡ string_bytes told.old
        ++ fact_list (known_facts.register_fact (abstract_of known.now) register ∷ [])) }
{
    let number = u32::from(register.number());
    let kind = known.kind(register);
    add_fact(told, Fact::Register { number, kind })
}

/// Adds what is known of registers.
#[tactic(auto, using(crate::proofs::Listing::listed_both))]
fn add_registers(
    told: &mut String,
    known: &AbstractState,
    registers: Reads,
) -> Result<(), AllocError>
    ensures { OnOk result (string_bytes told.new ≡ string_bytes told.old
        ++ fact_list (map (known_facts.register_fact (abstract_of known.now)) (registers_in registers))) }
{
    match registers {
        Reads::Nothing => Ok(()),
        Reads::One(first) => add_register(told, known, first),
        Reads::Two(first, second) => {
            add_register(told, known, first)?;
            add_register(told, known, second)
        }
    }
}

/// Adds what is known of what an instruction reads.
#[tactic(auto, using(crate::proofs::Listing::listed_both))]
fn add_read(
    told: &mut String,
    shape: Shape,
    insn: &Insn,
    known: &AbstractState,
) -> Result<(), AllocError>
    ensures { OnOk result (string_bytes told.new ≡ string_bytes told.old
        ++ fact_list (known_facts.read_facts shape insn.now (abstract_of known.now))) }
{
    add_registers(told, known, registers_of(insn))?;
    add_load_facts(told, shape, insn, known)
}

fn add_known_register(
    told: &mut String,
    known: &AbstractState,
    number: u32,
) -> Result<(), AllocError>
    requires { number < REGISTERS }
    ensures { OnOk result (string_bytes told.new ≡ string_bytes told.old
        ++ fact_list (known_facts.known_register number ((abstract_of known.now).kinds number))) }
{
    if is_unset(known.kind_numbered(number)) {
        return Ok(());
    }
    let kind = known.kind_numbered(number);
    add_fact(told, Fact::Register { number, kind })
}

fn add_known_registers(told: &mut String, known: &AbstractState) -> Result<(), AllocError>
    ensures { OnOk result (string_bytes told.new ≡ string_bytes told.old
        ++ fact_list (known_facts.register_facts (abstract_of known.now))) }
{
    for number in 0..REGISTERS as u32 {
        add_known_register(told, known, number)?;
    }
    Ok(())
}

fn add_dword(told: &mut String, known: &AbstractState, number: u32) -> Result<(), AllocError>
    requires { number < STACK_DWORDS }
    ensures { OnOk result (string_bytes told.new ≡ string_bytes told.old
        ++ fact_list (known_facts.known_dword number ((abstract_of known.now).entries number))) }
{
    if is_unset(known.dword(number)) {
        return Ok(());
    }
    let kind = known.dword(number);
    add_fact(told, Fact::Dword { number, kind })
}

fn add_dwords(told: &mut String, known: &AbstractState) -> Result<(), AllocError>
    ensures { OnOk result (string_bytes told.new ≡ string_bytes told.old
        ++ fact_list (known_facts.dword_facts (abstract_of known.now))) }
{
    for number in 0..STACK_DWORDS as u32 {
        add_dword(told, known, number)?;
    }
    Ok(())
}

/// Whether the byte before is written.
fn follows_written(known: &AbstractState, byte: u32) -> bool
    requires { byte < STACK_BYTES }
    ensures { result ≡ known_facts.follows_written (abstract_of known.now) byte }
{
    if byte == 0 {
        return false;
    }
    known.is_written(byte - 1)
}

fn begins_written(known: &AbstractState, byte: u32) -> bool
    requires { byte < STACK_BYTES }
    ensures { result ≡ known_facts.begins_written (abstract_of known.now) byte }
{
    known.is_written(byte) && !follows_written(known, byte)
}

/// The last of the bytes from one on that are written.
fn last_written(known: &AbstractState, byte: u32) -> u32
    requires { byte < STACK_BYTES }
    ensures { result ≡ known_facts.last_written (abstract_of known.now) byte }
{
    match first_unwritten(known, byte, STACK_BYTES) {
        Some(end) => end.saturating_sub(1),
        None => STACK_BYTES - 1,
    }
}

/// Adds the bytes from one on that are written, if that is the first of them.
fn add_written_from(told: &mut String, known: &AbstractState, byte: u32) -> Result<(), AllocError>
    requires { byte < STACK_BYTES }
    ensures { OnOk result (string_bytes told.new ≡ string_bytes told.old
        ++ fact_list (known_facts.written_from (abstract_of known.now) byte)) }
{
    if !begins_written(known, byte) {
        return Ok(());
    }
    let last = last_written(known, byte);
    add_fact(told, Fact::Written { first: byte, last })
}

fn add_written(told: &mut String, known: &AbstractState) -> Result<(), AllocError>
    ensures { OnOk result (string_bytes told.new ≡ string_bytes told.old
        ++ fact_list (known_facts.written_facts (abstract_of known.now))) }
{
    for byte in 0..STACK_BYTES {
        add_written_from(told, known, byte)?;
    }
    Ok(())
}

/// Adds all that is known.
#[tactic(auto, using(crate::proofs::Listing::listed_both))]
fn add_all(told: &mut String, known: &AbstractState) -> Result<(), AllocError>
    ensures { OnOk result (string_bytes told.new ≡ string_bytes told.old
        ++ fact_list (known_facts.all_facts (abstract_of known.now))) }
{
    add_known_registers(told, known)?;
    add_dwords(told, known)?;
    add_written(told, known)
}

/// Adds what is told of a slot that is reached.
pub(crate) fn add_facts(
    told: &mut String,
    detail: Detail,
    shape: Shape,
    insn: &Insn,
    known: &AbstractState,
) -> Result<(), AllocError>
    ensures { OnOk result (string_bytes told.new ≡ string_bytes told.old
        ++ fact_list (known_facts.facts_of detail shape insn.now (abstract_of known.now))) }
{
    match detail {
        Detail::Read => add_read(told, shape, insn, known),
        Detail::All => add_all(told, known),
    }
}

/// Adds what is told of a slot that nothing reaches.
pub(crate) fn add_unreached(told: &mut String) -> Result<(), AllocError>
    ensures { OnOk result (string_bytes told.new ≡ string_bytes told.old ++ fact_list (NotReached ∷ [])) }
{
    add_fact(told, Fact::NotReached)
}

//! Calls on programs: images, texts, the verifier and copies.

use crate::four::{ANNOUNCED, NODES, accepted, accepted_clock, clock, four_nodes};
use crate::shown::is_same;
use crate::stop::{Ended, Stop, Wrong, expect, stubbornly};
use bench_core::Change;
use bpf_asm::{TextError, assemble, disassemble};
use bpf_insn::{ImageError, Program, decode, encode};
use bpf_verify::{VerifyError, check};
use std::alloc::Global;

/// Tries that the image that is decoded is that of this program.
pub fn decodes(alloc: Global) -> Result<Ended, Stop> {
    let clock = clock(alloc, &four_nodes())?;
    let image = encode(alloc, &clock)?;
    let (program, ended) = stubbornly(|| decoded(alloc, image.as_slice()))?;
    expect(program.same(&clock), Wrong::Answer)?;
    Ok(ended)
}

fn decoded(alloc: Global, image: &[u8]) -> Result<Program, Stop> {
    match decode(alloc, image) {
        Ok(program) => Ok(program),
        Err(ImageError::Memory) => Err(Stop::Memory),
        Err(_) => Err(Stop::Wrong(Wrong::Refusal)),
    }
}

/// A slot, and half of one.
const CUT: [u8; 12] = [0xb7, 0, 0, 0, 7, 0, 0, 0, 0x95, 0, 0, 0];

/// Tries that a fault of an image is reported without memory.
pub fn decodes_a_fault(alloc: Global) -> Result<Ended, Stop> {
    let refusal = decode(alloc, &CUT).err();
    expect(refusal == Some(ImageError::Truncated(1)), Wrong::Answer)?;
    Ok(Ended::AtOnce)
}

/// Tries that the program's text means the program.
pub fn assembles(alloc: Global) -> Result<Ended, Stop> {
    let clock = clock(alloc, &four_nodes())?;
    let (text, printed) = stubbornly(|| Ok(disassemble(alloc, &clock)?))?;
    let (program, read) = stubbornly(|| assembled(alloc, text.as_bytes()))?;
    expect(program.same(&clock), Wrong::Answer)?;
    Ok(printed.and(read))
}

fn assembled(alloc: Global, text: &[u8]) -> Result<Program, Stop> {
    match assemble(alloc, text) {
        Ok(program) => Ok(program),
        Err(TextError::Memory) => Err(Stop::Memory),
        Err(_) => Err(Stop::Wrong(Wrong::Refusal)),
    }
}

/// The second line names no label.
const NO_LABEL: &[u8] = b"again: mov64 r0, 7\nja agin\nexit\n";

/// Tries the fault of a text.
pub fn assembles_a_fault(alloc: Global) -> Result<Ended, Stop> {
    let (fault, ended) = stubbornly(|| fault_of(alloc, NO_LABEL))?;
    expect(fault == Some(TextError::UnknownLabel(2)), Wrong::Answer)?;
    Ok(ended)
}

fn fault_of(alloc: Global, text: &[u8]) -> Result<Option<TextError>, Stop> {
    match assemble(alloc, text) {
        Ok(_) => Ok(None),
        Err(TextError::Memory) => Err(Stop::Memory),
        Err(fault) => Ok(Some(fault)),
    }
}

/// Tries that the accepted program is the one that was to be accepted, with its count.
pub fn verifies(alloc: Global) -> Result<Ended, Stop> {
    let four = four_nodes();
    let clock = clock(alloc, &four)?;
    let (program, ended) = stubbornly(|| accepted(alloc, &clock, &four))?;
    expect(program.program().same(&clock), Wrong::Answer)?;
    expect(program.shape() == four.shape, Wrong::Answer)?;
    expect(program.budget() == ANNOUNCED, Wrong::Answer)?;
    Ok(ended)
}

/// Tries that the count that is judged is the announced one.
pub fn judges(alloc: Global) -> Result<Ended, Stop> {
    let four = four_nodes();
    let clock = clock(alloc, &four)?;
    let (verdict, ended) = stubbornly(|| match check(alloc, &clock, four.shape) {
        Err(VerifyError::Memory) => Err(Stop::Memory),
        verdict => Ok(verdict),
    })?;
    expect(verdict == Ok(ANNOUNCED), Wrong::Answer)?;
    Ok(ended)
}

/// Tries that a copied program is the same.
pub fn copies_a_program(alloc: Global) -> Result<Ended, Stop> {
    let clock = clock(alloc, &four_nodes())?;
    let (copy, ended) = stubbornly(|| Ok(clock.copy(alloc)?))?;
    expect(copy.same(&clock), Wrong::Answer)?;
    Ok(ended)
}

/// Tries that copied changes are the same, and that a load is copied without memory.
pub fn copies_changes(alloc: Global) -> Result<Ended, Stop> {
    let load = Change::Load {
        node: NODES - 1,
        program: accepted_clock(alloc, &four_nodes())?,
    };
    let copy = load.copy(alloc).map_err(|_| Stop::Wrong(Wrong::Want))?;
    expect(is_same(&copy, &load), Wrong::Answer)?;
    let image = Vec::from_slice(alloc, &[3, 0, 0, 0, 1, 0, 0, 0])?;
    let corrupt = Change::Corrupt { node: 0, image };
    let (copy, ended) = stubbornly(|| Ok(corrupt.copy(alloc)?))?;
    expect(is_same(&copy, &corrupt), Wrong::Answer)?;
    Ok(ended)
}

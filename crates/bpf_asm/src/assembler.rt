//! From text to program.

ghost use Rattle.std.specs.Prelude.{◌≡◌, ◌≢◌, ◌≤◌, ◌<◌, ◌⊎◌, ◌∷◌, ◌++◌, [], ◌+◌, pos, ◌-ℤ◌, List, Some, None, OnOk};
ghost use Rattle.std.specs.Prelude.{IfOk, IfErr, MatchResult};
ghost use Rattle.bpf_insn.specs.declared.forms.Insn.{Insn};
ghost use Rattle.bpf_insn.specs.declared.listing.TheConstants.{MAX_SLOTS};
ghost use Rattle.bpf_asm.specs.Meaning.{lines_in, Means, insn_by, insns_from};
ghost use Rattle.bpf_asm.specs.inner.Meaning.{Resolves, Near, known, insns_found};
ghost use Rattle.bpf_asm.specs.Meaning.{with_distance, insns_of};
ghost use Rattle.bpf_asm.specs.inner.Meaning.{slots_found, slots_of_lines, RefusesText, HasPlaces};
ghost use Rattle.bpf_insn.specs.Programs.{slots_of};
ghost use Rattle.bpf_asm.specs.inner.Statements.{source_in, source_written};

use crate::labels::{Labels, next_line, read_labels};
use crate::operands::Fault;
use crate::statements::Source;
use crate::text_error::TextError;
use bpf_insn::{Insn, MAX_SLOTS, Program, ProgramError, program_of};
use std::alloc::{AllocError, Global};

/// The jump with this distance.
fn with_distance(off: i16, insn: Insn) -> Insn
    ensures { result ≡ with_distance off insn }
{
    match insn {
        Insn::Ja { .. } => Insn::Ja { off },
        Insn::JaLong { .. } => Insn::JaLong {
            off: i32::from(off),
        },
        Insn::Branch {
            cond,
            width,
            dst,
            src,
            ..
        } => Insn::Branch {
            cond,
            width,
            dst,
            src,
            off,
        },
        Insn::Alu { .. }
        | Insn::Neg { .. }
        | Insn::Movsx { .. }
        | Insn::Swap { .. }
        | Insn::Call { .. }
        | Insn::Exit
        | Insn::Load { .. }
        | Insn::LoadSx { .. }
        | Insn::StoreReg { .. }
        | Insn::StoreImm { .. }
        | Insn::LoadImm64 { .. } => insn,
    }
}

/// The distance from a jump at a slot to a target: it counts from the next slot.
fn distance_to(target: usize, slot: usize) -> i16
    requires target { target ≤ MAX_SLOTS }
    requires at { slot ≤ MAX_SLOTS }
    ensures { result ≡ pos target -ℤ pos (slot + 1) }
{
    (target as i16) - (slot as i16 + 1)
}

/// The instruction at a slot: a jump to a label gets its distance.
fn insn_at(labels: &Labels, slot: usize, source: Source<'_>) -> Option<Insn>
    requires at { slot ≤ MAX_SLOTS }
    requires near { Near (known labels.now) }
    ensures { result ≡ insn_by (known labels.now) slot (source_in source.entry) }
{
    let Some(name) = source.label else {
        return Some(source.insn);
    };
    let Some(target) = labels.slot_of(name) else {
        return None;
    };
    Some(with_distance(distance_to(target, slot), source.insn))
}

/// The instruction of a line at a slot, if it has one.
fn resolve(
    labels: &Labels,
    slot: usize,
    source: Result<Option<Source<'_>>, Fault>,
    line: usize,
) -> Result<Option<Insn>, TextError>
    requires at { slot ≤ MAX_SLOTS }
    requires near { Near (known labels.now) }
    ensures { Resolves labels.now slot (source_written source.entry) result }
{
    let source = match source {
        Ok(Some(source)) => source,
        Ok(None) => return Ok(None),
        Err(fault) => return Err(TextError::at(fault, line)),
    };
    let Some(insn) = insn_at(labels, slot, source) else {
        return Err(TextError::UnknownLabel(line));
    };
    if slot + insn.slots() > MAX_SLOTS {
        return Err(TextError::TooLong(line));
    }
    Ok(Some(insn))
}

/// Adds a line's instruction, if it has one. Gives its slots.
fn add_insn(insns: &mut Vec<Insn>, found: Option<Insn>) -> Result<usize, AllocError>
    ensures insns { OnOk result (insns.new.items ≡ insns.old.items ++ insns_found found) }
    ensures slots { IfOk result (λ slots. slots ≡ slots_found found) }
{
    match found {
        Some(insn) => {
            insns.push(insn)?;
            Ok(insn.slots())
        }
        None => Ok(0),
    }
}

/// The instructions of a text.
fn read_insns(alloc: Global, text: &[u8], labels: &Labels) -> Result<Vec<Insn>, TextError>
    requires near { Near (known labels.now) }
    ensures insns { IfOk result (λ insns. insns_from (known labels.now) 0 (lines_in text.now) ≡ Some insns.items) }
    ensures few { OnOk result (slots_of_lines (lines_in text.now) ≤ MAX_SLOTS) }
    ensures refusal { IfErr result (RefusesText (known labels.now) (lines_in text.now)) }
{
    let mut insns = Vec::new(alloc);
    let mut rest = Some(text);
    let mut slot = 0;
    let mut line = 1;
    while let Some(front) = rest {
        let (said, behind) = next_line(front);
        let found = resolve(labels, slot, said.source, line)?;
        slot += add_insn(&mut insns, found)?;
        line += 1;
        rest = behind;
    }
    Ok(insns)
}

/// The instructions of a text whose labels are a map.
fn insns_of(alloc: Global, text: &[u8]) -> Result<Vec<Insn>, TextError>
    ensures insns { IfOk result (λ insns. insns_of text.now ≡ Some insns.items) }
    ensures few { IfOk result (λ insns. slots_of insns.items ≤ MAX_SLOTS) }
    ensures refusal { IfErr result (λ e. e ≢ TextError.Memory → (p : List Insn) → Means text.now p → ⊥) }
{
    let labels = read_labels(alloc, text)?;
    match read_insns(alloc, text, &labels) {
        Ok(insns) => match labels.twice {
            None => Ok(insns),
            Some(line) => Err(TextError::LabelTwice(line)),
        },
        Err(error) => match labels.twice {
            None => Err(error),
            Some(line) => Err(error.first(TextError::LabelTwice(line))),
        },
    }
}

/// Assembles a text: returns the program that it means, or why it means none.
pub fn assemble(alloc: Global, text: &[u8]) -> Result<Program, TextError>
    ensures program { IfOk result (Means text.now) }
    ensures only_program { (p : List Insn) → Means text.now p →
        MatchResult result (λ q. q ≡ p) (λ e. e ≡ TextError.Memory) }
{
    let insns = insns_of(alloc, text)?;
    match program_of(alloc, insns) {
        Ok(program) => Ok(program),
        Err((_, ProgramError::Empty)) => Err(TextError::Empty),
        Err((_, ProgramError::TooLong)) => unreachable!(),
        Err((_, ProgramError::Memory)) => Err(TextError::Memory),
    }
}

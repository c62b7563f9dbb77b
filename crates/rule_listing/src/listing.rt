//! The rows of a listing.
ghost use Rattle.std.specs.Prelude.{◌≡◌, ◌≤◌, ◌++◌, IfOk, OnOk, codes};
ghost use Rattle.std.specs.Fmt.{decimal};
ghost use Rattle.bpf_asm.specs.Listing.{bytes_at};
ghost use Rattle.bpf_insn.specs.declared.listing.TheConstants.{MAX_SLOTS};
ghost use Rattle.rule_listing.specs.Listing.{heading_by, slot_text, line_at, rule_listing};

use crate::lines::line_after;
use bpf_asm::CanonicalLine;
use bpf_insn::{Insn, Program, encode};
use std::alloc::{AllocError, Global};

/// Returns the line of the instruction at a slot, where entry k of `lines` is for slot k + 1; 0 if it is of no line.
pub fn line_at(lines: &[usize], slot: usize) -> usize
    ensures { result ≡ line_at lines.now slot }
{
    if slot == 0 || lines.len() < slot {
        0
    } else {
        lines[slot - 1]
    }
}

/// Adds the row of a line of this number.
fn push_line(
    alloc: Global,
    listing: &mut Vec<u8>,
    line: usize,
    text: &[u8],
) -> Result<(), AllocError>
    ensures { OnOk result (listing.new.items ≡ listing.old.items
        ++ (codes "line " ++ (decimal line ++ (codes " " ++ (text.now ++ codes "\n"))))) }
{
    let front = format!(in alloc; "line {line} ")?;
    listing.extend_from_slice(front.as_bytes())?;
    listing.extend_from_slice(text)?;
    listing.extend_from_slice(b"\n")
}

/// Adds the row of a line of this text if the instruction before is of another one; 0 is the end. Fails only if memory
/// runs out.
#[tactic(auto, using(crate::proofs::LineLemmas::heading_of))]
pub fn push_heading(
    alloc: Global,
    listing: &mut Vec<u8>,
    text: &[u8],
    before: usize,
    line: usize,
) -> Result<(), AllocError>
    ensures { OnOk result (listing.new.items ≡ listing.old.items ++ heading_by text.now before line) }
{
    if before == line {
        return Ok(());
    }
    if line == 0 {
        return listing.extend_from_slice(b"end\n");
    }
    push_line(alloc, listing, line, line_after(text, line - 1))
}

/// Returns the bytes of this many slots of an image.
fn bytes_at(image: &[u8], slot: usize, slots: usize) -> &[u8]
    requires at { slot ≤ MAX_SLOTS }
    requires few { slots ≤ 2 }
    ensures { result.now ≡ bytes_at image.now slot slots }
{
    let (_, from_slot) = image.split_at((8 * slot).min(image.len()));
    let (bytes, _) = from_slot.split_at((8 * slots).min(from_slot.len()));
    bytes
}

/// Adds the row of the instruction that is found at a slot.
fn push_insn(
    alloc: Global,
    listing: &mut Vec<u8>,
    image: &[u8],
    slot: u32,
    found: Option<Insn>,
) -> Result<(), AllocError>
    requires { slot ≤ MAX_SLOTS }
    ensures { OnOk result (listing.new.items ≡ listing.old.items ++ slot_text image.now slot found) }
{
    let Some(insn) = found else {
        return Ok(());
    };
    let bytes = hex::encode(alloc, bytes_at(image, slot as usize, insn.slots()))?;
    let row = format!(in alloc; "slot {slot} {bytes} {}\n", CanonicalLine { insn })?;
    listing.extend_from_slice(row.as_bytes())
}

/// Returns the listing of the program of a rule's text (docs/RULES.md, "Lines and instructions"): a row for each
/// instruction, and above it the row of its line if the instruction before is of another one. Entry k of `lines` is for
/// slot k + 1. Fails only if memory runs out.
pub fn list_rule(
    alloc: Global,
    text: &[u8],
    lines: &[usize],
    program: &Program,
) -> Result<Vec<u8>, AllocError>
    ensures { IfOk result (λ listing. listing.items ≡ rule_listing text.now lines.now program.now) }
{
    let image = encode(alloc, program)?;
    let mut listing = Vec::new(alloc);
    let mut before = 0;
    for slot in 0..program.slot_count() {
        let line = line_at(lines, slot as usize);
        push_heading(alloc, &mut listing, text, before, line)?;
        push_insn(
            alloc,
            &mut listing,
            image.as_slice(),
            slot,
            program.insn_at(slot),
        )?;
        before = line;
    }
    Ok(listing)
}

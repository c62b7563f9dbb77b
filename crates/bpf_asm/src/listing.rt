//! Texts and programs with the slots and the bytes of their instructions beside them.

ghost use Rattle.std.specs.Prelude.{◌≡◌, ◌≤◌, ◌*◌, ◌++◌, IfOk, OnOk, if◌then◌else◌, ◌==◌, not, drop, replicate, take, length, codes};
ghost use Rattle.std.specs.Fmt.{decimal};
ghost use Rattle.bpf_insn.specs.Programs.{image_of};
ghost use Rattle.bpf_insn.specs.declared.listing.TheConstants.{MAX_SLOTS};
ghost use Rattle.bpf_asm.specs.Listing.{bytes_at, columns_by, insn_row, instruction_lines, line_row, on_left, on_right, program_listing, slot_columns, text_listing};
ghost use Rattle.bpf_asm.specs.inner.Listing.{left_of, listed_in, number_by};

use crate::labels::slots_in;
use crate::line::CanonicalLine;
use crate::pieces::first_piece;
use crate::statements::read_line;
use bpf_insn::{Insn, Program, encode};
use itoa::Buffer;
use std::alloc::{AllocError, Global};

/// The least bytes of the column of a line's number, of a slot, and of the bytes of an instruction.
const LINE_WIDTH: usize = 7;

const SLOT_WIDTH: usize = 4;

const BYTES_WIDTH: usize = 32;

fn push_blanks(row: &mut Vec<u8>, count: usize) -> Result<(), AllocError>
    ensures { OnOk result (row.new.items ≡ row.old.items ++ replicate count 32) }
{
    for _blank in 0..count {
        row.extend_from_slice(b" ")?;
    }
    Ok(())
}

/// Adds a text with blanks in front of it.
fn push_right(row: &mut Vec<u8>, width: usize, text: &[u8]) -> Result<(), AllocError>
    ensures { OnOk result (row.new.items ≡ row.old.items ++ on_right width text.now) }
{
    push_blanks(row, width.saturating_sub(text.len()))?;
    row.extend_from_slice(text)
}

/// Adds a text with blanks after it.
fn push_left(row: &mut Vec<u8>, width: usize, text: &[u8]) -> Result<(), AllocError>
    ensures { OnOk result (row.new.items ≡ row.old.items ++ on_left width text.now) }
{
    row.extend_from_slice(text)?;
    push_blanks(row, width.saturating_sub(text.len()))
}

/// Adds a number with blanks in front of it.
fn push_number(row: &mut Vec<u8>, width: usize, number: usize) -> Result<(), AllocError>
    ensures { OnOk result (row.new.items ≡ row.old.items ++ on_right width (decimal number)) }
{
    let mut digits = Buffer::new();
    push_right(row, width, digits.format(number).as_bytes())
}

/// Adds the columns of an instruction that has these bytes.
fn push_columns(
    alloc: Global,
    row: &mut Vec<u8>,
    slot: usize,
    bytes: &[u8],
) -> Result<(), AllocError>
    ensures { OnOk result (row.new.items ≡ row.old.items ++ slot_columns slot bytes.now) }
{
    push_number(row, SLOT_WIDTH, slot)?;
    row.extend_from_slice(b" ")?;
    let digits = hex::encode(alloc, bytes)?;
    push_left(row, BYTES_WIDTH, digits.as_bytes())
}

/// The first bytes of an image, those of this many slots, and the bytes after them.
fn split_image(image: &[u8], slots: usize) -> (&[u8], &[u8])
    requires { slots ≤ 2 }
    ensures own { result.0.now ≡ take (8 * slots) image.now }
    ensures behind { result.1.now ≡ drop (8 * slots) image.now }
{
    image.split_at((8 * slots).min(image.len()))
}

/// A line of a text, with the slots of the lines before it and those of its own instruction.
#[derive(Clone, Copy)]
pub(crate) struct ListedLine<'a> {
    number: usize,
    slot: usize,
    slots: usize,
    text: &'a [u8],
}

/// Adds the columns of a line's instruction, or blanks if it has none.
fn push_line_columns(
    alloc: Global,
    row: &mut Vec<u8>,
    slot: usize,
    slots: usize,
    bytes: &[u8],
) -> Result<(), AllocError>
    ensures { OnOk result (row.new.items ≡ row.old.items ++ columns_by slot slots bytes.now) }
{
    if slots == 0 {
        push_blanks(row, SLOT_WIDTH + 1 + BYTES_WIDTH)
    } else {
        push_columns(alloc, row, slot, bytes)
    }
}

/// Adds the row of a line whose instruction has these bytes.
fn push_row(
    alloc: Global,
    listing: &mut Vec<u8>,
    line: ListedLine<'_>,
    bytes: &[u8],
) -> Result<(), AllocError>
    ensures { OnOk result (listing.new.items ≡ listing.old.items ++ line_row (listed_in line.entry) bytes.now) }
{
    push_number(listing, LINE_WIDTH, line.number)?;
    listing.extend_from_slice(b" ")?;
    push_line_columns(alloc, listing, line.slot, line.slots, bytes)?;
    listing.extend_from_slice(b" ")?;
    listing.extend_from_slice(line.text)?;
    listing.extend_from_slice(b"\n")
}

/// The bytes after a line.
fn left_of(behind: Option<&[u8]>) -> &[u8]
    ensures { result.now ≡ left_of behind.entry }
{
    match behind {
        Some(rest) => rest,
        None => &[],
    }
}

/// Returns the listing of a text that means the program of this image: a row for each line (docs/ASSEMBLER.md,
/// "Listings"). Fails only if memory runs out.
pub fn list_text(alloc: Global, text: &[u8], image: &[u8]) -> Result<Vec<u8>, AllocError>
    ensures { IfOk result (λ listing. listing.items ≡ text_listing text.now image.now) }
{
    let mut listing = Vec::new(alloc);
    let mut rest = text;
    let mut image = image;
    let mut number = 1;
    let mut slot = 0;
    while !rest.is_empty() {
        let (line, behind) = first_piece(rest, b'\n');
        let slots = slots_in(read_line(line).source);
        let (bytes, image_behind) = split_image(image, slots);
        let row = ListedLine {
            number,
            slot,
            slots,
            text: line,
        };
        push_row(alloc, &mut listing, row, bytes)?;
        number += 1;
        slot += slots;
        image = image_behind;
        rest = left_of(behind);
    }
    Ok(listing)
}

/// Adds the number of a line whose instruction takes this many slots, none if it has none.
fn add_number(lines: &mut Vec<usize>, number: usize, slots: usize) -> Result<(), AllocError>
    ensures { OnOk result (lines.new.items ≡ lines.old.items ++ number_by number slots) }
{
    if slots != 0 {
        lines.push(number)?;
    }
    Ok(())
}

/// Returns for each instruction of a text in order the number of its line, from 1 on. Fails only if memory runs out.
pub fn instruction_lines(alloc: Global, text: &[u8]) -> Result<Vec<usize>, AllocError>
    ensures { IfOk result (λ lines. lines.items ≡ instruction_lines text.now) }
{
    let mut lines = Vec::new(alloc);
    let mut rest = text;
    let mut number = 1;
    while !rest.is_empty() {
        let (line, behind) = first_piece(rest, b'\n');
        add_number(&mut lines, number, slots_in(read_line(line).source))?;
        number += 1;
        rest = left_of(behind);
    }
    Ok(lines)
}

/// Adds the row of the instruction that is found at a slot.
fn push_insn_row(
    alloc: Global,
    listing: &mut Vec<u8>,
    image: &[u8],
    slot: u32,
    found: Option<Insn>,
) -> Result<(), AllocError>
    requires { slot ≤ MAX_SLOTS }
    ensures { OnOk result (listing.new.items ≡ listing.old.items ++ insn_row image.now slot found) }
{
    let Some(insn) = found else {
        return Ok(());
    };
    let bytes = bytes_at(image, slot as usize, insn.slots());
    push_columns(alloc, listing, slot as usize, bytes)?;
    let line = format!(in alloc; " {}\n", CanonicalLine { insn })?;
    listing.extend_from_slice(line.as_bytes())
}

/// The bytes of this many slots.
fn bytes_at(image: &[u8], slot: usize, slots: usize) -> &[u8]
    requires at { slot ≤ MAX_SLOTS }
    requires few { slots ≤ 2 }
    ensures { result.now ≡ bytes_at image.now slot slots }
{
    let (_, from_slot) = image.split_at((8 * slot).min(image.len()));
    let (bytes, _) = split_image(from_slot, slots);
    bytes
}

/// Returns the listing of a program: a row for each instruction (docs/ASSEMBLER.md, "Listings"). Fails only if memory
/// runs out.
pub fn list_program(alloc: Global, program: &Program) -> Result<Vec<u8>, AllocError>
    ensures { IfOk result (λ listing. listing.items ≡ program_listing program.now) }
{
    let image = encode(alloc, program)?;
    let mut listing = Vec::new(alloc);
    for slot in 0..program.slot_count() {
        push_insn_row(
            alloc,
            &mut listing,
            image.as_slice(),
            slot,
            program.insn_at(slot),
        )?;
    }
    Ok(listing)
}

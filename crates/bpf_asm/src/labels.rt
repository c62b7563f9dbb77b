//! The labels of a text.

ghost use Rattle.std.specs.Prelude.{◌≡◌, ◌≤◌, ◌<◌, ◌+◌, ◌∷◌, ◌++◌, [], ℕ, Some, IfOk, IfSome, OnOk, length};
ghost use Rattle.bpf_insn.specs.declared.listing.TheConstants.{MAX_SLOTS};
ghost use Rattle.bpf_asm.specs.Meaning.{lines_in, source_slots, Places, place_at};
ghost use Rattle.bpf_asm.specs.inner.Meaning.{lines_left, near_places, near, HasPlaces};
ghost use Rattle.bpf_asm.specs.inner.Statements.{line_in, name_in, source_written};

use crate::operands::Fault;
use crate::pieces::first_piece;
use crate::statements::{Line, Source, read_line};
use bpf_insn::MAX_SLOTS;
use std::alloc::{AllocError, Global};
use std::collections::BTreeMap;

/// The slots of the labels, [`MAX_SLOTS`] for all that are further on, and the line of the first label that is
/// a second time.
#[derive(Drop)]
pub struct Labels<'a> {
    pub slots: BTreeMap<&'a [u8], usize>,
    pub twice: Option<usize>,
}

/// Returns what the first line says, and the text after its end.
pub fn next_line(text: &[u8]) -> (Line<'_>, Option<&[u8]>)
    ensures lines { lines_in text.now ≡ line_in result.0 ∷ lines_left result.1 }
    ensures shorter { IfSome result.1 (λ rest. length rest.now < length text.now) }
{
    let (line, rest) = first_piece(text, b'\n');
    (read_line(line), rest)
}

/// The slots of a line's instruction.
pub(crate) fn slots_in(source: Result<Option<Source<'_>>, Fault>) -> usize
    ensures { result ≡ source_slots (source_written source.entry) }
{
    match source {
        Ok(Some(source)) => source.insn.slots(),
        Ok(None) | Err(_) => 0,
    }
}

/// The slot after these slots, as labels count.
fn next_slot(slot: usize, slots: usize) -> usize
    requires at { slot ≤ MAX_SLOTS }
    requires few { slots ≤ 2 }
    ensures next { result ≡ near (slot + slots) }
    ensures within { result ≤ MAX_SLOTS }
{
    (slot + slots).min(MAX_SLOTS)
}

/// Adds a label; one that is there stays.
fn add_label<'a>(
    labels: &mut Labels<'a>,
    name: &'a [u8],
    slot: usize,
    line: usize,
) -> Result<(), AllocError>
    ensures { (places : Places) → HasPlaces labels.old places →
        OnOk result (HasPlaces labels.new (places ++ (name.now, slot) ∷ [])) }
{
    if labels.slots.contains_key(name) {
        labels.twice = labels.twice.or(Some(line));
    } else {
        labels.slots.insert(name, slot)?;
    }
    Ok(())
}

/// Adds a line's label, if it has one.
fn add_name<'a>(
    labels: &mut Labels<'a>,
    name: Option<&'a [u8]>,
    slot: usize,
    line: usize,
) -> Result<(), AllocError>
    ensures { (places : Places) → HasPlaces labels.old places →
        OnOk result (HasPlaces labels.new (places ++ place_at (name_in name.entry) slot)) }
{
    match name {
        Some(name) => add_label(labels, name, slot, line),
        None => Ok(()),
    }
}

/// Reads the labels of a text.
pub fn read_labels(alloc: Global, text: &[u8]) -> Result<Labels<'_>, AllocError>
    ensures { IfOk result (λ labels. HasPlaces labels (near_places 0 (lines_in text.now))) }
{
    let mut labels = Labels {
        slots: BTreeMap::new(alloc),
        twice: None,
    };
    let mut rest = Some(text);
    let mut slot = 0;
    let mut line = 1;
    while let Some(front) = rest {
        let (said, behind) = next_line(front);
        add_name(&mut labels, said.name, slot, line)?;
        slot = next_slot(slot, slots_in(said.source));
        line += 1;
        rest = behind;
    }
    Ok(labels)
}

impl Labels<'_> {
    ghost use Rattle.std.specs.Prelude.{◌≡◌, ◌≤◌, IfSome};
    ghost use Rattle.bpf_insn.specs.declared.listing.TheConstants.{MAX_SLOTS};
    ghost use Rattle.bpf_asm.specs.inner.Meaning.{known, Near};

    /// Returns the slot of a label.
    pub fn slot_of(&self, name: &[u8]) -> Option<usize>
        requires near { Near (known self.now) }
        ensures slot { result ≡ known self.now name.now }
        ensures within { IfSome result (λ slot. slot ≤ MAX_SLOTS) }
    {
        self.slots.get(name).copied()
    }
}

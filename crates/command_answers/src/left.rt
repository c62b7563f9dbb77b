//! What a run leaves, and the lines that show it.
ghost use Rattle.std.specs.Prelude.{◌≡◌, ◌++◌, IfOk, OnOk, codes, flat_map, string_bytes};
ghost use Rattle.command_answers.specs.Left.{left_lines, mail_text, mail_slot_text, slots_below};
ghost use Rattle.command_answers.specs.inner.Left.{left_in};

use node_env::Outbox;
use std::alloc::{AllocError, Global};
use std::fmt::Write;

/// The memory of the node and what it sent.
#[derive(Drop)]
pub struct LeftByRun {
    pub memory: Vec<u8>,
    pub outbox: Outbox,
}

/// Returns what was sent to each node, in their order.
fn slots_of(alloc: Global, outbox: &Outbox) -> Result<Vec<Option<u32>>, AllocError>
    ensures { IfOk result (λ slots. slots.items ≡ slots_below outbox.now.sent outbox.now.nodes) }
{
    let mut slots = Vec::new(alloc);
    for receiver in 0..outbox.nodes() {
        slots.push(outbox.slot(receiver))?;
    }
    Ok(slots)
}

fn add_slot(text: &mut String, slot: Option<u32>) -> Result<(), AllocError>
    ensures { OnOk result (string_bytes text.new ≡ string_bytes text.old ++ mail_slot_text slot) }
{
    match slot {
        None => text.push_str("-"),
        Some(number) => write!(text, "{number}"),
    }
}

fn add_more(text: &mut String, slots: &[Option<u32>]) -> Result<(), AllocError>
    ensures { OnOk result (string_bytes text.new ≡ string_bytes text.old
        ++ flat_map (λ slot. codes "," ++ mail_slot_text slot) slots.now) }
{
    for slot in slots {
        text.push_str(",")?;
        add_slot(text, *slot)?;
    }
    Ok(())
}

/// Adds the slots, with commas between them.
pub fn add_mail(text: &mut String, slots: &[Option<u32>]) -> Result<(), AllocError>
    ensures { OnOk result (string_bytes text.new ≡ string_bytes text.old ++ mail_text slots.now) }
{
    let Some((first, rest)) = slots.split_first() else {
        return Ok(());
    };
    add_slot(text, *first)?;
    add_more(text, rest)
}

/// Adds the line of the memory and that of what was sent.
pub fn add_left(alloc: Global, text: &mut String, left: &LeftByRun) -> Result<(), AllocError>
    ensures { OnOk result (string_bytes text.new ≡ string_bytes text.old ++ left_lines (left_in left.now)) }
{
    let memory = hex::encode(alloc, left.memory.as_slice())?;
    write!(text, "memory {memory}\nsent ")?;
    let slots = slots_of(alloc, &left.outbox)?;
    add_mail(text, &slots)?;
    text.push_str("\n")
}

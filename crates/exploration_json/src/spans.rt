//! Spans of numbers and bytes, and starts, as values of JSON.
ghost use Rattle.std.specs.Prelude.{◌≡◌, ◌∷◌, [], IfOk, OnOk, map};
ghost use Rattle.serde_json.specs.View.{members_view, view};
ghost use Rattle.json_values.specs.Values.{list_data, option_data, with_members};
ghost use Rattle.exploration_json.specs.Data.{any_data, byte_span_data, cells_data, image_data, memories_member, span_data, spans_data, start_data};

use explored::{AnyStart, ByteSpan, Cells, MailSpan, Memories, Starts};
use json_values::numbers;
use serde_json::{Map, Value, put};
use std::alloc::{AllocError, Global};

/// Returns the first number and the last.
fn span_value(alloc: Global, span: MailSpan) -> Result<Value, AllocError>
    ensures { IfOk result (λ v. view v ≡ span_data span) }
{
    numbers(alloc, &[span.first, span.last])
}

/// Returns the first byte and the last.
fn byte_span_value(alloc: Global, span: ByteSpan) -> Result<Value, AllocError>
    ensures { IfOk result (λ v. view v ≡ byte_span_data span) }
{
    numbers(alloc, &[u32::from(span.first), u32::from(span.last)])
}

/// Returns the spans.
pub(crate) fn spans_value(alloc: Global, spans: &[MailSpan]) -> Result<Value, AllocError>
    ensures { IfOk result (λ v. view v ≡ spans_data spans.now) }
{
    let mut values = Vec::with_capacity(alloc, spans.len())?;
    for span in spans {
        values.push(span_value(alloc, *span)?)?;
    }
    Ok(Value::Array(values))
}

/// Returns the spans of bytes.
fn byte_spans_value(alloc: Global, spans: &[ByteSpan]) -> Result<Value, AllocError>
    ensures { IfOk result (λ v. view v ≡ list_data byte_span_data spans.now) }
{
    let mut values = Vec::with_capacity(alloc, spans.len())?;
    for span in spans {
        values.push(byte_span_value(alloc, *span)?)?;
    }
    Ok(Value::Array(values))
}

/// Returns the places of an entry, and what their bytes may be.
fn cells_value(alloc: Global, cells: &Cells) -> Result<Value, AllocError>
    ensures { IfOk result (λ v. view v ≡ cells_data cells.now) }
{
    let values = byte_spans_value(alloc, &cells.values)?;
    let mut members = Map::new(alloc);
    put(&mut members, alloc, "first", Value::from(cells.first))?;
    put(&mut members, alloc, "last", Value::from(cells.last))?;
    put(&mut members, alloc, "values", values)?;
    Ok(Value::Object(members))
}

/// Returns the entries.
fn all_cells_value(alloc: Global, all: &[Cells]) -> Result<Value, AllocError>
    ensures { IfOk result (λ v. view v ≡ list_data cells_data all.now) }
{
    let mut values = Vec::with_capacity(alloc, all.len())?;
    for cells in all {
        values.push(cells_value(alloc, cells)?)?;
    }
    Ok(Value::Array(values))
}

/// Returns the messages that were named, or null.
fn said_value(alloc: Global, said: &Option<Vec<MailSpan>>) -> Result<Value, AllocError>
    ensures { IfOk result (λ v. view v ≡ option_data (λ spans. spans_data spans.items) said.now) }
{
    match said {
        Some(spans) => spans_value(alloc, spans),
        None => Ok(Value::Null),
    }
}

/// Returns a whole memory.
fn image_value(alloc: Global, image: &[u8]) -> Result<Value, AllocError>
    ensures { IfOk result (λ v. view v ≡ image_data image.now) }
{
    Ok(Value::String(hex::encode(alloc, image)?))
}

/// Returns the whole memories.
fn images_value(alloc: Global, images: &[Vec<u8>]) -> Result<Value, AllocError>
    ensures { IfOk result (λ v. view v ≡ list_data image_data (map (λ v. v.items) images.now)) }
{
    let mut values = Vec::with_capacity(alloc, images.len())?;
    for image in images {
        values.push(image_value(alloc, image)?)?;
    }
    Ok(Value::Array(values))
}

/// Adds the bytes that were named, or the whole memories.
fn add_memories(
    alloc: Global,
    members: &mut Map<String, Value>,
    memories: &Memories,
) -> Result<(), AllocError>
    ensures { OnOk result (members_view members.new.entries ≡ with_members (members_view members.old.entries)
        (memories_member memories.now ∷ [])) }
{
    match memories {
        Memories::Cells(all) => {
            let bytes = all_cells_value(alloc, all)?;
            put(members, alloc, "bytes", bytes)
        }
        Memories::Images(images) => {
            let images = images_value(alloc, images)?;
            put(members, alloc, "images", images)
        }
    }
}

/// Returns the memories and the messages at the start.
fn any_value(alloc: Global, any: &AnyStart) -> Result<Value, AllocError>
    ensures { IfOk result (λ v. view v ≡ any_data any.now) }
{
    let messages = said_value(alloc, &any.said)?;
    let mut members = Map::new(alloc);
    add_memories(alloc, &mut members, &any.memories)?;
    put(&mut members, alloc, "messages", messages)?;
    Ok(Value::Object(members))
}

/// Returns where it begins: null for zeros and no messages.
pub(crate) fn start_value(alloc: Global, start: &Starts) -> Result<Value, AllocError>
    ensures { IfOk result (λ v. view v ≡ start_data start.now) }
{
    match start {
        Starts::Zero => Ok(Value::Null),
        Starts::Any(any) => any_value(alloc, any),
        Starts::Every => Value::try_from_str(alloc, "every"),
    }
}

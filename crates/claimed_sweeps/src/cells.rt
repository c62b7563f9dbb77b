//! The cells of a row: one for each property.
ghost use Rattle.std.specs.Prelude.{◌≡◌, ◌++◌, IfOk, codes, string_bytes};
ghost use Rattle.std.specs.Fmt.{decimal};
ghost use Rattle.csv.specs.Records.{fields_of};
ghost use Rattle.csv.specs.Writing.{default_writer, row_text};
ghost use Rattle.properties.specs.Claims.{claimed_in};
ghost use Rattle.claimed_sweeps.specs.Cells.{answer_cell, claim_fields, claim_names, column_name, column_word};

use csv::{ByteRecord, WriterBuilder};
use properties::{Answer, Form, Property, PulseClaims, answer_at};
use std::alloc::{AllocError, Global};

/// Returns the row of these fields.
fn row_of(alloc: Global, fields: &ByteRecord) -> Result<Vec<u8>, AllocError>
    ensures { IfOk result (λ text. text.items ≡ row_text default_writer (fields_of fields.now)) }
{
    let mut writer = WriterBuilder::new().from_writer(Vec::new(alloc));
    if writer.write_byte_record(fields).is_err() {
        return Err(AllocError);
    }
    writer.into_inner().map_err(|_| AllocError)
}

fn column_word(form: Form) -> &'static str
    ensures { result.now ≡ column_word form }
{
    match form {
        Form::Always | Form::Within(_) => "violated_",
        Form::EventuallyAlways => "since_",
    }
}

/// Returns the name of a property's column.
fn column_name(alloc: Global, property: &Property) -> Result<String, AllocError>
    ensures { IfOk result (λ name. string_bytes name ≡ column_name property.now) }
{
    let mut name = String::from_str(alloc, column_word(property.form))?;
    let line = property.line.to_string(alloc)?;
    name.push_str(line.as_str())?;
    Ok(name)
}

/// Returns the row of names.
pub(crate) fn names_row(alloc: Global, properties: &[Property]) -> Result<Vec<u8>, AllocError>
    ensures { IfOk result (λ text. text.items ≡ row_text default_writer (claim_names properties.now)) }
{
    let mut fields = ByteRecord::new(alloc);
    fields.push_field(b"key")?;
    for property in properties {
        let name = column_name(alloc, property)?;
        fields.push_field(name.as_bytes())?;
    }
    row_of(alloc, &fields)
}

fn answer_cell(alloc: Global, answer: Answer) -> Result<String, AllocError>
    ensures { IfOk result (λ cell. string_bytes cell ≡ answer_cell answer) }
{
    match answer {
        Answer::NothingJudged | Answer::ViolatedLast { .. } => Ok(String::new(alloc)),
        Answer::Holds { .. } => 0_usize.to_string(alloc),
        Answer::HoldsFrom { pulse } => pulse.to_string(alloc),
        Answer::Violated { violated, .. } => violated.to_string(alloc),
    }
}

/// Returns the row of a key whose run was judged.
pub(crate) fn claims_row(
    alloc: Global,
    key: u64,
    properties: &[Property],
    pulses: &[PulseClaims],
) -> Result<Vec<u8>, AllocError>
    ensures { IfOk result (λ text. text.items
        ≡ row_text default_writer (claim_fields key properties.now (claimed_in pulses.now))) }
{
    let mut fields = ByteRecord::new(alloc);
    let name = key.to_string(alloc)?;
    fields.push_field(name.as_bytes())?;
    for place in 0..properties.len() {
        let property = &properties[place];
        let answer = answer_at(alloc, property.form, place, pulses)?;
        let cell = answer_cell(alloc, answer)?;
        fields.push_field(cell.as_bytes())?;
    }
    row_of(alloc, &fields)
}

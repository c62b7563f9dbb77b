//! Where a remark is: the column that is named, and the line that is shown with a mark.
ghost use Rattle.scenario_text.specs.Texts.{IsParsed};

use crate::asm_advice::instruction_column;
use crate::finding::{line_at, value_column};
use crate::remark::Remark;
use crate::table::{Source, text_at};
use rule_notes::parted::{Parted, parted_at, parted_at_letter};
use rule_programs::RuleRefusal;
use scenario_text::ScenarioError;
use std::str;

/// Returns the column of the instruction of a text that a remark names, from 1 on.
fn column_in_text(source: Source<'_>, error: &ScenarioError, line: usize) -> Option<usize>
    requires parsed { IsParsed source.text.now source.parsed.now }
{
    match error {
        ScenarioError::BadText { place, key, .. } | ScenarioError::NotAccepted { place, key, .. } =>
            {
                let text = text_at(source.table()?, *place, key)?;
                Some(instruction_column(line_at(text, line)?))
            }
        _ => None,
    }
}

/// Returns the column of a line of a file that a remark names, from 1 on.
fn column_in_file(source: Source<'_>, line: usize) -> Option<usize> {
    let text = str::from_utf8(source.text).ok()?;
    Some(value_column(line_at(text, line)?))
}

/// Returns the column that a remark names, from 1 on, if it isn't among its words already.
pub(crate) fn column_of(source: Source<'_>, remark: &Remark, error: &ScenarioError) -> Option<usize>
    requires parsed { IsParsed source.text.now source.parsed.now }
{
    match remark {
        Remark::OfLine { line, .. } => column_in_file(source, *line),
        Remark::OfText { spot } => column_in_text(source, error, spot.line),
        Remark::OfSlot { spot, .. } => column_in_text(source, error, spot.line),
        Remark::OfKey { .. }
        | Remark::NotToml { .. }
        | Remark::OfSlotAlone { .. }
        | Remark::OfNothing => None,
    }
}

/// Returns a line of a text that a remark names, parted at the instruction or the token of the error.
fn place_in_text<'a>(source: Source<'a>, error: &ScenarioError, line: usize) -> Option<Parted<'a>>
    requires parsed { IsParsed source.text.now source.parsed.now }
{
    match error {
        ScenarioError::BadText { place, key, .. } | ScenarioError::NotAccepted { place, key, .. } =>
            {
                let line = line_at(text_at(source.table()?, *place, key)?, line)?;
                Some(parted_at(line.as_bytes(), instruction_column(line)))
            }
        ScenarioError::BadRule {
            place,
            key,
            error: RuleRefusal::Text { column, .. },
        } => {
            let line = line_at(text_at(source.table()?, *place, key)?, line)?;
            Some(parted_at(line.as_bytes(), *column))
        }
        _ => None,
    }
}

/// Returns a line of a file, parted before a character.
fn place_in_file<'a>(source: Source<'a>, line: usize, column: usize) -> Option<Parted<'a>> {
    let text = str::from_utf8(source.text).ok()?;
    Some(parted_at_letter(line_at(text, line)?, column))
}

/// Returns a line of a file, parted before a key.
fn place_of_key<'a>(source: Source<'a>, line: usize, key: &str) -> Option<Parted<'a>> {
    let text = str::from_utf8(source.text).ok()?;
    let line = line_at(text, line)?;
    let (before, _) = line.split_once(key)?;
    Some(parted_at(line.as_bytes(), before.len().saturating_add(1)))
}

/// Returns the line that a remark is on, parted where its mark is.
pub(crate) fn place_of_mark<'a>(
    source: Source<'a>,
    remark: &Remark,
    error: &ScenarioError,
) -> Option<Parted<'a>>
    requires parsed { IsParsed source.text.now source.parsed.now }
{
    match remark {
        Remark::NotToml { line, column, .. } => place_in_file(source, *line, *column),
        Remark::OfKey { unknown } => place_of_key(source, unknown.line?, unknown.key.as_str()),
        Remark::OfLine { line, .. } => {
            let column = column_in_file(source, *line)?;
            place_in_file(source, *line, column)
        }
        Remark::OfText { spot } => place_in_text(source, error, spot.line),
        Remark::OfSlot { spot, .. } => place_in_text(source, error, spot.line),
        Remark::OfSlotAlone { .. } | Remark::OfNothing => None,
    }
}

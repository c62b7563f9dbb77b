//! The note on a rejected text.
ghost use Rattle.std.specs.Prelude.{◌≡◌, ℕ, List, IfOk, IfSome, IsTrue, MatchOption, None, Some};
ghost use Rattle.scenario_text.specs.Texts.{IsParsed};
ghost use Rattle.scenario_notes.specs.declared.remark.Remark.TheVariants.{OfNothing};
ghost use Rattle.scenario_notes.specs.Told.{IsRemarkOf, IsOfFault, IsOfLine, IsOfSlot, IsTextLineOfSlot, Tells, rule_line};

use crate::advice::advice_on;
use crate::finding::{Sought, find, find_in_text, line_at, without_comment};
use crate::known::{names_at, unknown_key};
use crate::marked::{column_of, place_of_mark};
use crate::remark::{Remark, Spot, UnknownKey};
use crate::slot_line::line_of_slot;
use crate::table::{Source, array_of, key_at, table_at, text_at};
use crate::toml_fault::toml_note;
use bpf_verify::Rule;
use rule_notes::Note;
use rule_notes::near::nearest;
use rule_notes::shown::shown;
use rule_programs::RuleRefusal;
use scenario_text::{Parsed, Place, Rejected, ScenarioError};
use std::alloc::{AllocError, Global};
use std::str;

/// Returns the line of what is sought.
fn line_note(alloc: Global, file: &[u8], sought: Sought<'_>) -> Result<Option<Remark>, AllocError>
    ensures { IfOk result (λ found. IfSome found IsOfLine) }
{
    let Ok(text) = str::from_utf8(file) else {
        return Ok(None);
    };
    let Some((line, words)) = find(text, sought) else {
        return Ok(None);
    };
    let shown = shown(alloc, words)?;
    Ok(Some(Remark::OfLine { line, shown }))
}

/// Returns the first head of the entries of a key.
fn head_of(key: &str) -> Sought<'_> {
    Sought {
        entry: Some((key, 0)),
        key: None,
    }
}

/// Returns the line of a key, or of a head with its name.
fn line_of_key(file: &[u8], place: Place, key: &str) -> Option<usize> {
    let text = str::from_utf8(file).ok()?;
    let found = find(text, key_at(place, key));
    let (line, _words) = match place {
        Place::Top => found.or(find(text, head_of(key)))?,
        Place::Load(_) | Place::Unload(_) | Place::Corrupt(_) | Place::Coin(_) => found?,
    };
    Some(line)
}

/// Returns the line of a key, or of the head of its entries.
fn value_note(
    alloc: Global,
    file: &[u8],
    place: Place,
    key: &str,
) -> Result<Option<Remark>, AllocError> {
    match (line_note(alloc, file, key_at(place, key))?, place) {
        (None, Place::Top) => line_note(alloc, file, head_of(key)),
        (found, _) => Ok(found),
    }
}

fn unknown_key_note(
    alloc: Global,
    source: Source<'_>,
    place: Place,
) -> Result<Option<Remark>, AllocError>
    requires parsed { IsParsed source.text.now source.parsed.now }
{
    let Some(table) = source.table() else {
        return Ok(None);
    };
    let Some(entry) = table_at(table, place) else {
        return Ok(None);
    };
    let Some(key) = unknown_key(entry, place) else {
        return Ok(None);
    };
    let unknown = UnknownKey {
        line: line_of_key(source.text, place, key),
        key: shown(alloc, key)?,
        nearest: nearest(alloc, key, names_at(alloc, place)?.as_slice())?,
    };
    Ok(Some(Remark::OfKey { unknown }))
}

/// Returns a line of the text under a key, shown without its comment.
fn spot_at(
    alloc: Global,
    file: &[u8],
    sought: Sought<'_>,
    text: &str,
    line: usize,
) -> Result<Option<Spot>, AllocError>
    ensures { IfOk result (λ found. IfSome found (λ spot. spot.line ≡ line)) }
{
    let Some(whole) = line_at(text, line) else {
        return Ok(None);
    };
    let words = without_comment(whole);
    let place = match str::from_utf8(file) {
        Ok(file) => find_in_text(file, sought, line, words.trim()),
        Err(_) => None,
    };
    let shown = shown(alloc, words)?;
    Ok(Some(Spot {
        file: place,
        line,
        shown,
    }))
}

/// Returns the line that a refusal of a rule names.
fn rule_line(error: RuleRefusal) -> Option<usize>
    ensures { result ≡ rule_line error }
{
    match error {
        RuleRefusal::Text { line, .. } => Some(line),
        RuleRefusal::NoRoom | RuleRefusal::TooLong => None,
    }
}

/// Returns the line of the text under a key, or that of the key if the fault names none.
fn text_note(
    alloc: Global,
    source: Source<'_>,
    place: Place,
    key: &str,
    fault: Option<usize>,
) -> Result<Option<Remark>, AllocError>
    requires parsed { IsParsed source.text.now source.parsed.now }
    ensures { IfOk result (λ found. IfSome found (IsOfFault fault)) }
{
    let sought = key_at(place, key);
    let Some(line) = fault else {
        return line_note(alloc, source.text, sought);
    };
    let Some(table) = source.table() else {
        return Ok(None);
    };
    let Some(text) = text_at(table, place, key) else {
        return Ok(None);
    };
    match spot_at(alloc, source.text, sought, text, line)? {
        Some(spot) => Ok(Some(Remark::OfText { spot })),
        None => Ok(None),
    }
}

/// Returns the line of the text under a key whose instruction begins at the slot.
fn slot_spot(
    alloc: Global,
    source: Source<'_>,
    place: Place,
    key: &str,
    slot: u32,
) -> Result<Option<Spot>, AllocError>
    requires parsed { IsParsed source.text.now source.parsed.now }
    ensures { IfOk result (λ found. IfSome found (λ spot.
        IsTextLineOfSlot source.entry.text.now place key.now slot spot.line)) }
{
    let Some(table) = source.table() else {
        return Ok(None);
    };
    let Some(text) = text_at(table, place, key) else {
        return Ok(None);
    };
    let Some(line) = line_of_slot(alloc, text.as_bytes(), slot)? else {
        return Ok(None);
    };
    spot_at(alloc, source.text, key_at(place, key), text, line)
}

fn slot_note(
    alloc: Global,
    source: Source<'_>,
    place: Place,
    key: &str,
    slot: u32,
    rule: Rule,
) -> Result<Remark, AllocError>
    requires parsed { IsParsed source.text.now source.parsed.now }
    ensures { IfOk result (IsOfSlot source.entry.text.now place key.now slot rule) }
{
    match slot_spot(alloc, source, place, key, slot)? {
        Some(spot) => Ok(Remark::OfSlot { spot, slot, rule }),
        None => Ok(Remark::OfSlotAlone { slot, rule }),
    }
}

/// Returns the note on a text that is not TOML.
fn not_toml_note(alloc: Global, source: Source<'_>) -> Result<Option<Remark>, AllocError> {
    match source.parsed {
        Parsed::NotToml(error) => toml_note(alloc, source.text, error),
        Parsed::Nothing | Parsed::Table(_) => Ok(None),
    }
}

/// Returns where the refusal of a text comes from: nothing if that can't be told.
fn place_of(
    alloc: Global,
    source: Source<'_>,
    error: &ScenarioError,
) -> Result<Option<Remark>, AllocError>
    requires parsed { IsParsed source.text.now source.parsed.now }
    ensures { IfOk result (λ found. IfSome found (IsRemarkOf source.entry.text.now error.now)) }
{
    match error {
        ScenarioError::TooLong | ScenarioError::Memory(_) => Ok(None),
        ScenarioError::NotToml => not_toml_note(alloc, source),
        ScenarioError::UnknownKey { place } => unknown_key_note(alloc, source, *place),
        ScenarioError::MissingKey { place, .. } => {
            let entry = array_of(*place);
            line_note(alloc, source.text, Sought { entry, key: None })
        }
        ScenarioError::WrongKind { place, key } | ScenarioError::OutOfRange { place, key } => {
            value_note(alloc, source.text, *place, key)
        }
        ScenarioError::UnknownProgram { load } => {
            line_note(alloc, source.text, key_at(Place::Load(*load), "program"))
        }
        ScenarioError::BadText { place, key, error } => {
            text_note(alloc, source, *place, key, error.line())
        }
        ScenarioError::BadRule { place, key, error } => {
            text_note(alloc, source, *place, key, rule_line(*error))
        }
        ScenarioError::NotAccepted {
            place,
            key,
            slot,
            rule,
        } => Ok(Some(slot_note(alloc, source, *place, key, *slot, *rule)?)),
    }
}

/// Returns true if advice alone, with no place, makes a note on the error.
fn needs_no_place(error: &ScenarioError) -> bool
    ensures { IsTrue result → (file : List ℕ) → IsRemarkOf file error.now OfNothing }
{
    match error {
        ScenarioError::TooLong
        | ScenarioError::NotToml
        | ScenarioError::UnknownKey { .. }
        | ScenarioError::MissingKey { .. }
        | ScenarioError::WrongKind { .. }
        | ScenarioError::OutOfRange { .. }
        | ScenarioError::UnknownProgram { .. } => true,
        ScenarioError::BadText { .. }
        | ScenarioError::BadRule { .. }
        | ScenarioError::NotAccepted { .. }
        | ScenarioError::Memory(_) => false,
    }
}

/// Returns the note on the refusal of a text, if there is something to say.
fn remark_of(
    alloc: Global,
    source: Source<'_>,
    error: &ScenarioError,
) -> Result<Option<Remark>, AllocError>
    requires parsed { IsParsed source.text.now source.parsed.now }
    ensures { IfOk result (λ found. IfSome found (IsRemarkOf source.entry.text.now error.now)) }
{
    match place_of(alloc, source, error)? {
        Some(note) => Ok(Some(note)),
        None => {
            if needs_no_place(error) {
                Ok(Some(Remark::OfNothing))
            } else {
                Ok(None)
            }
        }
    }
}

/// Returns what is said of the fix, after the note, with the column before it.
fn advice_behind(
    alloc: Global,
    source: Source<'_>,
    remark: &Remark,
    error: &ScenarioError,
) -> Result<String, AllocError>
    requires parsed { IsParsed source.text.now source.parsed.now }
{
    let advice = advice_on(alloc, source.text, source.table(), error)?;
    if advice.len() == 0 {
        return Ok(advice);
    }
    if let Remark::OfNothing = remark {
        return Ok(advice);
    }
    let column = column_of(source, remark, error);
    let advice = advice.as_str();
    match column {
        Some(column) => format!(in alloc; "; column {column}: {advice}"),
        None => format!(in alloc; "; {advice}"),
    }
}

/// Returns the note on a rejected text, if there is something to say. `rejected` is what was made of this text: its
/// error, and its table or the error of the parser. The text is not parsed again.
pub fn note_on(alloc: Global, text: &[u8], rejected: &Rejected) -> Result<Option<Note>, AllocError>
    requires parsed { IsParsed text.now rejected.now.parsed }
    ensures { IfOk result (λ found. IfSome found (Tells text.now rejected.now.error)) }
{
    let source = Source {
        text,
        parsed: &rejected.parsed,
    };
    let Some(remark) = remark_of(alloc, source, &rejected.error)? else {
        return Ok(None);
    };
    let advice = advice_behind(alloc, source, &remark, &rejected.error)?;
    let words = format!(in alloc; "{remark}{advice}")?;
    let note = match place_of_mark(source, &remark, &rejected.error) {
        Some(place) => Note::marked(alloc, words, place),
        None => Note::of(alloc, words),
    };
    Ok(note)
}

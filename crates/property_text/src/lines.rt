//! Lines of properties.
ghost use Rattle.std.specs.Prelude.{◌≤◌, All, IfOk, OnOk, length};
ghost use Rattle.property_text.specs.Read.{IsBounded, IsBoundedForm};

use crate::sizes::holds_of;
use crate::terms::{Scope, Terms};
use claim_tokens::{ClaimError, Kind, ReadClaimsError, Reader, Span, Token, in_one_line};
use properties::{Form, MAX_WITHIN, PairTerm, Property};
use rule_syntax::Sizes;
use std::alloc::Global;

/// The most properties of a text.
pub const MAX_PROPERTIES: usize = 32;

/// What follows `p.` or `q.` where a word of the memory before a pulse is meant.
pub(crate) const BEFORE: &str = "before";

/// Returns the properties of a text in their order, about a memory with these words, by their places. If the text has no
/// error, the sizes have to meet each line `assume T`.
pub fn read_properties(
    alloc: Global,
    words: &[String],
    sizes: Sizes,
    text: &[u8],
) -> Result<Vec<Property>, ReadClaimsError>
    ensures few { IfOk result (λ properties. length properties.items ≤ MAX_PROPERTIES) }
    ensures bounded { IfOk result (λ properties. All IsBounded properties.items) }
{
    let mut reader = Reader::new(text);
    let mut properties = Vec::new(alloc);
    let mut unmet: Option<Token> = None;
    for _ in 0..=text.len() {
        if reader.now.kind == Kind::TextEnd {
            break;
        }
        let here = read_line(alloc, words, sizes, &mut reader, &mut properties)?;
        unmet = unmet.or(here);
        reader.expect_end()?;
    }
    if properties.is_empty() {
        return Err(reader.now.error(ClaimError::Expected));
    }
    match unmet {
        Some(term) => Err(term.error(ClaimError::NotAssumed)),
        None => Ok(properties),
    }
}

/// Reads a line, whose property is added if it is one. Returns its term if these sizes don't meet it.
fn read_line(
    alloc: Global,
    words: &[String],
    sizes: Sizes,
    reader: &mut Reader<'_>,
    properties: &mut Vec<Property>,
) -> Result<Option<Token>, ReadClaimsError>
    ensures few { OnOk result (length properties.old.items ≤ MAX_PROPERTIES
        → length properties.new.items ≤ MAX_PROPERTIES) }
    ensures bounded { OnOk result (All IsBounded properties.old.items → All IsBounded properties.new.items) }
{
    let first = reader.now;
    if reader.take_word("assume") {
        let term = reader.now;
        let met = is_met(alloc, sizes, reader)?;
        return Ok(if met { None } else { Some(term) });
    }
    if properties.len() >= MAX_PROPERTIES {
        return Err(first.error(ClaimError::TooLong));
    }
    properties.push(read_property(alloc, words, reader)?)?;
    Ok(None)
}

/// Reads a term of sizes. Returns true if these sizes meet it.
fn is_met(alloc: Global, sizes: Sizes, reader: &mut Reader<'_>) -> Result<bool, ReadClaimsError> {
    let terms = Terms {
        alloc,
        words: &[],
        scope: Scope::Sizes,
    };
    let token = reader.now;
    let term = terms.term(reader)?;
    holds_of(&term, sizes).map_err(|error| token.error(error))
}

/// Returns true if the next word begins a property.
pub fn is_at_property(reader: &Reader<'_>) -> bool {
    reader.is_at_word("always") || reader.is_at_word("eventually") || reader.is_at_word("within")
}

/// Reads a property, about a memory with these words, by their places.
pub fn read_property(
    alloc: Global,
    words: &[String],
    reader: &mut Reader<'_>,
) -> Result<Property, ReadClaimsError>
    ensures { IfOk result IsBounded }
{
    let first = reader.now;
    if words.iter().any(|word| word.as_str() == BEFORE) {
        return Err(first.error(ClaimError::NameTwice));
    }
    let terms = Terms {
        alloc,
        words,
        scope: Scope::Nodes,
    };
    let form = form(reader)?;
    let token = reader.now;
    let term = terms.term(reader)?;
    let Some(holds) = PairTerm::of(term) else {
        return Err(token.error(ClaimError::NotCovered));
    };
    let from = first.span.from;
    let whole = Span {
        from,
        bytes: reader.past.saturating_sub(from),
    };
    Ok(Property {
        line: u32::try_from(first.line).unwrap_or(u32::MAX),
        text: in_one_line(alloc, whole.of(reader.text))?,
        form,
        holds,
    })
}

/// Reads the words before a term.
fn form(reader: &mut Reader<'_>) -> Result<Form, ReadClaimsError>
    ensures { IfOk result IsBoundedForm }
{
    if reader.take_word("always") {
        return Ok(Form::Always);
    }
    if reader.take_word("eventually") {
        reader.expect_word("always")?;
        return Ok(Form::EventuallyAlways);
    }
    reader.expect_word("within")?;
    let token = reader.next();
    match token.kind {
        Kind::Number(pulses) if pulses <= MAX_WITHIN => Ok(Form::Within(pulses)),
        Kind::Number(_) => Err(token.error(ClaimError::OutOfRange)),
        _ => Err(token.error(ClaimError::Expected)),
    }
}

//! The lists of `--mail`, `--said`, `--bytes` and `--cells`: numbers and ranges, with commas between.
ghost use Rattle.std.specs.Prelude.{◌≡◌, ◌↔◌, ◌<◌, ◌≤◌, ◌+◌, ◌^◌, [], All, Any, Contains, IfErr, IfNone, IfOk, IfSome, OnErr};
ghost use Rattle.std.specs.Prelude.{IsTrue, OnOk, ℕ};
ghost use Rattle.std.specs.Bool.{OnFalse, OnTrue};
ghost use Rattle.std.specs.BTreeSet.{btree_set_len};
ghost use Rattle.command_line.specs.Lists.{AreCells, AreLongest, IsBytes, IsDecimal, IsMailList, IsNoBytes, IsNoCells, IsNoMailList};
ghost use Rattle.command_line.specs.Lists.{IsInSpan, IsPart, IsRange, IsSpan, byte_spans, span_length, mail_spans};
ghost use Rattle.command_line.specs.Numbers.{IsNumeralOf};
ghost use Rattle.command_line.specs.declared.lists.TheConstants.{MAX_MAIL};
ghost use Rattle.command_line.specs.inner.Spans.{AddsPart, AddsSpan, EndsList, JoinsSpan, with_span_number};
ghost use Rattle.command_line.specs.declared.lists.MailFault.TheVariants.{NotNumbers};
ghost use Rattle.command_line.specs.inner.Entries.{AddsCells, AddsValue, BeginsEntry, EndsCells};
ghost use Rattle.node_env.specs.declared.shape.TheConstants.{MAX_MEMORY};

use node_env::MAX_MEMORY;
use requests::{ByteSpan, Cells, MailSpan};
use std::alloc::{AllocError, Global};
use std::collections::BTreeSet;

/// The most numbers of a list.
const MAX_MAIL: usize = 4_096;

/// The last byte of a memory that `--bytes` names.
const LAST_OF_BYTES: u32 = 7;

/// The greatest byte.
const LAST_BYTE: u32 = 255;

/// Why a text is no list.
#[derive(Clone, Copy, Debug, PartialEq, Eq)]
pub enum MailFault {
    /// A part is no number below 2 to the 32 and no range of two of them.
    NotNumbers,
    /// A range ends below where it begins.
    Falls,
    /// There are more numbers than a list may have.
    TooMany,
    Memory,
}

impl From<AllocError> for MailFault {
    ghost use Rattle.std.specs.Prelude.{◌≡◌};
    ghost use Rattle.command_line.specs.declared.lists.MailFault.TheVariants.{Memory};

    ghost from_gives = { λ _ fault. fault ≡ Memory };

    fn from(_: AllocError) -> MailFault {
        MailFault::Memory
    }
}

impl MailFault {
    /// Returns why, as a command line's fault says it.
    pub fn reason(self) -> &'static str {
        match self {
            MailFault::NotNumbers => {
                "the mail is a list such as 0..7,9: numbers below 4294967296, and ranges of them"
            }
            MailFault::Falls =>
                "a range of the mail falls: it is FIRST..LAST, the first at most the last",
            MailFault::TooMany => "the mail has at most 4096 numbers",
            MailFault::Memory => "out of memory",
        }
    }
}

/// Returns the list of a text, in rising order, each number once. Fails only if no list has the text, or if each that has
/// it has too many numbers.
pub fn mail_in(alloc: Global, text: &str) -> Result<Vec<MailSpan>, MailFault>
    ensures list { IfOk result (λ mail. IsMailList text.now mail.items) }
    ensures few { IfOk result (λ mail. span_length (mail_spans mail.items) ≤ MAX_MAIL) }
    ensures rejected { IfErr result (IsNoMailList text.now) }
{
    let mut numbers = BTreeSet::new(alloc);
    for part in text.split(',') {
        if let Err(fault) = add_part_numbers(&mut numbers, part) {
            return Err(fault);
        }
    }
    Ok(spans_of(alloc, &numbers)?)
}

/// Adds the numbers of a part.
fn add_part_numbers(numbers: &mut BTreeSet<u32>, part: &str) -> Result<(), MailFault>
    ensures part { OnOk result (IsPart (2 ^ 32) part.now) }
    ensures added { OnOk result (AddsPart numbers.old.keys numbers.new.keys part.now) }
    ensures few { OnOk result (btree_set_len numbers.new ≤ MAX_MAIL) }
    ensures ends { IfErr result (EndsList numbers.old.keys part.now) }
{
    let span = span_in(part)?;
    if span.last < span.first {
        return Err(MailFault::Falls);
    }
    if (span.last - span.first) as usize >= MAX_MAIL {
        return Err(MailFault::TooMany);
    }
    insert_span(numbers, span)?;
    if numbers.len() > MAX_MAIL {
        return Err(MailFault::TooMany);
    }
    Ok(())
}

/// Adds the numbers of a span.
fn insert_span(numbers: &mut BTreeSet<u32>, span: MailSpan) -> Result<(), AllocError>
    ensures { OnOk result (AddsSpan numbers.old.keys numbers.new.keys (span.first, span.last)) }
{
    if span.last < span.first {
        return Ok(());
    }
    for number in span.first..=span.last {
        numbers.insert(number)?;
    }
    Ok(())
}

/// Returns the entry of `--bytes`: these values for the first eight bytes; none if the text isn't a list of bytes.
pub fn bytes_in(alloc: Global, text: &str) -> Result<Option<Vec<Cells>>, AllocError>
    ensures bytes { IfOk result (λ named. IfSome named (λ all. IsBytes text.now all.items)) }
    ensures rejected { IfOk result (λ named. IfNone named (IsNoBytes text.now)) }
{
    let mut bytes = BTreeSet::new(alloc);
    for part in text.split(',') {
        if !add_bytes(&mut bytes, part)? {
            return Ok(None);
        }
    }
    let values = byte_spans_of(alloc, &bytes)?;
    let mut all = Vec::new(alloc);
    all.push(Cells {
        first: 0,
        last: LAST_OF_BYTES,
        values,
    })?;
    Ok(Some(all))
}

/// Returns the entries of `--cells`, each PLACES=VALUES with more values after commas; none if the text isn't that.
pub fn cells_in(alloc: Global, text: &str) -> Result<Option<Vec<Cells>>, AllocError>
    ensures cells { IfOk result (λ named. IfSome named (λ all. AreCells text.now all.items)) }
    ensures rejected { IfOk result (λ named. IfNone named (IsNoCells text.now)) }
{
    let mut all = Vec::new(alloc);
    for part in text.split(',') {
        if !add_cells(alloc, &mut all, part)? {
            return Ok(None);
        }
    }
    Ok(Some(all))
}

/// Adds the entry that a part begins, or the values that it adds to the last one. Answers whether the part is right.
fn add_cells(alloc: Global, all: &mut Vec<Cells>, part: &str) -> Result<bool, AllocError>
    ensures adds { IfOk result (λ fits. OnTrue fits (AddsCells all.old.items all.new.items part.now)) }
    ensures ends { IfOk result (λ fits. OnFalse fits (EndsCells all.old.items part.now)) }
{
    match part.split_once('=') {
        Some((places, value)) => {
            let begun = begin_entry(alloc, all, places, value)?;
            Ok(begun)
        }
        None => {
            let added = add_value(alloc, all, part)?;
            Ok(added)
        }
    }
}

/// Adds the entry of these places. Answers whether they are places, and the values bytes.
fn begin_entry(
    alloc: Global,
    all: &mut Vec<Cells>,
    places: &str,
    value: &str,
) -> Result<bool, AllocError>
    ensures begins { IfOk result (λ fits. OnTrue fits (BeginsEntry all.old.items all.new.items places.now value.now)) }
    ensures other { IfOk result (λ fits.
        OnFalse fits (IsPart MAX_MEMORY places.now → IsPart 256 value.now → ⊥)) }
{
    let (Some(places), Some(span)) = (places_in(places), byte_span_in(value)) else {
        return Ok(false);
    };
    let values = joined_values(alloc, &[], span)?;
    all.push(Cells {
        first: places.first,
        last: places.last,
        values,
    })?;
    Ok(true)
}

/// Returns a place, or a range of places that doesn't fall.
fn places_in(part: &str) -> Option<MailSpan>
    ensures place { IfSome result (λ span. IsSpan MAX_MEMORY part.now span.first span.last) }
    ensures none { IfNone result (IsPart MAX_MEMORY part.now → ⊥) }
{
    let span = rising(part)?;
    if span.last >= MAX_MEMORY {
        return None;
    }
    Some(span)
}

/// Adds values to the last entry. Answers whether there is one and the values are bytes.
fn add_value(alloc: Global, all: &mut Vec<Cells>, part: &str) -> Result<bool, AllocError>
    ensures adds { IfOk result (λ fits. OnTrue fits (AddsValue all.old.items all.new.items part.now)) }
    ensures other { IfOk result (λ fits. OnFalse fits (IsPart 256 part.now → all.old.items ≡ [])) }
{
    let Some(span) = byte_span_in(part) else {
        return Ok(false);
    };
    let Some(cells) = all.pop() else {
        return Ok(false);
    };
    let values = joined_values(alloc, cells.values.as_slice(), span)?;
    all.push(Cells {
        first: cells.first,
        last: cells.last,
        values,
    })?;
    Ok(true)
}

/// Returns the longest spans of the bytes of these spans and one more.
fn joined_values(
    alloc: Global,
    values: &[ByteSpan],
    span: MailSpan,
) -> Result<Vec<ByteSpan>, AllocError>
    requires { span.last < 256 }
    ensures numbers { IfOk result (λ spans.
        JoinsSpan (byte_spans values.now) (byte_spans spans.items) (span.first, span.last)) }
    ensures longest { IfOk result (λ spans. AreLongest (byte_spans spans.items)) }
{
    let mut bytes = bytes_of(alloc, values)?;
    insert_span(&mut bytes, span)?;
    let spans = byte_spans_of(alloc, &bytes)?;
    Ok(spans)
}

/// Returns the bytes of spans.
fn bytes_of(alloc: Global, values: &[ByteSpan]) -> Result<BTreeSet<u32>, AllocError>
    ensures numbers { IfOk result (λ bytes.
        (n : ℕ) → Contains bytes.keys n ↔ Any (IsInSpan n) (byte_spans values.now)) }
    ensures below { IfOk result (λ bytes. (n : ℕ) → Contains bytes.keys n → n < 256) }
{
    let mut bytes = BTreeSet::new(alloc);
    for span in values {
        insert_span(&mut bytes, wide_span(*span))?;
    }
    Ok(bytes)
}

/// Returns the same span, of numbers.
fn wide_span(span: ByteSpan) -> MailSpan
    ensures first { result.first ≡ span.first }
    ensures last { result.last ≡ span.last }
    ensures below { result.last < 256 }
{
    MailSpan {
        first: u32::from(span.first),
        last: u32::from(span.last),
    }
}

/// Adds the bytes of a part. Answers whether it names bytes.
fn add_bytes(bytes: &mut BTreeSet<u32>, part: &str) -> Result<bool, AllocError>
    ensures part { IfOk result (λ fits. OnTrue fits (IsPart 256 part.now)) }
    ensures added { IfOk result (λ fits. OnTrue fits (AddsPart bytes.old.keys bytes.new.keys part.now)) }
    ensures other { IfOk result (λ fits. OnFalse fits (IsPart 256 part.now → ⊥)) }
{
    let Some(span) = byte_span_in(part) else {
        return Ok(false);
    };
    insert_span(bytes, span)?;
    Ok(true)
}

/// Returns a number, or a range that doesn't fall.
fn rising(part: &str) -> Option<MailSpan>
    ensures span { IfSome result (λ span. IsSpan (2 ^ 32) part.now span.first span.last) }
    ensures none { IfNone result (IsPart (2 ^ 32) part.now → ⊥) }
{
    let Ok(span) = span_in(part) else {
        return None;
    };
    if span.last < span.first {
        return None;
    }
    Some(span)
}

/// Returns a byte, or a range of bytes that doesn't fall.
fn byte_span_in(part: &str) -> Option<MailSpan>
    ensures span { IfSome result (λ span. IsSpan 256 part.now span.first span.last) }
    ensures none { IfNone result (IsPart 256 part.now → ⊥) }
{
    let span = rising(part)?;
    if span.last > LAST_BYTE {
        return None;
    }
    Some(span)
}

/// Returns a number, or a range of two.
fn span_in(part: &str) -> Result<MailSpan, MailFault>
    ensures range { IfOk result (λ span. IsRange part.now span.first span.last) }
    ensures below { IfOk result (λ span. span.last < 2 ^ 32) }
    ensures fault { IfErr result (λ fault. fault ≡ NotNumbers) }
    ensures other { OnErr result (IsPart (2 ^ 32) part.now → ⊥) }
{
    let Some((left, rest)) = part.split_once('.') else {
        return match number_in(part) {
            Some(number) => Ok(MailSpan {
                first: number,
                last: number,
            }),
            None => Err(MailFault::NotNumbers),
        };
    };
    let Some(right) = rest.strip_prefix('.') else {
        return Err(MailFault::NotNumbers);
    };
    let Some(first) = number_in(left) else {
        return Err(MailFault::NotNumbers);
    };
    let Some(last) = number_in(right) else {
        return Err(MailFault::NotNumbers);
    };
    Ok(MailSpan { first, last })
}

/// Returns the number of a text of digits alone, if it is below 2 to the 32.
pub fn number_in(text: &str) -> Option<u32>
    ensures number { IfSome result (IsNumeralOf 32 text.now) }
    ensures digits { IfSome result (IsDecimal text.now) }
    ensures none { IfNone result ((n : ℕ) → IsDecimal text.now n → n < 2 ^ 32 → ⊥) }
{
    if text.starts_with('+') {
        return None;
    }
    text.parse().ok()
}

/// Returns the longest spans of the numbers.
fn spans_of(alloc: Global, numbers: &BTreeSet<u32>) -> Result<Vec<MailSpan>, AllocError>
    ensures numbers { IfOk result (λ spans.
        (n : ℕ) → Any (IsInSpan n) (mail_spans spans.items) ↔ Contains numbers.now.keys n) }
    ensures longest { IfOk result (λ spans. AreLongest (mail_spans spans.items)) }
    ensures count { IfOk result (λ spans. span_length (mail_spans spans.items) ≡ btree_set_len numbers.now) }
{
    let mut spans: Vec<MailSpan> = Vec::new(alloc);
    for number in numbers {
        add_number(&mut spans, *number)?;
    }
    Ok(spans)
}

/// Adds a number that is greater than those of the spans.
fn add_number(spans: &mut Vec<MailSpan>, number: u32) -> Result<(), AllocError>
    ensures { OnOk result (mail_spans spans.new.items ≡ with_span_number (mail_spans spans.old.items) number) }
{
    match spans.last_mut() {
        Some(span) if is_next(*span, number) => {
            span.last = number;
            Ok(())
        }
        _ => {
            spans.push(MailSpan {
                first: number,
                last: number,
            })?;
            Ok(())
        }
    }
}

/// Returns the longest spans of bytes.
fn byte_spans_of(alloc: Global, bytes: &BTreeSet<u32>) -> Result<Vec<ByteSpan>, AllocError>
    requires { (n : ℕ) → Contains bytes.now.keys n → n < 256 }
    ensures numbers { IfOk result (λ spans.
        (n : ℕ) → Any (IsInSpan n) (byte_spans spans.items) ↔ Contains bytes.now.keys n) }
    ensures longest { IfOk result (λ spans. AreLongest (byte_spans spans.items)) }
{
    let wide = spans_of(alloc, bytes)?;
    let spans = narrowed(alloc, wide.as_slice())?;
    Ok(spans)
}

/// Returns the same spans, as spans of bytes.
fn narrowed(alloc: Global, wide: &[MailSpan]) -> Result<Vec<ByteSpan>, AllocError>
    requires { All (λ span. (span.first < 256) × (span.last < 256)) wide.now }
    ensures { IfOk result (λ spans. byte_spans spans.items ≡ mail_spans wide.now) }
{
    let mut spans = Vec::new(alloc);
    for span in wide {
        spans.push(byte_span_of(*span))?;
    }
    Ok(spans)
}

/// Returns the span, whose numbers are bytes.
fn byte_span_of(span: MailSpan) -> ByteSpan
    requires first { span.first < 256 }
    requires last { span.last < 256 }
    ensures first { result.first ≡ span.first }
    ensures last { result.last ≡ span.last }
{
    ByteSpan {
        first: span.first as u8,
        last: span.last as u8,
    }
}

/// Returns true if the number is the next one after the span.
fn is_next(span: MailSpan, number: u32) -> bool
    ensures { IsTrue result ↔ (span.last + 1 ≡ number) }
{
    span.last < number && number - span.last == 1
}

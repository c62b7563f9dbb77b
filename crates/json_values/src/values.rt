//! Values of JSON, of lists and of what may be missing.
ghost use Rattle.std.specs.Prelude.{◌≡◌, IfOk};
ghost use Rattle.serde_json.specs.Data.{boolean, string};
ghost use Rattle.serde_json.specs.View.{view};
ghost use Rattle.json_values.specs.Values.{list_data, number_data, option_data};

use serde_json::Value;
use std::alloc::{AllocError, Global};

/// Returns a number, or null for nothing.
pub fn number_or_null(number: Option<u32>) -> Value
    ensures { view result ≡ option_data number_data number }
{
    match number {
        Some(number) => Value::from(number),
        None => Value::Null,
    }
}

/// Returns a place, or null for nothing.
pub fn place_or_null(place: Option<usize>) -> Value
    ensures { view result ≡ option_data number_data place }
{
    match place {
        Some(place) => Value::from(place),
        None => Value::Null,
    }
}

/// Returns a long number, or null for nothing.
pub fn count_or_null(count: Option<u64>) -> Value
    ensures { view result ≡ option_data number_data count }
{
    match count {
        Some(count) => Value::from(count),
        None => Value::Null,
    }
}

/// Returns a text, or null for none.
pub fn word_or_null(alloc: Global, word: Option<&str>) -> Result<Value, AllocError>
    ensures { IfOk result (λ v. view v ≡ option_data (λ text. string text.now) word.entry) }
{
    match word {
        Some(word) => Value::try_from_str(alloc, word),
        None => Ok(Value::Null),
    }
}

/// Returns a verdict, or null for none.
pub fn verdict_or_null(verdict: Option<bool>) -> Value
    ensures { view result ≡ option_data boolean verdict }
{
    match verdict {
        Some(verdict) => Value::Bool(verdict),
        None => Value::Null,
    }
}

/// Returns a list of numbers.
pub fn numbers(alloc: Global, numbers: &[u32]) -> Result<Value, AllocError>
    ensures { IfOk result (λ v. view v ≡ list_data number_data numbers.now) }
{
    let mut values = Vec::with_capacity(alloc, numbers.len())?;
    for number in numbers {
        values.push(Value::from(*number))?;
    }
    Ok(Value::Array(values))
}

/// Returns a list of numbers, with null for nothing.
pub fn numbers_or_null(alloc: Global, numbers: &[Option<u32>]) -> Result<Value, AllocError>
    ensures { IfOk result (λ v. view v ≡ list_data (option_data number_data) numbers.now) }
{
    let mut values = Vec::with_capacity(alloc, numbers.len())?;
    for number in numbers {
        values.push(number_or_null(*number))?;
    }
    Ok(Value::Array(values))
}

/// Returns a list of flags.
pub fn flags(alloc: Global, flags: &[bool]) -> Result<Value, AllocError>
    ensures { IfOk result (λ v. view v ≡ list_data boolean flags.now) }
{
    let mut values = Vec::with_capacity(alloc, flags.len())?;
    for flag in flags {
        values.push(Value::Bool(*flag))?;
    }
    Ok(Value::Array(values))
}

//! The line of a pulse.
ghost use Rattle.std.specs.Prelude.{◌≡◌, ◌∷◌, [], IfOk, map, string_bytes};
ghost use Rattle.serde_json.specs.Data.{string};
ghost use Rattle.serde_json.specs.View.{view};
ghost use Rattle.json_values.specs.Values.{list_data};
ghost use Rattle.claims_json.specs.Data.{pulse_claims_data, pulse_claims_line, verdict_data, verdict_word};
ghost use Rattle.properties.specs.Claims.{claims_in_view};

use json_values::line_of;
use properties::{PropertyVerdict, PulseClaims};
use serde_json::{Map, Value, put};
use std::alloc::{AllocError, Global};

fn verdict_word(verdict: PropertyVerdict) -> &'static str
    ensures { result.now ≡ verdict_word verdict }
{
    match verdict {
        PropertyVerdict::NotJudged => "none",
        PropertyVerdict::Holds => "yes",
        PropertyVerdict::Violated { .. } => "no",
    }
}

fn verdict_value(alloc: Global, verdict: PropertyVerdict) -> Result<Value, AllocError>
    ensures { IfOk result (λ v. view v ≡ verdict_data verdict) }
{
    Value::try_from_str(alloc, verdict_word(verdict))
}

fn verdicts_value(alloc: Global, verdicts: &[PropertyVerdict]) -> Result<Value, AllocError>
    ensures { IfOk result (λ v. view v ≡ list_data verdict_data verdicts.now) }
{
    let mut values = Vec::with_capacity(alloc, verdicts.len())?;
    for verdict in verdicts {
        values.push(verdict_value(alloc, *verdict)?)?;
    }
    Ok(Value::Array(values))
}

/// Returns a pulse with the verdicts in it.
fn pulse_value(alloc: Global, claims: &PulseClaims) -> Result<Value, AllocError>
    ensures { IfOk result (λ v. view v ≡ pulse_claims_data (claims_in_view claims.now)) }
{
    let verdicts = verdicts_value(alloc, claims.verdicts.as_slice())?;
    let mut members = Map::new(alloc);
    put(&mut members, alloc, "pulse", Value::from(claims.pulse))?;
    put(&mut members, alloc, "claims", verdicts)?;
    Ok(Value::Object(members))
}

/// Returns the line of a pulse.
pub(crate) fn pulse_line(alloc: Global, claims: &PulseClaims) -> Result<String, AllocError>
    ensures { IfOk result (λ s. string_bytes s ≡ pulse_claims_line (claims_in_view claims.now)) }
{
    let value = pulse_value(alloc, claims)?;
    line_of(alloc, &value)
}

//! The lines of pulses and of properties.
ghost use Rattle.std.specs.Prelude.{◌≡◌, ◌++◌, IfOk, OnOk, flat_map, map, string_bytes};
ghost use Rattle.claims_json.specs.Data.{claims_json, property_lines_from, pulse_claims_line};
ghost use Rattle.properties.specs.Claims.{claimed_in};

use crate::counts::verdicts_at;
use crate::properties_told::property_line;
use crate::pulses_told::pulse_line;
use properties::{Property, PulseClaims};
use std::alloc::{AllocError, Global};

/// Adds a line for each pulse.
fn add_pulses(alloc: Global, text: &mut String, pulses: &[PulseClaims]) -> Result<(), AllocError>
    ensures { OnOk result (string_bytes text.new
        ≡ string_bytes text.old ++ flat_map pulse_claims_line (claimed_in pulses.now)) }
{
    for claims in pulses {
        let line = pulse_line(alloc, claims)?;
        text.push_str(line.as_str())?;
    }
    Ok(())
}

/// Adds a line for each property.
fn add_properties(
    alloc: Global,
    text: &mut String,
    properties: &[Property],
    pulses: &[PulseClaims],
) -> Result<(), AllocError>
    ensures { OnOk result (string_bytes text.new
        ≡ string_bytes text.old ++ property_lines_from 0 properties.now (claimed_in pulses.now)) }
{
    for place in 0..properties.len() {
        let verdicts = verdicts_at(alloc, place, pulses)?;
        let line = property_line(alloc, &properties[place], verdicts.as_slice())?;
        text.push_str(line.as_str())?;
    }
    Ok(())
}

/// Returns a line for each pulse with the verdicts in it, then a line for each property with its answer.
pub fn claims_lines(
    alloc: Global,
    properties: &[Property],
    pulses: &[PulseClaims],
) -> Result<String, AllocError>
    ensures { IfOk result (λ s. string_bytes s ≡ claims_json properties.now (claimed_in pulses.now)) }
{
    let mut text = String::new(alloc);
    add_pulses(alloc, &mut text, pulses)?;
    add_properties(alloc, &mut text, properties, pulses)?;
    Ok(text)
}

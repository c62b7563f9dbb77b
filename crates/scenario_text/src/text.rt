//! A scenario as the bytes of a text.
ghost use Rattle.std.specs.Prelude.{◌≡◌, ◌<◌, ◌≤◌, IfOk, IfErr, Some, length};
ghost use Rattle.std.specs.Str.{IsUtf8};
ghost use Rattle.toml.specs.Parse.{parse_document};
ghost use Rattle.toml.specs.View.{table_view};
ghost use Rattle.scenario_text.specs.Texts.{IsDocument, IsDueUnlessMemory, IsRejected, ReadsText};

use crate::limits::MAX_TEXT;
use crate::refusal::ScenarioError;
use crate::scenario::Scenario;
use crate::whole::scenario_of;
use std::alloc::{AllocError, Global};
use toml::Table;

/// What the parser of TOML made of a text that is rejected.
#[derive(Debug, Drop)]
pub enum Parsed {
    /// Nothing: the text is too long, or memory was short.
    Nothing,
    /// Why the text is not TOML, and where.
    NotToml(toml::de::Error),
    Table(Table),
}

/// Why a text is no scenario, and what the parser made of it, from which a note says where to look.
#[derive(Debug, Drop)]
pub struct Rejected {
    pub error: ScenarioError,
    pub parsed: Parsed,
}

/// Returns the table that a text is as TOML.
fn table_in(alloc: Global, bytes: &[u8]) -> Result<Table, Rejected>
    ensures table { IfOk result (λ t. IsDocument bytes.now (table_view t)) }
    ensures rejected { IfErr result (IsRejected bytes.now) }
{
    if bytes.len() > MAX_TEXT {
        return Err(Rejected {
            error: ScenarioError::TooLong,
            parsed: Parsed::Nothing,
        });
    }
    match toml::table_from_slice(alloc, bytes) {
        Ok(table) => Ok(table),
        Err(error) if error.is_memory() => Err(Rejected {
            error: ScenarioError::Memory(AllocError),
            parsed: Parsed::Nothing,
        }),
        Err(error) => Err(Rejected {
            error: ScenarioError::NotToml,
            parsed: Parsed::NotToml(error),
        }),
    }
}

/// Returns the scenario of a text, or why it is none and what the parser made of it. The first bytes of a text that is
/// too long serve as well as the whole, if they are more than [`MAX_TEXT`].
pub fn parse_scenario(alloc: Global, bytes: &[u8]) -> Result<Scenario, Rejected>
    ensures reads { IfOk result (ReadsText bytes.now) }
    ensures rejected { IfErr result (IsRejected bytes.now) }
{
    let table = table_in(alloc, bytes)?;
    match scenario_of(alloc, &table) {
        Ok(scenario) => Ok(scenario),
        Err(error) => Err(Rejected {
            error,
            parsed: Parsed::Table(table),
        }),
    }
}

/// Returns the scenario of a text. The first bytes of a text that is too long serve as well as the whole, if they are
/// more than [`MAX_TEXT`].
pub fn scenario_in(alloc: Global, bytes: &[u8]) -> Result<Scenario, ScenarioError>
    ensures reads { IfOk result (ReadsText bytes.now) }
    ensures refused { IfErr result (IsDueUnlessMemory bytes.now) }
{
    match parse_scenario(alloc, bytes) {
        Ok(scenario) => Ok(scenario),
        Err(rejected) => Err(rejected.error),
    }
}

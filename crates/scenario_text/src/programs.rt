//! Programs that texts mean, and their acceptance.
ghost use Rattle.std.specs.Prelude.{◌≡◌, List, IfOk, IfErr, length};
ghost use Rattle.toml.specs.Data.{get_member};
ghost use Rattle.toml.specs.View.{table_view};
ghost use Rattle.bpf_insn.specs.declared.forms.Insn.{Insn};
ghost use Rattle.bpf_verify.specs.Typable.{Typable};
ghost use Rattle.clock_nodes.specs.Listings.{clock_listing, echo_listing, say_listing};
ghost use Rattle.clock_nodes.specs.Rule.{IsRule};
ghost use Rattle.node_env.specs.Env.{IsExtent};
ghost use Rattle.bpf_verify.specs.Accepted.{IsFirstBroken};
ghost use Rattle.scenario_text.specs.Faults.{Excludes, Refuses};
ghost use Rattle.scenario_text.specs.Spelling.{MeansAt, MeansRuleAt};
ghost use Rattle.scenario_text.specs.Views.{IsAcceptedFor, extent_of};

use crate::refusal::{Place, ScenarioError};
use crate::scenario::Frame;
use crate::table::value_at;
use bpf_asm::{TextError, assemble};
use bpf_insn::Program;
use bpf_verify::{VerifiedProgram, VerifyError, verify};
use clock_nodes::{ClockRule, dolev_welch, echo, say};
use node_env::Shape;
use rule_programs::program_of_text;
use std::alloc::{AllocError, Global};
use toml::Table;

/// Returns the program that the text under a key means.
pub(crate) fn program_in(
    alloc: Global,
    table: &Table,
    place: Place,
    key: &'static str,
) -> Result<Program, ScenarioError>
    ensures program { IfOk result (MeansAt (get_member key.entry.now (table_view table.now))) }
    ensures refused { IfErr result (λ e. Excludes e ((insns : List Insn) →
        MeansAt (get_member key.entry.now (table_view table.now)) insns → ⊥)) }
{
    let Some(value) = value_at(table, key) else {
        return Err(ScenarioError::MissingKey { place, key });
    };
    let Some(text) = value.as_str() else {
        return Err(ScenarioError::WrongKind { place, key });
    };
    match assemble(alloc, text.as_bytes()) {
        Ok(program) => Ok(program),
        Err(TextError::Memory) => Err(ScenarioError::Memory(AllocError)),
        Err(error) => Err(ScenarioError::BadText { place, key, error }),
    }
}

/// Returns the program of the rule that the text under a key is.
#[tactic(auto, using(crate::proofs::ClockLemmas::rule_excluded))]
pub(crate) fn rule_in(
    alloc: Global,
    table: &Table,
    frame: Frame,
    shape: Shape,
    place: Place,
    key: &'static str,
) -> Result<VerifiedProgram, ScenarioError>
    requires { shape ≡ extent_of frame }
    ensures program { IfOk result (λ v.
        MeansRuleAt frame (get_member key.entry.now (table_view table.now)) v.program) }
    ensures fits { IfOk result (IsAcceptedFor shape) }
    ensures refused { IfErr result (λ e. Excludes e ((insns : List Insn) →
        MeansRuleAt frame (get_member key.entry.now (table_view table.now)) insns → ⊥)) }
{
    let Some(value) = value_at(table, key) else {
        return Err(ScenarioError::MissingKey { place, key });
    };
    let Some(text) = value.as_str() else {
        return Err(ScenarioError::WrongKind { place, key });
    };
    let text = text.as_bytes();
    match program_of_text(alloc, text, shape, frame.faults, frame.modulus) {
        Ok(Ok(program)) => taken(alloc, &program, shape).map_err(ScenarioError::Memory),
        Ok(Err(error)) => Err(ScenarioError::BadRule { place, key, error }),
        Err(error) => Err(ScenarioError::Memory(error)),
    }
}

/// Returns a listing, accepted.
fn taken(alloc: Global, listing: &Program, shape: Shape) -> Result<VerifiedProgram, AllocError>
    requires { Typable listing.now shape }
    ensures program { IfOk result (λ v. v.program ≡ listing.now) }
    ensures fits { IfOk result (IsAcceptedFor shape) }
{
    match verify(alloc, listing, shape) {
        Ok(verified) => Ok(verified),
        Err(VerifyError::Memory) => Err(AllocError),
        Err(VerifyError::Refused { .. }) => unreachable!(),
    }
}

/// Returns the built-in clock.
pub(crate) fn rule_clock(
    alloc: Global,
    shape: Shape,
    rule: ClockRule,
) -> Result<VerifiedProgram, AllocError>
    requires rule { IsRule rule.nodes rule.faults rule.modulus }
    requires extent { IsExtent shape.nodes shape.memory }
    requires nodes { rule.nodes ≡ shape.nodes }
    ensures program { IfOk result (λ v. v.program ≡ clock_listing rule) }
    ensures fits { IfOk result (IsAcceptedFor shape) }
{
    let listing = dolev_welch(alloc, shape, rule)?;
    taken(alloc, &listing, shape)
}

/// Returns the echo of these nodes.
pub(crate) fn echo_program(alloc: Global, shape: Shape) -> Result<VerifiedProgram, AllocError>
    requires extent { IsExtent shape.nodes shape.memory }
    ensures program { IfOk result (λ v. v.program ≡ echo_listing shape.nodes) }
    ensures fits { IfOk result (IsAcceptedFor shape) }
{
    let listing = echo(alloc, shape)?;
    taken(alloc, &listing, shape)
}

/// Returns the program of a node that sends these values.
pub fn say_program(
    alloc: Global,
    shape: Shape,
    values: &[Option<u32>],
) -> Result<VerifiedProgram, AllocError>
    requires extent { IsExtent shape.nodes shape.memory }
    requires values { length values.now ≡ shape.nodes }
    ensures program { IfOk result (λ v. v.program ≡ say_listing values.now) }
    ensures fits { IfOk result (IsAcceptedFor shape) }
{
    let listing = say(alloc, shape, values)?;
    taken(alloc, &listing, shape)
}

/// Returns the program, accepted. A refusal names the key that it comes from.
pub(crate) fn accepted(
    alloc: Global,
    program: &Program,
    shape: Shape,
    place: Place,
    key: &'static str,
) -> Result<VerifiedProgram, ScenarioError>
    ensures program { IfOk result (λ v. v.program ≡ program.now) }
    ensures fits { IfOk result (IsAcceptedFor shape) }
    ensures refused { IfErr result (λ e. Refuses e ⊥ (λ p slot. (p ≡ place) × IsFirstBroken program.now shape slot)) }
{
    match verify(alloc, program, shape) {
        Ok(verified) => Ok(verified),
        Err(VerifyError::Memory) => Err(ScenarioError::Memory(AllocError)),
        Err(VerifyError::Refused { slot, rule }) => Err(ScenarioError::NotAccepted {
            place,
            key,
            slot,
            rule,
        }),
    }
}

//! The frame of a scenario, with what is made of its numbers, and its programs.
ghost use Rattle.std.specs.Prelude.{◌≡◌, ◌↔◌, List, None, Option, IfErr, IfOk, IfSome, IsTrue, MatchOption, codes, option_map};
ghost use Rattle.bpf_insn.specs.declared.forms.Insn.{Insn};
ghost use Rattle.clock_nodes.specs.Listings.{clock_listing};
ghost use Rattle.clock_nodes.specs.Rule.{IsRule};
ghost use Rattle.node_env.specs.Env.{IsExtent};
ghost use Rattle.toml.specs.Data.{get_member};
ghost use Rattle.toml.specs.View.{table_view};
ghost use Rattle.scenario_text.specs.declared.refusal.Place.TheVariants.{Top};
ghost use Rattle.scenario_text.specs.Broken.{BrokenText};
ghost use Rattle.scenario_text.specs.Faults.{Excludes, Refuses};
ghost use Rattle.scenario_text.specs.inner.Setups.{IsReadingSetup, own_clock};
ghost use Rattle.scenario_text.specs.declared.scenario.ClockKey.TheVariants.{Clock as ClockText};
ghost use Rattle.scenario_text.specs.Spelling.{SpellsClock, HasNoText, MeansAt, MeansClock, MeansRuleAt, clock_insns, clock_key, clock_rule_of};
ghost use Rattle.scenario_text.specs.Views.{FitsFrame, IsAcceptedFor, extent_of};

use crate::programs::{accepted, echo_program, program_in, rule_clock, rule_in};
use crate::refusal::{Place, ScenarioError};
use crate::scenario::{ClockKey, Frame};
use crate::table::value_at;
use bpf_verify::VerifiedProgram;
use clock_nodes::{ClockRule, dolev_welch};
use node_env::Shape;
use std::alloc::{AllocError, Global};
use toml::Table;

/// The numbers of the top keys, the shape that they make, the clock if it isn't that of the rule, and the programs
/// that loads share: the clock and the echo.
#[derive(Drop)]
pub(crate) struct Setup {
    pub(crate) frame: Frame,
    pub(crate) shape: Shape,
    pub(crate) own: Option<VerifiedProgram>,
    pub(crate) clock: VerifiedProgram,
    pub(crate) echo: VerifiedProgram,
}

/// Returns what the assembler text of the clock means, if it is there.
fn text_clock(
    alloc: Global,
    table: &Table,
    shape: Shape,
) -> Result<Option<VerifiedProgram>, ScenarioError>
    ensures clock { IfOk result (λ clock. MatchOption clock (get_member (codes "clock") (table_view table.now) ≡ None)
        (λ v. MeansAt (get_member (codes "clock") (table_view table.now)) v.program)) }
    ensures fits { IfOk result (λ clock. IfSome clock (IsAcceptedFor shape)) }
    ensures refused { IfErr result (λ e. Refuses e
        ((get_member (codes "clock") (table_view table.now) ≡ None → ⊥)
        × ((insns : List Insn) → MeansAt (get_member (codes "clock") (table_view table.now)) insns → ⊥))
        (λ p slot. (p ≡ Top) × BrokenText (table_view table.now) (codes "clock") shape slot)) }
{
    if value_at(table, "clock").is_none() {
        return Ok(None);
    }
    let program = program_in(alloc, table, Place::Top, "clock")?;
    let clock = accepted(alloc, &program, shape, Place::Top, "clock")?;
    Ok(Some(clock))
}

/// Returns the program of the rule of the clock, if its text is there.
fn ruled_clock(
    alloc: Global,
    table: &Table,
    frame: Frame,
    shape: Shape,
) -> Result<Option<VerifiedProgram>, ScenarioError>
    requires { shape ≡ extent_of frame }
    ensures clock { IfOk result (λ clock. MatchOption clock (get_member (codes "rule") (table_view table.now) ≡ None)
        (λ v. MeansRuleAt frame (get_member (codes "rule") (table_view table.now)) v.program)) }
    ensures fits { IfOk result (λ clock. IfSome clock (IsAcceptedFor shape)) }
    ensures refused { IfErr result (λ e. Excludes e
        ((get_member (codes "rule") (table_view table.now) ≡ None → ⊥)
        × ((insns : List Insn) → MeansRuleAt frame (get_member (codes "rule") (table_view table.now)) insns → ⊥))) }
{
    if value_at(table, "rule").is_none() {
        return Ok(None);
    }
    let clock = rule_in(alloc, table, frame, shape, Place::Top, "rule")?;
    Ok(Some(clock))
}

/// Returns what the clock's text means, if it is there.
fn clock_in(
    alloc: Global,
    table: &Table,
    key: ClockKey,
    frame: Frame,
    shape: Shape,
) -> Result<Option<VerifiedProgram>, ScenarioError>
    requires { shape ≡ extent_of frame }
    ensures clock { IfOk result (λ clock. MatchOption clock (HasNoText key (table_view table.now))
        (λ v. MeansClock frame key (table_view table.now) v.program)) }
    ensures fits { IfOk result (λ clock. IfSome clock (IsAcceptedFor shape)) }
    ensures refused { IfErr result (λ e. Refuses e
        ((HasNoText key (table_view table.now) → ⊥)
        × ((insns : List Insn) → MeansClock frame key (table_view table.now) insns → ⊥))
        (λ p slot. (p ≡ Top) × (key ≡ ClockText)
        × BrokenText (table_view table.now) (codes "clock") shape slot)) }
{
    match key {
        ClockKey::Absent => Ok(None),
        ClockKey::Clock => text_clock(alloc, table, shape),
        ClockKey::Rule => ruled_clock(alloc, table, frame, shape),
    }
}

/// Returns true if a program is the built-in clock.
fn is_rule_clock(
    alloc: Global,
    own: &VerifiedProgram,
    shape: Shape,
    rule: ClockRule,
) -> Result<bool, AllocError>
    requires { rule.nodes ≡ shape.nodes }
    ensures { IfOk result (λ same. IsTrue same ↔ (own.now.program ≡ clock_listing rule)) }
{
    let listing = dolev_welch(alloc, shape, rule)?;
    Ok(own.program().same(&listing))
}

/// Returns the clock of one's own, if there is one: another than the rule's.
fn clock_at(
    alloc: Global,
    table: &Table,
    key: ClockKey,
    frame: Frame,
    shape: Shape,
    rule: ClockRule,
) -> Result<Option<VerifiedProgram>, ScenarioError>
    requires key { key ≡ clock_key (table_view table.now) }
    requires shape_is { shape ≡ extent_of frame }
    requires rule_is { rule ≡ clock_rule_of frame }
    ensures clock { IfOk result (λ clock.
        SpellsClock frame (table_view table.now) (option_map (λ v. v.program) clock)) }
    ensures fits { IfOk result (λ clock. IfSome clock (IsAcceptedFor shape)) }
    ensures refused { IfErr result (λ e. Refuses e ((clock : Option (List Insn)) →
        SpellsClock frame (table_view table.now) clock → ⊥)
        (λ p slot. (p ≡ Top) × (key ≡ ClockText)
        × BrokenText (table_view table.now) (codes "clock") shape slot)) }
{
    let Some(own) = clock_in(alloc, table, key, frame, shape)? else {
        return Ok(None);
    };
    let Ok(same) = is_rule_clock(alloc, &own, shape, rule) else {
        return Err(ScenarioError::Memory(AllocError));
    };
    if same { Ok(None) } else { Ok(Some(own)) }
}

/// Returns the clock: that of one's own, if there is one, and otherwise that of the rule.
fn clock_of(
    alloc: Global,
    own: &Option<VerifiedProgram>,
    frame: Frame,
    shape: Shape,
    rule: ClockRule,
) -> Result<VerifiedProgram, AllocError>
    requires extent { IsExtent frame.nodes frame.memory }
    requires rule { IsRule frame.nodes frame.faults frame.modulus }
    requires shape_is { shape ≡ extent_of frame }
    requires rule_is { rule ≡ clock_rule_of frame }
    requires fits { IfSome own.now (FitsFrame frame) }
    ensures clock { IfOk result (λ v. v.program ≡ clock_insns frame (option_map (λ v. v.program) own.now)) }
    ensures fits { IfOk result (FitsFrame frame) }
{
    match own {
        None => rule_clock(alloc, shape, rule),
        Some(own) => own.copy(),
    }
}

/// Returns what the numbers make, and the clock.
pub(crate) fn setup_at(
    alloc: Global,
    table: &Table,
    key: ClockKey,
    frame: Frame,
) -> Result<Setup, ScenarioError>
    requires key { key ≡ clock_key (table_view table.now) }
    requires extent { IsExtent frame.nodes frame.memory }
    requires rule { IsRule frame.nodes frame.faults frame.modulus }
    ensures frame { IfOk result (λ s. s.frame ≡ frame) }
    ensures setup { IfOk result IsReadingSetup }
    ensures clock { IfOk result (λ s. SpellsClock s.frame (table_view table.now) (own_clock s)) }
    ensures fits { IfOk result (λ s. IfSome s.own (FitsFrame s.frame)) }
    ensures refused { IfErr result (λ e. Refuses e ((clock : Option (List Insn)) →
        SpellsClock frame (table_view table.now) clock → ⊥)
        (λ p slot. (p ≡ Top) × (key ≡ ClockText)
        × BrokenText (table_view table.now) (codes "clock") (extent_of frame) slot)) }
{
    let Some(shape) = Shape::of(frame.nodes, frame.memory) else {
        unreachable!()
    };
    let Some(rule) = ClockRule::of(frame.nodes, frame.faults, frame.modulus) else {
        unreachable!()
    };
    let own = clock_at(alloc, table, key, frame, shape, rule)?;
    let Ok(clock) = clock_of(alloc, &own, frame, shape, rule) else {
        return Err(ScenarioError::Memory(AllocError));
    };
    let Ok(echo) = echo_program(alloc, shape) else {
        return Err(ScenarioError::Memory(AllocError));
    };
    Ok(Setup {
        frame,
        shape,
        own,
        clock,
        echo,
    })
}

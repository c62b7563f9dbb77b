//! The entries `[[load]]`.
ghost use Rattle.std.specs.Prelude.{◌≡◌, ◌↔◌, ℕ, List, Option, IfOk, IfErr, IsTrue, MatchResult, None, length, codes, option_map, replicate, string_bytes};
ghost use Rattle.toml.specs.Data.{get_member};
ghost use Rattle.toml.specs.View.{table_view};
ghost use Rattle.bpf_insn.specs.declared.forms.Insn.{Insn};
ghost use Rattle.scenario_text.specs.declared.scenario.Kind.{Kind as KindValue};
ghost use Rattle.scenario_text.specs.declared.scenario.Kind.TheVariants.{Asm, Rule, Say};
ghost use Rattle.clock_nodes.specs.Listings.{say_listing};
ghost use Rattle.scenario_text.specs.Drafts.{LoadDraft};
ghost use Rattle.scenario_text.specs.declared.refusal.Place.TheVariants.{Load as LoadAt};
ghost use Rattle.scenario_text.specs.Broken.{BrokenLoad, BrokenText};
ghost use Rattle.scenario_text.specs.Faults.{Excludes, Refuses};
ghost use Rattle.scenario_text.specs.inner.Faults.{IsOfSpelling};
ghost use Rattle.scenario_text.specs.inner.Setups.{IsReadingSetup, own_clock};
ghost use Rattle.scenario_text.specs.Tables.{HasText, IsArray};
ghost use Rattle.scenario_text.specs.Spelling.{source_key, load_text, kind_name, OffersKind, IsSaid, IsProgramOf, MeansAt, SpelledLoad};
ghost use Rattle.scenario_text.specs.Views.{load_draft, extent_of, FitsFrame, FitsLoad};

use crate::entries::Entry;
use crate::keys::{Key, LOAD_KEYS};
use crate::limits::{NOISE_VERSION, RULE_VERSION};
use crate::numbers::{Said, UpTo, integers_at, items_of};
use crate::programs::{accepted, program_in, rule_in, say_program};
use crate::refusal::{Place, ScenarioError};
use crate::scenario::{Kind, Load};
use crate::setup::Setup;
use crate::table::{knows_keys, number_at, text_at, value_at};
use crate::top::kind_named;
use bpf_verify::VerifiedProgram;
use std::alloc::{AllocError, Global};
use toml::Table;

/// Returns the kind's own key, if it has one.
fn source_key(kind: Kind) -> Option<Key>
    ensures { result ≡ source_key kind }
{
    match kind {
        Kind::Clock | Kind::Echo | Kind::Noise => None,
        Kind::Say => Some(Key::Values),
        Kind::Asm | Kind::Rule => Some(Key::Text),
    }
}

/// Returns true if the version has the kind.
fn has_kind(version: u32, kind: Kind) -> bool
    ensures { IsTrue result ↔ OffersKind version kind }
{
    match kind {
        Kind::Clock | Kind::Say | Kind::Echo | Kind::Asm => true,
        Kind::Rule => version as u64 >= RULE_VERSION,
        Kind::Noise => version as u64 >= NOISE_VERSION,
    }
}

/// Returns the kind that a load's table names.
#[tactic(auto, using(crate::proofs::NameLemmas::kind_by_name, crate::proofs::NameLemmas::no_kind))]
fn named_kind(table: &Table, index: usize) -> Result<Kind, ScenarioError>
    ensures fault { IfErr result IsOfSpelling }
    ensures kind { MatchResult result (λ kind. HasText (table_view table.now) (codes "program") (kind_name kind))
        (λ _. (kind : KindValue) → HasText (table_view table.now) (codes "program") (kind_name kind) → ⊥) }
{
    let place = Place::Load(index);
    let key = "program";
    let Some(value) = value_at(table, "program") else {
        return Err(ScenarioError::MissingKey { place, key });
    };
    let Some(name) = value.as_str() else {
        return Err(ScenarioError::WrongKind { place, key });
    };
    match kind_named(name) {
        Some(kind) => Ok(kind),
        None => Err(ScenarioError::UnknownProgram { load: index }),
    }
}

/// Returns the same, if the version has it.
#[tactic(auto, using(crate::proofs::NameLemmas::other_version))]
fn kind_at(table: &Table, version: u32, index: usize) -> Result<Kind, ScenarioError>
    ensures fault { IfErr result IsOfSpelling }
    ensures named { IfOk result (λ kind. HasText (table_view table.now) (codes "program") (kind_name kind)) }
    ensures kind { IfOk result (OffersKind version) }
    ensures none { IfErr result (λ _. (kind : KindValue) →
        HasText (table_view table.now) (codes "program") (kind_name kind) → OffersKind version kind → ⊥) }
{
    let kind = named_kind(table, index)?;
    if has_kind(version, kind) {
        Ok(kind)
    } else {
        Err(ScenarioError::UnknownProgram { load: index })
    }
}

/// Returns what `say` says.
#[tactic(auto, using(crate::proofs::TableLemmas::reads_length))]
fn said_at(
    alloc: Global,
    table: &Table,
    index: usize,
    nodes: u32,
) -> Result<Vec<Option<u32>>, ScenarioError>
    ensures said { IfOk result
        (λ vs. IsArray IsSaid (get_member (codes "values") (table_view table.now)) vs.items
        × (length vs.items ≡ nodes)) }
    ensures refused { IfErr result (λ e. Excludes e ((vs : List (Option ℕ)) →
        IsArray IsSaid (get_member (codes "values") (table_view table.now)) vs → length vs ≡ nodes → ⊥)) }
{
    let place = Place::Load(index);
    let array = integers_at(table, place, "values")?;
    if array.len() != nodes as usize {
        return Err(ScenarioError::OutOfRange {
            place,
            key: "values",
        });
    }
    items_of(alloc, &Said, array, place, "values")
}

/// Returns the same program once more, which its loads share.
fn shared(program: &VerifiedProgram) -> Result<VerifiedProgram, ScenarioError>
    ensures program { IfOk result (λ v. v ≡ program.now) }
    ensures refused { IfErr result (λ e. Excludes e ⊥) }
{
    program.copy().map_err(ScenarioError::Memory)
}

/// Returns the program of the text of a load.
fn text_program(
    alloc: Global,
    setup: &Setup,
    table: &Table,
    index: usize,
) -> Result<VerifiedProgram, ScenarioError>
    requires { IsReadingSetup setup.now }
    ensures program { IfOk result (λ v. MeansAt (get_member (codes "text") (table_view table.now)) v.program) }
    ensures fits { IfOk result (FitsFrame setup.now.frame) }
    ensures refused { IfErr result (λ e. Refuses e ((insns : List Insn) →
        MeansAt (get_member (codes "text") (table_view table.now)) insns → ⊥)
        (λ p slot. (p ≡ LoadAt index)
        × BrokenText (table_view table.now) (codes "text") (extent_of setup.now.frame) slot)) }
{
    let place = Place::Load(index);
    let program = program_in(alloc, table, place, "text")?;
    accepted(alloc, &program, setup.shape, place, "text")
}

/// Returns the program of the rule of a load.
fn rule_program(
    alloc: Global,
    setup: &Setup,
    table: &Table,
    index: usize,
) -> Result<VerifiedProgram, ScenarioError>
    requires { IsReadingSetup setup.now }
    ensures program { IfOk result (λ v.
        IsProgramOf setup.now.frame (own_clock setup.now) Rule (table_view table.now) v.program) }
    ensures fits { IfOk result (FitsFrame setup.now.frame) }
    ensures refused { IfErr result (λ e. Excludes e ((insns : List Insn) →
        IsProgramOf setup.now.frame (own_clock setup.now) Rule (table_view table.now) insns → ⊥)) }
{
    rule_in(
        alloc,
        table,
        setup.frame,
        setup.shape,
        Place::Load(index),
        "text",
    )
}

/// Returns no value for any node.
fn no_values(alloc: Global, nodes: u32) -> Result<Vec<Option<u32>>, AllocError>
    ensures { IfOk result (λ vs. vs.items ≡ replicate nodes None) }
{
    vec![in alloc; None; nodes as usize]
}

/// Returns the program of a load that says values.
fn said_program(
    alloc: Global,
    setup: &Setup,
    table: &Table,
    index: usize,
) -> Result<VerifiedProgram, ScenarioError>
    requires { IsReadingSetup setup.now }
    ensures program { IfOk result (λ v.
        IsProgramOf setup.now.frame (own_clock setup.now) Say (table_view table.now) v.program) }
    ensures fits { IfOk result (FitsFrame setup.now.frame) }
    ensures refused { IfErr result (λ e. Excludes e ((insns : List Insn) →
        IsProgramOf setup.now.frame (own_clock setup.now) Say (table_view table.now) insns → ⊥)) }
{
    let said = said_at(alloc, table, index, setup.frame.nodes)?;
    say_program(alloc, setup.shape, said.as_slice()).map_err(ScenarioError::Memory)
}

/// Returns the program of a load of noise, which sends nothing.
fn silent_program(alloc: Global, setup: &Setup) -> Result<VerifiedProgram, ScenarioError>
    requires { IsReadingSetup setup.now }
    ensures program { IfOk result (λ v. v.program ≡ say_listing (replicate setup.now.frame.nodes None)) }
    ensures fits { IfOk result (FitsFrame setup.now.frame) }
    ensures refused { IfErr result (λ e. Excludes e ⊥) }
{
    let Ok(nothing) = no_values(alloc, setup.frame.nodes) else {
        return Err(ScenarioError::Memory(AllocError));
    };
    say_program(alloc, setup.shape, nothing.as_slice()).map_err(ScenarioError::Memory)
}

/// Returns the program of a load.
fn program_of(
    alloc: Global,
    setup: &Setup,
    kind: Kind,
    table: &Table,
    index: usize,
) -> Result<VerifiedProgram, ScenarioError>
    requires { IsReadingSetup setup.now }
    ensures program { IfOk result (λ v.
        IsProgramOf setup.now.frame (own_clock setup.now) kind (table_view table.now) v.program) }
    ensures fits { IfOk result (FitsFrame setup.now.frame) }
    ensures refused { IfErr result (λ e. Refuses e ((insns : List Insn) →
        IsProgramOf setup.now.frame (own_clock setup.now) kind (table_view table.now) insns → ⊥)
        (λ p slot. (p ≡ LoadAt index) × (kind ≡ Asm)
        × BrokenText (table_view table.now) (codes "text") (extent_of setup.now.frame) slot)) }
{
    match kind {
        Kind::Clock => shared(&setup.clock),
        Kind::Say => said_program(alloc, setup, table, index),
        Kind::Echo => shared(&setup.echo),
        Kind::Asm => text_program(alloc, setup, table, index),
        Kind::Rule => rule_program(alloc, setup, table, index),
        Kind::Noise => silent_program(alloc, setup),
    }
}

/// Returns the text of a load, if its program is that of a text.
fn text_of(alloc: Global, kind: Kind, table: &Table) -> Result<Option<String>, AllocError>
    ensures { IfOk result (λ text. option_map (λ t. string_bytes t) text ≡ load_text kind (table_view table.now)) }
{
    match kind {
        Kind::Asm | Kind::Rule => text_at(alloc, table, "text"),
        Kind::Clock | Kind::Say | Kind::Echo | Kind::Noise => Ok(None),
    }
}

impl Entry for Load {
    ghost Draft = { LoadDraft };

    ghost draft_of = { load_draft };

    ghost spelled = { SpelledLoad };

    ghost fits = { FitsLoad };

    ghost broken = { BrokenLoad };

    ghost place = { LoadAt };

    const KEY: &'static str = "load";

    fn read(
        alloc: Global,
        setup: &Setup,
        index: usize,
        table: &Table,
    ) -> Result<Load, ScenarioError> {
        let place = Place::Load(index);
        let frame = setup.frame;
        let pulse = number_at(table, place, "pulse", 1, frame.pulses as u64)?;
        let array = integers_at(table, place, "nodes")?;
        let nodes = items_of(alloc, &UpTo(frame.nodes - 1), array, place, "nodes")?;
        let kind = kind_at(table, frame.version, index)?;
        if !knows_keys(table, &LOAD_KEYS, source_key(kind)) {
            return Err(ScenarioError::UnknownKey { place });
        }
        let program = program_of(alloc, setup, kind, table, index)?;
        let Ok(text) = text_of(alloc, kind, table) else {
            return Err(ScenarioError::Memory(AllocError));
        };
        Ok(Load {
            pulse: pulse as u32,
            nodes,
            kind,
            text,
            program,
        })
    }
}

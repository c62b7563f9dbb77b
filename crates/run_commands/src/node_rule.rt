//! The rule of a scenario that has a node's program.
ghost use Rattle.std.specs.Prelude.{◌≡◌, ◌↔◌, IfOk, IsTrue, List, MatchOption, option_map, ℕ};
ghost use Rattle.program_commands.specs.RuleListing.{IsListingOf};
ghost use Rattle.rule_programs.specs.ProgramLines.{AreLinesOfText};
ghost use Rattle.clock_nodes.specs.Listings.{clock_listing};
ghost use Rattle.scenario_text.specs.Spelling.{clock_insns, clock_rule_of};
ghost use Rattle.scenario_text.specs.Texts.{ReadsText};
ghost use Rattle.scenario_text.specs.Views.{draft_of, extent_of, frame_of, load_draft};
ghost use Rattle.run_commands.specs.NodeRule.{IsRuleOf, IsRuleWith, clock_rule_text, load_rule, sizes_for};
ghost use Rattle.run_commands.specs.inner.NodeRule.{ClockHas, LoadHas};

use bpf_insn::Program;
use clock_nodes::dolev_welch;
use node_env::Shape;
use rule_listing::list_rule;
use rule_programs::program_with_lines;
use scenario_text::{Kind, Load, ProgramText, Scenario};
use std::alloc::{AllocError, Global};

/// Returns the text of the clock, if it is a rule.
fn rule_of_clock(scenario: &Scenario) -> Option<&[u8]>
    ensures { option_map (λ text. text.now) result ≡ clock_rule_text (draft_of scenario.now).clock_text }
{
    match &scenario.clock_text {
        Some(ProgramText::Rule(text)) => Some(text.as_bytes()),
        Some(ProgramText::Assembler(_)) => None,
        None => None,
    }
}

/// Returns the text of a load, if it is a rule.
fn rule_of_load(load: &Load) -> Option<&[u8]>
    ensures { option_map (λ text. text.now) result ≡ load_rule load.now.kind (load_draft load.now).text }
{
    match load.kind {
        Kind::Rule => match &load.text {
            Some(text) => Some(text.as_bytes()),
            None => None,
        },
        Kind::Clock | Kind::Say | Kind::Echo | Kind::Asm | Kind::Noise => None,
    }
}

/// Returns the clock of the scenario's rule (docs/CLOCK.md, "The programs").
fn listed_clock(alloc: Global, scenario: &Scenario, shape: Shape) -> Result<Program, AllocError>
    requires reads { (text : List ℕ) × ReadsText text scenario.now }
    requires shape { shape ≡ extent_of (frame_of scenario.now) }
    ensures { IfOk result (λ clock. clock ≡ clock_listing (clock_rule_of (frame_of scenario.now))) }
{
    dolev_welch(alloc, shape, scenario.rule())
}

/// Returns true if this is the program of the scenario's clock.
fn is_clock(
    alloc: Global,
    scenario: &Scenario,
    shape: Shape,
    program: &Program,
) -> Result<bool, AllocError>
    requires reads { (text : List ℕ) × ReadsText text scenario.now }
    requires shape { shape ≡ extent_of (frame_of scenario.now) }
    ensures { IfOk result (λ same. IsTrue same
        ↔ (program.now ≡ clock_insns (frame_of scenario.now) (draft_of scenario.now).clock)) }
{
    match &scenario.clock {
        Some(own) => Ok(own.program().same(program)),
        None => Ok(listed_clock(alloc, scenario, shape)?.same(program)),
    }
}

/// Returns the text of the clock, if it is a rule with this program.
fn clock_with<'a>(
    alloc: Global,
    scenario: &'a Scenario,
    shape: Shape,
    program: &Program,
) -> Result<Option<&'a [u8]>, AllocError>
    requires reads { (text : List ℕ) × ReadsText text scenario.now }
    requires shape { shape ≡ extent_of (frame_of scenario.now) }
    ensures { IfOk result (λ found. MatchOption (option_map (λ text. text.now) found)
        ((text : List ℕ) → ClockHas scenario.now program.now text → ⊥) (ClockHas scenario.now program.now)) }
{
    let Some(text) = rule_of_clock(scenario) else {
        return Ok(None);
    };
    if is_clock(alloc, scenario, shape, program)? {
        Ok(Some(text))
    } else {
        Ok(None)
    }
}

/// Returns the text of a load, if it is a rule with this program.
fn load_with<'a>(load: &'a Load, program: &Program) -> Option<&'a [u8]>
    ensures { MatchOption (option_map (λ text. text.now) result)
        ((text : List ℕ) → LoadHas load.now program.now text → ⊥) (LoadHas load.now program.now) }
{
    let text = rule_of_load(load)?;
    if load.program.program().same(program) {
        Some(text)
    } else {
        None
    }
}

/// Returns the text of a rule of the scenario that has this program, if one has it: the clock's, or the first of a
/// load.
pub(crate) fn rule_of<'a>(
    alloc: Global,
    scenario: &'a Scenario,
    shape: Shape,
    program: &Program,
) -> Result<Option<&'a [u8]>, AllocError>
    requires reads { (text : List ℕ) × ReadsText text scenario.now }
    requires shape { shape ≡ extent_of (frame_of scenario.now) }
    ensures { IfOk result (λ found. IsRuleOf scenario.now program.now (option_map (λ text. text.now) found)) }
{
    if let Some(text) = clock_with(alloc, scenario, shape, program)? {
        return Ok(Some(text));
    }
    for load in scenario.loads.iter() {
        if let Some(text) = load_with(load, program) {
            return Ok(Some(text));
        }
    }
    Ok(None)
}

/// Returns the line of each instruction of a rule's program.
pub(crate) fn rule_lines(
    alloc: Global,
    scenario: &Scenario,
    shape: Shape,
    program: &Program,
    text: &[u8],
) -> Result<Vec<usize>, AllocError>
    requires shape { shape ≡ extent_of (frame_of scenario.now) }
    requires rule { IsRuleWith scenario.now program.now text.now }
    ensures { IfOk result (λ lines. AreLinesOfText (sizes_for scenario.now) text.now lines.items) }
{
    let found = program_with_lines(alloc, text, shape, scenario.faults, scenario.modulus)?;
    match found {
        Ok(listed) => Ok(listed.lines),
        Err(_refusal) => unreachable!(),
    }
}

/// Returns the listing of a rule's program, below the lines of the rule.
pub(crate) fn rule_listed(
    alloc: Global,
    scenario: &Scenario,
    shape: Shape,
    program: &Program,
    text: &[u8],
) -> Result<Vec<u8>, AllocError>
    requires shape { shape ≡ extent_of (frame_of scenario.now) }
    requires rule { IsRuleWith scenario.now program.now text.now }
    ensures { IfOk result (λ listing. IsListingOf (sizes_for scenario.now) text.now program.now listing.items) }
{
    let lines = rule_lines(alloc, scenario, shape, program, text)?;
    list_rule(alloc, text, &lines, program)
}

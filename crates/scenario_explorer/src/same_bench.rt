//! Whether a counterexample is a scenario of the bench that was explored.
ghost use Rattle.std.specs.Prelude.{◌⊎◌, ℕ, List, IfOk, IfSome, IsTrue};
ghost use Rattle.bench_moves.specs.Bed.{IsCorrect};
ghost use Rattle.scenario_text.specs.Texts.{ReadsText};
ghost use Rattle.scenario_explorer.specs.Explore.{HasItsProgram, HaveDifferentPrograms, IsOfBed};

use crate::exploring::programs_of;
use bench_moves::Bed;
use bpf_verify::VerifiedProgram;
use scenario_text::{Scenario, ScenarioError, scenario_in};
use std::alloc::{AllocError, Global};

/// Returns true if a node has the program that it has on the bed.
fn has_its_program(programs: &[Option<VerifiedProgram>], bed: &Bed, node: u32) -> bool
    ensures { IsTrue result → HasItsProgram programs.now bed.now node }
{
    let (Some(Some(ours)), Some(theirs)) = (programs.get(node as usize), bed.program(node)) else {
        return false;
    };
    ours.program().same(theirs.program())
}

/// Returns true if each correct node has the program that it has on the bed.
fn have_their_programs(programs: &[Option<VerifiedProgram>], bed: &Bed) -> bool
    ensures { IsTrue result → (i : ℕ) → IsCorrect bed.now i → HasItsProgram programs.now bed.now i }
{
    for node in 0..bed.shape().nodes() {
        if bed.is_correct(node) {
            if !has_its_program(programs, bed, node) {
                return false;
            }
        }
    }
    true
}

/// Returns true if both nodes are correct, and have different programs.
fn differ(bed: &Bed, node: u32, other: u32) -> bool
    ensures { IsTrue result → HaveDifferentPrograms bed.now }
{
    let (Some(mine), Some(theirs)) = (bed.program(node), bed.program(other)) else {
        return false;
    };
    if !bed.is_correct(node) || !bed.is_correct(other) {
        return false;
    }
    !mine.program().same(theirs.program())
}

/// Returns true if two correct nodes have different programs.
fn some_differ(bed: &Bed) -> bool
    ensures { IsTrue result → HaveDifferentPrograms bed.now }
{
    for node in 0..bed.shape().nodes() {
        for other in 0..node {
            if differ(bed, node, other) {
                return true;
            }
        }
    }
    false
}

/// Returns true if each correct node has the program that it has on the bed, or these programs differ.
fn are_its_programs(programs: &[Option<VerifiedProgram>], bed: &Bed) -> bool
    ensures { IsTrue result → ((i : ℕ) → IsCorrect bed.now i → HasItsProgram programs.now bed.now i)
        ⊎ HaveDifferentPrograms bed.now }
{
    if have_their_programs(programs, bed) {
        return true;
    }
    some_differ(bed)
}

/// Returns true if a scenario is of the bed's bench.
fn is_of_bed(alloc: Global, bed: &Bed, scenario: &Scenario) -> Result<bool, AllocError>
    requires reads { (text : List ℕ) × ReadsText text scenario.now }
    ensures { IfOk result (λ same. IsTrue same → IsOfBed bed.now scenario.now) }
{
    let shape = scenario.shape();
    if shape != bed.shape()
        || scenario.faults != bed.faults()
        || scenario.modulus != bed.modulus()
        || scenario.is_strict() != bed.is_own()
    {
        return Ok(false);
    }
    let programs = programs_of(alloc, scenario.loads.as_slice(), shape)?;
    Ok(are_its_programs(programs.as_slice(), bed))
}

/// Returns the scenario that a text says, if it is of the bed's bench.
pub(crate) fn of_bed(alloc: Global, bed: &Bed, text: &str) -> Result<Option<Scenario>, AllocError>
    ensures { IfOk result (λ o. IfSome o (λ s. ReadsText text.now s × IsOfBed bed.now s)) }
{
    let scenario = match scenario_in(alloc, text.as_bytes()) {
        Ok(scenario) => scenario,
        Err(ScenarioError::Memory(_)) => return Err(AllocError),
        Err(_error) => return Ok(None),
    };
    if is_of_bed(alloc, bed, &scenario)? {
        Ok(Some(scenario))
    } else {
        Ok(None)
    }
}

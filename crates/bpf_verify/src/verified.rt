//! Accepted programs.

ghost use Rattle.std.specs.Prelude.{◌≡◌, IfOk, IfErr, OnOk};
ghost use Rattle.bpf_verify.specs.declared.refusal.VerifyError.TheVariants.{Memory};
ghost use Rattle.bpf_verify.specs.Accepted.{IsRefusal};
ghost use Rattle.bpf_verify.specs.Typable.{Typable};
ghost use Rattle.bpf_verify.specs.Paths.{IsLongestPath};

use crate::longest::longest;
use crate::refusal::VerifyError;
use crate::walk::walk;
use bpf_insn::Program;
use bpf_record::{DecodedInsn, is_blind, records_of};
use node_env::Shape;
use std::alloc::{AllocError, Global};
use std::marker::Model;
use std::sync::Arc;

/// A program that [`verify`] accepted, for nodes of one shape. It keeps every rule of docs/VERIFIER.md; only `verify`
/// and `copy` make one, and copies share their instructions and records.
#[derive(Drop)]
pub struct VerifiedProgram {
    shared: Arc<Recorded, Global>,
    shape: Shape,
    budget: u32,
}

/// A program with its records, by which it is run, and whether it is blind.
#[derive(Drop)]
struct Recorded {
    program: Program,
    records: Vec<DecodedInsn>,
    /// True only if the program never reads its node's number.
    blind: bool,
}

impl Model for VerifiedProgram {
    ghost use Rattle.bpf_verify.specs.Accepted.{Accepted, IsVerified};

    ghost Value = { Accepted };

    ghost use Rattle.bpf_verify.specs.inner.VerifiedParts.{accepted_of, HasRecords, KnowsBlind};

    ghost view = { accepted_of };

    ghost invariant = { λ v. IsVerified (accepted_of v) × HasRecords v × KnowsBlind v };
}

/// Returns the announced count of a program that would be accepted, without making an accepted program. It refuses what
/// [`verify`] refuses, for the same reason.
#[tactic(auto, using(crate::proofs::VerdictLaws::typable_refusal))]
pub fn check(alloc: Global, program: &Program, shape: Shape) -> Result<u32, VerifyError>
    ensures typable { OnOk result (Typable program.now shape) }
    ensures longest { IfOk result (IsLongestPath program.now) }
    ensures refused { IfErr result (IsRefusal program.now shape) }
    ensures exact { Typable program.now shape → IfErr result (λ e. e ≡ Memory) }
{
    walk(alloc, program, shape)?;
    match longest(alloc, program, shape) {
        Ok(count) => Ok(count),
        Err(_) => Err(VerifyError::Memory),
    }
}

/// Accepts a program for nodes of a shape, or names the first slot whose instruction breaks a rule, and the lowest rule
/// that it breaks there. `Memory` comes where memory was short, wherever that was.
#[tactic(auto, using(crate::proofs::VerdictLaws::typable_refusal))]
pub fn verify(
    alloc: Global,
    program: &Program,
    shape: Shape,
) -> Result<VerifiedProgram, VerifyError>
    ensures accepted { IfOk result (λ v. (v.program ≡ program.now) × (v.shape ≡ shape)) }
    ensures typable { OnOk result (Typable program.now shape) }
    ensures longest { IfOk result (λ v. IsLongestPath program.now v.budget) }
    ensures refused { IfErr result (IsRefusal program.now shape) }
    ensures exact { Typable program.now shape → IfErr result (λ e. e ≡ Memory) }
{
    let budget = check(alloc, program, shape)?;
    match accepted(alloc, program, shape, budget) {
        Ok(verified) => Ok(verified),
        Err(_) => Err(VerifyError::Memory),
    }
}

fn accepted(
    alloc: Global,
    program: &Program,
    shape: Shape,
    budget: u32,
) -> Result<VerifiedProgram, AllocError>
    requires typable { Typable program.now shape }
    requires longest { IsLongestPath program.now budget }
    ensures accepted { IfOk result (λ v. (v.program ≡ program.now) × (v.shape ≡ shape)) }
    ensures longest { IfOk result (λ v. IsLongestPath program.now v.budget) }
{
    let recorded = Recorded {
        records: records_of(alloc, program)?,
        blind: is_blind(alloc, program)?,
        program: program.copy(alloc)?,
    };
    let Ok(shared) = Arc::new(alloc, recorded) else {
        return Err(AllocError);
    };
    Ok(VerifiedProgram {
        shared,
        shape,
        budget,
    })
}

impl VerifiedProgram {
    ghost use Rattle.std.specs.Prelude.{◌≡◌, ◌↔◌, IfOk, IsTrue};
    ghost use Rattle.bpf_verify.specs.Accepted.{IsVerified};
    ghost use Rattle.bpf_verify.specs.Typable.{Typable};
    ghost use Rattle.bpf_verify.specs.Paths.{IsLongestPath};
    ghost use Rattle.bpf_record.specs.Records.{AreRecords};
    ghost use Rattle.bpf_record.specs.Blind.{IsBlind};

    /// Returns the greatest number of instructions that a run can take: that of the longest path from slot 0.
    pub fn budget(&self) -> u32
        ensures value { result ≡ self.now.budget }
        ensures longest { IsLongestPath self.now.program result }
    {
        self.budget
    }

    /// Returns the shape of the nodes that it is accepted for.
    pub fn shape(&self) -> Shape
        ensures { result ≡ self.now.shape }
    {
        self.shape
    }

    /// Returns the program.
    pub fn program(&self) -> &Program
        ensures value { result.now ≡ self.now.program }
        ensures verified { IsVerified self.now }
    {
        let shared: &Recorded = &self.shared;
        &shared.program
    }

    /// Returns the records of its slots (docs/RUNNER.md, "Records"): at the slot of each instruction there is one that
    /// represents it.
    pub fn records(&self) -> &[DecodedInsn]
        ensures records { AreRecords self.now.program result.now }
        ensures verified { IsVerified self.now }
    {
        let shared: &Recorded = &self.shared;
        &shared.records
    }

    /// Returns true only if the program is blind: its run doesn't depend on its node's number (docs/RUNNER.md, "Blind
    /// programs").
    pub fn is_blind(&self) -> bool
        ensures { IsTrue result → IsBlind self.now.program }
    {
        let shared: &Recorded = &self.shared;
        shared.blind
    }

    /// Returns whether the other is the same program, accepted for the same shape: then its budget is the same too.
    /// Images are compared.
    #[tactic(auto, using(crate::proofs::VerdictLaws::one_longest))]
    pub fn same(&self, other: &VerifiedProgram) -> bool
        ensures parts { IsTrue result ↔ ((self.now.program ≡ other.now.program) × (self.now.shape ≡ other.now.shape)) }
        ensures equal { IsTrue result ↔ (self.now ≡ other.now) }
    {
        let (mine, theirs) = (self.program(), other.program());
        let same = self.shape() == other.shape() && mine.same(theirs);
        same
    }

    /// Returns an accepted program with the same instructions, shape and budget. The instructions are shared: nothing
    /// is allocated, and it fails only if no more owners can be counted.
    pub fn copy(&self) -> Result<VerifiedProgram, AllocError>
        ensures { IfOk result (λ v. v ≡ self.now) }
    {
        Ok(VerifiedProgram {
            shared: Arc::try_clone(&self.shared)?,
            shape: self.shape,
            budget: self.budget,
        })
    }
}

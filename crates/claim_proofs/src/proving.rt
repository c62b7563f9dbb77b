//! Answers to the steps of claims.
ghost use Rattle.std.specs.Prelude.{◌≡◌, ℕ, All, IfOk, IfErr, Ok};
ghost use Rattle.claim_text.specs.Claims.{IsMeant, IsMeantClaim};
ghost use Rattle.claim_proofs.specs.declared.proving.NotProved.TheVariants.{Memory};
ghost use Rattle.claim_proofs.specs.Proved.{AreRight, IsNoAnswer, IsRight, IsRightAnswer, IsRightOutcome};
ghost use Rattle.rule_text.specs.Rules.{rule_form};
ghost use Rattle.rule_text.specs.Statements.{rule_read};

use crate::reader::{CertificateError, NoCertificates, StepProof, read_certificates};
use certified_steps::{Unproved, step_holds};
use claim_text::{Claim, ClaimedLine, read_claims};
use claim_tokens::{ClaimsRefusal, ReadClaimsError};
use rule_text::{ReadRuleError, Rule, RuleError, read_rule};
use std::alloc::Global;
use step_beginnings::begins;
use step_searches::Step;

/// What the certificates say of a claim.
#[derive(Clone, Copy, Debug, PartialEq, Eq)]
pub enum Outcome {
    /// It holds for all sizes, and at these sizes some nodes begin it.
    Holds {
        nodes: u32,
        faults: u32,
        modulus: u32,
    },
    /// No certificate is for its line.
    NoCertificate,
    /// The state of its certificate doesn't begin it.
    Unbegun,
    /// Its certificate doesn't prove it.
    Rejected,
    /// Its certificate isn't judged, for this reason.
    Unjudged(Unproved),
    /// It is a property that no step says.
    NotCovered,
}

/// A step or a property of the claims, and what the certificates say of it.
#[derive(Drop)]
pub struct Answer {
    pub line: usize,
    /// Its text in the claims.
    pub text: String,
    pub claim: Claim,
    pub outcome: Outcome,
}

/// What is wrong with the rule, the claims or the certificates. Lines and columns count from 1.
#[derive(Clone, Copy, Debug, PartialEq, Eq)]
pub enum Refusal {
    Rule {
        error: RuleError,
        line: usize,
        column: usize,
    },
    Claims(ClaimsRefusal),
    Certificates(CertificateError),
}

/// Why there are no answers.
#[derive(Clone, Copy, Debug, PartialEq, Eq)]
pub enum NotProved {
    Memory,
    Refused(Refusal),
}

/// Returns the certificate of a line, if there is one.
fn proof_of(proofs: &[StepProof], line: usize) -> Option<&StepProof> {
    proofs.iter().find(|proof| proof.line == line)
}

/// Returns what a certificate says of a step.
fn judged(alloc: Global, rule: &Rule, step: &Step, proof: &StepProof) -> Result<Outcome, NotProved>
    ensures outcome { IfOk result (IsRightOutcome rule.now.statement step.now) }
    ensures refused { IfErr result (λ why. why ≡ Memory) }
{
    let holds = match step_holds(alloc, &rule.statement, step, &proof.proof) {
        Ok(holds) => holds,
        Err(Unproved::Memory) => return Err(NotProved::Memory),
        Err(why) => return Ok(Outcome::Unjudged(why)),
    };
    let beginning = &proof.beginning;
    if !begins(step, beginning) {
        return Ok(Outcome::Unbegun);
    }
    if !holds {
        return Ok(Outcome::Rejected);
    }
    Ok(Outcome::Holds {
        nodes: beginning.nodes,
        faults: beginning.faults,
        modulus: beginning.modulus,
    })
}

/// Returns what the certificates say of the step in a line.
fn judged_in(
    alloc: Global,
    rule: &Rule,
    step: &Step,
    line: usize,
    proofs: &[StepProof],
) -> Result<Outcome, NotProved>
    ensures outcome { IfOk result (IsRightOutcome rule.now.statement step.now) }
    ensures refused { IfErr result (λ why. why ≡ Memory) }
{
    match proof_of(proofs, line) {
        Some(proof) => judged(alloc, rule, step, proof),
        None => Ok(Outcome::NoCertificate),
    }
}

/// Returns what the certificates say of the claim in a line.
fn outcome_of(
    alloc: Global,
    rule: &Rule,
    claim: &Claim,
    line: usize,
    proofs: &[StepProof],
) -> Result<Outcome, NotProved>
    requires { IsMeantClaim claim.now }
    ensures outcome { IfOk result (IsRightAnswer rule.now.statement claim.now) }
    ensures refused { IfErr result (λ why. why ≡ Memory) }
{
    match claim {
        Claim::Step(step) | Claim::Property(_, step) => judged_in(alloc, rule, step, line, proofs),
        Claim::Uncovered => Ok(Outcome::NotCovered),
    }
}

/// Returns the answer to a claim about a rule.
fn answer_to(
    alloc: Global,
    text: &[u8],
    rule: &Rule,
    claimed: ClaimedLine,
    proofs: &[StepProof],
) -> Result<Answer, NotProved>
    requires reads { rule_read text.now ≡ Ok (rule_form rule.now) }
    requires meant { IsMeant claimed }
    ensures answer { IfOk result (IsRight text.now) }
    ensures refused { IfErr result (IsNoAnswer text.now) }
{
    let ClaimedLine {
        line,
        text: shown,
        claim,
    } = claimed;
    let outcome = outcome_of(alloc, rule, &claim, line, proofs)?;
    Ok(Answer {
        line,
        text: shown,
        claim,
        outcome,
    })
}

/// Returns the answers to claims about a rule.
fn answers(
    alloc: Global,
    text: &[u8],
    rule: &Rule,
    claims: Vec<ClaimedLine>,
    proofs: &[StepProof],
) -> Result<Vec<Answer>, NotProved>
    requires reads { rule_read text.now ≡ Ok (rule_form rule.now) }
    requires meant { All IsMeant claims.items }
    ensures answers { IfOk result (λ all. AreRight text.now all.items) }
    ensures refused { IfErr result (IsNoAnswer text.now) }
{
    let mut all = Vec::new(alloc);
    for claimed in claims {
        let answer = answer_to(alloc, text, rule, claimed, proofs)?;
        all.push(answer).map_err(|_| NotProved::Memory)?;
    }
    Ok(all)
}

/// Answers each step of the claims about a rule by certificates: where the answer is that it holds, the step holds of the
/// rule for all n, f and M that it admits, and some nodes begin it at the sizes of the answer. A property is answered as
/// the step from any state to where its term holds. The answers are in the order of the claims. Fails at the first error of the rule, then of the claims, then of the certificates.
pub fn prove(
    alloc: Global,
    rule: &[u8],
    claims: &[u8],
    certificates: &[u8],
) -> Result<Vec<Answer>, NotProved>
    ensures answers { IfOk result (λ all. AreRight rule.now all.items) }
    ensures refused { IfErr result (IsNoAnswer rule.now) }
{
    let read = rule_of(alloc, rule)?;
    let claims = claims_of(alloc, rule, claims)?;
    let proofs = match read_certificates(alloc, certificates) {
        Ok(proofs) => proofs,
        Err(NoCertificates::Memory) => return Err(NotProved::Memory),
        Err(NoCertificates::Error(error)) => {
            return Err(NotProved::Refused(Refusal::Certificates(error)));
        }
    };
    answers(alloc, rule, &read, claims, &proofs)
}

/// Returns the rule of a text.
fn rule_of(alloc: Global, text: &[u8]) -> Result<Rule, NotProved>
    ensures rule { IfOk result (λ rule. rule_read text.now ≡ Ok (rule_form rule)) }
    ensures refused { IfErr result (IsNoAnswer text.now) }
{
    match read_rule(alloc, text) {
        Ok(read) => Ok(read),
        Err(ReadRuleError::Memory) => Err(NotProved::Memory),
        Err(
            ReadRuleError::At {
                error,
                line,
                column,
            },
        ) => Err(NotProved::Refused(Refusal::Rule {
            error,
            line,
            column,
        })),
    }
}

/// Returns the claims of a text.
fn claims_of(alloc: Global, rule: &[u8], text: &[u8]) -> Result<Vec<ClaimedLine>, NotProved>
    ensures claims { IfOk result (λ claims. All IsMeant claims.items) }
    ensures refused { IfErr result (IsNoAnswer rule.now) }
{
    match read_claims(alloc, rule, text) {
        Ok(claims) => Ok(claims),
        Err(ReadClaimsError::Memory) => Err(NotProved::Memory),
        Err(ReadClaimsError::Refused(refusal)) => Err(NotProved::Refused(Refusal::Claims(refusal))),
    }
}

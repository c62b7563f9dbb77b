//! The lines of answers and refusals.
ghost use Rattle.std.specs.Prelude.{◌≡◌, ◌++◌, Some, OnOk, flat_map, string_bytes};
ghost use Rattle.std.specs.List.{list_all};
ghost use Rattle.claim_commands.specs.Prove.{answer_lines, certificate_text, is_proved, outcome_text, proof_refusal_line, reason};

use certified_steps::Unproved;
use claim_proofs::{Answer, CertificateError, Outcome, Refusal};
use std::alloc::AllocError;
use std::fmt;
use step_searches::Uncovered;

/// The line of a refusal, without its end.
#[derive(Clone, Copy)]
pub(crate) struct RefusalLine(pub(crate) Refusal);

/// What is said of a claim.
#[derive(Clone, Copy)]
struct OutcomeText(Outcome);

/// What is wrong with certificates.
#[derive(Clone, Copy)]
struct CertificateText(CertificateError);

/// Returns why a certificate isn't judged.
fn reason(why: Unproved) -> &'static str
    ensures { result.now ≡ reason why }
{
    match why {
        Unproved::Memory => "memory ran out",
        Unproved::Uncovered(Uncovered::Loop) => "the rule has a loop",
        Unproved::Uncovered(Uncovered::Receiver) => "the rule sends to one node",
        Unproved::Uncovered(Uncovered::Least) => "the rule has a least message",
        Unproved::Uncovered(Uncovered::Sorted) => "the rule sorts numbers",
        Unproved::Uncovered(Uncovered::Name) => "a word or a free name isn't one of the step's",
        Unproved::Silent => "the rule sends nothing on some path",
        Unproved::TooMany => "there are too many variables",
        Unproved::TooDeep => "the rule or the certificate is too deep",
        Unproved::Overflow => "a number of the certificate is too large",
    }
}

impl fmt::Display for OutcomeText {
    ghost output = { λ text. Some (outcome_text text.0) };

    fn fmt<W: fmt::Write>(&self, f: &mut fmt::Formatter<W>) -> fmt::Result {
        match self.0 {
            Outcome::Holds {
                nodes,
                faults,
                modulus,
            } => {
                write!(
                    f,
                    "holds for all n, f, M; it begins at n = {nodes}, f = {faults}, M = {modulus}"
                )
            }
            Outcome::NoCertificate => write!(f, "not proved: no certificate"),
            Outcome::Unbegun => {
                write!(
                    f,
                    "not proved: the state of the certificate doesn't begin it"
                )
            }
            Outcome::Rejected => write!(f, "not proved: the certificate doesn't prove it"),
            Outcome::Unjudged(why) => {
                let reason = reason(why);
                write!(f, "not proved: the certificate can't be judged: {reason}")
            }
            Outcome::NotCovered => write!(f, "not proved: the property isn't covered"),
        }
    }
}

impl fmt::Display for CertificateText {
    ghost output = { λ text. Some (certificate_text text.0) };

    fn fmt<W: fmt::Write>(&self, f: &mut fmt::Formatter<W>) -> fmt::Result {
        match self.0 {
            CertificateError::NotText => write!(f, "NotText"),
            CertificateError::End => write!(f, "End"),
            CertificateError::Word { number } => write!(f, "Word {number}"),
            CertificateError::TooDeep { number } => write!(f, "TooDeep word {number}"),
        }
    }
}

impl fmt::Display for RefusalLine {
    ghost output = { λ line. Some (proof_refusal_line line.0) };

    fn fmt<W: fmt::Write>(&self, f: &mut fmt::Formatter<W>) -> fmt::Result {
        match self.0 {
            Refusal::Rule {
                error,
                line,
                column,
            } => {
                let name = error.name();
                write!(f, "refused rule {name} line {line} column {column}")
            }
            Refusal::Claims(refusal) => write!(f, "{refusal}"),
            Refusal::Certificates(error) => {
                let text = CertificateText(error);
                write!(f, "refused certificate {text}")
            }
        }
    }
}

/// Returns true if a claim is proved.
fn is_proved(outcome: Outcome) -> bool
    ensures { result ≡ is_proved outcome }
{
    match outcome {
        Outcome::Holds { .. } => true,
        Outcome::NoCertificate | Outcome::Unbegun | Outcome::Rejected => false,
        Outcome::Unjudged(_) | Outcome::NotCovered => false,
    }
}

/// Returns true if all claims are proved.
pub(crate) fn are_proved(answers: &[Answer]) -> bool
    ensures { result ≡ list_all (λ answer. is_proved answer.outcome) answers.now }
{
    answers.iter().all(|answer| is_proved(answer.outcome))
}

/// Adds the lines of an answer.
fn add_answer(text: &mut String, answer: &Answer) -> Result<(), AllocError>
    ensures { OnOk result (string_bytes text.new ≡ string_bytes text.old ++ answer_lines answer.now) }
{
    let alloc = *text.allocator();
    let outcome = OutcomeText(answer.outcome);
    let line = answer.line;
    let shown = answer.text.as_str();
    let lines = format!(in alloc; "line {line}: {shown}\n  {outcome}\n")?;
    text.push_str(lines.as_str())
}

/// Adds the lines of all answers.
pub(crate) fn add_answers(text: &mut String, answers: &[Answer]) -> Result<(), AllocError>
    ensures { OnOk result (string_bytes text.new ≡ string_bytes text.old ++ flat_map answer_lines answers.now) }
{
    for answer in answers {
        add_answer(text, answer)?;
    }
    Ok(())
}

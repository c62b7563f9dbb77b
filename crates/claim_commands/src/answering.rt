//! The answers of `prove`.
ghost use Rattle.std.specs.Prelude.{◌≡◌, ◌++◌, IfErr, IfOk, Ok, Err, OnOk, codes, string_bytes};
ghost use Rattle.claim_proofs.specs.Proved.{AreRight, IsProofRefusal};
ghost use Rattle.claim_commands.specs.Prove.{Proves, proved_ending, proved_text, proof_refusal_line};
ghost use Rattle.command_answers.specs.declared.ending.Ending.TheVariants.{Refused};
ghost use Rattle.command_answers.specs.Faults.{IsFaultOfText, IsOutOfMemory};
ghost use Rattle.command_answers.specs.inner.Responses.{IsNoted, IsResponse};

use crate::lines::{RefusalLine, add_answers, are_proved};
use claim_proofs::{Answer, NotProved, Refusal, prove};
use claim_tokens::ClaimsRefusal;
use command_answers::{Ending, Fault, Response, TEXT_BYTES};
use requests::ProveOptions;
use rule_notes::{Note, note_on_rule};
use std::alloc::{AllocError, Global};

/// Answers each step of the claims about a rule by certificates, and says what is wrong with a rule, claims or
/// certificates that aren't read.
pub fn prove_claims(
    alloc: Global,
    options: &ProveOptions,
    certificates: &[u8],
) -> Result<Response, Fault>
    ensures response { IfOk result (IsResponse (Proves options.now) proved_text proved_ending) }
    ensures noted { IfOk result IsNoted }
    ensures fault { IfErr result (IsFaultOfText certificates.now) }
{
    if certificates.len() > TEXT_BYTES {
        return Err(Fault::Read);
    }
    let rule = options.rule.as_bytes();
    match prove(alloc, rule, options.claims.as_bytes(), certificates) {
        Ok(answers) => told(alloc, &answers),
        Err(NotProved::Memory) => Err(Fault::Memory),
        Err(NotProved::Refused(refusal)) => refused(alloc, options, refusal),
    }
}

/// Returns the lines of answers.
fn told(alloc: Global, answers: &Vec<Answer>) -> Result<Response, Fault>
    ensures text { IfOk result (λ response. response.text.items ≡ proved_text (Ok answers.now)) }
    ensures ending { IfOk result (λ response. response.ending ≡ proved_ending (Ok answers.now)) }
    ensures noted { IfOk result IsNoted }
    ensures fault { IfErr result IsOutOfMemory }
{
    let mut text = String::new(alloc);
    add_answers(&mut text, answers).map_err(|_| Fault::Memory)?;
    let ending = if are_proved(answers) {
        Ending::Done
    } else {
        Ending::Unfinished
    };
    Ok(Response::without_note(text.into_bytes(), ending))
}

/// Returns the line of a refusal, with a note if there is one.
fn refused(alloc: Global, options: &ProveOptions, refusal: Refusal) -> Result<Response, Fault>
    ensures text { IfOk result (λ response. response.text.items ≡ proof_refusal_line refusal ++ codes "\n") }
    ensures ending { IfOk result (λ response. response.ending ≡ Refused) }
    ensures noted { IfOk result IsNoted }
    ensures fault { IfErr result IsOutOfMemory }
{
    let shown = RefusalLine(refusal);
    let line = format!(in alloc; "{shown}\n").map_err(|_| Fault::Memory)?;
    Ok(Response {
        text: line.into_bytes(),
        ending: Ending::Refused,
        note: note_on(alloc, options, refusal).unwrap_or(None),
    })
}

/// Returns the note on a refusal.
fn note_on(
    alloc: Global,
    options: &ProveOptions,
    refusal: Refusal,
) -> Result<Option<Note>, AllocError> {
    match refusal {
        Refusal::Rule {
            error,
            line,
            column,
        } => note_on_rule(alloc, options.rule.as_bytes(), error, line, column),
        Refusal::Claims(refusal) => {
            let ClaimsRefusal { line, column, .. } = refusal;
            let words = format!(in alloc; "line {line}, column {column} of the claims")?;
            Ok(Note::of(alloc, words))
        }
        Refusal::Certificates(_error) => {
            let words = format!(in alloc;
                "tools/all_sizes.py --certificate FILE RULE CLAIMS writes certificates"
            )?;
            Ok(Note::of(alloc, words))
        }
    }
}

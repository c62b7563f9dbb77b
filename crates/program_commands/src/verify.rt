//! `verify`: accepts a program for nodes of a shape, or refuses it.
ghost use Rattle.std.specs.Prelude.{◌≡◌, IfOk, IfErr, IsSome};
ghost use Rattle.command_answers.specs.declared.ending.Ending.TheVariants.{Refused};
ghost use Rattle.command_answers.specs.Faults.{IsOutOfMemory};
ghost use Rattle.program_commands.specs.Verdict.{Judges, JudgesProgram, judged_ending, judged_text, text_of_verdict, verdict_ending};
ghost use Rattle.command_answers.specs.inner.Responses.{IsNoted, IsResponse};

use crate::program::{ProgramRead, program_read};
use crate::verdict::{Verdict, verdict_in};
use crate::verdict_note::verdict_note;
use bpf_verify::{VerifyError, check, explain};
use command_answers::{Fault, Rejection, Response, rejected};
use requests::ShapeOptions;
use rule_notes::Note;
use std::alloc::Global;

/// Accepts the program of these bytes, or refuses it.
pub fn verify(alloc: Global, options: ShapeOptions, bytes: &[u8]) -> Result<Response, Fault>
    ensures response { IfOk result (IsResponse (Judges options bytes.now) judged_text judged_ending) }
    ensures noted { IfOk result IsNoted }
    ensures fault { IfErr result IsOutOfMemory }
{
    let found = program_read(alloc, options, false, bytes)?;
    match found {
        Ok(read) => verdict_response(alloc, &read),
        Err(unread) => rejected(alloc, &Rejection::Program(unread), bytes),
    }
}

/// The verdict on a program, and the note on it.
#[derive(Drop)]
struct Judged {
    verdict: Verdict,
    note: Option<Note>,
}

/// Returns the line of the verdict on a program.
fn verdict_response(alloc: Global, read: &ProgramRead) -> Result<Response, Fault>
    ensures response { IfOk result
        (IsResponse (JudgesProgram read.now.program read.now.shape) text_of_verdict verdict_ending) }
    ensures noted { IfOk result IsNoted }
    ensures fault { IfErr result IsOutOfMemory }
{
    let Judged { verdict, note } = verdict_on(alloc, read)?;
    match format!(in alloc; "{verdict}\n") {
        Ok(line) => Ok(Response {
            text: line.into_bytes(),
            ending: verdict.ending(),
            note,
        }),
        Err(_) => Err(Fault::Memory),
    }
}

/// Returns what the verifier says of a program.
fn verdict_on(alloc: Global, read: &ProgramRead) -> Result<Judged, Fault>
    ensures verdict { IfOk result (λ judged.
        JudgesProgram read.now.program read.now.shape judged.verdict) }
    ensures noted { IfOk result (λ judged.
        IsSome judged.note → verdict_ending judged.verdict ≡ Refused) }
    ensures fault { IfErr result IsOutOfMemory }
{
    match check(alloc, &read.program, read.shape) {
        Ok(announced) => Ok(Judged {
            verdict: Verdict::Accepted {
                slots: read.program.slot_count(),
                announced,
            },
            note: None,
        }),
        Err(VerifyError::Refused { .. }) => explained_verdict(alloc, read),
        Err(VerifyError::Memory) => Err(Fault::Memory),
    }
}

/// Returns what the table of what is known at a program's slots says of it.
fn explained_verdict(alloc: Global, read: &ProgramRead) -> Result<Judged, Fault>
    ensures verdict { IfOk result (λ judged.
        JudgesProgram read.now.program read.now.shape judged.verdict) }
    ensures noted { IfOk result (λ judged.
        IsSome judged.note → verdict_ending judged.verdict ≡ Refused) }
    ensures fault { IfErr result IsOutOfMemory }
{
    let Ok(findings) = explain(alloc, &read.program, read.shape) else {
        return Err(Fault::Memory);
    };
    let verdict = verdict_in(&read.program, &findings);
    let note = verdict_note(alloc, read, &findings, None);
    Ok(Judged { verdict, note })
}

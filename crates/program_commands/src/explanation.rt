//! `verify --text`, `verify --explain`: the verdict on a text or an image, and what is known at its slots.
ghost use Rattle.std.specs.Prelude.{◌≡◌, IfOk, IfErr, IsSome, string_bytes};
ghost use Rattle.bpf_verify.specs.Findings.{AreFindings};
ghost use Rattle.program_commands.specs.Explained as told_specs;
ghost use Rattle.command_answers.specs.declared.ending.Ending.TheVariants.{Refused};
ghost use Rattle.command_answers.specs.Faults.{IsFaultOfProgram};
ghost use Rattle.command_answers.specs.inner.Responses.{IsNoted, IsResponse};
ghost use Rattle.program_commands.specs.Verdict.{verdict_ending};
ghost use Rattle.requests.specs.Shapes.{asked_extent};

use crate::program::{ProgramRead, program_read};
use crate::verdict::verdict_in;
use crate::verdict_note::verdict_note;
use bpf_asm::instruction_lines;
use bpf_explain::{reason, rows};
use bpf_insn::Program;
use bpf_verify::{Findings, explain};
use command_answers::{Ending, Fault, Rejection, Response, rejected};
use node_env::Shape;
use requests::{Detail, ExplainOptions};
use rule_notes::Note;
use std::alloc::{AllocError, Global};

/// What is told, how the command ends that writes it, and the note on it.
#[derive(Drop)]
struct Told {
    text: String,
    ending: Ending,
    note: Option<Note>,
}

fn rows_told(
    alloc: Global,
    program: &Program,
    shape: Shape,
    findings: &Findings,
    lines: &[usize],
    detail: Option<Detail>,
) -> Result<String, AllocError>
    requires { AreFindings program.now shape findings.now }
    ensures { IfOk result (λ text. string_bytes text
        ≡ told_specs.rows_told program.now shape findings.now lines.now detail) }
{
    match detail {
        None => Ok(String::new(alloc)),
        Some(detail) => rows(alloc, program, shape, findings, detail, lines),
    }
}

fn reason_told(
    alloc: Global,
    program: &Program,
    shape: Shape,
    findings: &Findings,
    detail: Option<Detail>,
) -> Result<String, AllocError>
    ensures { IfOk result (λ text. string_bytes text
        ≡ told_specs.reason_told program.now shape findings.now detail) }
{
    match detail {
        None => Ok(String::new(alloc)),
        Some(_detail) => reason(alloc, program, shape, findings),
    }
}

/// Returns all that is told of a program.
fn explained_text(
    alloc: Global,
    program: &Program,
    shape: Shape,
    findings: &Findings,
    lines: &[usize],
    detail: Option<Detail>,
) -> Result<String, AllocError>
    requires { AreFindings program.now shape findings.now }
    ensures { IfOk result (λ text. string_bytes text
        ≡ told_specs.explained_text program.now shape findings.now lines.now detail) }
{
    let told = rows_told(alloc, program, shape, findings, lines, detail)?;
    let why = reason_told(alloc, program, shape, findings, detail)?;
    let verdict = verdict_in(program, findings);
    format!(in alloc; "{told}{verdict}\n{why}")
}

/// Returns the note on the verdict on a program of these bytes: none if the output has the reason.
fn explained_note(
    alloc: Global,
    options: ExplainOptions,
    read: &ProgramRead,
    findings: &Findings,
    bytes: &[u8],
) -> Option<Note>
    ensures { IsSome result
        → verdict_ending (told_specs.verdict_in read.now.program findings.now.verdict) ≡ Refused }
{
    match options.detail {
        Some(_detail) => None,
        None if options.text => verdict_note(alloc, read, findings, Some(bytes)),
        None => verdict_note(alloc, read, findings, None),
    }
}

/// Returns what is told of a program that was read from these bytes. Its instructions are on these lines of a text; an
/// image has no lines.
fn explain_program(
    alloc: Global,
    options: ExplainOptions,
    read: &ProgramRead,
    lines: &[usize],
    bytes: &[u8],
) -> Result<Told, AllocError>
    requires { read.now.shape ≡ asked_extent options.shape }
    ensures told { IfOk result (λ told. told_specs.ExplainsProgram options lines.now read.now.program
        (told_specs.explanation (string_bytes told.text) told.ending)) }
    ensures noted { IfOk result (λ told. IsSome told.note → told.ending ≡ Refused) }
{
    let program = &read.program;
    let findings = explain(alloc, program, read.shape)?;
    let text = explained_text(alloc, program, read.shape, &findings, lines, options.detail)?;
    let ending = verdict_in(program, &findings).ending();
    let note = explained_note(alloc, options, read, &findings, bytes);
    Ok(Told { text, ending, note })
}

/// Returns the lines of the instructions of a text; an image has none.
fn lines_of(alloc: Global, text: bool, bytes: &[u8]) -> Result<Vec<usize>, AllocError>
    ensures { IfOk result (λ lines. lines.items ≡ told_specs.lines_if_text text bytes.now) }
{
    if text {
        instruction_lines(alloc, bytes)
    } else {
        Ok(Vec::new(alloc))
    }
}

/// Returns what is told of a program that was read from these bytes.
fn explain_read(
    alloc: Global,
    options: ExplainOptions,
    read: &ProgramRead,
    bytes: &[u8],
) -> Result<Told, AllocError>
    requires { read.now.shape ≡ asked_extent options.shape }
    ensures told { IfOk result (λ told. told_specs.ExplainsProgram options
        (told_specs.lines_if_text options.text bytes.now) read.now.program
        (told_specs.explanation (string_bytes told.text) told.ending)) }
    ensures noted { IfOk result (λ told. IsSome told.note → told.ending ≡ Refused) }
{
    let lines = lines_of(alloc, options.text, bytes)?;
    explain_program(alloc, options, read, lines.as_slice(), bytes)
}

/// Returns the verdict on the program of these bytes, and what is known at its slots.
pub fn explanation(alloc: Global, options: ExplainOptions, bytes: &[u8]) -> Result<Response, Fault>
    ensures response { IfOk result
        (IsResponse (told_specs.Explains options bytes.now) (λ told. told.text) (λ told. told.ending)) }
    ensures noted { IfOk result IsNoted }
    ensures fault { IfErr result (IsFaultOfProgram options.text bytes.now) }
{
    let found = program_read(alloc, options.shape, options.text, bytes)?;
    match found {
        Ok(read) => match explain_read(alloc, options, &read, bytes) {
            Ok(told) => Ok(Response {
                text: told.text.into_bytes(),
                ending: told.ending,
                note: told.note,
            }),
            Err(_) => Err(Fault::Memory),
        },
        Err(unread) => rejected(alloc, &Rejection::Program(unread), bytes),
    }
}

//! What is said after the verdict on a program that breaks a rule.
ghost use Rattle.std.specs.Prelude.{◌≡◌, IsSome};
ghost use Rattle.command_answers.specs.declared.ending.Ending.TheVariants.{Refused};
ghost use Rattle.program_commands.specs.Explained.{verdict_in};
ghost use Rattle.program_commands.specs.Verdict.{verdict_ending};

use crate::program::ProgramRead;
use bpf_verify::{Findings, Verdict};
use rule_notes::Note;
use scenario_notes::note_on_program;
use std::alloc::Global;

/// Returns the note on these findings of a program: of a refusal the rule and why it is broken, with the line if there is
/// a text. There is none if the program breaks no rule, or memory runs out.
pub(crate) fn verdict_note(
    alloc: Global,
    read: &ProgramRead,
    findings: &Findings,
    text: Option<&[u8]>,
) -> Option<Note>
    ensures { IsSome result → verdict_ending (verdict_in read.now.program findings.now.verdict) ≡ Refused }
{
    match findings.verdict() {
        Verdict::Refused { .. } => {
            note_on_program(alloc, &read.program, read.shape, findings, text).ok()?
        }
        Verdict::Accepted { .. } => None,
    }
}

//! What `verify` answers, and the line that says it.
ghost use Rattle.std.specs.Prelude.{◌≡◌, Some};
ghost use Rattle.program_commands.specs.Explained as told_specs;
ghost use Rattle.program_commands.specs.Verdict.{verdict_line};

use bpf_insn::Program;
use bpf_verify::{Findings, Rule};
use command_answers::Ending;
use std::fmt;

/// What the verifier says of a program.
#[derive(Clone, Copy, Debug, PartialEq, Eq)]
pub enum Verdict {
    /// The slots of the program, and the instructions on its longest path.
    Accepted { slots: u32, announced: u32 },
    /// The first slot whose instruction breaks a rule, and the rule.
    Refused { slot: u32, rule: Rule },
}

impl Verdict {
    ghost use Rattle.std.specs.Prelude.{◌≡◌};
    ghost use Rattle.program_commands.specs.Verdict.{verdict_ending};

    /// Returns how the command ends that wrote it.
    pub fn ending(&self) -> Ending
        ensures { result ≡ verdict_ending self.now }
    {
        match self {
            Verdict::Refused { .. } => Ending::Refused,
            Verdict::Accepted { .. } => Ending::Done,
        }
    }
}

impl fmt::Display for Verdict {
    ghost output = { λ verdict. Some (verdict_line verdict) };

    fn fmt<W: fmt::Write>(&self, f: &mut fmt::Formatter<W>) -> fmt::Result {
        match self {
            Verdict::Accepted { slots, announced } => {
                write!(f, "accepted slots {slots} announced {announced}")
            }
            Verdict::Refused { slot, rule } => {
                write!(f, "refused rule {} slot {slot}", rule.number())
            }
        }
    }
}

/// Returns the verdict of findings.
pub(crate) fn verdict_in(program: &Program, findings: &Findings) -> Verdict
    ensures { result ≡ told_specs.verdict_in program.now findings.now.verdict }
{
    match findings.verdict() {
        bpf_verify::Verdict::Accepted { announced } => Verdict::Accepted {
            slots: program.slot_count(),
            announced,
        },
        bpf_verify::Verdict::Refused { slot, rule } => Verdict::Refused { slot, rule },
    }
}

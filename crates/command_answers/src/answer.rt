//! What `exec` answers, and the line that says it.
ghost use Rattle.std.specs.Prelude.{Some};
ghost use Rattle.command_answers.specs.Answer.{answer_line};

use bpf_machine::Outcome;
use std::fmt;

/// What a run came to, and the fuel that it had. A trap and the end of fuel are results.
#[derive(Clone, Copy, Debug, PartialEq, Eq)]
pub struct Answer {
    pub outcome: Outcome,
    pub fuel: u64,
}

impl fmt::Display for Answer {
    ghost output = { λ answer. Some (answer_line answer) };

    fn fmt<W: fmt::Write>(&self, f: &mut fmt::Formatter<W>) -> fmt::Result {
        match self.outcome {
            Outcome::Ended { r0, steps } => write!(f, "r0 {r0} steps {steps}"),
            Outcome::Trap { slot, kind } => {
                write!(f, "trap {} {kind} slot {slot}", kind.number())
            }
            Outcome::OutOfFuel => {
                let fuel = self.fuel;
                write!(f, "out of fuel {fuel}")
            }
        }
    }
}

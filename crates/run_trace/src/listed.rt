//! A run of a rule's program, told below the lines of the rule.

ghost use Rattle.std.specs.Prelude.{◌≡◌, ◌++◌, IfOk, OnOk, codes, length};
ghost use Rattle.bpf_machine.specs.Run.{RunAnswers};
ghost use Rattle.rule_listing.specs.Listing.{heading_by};
ghost use Rattle.run_trace.specs.Lines.{listed_text};
ghost use Rattle.run_trace.specs.Steps.{steps_of};
ghost use Rattle.run_trace.specs.inner.Parts.{step_line_in};

use crate::line::Line;
use crate::telling::told_step;
use bpf_insn::Program;
use bpf_machine::{Outcome, State, Turn};
use node_env::{Env, Outbox};
use rule_listing::{line_at, push_heading};
use std::alloc::{AllocError, Global};

/// The program of a rule, the rule's text, and the line of each instruction: entry k of `lines` is for slot k + 1, as
/// `program_with_lines` of `rule_programs` returns them.
#[derive(Clone, Copy)]
pub struct RuleCode<'a> {
    pub program: &'a Program,
    pub text: &'a [u8],
    pub lines: &'a [usize],
}

/// Adds the line of a step.
fn push_step(alloc: Global, listing: &mut Vec<u8>, line: &Line) -> Result<(), AllocError>
    ensures { OnOk result (listing.new.items ≡ listing.old.items ++ (step_line_in line.now ++ codes "\n")) }
{
    let text = format!(in alloc; "{line}\n")?;
    listing.extend_from_slice(text.as_bytes())
}

/// What a run came to, and the lines of its steps.
#[derive(Drop)]
pub struct ListedRun {
    pub outcome: Outcome,
    pub listing: Vec<u8>,
}

/// Runs a program as [`trace`](crate::trace) does, and returns the lines of its steps, each below the row of the rule's
/// line that made its instruction, if the step before is of another one (docs/RULES.md, "Lines and instructions"). Fails
/// only if memory runs out. Then `memory` and `outbox` hold what the steps before wrote.
pub fn listed_trace(
    alloc: Global,
    rule: &RuleCode,
    env: &Env,
    memory: &mut [u8],
    outbox: &mut Outbox,
    fuel: u64,
) -> Result<ListedRun, AllocError>
    requires memory { length memory.old ≡ env.now.shape.memory }
    requires nodes { outbox.old.nodes ≡ env.now.shape.nodes }
    ensures run { IfOk result (λ ran. RunAnswers rule.now.program.now env.now memory.old fuel memory.new outbox.new.sent
        ran.outcome) }
    ensures nodes { outbox.new.nodes ≡ outbox.old.nodes }
    ensures listing { IfOk result (λ ran. ran.listing.items
        ≡ listed_text rule.now.text.now rule.now.lines.now rule.now.program.now
        (steps_of rule.now.program.now env.now memory.old fuel)) }
{
    let RuleCode {
        program,
        text,
        lines,
    } = *rule;
    outbox.clear();
    let mut state = State::entry(env);
    let mut listing = Vec::new(alloc);
    let mut before = 0;
    for taken in 0..fuel {
        let line = line_at(lines, state.slot() as usize);
        push_heading(alloc, &mut listing, text, before, line)?;
        let (turn, told) = told_step(program, env, &mut state, memory, outbox, taken + 1);
        push_step(alloc, &mut listing, &told)?;
        match turn {
            Turn::Next => before = line,
            Turn::Ended(r0) => {
                let outcome = Outcome::Ended {
                    r0,
                    steps: taken + 1,
                };
                return Ok(ListedRun { outcome, listing });
            }
            Turn::Trap(kind) => {
                let outcome = Outcome::Trap {
                    slot: state.slot(),
                    kind,
                };
                return Ok(ListedRun { outcome, listing });
            }
        }
    }
    let outcome = Outcome::OutOfFuel;
    Ok(ListedRun { outcome, listing })
}

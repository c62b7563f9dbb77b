//! A run, from its first line to its last.

ghost use Rattle.std.specs.Prelude.{◌≡◌, ◌++◌, IfErr, IfOk, codes, length};
ghost use Rattle.bpf_machine.specs.Run.{RunAnswers};
ghost use Rattle.run_trace.specs.Steps.{steps_of};
ghost use Rattle.run_trace.specs.Traces.{LeavesTrace};
ghost use Rattle.run_trace.specs.inner.Parts.{step_line_in};
ghost use Rattle.stream_io.specs.Parts.{Adds, HasPartCause, IsPartFault};

use crate::line::Line;
use crate::telling::told_step;
use bpf_insn::Program;
use bpf_machine::{Outcome, State, Turn};
use node_env::{Env, Outbox};
use std::alloc::Global;
use stream_io::{PartFault, Sink, write_part};

/// What a run came to whose steps were told, and how many bytes were written: no more are counted than the number has
/// room for.
#[derive(Clone, Copy, Debug, PartialEq, Eq)]
pub struct Traced {
    pub outcome: Outcome,
    pub written: u64,
}

/// Writes the line with its end after this many bytes, and answers how many there are then.
fn write_line<W: Sink>(
    alloc: Global,
    out: &mut W,
    before: u64,
    line: &Line,
) -> Result<u64, PartFault>
    ensures told { IfOk result
        (Adds (W.contents out.old) (W.contents out.new) before (step_line_in line.now ++ codes "\n")) }
    ensures fault { IfErr result
        (IsPartFault (W.contents out.old) (W.contents out.new) before (step_line_in line.now ++ codes "\n")) }
    ensures cause { IfErr result (HasPartCause (W.has_failed out.new)) }
{
    let text = format!(in alloc; "{line}\n")?;
    write_part(out, before, text.as_bytes())
}

/// Runs a program as `run_checked` of `bpf_machine` does, and writes a line for each step once it is taken, and for the
/// state in which the run gets stuck (docs/COMMANDS.md, "A trace"). The outbox is emptied first. `memory` is the
/// node's, and `outbox` has a slot for each node. After a fault they hold what the steps before wrote.
pub fn trace<W: Sink>(
    alloc: Global,
    program: &Program,
    env: &Env,
    memory: &mut [u8],
    outbox: &mut Outbox,
    fuel: u64,
    out: &mut W,
) -> Result<Traced, PartFault>
    requires memory { length memory.old ≡ env.now.shape.memory }
    requires nodes { outbox.old.nodes ≡ env.now.shape.nodes }
    ensures run { IfOk result (λ traced. RunAnswers program.now env.now memory.old fuel memory.new outbox.new.sent
        traced.outcome) }
    ensures nodes { outbox.new.nodes ≡ outbox.old.nodes }
    ensures trace { LeavesTrace (W.contents out.old) (W.contents out.new) program.now
        (steps_of program.now env.now memory.old fuel) result }
    ensures cause { IfErr result (HasPartCause (W.has_failed out.new)) }
{
    outbox.clear();
    let mut state = State::entry(env);
    let mut written = 0;
    for taken in 0..fuel {
        let (turn, line) = told_step(program, env, &mut state, memory, outbox, taken + 1);
        written = write_line(alloc, out, written, &line)?;
        match turn {
            Turn::Next => {}
            Turn::Ended(r0) => {
                let outcome = Outcome::Ended {
                    r0,
                    steps: taken + 1,
                };
                return Ok(Traced { outcome, written });
            }
            Turn::Trap(kind) => {
                let outcome = Outcome::Trap {
                    slot: state.slot(),
                    kind,
                };
                return Ok(Traced { outcome, written });
            }
        }
    }
    let outcome = Outcome::OutOfFuel;
    Ok(Traced { outcome, written })
}

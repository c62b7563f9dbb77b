//! Runs: one loop, whether a run is told step by step or not.

ghost use Rattle.std.specs.Prelude.{◌≡◌, List, ℕ, length};
ghost use Rattle.std.specs.Ordering.{nat_cmp};
ghost use Rattle.std.specs.FinMap.{FinMap};
ghost use Rattle.bpf_machine.specs.Machine.{state_of};
ghost use Rattle.bpf_machine.specs.Run.{RunAnswers, Turns};
ghost use Rattle.bpf_machine.specs.declared.word.Outcome.{Outcome};
ghost use Rattle.bpf_machine.specs.inner.Parts.{WentOn};

use crate::state::State;
use crate::turn::turn;
use crate::word::{Outcome, Turn};
use bpf_insn::Program;
use node_env::{Env, Outbox};

/// How many steps led on from the state, at most `fuel`, and what came then: `Next` if all did. The one caller of
/// the turn, so that LLVM builds it into the loop.
#[inline(never)]
fn go_on(
    program: &Program,
    env: &Env,
    state: &mut State,
    memory: &mut [u8],
    outbox: &mut Outbox,
    fuel: u64,
) -> (u64, Turn)
    requires memory { length memory.old ≡ env.now.shape.memory }
    requires nodes { outbox.old.nodes ≡ env.now.shape.nodes }
    ensures went { WentOn program.now env.now fuel (state_of state.old memory.old outbox.old.sent)
        (state_of state.new memory.new outbox.new.sent) result.0 result.1 }
    ensures nodes { outbox.new.nodes ≡ outbox.old.nodes }
{
    for taken in 0..fuel {
        match turn(program, env, state, memory, outbox) {
            Turn::Next => {}
            Turn::Ended(r0) => return (taken, Turn::Ended(r0)),
            Turn::Trap(kind) => return (taken, Turn::Trap(kind)),
        }
    }
    (fuel, Turn::Next)
}

/// Runs the instruction at the state's slot. At the end of the run and at a trap nothing changes.
/// `memory` is the node's, and `outbox` has a slot for each node.
pub fn step(
    program: &Program,
    env: &Env,
    state: &mut State,
    memory: &mut [u8],
    outbox: &mut Outbox,
) -> Turn
    requires memory { length memory.old ≡ env.now.shape.memory }
    requires nodes { outbox.old.nodes ≡ env.now.shape.nodes }
    ensures turns { Turns program.now env.now (state_of state.old memory.old outbox.old.sent)
        (state_of state.new memory.new outbox.new.sent) result }
    ensures nodes { outbox.new.nodes ≡ outbox.old.nodes }
{
    let (_, turn) = go_on(program, env, state, memory, outbox, 1);
    turn
}

fn run(program: &Program, env: &Env, memory: &mut [u8], outbox: &mut Outbox, fuel: u64) -> Outcome
    requires memory { length memory.old ≡ env.now.shape.memory }
    requires nodes { outbox.old.nodes ≡ env.now.shape.nodes }
    ensures run { RunAnswers program.now env.now memory.old fuel memory.new outbox.new.sent result }
    ensures nodes { outbox.new.nodes ≡ outbox.old.nodes }
{
    outbox.clear();
    let mut state = State::entry(env);
    let (taken, turn) = go_on(program, env, &mut state, memory, outbox, fuel);
    match turn {
        Turn::Next => Outcome::OutOfFuel,
        Turn::Ended(r0) => Outcome::Ended {
            r0,
            steps: taken + 1,
        },
        Turn::Trap(kind) => Outcome::Trap {
            slot: state.slot(),
            kind,
        },
    }
}

/// Runs a program from its entry for at most `fuel` steps (docs/MACHINE.md). The outbox is emptied first. After a
/// trap and where the fuel runs out, memory and outbox hold what the steps before wrote. `memory` is the node's,
/// and `outbox` has a slot for each node.
pub fn run_checked(
    program: &Program,
    env: &Env,
    memory: &mut [u8],
    outbox: &mut Outbox,
    fuel: u64,
) -> Outcome
    requires memory { length memory.old ≡ env.now.shape.memory }
    requires nodes { outbox.old.nodes ≡ env.now.shape.nodes }
    ensures run { RunAnswers program.now env.now memory.old fuel memory.new outbox.new.sent result }
    ensures only { (left : List ℕ) (sent : FinMap nat_cmp ℕ) (answer : Outcome)
        → RunAnswers program.now env.now memory.old fuel left sent answer
        → (result ≡ answer) × (memory.new ≡ left) × (outbox.new.sent ≡ sent) }
    ensures nodes { outbox.new.nodes ≡ outbox.old.nodes }
{
    run(program, env, memory, outbox, fuel)
}

//! A step that is taken and told.

ghost use Rattle.std.specs.Prelude.{◌≡◌, length};
ghost use Rattle.bpf_machine.specs.Machine.{state_of};
ghost use Rattle.bpf_machine.specs.Run.{Turns};
ghost use Rattle.bpf_machine.specs.Traps.{held};
ghost use Rattle.run_trace.specs.Lines.{read_texts, trace_line};
ghost use Rattle.run_trace.specs.Steps.{step_at};
ghost use Rattle.run_trace.specs.inner.Parts.{step_line_in, reading_texts, wrote_by, wrote_in};

use crate::line::{Did, Held, Line, Reading};
use crate::operands::{destination, registers_of};
use bpf_insn::{Insn, Program, Reads, Reg};
use bpf_machine::{State, Turn, step};
use node_env::{Env, Outbox};

fn hold(state: &State, register: Reg) -> Held
    ensures { result ≡ record { register = register; word = held state.now register } }
{
    Held {
        register,
        word: state.register(register),
    }
}

/// Returns what the registers hold that an instruction reads.
fn read_before(state: &State, insn: Insn) -> Reading
    ensures { reading_texts result ≡ read_texts state.now insn }
{
    match registers_of(&insn) {
        Reads::Nothing => Reading::Nothing,
        Reads::One(first) => Reading::One(hold(state, first)),
        Reads::Two(first, second) => Reading::Two(hold(state, first), hold(state, second)),
    }
}

/// Returns what an instruction wrote, where its step led on.
fn wrote_after(state: &State, insn: Insn, turn: Turn) -> Option<Held>
    ensures { wrote_in result ≡ wrote_by turn state.now insn }
{
    match turn {
        Turn::Next => destination(&insn).map(|register| hold(state, register)),
        Turn::Ended(_) => None,
        Turn::Trap(_) => None,
    }
}

/// Takes a step, and gives its line.
pub(crate) fn told_step(
    program: &Program,
    env: &Env,
    state: &mut State,
    memory: &mut [u8],
    outbox: &mut Outbox,
    number: u64,
) -> (Turn, Line)
    requires memory { length memory.old ≡ env.now.shape.memory }
    requires nodes { outbox.old.nodes ≡ env.now.shape.nodes }
    ensures turns { Turns program.now env.now (state_of state.old memory.old outbox.old.sent)
        (state_of state.new memory.new outbox.new.sent) result.0 }
    ensures line { step_line_in result.1 ≡ trace_line program.now number
        (step_at program.now env.now (state_of state.old memory.old outbox.old.sent)) }
    ensures nodes { outbox.new.nodes ≡ outbox.old.nodes }
{
    let slot = state.slot();
    let Some(insn) = program.insn_at(slot) else {
        let turn = step(program, env, state, memory, outbox);
        return (
            turn,
            Line {
                number,
                slot,
                did: None,
            },
        );
    };
    let reading = read_before(state, insn);
    let turn = step(program, env, state, memory, outbox);
    let did = Did {
        insn,
        reading,
        wrote: wrote_after(state, insn, turn),
    };
    (
        turn,
        Line {
            number,
            slot,
            did: Some(did),
        },
    )
}

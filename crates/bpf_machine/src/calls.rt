//! Calls of helpers (docs/MACHINE.md, "Helpers").

ghost use Rattle.std.specs.Prelude.{◌≡◌};
ghost use Rattle.bpf_machine.specs.Step.{below, call, call_helper, calls_of};
ghost use Rattle.bpf_machine.specs.inner.Parts.{Does};

use crate::state::State;
use crate::word::{TrapKind, Word};
use bpf_insn::Reg;
use node_env::{Env, Helper, Outbox};

/// Mail is below this.
const MAIL_LIMIT: u64 = 1 << 32;

fn argument(word: Word, limit: u64) -> Result<u64, TrapKind>
    ensures { result ≡ below limit word }
{
    match word {
        Word::Num(number) if number < limit => Ok(number),
        Word::Num(_) | Word::Ptr(_, _) => Err(TrapKind::BadArgument),
    }
}

fn call_helper(
    env: &Env,
    state: &mut State,
    outbox: &mut Outbox,
    helper: Helper,
) -> Result<(), TrapKind>
    requires { outbox.old.nodes ≡ env.now.shape.nodes }
    ensures does { Does (call_helper env.now helper (calls_of state.old outbox.old.sent))
        (calls_of state.old outbox.old.sent) (calls_of state.new outbox.new.sent) result }
    ensures nodes { outbox.new.nodes ≡ outbox.old.nodes }
{
    let nodes = u64::from(env.shape().nodes());
    match helper {
        Helper::Id => state.end_call(u64::from(env.id())),
        Helper::Recv => {
            let word = state.word(Reg::R1)?;
            let sender = argument(word, nodes)?;
            state.end_call(u64::from(env.recv(sender as u32)));
        }
        Helper::Send => {
            let first = state.word(Reg::R1)?;
            let second = state.word(Reg::R2)?;
            let receiver = argument(first, nodes)?;
            let value = argument(second, MAIL_LIMIT)?;
            outbox.send(receiver as u32, value as u32);
            state.end_call(0);
        }
        Helper::Coin => state.end_call(u64::from(env.coin())),
    }
    Ok(())
}

/// Calls the helper of a number.
pub fn call(env: &Env, state: &mut State, outbox: &mut Outbox, id: i32) -> Result<(), TrapKind>
    requires { outbox.old.nodes ≡ env.now.shape.nodes }
    ensures does { Does (call env.now id (calls_of state.old outbox.old.sent)) (calls_of state.old outbox.old.sent)
        (calls_of state.new outbox.new.sent) result }
    ensures nodes { outbox.new.nodes ≡ outbox.old.nodes }
{
    let helper = Helper::of(id).ok_or(TrapKind::BadHelper)?;
    call_helper(env, state, outbox, helper)?;
    Ok(())
}

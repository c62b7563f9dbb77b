//! The registers that an instruction reads and the one that it writes.

ghost use Rattle.std.specs.Prelude.{◌≡◌, ◌≤◌, IfSome};
ghost use Rattle.bpf_insn.specs.Operands.{call_of, reads, registers_in};
ghost use Rattle.node_env.specs.Helpers.{arguments_of};
ghost use Rattle.run_trace.specs.Lines.{destination};

use bpf_insn::{Insn, MAX_ARGUMENTS, Reads, Reg, call_of, registers_read, written_by};
use node_env::arguments_of;

/// Returns how many arguments the instruction's call takes, none if it is no call.
fn arguments(insn: &Insn) -> u32
    ensures count { IfSome (call_of insn.now) (λ id. arguments_of id ≡ result) }
    ensures few { result ≤ MAX_ARGUMENTS }
{
    match call_of(insn) {
        Some(id) => arguments_of(id),
        None => 0,
    }
}

/// Returns the registers that an instruction reads; of a call, those of its helper's arguments.
pub(crate) fn registers_of(insn: &Insn) -> Reads
    ensures { registers_in result ≡ reads arguments_of insn.now }
{
    registers_read(insn, arguments(insn))
}

/// Returns the register that an instruction writes; of a call that of its answer.
pub(crate) fn destination(insn: &Insn) -> Option<Reg>
    ensures { result ≡ destination insn.now }
{
    match call_of(insn) {
        Some(_) => Some(Reg::R0),
        None => written_by(insn),
    }
}

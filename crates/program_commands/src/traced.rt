//! `exec --trace`: the steps of the run, and then what it comes to.
ghost use Rattle.std.specs.Prelude.{◌≡◌, IfErr, IfOk, Err, length};
ghost use Rattle.command_answers.specs.Faults.{HasWriteCause};
ghost use Rattle.requests.specs.Case.{case_memory, case_setting};
ghost use Rattle.program_commands.specs.Exec.{LeavesSteps, case_trace};
ghost use Rattle.requests.specs.Shapes.{asked_extent};
ghost use Rattle.program_commands.specs.inner.Exec.{RunsCase};
ghost use Rattle.stream_io.specs.Parts.{Wrote};

use crate::exec::{Reply, write_reply};
use bpf_insn::Program;
use command_answers::{Ending, Fault, LeftByRun};
use node_env::{Env, Outbox, Shape};
use requests::ExecOptions;
use run_trace::trace;
use std::alloc::{AllocError, Global};
use stream_io::{PartFault, Sink};

/// Writes the line of each step of the run of a program, and then what is told of its answer.
pub(crate) fn trace_program<W: Sink>(
    alloc: Global,
    shape: Shape,
    program: &Program,
    options: &ExecOptions,
    out: &mut W,
) -> Result<Ending, Fault>
    requires { shape ≡ asked_extent options.now.shape }
    ensures left { LeavesSteps (W.contents out.old) (W.contents out.new) options.now program.now result }
    ensures cause { IfErr result (HasWriteCause (W.has_failed out.new)) }
{
    let (reply, written) = trace_case(alloc, shape, program, options, out)?;
    match write_reply(alloc, options, &reply, out) {
        Ok(ending) => Ok(ending),
        Err(fault) => Err(fault.behind(written as usize)),
    }
}

/// Returns what the program sees in the case, the memory in which its run begins, and an outbox.
fn case_parts(
    alloc: Global,
    shape: Shape,
    options: &ExecOptions,
) -> Result<(Env, Vec<u8>, Outbox), AllocError>
    requires { shape ≡ asked_extent options.now.shape }
    ensures env { IfOk result (λ parts. parts.0 ≡ case_setting shape options.now.case) }
    ensures memory { IfOk result (λ parts. parts.1.items ≡ case_memory shape options.now.case) }
    ensures size { IfOk result (λ parts. length parts.1.items ≡ shape.memory) }
    ensures nodes { IfOk result (λ parts. parts.2.nodes ≡ shape.nodes) }
{
    let env = options.case.env(alloc, shape)?;
    let memory = options.case.memory(alloc, shape)?;
    let outbox = Outbox::new(alloc, shape)?;
    Ok((env, memory, outbox))
}

/// Returns the run of a program in the case that is asked for, whose steps are told, and how many bytes were written.
fn trace_case<W: Sink>(
    alloc: Global,
    shape: Shape,
    program: &Program,
    options: &ExecOptions,
    out: &mut W,
) -> Result<(Reply, u64), Fault>
    requires { shape ≡ asked_extent options.now.shape }
    ensures run { IfOk result (λ told. RunsCase options.now program.now told.0) }
    ensures written { IfOk result (λ told.
        Wrote (W.contents out.old) (W.contents out.new) (case_trace options.now program.now) told.1) }
    ensures fault { IfErr result (λ fault.
        LeavesSteps (W.contents out.old) (W.contents out.new) options.now program.now (Err fault)) }
    ensures cause { IfErr result (HasWriteCause (W.has_failed out.new)) }
{
    let Ok((env, mut memory, mut outbox)) = case_parts(alloc, shape, options) else {
        return Err(Fault::Memory);
    };
    match trace(
        alloc,
        program,
        &env,
        &mut memory,
        &mut outbox,
        options.fuel,
        out,
    ) {
        Ok(traced) => {
            let left = LeftByRun { memory, outbox };
            let outcome = traced.outcome;
            Ok((Reply { outcome, left }, traced.written))
        }
        Err(PartFault::Write { written }) => Err(Fault::Write {
            after: written as usize,
        }),
        Err(PartFault::Memory) => Err(Fault::Memory),
    }
}

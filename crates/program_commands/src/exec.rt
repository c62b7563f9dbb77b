//! `exec`: runs a program in the case of a node of a shape.
ghost use Rattle.std.specs.Prelude.{◌≡◌, ◌++◌, IfErr, IfOk, OnOk, string_bytes};
ghost use Rattle.command_answers.specs.declared.ending.Ending.TheVariants.{Done};
ghost use Rattle.command_answers.specs.Answer.{shown_lines, told_text};
ghost use Rattle.command_answers.specs.Faults.{HasWriteCause};
ghost use Rattle.program_commands.specs.Exec.{LeavesExec};
ghost use Rattle.requests.specs.Shapes.{asked_extent};
ghost use Rattle.command_answers.specs.Output.{Leaves};
ghost use Rattle.command_answers.specs.Said.{SaysAt};
ghost use Rattle.program_commands.specs.inner.Exec.{LeavesRunOf, RunsCase, answer_in};
ghost use Rattle.command_answers.specs.inner.Left.{left_in};

use crate::program::{ProgramRead, program_read};
use crate::traced::trace_program;
use bpf_insn::Program;
use bpf_machine::{Outcome, run_checked};
use command_answers::{Answer, Ending, Fault, LeftByRun, Rejection, add_left, reject, write_whole};
use node_env::{Outbox, Shape};
use requests::ExecOptions;
use std::alloc::{AllocError, Global};
use stream_io::Sink;

/// Runs the program of these bytes.
pub fn exec_bytes<W: Sink, E: Sink>(
    alloc: Global,
    options: &ExecOptions,
    bytes: &[u8],
    out: &mut W,
    err: &mut E,
) -> Result<Ending, Fault>
    ensures left { LeavesExec (W.contents out.old) (W.contents out.new) options.now bytes.now result }
    ensures said { IfOk result (λ ending. SaysAt ending (E.contents err.old) (E.contents err.new)) }
    ensures unsaid { IfErr result (λ fault. E.contents err.new ≡ E.contents err.old) }
    ensures cause { IfErr result (HasWriteCause (W.has_failed out.new)) }
{
    let found = program_read(alloc, options.shape, options.text, bytes)?;
    match found {
        Ok(read) => exec(alloc, options, &read, out),
        Err(unread) => reject(alloc, &Rejection::Program(unread), bytes, out, err),
    }
}

/// Runs a program in the case that is asked for, and writes the line of the answer. If asked, it also writes the line
/// of each step before it, and what the run leaves after it.
pub(crate) fn exec<W: Sink>(
    alloc: Global,
    options: &ExecOptions,
    read: &ProgramRead,
    out: &mut W,
) -> Result<Ending, Fault>
    requires { read.now.shape ≡ asked_extent options.now.shape }
    ensures left { LeavesRunOf options.now.trace (W.contents out.old) (W.contents out.new) options.now read.now.program
        result }
    ensures cause { IfErr result (HasWriteCause (W.has_failed out.new)) }
{
    if options.trace {
        return trace_program(alloc, read.shape, &read.program, options, out);
    }
    let Ok(reply) = run_case(alloc, read.shape, &read.program, options) else {
        return Err(Fault::Memory);
    };
    write_reply(alloc, options, &reply, out)
}

/// What a run came to, and what it left.
#[derive(Drop)]
pub(crate) struct Reply {
    pub outcome: Outcome,
    pub left: LeftByRun,
}

impl Reply {
    ghost use Rattle.std.specs.Prelude.{◌≡◌};
    ghost use Rattle.program_commands.specs.inner.Exec.{answer_in};

    /// Returns the answer of a run with this fuel.
    fn answer(&self, fuel: u64) -> Answer
        ensures { result ≡ answer_in fuel self.now }
    {
        Answer {
            outcome: self.outcome,
            fuel,
        }
    }
}

/// Returns the run of a program in the case that is asked for.
fn run_case(
    alloc: Global,
    shape: Shape,
    program: &Program,
    options: &ExecOptions,
) -> Result<Reply, AllocError>
    requires { shape ≡ asked_extent options.now.shape }
    ensures { IfOk result (RunsCase options.now program.now) }
{
    let env = options.case.env(alloc, shape)?;
    let mut memory = options.case.memory(alloc, shape)?;
    let mut outbox = Outbox::new(alloc, shape)?;
    let outcome = run_checked(program, &env, &mut memory, &mut outbox, options.fuel);
    let left = LeftByRun { memory, outbox };
    Ok(Reply { outcome, left })
}

/// Adds what the run left, if that is to be shown.
fn add_shown(
    alloc: Global,
    text: &mut String,
    options: &ExecOptions,
    left: &LeftByRun,
) -> Result<(), AllocError>
    ensures { OnOk result (string_bytes text.new ≡ string_bytes text.old
        ++ shown_lines options.now (left_in left.now)) }
{
    if options.show {
        add_left(alloc, text, left)
    } else {
        Ok(())
    }
}

/// Returns what is told of a reply.
fn text_of(alloc: Global, options: &ExecOptions, reply: &Reply) -> Result<String, AllocError>
    ensures { IfOk result (λ text. string_bytes text
        ≡ told_text options.now (answer_in options.now.fuel reply.now) (left_in reply.now.left)) }
{
    let answer = reply.answer(options.fuel);
    let mut text = format!(in alloc; "{answer}\n")?;
    add_shown(alloc, &mut text, options, &reply.left)?;
    Ok(text)
}

/// Writes what is told of a reply.
pub(crate) fn write_reply<W: Sink>(
    alloc: Global,
    options: &ExecOptions,
    reply: &Reply,
    out: &mut W,
) -> Result<Ending, Fault>
    ensures left { Leaves (W.contents out.old) (W.contents out.new)
        (told_text options.now (answer_in options.now.fuel reply.now) (left_in reply.now.left)) Done result }
    ensures cause { IfErr result (HasWriteCause (W.has_failed out.new)) }
{
    let text = text_of(alloc, options, reply).map_err(|_| Fault::Memory)?;
    write_whole(out, text.as_bytes(), Ending::Done)
}

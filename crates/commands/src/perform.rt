//! A request, from its command to the exit status.
ghost use Rattle.std.specs.Prelude.{◌≡◌, IfErr, IfOk};
ghost use Rattle.commands.specs.Perform.{AsksInput, CallsFor, CarriesOut, PerformsRequest, Responds, TakesFor};
ghost use Rattle.bench_workers.specs.ThreadStarts.{has_failed};
ghost use Rattle.command_answers.specs.Faults.{HasThreadCause, HasWriteCause};
ghost use Rattle.command_answers.specs.Said.{SaysAt};

use crate::scenario::scenario_bytes;
use bench_space::Progress;
use bench_workers::TrackedThreads;
use claim_commands::prove_claims;
use command_answers::{
    Ending, Fault, Input, give, program_input, read_input, shaped_input, write_whole,
};
use program_commands::asm::asm;
use program_commands::compile::compile;
use program_commands::dis::{clock, dis};
use program_commands::exec_bytes;
use program_commands::explanation::explanation;
use program_commands::verify::verify;
use requests::Request;
use run_commands::stress::stress;
use std::alloc::Global;
use std::sync::Wait;
use std::thread::Threads;
use stream_io::{Sink, Source};

/// Runs the command, says its fault or the note on its refusal on `err`, and answers the exit status: 0 done, 1 fault
/// or mismatch, 2 refused, 3 a violation, 4 not finished. What `err` does not take is dropped. `progress` is shown how
/// far an exploration is. `threads` tells whether a start of a thread failed.
pub fn perform<T: Threads + Wait + Sync, R: Source, W: Sink, E: Sink, P: Progress>(
    threads: &mut TrackedThreads<'_, T>,
    alloc: Global,
    request: &Request,
    reader: &mut R,
    out: &mut W,
    err: &mut E,
    progress: &mut P,
) -> u8
    ensures performed { PerformsRequest request.now (R.remaining reader.old) (R.has_failed reader.new)
        (W.contents out.old) (W.contents out.new) (W.has_failed out.new) (has_failed threads.new.starts)
        (E.contents err.old) (E.contents err.new) result }
    ensures taken { TakesFor request.now (R.remaining reader.old) (R.remaining reader.new) }
    ensures cost { CallsFor request.now (R.calls reader.old) (R.calls reader.new) }
{
    match carry_out(threads, alloc, request, reader, out, err, progress) {
        Ok(ending) => ending.status(),
        Err(fault) => fault.tell(err),
    }
}

/// Reads what the request reads, and runs its command.
fn carry_out<T: Threads + Wait + Sync, R: Source, W: Sink, E: Sink, P: Progress>(
    threads: &mut TrackedThreads<'_, T>,
    alloc: Global,
    request: &Request,
    reader: &mut R,
    out: &mut W,
    err: &mut E,
    progress: &mut P,
) -> Result<Ending, Fault>
    ensures carried_out { CarriesOut request.now (R.remaining reader.old) (R.has_failed reader.new)
        (W.contents out.old) (W.contents out.new) result }
    ensures said { IfOk result (λ ending. SaysAt ending (E.contents err.old) (E.contents err.new)) }
    ensures unsaid { IfErr result (λ fault. E.contents err.new ≡ E.contents err.old) }
    ensures cause { IfErr result (HasWriteCause (W.has_failed out.new)) }
    ensures thread { IfErr result (HasThreadCause (has_failed threads.new.starts)) }
    ensures taken { TakesFor request.now (R.remaining reader.old) (R.remaining reader.new) }
    ensures cost { CallsFor request.now (R.calls reader.old) (R.calls reader.new) }
{
    match read_input(alloc, input_of(request), reader) {
        Ok(bytes) => respond(
            threads,
            alloc,
            request,
            bytes.as_slice(),
            out,
            err,
            progress,
        ),
        Err(fault) => Err(fault),
    }
}

/// Returns what a request reads: nothing if its options have no shape.
fn input_of(request: &Request) -> Input
    ensures { AsksInput request.now result }
{
    match request {
        Request::Exec(options) => shaped_input(options.shape, program_input(options.text)),
        Request::Verify(options) => shaped_input(*options, Input::Image),
        Request::Explain(options) => shaped_input(options.shape, program_input(options.text)),
        Request::Dis { .. } => Input::Image,
        Request::Asm { .. } | Request::Compile(_) | Request::Prove(_) => Input::Text,
        Request::Scenario(_) => Input::Scenario,
        Request::Clock(_) | Request::Stress(_) | Request::Help { .. } => Input::Nothing,
    }
}

/// Runs the command of a request on the bytes of its input, or says why these are rejected.
fn respond<T: Threads + Wait + Sync, W: Sink, E: Sink, P: Progress>(
    threads: &mut TrackedThreads<'_, T>,
    alloc: Global,
    request: &Request,
    bytes: &[u8],
    out: &mut W,
    err: &mut E,
    progress: &mut P,
) -> Result<Ending, Fault>
    ensures left { Responds request.now bytes.now (W.contents out.old) (W.contents out.new) result }
    ensures said { IfOk result (λ ending. SaysAt ending (E.contents err.old) (E.contents err.new)) }
    ensures unsaid { IfErr result (λ fault. E.contents err.new ≡ E.contents err.old) }
    ensures cause { IfErr result (HasWriteCause (W.has_failed out.new)) }
    ensures thread { IfErr result (HasThreadCause (has_failed threads.new.starts)) }
{
    match request {
        Request::Exec(options) => exec_bytes(alloc, options, bytes, out, err),
        Request::Asm { list } => give(alloc, asm(alloc, *list, bytes), out, err),
        Request::Compile(options) => give(alloc, compile(alloc, *options, bytes), out, err),
        Request::Dis { list } => give(alloc, dis(alloc, *list, bytes), out, err),
        Request::Clock(options) => give(alloc, clock(alloc, *options), out, err),
        Request::Verify(options) => give(alloc, verify(alloc, *options, bytes), out, err),
        Request::Explain(options) => give(alloc, explanation(alloc, *options, bytes), out, err),
        Request::Scenario(asked) => scenario_bytes(
            threads, alloc, asked, bytes, out, err, progress,
        ),
        Request::Prove(options) => give(alloc, prove_claims(alloc, options, bytes), out, err),
        Request::Stress(options) => give(alloc, stress(threads, alloc, *options), out, err),
        Request::Help { text } => write_whole(out, text.as_bytes(), Ending::Done),
    }
}

//! The program over any files and streams.
ghost use Rattle.std.specs.Prelude.{◌≡◌, ◌⊎◌, ℕ, List, None, Option, Some, map, string_bytes};
ghost use Rattle.bench_workers.specs.ThreadStarts.{has_failed};
ghost use Rattle.command_answers.specs.Faults.{IsOfCommandLine, Says, fault_status, fault_text};
ghost use Rattle.commands.specs.Perform.{CallsFor, PerformsRequest, TakesFor};
ghost use Rattle.clockbed.specs.Command.{AnswersWords, RunsOn, input_of, output_of, outside_of, streams_of};
ghost use Rattle.clockbed.specs.Reasons.{SaysReason, SaysReasonAt};
ghost use Rattle.clockbed.specs.inner.OnFile.{AnswersOnFile};

use crate::failed::Failed;
use crate::images::with_lists;
use crate::outside::{Opener, WordsReader};
use crate::progress::CommandProgress;
use crate::source::{FailureReason, FileReason, tell_reason};
use bench_workers::TrackedThreads;
use command_answers::Fault;
use command_line::{Invocation, WordsFault};
use commands::perform::perform;
use requests::{Request, ScenarioRequest};
use std::alloc::Global;
use std::convert::AsStr;
use std::sync::Wait;
use std::thread::Threads;
use stream_io::{Sink, Source};

/// The exit status of a fault.
const FAULT_STATUS: u8 = 1;

/// What the program runs on, streams aside.
#[derive(Drop)]
pub struct Program<'a, T, O, C> {
    pub threads: TrackedThreads<'a, T>,
    pub alloc: Global,
    pub opener: O,
    pub reader: C,
}

/// The exit status, and which file could not be read.
#[derive(Drop)]
pub struct Answered {
    pub status: u8,
    pub reason: Option<FileReason>,
}

/// Does what the words ask for, on the file that they name or on standard input, and says its fault on `err`. Below a
/// fault of a file or a stream it says why. The status is that of [`answer_words`]. `program.threads` tells whether a start
/// of a thread failed.
pub fn run_words<
    T: Threads + Wait + Sync,
    O: Opener,
    C: WordsReader,
    S: AsStr,
    R: Source + FailureReason,
    W: Sink + FailureReason,
    E: Sink,
    P: CommandProgress,
>(
    program: &mut Program<'_, T, O, C>,
    words: &[S],
    input: &mut R,
    out: &mut W,
    err: &mut E,
    progress: &mut P,
) -> u8
    ensures { RunsOn
        (outside_of (O.files program.old.opener) (O.may_fail program.old.opener) (C.asks program.old.reader))
        (map S.text words.now)
        (streams_of (input_of (R.remaining input.old) (R.calls input.old) (R.has_failed input.old))
        (output_of (W.contents out.old) (W.has_failed out.old)) (E.contents err.old))
        (streams_of (input_of (R.remaining input.new) (R.calls input.new) (R.has_failed input.new))
        (output_of (W.contents out.new) (W.has_failed out.new)) (E.contents err.new))
        (has_failed program.new.threads.starts) result }
{
    let answered = answer_words(program, words, input, out, err, progress);
    tell_why(&answered, input, out, err);
    answered.status
}

/// Says why a file or a stream failed, below a fault.
fn tell_why<R: FailureReason, W: FailureReason, E: Sink>(
    answered: &Answered,
    input: &R,
    out: &W,
    err: &mut E,
)
    ensures { SaysReasonAt answered.now.status (E.contents err.old) (E.contents err.new) }
{
    if answered.status != FAULT_STATUS {
        return;
    }
    match &answered.reason {
        Some(file) => tell_reason(err, file.path.as_str(), file.error),
        None => tell_stream(input, out, err),
    }
}

/// Says why a stream failed, if one failed.
fn tell_stream<R: FailureReason, W: FailureReason, E: Sink>(input: &R, out: &W, err: &mut E)
    ensures { (name : List ℕ) × SaysReason name (E.contents err.old) (E.contents err.new) }
{
    match (input.reason(), out.reason()) {
        (Some(error), _) => tell_reason(err, "standard input", error),
        (None, Some(error)) => tell_reason(err, "standard output", error),
        (None, None) => {}
    }
}

/// Does what the words ask for, on the file that they name or on standard input, and says its fault on `err`. The exit
/// status is 0 done, 1 fault or mismatch, 2 refused, 3 a violation, 4 not finished. What `err` does not take is
/// dropped.
pub fn answer_words<
    T: Threads + Wait + Sync,
    O: Opener,
    C: WordsReader,
    S: AsStr,
    R: Source,
    W: Sink,
    E: Sink,
    P: CommandProgress,
>(
    program: &mut Program<'_, T, O, C>,
    words: &[S],
    input: &mut R,
    out: &mut W,
    err: &mut E,
    progress: &mut P,
) -> Answered
    ensures { AnswersWords
        (outside_of (O.files program.old.opener) (O.may_fail program.old.opener) (C.asks program.old.reader))
        (map S.text words.now)
        (streams_of (input_of (R.remaining input.old) (R.calls input.old) (R.has_failed input.old))
        (output_of (W.contents out.old) (W.has_failed out.old)) (E.contents err.old))
        (streams_of (input_of (R.remaining input.new) (R.calls input.new) (R.has_failed input.new))
        (output_of (W.contents out.new) (W.has_failed out.new)) (E.contents err.new))
        (has_failed program.new.threads.starts) result.status }
{
    let expanded = match with_lists(program.alloc, &program.opener, words) {
        Ok(expanded) => expanded,
        Err(failed) => return told(failed, err),
    };
    let asked = match program
        .reader
        .read_words(program.alloc, expanded.as_slice())
    {
        Ok(asked) => asked,
        Err(fault) => return told(Failed::of(fault_of(fault)), err),
    };
    let Invocation { request, file } = asked;
    match file {
        Some(path) => answer_on_file(program, &request, path, out, err, progress),
        None => Answered {
            status: performed(program, &request, input, out, err, progress),
            reason: None,
        },
    }
}

/// Says a fault that comes before a command.
fn told<E: Sink>(failed: Failed, err: &mut E) -> Answered
    ensures status { result.status ≡ fault_status }
    ensures said { Says (E.contents err.old) (E.contents err.new) (fault_text failed.fault) }
{
    let Failed { fault, reason } = failed;
    Answered {
        status: fault.tell(err),
        reason,
    }
}

/// Returns the fault of words that ask for nothing.
fn fault_of(fault: WordsFault) -> Fault
    ensures { IsOfCommandLine result }
{
    match fault {
        WordsFault::Rejected { text } => Fault::CommandLine { text },
        WordsFault::Memory => Fault::Memory,
    }
}

/// Performs a request on the file at this path.
fn answer_on_file<T: Threads + Wait + Sync, O: Opener, C, W: Sink, E: Sink, P: CommandProgress>(
    program: &mut Program<'_, T, O, C>,
    request: &Request,
    path: String,
    out: &mut W,
    err: &mut E,
    progress: &mut P,
) -> Answered
    ensures { AnswersOnFile
        (O.files program.old.opener (string_bytes path)) (O.may_fail program.old.opener (string_bytes path))
        request.now (output_of (W.contents out.old) (W.has_failed out.old))
        (output_of (W.contents out.new) (W.has_failed out.new)) (has_failed program.new.threads.starts)
        (E.contents err.old) (E.contents err.new) result.status }
{
    let mut file = match program.opener.open(path.as_str()) {
        Ok(file) => file,
        Err(error) => {
            let reason = Some(FileReason { path, error });
            return told(
                Failed {
                    fault: Fault::Read,
                    reason,
                },
                err,
            );
        }
    };
    let status = performed(program, request, &mut file, out, err, progress);
    let reason = match file.reason() {
        Some(error) => Some(FileReason { path, error }),
        None => None,
    };
    Answered { status, reason }
}

/// Performs a request on this input.
fn performed<T: Threads + Wait + Sync, O, C, R: Source, W: Sink, E: Sink, P: CommandProgress>(
    program: &mut Program<'_, T, O, C>,
    request: &Request,
    input: &mut R,
    out: &mut W,
    err: &mut E,
    progress: &mut P,
) -> u8
    ensures performed { PerformsRequest request.now (R.remaining input.old) (R.has_failed input.new)
        (W.contents out.old) (W.contents out.new) (W.has_failed out.new)
        (has_failed program.new.threads.starts) (E.contents err.old) (E.contents err.new) result }
    ensures taken { TakesFor request.now (R.remaining input.old) (R.remaining input.new) }
    ensures cost { CallsFor request.now (R.calls input.old) (R.calls input.new) }
{
    if let Request::Scenario(ScenarioRequest::Sweep(options)) = request {
        progress.begin_sweep(options.keys.count());
    }
    perform(
        &mut program.threads,
        program.alloc,
        request,
        input,
        out,
        err,
        progress,
    )
}

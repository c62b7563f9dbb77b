//! The program over standard input alone.
ghost use Rattle.std.specs.Prelude.{Bool, map};
ghost use Rattle.clockbed.specs.Command.{AnswersWords, input_of, output_of, standard_input_alone, streams_of};

use crate::answer::{Program, answer_words};
use crate::outside::{Clap, NoFiles};
use bench_space::Silent;
use bench_workers::TrackedThreads;
use std::alloc::Global;
use std::convert::AsStr;
use std::sync::Wait;
use std::thread::Threads;
use stream_io::{Sink, Source};

/// Does what the words ask for, of which the first is the program's name, and answers the exit status: 0 done, 1
/// fault or mismatch, 2 refused, 3 a violation, 4 not finished. There are no files. What `err` does not take is
/// dropped.
pub fn command<T: Threads + Wait + Sync, S: AsStr, R: Source, W: Sink, E: Sink>(
    rt: &T,
    alloc: Global,
    words: &[S],
    reader: &mut R,
    out: &mut W,
    err: &mut E,
) -> u8
    ensures { (unstarted : Bool) × AnswersWords standard_input_alone (map S.text words.now)
        (streams_of (input_of (R.remaining reader.old) (R.calls reader.old) (R.has_failed reader.old))
        (output_of (W.contents out.old) (W.has_failed out.old)) (E.contents err.old))
        (streams_of (input_of (R.remaining reader.new) (R.calls reader.new) (R.has_failed reader.new))
        (output_of (W.contents out.new) (W.has_failed out.new)) (E.contents err.new))
        unstarted result }
{
    let mut program = Program {
        threads: TrackedThreads::of(rt),
        alloc,
        opener: NoFiles,
        reader: Clap,
    };
    let answered = answer_words(&mut program, words, reader, out, err, &mut Silent);
    answered.status
}

//! Prints the report of the scenario in the file that is named, or on standard input. It is a part of `clockbed run` that
//! builds in a third of the time, so that the launcher can answer before the whole program is built.
#![tactic(auto)]

use bench_scenario::{ScenarioFault, run_scenario};
use std::env;
use std::fs::File;
use std::process::ExitCode;
use std::sync::Wait;
use std::thread::Threads;
use stream_io::{Counted, Source, Tracked};

/// The workers of a pulse: the report is the same for any number of them.
const WORKERS: u32 = 1;

/// The status if nothing was written: the whole program is to answer.
const UNANSWERED: u8 = 2;

fn main(rt: HostRuntime) -> ExitCode {
    match named_file(&rt) {
        Some(path) => match File::open(&rt, path.as_str()) {
            Ok(file) => report(&rt, &rt, &mut Counted::of(file)),
            Err(_) => ExitCode::from(UNANSWERED),
        },
        None => report(&rt, &rt, &mut Counted::of(rt.stdin())),
    }
}

/// Returns the first word after the program's name, if there is one.
fn named_file(rt: &HostRuntime) -> Option<String> {
    let words: Vec<String> = env::args(rt).ok()?.collect(rt.alloc()).ok()?;
    words.into_iter().nth(1)
}

/// Writes the report of the scenario, and returns the exit status.
fn report<T: Threads + Wait + Sync, R: Source>(
    rt: &HostRuntime,
    threads: &T,
    input: &mut R,
) -> ExitCode {
    let mut out = Tracked::of(rt.stdout());
    match run_scenario(threads, rt.alloc(), input, &mut out, WORKERS) {
        Ok(()) => ExitCode::SUCCESS,
        Err(ScenarioFault::Write { .. }) => ExitCode::FAILURE,
        Err(_) => ExitCode::from(UNANSWERED),
    }
}

//! A testbed for Byzantine clock synchronisation: `clockbed COMMAND [FILE]`.
#![tactic(auto)]

pub mod answer;
pub mod command;
mod failed;
mod images;
mod limits;
pub mod outside;
pub mod progress;
pub mod source;

use crate::answer::{Program, run_words};
use crate::outside::{Clap, Opener};
use crate::progress::{SearchProgress, SweepProgress};
use crate::source::Reasoned;
use bench_workers::TrackedThreads;
use command_answers::Fault;
use std::cell::Cell;
use std::fs::File;
use std::io::IsTerminal;
use std::process::ExitCode;
use std::rt::Stderr;
use std::sync::Wait;
use std::thread::Threads;
use std::{env, io};
use stream_io::Tracked;

fn main(rt: HostRuntime) -> ExitCode {
    let mut err = Tracked::of(rt.stderr());
    let status = match words_of(&rt) {
        Ok(words) => run_on_host(&rt, &rt, words.as_slice(), &mut err),
        Err(fault) => fault.tell(&mut err),
    };
    ExitCode::from(status)
}

/// Returns the words of the command line, the program's name first.
fn words_of(rt: &HostRuntime) -> Result<Vec<String>, Fault> {
    match env::args(rt) {
        Ok(args) => args.collect(rt.alloc()).map_err(|_| Fault::Memory),
        Err(error) if error.kind() == io::ErrorKind::OutOfMemory => Err(Fault::Memory),
        Err(_) => Err(Fault::of_command_line(rt.alloc(), "error: a word is not UTF-8\n")),
    }
}

/// The files of the host.
#[derive(Drop)]
struct HostFiles<'a> {
    rt: &'a HostRuntime,
}

impl Opener for HostFiles<'_> {
    ghost use Rattle.std.specs.Prelude.{None};

    type File = Reasoned<File>;

    ghost files = { λ _ _. None };

    ghost may_fail = { λ _ _. Unit {0} };

    fn open(&self, path: &str) -> io::Result<Reasoned<File>> {
        Ok(Reasoned::of(File::open(self.rt, path)?))
    }
}

/// Runs the program on the files and streams of the host.
fn run_on_host<T: Threads + Wait + Sync>(
    rt: &HostRuntime,
    threads: &T,
    words: &[String],
    err: &mut Tracked<Stderr>,
) -> u8 {
    let stdout = rt.stdout();
    let is_told = err.stream.is_terminal();
    let is_apart = is_told && !stdout.is_terminal();
    let keys = Cell::new(None);
    let mut input = Reasoned::of(rt.stdin());
    let mut out = SweepProgress::new(
        Reasoned::of(Tracked::of(stdout)),
        terminal_if(rt, is_apart),
        rt,
        &keys,
    );
    let mut progress = SearchProgress::new(terminal_if(rt, is_told), rt, &keys);
    let mut program = Program {
        threads: TrackedThreads::of(threads),
        alloc: rt.alloc(),
        opener: HostFiles { rt },
        reader: Clap,
    };
    run_words(
        &mut program,
        words,
        &mut input,
        &mut out,
        err,
        &mut progress,
    )
}

/// Returns standard error, if it is a terminal on which something is told.
fn terminal_if(rt: &HostRuntime, is_told: bool) -> Option<Stderr> {
    if is_told { Some(rt.stderr()) } else { None }
}

//! A stubborn caller of the libraries: it makes each call, and where memory or a thread is refused it looks whether all
//! is as it was, and makes the call again (docs/DEVELOPING.md, "Refused memory and threads").
#![tactic(auto)]

mod benches;
mod cases;
mod engine;
mod four;
mod programs;
mod scenarios;
mod shared;
mod shown;
mod stop;

use crate::cases::{CASES, Case};
use crate::stop::{Ended, Stop, stubbornly};
use std::alloc::Global;
use std::process::ExitCode;
use std::sync::Wait;
use std::thread::Threads;
use std::{env, io};

/// Tries the cases that its words name, or all if it has none.
fn main(rt: HostRuntime) -> ExitCode {
    let tried = match stubbornly(|| words_of(&rt)) {
        Ok((words, _)) => try_all(&rt, rt.alloc(), words.as_slice()),
        Err(_) => refused(&rt, "fault memory"),
    };
    match tried {
        Ok(true) => ExitCode::SUCCESS,
        Ok(false) | Err(_) => ExitCode::FAILURE,
    }
}

/// Returns the words of the command line, the program's name first.
fn words_of(rt: &HostRuntime) -> Result<Vec<String>, Stop> {
    match env::args(rt) {
        Ok(args) => Ok(args.collect(rt.alloc())?),
        Err(_) => Err(Stop::Memory),
    }
}

/// Prints a line for each case, and tells whether all was as promised. Where a case is refused twice, so is the rest.
fn try_all<R: Threads + Wait + Sync + Print + Eprint>(
    rt: &R,
    alloc: Global,
    words: &[String],
) -> io::Result<bool> {
    let mut is_right = true;
    for case in CASES {
        let name = case.name();
        if words.len() > 1 && !words.iter().any(|word| word.as_str() == name) {
            continue;
        }
        match tried(rt, alloc, case) {
            Ok(Ended::AtOnce) => println!(rt; "{name}: done")?,
            Ok(Ended::AfterRefusal) => println!(rt; "{name}: refused and done")?,
            Err(Stop::Wrong(wrong)) => {
                let what = wrong.text();
                println!(rt; "wrong {name}: {what}")?;
                is_right = false;
            }
            Err(Stop::Memory) => return refused(rt, "fault memory"),
            Err(Stop::Thread) => return refused(rt, "fault thread"),
        }
    }
    Ok(is_right)
}

/// Tells what was refused twice.
fn refused<R: Eprint>(rt: &R, fault: &str) -> io::Result<bool> {
    eprintln!(rt; "{fault}")?;
    Ok(false)
}

/// Returns a case, and once more where something that it needs is refused.
fn tried<R: Threads + Wait + Sync>(rt: &R, alloc: Global, case: Case) -> Result<Ended, Stop> {
    match case.run(rt, alloc) {
        Err(Stop::Memory | Stop::Thread) => {
            let _ended = case.run(rt, alloc)?;
            Ok(Ended::AfterRefusal)
        }
        first => first,
    }
}

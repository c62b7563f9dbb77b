//! The loaders, each in a thread of its own.

ghost use Rattle.std.specs.Prelude.{◌≡◌, ◌≢◌, false, IfErr, Some};
ghost use Rattle.bench_stress.specs.declared.stop.Stop.TheVariants.{Thread};
ghost use Rattle.bench_workers.specs.ThreadStarts.{has_failed};

use crate::setup::NODES;
use crate::stop::{Stop, first_of};
use bench_core::StageError;
use bench_engine::TrackedThreads;
use bench_shared::{LoaderPass, SharedBench};
use bpf_insn::Program;
use bpf_verify::{VerifiedProgram, VerifyError, verify};
use clock_nodes::{ClockRule, dolev_welch, echo};
use node_env::Shape;
use std::alloc::Global;
use std::sync::Wait;
use std::sync::ledger::Ledger;
use std::thread::{JoinHandle, Scope, Threads};

/// What loaders load: the clock and an echo in turn.
#[derive(Drop)]
pub(crate) struct Programs {
    clock: VerifiedProgram,
    echo: VerifiedProgram,
}

/// Returns the program that the verifier accepts.
fn accepted(alloc: Global, program: &Program, shape: Shape) -> Result<VerifiedProgram, Stop>
    ensures { IfErr result (λ stop. stop ≢ Thread) }
{
    match verify(alloc, program, shape) {
        Ok(program) => Ok(program),
        Err(VerifyError::Memory) => Err(Stop::Memory),
        Err(VerifyError::Refused { .. }) => Err(Stop::Mismatch),
    }
}

/// Returns what loaders load.
pub(crate) fn accept_both(alloc: Global, shape: Shape, rule: ClockRule) -> Result<Programs, Stop>
    requires { rule.nodes ≡ shape.nodes }
    ensures { IfErr result (λ stop. stop ≢ Thread) }
{
    let clock = dolev_welch(alloc, shape, rule).map_err(|_| Stop::Memory)?;
    let echo = echo(alloc, shape).map_err(|_| Stop::Memory)?;
    Ok(Programs {
        clock: accepted(alloc, &clock, shape)?,
        echo: accepted(alloc, &echo, shape)?,
    })
}

/// Loads one program.
fn load_one<B: Ledger, C: Ledger, R: Wait>(
    rt: &R,
    alloc: Global,
    shared: &SharedBench<B, C>,
    pass: &mut LoaderPass<B, C>,
    node: u32,
    program: &VerifiedProgram,
) -> Result<(), StageError> {
    let Ok(copy) = program.copy() else {
        return Err(StageError::Memory);
    };
    match shared.load(rt, alloc, pass, node, copy) {
        Ok(()) => Ok(()),
        Err((_, error)) => Err(error),
    }
}

/// Returns what is told of a load that is refused.
fn of_load(error: StageError) -> Stop
    ensures { result ≢ Thread }
{
    match error {
        StageError::Memory => Stop::Memory,
        StageError::BadNode
        | StageError::OtherShape
        | StageError::BadImage
        | StageError::HistoryFull => Stop::Mismatch,
    }
}

/// Loads this many programs, from the node of the loader's own number on, and gives the pass back.
fn load_all<B: Ledger, C: Ledger, R: Wait>(
    rt: &R,
    alloc: Global,
    shared: &SharedBench<B, C>,
    programs: &Programs,
    pass: LoaderPass<B, C>,
    number: u32,
    loads: u32,
) -> Loaded<B, C> {
    let mut pass = pass;
    for turn in 0..loads {
        let node = (number % NODES + turn % NODES) % NODES;
        let program = if turn % 2 == 0 {
            &programs.clock
        } else {
            &programs.echo
        };
        if let Err(error) = load_one(rt, alloc, shared, &mut pass, node, program) {
            return (pass, Some(error));
        }
    }
    (pass, None)
}

/// A loader's pass, and why a load was refused, if one was.
pub(crate) type Loaded<B, C> = (LoaderPass<B, C>, Option<StageError>);

/// Starts a thread for each loader, up to the first that can't be started.
pub(crate) fn begin<'s, E, B: Ledger + Send + Sync, C: Ledger + Send + Sync, R: Wait + Sync>(
    scope: &Scope<'s, E>,
    threads: &mut TrackedThreads<'s, R>,
    alloc: Global,
    shared: &'s SharedBench<B, C>,
    programs: &'s Programs,
    passes: Vec<LoaderPass<B, C>>,
    loads: u32,
) -> (Vec<JoinHandle<Loaded<B, C>>>, Option<Stop>)
    ensures { has_failed threads.new.starts ≡ false → result.1 ≢ Some Thread }
{
    let Ok(mut begun) = Vec::with_capacity(alloc, passes.len()) else {
        return (Vec::new(alloc), Some(Stop::Memory));
    };
    let rt = threads.runtime;
    let mut number: u32 = 0;
    for pass in passes {
        let job = move || load_all(rt, alloc, shared, programs, pass, number, loads);
        match threads.starts.start(scope, job) {
            Ok(handle) => begun.push_reserved(handle),
            Err(_) => return (begun, Some(Stop::Thread)),
        }
        number = number.wrapping_add(1);
    }
    (begun, None)
}

/// Waits for every loader, and takes the passes back.
pub(crate) fn join_all<B: Ledger, C: Ledger, R: Threads>(
    rt: &R,
    alloc: Global,
    begun: Vec<JoinHandle<Loaded<B, C>>>,
) -> (Vec<LoaderPass<B, C>>, Option<Stop>)
    ensures { result.1 ≢ Some Thread }
{
    let mut passes = Vec::new(alloc);
    let mut stopped = None;
    for handle in begun {
        let (pass, refused) = handle.join(rt);
        stopped = first_of(stopped, refused.map(of_load));
        if passes.push(pass).is_err() {
            stopped = first_of(stopped, Some(Stop::Memory));
        }
    }
    (passes, stopped)
}

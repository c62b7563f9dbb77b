//! Calls on a bench.

use crate::four::{Four, MEMORY, NODES, ONES, ROWS, accepted_clock, four_nodes, is_row};
use crate::shown::{Shown, is_same};
use crate::stop::{Ended, Stop, Wrong, expect};
use bench_core::{
    Actor, Bench, Change, CloseError, Entry, NodeDone, NodeTask, OpenError, PulseRecord, StageError,
};
use bpf_verify::VerifiedProgram;
use std::alloc::{AllocError, Global};

/// Who stages the changes.
const LOADER: Actor = Actor::Loader(0);

/// A memory whose clock is 3.
const THREE: [u8; MEMORY as usize] = [3, 0, 0, 0, 0, 0, 0, 0];

/// How many changes are staged one after the other: this many that the history grows between them.
pub const TURNS: u32 = 2 * NODES;

/// A kind of change.
#[derive(Clone, Copy)]
pub enum Kind {
    Load,
    Unload,
    Corrupt,
}

/// Returns the change of a kind.
pub fn change_of(
    alloc: Global,
    kind: Kind,
    node: u32,
    program: &VerifiedProgram,
) -> Result<Change, AllocError> {
    match kind {
        Kind::Load => Ok(Change::Load {
            node,
            program: program.copy()?,
        }),
        Kind::Unload => Ok(Change::Unload { node }),
        Kind::Corrupt => Ok(Change::Corrupt {
            node,
            image: Vec::from_slice(alloc, &THREE)?,
        }),
    }
}

fn new_bench(alloc: Global, four: &Four) -> Result<Bench, AllocError> {
    Bench::new(alloc, four.shape, four.rule)
}

/// Tries that a new bench has zeros, no messages and no history, also after a refusal.
pub fn makes(alloc: Global) -> Result<Ended, Stop> {
    let four = four_nodes();
    let (bench, ended) = match new_bench(alloc, &four) {
        Ok(bench) => (bench, Ended::AtOnce),
        Err(AllocError) => (new_bench(alloc, &four)?, Ended::AfterRefusal),
    };
    let shown = Shown::of(alloc, &bench)?;
    expect(shown.is_new(), Wrong::Answer)?;
    Ok(ended)
}

/// Tries that a change of a kind is staged for each node, one after the other.
pub fn stages(alloc: Global, kind: Kind) -> Result<Ended, Stop> {
    let four = four_nodes();
    let program = accepted_clock(alloc, &four)?;
    let mut bench = clocks(alloc, &four)?;
    stage_each(alloc, &mut bench, kind, &program)
}

fn stage_each(
    alloc: Global,
    bench: &mut Bench,
    kind: Kind,
    program: &VerifiedProgram,
) -> Result<Ended, Stop> {
    let mut ended = Ended::AtOnce;
    for turn in 0..TURNS {
        let change = change_of(alloc, kind, turn % NODES, program)?;
        ended = ended.and(stage(alloc, bench, change)?);
    }
    Ok(ended)
}

/// Stages a change, which comes last in the history.
fn stage(alloc: Global, bench: &mut Bench, change: Change) -> Result<Ended, Stop> {
    let copy = change.copy(alloc)?;
    let count = bench.history().len();
    let ended = stage_stubbornly(alloc, bench, change, &copy)?;
    match bench.history().get(count..) {
        Some([Entry::Staged { actor, change }]) => {
            expect(*actor == LOADER && is_same(change, &copy), Wrong::History)?;
            Ok(ended)
        }
        _ => Err(Stop::Wrong(Wrong::History)),
    }
}

fn stage_stubbornly(
    alloc: Global,
    bench: &mut Bench,
    change: Change,
    copy: &Change,
) -> Result<Ended, Stop> {
    let before = Shown::of(alloc, bench)?;
    let back = match bench.stage(LOADER, change) {
        Ok(()) => return Ok(Ended::AtOnce),
        Err((back, StageError::Memory)) => back,
        Err(_) => return Err(Stop::Wrong(Wrong::Refusal)),
    };
    expect(before.is(bench), Wrong::Changed)?;
    expect(is_same(&back, copy), Wrong::HandedBack)?;
    match bench.stage(LOADER, back) {
        Ok(()) => Ok(Ended::AfterRefusal),
        Err((_, StageError::Memory)) => Err(Stop::Memory),
        Err(_) => Err(Stop::Wrong(Wrong::Refusal)),
    }
}

/// Returns a bench of four clocks that has closed a pulse, so that it has mail.
fn clocks(alloc: Global, four: &Four) -> Result<Bench, Stop> {
    let mut bench = new_bench(alloc, four)?;
    close_first(alloc, four, &mut bench)?;
    Ok(bench)
}

/// Loads the clock into each node of a new bench, and closes a pulse.
fn close_first(alloc: Global, four: &Four, bench: &mut Bench) -> Result<(), Stop> {
    load_each(alloc, four, bench)?;
    let dones = all_done(alloc, bench, false)?;
    let record = closed(bench.close_pulse(alloc, dones))?;
    expect(is_row(&record, ROWS[0]), Wrong::Answer)
}

fn load_each(alloc: Global, four: &Four, bench: &mut Bench) -> Result<(), Stop> {
    let program = accepted_clock(alloc, four)?;
    let _ended = stage_each(alloc, bench, Kind::Load, &program)?;
    Ok(())
}

/// Tries openings, one after the other, so that the history grows at one: each applies what is staged.
pub fn opens(alloc: Global) -> Result<Ended, Stop> {
    let mut bench = clocks(alloc, &four_nodes())?;
    let mut ended = Ended::AtOnce;
    for node in 0..NODES {
        let image = Vec::from_slice(alloc, &THREE)?;
        let staged = stage(alloc, &mut bench, Change::Corrupt { node, image })?;
        ended = ended.and(staged).and(open(alloc, &mut bench)?);
        expect(has_three(&bench, node), Wrong::Answer)?;
    }
    Ok(ended)
}

/// Opens a pulse and abandons it.
fn open(alloc: Global, bench: &mut Bench) -> Result<Ended, Stop> {
    let ended = open_stubbornly(alloc, bench)?;
    expect(bench.is_open(), Wrong::Answer)?;
    expect(bench.abandon().is_ok(), Wrong::Refusal)?;
    Ok(ended)
}

/// Opens a pulse, which hands out a task for each node.
fn open_stubbornly(alloc: Global, bench: &mut Bench) -> Result<Ended, Stop> {
    let before = Shown::of(alloc, bench)?;
    match bench.open_pulse(alloc, &ONES) {
        Err(OpenError::Memory) => {}
        first => return has_each_task(first, Ended::AtOnce),
    }
    expect(before.is(bench), Wrong::Changed)?;
    has_each_task(bench.open_pulse(alloc, &ONES), Ended::AfterRefusal)
}

fn has_each_task(tasks: Result<Vec<NodeTask>, OpenError>, ended: Ended) -> Result<Ended, Stop> {
    let tasks = opened(tasks)?;
    expect(tasks.len() == NODES as usize, Wrong::Answer)?;
    Ok(ended)
}

fn opened(tasks: Result<Vec<NodeTask>, OpenError>) -> Result<Vec<NodeTask>, Stop> {
    match tasks {
        Ok(tasks) => Ok(tasks),
        Err(OpenError::Memory) => Err(Stop::Memory),
        Err(_) => Err(Stop::Wrong(Wrong::Refusal)),
    }
}

/// Returns the results of the tasks, in their order or turned round.
pub fn results(
    alloc: Global,
    tasks: Vec<NodeTask>,
    reversed: bool,
) -> Result<Vec<NodeDone>, AllocError> {
    let mut dones = Vec::with_capacity(alloc, tasks.len())?;
    for task in tasks {
        dones.push(task.run())?;
    }
    if reversed {
        dones.reverse();
    }
    Ok(dones)
}

/// Tries that a close takes the very list that it refused.
pub fn closes(alloc: Global, reversed: bool) -> Result<Ended, Stop> {
    let mut bench = clocks(alloc, &four_nodes())?;
    let dones = all_done(alloc, &mut bench, reversed)?;
    let ended = close_stubbornly(alloc, &mut bench, dones)?;
    expect(!bench.is_open(), Wrong::Answer)?;
    expect(all_sent_one(&bench), Wrong::Answer)?;
    Ok(ended)
}

/// Opens a pulse and runs its tasks.
fn all_done(alloc: Global, bench: &mut Bench, reversed: bool) -> Result<Vec<NodeDone>, Stop> {
    let tasks = opened(bench.open_pulse(alloc, &ONES))?;
    Ok(results(alloc, tasks, reversed)?)
}

fn close_stubbornly(alloc: Global, bench: &mut Bench, dones: Vec<NodeDone>) -> Result<Ended, Stop> {
    let before = Shown::of(alloc, bench)?;
    let back = match bench.close_pulse(alloc, dones) {
        Err((back, CloseError::Memory)) => back,
        first => return has_second_row(first, Ended::AtOnce),
    };
    expect(before.is(bench), Wrong::Changed)?;
    has_second_row(bench.close_pulse(alloc, back), Ended::AfterRefusal)
}

fn has_second_row(
    record: Result<PulseRecord, (Vec<NodeDone>, CloseError)>,
    ended: Ended,
) -> Result<Ended, Stop> {
    let record = closed(record)?;
    expect(is_row(&record, ROWS[1]), Wrong::Answer)?;
    Ok(ended)
}

fn closed(record: Result<PulseRecord, (Vec<NodeDone>, CloseError)>) -> Result<PulseRecord, Stop> {
    match record {
        Ok(record) => Ok(record),
        Err((_, CloseError::Memory)) => Err(Stop::Memory),
        Err(_) => Err(Stop::Wrong(Wrong::Refusal)),
    }
}

/// Returns true if each node sent 1 to each.
fn all_sent_one(bench: &Bench) -> bool {
    let nodes = bench.shape().nodes();
    for sender in 0..nodes {
        for receiver in 0..nodes {
            if bench.mail().slot(sender, receiver) != Some(1) {
                return false;
            }
        }
    }
    true
}

/// Returns true if the node's clock is 3.
fn has_three(bench: &Bench, node: u32) -> bool {
    node < bench.shape().nodes() && bench.clock(node) == 3
}

//! An open pulse, and the tasks that it hands out.
ghost use Rattle.std.specs.Prelude.{◌≡◌, ◌<◌, [], false, All, IfOk, IsTrue, length, map};
ghost use Rattle.bench_core.specs.State.{all_applied, node_of, AreCoins};
ghost use Rattle.bench_core.specs.inner.Nodes.{KeepsPrograms, KnowsClock, KnowsFirsts, FitsShape, StagesKept};
ghost use Rattle.bench_core.specs.inner.Replay.{staged_of};
ghost use Rattle.bench_core.specs.Views.{entry_of};
ghost use Rattle.bench_core.specs.inner.OpenPulse.{setup_in, PartsFit, firsts_left, flags_left, nodes_left, tasks_by};
ghost use Rattle.bench_core.specs.Tasks.{tasks_from};

use crate::clock_program::ClockProgram;
use crate::entry::Entry;
use crate::node::{NodeSlot, apply_all, copied, firsts_of};
use crate::task::{NodeDone, NodeTask};
use crate::task_lists::TaskLists;
use clock_nodes::ClockRule;
use node_env::{Env, Mail, Shape};
use std::alloc::{AllocError, Global};

/// What an open pulse hands out: its nodes, messages and coins, and its number.
#[derive(Clone, Copy)]
pub(crate) struct OpenPulse<'a> {
    pub(crate) shape: Shape,
    pub(crate) rule: ClockRule,
    pub(crate) clock: &'a ClockProgram,
    pub(crate) nodes: &'a [NodeSlot],
    pub(crate) mail: &'a Mail,
    pub(crate) coins: &'a [u32],
    pub(crate) opening: u32,
}

/// Returns a task for each loaded node, in node order, in the lists of earlier results as far as there are any.
fn tasks(
    alloc: Global,
    pulse: &OpenPulse,
    earlier: &mut Vec<NodeDone>,
) -> Result<Vec<NodeTask>, AllocError>
    requires { PartsFit pulse.now }
    ensures { IfOk result (λ tasks. tasks.items ≡ tasks_by pulse.now) }
{
    let count = pulse.shape.nodes();
    let mut tasks = Vec::with_capacity(alloc, count as usize)?;
    for node in 0..count {
        let slot = &pulse.nodes[node as usize];
        if let Some(program) = &slot.program {
            let coin = pulse.coins[node as usize];
            let TaskLists { inbox, results } = TaskLists::of(alloc, pulse.shape, earlier.pop())?;
            let env = Env::with_mail_in(inbox, pulse.shape, node, pulse.mail, coin)?;
            let memory = slot.memory.as_slice();
            let task = NodeTask::of(pulse.opening, node, program, env, memory, results)?;
            tasks.push(task)?;
        }
    }
    Ok(tasks)
}

/// Returns the tasks, if they are handed out.
fn tasks_if(
    hands_out: bool,
    alloc: Global,
    pulse: &OpenPulse,
    earlier: &mut Vec<NodeDone>,
) -> Result<Vec<NodeTask>, AllocError>
    requires { PartsFit pulse.now }
    ensures { IsTrue hands_out → IfOk result (λ tasks. tasks.items ≡ tasks_by pulse.now) }
{
    if hands_out {
        return tasks(alloc, pulse, earlier);
    }
    Ok(Vec::new(alloc))
}

/// Nodes after changes, of each whether its program has the instructions of the clock, and of each the first that has
/// the same program.
#[derive(Drop)]
pub(crate) struct Changed {
    nodes: Vec<NodeSlot>,
    flags: Vec<bool>,
    firsts: Vec<usize>,
}

/// Puts changed nodes in the place of those before.
pub(crate) fn put(
    nodes: &mut Vec<NodeSlot>,
    flags: &mut Vec<bool>,
    firsts: &mut Vec<usize>,
    changed: Option<Changed>,
)
    ensures nodes { nodes.new.items ≡ nodes_left changed nodes.old.items }
    ensures flags { flags.new.items ≡ flags_left changed flags.old.items }
    ensures firsts { firsts.new.items ≡ firsts_left changed firsts.old.items }
{
    if let Some(changed) = changed {
        *nodes = changed.nodes;
        *flags = changed.flags;
        *firsts = changed.firsts;
    }
}

/// Returns true if any of these entries stages a change.
fn any_staged(entries: &[Entry]) -> bool
    ensures { result ≡ false → staged_of (map entry_of entries.now) ≡ [] }
{
    for entry in entries {
        if let Entry::Staged { .. } = entry {
            return true;
        }
    }
    false
}

/// Returns true if what the entry stages surely leaves all programs as they are.
fn keeps_programs(entry: &Entry) -> bool
    ensures { IsTrue result → StagesKept (entry_of entry.now) }
{
    match entry {
        Entry::Staged { actor: _, change } => change.keeps_programs(),
        Entry::Opened { .. } | Entry::Closed { .. } | Entry::Abandoned => true,
    }
}

/// Returns true if the staged changes of these entries surely leave all programs as they are.
fn keep_programs(entries: &[Entry]) -> bool
    ensures { IsTrue result → All KeepsPrograms (staged_of (map entry_of entries.now)) }
{
    for entry in entries {
        if !keeps_programs(entry) {
            return false;
        }
    }
    true
}

/// Returns for each node after the staged changes of these entries the first that has the same program.
fn firsts_after(
    alloc: Global,
    before: &[NodeSlot],
    firsts: &[usize],
    staged: &[Entry],
    nodes: &[NodeSlot],
) -> Result<Vec<usize>, AllocError>
    requires firsts { KnowsFirsts before.now firsts.now }
    requires nodes { nodes.now ≡ all_applied before.now (staged_of (map entry_of staged.now)) }
    ensures { IfOk result (λ f. KnowsFirsts nodes.now f.items) }
{
    if !keep_programs(staged) {
        return firsts_of(alloc, nodes);
    }
    let kept = Vec::from_slice(alloc, firsts)?;
    Ok(kept)
}

/// Returns the nodes of a pulse after the staged changes of these entries, if there are any.
fn make_changed(
    alloc: Global,
    pulse: &OpenPulse,
    flags: &[bool],
    firsts: &[usize],
    staged: &[Entry],
) -> Result<Option<Changed>, AllocError>
    requires within { All (λ c. node_of c < length pulse.now.nodes.now) (staged_of (map entry_of staged.now)) }
    requires flags { KnowsClock pulse.now.clock.now pulse.now.nodes.now flags.now }
    requires firsts { KnowsFirsts pulse.now.nodes.now firsts.now }
    ensures nodes { IfOk result (λ changed. nodes_left changed pulse.now.nodes.now
        ≡ all_applied pulse.now.nodes.now (staged_of (map entry_of staged.now))) }
    ensures flags { IfOk result (λ changed. KnowsClock pulse.now.clock.now
        (nodes_left changed pulse.now.nodes.now) (flags_left changed flags.now)) }
    ensures firsts { IfOk result (λ changed. KnowsFirsts (nodes_left changed pulse.now.nodes.now)
        (firsts_left changed firsts.now)) }
{
    if !any_staged(staged) {
        return Ok(None);
    }
    let mut nodes = copied(alloc, pulse.nodes)?;
    let mut flags = Vec::from_slice(alloc, flags)?;
    apply_all(alloc, pulse.clock, &mut nodes, &mut flags, staged)?;
    let firsts = firsts_after(alloc, pulse.nodes, firsts, staged, &nodes)?;
    Ok(Some(Changed {
        nodes,
        flags,
        firsts,
    }))
}

/// Returns the nodes that changes leave of these.
fn left<'a>(changed: &'a Option<Changed>, nodes: &'a [NodeSlot]) -> &'a [NodeSlot]
    ensures { result.now ≡ nodes_left changed.now nodes.now }
{
    match changed {
        Some(changed) => &changed.nodes,
        None => nodes,
    }
}

/// What opening a pulse comes to, before the bench is changed.
#[derive(Drop)]
pub(crate) struct Prepared {
    pub(crate) changed: Option<Changed>,
    pub(crate) tasks: Vec<NodeTask>,
}

/// What an opening knows of a bench's nodes, what is staged, and whether it hands out tasks.
#[derive(Clone, Copy)]
pub(crate) struct Opening<'a> {
    pub(crate) flags: &'a [bool],
    pub(crate) firsts: &'a [usize],
    pub(crate) staged: &'a [Entry],
    pub(crate) hands_out: bool,
}

/// Returns the nodes of a pulse after the staged changes of these entries, and their tasks.
pub(crate) fn prepare(
    alloc: Global,
    pulse: &OpenPulse,
    opening: &Opening,
    earlier: &mut Vec<NodeDone>,
) -> Result<Prepared, AllocError>
    requires count { length pulse.now.nodes.now ≡ pulse.now.shape.nodes }
    requires within { All (λ c. node_of c < pulse.now.shape.nodes) (staged_of (map entry_of opening.now.staged.now)) }
    requires after { All (FitsShape pulse.now.shape)
        (all_applied pulse.now.nodes.now (staged_of (map entry_of opening.now.staged.now))) }
    requires mail { length pulse.now.mail.now ≡ pulse.now.shape.nodes }
    requires coins { AreCoins pulse.now.shape pulse.now.coins.now }
    requires flags { KnowsClock pulse.now.clock.now pulse.now.nodes.now opening.now.flags.now }
    requires firsts { KnowsFirsts pulse.now.nodes.now opening.now.firsts.now }
    ensures nodes { IfOk result (λ p. nodes_left p.changed pulse.now.nodes.now
        ≡ all_applied pulse.now.nodes.now (staged_of (map entry_of opening.now.staged.now))) }
    ensures flags { IfOk result (λ p. KnowsClock pulse.now.clock.now
        (nodes_left p.changed pulse.now.nodes.now) (flags_left p.changed opening.now.flags.now)) }
    ensures firsts { IfOk result (λ p. KnowsFirsts (nodes_left p.changed pulse.now.nodes.now)
        (firsts_left p.changed opening.now.firsts.now)) }
    ensures tasks { IsTrue opening.now.hands_out → IfOk result (λ p. p.tasks.items
        ≡ tasks_from (setup_in pulse.now) pulse.now.mail.now pulse.now.coins.now pulse.now.opening 0
        (nodes_left p.changed pulse.now.nodes.now)) }
{
    let changed = make_changed(alloc, pulse, opening.flags, opening.firsts, opening.staged)?;
    let next = OpenPulse {
        shape: pulse.shape,
        rule: pulse.rule,
        clock: pulse.clock,
        nodes: left(&changed, pulse.nodes),
        mail: pulse.mail,
        coins: pulse.coins,
        opening: pulse.opening,
    };
    let tasks = tasks_if(opening.hands_out, alloc, &next, earlier)?;
    Ok(Prepared { changed, tasks })
}

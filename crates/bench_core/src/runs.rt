//! The runs of a pulse in the bench itself: of equal inputs one is run.
ghost use Rattle.std.specs.Prelude.{◌≡◌, ◌<◌, ◌≤◌, ◌++◌, ◌∷◌, [], ℕ, List, All, IfOk, IfSome, IsTrue, OnOk, Some, get_or, length, slice_get};
ghost use Rattle.bench_core.specs.State.{node_at};
ghost use Rattle.bench_core.specs.Tasks.{Done, IsEnd};
ghost use Rattle.bench_core.specs.declared.found.Found.TheVariants.{Missing};
ghost use Rattle.bench_core.specs.inner.Found.{found_at};
ghost use Rattle.bench_core.specs.inner.Nodes.{KnowsFirsts};
ghost use Rattle.bench_core.specs.inner.OpenPulse.{PartsFit, setup_in, state_of_open};
ghost use Rattle.bench_core.specs.inner.Served.{AreRuns, AreServed, IsServed, IsRunOf, SeesAlike, steps_at};

use crate::found::Found;
use crate::pulse::OpenPulse;
use crate::recent::Recent;
use crate::task::{NodeDone, NodeTask};
use crate::task_lists::TaskLists;
use bpf_run::RunScratch;
use bpf_verify::VerifiedProgram;
use node_env::{Env, InboxRoom};
use std::alloc::{AllocError, Global};
use std::mem;

/// The results of a pulse, and what the runs of each pulse take over from the one before.
#[derive(Drop)]
pub(crate) struct Runs {
    pub(crate) dones: Vec<NodeDone>,
    /// A list of steps that is no longer used, which the next pulse fills.
    pub(crate) steps: Vec<u32>,
    inbox: InboxRoom,
    recent: Recent,
    room: RunScratch,
}

/// What a node's program gets: memory and all that it sees.
#[derive(Clone, Copy)]
struct Input<'a> {
    program: &'a VerifiedProgram,
    memory: &'a [u8],
    env: &'a Env,
}

/// Returns true if the nodes of these numbers are surely equal by their programs.
fn is_same_first(firsts: &[usize], node: u32, other: u32) -> bool
    ensures { IsTrue result → get_or firsts.now other 0 ≡ get_or firsts.now node 0 }
{
    let (node, other) = (node as usize, other as usize);
    node < firsts.len() && other < firsts.len() && firsts[other] == firsts[node]
}

/// Returns the place of the result of an equal input at another node, if one of the last has it.
fn place_alike(
    recent: &mut Recent,
    dones: &[NodeDone],
    firsts: &[usize],
    input: &Input,
) -> Option<usize>
    ensures { IfSome result (λ place. (one : Done) × (slice_get dones.now place ≡ Some one)
        × SeesAlike firsts.now input.now.program.now input.now.memory.now input.now.env.now one) }
{
    if !recent.is_patient() || !input.program.is_blind() {
        return None;
    }
    let mut is_compared = false;
    for place in recent.places() {
        if let Some(done) = dones.get(place) {
            if done.coin() == input.env.coin()
                && is_same_first(firsts, input.env.id(), done.node())
            {
                if done.is_seen_with(input.memory, input.env) {
                    recent.hit();
                    return Some(place);
                }
                is_compared = true;
            }
        }
    }
    recent.miss(dones.len(), is_compared);
    None
}

impl Runs {
    /// Returns no results.
    pub(crate) fn new(alloc: Global) -> Runs {
        Runs {
            dones: Vec::new(alloc),
            steps: Vec::new(alloc),
            inbox: InboxRoom::new(alloc),
            recent: Recent::none(0),
            room: RunScratch::new(),
        }
    }

    /// Drops all results, before a pulse of this many nodes.
    fn begin(&mut self, nodes: u32)
        ensures { self.new.dones.items ≡ [] }
    {
        self.dones.clear();
        self.recent.begin(nodes as usize);
    }

    /// Runs a program, in the lists of an earlier result, and puts its result last.
    fn run(
        &mut self,
        alloc: Global,
        opening: u32,
        earlier: Option<NodeDone>,
        program: &VerifiedProgram,
        memory: &[u8],
        env: Env,
    ) -> Result<(), AllocError>
        requires shape { program.now.shape ≡ env.shape }
        requires memory { length memory.now ≡ env.shape.memory }
        ensures { OnOk result ((d : Done) × (self.new.dones.items ≡ self.old.dones.items ++ d ∷ [])
            × IsRunOf opening program.now memory.now env d) }
    {
        let TaskLists { inbox, results } = TaskLists::of(alloc, env.shape(), earlier)?;
        self.inbox = inbox;
        let node = env.id();
        let task = NodeTask::of(opening, node, program, env, memory, results)?;
        let done = task.run_in(&mut self.room);
        self.dones.push(done)?;
        Ok(())
    }

    /// Finds a node's result: that of an equal input, or of its own run. An empty node has none.
    fn serve(
        &mut self,
        alloc: Global,
        pulse: &OpenPulse,
        firsts: &[usize],
        earlier: &mut Vec<NodeDone>,
        node: u32,
    ) -> Result<Found, AllocError>
        requires parts { PartsFit pulse.now }
        requires firsts { KnowsFirsts pulse.now.nodes.now firsts.now }
        requires node { node < pulse.now.shape.nodes }
        requires runs { AreRuns pulse.now self.old.dones.items }
        ensures runs { OnOk result (AreRuns pulse.now self.new.dones.items) }
        ensures more { OnOk result ((more : List Done) × (self.new.dones.items ≡ self.old.dones.items ++ more)) }
        ensures served { IfOk result (λ found. IsServed (setup_in pulse.now)
            (state_of_open pulse.now) pulse.now.coins.now
            self.new.dones.items node found) }
    {
        let slot = &pulse.nodes[node as usize];
        let Some(program) = &slot.program else {
            return Ok(Found::Missing);
        };
        let memory = slot.memory.as_slice();
        let coin = pulse.coins[node as usize];
        let inbox = mem::replace(&mut self.inbox, InboxRoom::new(alloc));
        let env = Env::with_mail_in(inbox, pulse.shape, node, pulse.mail, coin)?;
        let input = Input {
            program,
            memory,
            env: &env,
        };
        if let Some(place) = place_alike(&mut self.recent, &self.dones, firsts, &input) {
            self.inbox = env.into_inbox_room(alloc);
            return Ok(Found::At(place));
        }
        let place = self.dones.len();
        self.run(alloc, pulse.opening, earlier.pop(), program, memory, env)?;
        Ok(Found::At(place))
    }
}

/// Runs each loaded node of the pulse in node order, of equal inputs the first, in the lists of earlier results. Tells
/// where each node's result is.
pub(crate) fn run_nodes(
    alloc: Global,
    pulse: &OpenPulse,
    firsts: &[usize],
    earlier: &mut Vec<NodeDone>,
    runs: &mut Runs,
    found: &mut [Found],
) -> Result<(), AllocError>
    requires parts { PartsFit pulse.now }
    requires firsts { KnowsFirsts pulse.now.nodes.now firsts.now }
    requires room { pulse.now.shape.nodes ≤ length found.old }
    ensures { OnOk result (AreServed (setup_in pulse.now)
        (state_of_open pulse.now) pulse.now.coins.now runs.new.dones.items
        found.new) }
{
    let count = pulse.shape.nodes();
    runs.begin(count);
    for node in 0..count {
        found[node as usize] = runs.serve(alloc, pulse, firsts, earlier, node)?;
    }
    Ok(())
}

/// Returns how many instructions the result took that was found, 0 if there is none.
fn steps_of(dones: &[NodeDone], found: Found) -> u32
    ensures { result ≡ steps_at dones.now found }
{
    let Found::At(place) = found else {
        return 0;
    };
    match dones.get(place) {
        Some(done) => done.steps(),
        None => 0,
    }
}

/// Returns how many instructions each of this many nodes took, in the list of earlier ones.
pub(crate) fn steps_found(
    earlier: Vec<u32>,
    count: u32,
    dones: &[NodeDone],
    found: &[Found],
) -> Result<Vec<u32>, AllocError>
    requires { count ≤ length found.now }
    ensures count { IfOk result (λ steps. length steps.items ≡ count) }
    ensures each { IfOk result (λ steps. (i : ℕ) → i < count
        → get_or steps.items i 0 ≡ steps_at dones.now (found_at found.now i)) }
{
    let mut steps = earlier;
    steps.clear();
    for node in 0..count {
        steps.push(steps_of(dones, found[node as usize]))?;
    }
    Ok(steps)
}

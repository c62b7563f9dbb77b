//! What is told of a closed pulse.
ghost use Rattle.std.specs.Prelude.{◌≡◌, ◌≢◌, ◌↔◌, ◌<◌, ◌≤◌, All, IfOk, IsTrue, length, map};
ghost use Rattle.clock_nodes.specs.declared.rule.TheConstants.{MAX_MODULUS};
ghost use Rattle.bench_core.specs.declared.found.TheConstants.{PLACES};
ghost use Rattle.bench_core.specs.declared.limits.TheConstants.{MAX_COUNTED, MAX_BENCH_PULSES};
ghost use Rattle.bench_core.specs.Settled.{clocks_where};
ghost use Rattle.bench_core.specs.Told.{row_from, told_clock};
ghost use Rattle.bench_core.specs.inner.Told.{both_marked, joined_of, HoldsClocks, IsMostSteps};

use crate::limits::CLOCKS_DIFFER;
use crate::node::NodeSlot;
use crate::node_clocks::NodeClocks;
use crate::node_flags::NodeFlags;
use crate::row::Row;
use crate::task::NodeDone;
use std::alloc::{AllocError, Global};
use std::marker::Model;

/// What is told of a closed pulse.
#[derive(Drop)]
pub struct PulseRecord {
    pub row: Row,
    /// The four bytes of each node that ran the bench's clock, also where these are the modulus or more.
    pub clocks: NodeClocks,
    /// Which nodes ran it in the closed pulse before as well.
    pub settled: NodeFlags,
    /// The greatest number of instructions that a node ran, 0 if none is loaded.
    pub steps: u32,
    /// Whether any two settled clocks that are not 0 are equal, by their values: one past the modulus counts as 0.
    pub agree: bool,
}

impl Model for PulseRecord {
    ghost use Rattle.bench_core.specs.Told.{PulseTold};

    ghost Value = { PulseTold };

    ghost view = { λ r. record {
      row = r.row;
      clocks = r.clocks;
      settled = r.settled;
      steps = r.steps;
      agree = r.agree;
    } };
}

/// What is told of a pulse that the bench itself ran, its coins, and how many instructions each node ran, 0 if it is
/// empty. `Bench::reuse` takes the lists back.
#[derive(Drop)]
pub struct Ran {
    pub told: PulseRecord,
    pub coins: Vec<u32>,
    pub steps: Vec<u32>,
}

/// What is told of a pulse, and its coins.
#[derive(Drop)]
pub(crate) struct Finished {
    pub(crate) told: PulseRecord,
    pub(crate) coins: Vec<u32>,
}

/// Room for what will be told of a pulse: the marks before its close, and the list that its clocks need.
#[derive(Drop)]
pub(crate) struct RecordScratch {
    pub(crate) settled: NodeFlags,
    pub(crate) clocks: Vec<Option<u32>>,
}

/// Returns room for what will be told of a pulse of these nodes.
pub(crate) fn make_room(alloc: Global, nodes: &[NodeSlot]) -> Result<RecordScratch, AllocError>
    requires { length nodes.now ≤ PLACES }
    ensures settled { IfOk result (λ r. r.settled ≡ map (λ x. x.mark) nodes.now) }
    ensures clocks { IfOk result (λ r. HoldsClocks (length nodes.now) r.clocks.items) }
{
    Ok(RecordScratch {
        settled: NodeFlags::marks(nodes),
        clocks: NodeClocks::room(alloc, nodes.len())?,
    })
}

/// Returns what is told of a pulse, the one of this number, that these results closed and that left these nodes.
pub(crate) fn tell(
    room: RecordScratch,
    modulus: u32,
    pulse: u32,
    nodes: &[NodeSlot],
    dones: &[NodeDone],
) -> PulseRecord
    requires first { 1 ≤ pulse }
    requires last { pulse ≤ MAX_BENCH_PULSES }
    requires settled { length room.settled ≡ length nodes.now }
    requires clocks { HoldsClocks (length nodes.now) room.clocks.items }
    requires few { length nodes.now ≤ MAX_COUNTED }
    requires memory { All (λ x. 4 ≤ length x.memory) nodes.now }
    requires small { All (λ c. c < MAX_MODULUS)
        (clocks_where modulus (both_marked room.settled nodes.now) nodes.now) }
    ensures row { result.row ≡ row_from modulus pulse (both_marked room.settled nodes.now) nodes.now }
    ensures clocks { result.clocks ≡ map told_clock nodes.now }
    ensures settled { result.settled ≡ both_marked room.settled nodes.now }
    ensures steps { IsMostSteps dones.now result.steps }
    ensures agree { IsTrue result.agree ↔ (result.row.common ≢ CLOCKS_DIFFER) }
{
    let RecordScratch { settled, clocks } = room;
    let settled = settled.kept(nodes);
    let clocks = NodeClocks::told(clocks, nodes);
    let row = row_told(modulus, pulse, settled.as_slice(), nodes);
    PulseRecord {
        row,
        clocks,
        settled,
        steps: most_steps(dones),
        agree: row.common != CLOCKS_DIFFER,
    }
}

/// Returns the row of settled nodes.
fn row_told(modulus: u32, pulse: u32, settled: &[bool], nodes: &[NodeSlot]) -> Row
    requires first { 1 ≤ pulse }
    requires last { pulse ≤ MAX_BENCH_PULSES }
    requires count { length settled.now ≡ length nodes.now }
    requires few { length settled.now ≤ MAX_COUNTED }
    requires room { All (λ x. 4 ≤ length x.memory) nodes.now }
    requires small { All (λ c. c < MAX_MODULUS) (clocks_where modulus settled.now nodes.now) }
    ensures { result ≡ row_from modulus pulse settled.now nodes.now }
{
    let mut common = 0;
    let mut zeros = 0;
    let mut count = 0;
    for i in 0..nodes.len() {
        let node = &nodes[i];
        if settled[i] {
            count += 1;
            let clock = node.value(modulus);
            if clock == 0 {
                zeros += 1;
            } else {
                common = joined(common, clock);
            }
        }
    }
    Row {
        pulse,
        common,
        zeros,
        settled: count,
    }
}

/// Returns the common clock of all so far and of one more.
fn joined(common: u32, clock: u32) -> u32
    ensures { result ≡ joined_of common clock }
{
    if common == 0 || common == clock {
        clock
    } else {
        CLOCKS_DIFFER
    }
}

/// Returns the greatest number of steps of these results.
fn most_steps(dones: &[NodeDone]) -> u32
    ensures { IsMostSteps dones.now result }
{
    let mut most = 0;
    for done in dones {
        let steps = done.steps();
        if steps > most {
            most = steps;
        }
    }
    most
}

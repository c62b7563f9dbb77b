//! Nodes to test, their clock program, and what is told of their pulses.
ghost use Rattle.std.specs.Prelude.{◌≡◌};

use bench_core::{Change, PulseRecord};
use bench_engine::Event;
use bpf_verify::{VerifiedProgram, verify};
use clock_nodes::{ClockRule, dolev_welch};
use node_env::Shape;
use std::alloc::Global;
use std::process::Abort;
use std::test::Fail;

/// Four coins of 1.
pub const ONES: [u32; 4] = [1; 4];

/// Nodes with 8 bytes of memory, and the rule of their clocks.
#[derive(Clone, Copy)]
pub struct Setup {
    pub shape: Shape,
    pub rule: ClockRule,
    ghost same: { rule.nodes ≡ shape.nodes },
}

impl Setup {
    /// Returns this many nodes, of which `faults` may be faulty, with clocks below the modulus.
    pub fn of(nodes: u32, faults: u32, modulus: u32) -> Result<Setup, Fail> {
        let Some(shape) = Shape::of(nodes, 8) else {
            return Err("no shape")?;
        };
        let Some(rule) = ClockRule::of(nodes, faults, modulus) else {
            return Err("no rule")?;
        };
        Ok(Setup { shape, rule })
    }

    /// Returns four nodes, of which one may be faulty, with clocks below 8.
    pub fn four() -> Result<Setup, Fail> {
        Setup::of(4, 1, 8)
    }

    /// Returns the clock program of the rule.
    pub fn clock(&self, alloc: Global) -> Result<VerifiedProgram, Fail> {
        let program = dolev_welch(alloc, self.shape, self.rule)?;
        match verify(alloc, &program, self.shape) {
            Ok(verified) => Ok(verified),
            Err(_) => Err("not accepted")?,
        }
    }

    /// Returns a load of the clock for each node, and then pulses with these coins.
    pub fn events<const N: usize>(
        &self,
        alloc: Global,
        pulses: &[[u32; N]],
    ) -> Result<Vec<Event>, Fail> {
        let program = self.clock(alloc)?;
        let mut events = Vec::new(alloc);
        for node in 0..self.shape.nodes() {
            let program = program.copy()?;
            events.push(Event::Stage(Change::Load { node, program }))?;
        }
        for coins in pulses {
            events.push(Event::Pulse(coins.to_vec(alloc)?))?;
        }
        Ok(events)
    }
}

/// Requires that a record has this row (pulse, common clock, zeros, settled nodes), these clocks and settled nodes.
pub fn assert_told(
    rt: &impl Abort,
    record: &PulseRecord,
    row: [u32; 4],
    clocks: &[Option<u32>],
    settled: &[bool],
) {
    let told = record.row;
    assert_eq!(rt; [told.pulse, told.common, told.zeros, told.settled], row);
    assert_eq!(rt; record.clocks.as_slice(), clocks);
    assert_eq!(rt; record.settled.as_slice(), settled);
}

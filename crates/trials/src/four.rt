//! Four clocks, one of which may be faulty: the bed of every case.
ghost use Rattle.std.specs.Prelude.{◌≡◌};

use crate::stop::{Stop, Wrong};
use bench_core::PulseRecord;
use bpf_insn::Program;
use bpf_verify::{VerifiedProgram, VerifyError, verify};
use clock_nodes::{ClockRule, dolev_welch};
use node_env::Shape;
use std::alloc::{AllocError, Global};

pub const NODES: u32 = 4;

/// The bytes of a node's memory: a pair alone.
pub const MEMORY: u32 = 8;

/// The coins of each pulse.
pub const ONES: [u32; 4] = [1; 4];

/// The longest path of the clock for four nodes.
pub const ANNOUNCED: u32 = 45;

/// How many pulses a run of events has.
pub const PULSES: u32 = 3;

/// The clock, the settled nodes and the steps of the first pulses of four clocks whose coins are 1.
pub const ROWS: [(u32, u32, u32); PULSES as usize] = [(0, 0, 36), (1, 4, 44), (2, 4, 41)];

/// The shape of the nodes, and the rule of their clocks.
#[derive(Drop)]
pub struct Four {
    pub shape: Shape,
    pub rule: ClockRule,
    ghost nodes: { rule.nodes ≡ shape.nodes },
}

/// Returns four nodes, of which one may be faulty.
pub fn four_nodes() -> Four {
    match (Shape::of(NODES, MEMORY), ClockRule::of(NODES, 1, 8)) {
        (Some(shape), Some(rule)) => Four { shape, rule },
        _ => unreachable!(),
    }
}

/// Returns the clock program.
pub fn clock(alloc: Global, four: &Four) -> Result<Program, AllocError> {
    dolev_welch(alloc, four.shape, four.rule)
}

/// Returns the program, accepted.
pub fn accepted(alloc: Global, program: &Program, four: &Four) -> Result<VerifiedProgram, Stop> {
    match verify(alloc, program, four.shape) {
        Ok(accepted) => Ok(accepted),
        Err(VerifyError::Memory) => Err(Stop::Memory),
        Err(VerifyError::Refused { .. }) => Err(Stop::Wrong(Wrong::Refusal)),
    }
}

/// Returns the clock program, accepted.
pub fn accepted_clock(alloc: Global, four: &Four) -> Result<VerifiedProgram, Stop> {
    let program = clock(alloc, four)?;
    accepted(alloc, &program, four)
}

/// Returns whether it is the record of four clocks that agree, with this row.
pub fn is_row(told: &PulseRecord, row: (u32, u32, u32)) -> bool {
    let (clock, settled, steps) = row;
    told.row.settled == settled
        && told.steps == steps
        && told.agree
        && told.clocks.as_slice() == [Some(clock); NODES as usize].as_slice()
}

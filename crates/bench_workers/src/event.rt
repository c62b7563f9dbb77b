//! Events, runs and faults.
use bench_core::{Change, PulseRecord};

/// What is done to a bench: a change is staged, or a pulse is opened with these coins, run and closed.
#[derive(Drop)]
pub enum Event {
    Stage(Change),
    Pulse(Vec<u32>),
}

/// The records of the pulses, and the memories that are left.
#[derive(Drop)]
pub struct Run {
    pub records: Vec<PulseRecord>,
    pub memories: Vec<Vec<u8>>,
}

/// Why an event is refused.
#[derive(Clone, Copy, Debug, PartialEq, Eq)]
pub enum RunRefusal {
    BadNode,
    OtherShape,
    BadImage,
    HistoryFull,
    Memory,
    BadCoins,
    NoThread,
    GateShut,
}

/// The place of the first event that is refused, from 0 on, and why.
#[derive(Clone, Copy, Debug, PartialEq, Eq)]
pub struct RunFault {
    pub event: u32,
    pub fault: RunRefusal,
}

//! What the hands on one bench do.

/// How many hands there are, and what they do.
#[derive(Clone, Copy, Debug, PartialEq, Eq)]
pub struct StressOptions {
    pub loaders: u32,
    /// The programs that each loader loads.
    pub loads: u32,
    pub pulses: u32,
    /// On how many workers the tasks of a pulse are run.
    pub workers: u32,
}

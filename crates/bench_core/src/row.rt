//! What is posted of a closed pulse.
use std::marker::Model;

/// A closed pulse in four numbers.
#[derive(Clone, Copy, PartialEq, Eq, Debug)]
pub struct Row {
    /// How many pulses are closed, this one included.
    pub pulse: u32,
    /// The one clock of settled nodes that is not 0: 0 if there is none, [`crate::CLOCKS_DIFFER`] if two differ.
    pub common: u32,
    /// How many settled nodes have clock 0, or a clock past the modulus.
    pub zeros: u32,
    /// How many nodes are settled.
    pub settled: u32,
}

impl Model for Row {
    ghost use Rattle.bench_core.specs.Told.{Row as RowValue, IsPulseRow};

    ghost Value = { RowValue };

    ghost view = { λ r. record { pulse = r.pulse; common = r.common; zeros = r.zeros; settled = r.settled } };

    ghost invariant = { λ r.
        IsPulseRow (record { pulse = r.pulse; common = r.common; zeros = r.zeros; settled = r.settled }) };

    ghost inverse = { λ v. record { pulse = v.pulse; common = v.common; zeros = v.zeros; settled = v.settled } };
}

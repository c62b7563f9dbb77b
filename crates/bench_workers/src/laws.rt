//! Laws of runs.

ghost use Rattle.bench_workers.specs.Laws.{OneRun, OneShowing};

/// States that a list of events has at most one run: its records and what it leaves don't depend on how many workers
/// ran it.
pub fn one_run()
    ensures { OneRun }
{}

/// States that a list of events on a new bench shows at most one list of pulses: coins, states, records, and the steps
/// of each node.
pub fn one_showing()
    ensures { OneShowing }
{}
